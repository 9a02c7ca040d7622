//! Tests of types, categories and names over whole texts: which are well formed, and which fault is named in each other one.
#![tactic(auto)]

#[cfg(test)]
mod categories;
#[cfg(test)]
mod forms;
#[cfg(test)]
mod names;
#[cfg(test)]
mod open_domains;
#[cfg(test)]
mod rows;
#[cfg(test)]
mod sizes;
#[cfg(test)]
mod tables;
#[cfg(test)]
mod users;
