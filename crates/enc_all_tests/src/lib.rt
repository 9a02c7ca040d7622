//! Tests over flat constraints: what the solver finds by their clauses, and what a search through all numbers of the
//! variables does.
#![tactic(auto)]

#[cfg(test)]
mod atoms;
#[cfg(test)]
mod deciding;
#[cfg(test)]
mod meanings;
#[cfg(test)]
mod rows;
#[cfg(test)]
mod sound;
#[cfg(test)]
mod table;
#[cfg(test)]
mod tables;
