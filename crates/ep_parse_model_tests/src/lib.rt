//! Tests over whole texts: which tree each has, and which fault of syntax is named in each.
#![tactic(auto)]

#[cfg(test)]
mod cuts;
#[cfg(test)]
mod following;
pub mod marks;
#[cfg(test)]
mod printed;
#[cfg(test)]
mod reaches;
#[cfg(test)]
mod refusals;
#[cfg(test)]
mod rows;
#[cfg(test)]
mod spelled;
#[cfg(test)]
mod texts;
#[cfg(test)]
mod tokens;
