//! Tests that count the steps of searches which go on beside values that were found: from one value of an objective to a better one, and
//! from one solution to the next.
#![tactic(auto)]

#[cfg(test)]
mod improving;
#[cfg(test)]
mod listing;
#[cfg(test)]
mod posing;
