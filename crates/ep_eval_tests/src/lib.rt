//! Tests of evaluation: the values and types of small expressions in both modes.
#![tactic(auto)]

#[cfg(test)]
mod rows;
#[cfg(test)]
mod single;
#[cfg(test)]
mod types;
