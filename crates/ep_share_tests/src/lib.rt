//! Tests of the sharing of common parts of sums.
#![tactic(auto)]

#[cfg(test)]
mod sums;
