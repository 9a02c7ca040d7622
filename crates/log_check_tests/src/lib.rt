//! Tests of the check of proofs, on one thread and on several.
#![tactic(auto)]

#[cfg(test)]
mod gates;
#[cfg(test)]
mod rows;
#[cfg(test)]
mod verdicts;
