//! Worked rows of the back end's definitions, which the checker computes. A crate of its own, since a row that stands beside its
//! definition asks for everything above it to be proved again.
#![tactic(auto)]
