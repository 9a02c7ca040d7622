//! Worked rows of what explains why an instance has no solution, which the checker computes. A crate of its own, since a row that stands
//! beside its definition asks for everything above it to be proved again.
#![tactic(auto)]
