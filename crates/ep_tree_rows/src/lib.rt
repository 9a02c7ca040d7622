//! Worked rows of the language's definitions, which the checker computes, and of those that all crates stand on. A crate of its own,
//! since a row that stands beside its definition asks for everything above it to be proved again.
#![tactic(auto)]
