//! Reads lists, functions, quantifiers and domains, whose parts are all lower, by what reads these.
#![tactic(auto)]

mod below;
mod brackets;
mod domains;
mod functions;

pub use below::Below;
