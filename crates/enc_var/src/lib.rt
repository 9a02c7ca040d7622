//! Literals for variables with finite domains: what a literal says of a variable's value, and which
//! value an assignment gives it.
#![tactic(auto)]

mod clauses;
mod known;
mod layout;
mod notes;
mod variables;

pub use known::Known;
pub use layout::Layout;
