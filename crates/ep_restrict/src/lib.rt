//! Instances with some of their clauses alone.
#![tactic(auto)]

mod laws;
mod restricting;

pub use laws::restricting_lessens;
pub use restricting::restrict;
