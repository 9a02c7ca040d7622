//! Clauses of statements on variables: what the encoders build constraints from, without seeing a literal.
#![tactic(auto)]

mod atoms;
mod clauses;
mod guarded;
mod never;
mod pairs;
mod truths;

pub use atoms::{Atom, Test};
pub use clauses::add_clause;
pub use guarded::add_guarded;
pub use never::add_never;
pub use pairs::{Place, add_decided, add_implied, add_not_both, all_are};
pub use truths::new_truths;
