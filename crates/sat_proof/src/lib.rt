//! Proofs as they lie in memory: the lines of a log text, all literals, hints and ids of which lie in
//! one list each.
#![tactic(auto)]

mod order;
mod part;
mod proof;

pub use order::put_in_order;
pub use proof::{Line, Proof, Row};
