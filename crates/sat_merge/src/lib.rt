//! Joins proofs of cubes, as any solver writes them, into one log of the formula that was divided.
#![tactic(auto)]

mod formulas;
mod joining;
mod logs;
mod places;

pub use joining::{JoinError, begin, join_proof};
