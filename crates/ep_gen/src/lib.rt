//! Inputs that are generated from a number: Latin squares with hints.
#![tactic(auto)]

mod hints;
mod stream;
mod texts;

pub use texts::{gen_text, order};
