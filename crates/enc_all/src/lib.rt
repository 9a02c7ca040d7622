//! Flat problems as formulas.
#![tactic(auto)]

mod families;
mod truths;
mod whole;
mod wide;

pub use whole::encode;
