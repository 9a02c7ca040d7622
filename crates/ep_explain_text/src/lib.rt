//! The texts of explanations.
#![tactic(auto)]

mod telling;
mod texts;

pub use telling::{Told, tell};
pub use texts::print_explanation;
