//! Grounds as formulas: the stages between both, composed.
#![tactic(auto)]

mod stages;

pub use stages::{Encoded, formula_of};
