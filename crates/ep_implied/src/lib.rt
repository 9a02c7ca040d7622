//! A constraint that others imply, which says how small an objective can be.
#![tactic(auto)]

mod bounding;
mod multipliers;
mod rounding;
mod sums;

pub use bounding::add_bound;
