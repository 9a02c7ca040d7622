//! Joins the logs of cubes that have no solution into one log of the formula that was divided.
#![tactic(auto)]

mod closing;
mod joining;
mod places;

pub use closing::close;
pub use joining::join_cube;
