//! How far the terms of a ground reach, and whether a ground may be handed on to the stages that compute with it.
#![tactic(auto)]

mod checks;
mod reaches;

pub use checks::{is_bounded, is_well_formed};
pub use reaches::near_reach;
