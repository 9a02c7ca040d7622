//! Divides a formula into cubes: the ways to give its lowest variables values.
#![tactic(auto)]

mod literals;
mod logs;
mod variables;

pub use literals::cube_literals;
pub use logs::{cube_log, given_log};
pub use variables::cube_variables;
