//! Solves the cubes of a formula side by side, each in a thread of its own, and joins their logs into one.
#![tactic(auto)]

mod cubed;
mod gate;
mod solving;
mod waves;

pub use cubed::Cubed;
pub use gate::{CubeGate, OpenCubeGate};
pub use waves::solve_cubes;
