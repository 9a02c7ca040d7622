//! The answer of an instance by cubes of its formula that are solved side by side.
#![tactic(auto)]

mod dividing;

pub use dividing::solve_in_cubes;
