//! A SAT solver that learns from conflicts, and logs each clause that it learns with the clauses
//! that show it.
#![tactic(auto)]

mod adding;
mod learning;
mod levels;
mod marks;
mod met;
mod minimal;
mod order;
mod outcome;
mod places;
mod recent;
mod restarts;
mod search;
mod solver;

pub use outcome::{Outcome, SolveError};
pub use solver::Solver;
