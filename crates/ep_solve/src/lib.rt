//! Answers of instances by clauses and the solver.
#![tactic(auto)]

mod enumerating;
mod formulas;
mod laws;
mod posing;
mod reading_back;
mod solving;

pub use enumerating::enumerate;
pub use formulas::formula_for;
pub use laws::cells_stand_for_values;
pub use solving::{read_back, solve};
