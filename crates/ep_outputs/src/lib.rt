//! Writes the files of a run: the text of what was given to the solver, the steps of a log, an answer, and the texts of a number.
#![tactic(auto)]

mod texts;
mod writing;

pub use texts::formula_text;
pub use writing::{write_answer, write_formula, write_steps, write_texts};
