//! Answers to pseudo-Boolean problems: which are right, and their lines.
#![tactic(auto)]

mod answers;
mod printing;

pub use answers::{OpbAnswer, OpbValue};
pub use printing::print_opb_answer;
