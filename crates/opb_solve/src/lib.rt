//! Answers of pseudo-Boolean problems by clauses and the solver.
#![tactic(auto)]

mod laws;
mod posing;
mod replies;
mod solving;

pub use laws::opb_texts_come_to_one_thing;
pub use replies::{OpbRefusal, OpbReply, OpbStop, reply_to_opb};
pub use solving::solve_opb;
