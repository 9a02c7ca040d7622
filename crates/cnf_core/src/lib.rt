//! Clauses, formulas and logs: what the encoders write, what the solver reads and extends, and what
//! a log checker reads again.
#![tactic(auto)]

mod clause;
mod entries;
mod formula;
mod laws;
mod lists;
mod lit;
mod log;

pub use clause::Clause;
pub use entries::EventList;
pub use formula::Formula;
pub use laws::{
    Condition, an_effective_step_needs_its_last_literal, keeping_composes, new_steps_are_few,
    no_step_is_effective_after_a_conflict, valid_steps_follow,
};
pub use lists::ClauseList;
pub use lit::{Lit, MOST_VARIABLE};
pub use log::{CellNote, Log};
