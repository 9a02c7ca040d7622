//! A set of clauses and a trail of literals that are true, with complete propagation.
#![tactic(auto)]

mod adding;
mod assignment;
mod clauses;
mod list;
mod parts;
mod rows;
mod short;
mod slot;
mod state;
mod values;
mod watch;
mod watches;

pub use short::ShortLit;
pub use state::{Propagated, State};
