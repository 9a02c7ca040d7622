//! Grounds without undefinedness.
#![tactic(auto)]

mod all;
mod clauses;
mod images;
mod kinds;
mod nodes;
mod remove;
mod steps;

pub use remove::{MOST_NODES, remove_undefined};
