//! Grounds as flat problems.
#![tactic(auto)]

mod asserting;
mod building;
mod constraints;
mod flattening;
mod forms;
mod images;
mod intervals;
mod kinds;
mod lists;
mod marks;
mod spans;
mod sums;
mod uses;

pub use flattening::flatten;
