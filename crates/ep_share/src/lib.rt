//! Grounds whose sums share what they have in common: two parts that stand together in several sums become one term.
#![tactic(auto)]

mod counting;
mod cutting;
mod making;
mod pairs;
mod sharing;

pub use sharing::{MOST_NODES, share};
