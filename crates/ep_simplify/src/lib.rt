//! Grounds made simpler: what numbers and intervals decide is decided, and parts that change nothing are left out.
#![tactic(auto)]

mod copying;
mod news;
mod settling;
mod simpler;
mod truths;

pub use copying::{all, image, with_parts};
pub use news::interned;
pub use simpler::{MOST_NODES, new_ground, simplify};
