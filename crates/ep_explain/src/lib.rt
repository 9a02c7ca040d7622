//! Why an instance has no solution: clauses that have none together, of which none can be left out.
#![tactic(auto)]

mod around;
mod explaining;
mod left;
mod searches;
mod tries;

pub use explaining::{Dropped, Explained, explain};
pub use searches::Searches;
pub use tries::{Tried, Tries};
