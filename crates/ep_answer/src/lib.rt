//! One solution, the best one, or all of them, as numbers of cells.
#![tactic(auto)]

mod answers;
mod blocking;
mod decoding;
mod finding;
mod improving;
mod laws;
mod problem;
mod refusals;

pub use answers::{CellAnswer, CellListing, End};
pub use decoding::read_back;
pub use finding::{enumerate, find_one, optimise};
pub use laws::what_is_posed_is_allowed;
pub use problem::Problem;
