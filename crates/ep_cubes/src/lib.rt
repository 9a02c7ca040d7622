//! One solution by cubes that are solved side by side, as numbers of cells.
#![tactic(auto)]

mod finding;
mod reading;

pub use finding::find_in_cubes;
pub use reading::read_values;
