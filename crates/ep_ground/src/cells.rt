//! Cells: the numbers that are to be found.

use ep_base::{Key, Name, Runs};

/// A number that is to be found: the cell of a decision variable at some indices.
#[derive(Debug, Drop)]
pub struct Cell {
    /// The name of the decision variable.
    pub name: Name,
    /// The indices within its matrix; none where it is a single number.
    pub indices: Key,
    /// Whether its number stands for a truth value.
    pub truth: bool,
    /// The numbers that it may have.
    pub values: Runs,
}
