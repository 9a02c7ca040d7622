//! Problems.

use enc_var::Layout;
use ep_flat::CellMap;
use ep_ground::Cell;
use sat_search::Solver;

/// A formula in a solver, with cells that its assignments give numbers.
#[derive(Drop)]
pub struct Problem {
    /// The literals of the flat variables.
    pub layout: Layout,
    /// The numbers that are to be found.
    pub cells: Vec<Cell>,
    /// Which flat variables stand for the cells and for the objective.
    pub map: CellMap,
    /// The clauses.
    pub solver: Solver,
}
