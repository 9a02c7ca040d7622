//! What comes of solving the cubes of a formula.

use cnf_core::Log;

/// What comes of solving the cubes of a formula: of the lowest one that isn't refuted, where there is one.
#[derive(Debug, Drop)]
pub enum Cubed {
    /// Values that satisfy the formula.
    Sat {
        /// The number of the cube in which they lie.
        cube: u64,
        /// The values of the variables from 1 on.
        values: Vec<bool>,
        /// The joined log of the lower cubes.
        log: Log,
    },
    /// No values satisfy the formula.
    Unsat {
        /// The joined log of all cubes.
        log: Log,
    },
    /// The budget for a cube was spent.
    Spent {
        /// The number of the cube.
        cube: u64,
        /// Its own log.
        log: Log,
    },
}
