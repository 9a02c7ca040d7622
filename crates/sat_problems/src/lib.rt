//! Problems that tests pose to the solver, as clauses of numbers: a variable's number, or its negation.
#![tactic(auto)]

mod draws;
mod holes;
mod squares;

pub use draws::drawn;
pub use holes::pigeons;
pub use squares::{hinted_square, square_of_hints};
use std::alloc::{AllocError, Global};

/// Clauses of numbers.
pub type Numbers = Vec<Vec<i64>>;

/// Adds clauses that say that no two of these literals are both true.
fn add_at_most_one(
    alloc: Global,
    clauses: &mut Numbers,
    numbers: &[i64],
) -> Result<(), AllocError> {
    for (place, first) in numbers.iter().enumerate() {
        for second in numbers.iter().skip(place.saturating_add(1)) {
            clauses.push(vec![in alloc; first.wrapping_neg(), second.wrapping_neg()]?)?;
        }
    }
    Ok(())
}
