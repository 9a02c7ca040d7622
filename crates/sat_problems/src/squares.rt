//! Latin squares: squares of eight rows and columns, in which no row or column has a value twice.

ghost use Rattle.std.specs.Prelude.{ℕ, ◌+◌, ◌^◌, ◌<◌, ◌≤◌};

use crate::{Numbers, add_at_most_one};
use std::alloc::{AllocError, Global};

// The variable that says that a cell of a square of eight rows and columns has a value from 0 to 7.
fn cell(row: u64, column: u64, value: u64) -> i64
    requires row { row < 8 }
    requires column { column < 8 }
    requires value { value < 8 }
{
    ((row * 8 + column) * 8 + value + 1) as i64
}

// The variables of a cell, of a value in a row, and of a value in a column.
fn add_square_part(
    alloc: Global,
    clauses: &mut Numbers,
    first: u64,
    second: u64,
) -> Result<(), AllocError>
    requires first { first < 8 }
    requires second { second < 8 }
{
    let mut values = Vec::new(alloc);
    let mut columns = Vec::new(alloc);
    let mut rows = Vec::new(alloc);
    for k in 0..8u64 {
        values.push(cell(first, second, k))?;
        columns.push(cell(first, k, second))?;
        rows.push(cell(k, first, second))?;
    }
    clauses.push(values)?;
    add_at_most_one(alloc, clauses, columns.as_slice())?;
    add_at_most_one(alloc, clauses, rows.as_slice())
}

// Each cell of a square of eight rows and columns has a value, and no row or column has a value twice.
fn latin_square(alloc: Global) -> Result<Numbers, AllocError> {
    let mut clauses = Vec::new(alloc);
    for first in 0..8u64 {
        for second in 0..8u64 {
            add_square_part(alloc, &mut clauses, first, second)?;
        }
    }
    Ok(clauses)
}

// The variables of the cells of a square that have digits, row by row.
fn cells(alloc: Global, square: &[u8]) -> Result<Vec<i64>, AllocError> {
    let mut found = Vec::new(alloc);
    for (place, digit) in square.iter().enumerate() {
        let place = place as u64 % 64;
        if *digit >= b'1' && *digit <= b'8' {
            found.push(cell(place / 8, place % 8, (*digit - b'1') as u64))?;
        }
    }
    Ok(found)
}

/// A square in which some cells have hints.
pub fn hinted_square(alloc: Global) -> Result<Numbers, AllocError> {
    let mut clauses = latin_square(alloc)?;
    let hints = cells(
        alloc,
        b"6..8.....781.....6.7....31...2872.3...56..5..4......76.4.5.3.84.",
    )?;
    for hint in hints.as_slice() {
        clauses.push(vec![in alloc; *hint]?)?;
    }
    Ok(clauses)
}

/// The variables that are true for the only square that has the hints of [`hinted_square`].
pub fn square_of_hints(alloc: Global) -> Result<Vec<i64>, AllocError> {
    cells(
        alloc,
        b"6478312557814362462785133146528728341756135264788215763475632841",
    )
}
