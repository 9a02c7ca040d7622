//! How many rows a matrix has, as far as a weight is told.

ghost use Rattle.std.specs.Prelude.{◌≡◌, length};
ghost use Rattle.ep_tree.specs.Values.{filled, rows_of};
ghost use Rattle.ep_tree.specs.Views.{value_tree};
ghost use Rattle.ep_eval.specs.Helds.{held_value};
ghost use Rattle.ep_size.specs.Extents.{fixed_grid, grid_of, plain_span};
ghost use Rattle.ep_size.specs.Totals.{capped};

use super::cells::set_length;
use super::extents::{Extent, Span};
use super::totals::told;
use ep_base::Runs;
use ep_eval::Held;
use ep_tree::Value;

/// How many rows a value has.
fn value_rows(value: &Value) -> u64
    ensures { result ≡ capped (length (rows_of (fixed_grid (value_tree value.now)))) }
{
    match value {
        Value::Number(_) => 0,
        Value::Matrix(_, parts) => told(parts.len() as u64),
    }
}

/// How many rows a value has that is held.
fn held_rows(held: &Held) -> u64
    ensures { result ≡ capped (length (rows_of (fixed_grid (held_value held.now)))) }
{
    match held {
        Held::Number(_) => 0,
        Held::Lent(value) => value_rows(value),
        Held::Made(value) => value_rows(value),
    }
}

/// How many rows the cells of a decision variable have.
fn cell_rows(span: Span, indices: &[Runs]) -> u64
    ensures { result ≡ capped (length (rows_of (filled (plain_span span) indices.now))) }
{
    match indices.split_first() {
        Some((first, _)) => set_length(first),
        None => 0,
    }
}

/// How many rows a matrix has; a number has none.
pub fn row_count(extent: &Extent) -> u64
    ensures { result ≡ capped (length (rows_of (grid_of extent.now))) }
{
    match extent {
        Extent::Number(_) => 0,
        Extent::Cells(span, indices) => cell_rows(*span, indices),
        Extent::Fixed(held) => held_rows(held),
        Extent::Nothing => 0,
        Extent::NoParts => 0,
        Extent::Matrix(_, parts) => told(parts.len() as u64),
    }
}
