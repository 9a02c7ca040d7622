//! Squares of hints.

ghost use Rattle.std.specs.Prelude.{◌≡◌, ◌≤◌, ◌<◌, ◌+◌, ℕ, pos, IfOk};
ghost use Rattle.ep_base.specs.Runs.{counting};
ghost use Rattle.ep_tree.specs.Values.{list_value};
ghost use Rattle.ep_tree.specs.Views.{value_tree};
ghost use Rattle.ep_gen.specs.Hints.{nth_number, row_of, square_rows, square_value};

use crate::stream::{hint, next_number};
use ep_base::Memory;
use ep_tree::Value;
use std::alloc::Global;

/// The indices from 1 to the order of a square.
fn indices(alloc: Global, order: u64) -> Result<Vec<i64>, Memory>
    requires order { order ≤ 20 }
    ensures { IfOk result (λ indices. indices.items ≡ counting (pos 1) order) }
{
    let mut indices = Vec::with_capacity(alloc, order as usize)?;
    for i in 0..order {
        indices.push(i as i64 + 1)?;
    }
    Ok(indices)
}

/// The hints of a row, which take the numbers of the stream behind the last one that was taken.
fn row(alloc: Global, order: u64, row: u64, last: &mut u64) -> Result<Value, Memory>
    requires some { 0 < order }
    requires order { order ≤ 20 }
    requires row { row ≤ 20 }
    requires small { last.old < 2147483648 }
    ensures hints { IfOk result (λ value. (number before : ℕ) → last.old ≡ nth_number number before
        → value_tree value ≡ list_value (row_of number order before row)) }
    ensures moved { IfOk result (λ value. (number before : ℕ) → last.old ≡ nth_number number before
        → last.new ≡ nth_number number (before + order)) }
    ensures small { last.new < 2147483648 }
{
    let mut hints = Vec::with_capacity(alloc, order as usize)?;
    for column in 1..=order {
        *last = next_number(*last);
        hints.push(Value::Number(hint(order, row, column, *last)))?;
    }
    Ok(Value::Matrix(indices(alloc, order)?, hints))
}

/// The hints of a number, as a square of an order. Linear in its cells.
pub(crate) fn square(alloc: Global, order: u64, number: u64) -> Result<Value, Memory>
    requires some { 0 < order }
    requires order { order ≤ 20 }
    requires small { number < 2147483648 }
    ensures { IfOk result (λ value. value_tree value ≡ square_value order (square_rows number order)) }
{
    let mut last = number;
    let mut rows = Vec::with_capacity(alloc, order as usize)?;
    for i in 1..=order {
        rows.push(row(alloc, order, i, &mut last)?)?;
    }
    Ok(Value::Matrix(indices(alloc, order)?, rows))
}
