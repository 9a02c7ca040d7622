//! Forms that count the parts of a list, or look a list up in a table.

ghost use Rattle.std.specs.Prelude.{◌≡◌, ◌||◌, map, option_map};
ghost use Rattle.ep_base.specs.Numbers as numbers;
ghost use Rattle.ep_base.specs.Numbers.{is_row_of, times_in};
ghost use Rattle.ep_base.specs.Options.{on_both, on_three};
ghost use Rattle.ep_tree.specs.Evaluation.{rows_in, scalars_in, truth_in};
ghost use Rattle.ep_eval.specs.Counting.{Gives};
ghost use Rattle.ep_eval.specs.Helds.{seen_held};

use super::errors::EvalError;
use super::forms::{holds, truth_value};
use super::held::Held;
use super::operands::{rows, scalars};
use super::orders::are_equal;
use ep_base::CompareOp;
use ep_tree::Mode;
use std::alloc::Global;

/// How often a number stands in a list.
fn times(parts: &[i64], number: i64) -> i64
    ensures { result ≡ times_in parts.now number }
{
    let mut times = 0;
    for part in parts {
        if !are_equal(number, *part) {
            continue;
        }
        times += 1;
    }
    times
}

/// Whether each of some numbers stands in a list as often as is compared with its count. This has no value where the
/// numbers and the counts are not equally many.
fn counts_hold(op: CompareOp, parts: &[i64], values: &[i64], counts: &[i64]) -> Option<bool>
    ensures { result ≡ numbers.counts_hold op parts.now values.now counts.now }
{
    if values.len() != counts.len() {
        return None;
    }
    for (i, value) in values.iter().enumerate() {
        if !holds(op, times(parts, *value), counts[i]) {
            return Some(false);
        }
    }
    Some(true)
}

/// The same, where the numbers and the counts have values.
fn told(
    op: CompareOp,
    parts: &[i64],
    values: Option<Vec<i64>>,
    counts: Option<Vec<i64>>,
) -> Option<bool>
    ensures { result ≡ on_both (option_map (λ v. v.items) values) (option_map (λ v. v.items) counts)
        (numbers.counts_hold op parts.now) }
{
    match values {
        Some(values) => match counts {
            Some(counts) => counts_hold(op, parts, &values, &counts),
            None => None,
        },
        None => None,
    }
}

/// `gcc(m, values, counts)` and its like
pub fn counting<'a>(
    alloc: Global,
    mode: Mode,
    op: CompareOp,
    seen: &Option<Held>,
    values: &Option<Held>,
    counts: &Option<Held>,
) -> Result<Option<Held<'a>>, EvalError>
    ensures { Gives result (truth_in mode (on_three (scalars_in (seen_held seen.now))
        (scalars_in (seen_held values.now)) (scalars_in (seen_held counts.now)) (numbers.counts_hold op))) }
{
    let parts = scalars(alloc, seen)?;
    let values = scalars(alloc, values)?;
    let counts = scalars(alloc, counts)?;
    match parts {
        Some(parts) => Ok(truth_value(mode, told(op, &parts, values, counts))),
        None => Ok(truth_value(mode, None)),
    }
}

/// Whether two lists are one.
fn are_same(left: &[i64], right: &[i64]) -> bool
    ensures { result ≡ numbers.same_numbers left.now right.now }
{
    if left.len() != right.len() {
        return false;
    }
    for (i, x) in left.iter().enumerate() {
        if !are_equal(*x, right[i]) {
            return false;
        }
    }
    true
}

/// Whether a row is found, now or before.
fn is_found(found: bool, row: &[i64], parts: &[i64]) -> bool
    ensures { result ≡ (found || numbers.same_numbers row.now parts.now) }
{
    if found {
        return true;
    }
    are_same(row, parts)
}

/// Whether a list is one of some rows. This has no value where a row has another length.
fn is_row(rows: &[Vec<i64>], parts: &[i64]) -> Option<bool>
    ensures { result ≡ is_row_of (map (λ v. v.items) rows.now) parts.now }
{
    let mut found = false;
    for row in rows {
        if row.len() != parts.len() {
            return None;
        }
        found = is_found(found, row, parts);
    }
    Some(found)
}

/// `table(row, rows)`
pub fn look_up_row<'a>(
    alloc: Global,
    mode: Mode,
    row: &Option<Held>,
    table: &Option<Held>,
) -> Result<Option<Held<'a>>, EvalError>
    ensures { Gives result (truth_in mode (on_both (rows_in (seen_held table.now))
        (scalars_in (seen_held row.now)) is_row_of)) }
{
    let parts = scalars(alloc, row)?;
    let rows = rows(alloc, table)?;
    match rows {
        Some(rows) => match parts {
            Some(parts) => Ok(truth_value(mode, is_row(&rows, &parts))),
            None => Ok(truth_value(mode, None)),
        },
        None => Ok(truth_value(mode, None)),
    }
}
