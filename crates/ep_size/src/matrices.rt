//! What nodes over matrices add to what their parts give.

ghost use Rattle.std.specs.Prelude.{◌≡◌, ◌≤◌, ◌+◌, ◌*◌, List, length, ℕ};
ghost use Rattle.ep_base.specs.Intervals as intervals;
ghost use Rattle.ep_tree.specs.Environments as names;
ghost use Rattle.ep_tree.specs.Measures as measures;
ghost use Rattle.ep_tree.specs.Reach as defined;
ghost use Rattle.ep_tree.specs.Trees.{ExprTree};
ghost use Rattle.ep_tree.specs.Values.{scalars_of as each_scalar};
ghost use Rattle.ep_tree.specs.declared.syntax.FoldOp.{FoldOp as EachOp};
ghost use Rattle.ep_tree.specs.declared.values.Mode.{Mode as EachMode};
ghost use Rattle.ep_size.specs.Extents.{grid_of};
ghost use Rattle.ep_size.specs.Finishing.{Finishes, IsNumberNode};
ghost use Rattle.ep_size.specs.Folds.{GivesFold, IsFoldNode};
ghost use Rattle.ep_size.specs.Totals.{MOST_TOLD, capped};

use super::errors::SizeError;
use super::extents::{Extent, Span, number_span};
use super::folds::fold_all;
use super::nodes::{truth_node, weigh};
use super::scalars::scalars_of;
use super::widths::{
    counting_weight, different_weight, lex_weight, set_weight, table_weight, widths_of,
};
use ep_tree::FoldOp;
use std::alloc::Global;

/// A node whose own value is a number that others are folded into.
fn fold_node<'a>(
    total: &mut u64,
    weight: u64,
    span: Result<Span, SizeError>,
) -> Result<Extent<'a>, SizeError>
    requires { weight ≤ MOST_TOLD }
    ensures { (mode : EachMode) → (env : names.Env) → (e : ExprTree) → (op : EachOp) → (spans : List defined.Span)
        → weight ≡ capped (measures.folded_weight op spans) → GivesFold span op spans → IsFoldNode mode env e op spans
        → Finishes mode env e total.old total.new result }
{
    match span {
        Ok(own) => {
            weigh(total, weight);
            Ok(Extent::Number(own))
        }
        Err(refused) => Err(refused),
    }
}

/// A matrix folded into a number.
pub fn finish_fold<'a>(
    alloc: Global,
    total: &mut u64,
    op: FoldOp,
    matrix: &Extent,
) -> Result<Extent<'a>, SizeError>
    ensures { (mode : EachMode) → (env : names.Env) → (e : ExprTree) → IsFoldNode mode env e op (each_scalar (grid_of matrix.now))
        → Finishes mode env e total.old total.new result }
{
    let Ok(parts) = scalars_of(alloc, matrix) else {
        return Err(SizeError::Memory);
    };
    match fold_all(op, &parts) {
        Ok(folding) => fold_node(total, folding.weight(), folding.span()),
        Err(refused) => Err(refused),
    }
}

/// Whether the numbers of a matrix are different.
pub fn finish_different<'a>(
    alloc: Global,
    total: &mut u64,
    matrix: &Extent,
) -> Result<Extent<'a>, SizeError>
    ensures { (mode : EachMode) → (env : names.Env) → (e : ExprTree)
        → IsNumberNode mode env e
        (length (each_scalar (grid_of matrix.now)) * measures.widths (each_scalar (grid_of matrix.now))) defined.truth_span
        → Finishes mode env e total.old total.new result }
{
    let Ok(parts) = scalars_of(alloc, matrix) else {
        return Err(SizeError::Memory);
    };
    Ok(truth_node(total, different_weight(widths_of(&parts))))
}

/// A lexicographic comparison of two lists.
pub fn finish_lex<'a>(
    alloc: Global,
    total: &mut u64,
    one: &Extent,
    other: &Extent,
) -> Result<Extent<'a>, SizeError>
    ensures { (mode : EachMode) → (env : names.Env) → (e : ExprTree)
        → IsNumberNode mode env e
        (measures.widths (each_scalar (grid_of one.now)) + measures.widths (each_scalar (grid_of other.now))) defined.truth_span
        → Finishes mode env e total.old total.new result }
{
    let Ok(first) = scalars_of(alloc, one) else {
        return Err(SizeError::Memory);
    };
    let Ok(second) = scalars_of(alloc, other) else {
        return Err(SizeError::Memory);
    };
    Ok(truth_node(total, lex_weight(widths_of(&first), widths_of(&second))))
}

/// Whether a number stands in a matrix.
pub fn finish_set<'a>(
    alloc: Global,
    total: &mut u64,
    number: &Extent,
    matrix: &Extent,
) -> Result<Extent<'a>, SizeError>
    ensures { (mode : EachMode) → (env : names.Env) → (e : ExprTree)
        → IsNumberNode mode env e
        (length (each_scalar (grid_of matrix.now)) * intervals.width (defined.span_of (grid_of number.now)).reach
        + measures.widths (each_scalar (grid_of matrix.now))) defined.truth_span
        → Finishes mode env e total.old total.new result }
{
    let Ok(parts) = scalars_of(alloc, matrix) else {
        return Err(SizeError::Memory);
    };
    Ok(truth_node(total, set_weight(number_span(number), widths_of(&parts))))
}

/// Whether a row is one of so many, as far as these are told.
pub fn finish_table<'a>(
    alloc: Global,
    total: &mut u64,
    row: &Extent,
    rows: u64,
) -> Result<Extent<'a>, SizeError>
    ensures { (mode : EachMode) → (env : names.Env) → (e : ExprTree) → (count : ℕ) → rows ≡ capped count
        → IsNumberNode mode env e
        (count * length (each_scalar (grid_of row.now)) + measures.widths (each_scalar (grid_of row.now))) defined.truth_span
        → Finishes mode env e total.old total.new result }
{
    let Ok(parts) = scalars_of(alloc, row) else {
        return Err(SizeError::Memory);
    };
    Ok(truth_node(total, table_weight(widths_of(&parts), rows)))
}

/// A `gcc`, `atleast` or `atmost`.
pub fn finish_counting<'a>(
    alloc: Global,
    total: &mut u64,
    numbers: &Extent,
    values: &Extent,
    counts: &Extent,
) -> Result<Extent<'a>, SizeError>
    ensures { (mode : EachMode) → (env : names.Env) → (e : ExprTree)
        → IsNumberNode mode env e
        (measures.counting_weight (each_scalar (grid_of numbers.now)) (each_scalar (grid_of values.now)) (each_scalar (grid_of counts.now)))
        defined.truth_span
        → Finishes mode env e total.old total.new result }
{
    let Ok(counted) = scalars_of(alloc, numbers) else {
        return Err(SizeError::Memory);
    };
    let Ok(looked_for) = scalars_of(alloc, values) else {
        return Err(SizeError::Memory);
    };
    let Ok(times) = scalars_of(alloc, counts) else {
        return Err(SizeError::Memory);
    };
    let weight = counting_weight(
        widths_of(&counted),
        widths_of(&looked_for),
        widths_of(&times),
    );
    Ok(truth_node(total, weight))
}
