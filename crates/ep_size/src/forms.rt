//! What nodes of each form add to what their parts give.

ghost use Rattle.std.specs.Prelude.{◌≡◌, ◌∷◌, ◌+◌, ◌*◌, [], ℤ, Bool, List, length, true, Option};
ghost use Rattle.ep_base.specs.declared.places.Place.{Place};
ghost use Rattle.ep_forms.specs.Forms.{counts_node, one_node, truths_node, two_node};
ghost use Rattle.ep_tree.specs.Environments as names;
ghost use Rattle.ep_tree.specs.Measures as measures;
ghost use Rattle.ep_tree.specs.Reach as defined;
ghost use Rattle.ep_tree.specs.Reach.{decisions_in, holds_decision, measured_index};
ghost use Rattle.ep_tree.specs.Trees.{DomainTree, ExprTree, in_domain};
ghost use Rattle.ep_tree.specs.Views.{expr_tree, expr_trees};
ghost use Rattle.ep_tree.specs.declared.syntax.Expr.{Expr as EachExpr};
ghost use Rattle.ep_tree.specs.declared.values.Mode.{Mode as EachMode};
ghost use Rattle.ep_eval.specs.Scopes.{env_in};
ghost use Rattle.ep_size.specs.Extents.{IsKnownExtent, plain_span};
ghost use Rattle.ep_size.specs.Finishing.{Finishes, Gives};
ghost use Rattle.ep_size.specs.Indices.{measured_of};
ghost use Rattle.ep_size.specs.Totals.{capped};

use super::errors::SizeError;
use super::extents::{Extent, Span, number_span, truth_span};
use super::groups::group_node;
use super::intervals::told_count;
use super::lists::flat_node;
use super::matrices::{
    finish_counting, finish_different, finish_fold, finish_lex, finish_set, finish_table,
};
use super::nodes::{negated_span, number_node, product_span, truth_node, wide};
use super::powers::power;
use super::reading::{Indexed, index_with};
use super::row_counts::row_count;
use super::totals::{product, told};
use ep_eval::Scope;
use ep_forms::{CountOp, OneOp, TwoOp};
use ep_numbers::{absolute, greatest, least, quotient, remainder, widened, width};
use ep_tree::{BinaryOp, Expr};
use std::alloc::Global;

/// A node with one part, of which this is known.
pub fn finish_one<'a>(
    scope: Scope<'_, 'a>,
    total: &mut u64,
    op: OneOp,
    part: &Expr,
    known: Extent<'a>,
) -> Result<Extent<'a>, SizeError>
    ensures { (mode : EachMode) → (p : Place)
        → holds_decision (decisions_in (env_in scope.entry)) (one_node p op (expr_tree part.now)) ≡ true
        → IsKnownExtent mode (env_in scope.entry) (expr_tree part.now) known.entry
        → Finishes mode (env_in scope.entry) (one_node p op (expr_tree part.now)) total.old total.new result }
{
    let span = number_span(&known);
    match op {
        OneOp::Group => group_node(scope, total, part, known),
        OneOp::Not => Ok(truth_node(total, 2)),
        OneOp::ToInt => Ok(truth_node(total, 0)),
        OneOp::Neg => number_node(total, told_count(span.spread), negated_span(span)),
        OneOp::Abs => number_node(total, told_count(span.spread), wide(absolute(span.reach))),
        OneOp::Flatten => flat_node(scope.alloc, &known),
        OneOp::Fold(fold) => finish_fold(scope.alloc, total, fold, &known),
        OneOp::AllDiff => finish_different(scope.alloc, total, &known),
        OneOp::Factorial => Err(SizeError::Memory),
    }
}

/// Membership of a number, of which this is known, in a domain.
pub fn finish_member<'a>(total: &mut u64, known: &Extent<'_>) -> Result<Extent<'a>, SizeError>
    ensures { (mode : EachMode) → (env : names.Env) → (p : Place) → (e : ExprTree) → (d : DomainTree)
        → holds_decision (decisions_in env) (in_domain p e d) ≡ true → IsKnownExtent mode env e known.now
        → Finishes mode env (in_domain p e d) total.old total.new result }
{
    let span = number_span(known);
    Ok(truth_node(total, told_count(width(span.reach))))
}

/// A chain of connectives with so many parts.
pub fn finish_truths<'a>(total: &mut u64, parts: usize) -> Result<Extent<'a>, SizeError>
    ensures { (mode : EachMode) → (env : names.Env) → (p : Place) → (every : Bool) → (xs : List EachExpr) → parts ≡ length xs
        → holds_decision (decisions_in env) (truths_node p every (expr_trees xs)) ≡ true
        → Finishes mode env (truths_node p every (expr_trees xs)) total.old total.new result }
{
    Ok(truth_node(total, told_parts(parts)))
}

/// How many parts there are, and one, as far as it is told.
fn told_parts(count: usize) -> u64
    ensures { result ≡ capped (count + 1) }
{
    if count >= 20_000_001 {
        return 20_000_001;
    }
    told(count as u64 + 1)
}

/// The widths of two numbers, added, as far as that is told.
fn widths_of_two(one: Span, other: Span) -> u64
    ensures { result ≡ capped (measures.widths (plain_span one ∷ plain_span other ∷ [])) }
{
    let first = told_count(width(one.reach));
    let second = told_count(width(other.reach));
    told(first + second)
}

/// The spreads of two numbers, multiplied, as far as that is told.
#[tactic(auto, using(crate::proofs::Caps::product_kept))]
fn spread_product(one: Span, other: Span) -> u64
    ensures { result ≡ capped (one.spread * other.spread) }
{
    let first = told_count(one.spread);
    let second = told_count(other.spread);
    product(first, second)
}

/// The weight of two parts with an operator between them, as far as it is told.
#[tactic(auto, unfolding(ep_tree::specs::Measures::binary_weight))]
fn binary_weight(op: BinaryOp, one: Span, other: Span) -> u64
    ensures { result ≡ capped (measures.binary_weight op (plain_span one) (plain_span other)) }
{
    match op {
        BinaryOp::Pow => told_count(one.spread),
        BinaryOp::Implies => 3,
        BinaryOp::Iff => 3,
        BinaryOp::Mul => spread_product(one, other),
        BinaryOp::Div => spread_product(one, other),
        BinaryOp::Mod => spread_product(one, other),
        BinaryOp::Min => spread_product(one, other),
        BinaryOp::Max => spread_product(one, other),
    }
}

/// What is known of two parts with an operator between them, the second of which is this exponent.
#[tactic(auto, unfolding(ep_tree::specs::Reach::binary_span))]
fn binary_span(op: BinaryOp, one: Span, other: Span, exponent: Indexed) -> Result<Span, SizeError>
    ensures { (n : Option ℤ) → (decided : Bool) → (s : defined.Span) → measured_of exponent ≡ measured_index decided s n
        → Gives result (defined.binary_span op (plain_span one) (plain_span other) n) }
{
    match op {
        BinaryOp::Mul => product_span(one, other),
        BinaryOp::Div => wide(quotient(one.reach)),
        BinaryOp::Mod => wide(remainder(other.reach)),
        BinaryOp::Min => wide(widened(least(one.reach, other.reach))),
        BinaryOp::Max => wide(widened(greatest(one.reach, other.reach))),
        BinaryOp::Implies => Ok(truth_span()),
        BinaryOp::Iff => Ok(truth_span()),
        BinaryOp::Pow => power(one, exponent),
    }
}

/// A node with two parts, of which this is known.
pub fn finish_two<'a>(
    alloc: Global,
    total: &mut u64,
    op: TwoOp,
    one: &Extent<'_>,
    other: &Extent<'_>,
) -> Result<Extent<'a>, SizeError>
    ensures { (mode : EachMode) → (env : names.Env) → (p : Place) → (e : ExprTree) → (f : ExprTree)
        → holds_decision (decisions_in env) (two_node p op e f) ≡ true → IsKnownExtent mode env e one.now → IsKnownExtent mode env f other.now
        → Finishes mode env (two_node p op e f) total.old total.new result }
{
    let first = number_span(one);
    let second = number_span(other);
    let exponent = index_with(other);
    match op {
        TwoOp::Compare(_) => Ok(truth_node(total, widths_of_two(first, second))),
        TwoOp::Binary(operator) => number_node(
            total,
            binary_weight(operator, first, second),
            binary_span(operator, first, second, exponent),
        ),
        TwoOp::Lex(_) => finish_lex(alloc, total, one, other),
        TwoOp::InSet => finish_set(alloc, total, one, other),
        TwoOp::Table => finish_table(alloc, total, one, row_count(other)),
    }
}

/// How often numbers stand in a matrix, with two lists in the order of the text, of which this is known.
pub fn finish_counts<'a>(
    alloc: Global,
    total: &mut u64,
    op: CountOp,
    list: &Extent<'_>,
    second: &Extent<'_>,
    third: &Extent<'_>,
) -> Result<Extent<'a>, SizeError>
    ensures { (mode : EachMode) → (env : names.Env) → (p : Place) → (e : ExprTree) → (f : ExprTree) → (g : ExprTree)
        → holds_decision (decisions_in env) (counts_node p op e f g) ≡ true → IsKnownExtent mode env e list.now → IsKnownExtent mode env f second.now
        → IsKnownExtent mode env g third.now → Finishes mode env (counts_node p op e f g) total.old total.new result }
{
    match op {
        CountOp::Gcc => finish_counting(alloc, total, list, second, third),
        CountOp::AtLeast => finish_counting(alloc, total, list, third, second),
        CountOp::AtMost => finish_counting(alloc, total, list, third, second),
    }
}
