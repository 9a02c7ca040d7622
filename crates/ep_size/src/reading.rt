//! The indices of a read, and what they leave of the cells of a decision variable.

ghost use Rattle.std.specs.Prelude.{◌≡◌, Some, map, sum_by};
ghost use Rattle.std.specs.List.{list_any};
ghost use Rattle.ep_base.specs.declared.places.Place.{Place};
ghost use Rattle.ep_tree.specs.Environments as names;
ghost use Rattle.ep_tree.specs.Evaluation.{evaluate, number_in};
ghost use Rattle.ep_tree.specs.Measures as measures;
ghost use Rattle.ep_tree.specs.Reach as defined;
ghost use Rattle.ep_tree.specs.Reach.{decisions_in, extent, holds_decision, is_decided_index, measured_index};
ghost use Rattle.ep_tree.specs.Trees.{ExprTree};
ghost use Rattle.ep_tree.specs.Views.{kind_tree, value_tree};
ghost use Rattle.ep_tree.specs.declared.values.Mode.{Mode as EachMode};
ghost use Rattle.ep_eval.specs.Helds.{held_value};
ghost use Rattle.ep_size.specs.Extents.{IsKnownExtent};
ghost use Rattle.ep_size.specs.Indices as plain;
ghost use Rattle.ep_size.specs.Indices.{is_named_tree, measured_of};
ghost use Rattle.ep_size.specs.Totals.{capped};

use super::cells::{cells_over, set_length};
use super::extents::{Extent, Span, number_span};
use super::intervals::told_count;
use super::totals::{product, told};
use ep_base::Runs;
use ep_eval::Held;
use ep_numbers::width;
use ep_tree::{Kind, Value};

/// An index of a read.
#[derive(Clone, Copy, Debug, PartialEq, Eq)]
pub enum Indexed {
    /// One without a decision variable: its number, where it has one.
    Stated(Option<i64>),
    /// `..`
    Every,
    /// One with a decision variable.
    Decided(Span),
}

/// The number that a value is, if it is one.
#[tactic(auto, unfolding(ep_tree::specs::Evaluation::number_in, ep_tree::specs::Views::value_tree))]
fn value_number(value: &Value) -> Option<i64>
    ensures { result ≡ number_in (Some (value_tree value.now)) }
{
    match value {
        Value::Number(number) => Some(*number),
        Value::Matrix(_, _) => None,
    }
}

/// The number that is held, if it is one.
#[tactic(auto, unfolding(ep_tree::specs::Evaluation::number_in, ep_eval::specs::Helds::held_value))]
fn held_number(held: &Held) -> Option<i64>
    ensures { result ≡ number_in (Some (held_value held.now)) }
{
    match held {
        Held::Number(number) => Some(*number),
        Held::Lent(value) => value_number(value),
        Held::Made(value) => value_number(value),
    }
}

/// An index of which this is known.
pub fn index_with(known: &Extent) -> Indexed
    ensures { (mode : EachMode) → (env : names.Env) → (e : ExprTree) → IsKnownExtent mode env e known.now
        → measured_of result ≡ measured_index (holds_decision (decisions_in env) e) (defined.span_of (extent mode env e)) (number_in (evaluate mode env e)) }
{
    let span = number_span(known);
    match known {
        Extent::Number(_) => Indexed::Decided(span),
        Extent::Cells(_, _) => Indexed::Decided(span),
        Extent::Matrix(_, _) => Indexed::Decided(span),
        Extent::Fixed(held) => Indexed::Stated(held_number(held)),
        Extent::Nothing => Indexed::Stated(None),
        Extent::NoParts => Indexed::Stated(None),
    }
}

/// Whether an index has a decision variable.
#[tactic(auto, unfolding(ep_tree::specs::Reach::is_decided_index, crate::specs::Indices::measured_of))]
fn is_decided(index: Indexed) -> bool
    ensures { result ≡ is_decided_index (measured_of index) }
{
    match index {
        Indexed::Stated(_) => false,
        Indexed::Every => false,
        Indexed::Decided(_) => true,
    }
}

/// Whether one of some indices has a decision variable.
pub fn one_decided(indices: &[Indexed]) -> bool
    ensures { result ≡ list_any is_decided_index (map measured_of indices.now) }
{
    match indices.split_first() {
        Some((index, rest)) => {
            if is_decided(*index) {
                return true;
            }
            one_decided(rest)
        }
        None => false,
    }
}

/// The width of an index, as far as it is told.
#[tactic(auto, unfolding(ep_tree::specs::Measures::index_width, crate::specs::Indices::measured_of))]
fn index_width(index: Indexed) -> u64
    ensures { result ≡ capped (measures.index_width (measured_of index)) }
{
    match index {
        Indexed::Stated(_) => 1,
        Indexed::Every => 0,
        Indexed::Decided(span) => told_count(width(span.reach)),
    }
}

/// The widths of some indices together, as far as they are told.
pub fn index_widths(indices: &[Indexed]) -> u64
    ensures { result ≡ capped (sum_by measures.index_width (map measured_of indices.now)) }
{
    match indices.split_first() {
        Some((index, rest)) => told(index_width(*index) + index_widths(rest)),
        None => 0,
    }
}

/// How many values of an index domain an index leaves, as far as that is told.
fn kept_parts(index: Indexed, domain: &Runs) -> u64
    ensures { result ≡ capped (plain.kept_parts (measured_of index) domain.now) }
{
    match index {
        Indexed::Stated(number) => match number {
            Some(stated) => {
                if domain.has(stated) {
                    return 1;
                }
                0
            }
            None => 0,
        },
        Indexed::Every => set_length(domain),
        Indexed::Decided(_) => set_length(domain),
    }
}

/// How many cells are left of those over some index domains, as far as that is told.
pub fn cells_left(indices: &[Indexed], domains: &[Runs]) -> u64
    ensures { result ≡ capped (plain.cells_left (map measured_of indices.now) domains.now) }
{
    match indices.split_first() {
        Some((index, rest)) => match domains.split_first() {
            Some((domain, inner)) => product(kept_parts(*index, domain), cells_left(rest, inner)),
            None => 0,
        },
        None => cells_over(domains),
    }
}

/// Whether an expression of this kind is a name.
#[tactic(auto, unfolding(crate::specs::Indices::is_named_tree, ep_tree::specs::Views::kind_tree))]
fn is_name_kind(kind: &Kind) -> bool
    ensures { (p : Place) → result ≡ is_named_tree (kind_tree p kind.now) }
{
    match kind {
        Kind::Named(_) => true,
        Kind::Number(_) => false,
        Kind::Truth(_) => false,
        Kind::Not(_) => false,
        Kind::Neg(_) => false,
        Kind::Abs(_) => false,
        Kind::ToInt(_) => false,
        Kind::Factorial(_) => false,
        Kind::Add(_) => false,
        Kind::Binary(_, _, _) => false,
        Kind::Compare(_, _, _) => false,
        Kind::Lex(_, _, _) => false,
        Kind::InDomain(_, _) => false,
        Kind::InSet(_, _) => false,
        Kind::And(_) => false,
        Kind::Or(_) => false,
        Kind::Fold(_, _) => false,
        Kind::AllDiff(_) => false,
        Kind::Gcc(_, _, _) => false,
        Kind::AtLeast(_, _, _) => false,
        Kind::AtMost(_, _, _) => false,
        Kind::Table(_, _) => false,
        Kind::Group(_) => false,
        Kind::Flatten(_) => false,
        Kind::Quant(_, _, _, _) => false,
        Kind::Literal(_, _) => false,
        Kind::Comprehension(_, _, _, _) => false,
        Kind::Read(_, _) => false,
    }
}

/// Whether this is known of a value with a decision variable.
fn is_decided_extent(known: &Extent) -> bool
    ensures { (mode : EachMode) → (env : names.Env) → (e : ExprTree) → IsKnownExtent mode env e known.now
        → result ≡ holds_decision (decisions_in env) e }
{
    match known {
        Extent::Number(_) => true,
        Extent::Cells(_, _) => true,
        Extent::Matrix(_, _) => true,
        Extent::Fixed(_) => false,
        Extent::Nothing => false,
        Extent::NoParts => false,
    }
}

/// Whether an expression of this kind, of which this is known, is the name of a decision variable.
pub fn names_cells(kind: &Kind, known: &Extent) -> bool
    ensures { (mode : EachMode) → (env : names.Env) → (p : Place) → IsKnownExtent mode env (kind_tree p kind.now) known.now
        → result ≡ defined.is_decision_name env (kind_tree p kind.now) }
{
    if is_name_kind(kind) {
        return is_decided_extent(known);
    }
    false
}
