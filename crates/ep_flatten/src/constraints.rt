//! The constraint for each kind of node: it holds exactly where a variable has the node's value.

ghost use Rattle.std.specs.Prelude.{◌≡◌, ◌<◌, length, IfOk, true};
ghost use Rattle.std.specs.List.{All};
ghost use Rattle.ep_base.specs.Reads.{IsWithinNumbers};
ghost use Rattle.ep_flatten.specs.Building.{is_truth_node};
ghost use Rattle.ep_base.specs.declared.operators.CompareOp.{CompareOp};
ghost use Rattle.ep_flat.specs.FlatViews.{plain_con, plain_kind};
ghost use Rattle.ep_flatten.specs.Forms.{compared, form_coefficients};
ghost use Rattle.ep_flatten.specs.FormViews.{plain_form};
ghost use Rattle.ep_flatten.specs.Saying.{HasParts, SaysOfNode, SaysForm, is_operation};
ghost use Rattle.ep_flatten.specs.Tops.{Tells, TellsForm};
ghost use Rattle.ep_ground.specs.NodeViews.{plain_node};
ghost use Rattle.ep_ground.specs.Nodes as nodes;
ghost use Rattle.ep_ground.specs.Nodes.{coefficients_of};

use crate::forms::Form;
use crate::lists::{literals_of, negated_parts, place_at, placed_parts, places_of};
use ep_base::{CompareOp, Key, LexOp, Memory, Runs};
use ep_flat::{Con, ConKind};
use ep_ground::{Node, Term};
use ep_numbers::copy_keys;
use std::alloc::Global;

/// The constraint that makes the variable's number the value of a term with this node and this form.
/// The terms' variables are `places`.
pub fn form_constraint(
    alloc: Global,
    places: &[u64],
    node: &Node,
    form: &Form,
    variable: u64,
) -> Result<Con, Memory>
    requires parts { HasParts (plain_node node.now) }
    requires operation { is_operation (plain_node node.now) ≡ true }
    requires small { All IsWithinNumbers (form_coefficients (plain_node node.now) (plain_form form.now)) }
    ensures { IfOk result (λ con. SaysForm places.now (plain_node node.now) (plain_form form.now) variable (plain_con con)) }
{
    match form {
        Form::Own => constraint(alloc, places, node, variable),
        Form::Sum(number, parts) => sum(alloc, places, *number, parts, variable),
        Form::Compare(op, parts, number) => {
            let kind = comparison(alloc, places, *op, parts, *number)?;
            Ok(Con {
                truth: Some(variable),
                kind,
            })
        }
    }
}

/// Whether a sum of terms compares so with a number.
pub fn comparison(
    alloc: Global,
    places: &[u64],
    op: CompareOp,
    parts: &[(i64, Term)],
    number: i64,
) -> Result<ConKind, Memory>
    ensures { IfOk result (λ kind. (node : nodes.GroundNode) → TellsForm places.now node (compared op parts.now number) (plain_kind kind)) }
{
    let placed = placed_parts(alloc, places, parts)?;
    Ok(ConKind::Linear(placed, op, number))
}

/// The constraint that makes the variable's number the node's value. The terms' variables are
/// `places`.
#[tactic(auto, unfolding(crate::specs::Saying::HasParts))]
fn constraint(alloc: Global, places: &[u64], node: &Node, variable: u64) -> Result<Con, Memory>
    requires parts { HasParts (plain_node node.now) }
    requires operation { is_operation (plain_node node.now) ≡ true }
    requires small { All IsWithinNumbers (coefficients_of (plain_node node.now)) }
    ensures { IfOk result (λ con. SaysOfNode places.now (plain_node node.now) variable (plain_con con)) }
{
    match node {
        Node::Add(number, parts) => sum(alloc, places, *number, parts, variable),
        Node::Mul(one, other) => Ok(product(places, *one, *other, variable)),
        Node::SafeDiv(one, other) => Ok(quotient(places, *one, *other, variable)),
        Node::SafeMod(one, other) => Ok(remainder(places, *one, *other, variable)),
        Node::Pow(part, exponent) => Ok(power(places, *part, *exponent, variable)),
        Node::Abs(part) => Ok(absolute(places, *part, variable)),
        Node::Min(parts) => least(alloc, places, parts, variable),
        Node::Max(parts) => greatest(alloc, places, parts, variable),
        Node::SafePick(parts, keys, indices) => {
            pick(alloc, places, parts, keys, indices, variable)
        }
        _ => {
            let kind = truth_kind(alloc, places, node)?;
            Ok(Con {
                truth: Some(variable),
                kind,
            })
        }
    }
}

/// The kind of constraint that holds exactly where a truth value is 1. The terms' variables are
/// `places`.
pub fn truth_kind(alloc: Global, places: &[u64], node: &Node) -> Result<ConKind, Memory>
    requires { is_truth_node (plain_node node.now) ≡ true }
    ensures { IfOk result (λ kind. Tells places.now (plain_node node.now) (plain_kind kind)) }
{
    match node {
        Node::Compare(op, one, other) => compare(alloc, places, *op, *one, *other),
        Node::Lex(op, parts, others) => lex(alloc, places, *op, parts, others),
        Node::Member(part, numbers) => member(alloc, places, *part, numbers),
        Node::Not(part) => negation(alloc, places, *part),
        Node::And(parts) => all_of(alloc, places, parts),
        Node::Or(parts) => any_of(alloc, places, parts),
        Node::Iff(one, other) => Ok(same_truth(places, *one, *other)),
        Node::AllDiff(parts) => all_different(alloc, places, parts),
        Node::Gcc(parts, numbers, counts) => { count(alloc, places, parts, numbers, counts) }
        Node::AtLeast(parts, counts, numbers) => { at_least(alloc, places, parts, counts, numbers) }
        Node::AtMost(parts, counts, numbers) => { at_most(alloc, places, parts, counts, numbers) }
        Node::Table(parts, rows) => table(alloc, places, parts, rows),
        _ => unreachable!(),
    }
}

/// A number and a sum of terms: the variable less the sum is the number.
fn sum(
    alloc: Global,
    places: &[u64],
    number: i64,
    parts: &[(i64, Term)],
    variable: u64,
) -> Result<Con, Memory>
    requires { All (λ part. IsWithinNumbers part.0) parts.now }
    ensures { IfOk result (λ con. SaysOfNode places.now (nodes.sum number parts.now) variable (plain_con con)) }
{
    let mut placed = negated_parts(alloc, places, parts)?;
    placed.push((1, variable))?;
    let kind = ConKind::Linear(placed, CompareOp::Equal, number);
    Ok(Con { truth: None, kind })
}

/// A product.
fn product(places: &[u64], one: Term, other: Term, variable: u64) -> Con
    ensures { SaysOfNode places.now (nodes.product one other) variable (plain_con result) }
{
    let kind = ConKind::Product(variable, place_at(places, one), place_at(places, other));
    Con { truth: None, kind }
}

/// A quotient.
fn quotient(places: &[u64], one: Term, other: Term, variable: u64) -> Con
    ensures { SaysOfNode places.now (nodes.safe_quotient one other) variable (plain_con result) }
{
    let kind = ConKind::Quotient(variable, place_at(places, one), place_at(places, other));
    Con { truth: None, kind }
}

/// A remainder.
fn remainder(places: &[u64], one: Term, other: Term, variable: u64) -> Con
    ensures { SaysOfNode places.now (nodes.safe_remainder one other) variable (plain_con result) }
{
    let kind = ConKind::Remainder(variable, place_at(places, one), place_at(places, other));
    Con { truth: None, kind }
}

/// A power.
fn power(places: &[u64], part: Term, exponent: u64, variable: u64) -> Con
    ensures { SaysOfNode places.now (nodes.power part exponent) variable (plain_con result) }
{
    let kind = ConKind::Power(variable, place_at(places, part), exponent);
    Con { truth: None, kind }
}

/// An absolute value.
fn absolute(places: &[u64], part: Term, variable: u64) -> Con
    ensures { SaysOfNode places.now (nodes.absolute part) variable (plain_con result) }
{
    let kind = ConKind::Absolute(variable, place_at(places, part));
    Con { truth: None, kind }
}

/// The least of some terms.
fn least(alloc: Global, places: &[u64], parts: &[Term], variable: u64) -> Result<Con, Memory>
    requires { 0 < length parts.now }
    ensures { IfOk result (λ con. SaysOfNode places.now (nodes.least parts.now) variable (plain_con con)) }
{
    let placed = places_of(alloc, places, parts)?;
    let kind = ConKind::Least(variable, placed);
    Ok(Con { truth: None, kind })
}

/// The greatest of some terms.
fn greatest(alloc: Global, places: &[u64], parts: &[Term], variable: u64) -> Result<Con, Memory>
    requires { 0 < length parts.now }
    ensures { IfOk result (λ con. SaysOfNode places.now (nodes.greatest parts.now) variable (plain_con con)) }
{
    let placed = places_of(alloc, places, parts)?;
    let kind = ConKind::Greatest(variable, placed);
    Ok(Con { truth: None, kind })
}

/// The term at the place of a key.
fn pick(
    alloc: Global,
    places: &[u64],
    parts: &[Term],
    keys: &[Key],
    indices: &[Term],
    variable: u64,
) -> Result<Con, Memory>
    ensures { IfOk result (λ con. SaysOfNode places.now (nodes.safe_pick parts.now keys.now indices.now) variable (plain_con con)) }
{
    let placed = places_of(alloc, places, parts)?;
    let keys = copy_keys(alloc, keys)?;
    let at = places_of(alloc, places, indices)?;
    let kind = ConKind::Element(variable, placed, keys, at);
    Ok(Con { truth: None, kind })
}

/// Whether two terms compare so: their difference compares so with 0.
fn compare(
    alloc: Global,
    places: &[u64],
    op: CompareOp,
    one: Term,
    other: Term,
) -> Result<ConKind, Memory>
    ensures { IfOk result (λ kind. Tells places.now (nodes.compare op one other) (plain_kind kind)) }
{
    let mut placed = Vec::new(alloc);
    placed.push((1, place_at(places, one)))?;
    placed.push((-1, place_at(places, other)))?;
    Ok(ConKind::Linear(placed, op, 0))
}

/// Whether two lists of terms compare so.
fn lex(
    alloc: Global,
    places: &[u64],
    op: LexOp,
    parts: &[Term],
    others: &[Term],
) -> Result<ConKind, Memory>
    ensures { IfOk result (λ kind. Tells places.now (nodes.lex op parts.now others.now) (plain_kind kind)) }
{
    let placed = places_of(alloc, places, parts)?;
    let behind = places_of(alloc, places, others)?;
    Ok(ConKind::Lex(op, placed, behind))
}

/// Whether a term is one of these numbers.
fn member(alloc: Global, places: &[u64], part: Term, numbers: &Runs) -> Result<ConKind, Memory>
    ensures { IfOk result (λ kind. Tells places.now (nodes.member part numbers.now) (plain_kind kind)) }
{
    let set = numbers.copy(alloc)?;
    Ok(ConKind::Member(place_at(places, part), set))
}

/// Whether a term isn't true.
fn negation(alloc: Global, places: &[u64], part: Term) -> Result<ConKind, Memory>
    ensures { IfOk result (λ kind. Tells places.now (nodes.negation part) (plain_kind kind)) }
{
    let mut literals = Vec::new(alloc);
    literals.push((false, place_at(places, part)))?;
    Ok(ConKind::Clause(literals))
}

/// Whether all terms are true.
fn all_of(alloc: Global, places: &[u64], parts: &[Term]) -> Result<ConKind, Memory>
    ensures { IfOk result (λ kind. Tells places.now (nodes.all_of parts.now) (plain_kind kind)) }
{
    let placed = places_of(alloc, places, parts)?;
    Ok(ConKind::All(placed))
}

/// Whether one of some terms is true.
fn any_of(alloc: Global, places: &[u64], parts: &[Term]) -> Result<ConKind, Memory>
    ensures { IfOk result (λ kind. Tells places.now (nodes.any_of parts.now) (plain_kind kind)) }
{
    let literals = literals_of(alloc, places, parts)?;
    Ok(ConKind::Clause(literals))
}

/// Whether both terms are true or neither is.
fn same_truth(places: &[u64], one: Term, other: Term) -> ConKind
    ensures { Tells places.now (nodes.same_truth one other) (plain_kind result) }
{
    ConKind::Same(place_at(places, one), place_at(places, other))
}

/// Whether no two terms are equal.
fn all_different(alloc: Global, places: &[u64], parts: &[Term]) -> Result<ConKind, Memory>
    ensures { IfOk result (λ kind. Tells places.now (nodes.all_different parts.now) (plain_kind kind)) }
{
    let placed = places_of(alloc, places, parts)?;
    Ok(ConKind::AllDiff(placed))
}

/// Whether numbers stand among terms as often as their counts say.
fn count(
    alloc: Global,
    places: &[u64],
    parts: &[Term],
    numbers: &[i64],
    counts: &[Term],
) -> Result<ConKind, Memory>
    ensures { IfOk result (λ kind. Tells places.now (nodes.counts parts.now numbers.now counts.now) (plain_kind kind)) }
{
    let placed = places_of(alloc, places, parts)?;
    let numbers = Vec::from_slice(alloc, numbers)?;
    let often = places_of(alloc, places, counts)?;
    Ok(ConKind::Gcc(placed, numbers, often))
}

/// Whether numbers stand among terms at least as often as their counts say.
fn at_least(
    alloc: Global,
    places: &[u64],
    parts: &[Term],
    counts: &[i64],
    numbers: &[i64],
) -> Result<ConKind, Memory>
    ensures { IfOk result (λ kind. Tells places.now (nodes.at_least parts.now counts.now numbers.now) (plain_kind kind)) }
{
    let placed = places_of(alloc, places, parts)?;
    let counts = Vec::from_slice(alloc, counts)?;
    let numbers = Vec::from_slice(alloc, numbers)?;
    Ok(ConKind::AtLeast(placed, counts, numbers))
}

/// Whether numbers stand among terms at most as often as their counts say.
fn at_most(
    alloc: Global,
    places: &[u64],
    parts: &[Term],
    counts: &[i64],
    numbers: &[i64],
) -> Result<ConKind, Memory>
    ensures { IfOk result (λ kind. Tells places.now (nodes.at_most parts.now counts.now numbers.now) (plain_kind kind)) }
{
    let placed = places_of(alloc, places, parts)?;
    let counts = Vec::from_slice(alloc, counts)?;
    let numbers = Vec::from_slice(alloc, numbers)?;
    Ok(ConKind::AtMost(placed, counts, numbers))
}

/// Whether terms are one of some rows.
fn table(alloc: Global, places: &[u64], parts: &[Term], rows: &[Key]) -> Result<ConKind, Memory>
    ensures { IfOk result (λ kind. Tells places.now (nodes.table parts.now rows.now) (plain_kind kind)) }
{
    let placed = places_of(alloc, places, parts)?;
    let rows = copy_keys(alloc, rows)?;
    Ok(ConKind::Table(placed, rows))
}
