//! How constraints speak of terms.

ghost use Rattle.std.specs.Prelude.{◌≡◌, ◌<◌, ◌∷◌, [], ℕ, List, length, map, negsuc, pos, IfOk, IfSome, OnOk};
ghost use Rattle.ep_base.specs.declared.operators.CompareOp.{CompareOp};
ghost use Rattle.ep_base.specs.Reads.{IsWithinNumbers};
ghost use Rattle.ep_flatten.specs.Forms as defined;
ghost use Rattle.ep_flatten.specs.Forms.{HaveForms, IsNextForm, own, summed};
ghost use Rattle.ep_flatten.specs.FormViews.{plain_form, plain_forms, plain_sum};
ghost use Rattle.ep_flatten.specs.Sums.{Gathers, Joins};
ghost use Rattle.ep_ground.specs.GroundViews.{plain_ground};
ghost use Rattle.ep_ground.specs.NodeViews.{plain_node};
ghost use Rattle.ep_ground.specs.Nodes as nodes;
ghost use Rattle.ep_ground.specs.Nodes.{GroundNode};

use crate::spans::{is_taken_far, term_span};
use crate::sums::{TermSum, add_part, add_sum};
use crate::uses::{use_count, uses_of};
use ep_base::{CompareOp, Memory};
use ep_ground::{Ground, Node, Term};
use ep_numbers::{Span, is_near};
use std::alloc::Global;

/// How constraints speak of a term.
#[derive(Debug, Drop)]
pub enum Form {
    /// By its node.
    Own,
    /// As a number and terms with coefficients, of which it is the sum.
    Sum(i64, Vec<(i64, Term)>),
    /// As whether a sum of terms with coefficients compares so with a number.
    Compare(CompareOp, Vec<(i64, Term)>, i64),
}

/// What is known of the terms before one.
#[derive(Drop)]
pub struct Seen {
    /// How often each term is used, as far as that is told.
    uses: Vec<u8>,
    /// The interval of each term before it.
    spans: Vec<Span>,
}

/// The forms of all terms. A sum stands in another sum and in a comparison by its parts, where it is
/// used only there or has one part at most, and where its parts stay near enough to 0.
pub fn forms_of(alloc: Global, g: &Ground) -> Result<Vec<Form>, Memory>
    ensures { IfOk result (λ forms.
        HaveForms (plain_ground g.now).nodes (length (plain_ground g.now).nodes) (plain_forms forms.items)) }
{
    let uses = uses_of(alloc, g)?;
    let mut seen = Seen {
        uses,
        spans: Vec::new(alloc),
    };
    let mut forms = Vec::new(alloc);
    for term in 0..g.arena.len() {
        let node = g.arena.node(Term::new(term as u32));
        let form = form_of(alloc, &seen, &forms, node)?;
        let span = term_span(g, &seen.spans, node, &form);
        forms.push(form)?;
        seen.spans.push(span)?;
    }
    Ok(forms)
}

/// The form of the next term, which has this node.
pub fn form_of(alloc: Global, seen: &Seen, forms: &[Form], node: &Node) -> Result<Form, Memory>
    ensures { IfOk result (λ form. IsNextForm (plain_forms forms.now) (plain_node node.now) (plain_form form)) }
{
    match node {
        Node::Const(number) => Ok(Form::Sum(*number, Vec::new(alloc))),
        Node::Add(number, parts) => sum_form(alloc, seen, forms, *number, parts),
        Node::Mul(one, other) => product_form(alloc, seen, forms, *one, *other),
        Node::Compare(op, one, other) => difference_form(alloc, seen, forms, *op, *one, *other),
        _ => Ok(Form::Own),
    }
}

/// The form of a number and a sum.
fn sum_form(
    alloc: Global,
    seen: &Seen,
    forms: &[Form],
    number: i64,
    parts: &[(i64, Term)],
) -> Result<Form, Memory>
    ensures { IfOk result (λ form. IsNextForm (plain_forms forms.now) (nodes.sum number parts.now) (plain_form form)) }
{
    let mut sum = TermSum {
        number,
        parts: Vec::new(alloc),
    };
    for part in parts {
        join(alloc, seen, forms, &mut sum, part.0, part.1)?;
    }
    Ok(Form::Sum(sum.number, sum.parts))
}

/// The form of a product: where one factor is a number, a sum of one part.
fn product_form(
    alloc: Global,
    seen: &Seen,
    forms: &[Form],
    one: Term,
    other: Term,
) -> Result<Form, Memory>
    ensures { IfOk result (λ form. IsNextForm (plain_forms forms.now) (nodes.product one other) (plain_form form)) }
{
    if let Some(number) = number_of(forms, one) {
        let sum = multiple(alloc, seen, forms, number, other)?;
        return Ok(Form::Sum(sum.number, sum.parts));
    }
    if let Some(number) = number_of(forms, other) {
        let sum = multiple(alloc, seen, forms, number, one)?;
        return Ok(Form::Sum(sum.number, sum.parts));
    }
    Ok(Form::Own)
}

/// A term with a coefficient as a sum.
fn multiple(
    alloc: Global,
    seen: &Seen,
    forms: &[Form],
    coefficient: i64,
    term: Term,
) -> Result<TermSum, Memory>
    ensures { IfOk result (λ sum. (nodes : List GroundNode) → HaveForms nodes (length (plain_forms forms.now)) (plain_forms forms.now)
        → Gathers nodes (pos 0) ((coefficient, term) ∷ []) (plain_sum sum)) }
{
    let mut sum = TermSum {
        number: 0,
        parts: Vec::new(alloc),
    };
    join(alloc, seen, forms, &mut sum, coefficient, term)?;
    Ok(sum)
}

/// The form of a comparison: the difference of its two sides, without its number, is compared with
/// this.
fn difference_form(
    alloc: Global,
    seen: &Seen,
    forms: &[Form],
    op: CompareOp,
    one: Term,
    other: Term,
) -> Result<Form, Memory>
    ensures { IfOk result (λ form. IsNextForm (plain_forms forms.now) (nodes.compare op one other) (plain_form form)) }
{
    let mut sum = TermSum {
        number: 0,
        parts: Vec::new(alloc),
    };
    join(alloc, seen, forms, &mut sum, 1, one)?;
    join(alloc, seen, forms, &mut sum, -1, other)?;
    let Some(number) = sum.number.checked_neg() else {
        return Ok(Form::Own);
    };
    Ok(Form::Compare(op, sum.parts, number))
}

/// The form of a term.
pub fn form_at(forms: &[Form], term: Term) -> &Form
    requires { term < length forms.now }
    ensures { plain_form result.now ≡ defined.form_at (plain_forms forms.now) term }
{
    &forms[term.number() as usize]
}

/// The number that a term is, where it is one with which the stages compute.
fn number_of(forms: &[Form], term: Term) -> Option<i64>
    ensures there { IfSome result (λ number. term < length (plain_forms forms.now)) }
    ensures form { IfSome result (λ number. defined.form_at (plain_forms forms.now) term ≡ summed number []) }
    ensures small { IfSome result IsWithinNumbers }
{
    let place = term.number() as usize;
    if place >= forms.len() {
        return None;
    }
    match &forms[place] {
        Form::Sum(number, parts) => {
            if parts.is_empty() && is_near(*number) {
                Some(*number)
            } else {
                None
            }
        }
        _ => None,
    }
}

/// Whether a sum stands in another one, with a coefficient, as a term of its own: where it has some parts and is used
/// elsewhere, or its parts would be too far from 0.
fn stands_alone(
    seen: &Seen,
    coefficient: i64,
    term: Term,
    number: i64,
    parts: &[(i64, Term)],
) -> bool {
    if parts.len() > 1 && use_count(&seen.uses, term) > 1 {
        return true;
    }
    is_taken_far(&seen.spans, coefficient, number, parts)
}

/// Adds a term with its coefficient to a sum.
fn join(
    alloc: Global,
    seen: &Seen,
    forms: &[Form],
    sum: &mut TermSum,
    coefficient: i64,
    term: Term,
) -> Result<(), Memory>
    ensures { (nodes : List GroundNode) → HaveForms nodes (length (plain_forms forms.now)) (plain_forms forms.now)
        → OnOk result (Joins nodes coefficient term (plain_sum sum.old) (plain_sum sum.new)) }
{
    let place = term.number() as usize;
    if place >= forms.len() {
        return add_part(sum, coefficient, term);
    }
    match &forms[place] {
        Form::Sum(number, parts) => {
            if stands_alone(seen, coefficient, term, *number, parts) {
                return add_part(sum, coefficient, term);
            }
            add_sum(alloc, sum, coefficient, term, *number, parts)
        }
        _ => add_part(sum, coefficient, term),
    }
}
