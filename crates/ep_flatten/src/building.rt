//! A flat problem as it grows, term by term.

ghost use Rattle.std.specs.Prelude.{◌≡◌, ◌+◌, ◌++◌, ◌∷◌, [], ◌<◌, ℕ, List, Bool, length, map, slice_index_or, IfOk, OnOk, true, false};
ghost use Rattle.std.specs.List.{All};
ghost use Rattle.ep_base.specs.Reads.{IsWithinNumbers};
ghost use Rattle.ep_base.specs.Intervals.{IsWithinReach, only, spanned};
ghost use Rattle.ep_numbers.specs.Spans.{interval_of};
ghost use Rattle.ep_flatten.specs.Building.{Advances, AreMarks, HasAll, HasSmall, IsBuilt, plain_built};
ghost use Rattle.ep_flatten.specs.Forms.{HaveForms, TermForm, form_coefficients};
ghost use Rattle.ep_flatten.specs.FormViews.{plain_form, plain_forms};
ghost use Rattle.ep_flatten.specs.Saying.{HasParts, is_operation};
ghost use Rattle.ep_ground.specs.Bounds.{IsBounded};
ghost use Rattle.ep_ground.specs.GroundViews.{plain_ground};
ghost use Rattle.ep_ground.specs.Grounds.{HasNoPartialNode, IsWellFormed, StandsOver};
ghost use Rattle.ep_ground.specs.NodeViews.{plain_node};
ghost use Rattle.ep_ground.specs.Nodes.{constant, cell, is_partial};

use crate::constraints::form_constraint;
use crate::forms::{Form, form_at};
use crate::images::domain_for;
use crate::intervals::clamped;
use crate::marks::{Marks, is_marked};
use crate::spans::form_span;
use ep_base::{Memory, Run, Runs};
use ep_flat::Con;
use ep_ground::{Ground, Node, Term};
use ep_numbers::{Span, span_of_set, widened};
use std::alloc::Global;

/// Variables and constraints so far, with the variable and the interval of each term so far.
#[derive(Drop)]
pub struct Building {
    /// The domain of each variable.
    pub vars: Vec<Runs>,
    /// The constraints.
    pub cons: Vec<Con>,
    /// The variable of each term.
    pub places: Vec<u64>,
    /// The interval of each term.
    pub spans: Vec<Span>,
    /// The variable of each cell.
    pub cells: Vec<u64>,
}

/// Adds a term: its variable, and the constraint that gives the variable the term's value.
pub fn add_term(
    alloc: Global,
    g: &Ground,
    forms: &[Form],
    marks: &Marks,
    made: &mut Building,
    term: Term,
) -> Result<(), Memory>
    requires term { term < length (plain_ground g.now).nodes }
    requires no_partial { HasNoPartialNode (plain_ground g.now) }
    requires well_formed { IsWellFormed (plain_ground g.now) }
    requires bounded { IsBounded (plain_ground g.now) }
    requires forms { HaveForms (plain_ground g.now).nodes (length (plain_ground g.now).nodes) (plain_forms forms.now) }
    requires marks { AreMarks (plain_ground g.now) (plain_forms forms.now) marks.now.asserted.items marks.now.marked.items }
    requires built { IsBuilt (plain_ground g.now) marks.now.marked.items term (plain_built made.old) }
    ensures { OnOk result
        (IsBuilt (plain_ground g.now) marks.now.marked.items (term + 1) (plain_built made.new)) }
{
    if !is_marked(&marks.marked, term) {
        return note(made, 0, Span { low: 0, high: 0 });
    }
    add_node(alloc, made, g.arena.node(term), form_at(forms, term))
}

/// Adds a node's variable and its constraint.
fn add_node(alloc: Global, made: &mut Building, node: &Node, form: &Form) -> Result<(), Memory>
    requires stands { StandsOver (length (plain_built made.old).cells) (plain_node node.now) }
    requires total { is_partial (plain_node node.now) ≡ false }
    requires small { All IsWithinNumbers (form_coefficients (plain_node node.now) (plain_form form.now)) }
    ensures { OnOk result (Advances (plain_built made.old) (plain_node node.now) (plain_form form.now) (plain_built made.new)) }
{
    match node {
        Node::Const(number) => add_number(alloc, made, *number),
        Node::Cell(place) => add_cell(made, *place),
        _ => add_operation(alloc, made, node, form),
    }
}

/// Adds a variable whose one value is the number.
fn add_number(alloc: Global, made: &mut Building, number: i64) -> Result<(), Memory>
    ensures { OnOk result ((form : TermForm) → Advances (plain_built made.old) (constant number) form (plain_built made.new)) }
{
    let variable = made.vars.len() as u64;
    let span = Span {
        low: number,
        high: number,
    };
    made.vars.push(domain_of(alloc, span)?)?;
    note(made, variable, span)
}

/// Lets a cell's variable stand for a term.
fn add_cell(made: &mut Building, place: u64) -> Result<(), Memory>
    requires { place < length (plain_built made.old).cells }
    ensures { OnOk result ((form : TermForm) → Advances (plain_built made.old) (cell place) form (plain_built made.new)) }
{
    let variable = made.cells[place as usize];
    let span = cell_span(made, variable);
    note(made, variable, span)
}

/// The interval of a variable's domain, as far as the stages compute, and that of 0 alone for a
/// variable that isn't there.
fn cell_span(made: &Building, variable: u64) -> Span
    ensures small { IsWithinReach (interval_of result) }
    ensures holds { HasSmall (spanned (slice_index_or made.now.vars.items variable [])) (interval_of result) }
{
    let place = variable as usize;
    if place < made.vars.len() {
        clamped(widened(span_of_set(&made.vars[place])))
    } else {
        Span { low: 0, high: 0 }
    }
}

/// Adds a variable for an operation, and its constraint.
fn add_operation(alloc: Global, made: &mut Building, node: &Node, form: &Form) -> Result<(), Memory>
    requires parts { HasParts (plain_node node.now) }
    requires operation { is_operation (plain_node node.now) ≡ true }
    requires small { All IsWithinNumbers (form_coefficients (plain_node node.now) (plain_form form.now)) }
    ensures { OnOk result (Advances (plain_built made.old) (plain_node node.now) (plain_form form.now) (plain_built made.new)) }
{
    let variable = made.vars.len() as u64;
    let span = form_span(&made.spans, node, form);
    let con = form_constraint(alloc, &made.places, node, form, variable)?;
    let domain = domain_for(alloc, &made.vars, &made.places, span, node, form)?;
    made.vars.push(domain)?;
    made.cons.push(con)?;
    note(made, variable, span)
}

/// Notes the variable and the interval of the next term.
fn note(made: &mut Building, variable: u64, span: Span) -> Result<(), Memory>
    ensures places { OnOk result (made.new.places.items ≡ made.old.places.items ++ variable ∷ []) }
    ensures spans { OnOk result (made.new.spans.items ≡ made.old.spans.items ++ span ∷ []) }
    ensures vars { OnOk result (made.new.vars.items ≡ made.old.vars.items) }
    ensures cons { OnOk result (made.new.cons.items ≡ made.old.cons.items) }
    ensures cells { OnOk result (made.new.cells.items ≡ made.old.cells.items) }
{
    made.places.push(variable)?;
    made.spans.push(span)?;
    Ok(())
}

/// The numbers between two ends.
pub fn domain_of(alloc: Global, span: Span) -> Result<Runs, Memory>
    ensures { IfOk result (λ domain. HasAll domain (interval_of span)) }
{
    let mut parts = Vec::new(alloc);
    parts.push(Run {
        lo: span.low,
        hi: span.high,
    })?;
    Runs::new(alloc, parts)
}
