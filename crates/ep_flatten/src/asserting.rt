//! Constraints for the terms that have to be true.

ghost use Rattle.std.specs.Prelude.{◌≡◌, ◌+◌, ◌<◌, false, length, map, IfOk, OnOk};
ghost use Rattle.ep_flat.specs.FlatViews.{plain_con};
ghost use Rattle.ep_flatten.specs.Building.{AreMarks, HasTops, IsBuilt, plain_built, truth_con};
ghost use Rattle.ep_flatten.specs.Forms.{HaveForms, own};
ghost use Rattle.ep_flatten.specs.FormViews.{plain_form, plain_forms};
ghost use Rattle.ep_flatten.specs.Tops as tops;
ghost use Rattle.ep_flatten.specs.Tops.{Asserts};
ghost use Rattle.ep_ground.specs.Bounds.{IsBounded};
ghost use Rattle.ep_ground.specs.GroundViews.{plain_ground};
ghost use Rattle.ep_ground.specs.NodeViews.{plain_node};

use crate::building::Building;
use crate::constraints::{comparison, truth_kind};
use crate::forms::{Form, form_at};
use crate::kinds::{is_all, is_test};
use crate::lists::place_at;
use crate::marks::{Marks, is_marked};
use ep_base::Memory;
use ep_flat::{Con, ConKind};
use ep_ground::{Ground, Node, Term};
use std::alloc::Global;

/// The constraints that say that the terms which have to be true are, where the marked terms have
/// their variables.
pub fn tops_of(
    alloc: Global,
    g: &Ground,
    forms: &[Form],
    marks: &Marks,
    made: &Building,
) -> Result<Vec<Con>, Memory>
    requires bounded { IsBounded (plain_ground g.now) }
    requires forms { HaveForms (plain_ground g.now).nodes (length (plain_ground g.now).nodes) (plain_forms forms.now) }
    requires marks { AreMarks (plain_ground g.now) (plain_forms forms.now) marks.now.asserted.items marks.now.marked.items }
    requires built { IsBuilt (plain_ground g.now) marks.now.marked.items (length (plain_ground g.now).nodes) (plain_built made.now) }
    ensures { IfOk result (λ cons.
        HasTops (plain_ground g.now) marks.now.asserted.items (plain_built made.now) (length (plain_ground g.now).nodes) (map plain_con cons.items)) }
{
    let mut cons = Vec::new(alloc);
    for term in 0..g.arena.len() {
        add_top(
            alloc,
            g,
            forms,
            marks,
            made,
            &mut cons,
            Term::new(term as u32),
        )?;
    }
    Ok(cons)
}

/// Adds the constraint that a term is true, where it has to be. A conjunction is by its parts.
fn add_top(
    alloc: Global,
    g: &Ground,
    forms: &[Form],
    marks: &Marks,
    made: &Building,
    cons: &mut Vec<Con>,
    term: Term,
) -> Result<(), Memory>
    requires term { term < length (plain_ground g.now).nodes }
    requires bounded { IsBounded (plain_ground g.now) }
    requires forms { HaveForms (plain_ground g.now).nodes (length (plain_ground g.now).nodes) (plain_forms forms.now) }
    requires marks { AreMarks (plain_ground g.now) (plain_forms forms.now) marks.now.asserted.items marks.now.marked.items }
    requires built { IsBuilt (plain_ground g.now) marks.now.marked.items (length (plain_ground g.now).nodes) (plain_built made.now) }
    requires tops { HasTops (plain_ground g.now) marks.now.asserted.items (plain_built made.now) term (map plain_con cons.old.items) }
    ensures { OnOk result
        (HasTops (plain_ground g.now) marks.now.asserted.items (plain_built made.now) (term + 1) (map plain_con cons.new.items)) }
{
    if !is_marked(&marks.asserted, term) {
        return Ok(());
    }
    let node = g.arena.node(term);
    if is_all(node) {
        return Ok(());
    }
    cons.push(top(alloc, &made.places, term, node, form_at(forms, term))?)?;
    Ok(())
}

/// The constraint that a term with this node and this form is true.
fn top(alloc: Global, places: &[u64], term: Term, node: &Node, form: &Form) -> Result<Con, Memory>
    requires { tops.is_all (plain_node node.now) ≡ false }
    ensures { IfOk result (λ con. Asserts places.now term (plain_node node.now) (plain_form form.now) (plain_con con)) }
{
    match form {
        Form::Own => own_top(alloc, places, term, node),
        Form::Sum(_, _) => truth_of(alloc, places, term),
        Form::Compare(op, parts, number) => {
            let kind = comparison(alloc, places, *op, parts, *number)?;
            Ok(Con { truth: None, kind })
        }
    }
}

/// The constraint that a term with this node is true.
fn own_top(alloc: Global, places: &[u64], term: Term, node: &Node) -> Result<Con, Memory>
    requires { tops.is_all (plain_node node.now) ≡ false }
    ensures { IfOk result (λ con. Asserts places.now term (plain_node node.now) own (plain_con con)) }
{
    if is_test(node) {
        let kind = truth_kind(alloc, places, node)?;
        return Ok(Con { truth: None, kind });
    }
    truth_of(alloc, places, term)
}

/// The clause that a term is true, by its variable.
fn truth_of(alloc: Global, places: &[u64], term: Term) -> Result<Con, Memory>
    ensures { IfOk result (λ con. plain_con con ≡ truth_con places.now term) }
{
    let mut literals = Vec::new(alloc);
    literals.push((true, place_at(places, term)))?;
    let kind = ConKind::Clause(literals);
    Ok(Con { truth: None, kind })
}
