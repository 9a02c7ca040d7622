//! Flattening.

ghost use Rattle.std.specs.Prelude.{◌≡◌, ◌++◌, ◌<◌, List, Bool, length, map, option_map, IfOk, OnOk};
ghost use Rattle.std.specs.List.{All};
ghost use Rattle.ep_flat.specs.FlatViews.{plain_con, plain_flat, plain_map};
ghost use Rattle.ep_flatten.specs.Building.{AreMarks, IsBuilt, plain_built};
ghost use Rattle.ep_flatten.specs.Flattening.{StandsFor};
ghost use Rattle.ep_flatten.specs.Forms.{HaveForms};
ghost use Rattle.ep_flatten.specs.FormViews.{plain_forms};
ghost use Rattle.ep_flatten.specs.Saying.{variable_at};
ghost use Rattle.ep_ground.specs.Bounds.{IsBounded};
ghost use Rattle.ep_ground.specs.Grounds.{HasNoPartialNode, IsWellFormed};
ghost use Rattle.ep_ground.specs.GroundViews.{plain_ground};

use crate::asserting::tops_of;
use crate::building::{Building, add_term};
use crate::forms::{Form, forms_of};
use crate::lists::place_at;
use crate::marks::{Marks, marks_of};
use ep_base::{Memory, Sense};
use ep_flat::{CellMap, Flat};
use ep_ground::{Ground, Term};
use std::alloc::Global;

/// A flat problem that stands for the ground, and the variables of its cells and its objective.
/// A term that has to be true is a constraint on its parts, and a comparison of sums one on the parts
/// of both. One variable and one constraint for each other node to which these and the objective lead.
pub fn flatten(alloc: Global, g: &Ground) -> Result<(Flat, CellMap), Memory>
    requires no_partial { HasNoPartialNode (plain_ground g.now) }
    requires well_formed { IsWellFormed (plain_ground g.now) }
    requires bounded { IsBounded (plain_ground g.now) }
    ensures { IfOk result (λ made.
        StandsFor (plain_ground g.now) (plain_flat made.0) (plain_map made.1)) }
{
    let forms = forms_of(alloc, g)?;
    let marks = marks_of(alloc, g, &forms)?;
    let mut made = built(alloc, g, &forms, &marks)?;
    let mut tops = tops_of(alloc, g, &forms, &marks, &made)?;
    made.cons.append(&mut tops)?;
    let objective = placed_goal(&made.places, &g.objective);
    let Building {
        vars,
        cons,
        cells,
        ..
    } = made;
    Ok((Flat { vars, cons }, CellMap { cells, objective }))
}

/// Variables and constraints for the marked terms.
fn built(alloc: Global, g: &Ground, forms: &[Form], marks: &Marks) -> Result<Building, Memory>
    requires no_partial { HasNoPartialNode (plain_ground g.now) }
    requires well_formed { IsWellFormed (plain_ground g.now) }
    requires bounded { IsBounded (plain_ground g.now) }
    requires forms { HaveForms (plain_ground g.now).nodes (length (plain_ground g.now).nodes) (plain_forms forms.now) }
    requires marks { AreMarks (plain_ground g.now) (plain_forms forms.now) marks.now.asserted.items marks.now.marked.items }
    ensures { IfOk result (λ made.
        IsBuilt (plain_ground g.now) marks.now.marked.items (length (plain_ground g.now).nodes) (plain_built made)) }
{
    let mut made = begun(alloc, g)?;
    for term in 0..g.arena.len() {
        add_term(alloc, g, forms, marks, &mut made, Term::new(term as u32))?;
    }
    Ok(made)
}

/// The cells' variables, with their domains.
fn begun(alloc: Global, g: &Ground) -> Result<Building, Memory>
    requires { IsBounded (plain_ground g.now) }
    ensures { IfOk result (λ made.
        (marks : List Bool) → IsBuilt (plain_ground g.now) marks 0 (plain_built made)) }
{
    let mut vars = Vec::new(alloc);
    let mut cells = Vec::new(alloc);
    for cell in &g.cells {
        cells.push(vars.len() as u64)?;
        vars.push(cell.values.copy(alloc)?)?;
    }
    Ok(Building {
        vars,
        cons: Vec::new(alloc),
        places: Vec::new(alloc),
        spans: Vec::new(alloc),
        cells,
    })
}

/// The variable of the objective's term, where there is one.
fn placed_goal(places: &[u64], objective: &Option<(Sense, Term)>) -> Option<(Sense, u64)>
    ensures { result ≡ option_map (λ goal. (goal.0, variable_at places.now goal.1)) objective.now }
{
    let (sense, goal) = (*objective)?;
    Some((sense, place_at(places, goal)))
}
