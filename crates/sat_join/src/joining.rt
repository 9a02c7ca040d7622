//! Joins the steps of a cube.

ghost use Rattle.std.specs.Prelude.{◌≡◌, ◌+◌, IfOk, OnOk, length};
ghost use Rattle.cnf_core.specs.Events.{HintsAreThere};
ghost use Rattle.cnf_core.specs.Steps.{NonEmptyStepsAreEffective};
ghost use Rattle.sat_join.specs.Joins.{CanJoin, RefutesCubes, KeepsNew, Refutes};

use crate::places::{find_false, places_of, refutation, widened};
use cnf_core::{Formula, Lit, Log};
use ep_base::Memory;
use sat_split::cube_literals;
use std::alloc::Global;

/// The place of an event each of whose literals is false where these are true. Where there is none, the step that says so is
/// added, which the clauses at these places show.
pub(crate) fn refute(
    alloc: Global,
    joined: &mut Log,
    literals: &[Lit],
    hints: Vec<u64>,
) -> Result<u64, Memory>
    requires { HintsAreThere joined.old.events hints.items }
    ensures { IfOk result (λ place. Refutes joined.old joined.new literals.now hints.items place) }
{
    match find_false(joined.events(), literals) {
        Some(place) => Ok(place),
        None => {
            let place = joined.events().len() as u64;
            joined.step(refutation(alloc, literals)?, hints)?;
            Ok(place)
        }
    }
}

/// Joins the steps of the next cube, which has no solution, and keeps the place of an event each of whose literals is false in it. The log of
/// the cube may be any solver's. Where its steps are effective, as this project's are, those that are joined are new.
/// After want of memory nothing is said of what is joined: the caller drops it.
///
/// Costs the literals of its steps and hints, and a look at each event of the joined log.
pub fn join_cube(
    alloc: Global,
    formula: &Formula,
    vars: &[u64],
    refuted: &Log,
    joined: &mut Log,
    ends: &mut Vec<u64>,
) -> Result<(), Memory>
    requires { CanJoin formula.now.clauses vars.now ends.old.items refuted.now.events joined.old.events }
    ensures joint { OnOk result (RefutesCubes formula.now.clauses vars.now ends.new.items joined.new.events) }
    ensures new { OnOk result (NonEmptyStepsAreEffective refuted.now.events → KeepsNew joined.old.events joined.new.events) }
    ensures count { OnOk result (length ends.new.items ≡ length ends.old.items + 1) }
    ensures notes { OnOk result (joined.new.notes ≡ joined.old.notes) }
    ensures base { OnOk result (joined.new.base ≡ joined.old.base) }
{
    let givens = formula.clauses();
    let literals = cube_literals(alloc, ends.len() as u64, vars)?;
    let first = joined.events().len() as u64;
    let events = refuted.events();
    for place in givens.len() + literals.len()..events.len() {
        let Some(hints) = events.hints(place) else {
            unreachable!()
        };
        let places = places_of(alloc, givens, &literals, first, hints)?;
        let clause = events.clause(place);
        if clause.is_empty() {
            ends.push(refute(alloc, joined, &literals, places)?)?;
            return Ok(());
        }
        joined.step(widened(alloc, clause, &literals)?, places)?;
    }
    unreachable!()
}
