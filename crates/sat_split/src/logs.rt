//! The log that the search of a cube begins with.

ghost use Rattle.std.specs.Prelude.{◌≡◌, IfOk, OnOk, ◌∷◌, ◌++◌, []};
ghost use Rattle.cnf_core.specs.Events.{given};
ghost use Rattle.sat_split.specs.Cubes as cubes;

use cnf_core::{Clause, Formula, Lit, Log};
use ep_base::Memory;
use std::alloc::Global;

/// A log of the clauses of a formula as givens.
pub fn given_log(alloc: Global, formula: &Formula) -> Result<Log, Memory>
    ensures { IfOk result (λ log. log ≡ record { events = cubes.all_given formula.now.clauses; notes = []; base = 0 }) }
{
    let clauses = formula.clauses();
    let mut log = Log::new(alloc);
    for place in 0..clauses.len() {
        log.given_ordered(clauses.clause(place))?;
    }
    Ok(log)
}

// Appends a literal as a given of its own.
fn give_unit(alloc: Global, log: &mut Log, lit: Lit) -> Result<(), Memory>
    ensures { OnOk result (log.new ≡ record log.old { events = log.old.events ++ given (lit ∷ []) ∷ [] }) }
{
    let mut literals = Vec::new(alloc);
    literals.push(lit)?;
    log.given(Clause::new(alloc, literals)?)
}

/// The clauses of a formula, and the literals of a cube as clauses, all as givens.
pub fn cube_log(alloc: Global, formula: &Formula, literals: &[Lit]) -> Result<Log, Memory>
    ensures { IfOk result (λ log. log ≡ cubes.cube_log formula.now.clauses literals.now) }
{
    let mut log = given_log(alloc, formula)?;
    for lit in literals {
        give_unit(alloc, &mut log, *lit)?;
    }
    Ok(log)
}
