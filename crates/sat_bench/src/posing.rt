//! A formula as a problem for the solver.

ghost use Rattle.std.specs.Prelude.{◌≡◌, true, false, All, IfOk};
ghost use Rattle.cnf_core.specs.Events.{clauses_of, is_given, nonempty_steps};
ghost use Rattle.sat_search.specs.Logs.{IsSound};

use crate::refusal::Refusal;
use cnf_core::{Formula, Log};
use ep_base::{FileError, Files, Memory};
use sat_search::Solver;
use sat_text::{MOST_BYTES, read_cnf};
use std::alloc::Global;

/// The formula that a file has.
pub fn read_formula<F: Files>(
    alloc: Global,
    files: &mut F,
    name: &str,
) -> Result<Formula, Refusal> {
    match files.read(alloc, name, MOST_BYTES as u64 + 1) {
        Ok(Some(text)) => Ok(read_cnf(alloc, &text)?.formula),
        Ok(None) | Err(FileError::Failed) => Err(Refusal::Unread),
        Err(FileError::Memory) => Err(Refusal::Memory),
    }
}

/// A solver of the clauses of a formula, and its log, in which they are the givens and to which they are moved.
///
/// A clause that has a literal and its negation is given too, so that the steps of the log find each clause under its number.
pub fn pose(alloc: Global, formula: Formula) -> Result<(Solver, Log), Refusal>
    ensures sound { IfOk result (λ posed. IsSound posed.1.events) }
    ensures clauses { IfOk result (λ posed. posed.0.broken ≡ false → posed.0.clauses ≡ clauses_of posed.1.events) }
    ensures steps { IfOk result (λ posed. nonempty_steps posed.1.events ≡ 0) }
    ensures same { IfOk result (λ posed. clauses_of posed.1.events ≡ formula.clauses) }
{
    let log = Log::of_givens(alloc, formula.into_clauses())?;
    let solver = Solver::new(alloc, &log)?;
    Ok((solver, log))
}
