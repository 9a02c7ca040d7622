//! Clauses of numbers as a problem for the solver.

ghost use Rattle.std.specs.Prelude.{◌≡◌, ◌≤◌, false, Ok, true, IfOk, IsSome};
ghost use Rattle.cnf_core.specs.Events.{clauses_of, nonempty_steps};
ghost use Rattle.sat_search.specs.Logs.{IsSound};

use cnf_core::{Clause, Lit, Log, MOST_VARIABLE};
use ep_base::Memory;
use sat_search::{Outcome, Solver};
use std::alloc::Global;
use std::test::Fail;

/// So many steps may a log have.
pub const BUDGET: u64 = 1_000_000;

/// The literal of a number, negative for a negative literal.
fn literal(number: i64) -> Lit {
    Lit::new(number.unsigned_abs().clamp(1, MOST_VARIABLE), number > 0)
}

/// A clause from numbers.
pub fn clause(alloc: Global, numbers: &[i64]) -> Result<Clause, Memory> {
    let mut lits = Vec::new(alloc);
    for number in numbers {
        lits.push(literal(*number))?;
    }
    Clause::new(alloc, lits)
}

/// A solver of these clauses, and its log.
pub fn pose(alloc: Global, clauses: &[Vec<i64>]) -> Result<(Solver, Log), Fail>
    ensures sound { IfOk result (λ posed. IsSound posed.1.events) }
    ensures clauses { IfOk result (λ posed. posed.0.broken ≡ false → posed.0.clauses ≡ clauses_of posed.1.events) }
    ensures steps { IfOk result (λ posed. nonempty_steps posed.1.events ≤ BUDGET) }
{
    let mut log = Log::new(alloc);
    let mut solver = Solver::new(alloc, &log)?;
    for numbers in clauses {
        solver.add_given(clause(alloc, numbers.as_slice())?, &mut log)?;
    }
    Ok((solver, log))
}

/// Whether the search finds values.
pub fn finds(solver: &mut Solver, log: &mut Log) -> Result<bool, Fail>
    requires sound { IsSound log.old.events }
    requires clauses { solver.old.broken ≡ false → solver.old.clauses ≡ clauses_of log.old.events }
    requires steps { nonempty_steps log.old.events ≤ BUDGET }
    ensures sound { IsSound log.new.events }
    ensures clauses { solver.new.broken ≡ false → solver.new.clauses ≡ clauses_of log.new.events }
    ensures steps { nonempty_steps log.new.events ≤ BUDGET }
    ensures kept { result ≡ Ok true → IsSome solver.new.kept }
{
    match solver.solve(BUDGET, log)? {
        Outcome::Sat => Ok(true),
        Outcome::Unsat => Ok(false),
        Outcome::Spent => Err(Fail::new("too many conflicts")),
    }
}
