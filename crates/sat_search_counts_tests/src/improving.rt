//! What one more improvement costs where the values that were found last can stay but for what is asked for.

ghost use Rattle.std.specs.Prelude.{◌≡◌, ◌≤◌, false, IfOk};
ghost use Rattle.cnf_core.specs.Events.{clauses_of, nonempty_steps};
ghost use Rattle.sat_search.specs.Logs.{IsSound};
ghost use Rattle.sat_search_counts_tests.specs.declared.posing.TheConstants.{BUDGET};

use crate::posing::{clause, finds, pose};
use cnf_core::Log;
use sat_problems::drawn;
use sat_search::Solver;
use std::alloc::{AllocError, Global};
use std::test::Fail;

/// The first variable that no drawn clause names.
const FIRST: i64 = 151;

/// So many times an objective gets better.
const TIMES: i64 = 20;

/// The first variable of a pair.
fn first_of(pair: i64) -> i64 {
    FIRST.saturating_add(pair.saturating_mul(2))
}

/// Drawn clauses, and beside them pairs of variables, one of each pair true: the first ones of the pairs are what costs.
fn problem(alloc: Global) -> Result<Vec<Vec<i64>>, AllocError> {
    let mut clauses = drawn(alloc, 13)?;
    for pair in 0..TIMES {
        let first = first_of(pair);
        clauses.push(vec![in alloc; first, first.saturating_add(1)]?)?;
    }
    Ok(clauses)
}

/// Asks for values that cost less, as a bound of an objective does.
fn improve(alloc: Global, pair: i64, solver: &mut Solver, log: &mut Log) -> Result<bool, Fail>
    requires sound { IsSound log.old.events }
    requires clauses { solver.old.broken ≡ false → solver.old.clauses ≡ clauses_of log.old.events }
    requires steps { nonempty_steps log.old.events ≤ BUDGET }
    ensures sound { IsSound log.new.events }
    ensures clauses { solver.new.broken ≡ false → solver.new.clauses ≡ clauses_of log.new.events }
    ensures steps { nonempty_steps log.new.events ≤ BUDGET }
{
    let first = first_of(pair);
    solver.add_given(clause(alloc, &[first.saturating_neg()])?, log)?;
    finds(solver, log)
}

/// A solver of the problem, and its log.
fn posed(alloc: Global) -> Result<(Solver, Log), Fail>
    ensures sound { IfOk result (λ posed. IsSound posed.1.events) }
    ensures clauses { IfOk result (λ posed. posed.0.broken ≡ false → posed.0.clauses ≡ clauses_of posed.1.events) }
    ensures steps { IfOk result (λ posed. nonempty_steps posed.1.events ≤ BUDGET) }
{
    let clauses = problem(alloc)?;
    pose(alloc, clauses.as_slice())
}

/// Asks for better values so many times. Answers how many steps that takes.
fn steps_of_improving(alloc: Global, solver: &mut Solver, log: &mut Log) -> Result<u64, Fail>
    requires sound { IsSound log.old.events }
    requires clauses { solver.old.broken ≡ false → solver.old.clauses ≡ clauses_of log.old.events }
    requires steps { nonempty_steps log.old.events ≤ BUDGET }
{
    let first = log.steps();
    for pair in 0..TIMES {
        if !improve(alloc, pair, solver, log)? {
            return Err(Fail::new("no better values"));
        }
    }
    Ok(log.steps().saturating_sub(first))
}

/// The steps of the search for the first values, and those of all searches for better ones together.
fn steps_in(alloc: Global, solver: &mut Solver, log: &mut Log) -> Result<(u64, u64), Fail>
    requires sound { IsSound log.old.events }
    requires clauses { solver.old.broken ≡ false → solver.old.clauses ≡ clauses_of log.old.events }
    requires steps { nonempty_steps log.old.events ≤ BUDGET }
{
    if !finds(solver, log)? {
        return Err(Fail::new("no values at all"));
    }
    let first = log.steps();
    let later = steps_of_improving(alloc, solver, log)?;
    Ok((first, later))
}

/// The same of the problem.
fn steps_of(alloc: Global) -> Result<(u64, u64), Fail> {
    let (mut solver, mut log) = posed(alloc)?;
    steps_in(alloc, &mut solver, &mut log)
}

/// Clauses, and for each variable the value that it had last, stay from one search to the next: so what was found stays found.
#[test]
fn nothing_is_done_again_between_improvements(rt: HostRuntime) -> Result<(), Fail> {
    let (first, later) = steps_of(rt.alloc())?;
    assert!(rt; first > 0);
    assert_eq!(rt; later, 0);
    Ok(())
}
