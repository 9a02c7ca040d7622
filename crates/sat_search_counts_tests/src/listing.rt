//! How many steps the next solution takes where many were found.

ghost use Rattle.std.specs.Prelude.{◌≡◌, ◌≤◌, false, IfOk, IsSome};
ghost use Rattle.cnf_core.specs.Events.{clauses_of, nonempty_steps};
ghost use Rattle.sat_search.specs.Logs.{IsSound};
ghost use Rattle.sat_search_counts_tests.specs.declared.posing.TheConstants.{BUDGET};

use crate::posing::{finds, pose};
use cnf_core::{Clause, Lit, Log};
use sat_search::Solver;
use std::alloc::{AllocError, Global};
use std::test::Fail;

/// The rows of a board.
const SIDE: u64 = 12;

const SQUARES: u64 = SIDE * SIDE;

/// Whether queens on these squares attack each other.
fn attack(one: u64, other: u64) -> bool {
    let rows = (one / SIDE).abs_diff(other / SIDE);
    let columns = (one % SIDE).abs_diff(other % SIDE);
    rows == 0 || columns == 0 || rows == columns
}

/// A queen in each row, of which none attacks another. Each square has a variable.
fn queens(alloc: Global) -> Result<Vec<Vec<i64>>, AllocError> {
    let mut clauses = Vec::new(alloc);
    for row in 0..SIDE {
        let mut squares = Vec::new(alloc);
        for column in 0..SIDE {
            squares.push((row * SIDE + column + 1) as i64)?;
        }
        clauses.push(squares)?;
    }
    for one in 0..SQUARES {
        for other in 0..one {
            if attack(one, other) {
                clauses.push(vec![in alloc; -(one as i64 + 1), -(other as i64 + 1)]?)?;
            }
        }
    }
    Ok(clauses)
}

/// The clause that says that the queens stand on other squares.
fn elsewhere(alloc: Global, solver: &Solver) -> Result<Clause, Fail>
    requires { IsSome solver.now.kept }
{
    let mut lits = Vec::new(alloc);
    for square in 0..SQUARES {
        if solver.value(square + 1) {
            lits.push(Lit::new(square + 1, false))?;
        }
    }
    Ok(Clause::new(alloc, lits)?)
}

/// Finds one more solution, which a given rules out from then on. Answers whether there is one.
fn find_next(alloc: Global, solver: &mut Solver, log: &mut Log) -> Result<bool, Fail>
    requires sound { IsSound log.old.events }
    requires clauses { solver.old.broken ≡ false → solver.old.clauses ≡ clauses_of log.old.events }
    requires steps { nonempty_steps log.old.events ≤ BUDGET }
    ensures sound { IsSound log.new.events }
    ensures clauses { solver.new.broken ≡ false → solver.new.clauses ≡ clauses_of log.new.events }
    ensures steps { nonempty_steps log.new.events ≤ BUDGET }
{
    if !finds(solver, log)? {
        return Ok(false);
    }
    let clause = elsewhere(alloc, solver)?;
    solver.add_given(clause, log)?;
    Ok(true)
}

/// A solver of the queens, and its log.
fn posed(alloc: Global) -> Result<(Solver, Log), Fail>
    ensures sound { IfOk result (λ posed. IsSound posed.1.events) }
    ensures clauses { IfOk result (λ posed. posed.0.broken ≡ false → posed.0.clauses ≡ clauses_of posed.1.events) }
    ensures steps { IfOk result (λ posed. nonempty_steps posed.1.events ≤ BUDGET) }
{
    let clauses = queens(alloc)?;
    pose(alloc, clauses.as_slice())
}

/// So many solutions are a stretch.
const STRETCH: u64 = 1_000;

/// How many steps the next stretch of solutions takes.
fn steps_of_stretch(alloc: Global, solver: &mut Solver, log: &mut Log) -> Result<u64, Fail>
    requires sound { IsSound log.old.events }
    requires clauses { solver.old.broken ≡ false → solver.old.clauses ≡ clauses_of log.old.events }
    requires steps { nonempty_steps log.old.events ≤ BUDGET }
    ensures sound { IsSound log.new.events }
    ensures clauses { solver.new.broken ≡ false → solver.new.clauses ≡ clauses_of log.new.events }
    ensures steps { nonempty_steps log.new.events ≤ BUDGET }
{
    let before = log.steps();
    for _found in 0..STRETCH {
        if !find_next(alloc, solver, log)? {
            return Err(Fail::new("too few solutions"));
        }
    }
    Ok(log.steps().saturating_sub(before))
}

/// The most steps that one of so many stretches takes.
fn most_in(alloc: Global, stretches: u64, solver: &mut Solver, log: &mut Log) -> Result<u64, Fail>
    requires sound { IsSound log.old.events }
    requires clauses { solver.old.broken ≡ false → solver.old.clauses ≡ clauses_of log.old.events }
    requires steps { nonempty_steps log.old.events ≤ BUDGET }
{
    let mut most = 0;
    for _stretch in 0..stretches {
        let steps = steps_of_stretch(alloc, solver, log)?;
        most = steps.max(most);
    }
    Ok(most)
}

/// The same of the queens.
fn most_steps(alloc: Global, stretches: u64) -> Result<u64, Fail> {
    let (mut solver, mut log) = posed(alloc)?;
    most_in(alloc, stretches, &mut solver, &mut log)
}

/// A solution late in the list takes about as many steps as one of the first: some thousand of the 14,200 ways to put twelve queens.
#[test]
fn late_solutions_take_as_few_steps_as_early_ones(rt: HostRuntime) -> Result<(), Fail> {
    let most = most_steps(rt.alloc(), 3)?;
    assert!(rt; most <= 30 * STRETCH, "{most}");
    Ok(())
}
