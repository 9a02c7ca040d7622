//! The solver on small problems, and on some that need a search.

ghost use Rattle.std.specs.Prelude.{◌≡◌, false, IfOk, IsSome};
ghost use Rattle.cnf_core.specs.Events.{clauses_of};
ghost use Rattle.sat_search.specs.Logs.{IsSound};

use crate::numbers::{clause, lists_of};
use cnf_core::{EventList, Lit, Log};
use sat_problems::{drawn, hinted_square, pigeons, square_of_hints};
use sat_search::{Outcome, SolveError, Solver};
use std::alloc::{AllocError, Global};
use std::test::Fail;

// A solver of these clauses, and its log.
fn pose(alloc: Global, clauses: &[Vec<i64>]) -> Result<(Solver, Log), Fail>
    ensures sound { IfOk result (λ posed. IsSound posed.1.events) }
    ensures clauses { IfOk result (λ posed. posed.0.broken ≡ false → posed.0.clauses ≡ clauses_of posed.1.events) }
{
    let mut log = Log::new(alloc);
    let mut solver = Solver::new(alloc, &log)?;
    for numbers in clauses {
        solver.add_given(clause(alloc, numbers.as_slice())?, &mut log)?;
    }
    Ok((solver, log))
}

// Whether the last event is the empty step.
fn is_closed(log: &Log) -> bool {
    let events = log.events();
    match events.len().checked_sub(1) {
        Some(last) => events.hints(last).is_some() && events.clause(last).is_empty(),
        None => false,
    }
}

// The literals of a clause that aren't false.
fn not_false(alloc: Global, clause: &[Lit], trues: &[Lit]) -> Result<Vec<Lit>, AllocError> {
    let mut found = Vec::new(alloc);
    for lit in clause {
        if !trues.contains(&lit.negated()) {
            found.push(*lit)?;
        }
    }
    Ok(found)
}

// Whether each hint of a step gives a literal in its turn, and the last one is falsified.
fn is_strict(
    alloc: Global,
    events: &EventList,
    clause: &[Lit],
    hints: &[u64],
) -> Result<bool, AllocError> {
    let mut trues = Vec::new(alloc);
    for lit in clause {
        trues.push(lit.negated())?;
    }
    let mut ended = false;
    for hint in hints {
        let place = *hint as usize;
        if place >= events.len() {
            return Ok(false);
        }
        let found = not_false(alloc, events.clause(place), trues.as_slice())?;
        match found.as_slice() {
            [] if !ended => ended = true,
            [only] if !ended && !trues.contains(only) => trues.push(*only)?,
            _ => return Ok(false),
        }
    }
    Ok(ended)
}

// Whether this holds of each step of a log.
fn is_strict_log(alloc: Global, log: &Log) -> Result<bool, AllocError> {
    let events = log.events();
    for place in 0..events.len() {
        if let Some(hints) = events.hints(place) {
            if !is_strict(alloc, events, events.clause(place), hints)? {
                return Ok(false);
            }
        }
    }
    Ok(true)
}

// How the search ends, and its log.
fn searched(alloc: Global, clauses: &[Vec<i64>], budget: u64) -> Result<(Outcome, Log), Fail> {
    let (mut solver, mut log) = pose(alloc, clauses)?;
    if log.steps() > budget {
        return Err(Fail::new("more steps than conflicts may be"));
    }
    let outcome = solver.solve(budget, &mut log)?;
    Ok((outcome, log))
}

// How the search ends, and how many steps have a literal then. The last event is the empty step exactly where there is no model.
fn said_of(alloc: Global, clauses: &[Vec<i64>], budget: u64) -> Result<String, Fail> {
    let (outcome, log) = searched(alloc, clauses, budget)?;
    if is_closed(&log) != (outcome == Outcome::Unsat) {
        return Err(Fail::new("an empty step where there is a model, or none where there is none"));
    }
    let word = match outcome {
        Outcome::Sat => "sat",
        Outcome::Unsat => "unsat",
        Outcome::Spent => "spent",
    };
    let steps = log.steps();
    Ok(format!(in alloc; "{word} {steps}")?)
}

// How the search ends on the clauses of a text.
fn said_of_text(alloc: Global, text: &str, budget: u64) -> Result<String, Fail> {
    let clauses = lists_of(alloc, text)?;
    said_of(alloc, clauses.as_slice(), budget)
}

#[test]
fn small_problems_end_as_they_must(rt: HostRuntime) -> Result<(), Fail> {
    for (text, want) in [("none", "sat 0"), ("", "unsat 0"), ("-1 2/-2 3", "sat 0")] {
        let said = said_of_text(rt.alloc(), text, 1)?;
        assert_eq!(rt; said.as_str(), want, "{text}");
    }
    let said = said_of_text(rt.alloc(), "1 2/1 -2/-1 2/-1 -2", 10)?;
    assert!(rt; said.starts_with("unsat "), "{said}");
    Ok(())
}

const MANY: u64 = 1_000_000;

// Whether a search finds that there is no model, by a strict log.
fn is_refuted(alloc: Global, clauses: &[Vec<i64>]) -> Result<bool, Fail> {
    let (outcome, log) = searched(alloc, clauses, MANY)?;
    let is_strict = is_strict_log(alloc, &log)?;
    Ok(outcome == Outcome::Unsat && is_closed(&log) && is_strict)
}

#[test]
fn few_pigeons_need_steps(rt: HostRuntime) -> Result<(), Fail> {
    let few = pigeons(rt.alloc(), 4, 3)?;
    let said = said_of(rt.alloc(), few.as_slice(), 1)?;
    assert_eq!(rt; said.as_str(), "spent 1");
    assert!(rt; is_refuted(rt.alloc(), few.as_slice())?);
    Ok(())
}

#[test]
fn seven_pigeons_have_no_six_holes(rt: HostRuntime) -> Result<(), Fail> {
    let many = pigeons(rt.alloc(), 7, 6)?;
    assert!(rt; is_refuted(rt.alloc(), many.as_slice())?);
    Ok(())
}

#[test]
fn drawn_clauses_have_values(rt: HostRuntime) -> Result<(), Fail> {
    let clauses = drawn(rt.alloc(), 13)?;
    let said = said_of(rt.alloc(), clauses.as_slice(), MANY)?;
    assert!(rt; said.starts_with("sat "), "{said}");
    Ok(())
}

#[test]
fn drawn_clauses_have_none(rt: HostRuntime) -> Result<(), Fail> {
    let clauses = drawn(rt.alloc(), 6)?;
    let said = said_of(rt.alloc(), clauses.as_slice(), MANY)?;
    assert!(rt; said.starts_with("unsat "), "{said}");
    Ok(())
}

// Whether these variables are true.
fn are_true(solver: &Solver, variables: &[i64]) -> bool
    requires { IsSome solver.now.kept }
{
    for variable in variables {
        if !solver.value(variable.unsigned_abs()) {
            return false;
        }
    }
    true
}

// Whether the search finds a model of the clauses in which these variables are true.
fn has_all(alloc: Global, clauses: &[Vec<i64>], variables: &[i64]) -> Result<bool, Fail> {
    let (mut solver, mut log) = pose(alloc, clauses)?;
    if log.steps() != 0 {
        return Ok(false);
    }
    match solver.solve(MANY, &mut log)? {
        Outcome::Sat => Ok(are_true(&solver, variables)),
        _ => Ok(false),
    }
}

#[test]
fn hints_make_a_latin_square(rt: HostRuntime) -> Result<(), Fail> {
    let clauses = hinted_square(rt.alloc())?;
    let hints = square_of_hints(rt.alloc())?;
    assert!(rt; has_all(rt.alloc(), clauses.as_slice(), hints.as_slice())?);
    Ok(())
}

// A variable that is beyond those of a solver's tables.
const TOO_GREAT: i64 = 2_147_483_647;

// How a solver of one clause answers where it is given one that it has no room for, and then where it is given another and asked to search;
// and how many events its log has then.
fn answers_without_room(alloc: Global) -> Result<String, Fail> {
    let mut log = Log::new(alloc);
    let mut solver = Solver::new(alloc, &log)?;
    solver.add_given(clause(alloc, &[1])?, &mut log)?;
    let first = solver.add_given(clause(alloc, &[TOO_GREAT])?, &mut log);
    let given = solver.add_given(clause(alloc, &[2])?, &mut log);
    let searched = solver.solve(MANY, &mut log).map(|_| ());
    let events = log.events().len();
    Ok(format!(in alloc;
        "{} {} {} {events}",
        word_of(first),
        word_of(given),
        word_of(searched)
    )?)
}

// The word of an answer.
fn word_of(answer: Result<(), SolveError>) -> &'static str {
    match answer {
        Ok(()) => "ok",
        Err(SolveError::Memory) => "memory",
        Err(SolveError::Broken) => "broken",
    }
}

#[test]
fn a_solver_is_broken_after_want_of_memory(rt: HostRuntime) -> Result<(), Fail> {
    let said = answers_without_room(rt.alloc())?;
    assert_eq!(rt; said.as_str(), "memory broken broken 1");
    Ok(())
}
