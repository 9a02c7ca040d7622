//! What comes of the cubes of small formulas.

ghost use Rattle.std.specs.Prelude.{◌≤◌};

use crate::formulas::{formula_of, lists_of};
use cnf_core::{EventList, Formula, Lit, Log};
use log_check::{Verdict, check_log};
use sat_cubes::{Cubed, OpenCubeGate, solve_cubes};
use sat_problems::pigeons;
use sat_text::{read_log, write_log};
use std::alloc::{AllocError, Global};
use std::test::Fail;
use std::thread::Threads;

/// The literals of a clause that aren't false.
fn not_false(alloc: Global, clause: &[Lit], trues: &[Lit]) -> Result<Vec<Lit>, AllocError> {
    let mut found = Vec::new(alloc);
    for lit in clause {
        if !trues.contains(&lit.negated()) {
            found.push(*lit)?;
        }
    }
    Ok(found)
}

/// Whether each hint of a step gives a literal in its turn, and the last one is falsified.
fn is_strict(
    alloc: Global,
    events: &EventList,
    clause: &[Lit],
    hints: &[u64],
) -> Result<bool, AllocError> {
    let mut trues = Vec::new(alloc);
    for lit in clause {
        trues.push(lit.negated())?;
    }
    let mut ended = false;
    for hint in hints {
        let place = *hint as usize;
        if place >= events.len() {
            return Ok(false);
        }
        let found = not_false(alloc, events.clause(place), trues.as_slice())?;
        match found.as_slice() {
            [] if !ended => ended = true,
            [only] if !ended && !trues.contains(only) => trues.push(*only)?,
            _ => return Ok(false),
        }
    }
    Ok(ended)
}

/// Whether this holds of each step of a log.
fn is_strict_log(alloc: Global, log: &Log) -> Result<bool, AllocError> {
    let events = log.events();
    for place in 0..events.len() {
        if let Some(hints) = events.hints(place) {
            if !is_strict(alloc, events, events.clause(place), hints)? {
                return Ok(false);
            }
        }
    }
    Ok(true)
}

/// What the check says of a log's text.
fn verdict(alloc: Global, formula: &Formula, log: &Log) -> Result<&'static str, Fail> {
    let text = write_log(alloc, log)?;
    let Ok(proof) = read_log(alloc, &text) else {
        return Err(Fail::new("a log that can't be read"));
    };
    Ok(match check_log(alloc, formula, &proof)? {
        Verdict::Verified => "verified",
        Verdict::BadStep(_) => "bad",
        Verdict::NoEmptyClause => "open",
    })
}

fn word_of(strict: bool) -> &'static str {
    if strict { "strict" } else { "lenient" }
}

/// What comes of the cubes, in words.
fn said_of<R: Threads + Sync>(
    rt: &R,
    alloc: Global,
    formula: &Formula,
    cubes: u64,
    budget: u64,
) -> Result<String, Fail>
    requires { cubes ≤ 6 }
{
    match solve_cubes(rt, alloc, formula, cubes, budget, &OpenCubeGate)? {
        Cubed::Sat { cube, values, log } => {
            let says = verdict(alloc, formula, &log)?;
            let strict = word_of(is_strict_log(alloc, &log)?);
            let mut text = format!(in alloc; "sat {cube} {says} {strict} ")?;
            for value in &values {
                text.push(if *value { '1' } else { '0' })?;
            }
            Ok(text)
        }
        Cubed::Unsat { log } => {
            let says = verdict(alloc, formula, &log)?;
            let strict = word_of(is_strict_log(alloc, &log)?);
            Ok(format!(in alloc; "unsat {says} {strict}")?)
        }
        Cubed::Spent { cube, log } => {
            let steps = log.steps();
            Ok(format!(in alloc; "spent {cube} {steps}")?)
        }
    }
}

/// The same of a row: the clauses, how many cube variables there may be, the budget, and what is to be said, with `#` between them.
fn wrong_row<R: Threads + Sync>(rt: &R, alloc: Global, row: &str) -> Result<String, Fail> {
    let (clauses, rest) = row.split_once('#').unwrap_or((row, ""));
    let (cubes, rest) = rest.split_once('#').unwrap_or((rest, ""));
    let (budget, want) = rest.split_once('#').unwrap_or((rest, ""));
    let lists = lists_of(alloc, clauses)?;
    let formula = formula_of(alloc, 4, &lists)?;
    let said = said_of(
        rt,
        alloc,
        &formula,
        cubes.parse::<u64>()?.min(6),
        budget.parse::<u64>()?,
    )?;
    if said.as_str() == want {
        return Ok(String::new(alloc));
    }
    Ok(said)
}

const ROWS: &str = "\
1/2#1#5#sat 1 open strict 1100
1 2/1 -2/-1 2/-1 -2#1#5#unsat verified strict
1 2/1 -2/-1 2/-1 -2#2#5#unsat verified strict
1 2/1 -2/-1 2/-1 -2#6#5#unsat verified strict
1/-1 2/-2 3/-3#1#5#unsat verified strict
1/-1 2/-2 3/-3#2#5#unsat verified strict
1/-1 2/-2 3/-3#6#5#unsat verified strict
1/2/3/-1 -2 -3#3#5#unsat verified strict
#6#5#unsat verified strict
none#6#5#sat 0 open strict 0000
1/#3#5#unsat verified strict
-1/1/2#2#5#unsat verified strict
1/1 2/3#3#1#sat 5 open strict 1010
-1/-2/-3/4#6#1#sat 8 open strict 0001";

#[test]
fn small_formulas_are_divided(rt: HostRuntime) -> Result<(), Fail> {
    for row in ROWS.lines() {
        let wrong = wrong_row(&rt, rt.alloc(), row)?;
        assert_eq!(rt; wrong.as_str(), "", "{row}");
    }
    Ok(())
}

/// What comes of so many pigeons in one hole less.
fn said_of_pigeons<R: Threads + Sync>(
    rt: &R,
    alloc: Global,
    count: i64,
    cubes: u64,
    budget: u64,
) -> Result<String, Fail> {
    let clauses = pigeons(alloc, count, count.saturating_sub(1))?;
    let formula = formula_of(alloc, 42, &clauses)?;
    said_of(rt, alloc, &formula, cubes.min(6), budget)
}

#[test]
fn seven_pigeons_spend_a_budget(rt: HostRuntime) -> Result<(), Fail> {
    let said = said_of_pigeons(&rt, rt.alloc(), 7, 1, 1)?;
    assert_eq!(rt; said.as_str(), "spent 0 1");
    Ok(())
}

#[test]
fn five_pigeons_have_no_four_holes(rt: HostRuntime) -> Result<(), Fail> {
    for cubes in [1, 2, 6] {
        let said = said_of_pigeons(&rt, rt.alloc(), 5, cubes, 1_000_000)?;
        assert_eq!(rt; said.as_str(), "unsat verified strict", "{cubes}");
    }
    Ok(())
}
