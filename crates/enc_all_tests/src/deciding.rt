//! All solutions of a flat problem, by clauses and the solver.

ghost use Rattle.std.specs.Prelude.{◌≡◌, ◌<◌, ◌≤◌, false, length, IfOk, IsSome};
ghost use Rattle.cnf_core.specs.Events.{clauses_of, nonempty_steps};
ghost use Rattle.ep_flat.specs.FlatViews.{plain_flat};
ghost use Rattle.ep_flat.specs.Flats.{IsSoundFlat};
ghost use Rattle.sat_search.specs.Logs.{IsSound};

use crate::sound::is_sound;
use cnf_core::{Clause, Formula, Log};
use enc_all::encode;
use enc_var::{Known, Layout};
use ep_base::Memory;
use ep_flat::Flat;
use sat_search::{Outcome, Solver};
use std::alloc::Global;
use std::test::Fail;

/// So many conflicts may the solver meet.
const BUDGET: u64 = 1_000_000;

/// So many solutions may there be.
const MOST: u64 = 10_000;

/// A solver of the clauses of a formula, and its log.
fn pose(alloc: Global, formula: &Formula) -> Result<(Solver, Log), Fail>
    ensures sound { IfOk result (λ posed. IsSound posed.1.events) }
    ensures clauses { IfOk result (λ posed. posed.0.broken ≡ false → posed.0.clauses ≡ clauses_of posed.1.events) }
    ensures steps { IfOk result (λ posed. nonempty_steps posed.1.events ≡ 0) }
{
    let mut log = Log::new(alloc);
    let mut solver = Solver::new(alloc, &log)?;
    let givens = formula.clauses();
    for place in 0..givens.len() {
        let clause = Clause::from_ordered(alloc, givens.clause(place))?;
        solver.add_given(clause, &mut log)?;
    }
    Ok((solver, log))
}

/// A formula whose assignments are the solutions of a flat problem.
#[tactic(auto, using(crate::proofs::Small::enough))]
fn encoded(alloc: Global, flat: &Flat) -> Result<(Formula, Layout), Memory>
    requires { IsSoundFlat (plain_flat flat.now) }
    ensures { IfOk result (λ made. length flat.now.vars.items ≤ length made.1) }
{
    encode(alloc, flat)
}

/// Whether what is known is so.
fn is_so(solver: &Solver, known: Known) -> bool
    requires { IsSome solver.now.kept }
{
    match known {
        Known::True => true,
        Known::False => false,
        Known::Is(lit) => solver.value(lit.var()) == lit.positive(),
    }
}

/// The numbers of a domain that a variable has.
fn numbers_had(
    alloc: Global,
    solver: &Solver,
    layout: &Layout,
    variable: u64,
    domain: &[i64],
) -> Result<Vec<i64>, Fail>
    requires kept { IsSome solver.now.kept }
    requires there { variable < length layout.now }
{
    let mut numbers = Vec::new(alloc);
    for number in domain {
        if is_so(solver, layout.eq(variable, *number)) {
            numbers.push(*number)?;
        }
    }
    Ok(numbers)
}

/// The numbers of all variables. A variable that has none, or several, has as many there.
fn values_of(
    alloc: Global,
    solver: &Solver,
    layout: &Layout,
    count: u64,
    domains: &[Vec<i64>],
) -> Result<Vec<i64>, Fail>
    requires kept { IsSome solver.now.kept }
    requires there { count ≤ length layout.now }
{
    let mut values = Vec::new(alloc);
    for variable in 0..count {
        if let Some(domain) = domains.get(variable as usize) {
            let had = numbers_had(alloc, solver, layout, variable, domain)?;
            values.extend_from_slice(&had)?;
        }
    }
    Ok(values)
}

/// The clause which says that variables have other numbers than these.
fn other_numbers(alloc: Global, layout: &Layout, count: u64, values: &[i64]) -> Result<Clause, Fail>
    requires { count ≤ length layout.now }
{
    let mut lits = Vec::new(alloc);
    for variable in 0..count {
        if let Some(value) = values.get(variable as usize) {
            if let Known::Is(lit) = layout.eq(variable, *value) {
                lits.push(lit.negated())?;
            }
        }
    }
    Ok(Clause::new(alloc, lits)?)
}

/// The numbers of the variables in one more solution, which a given rules out from then on. There is none where the
/// solver finds none.
fn next_solution(
    alloc: Global,
    layout: &Layout,
    count: u64,
    domains: &[Vec<i64>],
    solver: &mut Solver,
    log: &mut Log,
) -> Result<Option<Vec<i64>>, Fail>
    requires there { count ≤ length layout.now }
    requires sound { IsSound log.old.events }
    requires clauses { solver.old.broken ≡ false → solver.old.clauses ≡ clauses_of log.old.events }
    requires budget { nonempty_steps log.old.events ≤ BUDGET }
    ensures sound { IsSound log.new.events }
    ensures clauses { solver.new.broken ≡ false → solver.new.clauses ≡ clauses_of log.new.events }
    ensures budget { nonempty_steps log.new.events ≤ BUDGET }
{
    match solver.solve(BUDGET, log)? {
        Outcome::Sat => {
            let values = values_of(alloc, solver, layout, count, domains)?;
            let clause = other_numbers(alloc, layout, count, &values)?;
            solver.add_given(clause, log)?;
            Ok(Some(values))
        }
        Outcome::Unsat => Ok(None),
        Outcome::Spent => Err(Fail::new("too many conflicts")),
    }
}

/// The numbers of the variables in all solutions of a formula, one after another.
fn all_solutions(
    alloc: Global,
    formula: &Formula,
    layout: &Layout,
    count: u64,
    domains: &[Vec<i64>],
) -> Result<Vec<Vec<i64>>, Fail>
    requires { count ≤ length layout.now }
{
    let (mut solver, mut log) = pose(alloc, formula)?;
    let mut found = Vec::new(alloc);
    for _turn in 0..MOST {
        let next = next_solution(alloc, layout, count, domains, &mut solver, &mut log)?;
        let Some(values) = next else {
            return Ok(found);
        };
        found.push(values)?;
    }
    Err(Fail::new("too many solutions"))
}

/// The numbers of the variables in all solutions, in order. The domains are those of the problem.
pub(crate) fn solutions(
    alloc: Global,
    flat: &Flat,
    domains: &[Vec<i64>],
) -> Result<Vec<Vec<i64>>, Fail> {
    if !is_sound(flat) {
        return Err(Fail::new("a problem with unknown variables or large numbers"));
    }
    let count = flat.vars.len() as u64;
    let (formula, layout) = encoded(alloc, flat)?;
    let mut found = all_solutions(alloc, &formula, &layout, count, domains)?;
    found.sort()?;
    Ok(found)
}

/// How many variables and clauses the formula of a problem has.
pub(crate) fn sizes(alloc: Global, flat: &Flat) -> Result<(u64, usize), Fail> {
    if !is_sound(flat) {
        return Err(Fail::new("a problem with unknown variables or large numbers"));
    }
    let (formula, _layout) = encoded(alloc, flat)?;
    Ok((formula.vars(), formula.clauses().len()))
}
