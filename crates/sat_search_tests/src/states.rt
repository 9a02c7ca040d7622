//! What a state does with formulas worked out by hand, as texts of steps.

ghost use Rattle.std.specs.Prelude.{◌≡◌, ◌≤◌, ◌<◌, length, IfOk};

use crate::numbers::{clause, clause_of, numbers_of, push_clause};
use cnf_core::{Clause, Lit, MOST_VARIABLE};
use sat_state::{Propagated, ShortLit, State};
use std::alloc::{AllocError, Global};
use std::process::Abort;
use std::test::Fail;

fn literal(rt: &impl Abort, number: i64) -> Lit {
    let var = number.unsigned_abs();
    assert!(rt; 1 <= var && var <= MOST_VARIABLE);
    Lit::new(var, number > 0)
}

fn add(rt: &impl Abort, alloc: Global, state: &mut State, numbers: &[i64]) -> Result<(), Fail>
    ensures vars { IfOk result (λ _. state.old.vars ≤ state.new.vars) }
    ensures clauses { IfOk result (λ _. 0 < length state.new.clauses) }
{
    let clause = clause(alloc, numbers)?;
    assert!(rt; state.level() == 0);
    Ok(state.add(clause)?)
}

fn decide(rt: &impl Abort, state: &mut State, lit: Lit)
    requires { lit.var ≤ state.old.vars }
    ensures vars { state.new.vars ≡ state.old.vars }
    ensures clauses { state.new.clauses ≡ state.old.clauses }
{
    match state.propagate() {
        Propagated::Done => {
            assert!(rt; state.value(lit.var()).is_none());
            state.decide(lit);
        }
        Propagated::Conflict(_) => panic!(rt; "a conflict"),
    }
}

fn propagate(rt: &impl Abort, state: &mut State, conflict: Option<u64>)
    ensures vars { state.new.vars ≡ state.old.vars }
    ensures clauses { state.new.clauses ≡ state.old.clauses }
{
    match state.propagate() {
        Propagated::Done => assert!(rt; conflict.is_none()),
        Propagated::Conflict(number) => assert!(rt; conflict == Some(number)),
    }
}

fn back(rt: &impl Abort, state: &mut State, level: u64)
    ensures { state.old.vars ≤ state.new.vars }
{
    assert!(rt; level <= state.level());
    state.backtrack(level);
    assert!(rt; state.level() == level);
}

fn assert_true(rt: &impl Abort, state: &State, numbers: &[i64]) {
    assert!(rt; state.trail().len() == numbers.len());
    for number in numbers {
        assert!(rt; state.value(number.unsigned_abs()) == Some(*number > 0));
    }
}

fn assert_from(rt: &impl Abort, state: &State, var: u64, level: u64, reason: Option<u64>) {
    assert!(rt; state.value(var).is_some());
    assert!(rt; state.level_of(var) == level);
    assert!(rt; state.reason(var) == reason);
}

// The first number of a list, or 0.
fn first(numbers: &[i64]) -> i64 {
    match numbers.first() {
        Some(number) => *number,
        None => 0,
    }
}

// A variable, its level, and the clause that gave its value, if there is a third number.
fn assert_given(rt: &impl Abort, state: &State, numbers: &[i64]) {
    match numbers {
        [var, level] => {
            assert_from(rt, state, var.unsigned_abs(), level.unsigned_abs(), None);
        }
        [var, level, reason] => {
            let reason = Some(reason.unsigned_abs());
            assert_from(rt, state, var.unsigned_abs(), level.unsigned_abs(), reason);
        }
        _ => panic!(rt; "a variable, its level and its clause"),
    }
}

// Decides a literal of one of the first nine variables.
fn decide_small(rt: &impl Abort, state: &mut State, lit: Lit)
    requires { 9 ≤ state.old.vars }
    ensures { 9 ≤ state.new.vars }
{
    assert!(rt; lit.var() <= 9);
    decide(rt, state, lit);
}

const MANY: u64 = 100_000;

// Adds the clause that one variable implies the next.
fn add_implication(rt: &impl Abort, alloc: Global, state: &mut State, var: u64) -> Result<(), Fail>
    ensures { IfOk result (λ _. state.old.vars ≤ state.new.vars) }
{
    assert!(rt; 1 <= var && var < MOST_VARIABLE);
    let mut lits = Vec::new(alloc);
    lits.push(Lit::new(var, false))?;
    lits.push(Lit::new(var + 1, true))?;
    let clause = Clause::new(alloc, lits)?;
    assert!(rt; state.level() == 0);
    Ok(state.add(clause)?)
}

// Adds the clauses that each of many variables implies the next.
fn add_chain(rt: &impl Abort, alloc: Global, state: &mut State) -> Result<(), Fail>
    requires { 9 ≤ state.old.vars }
    ensures { IfOk result (λ _. 9 ≤ state.new.vars) }
{
    for var in 1..MANY {
        add_implication(rt, alloc, state, var)?;
    }
    Ok(())
}

// Asserts that just these variables are true.
fn assert_all_true(rt: &impl Abort, state: &State) {
    assert!(rt; state.trail().len() as u64 == MANY);
    for var in 1..MANY + 1 {
        assert!(rt; state.value(var) == Some(true));
    }
}

// A step's word, and its numbers. `add` a clause, `decide` a literal, `propagate` to the conflict of this number, or to none, go
// `back` to a level; `true` are exactly these literals, and a variable has its value `from` this level and this clause. A `chain` are the clauses that each of many variables implies the next, and `all` of these are true.
fn take(rt: &impl Abort, alloc: Global, state: &mut State, step: &str) -> Result<(), Fail>
    requires { 9 ≤ state.old.vars }
    ensures { IfOk result (λ _. 9 ≤ state.new.vars) }
{
    let (word, rest) = step.split_once(' ').unwrap_or((step, ""));
    let numbers = numbers_of(alloc, rest)?;
    match word {
        "add" => add(rt, alloc, state, &numbers)?,
        "decide" => decide_small(rt, state, literal(rt, first(&numbers))),
        "propagate" => propagate(rt, state, None),
        "conflict" => propagate(rt, state, Some(first(&numbers).unsigned_abs())),
        "back" => back(rt, state, first(&numbers).unsigned_abs()),
        "true" => assert_true(rt, state, &numbers),
        "chain" => add_chain(rt, alloc, state)?,
        "all" => assert_all_true(rt, state),
        _ => assert_given(rt, state, &numbers),
    }
    Ok(())
}

// Takes the steps of a text, with `, ` between any two.
fn run(rt: &impl Abort, alloc: Global, steps: &str) -> Result<(), Fail> {
    let mut state = State::new(alloc, &[], 9)?;
    for step in steps.split(", ") {
        take(rt, alloc, &mut state, step)?;
    }
    Ok(())
}

const FORMULAS: &str = "\
propagate, true
add 1, add -1 2, propagate, true 1 2
add -2, add 1, add -1 2, conflict 2, true -2 1
add -1 2, add -2 3, add 1, propagate, true 1 2 3
add 1 2, add -1 2, add 3 -3, propagate, true
add 1, add, conflict 1, conflict 1, true 1
add 1, add -1, conflict 1, true 1
add 1, propagate, add -1 12, propagate, true 1 12, add -1 -12, conflict 2
chain, add 1, propagate, all
chain, decide 1, propagate, all
add 9, add -1 2, add -2 -9 3, add -4 5, add -4 -3 -5, add -3 4 6, propagate, \
decide 1, propagate, true 9 1 2 3, from 9 0 0, from 1 1, from 3 1 2, \
decide 4, conflict 3, true 9 1 2 3 4 -5, back 2, true 9 1 2 3 4 -5, back 1, true 9 1 2 3, \
decide -4, propagate, true 9 1 2 3 -4 6, from 6 2 5, back 0, true 9, propagate, true 9";

#[test]
fn formulas_are_propagated_as_worked_out_by_hand(rt: HostRuntime) -> Result<(), Fail> {
    for steps in FORMULAS.lines() {
        run(&rt, rt.alloc(), steps)?;
    }
    Ok(())
}

#[test]
fn a_clause_is_added_where_it_is_unit(rt: HostRuntime) -> Result<(), Fail> {
    let mut state = State::new(rt.alloc(), &[], 2)?;
    let decided = Lit::new(1, true);
    let forced = Lit::new(2, true);
    state.decide(decided);
    let lits = vec![in rt.alloc(); decided.negated(), forced]?;
    state.add(Clause::new(rt.alloc(), lits)?)?;
    propagate(&rt, &mut state, None);
    assert_true(&rt, &state, &[1, 2]);
    assert_from(&rt, &state, 2, 1, Some(0));
    Ok(())
}

// Adds short literals as numbers, each behind a space.
fn push_short(alloc: Global, whole: &mut String, lits: &[ShortLit]) -> Result<(), AllocError> {
    for lit in lits {
        push_clause(alloc, whole, &[lit.lit()])?;
    }
    Ok(())
}

// Two clauses that were added.
fn side_by_side(alloc: Global) -> Result<String, Fail> {
    let mut state = State::new(alloc, &[], 3)?;
    state.add(clause_of(alloc, "2 -1")?)?;
    state.add(clause_of(alloc, "3")?)?;
    let mut whole = String::new(alloc);
    push_short(alloc, &mut whole, state.literals(0))?;
    push_short(alloc, &mut whole, state.literals(1))?;
    Ok(whole)
}

#[test]
fn literals_are_read_side_by_side(rt: HostRuntime) -> Result<(), Fail> {
    let said = side_by_side(rt.alloc())?;
    assert_eq!(rt; said.as_str(), " -1 2 3");
    Ok(())
}

const WIDE: u64 = 1000;

// A state of one clause, over these numbers.
fn wide(rt: &impl Abort, alloc: Global, numbers: &[i64]) -> Result<State, Fail>
    ensures vars { IfOk result (λ state. WIDE ≤ state.vars) }
    ensures clauses { IfOk result (λ state. 0 < length state.clauses) }
{
    let mut state = State::new(alloc, &[], WIDE)?;
    add(rt, alloc, &mut state, numbers)?;
    Ok(state)
}

// Decides that these literals are false, each behind a propagation.
fn decide_against(rt: &impl Abort, state: &mut State, numbers: &[i64])
    requires vars { WIDE ≤ state.old.vars }
    requires clauses { 0 < length state.old.clauses }
    ensures { 0 < length state.new.clauses }
{
    for number in numbers {
        let lit = literal(rt, *number).negated();
        assert!(rt; lit.var() <= WIDE);
        decide(rt, state, lit);
    }
}

// Whether a literal is one of the two that are watched in the first clause.
fn is_watched(state: &State, lit: Lit) -> bool
    requires { 0 < length state.now.clauses }
{
    match state.watched(0) {
        Some((one, other)) => one == lit || other == lit,
        None => false,
    }
}

// Asserts that the last of the literals of a clause is forced and watched where all others are decided to be false, from the first on.
fn assert_last_is_forced(rt: &impl Abort, alloc: Global, numbers: &[i64]) -> Result<(), Fail> {
    let mut state = wide(rt, alloc, numbers)?;
    if let Some((last, others)) = numbers.split_last() {
        decide_against(rt, &mut state, others);
        propagate(rt, &mut state, None);
        let lit = literal(rt, *last);
        assert!(rt; state.value(lit.var()) == Some(lit.positive()));
        assert_from(rt, &state, lit.var(), WIDE - 1, Some(0));
        assert!(rt; is_watched(&state, lit));
    }
    Ok(())
}

#[test]
fn the_last_literal_of_a_thousand_is_forced_and_watched(rt: HostRuntime) -> Result<(), Fail> {
    let mut numbers = Vec::new(rt.alloc());
    for number in 1..1001 {
        numbers.push(number)?;
    }
    assert_last_is_forced(&rt, rt.alloc(), &numbers)?;
    numbers.reverse();
    assert_last_is_forced(&rt, rt.alloc(), &numbers)
}
