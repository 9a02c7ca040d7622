//! Each call once, and the types between threads. What calls give is told as a text.

use crate::numbers::{clause_of, push_clause};
use crate::texts::{add, push_line};
use cnf_core::{
    CellNote, Clause, ClauseList, Condition, EventList, Formula, Lit, Log,
    an_effective_step_needs_its_last_literal, keeping_composes, new_steps_are_few,
    no_step_is_effective_after_a_conflict, valid_steps_follow,
};
use sat_proof::{Line, Proof, put_in_order};
use std::alloc::Global;
use std::process::Abort;
use std::test::Fail;

/// Whether each literal is the contrary of its contrary.
fn are_negated_twice(lits: &[Lit]) -> bool {
    for lit in lits {
        if lit.negated().negated() != *lit {
            return false;
        }
    }
    true
}

/// The greatest variable of a clause, and its literals. A copy has the same.
fn clause_said(alloc: Global, numbers: &str) -> Result<String, Fail> {
    let made = clause_of(alloc, numbers)?;
    let copy = made.clone()?;
    if copy.lits() != made.lits() || !are_negated_twice(made.lits()) {
        return Err(Fail::new("another copy, or another literal"));
    }
    let mut whole = format!(in alloc; "{}:", made.greatest_variable())?;
    push_clause(alloc, &mut whole, made.lits())?;
    Ok(whole)
}

/// Two variables that come into a formula, and how many variables and clauses it has then; and the same of one that begins with variables.
fn formula_said(alloc: Global) -> Result<String, Fail> {
    let mut formula = Formula::new(alloc);
    let first = formula.fresh()?;
    let second = formula.fresh()?;
    for numbers in ["1 2", "1 -2", "-1 -1"] {
        add(alloc, &mut formula, numbers)?;
    }
    let read = Formula::with_vars(alloc, 7);
    Ok(format!(in alloc;
        "{first} {second}, {} {}, {} {}",
        formula.vars(),
        formula.clauses().len(),
        read.vars(),
        read.clauses().len()
    )?)
}

/// Adds givens to a log.
fn give(alloc: Global, log: &mut Log, clauses: &str) -> Result<(), Fail> {
    for numbers in clauses.split('/') {
        log.given(clause_of(alloc, numbers)?)?;
    }
    Ok(())
}

/// A note of a cell.
fn note(alloc: Global) -> Result<CellNote, Fail> {
    Ok(CellNote {
        cell: Vec::from_slice(alloc, "x".as_bytes())?,
        value: -1,
        lit: Lit::new(1, false),
    })
}

/// How many events, steps and notes a log has, and its base.
fn counts(alloc: Global, log: &Log) -> Result<String, Fail> {
    let (events, steps) = (log.events().len(), log.steps());
    Ok(format!(in alloc; "{events} {steps} {} {}", log.notes().len(), log.base())?)
}

/// How many literals and hints the last event has, where it is a step.
fn last_step(log: &Log) -> Option<(usize, usize)> {
    let events = log.events();
    let Some(last) = events.len().checked_sub(1) else {
        return None;
    };
    match events.hints(last) {
        Some(hints) => Some((events.clause(last).len(), hints.len())),
        None => None,
    }
}

/// A log with a note on its first given, and three more givens.
fn noted(alloc: Global) -> Result<Log, Fail> {
    let mut log = Log::new(alloc);
    log.given(clause_of(alloc, "1 2")?)?;
    log.mark(vec![in alloc; note(alloc)?]?, 1);
    give(alloc, &mut log, "1 -2/-1 2/-1 -2")?;
    Ok(log)
}

/// Adds two steps to a log of four events.
fn take_steps(rt: &impl Abort, alloc: Global, log: &mut Log) -> Result<(), Fail> {
    assert!(rt; log.events().len() == 4);
    log.step(clause_of(alloc, "1")?, vec![in alloc; 0, 1]?)?;
    log.step(clause_of(alloc, "")?, vec![in alloc; 4, 2, 3]?)?;
    Ok(())
}

/// What is counted of a log before and behind two steps.
fn log_said(rt: &impl Abort, alloc: Global) -> Result<String, Fail> {
    let mut log = noted(alloc)?;
    let before = counts(alloc, &log)?;
    take_steps(rt, alloc, &mut log)?;
    let behind = counts(alloc, &log)?;
    assert!(rt; Log::new(alloc).is_empty() && !log.is_empty());
    assert!(rt; last_step(&log) == Some((0, 3)));
    Ok(format!(in alloc; "{before}, {behind}")?)
}

/// What is counted of a log into which the clauses of a formula are moved, and its clauses.
fn moved_said(alloc: Global) -> Result<String, Fail> {
    let mut formula = Formula::with_vars(alloc, 2);
    add(alloc, &mut formula, "1 -2")?;
    let log = Log::of_givens(alloc, formula.into_clauses())?;
    let mut whole = counts(alloc, &log)?;
    let events = log.events();
    for place in 0..events.len() {
        push_clause(alloc, &mut whole, events.clause(place))?;
    }
    Ok(whole)
}

/// The lines of a proof.
fn proof_said(alloc: Global) -> Result<String, Fail> {
    let mut proof = Proof::new(alloc);
    proof.add(5, clause_of(alloc, "1")?.lits(), &[1, 2])?;
    proof.delete(&[1, 2])?;
    proof.add(7, clause_of(alloc, "")?.lits(), &[5])?;
    let mut whole = String::new(alloc);
    for row in proof.rows() {
        push_line(alloc, &mut whole, proof.line(row))?;
    }
    Ok(whole)
}

/// The clauses of a list, one of them from literals that are in order.
fn list_said(alloc: Global) -> Result<String, Fail> {
    let first = Clause::from_ordered(alloc, clause_of(alloc, "1 -2")?.lits())?;
    let mut list = ClauseList::new(alloc);
    list.push(first.lits())?;
    list.push(clause_of(alloc, "")?.lits())?;
    list.push(clause_of(alloc, "2 -1 2")?.lits())?;
    let mut whole = String::new(alloc);
    for place in 0..list.len() {
        push_clause(alloc, &mut whole, list.clause(place))?;
        whole.push(';')?;
    }
    Ok(whole)
}

/// Literals that are put in order.
fn ordered_said(alloc: Global) -> Result<String, Fail> {
    let mut found = vec![in alloc; Lit::new(2, true), Lit::new(1, false), Lit::new(2, true)]?;
    put_in_order(&mut found);
    let mut whole = String::new(alloc);
    push_clause(alloc, &mut whole, &found)?;
    Ok(whole)
}

/// Whether two texts are the same.
fn same(rt: &impl Abort, said: String, wanted: &str) {
    assert_eq!(rt; said.as_str(), wanted);
}

#[test]
fn each_call_gives_what_it_says(rt: HostRuntime) -> Result<(), Fail> {
    let alloc = rt.alloc();
    same(
        &rt,
        clause_said(alloc, "3 -1 2 3 1 -1 -2")?,
        "3: 1 -1 2 -2 3",
    );
    same(&rt, clause_said(alloc, "")?, "0:");
    same(&rt, formula_said(alloc)?, "1 2, 2 3, 7 0");
    same(&rt, log_said(&rt, alloc)?, "4 0 1 1, 6 1 1 1");
    same(&rt, moved_said(alloc)?, "1 0 0 0 1 -2");
    same(&rt, proof_said(alloc)?, "5: 1; 1 2.d 1 2.7:; 5.");
    same(&rt, list_said(alloc)?, " 1 -2;; -1 2;");
    same(&rt, ordered_said(alloc)?, " -1 2");
    Ok(())
}

/// Holds of no assignment, or of each.
struct Never;

impl Condition for Never {
    ghost use Rattle.std.specs.Prelude.{ℕ, Bool};

    ghost holds = { λ s. ⊥ };
}

struct Always;

impl Condition for Always {
    ghost use Rattle.std.specs.Prelude.{ℕ, Bool};

    ghost holds = { λ s. Unit {0} };
}

fn is_send_and_sync<T: Send + Sync>() {}

/// Every type goes between threads.
#[test]
fn the_laws_can_be_called() {
    is_send_and_sync::<Lit>();
    is_send_and_sync::<Clause>();
    is_send_and_sync::<ClauseList>();
    is_send_and_sync::<Formula>();
    is_send_and_sync::<CellNote>();
    is_send_and_sync::<EventList>();
    is_send_and_sync::<Log>();
    is_send_and_sync::<Line>();
    is_send_and_sync::<Proof>();
    valid_steps_follow();
    new_steps_are_few();
    no_step_is_effective_after_a_conflict();
    an_effective_step_needs_its_last_literal();
    keeping_composes::<Never, Always>();
}
