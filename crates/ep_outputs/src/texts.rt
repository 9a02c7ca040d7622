//! The text of what was given to the solver.

ghost use Rattle.std.specs.Prelude.{◌≡◌, ◌<◌, ◌≤◌, ◌^◌, ℕ, All, IfOk, length, map};
ghost use Rattle.cnf_core.specs.Events.{givens};
ghost use Rattle.cnf_core.specs.Literal.{VariablesUpTo};
ghost use Rattle.cnf_core.specs.declared.lit.TheConstants.{MOST_VARIABLE};
ghost use Rattle.ep_solve.specs.Logged.{added_clauses};
ghost use Rattle.sat_text.specs.Writing.{IsReadableNote};
ghost use Rattle.ep_outputs.specs.Outputs.{AreNotedUpTo, IsFormulaText};

use cnf_core::{CellNote, Clause, EventList, Formula, Log};
use ep_base::Memory;
use sat_text::write_cnf;
use std::alloc::Global;

/// The text of a log's formula, with the notes of the cells and the number of givens that were added.
pub fn formula_text(alloc: Global, log: &Log) -> Result<Vec<u8>, Memory>
    requires readable { All IsReadableNote log.now.notes }
    ensures { IfOk result (λ text. IsFormulaText log.now text.items) }
{
    let clauses = given_clauses(alloc, log.events())?;
    let vars = fewest_variables(&clauses, log.notes());
    let formula = formula_of(alloc, &clauses, vars)?;
    let _names = formula.clauses();
    let added = added_number(log, &clauses);
    if added > MOST_ADDED {
        return Err(Memory);
    }
    write_cnf(alloc, &formula, log.notes(), added)
}

/// The most that a line can say. No memory holds so many clauses.
const MOST_ADDED: u64 = 999_999_999_999_999_999;

/// How many of a log's givens were added to those that stand for the instance.
fn added_number(log: &Log, clauses: &[Clause]) -> u64
    requires { clauses.now ≡ givens log.now.events }
    ensures { result ≡ length (added_clauses log.now) }
{
    clauses.len() as u64 - log.base()
}

/// The clauses that were given.
fn given_clauses(alloc: Global, events: &EventList) -> Result<Vec<Clause>, Memory>
    ensures { IfOk result (λ clauses. clauses.items ≡ givens events.now) }
{
    let mut clauses = Vec::new(alloc);
    for place in 0..events.len() {
        match events.hints(place) {
            Some(_) => continue,
            None => clauses.push(Clause::from_ordered(alloc, events.clause(place))?)?,
        }
    }
    Ok(clauses)
}

/// The fewest variables that cover clauses and notes.
fn fewest_variables(clauses: &[Clause], notes: &[CellNote]) -> u64
    ensures clauses { All (VariablesUpTo result) clauses.now }
    ensures noted { AreNotedUpTo result notes.now }
    ensures least { (most : ℕ) → All (VariablesUpTo most) clauses.now → AreNotedUpTo most notes.now → result ≤ most }
    ensures in_range { result ≤ MOST_VARIABLE }
{
    greater(greatest_variable(clauses), greatest_noted(notes))
}

/// The greatest variable of clauses, or 0 where they have no literal.
fn greatest_variable(clauses: &[Clause]) -> u64
    ensures none_above { All (VariablesUpTo result) clauses.now }
    ensures least { (most : ℕ) → All (VariablesUpTo most) clauses.now → result ≤ most }
    ensures in_range { result ≤ MOST_VARIABLE }
{
    let mut most = 0;
    for clause in clauses {
        let _lits = clause.lits();
        most = greater(most, clause.greatest_variable());
    }
    most
}

/// The greatest variable of notes, or 0 where there is none.
fn greatest_noted(notes: &[CellNote]) -> u64
    ensures none_above { AreNotedUpTo result notes.now }
    ensures least { (most : ℕ) → AreNotedUpTo most notes.now → result ≤ most }
    ensures in_range { result ≤ MOST_VARIABLE }
{
    let mut most = 0;
    for note in notes {
        most = greater(most, note.lit.var());
    }
    most
}

/// The greater one of two numbers.
fn greater(one: u64, other: u64) -> u64
    ensures first { one ≤ result }
    ensures second { other ≤ result }
    ensures least { (most : ℕ) → one ≤ most → other ≤ most → result ≤ most }
{
    if one < other { other } else { one }
}

/// The formula of clauses over so many variables.
fn formula_of(alloc: Global, clauses: &[Clause], vars: u64) -> Result<Formula, Memory>
    requires names { All (VariablesUpTo vars) clauses.now }
    requires in_range { vars ≤ MOST_VARIABLE }
    ensures clauses { IfOk result (λ f. f.clauses ≡ clauses.now) }
    ensures vars { IfOk result (λ f. f.vars ≡ vars) }
{
    let mut formula = Formula::with_vars(alloc, vars);
    for clause in clauses {
        formula.add(clause.copied()?)?;
    }
    Ok(formula)
}
