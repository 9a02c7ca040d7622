//! Formulas and proofs of rows.

use cnf_core::{Clause, Formula, Lit, MOST_VARIABLE};
use ep_base::Memory;
use sat_proof::Proof;
use std::alloc::Global;
use std::test::Fail;

/// The numbers of a text, with a space between any two.
fn numbers_of(alloc: Global, text: &str) -> Result<Vec<i64>, Fail> {
    let mut numbers = Vec::new(alloc);
    for word in text.split(' ') {
        if !word.is_empty() {
            numbers.push(word.parse::<i64>()?)?;
        }
    }
    Ok(numbers)
}

/// A clause from numbers, negative ones for negative literals.
fn clause(alloc: Global, numbers: &[i64]) -> Result<Clause, Memory> {
    let mut lits = Vec::new(alloc);
    for number in numbers {
        let var = number.unsigned_abs();
        if 1 <= var && var <= MOST_VARIABLE {
            lits.push(Lit::new(var, *number > 0))?;
        }
    }
    Clause::new(alloc, lits)
}

/// The clause of a text.
fn clause_of(alloc: Global, text: &str) -> Result<Clause, Fail> {
    let numbers = numbers_of(alloc, text)?;
    Ok(clause(alloc, &numbers)?)
}

/// A formula of clauses with `/` between any two. `none` has no clause.
pub(crate) fn formula(alloc: Global, text: &str) -> Result<Formula, Fail> {
    let mut made = Formula::with_vars(alloc, MOST_VARIABLE);
    if text == "none" {
        return Ok(made);
    }
    for part in text.split('/') {
        let next = clause_of(alloc, part)?;
        if next.greatest_variable() <= made.vars() {
            made.add(next)?;
        }
    }
    Ok(made)
}
/// Adds a line that adds a clause, with its id in front and its hints behind it, each behind a `:`.
fn add(alloc: Global, proof: &mut Proof, id: &str, rest: &str) -> Result<(), Fail> {
    let (literals, hints) = rest.split_once(':').unwrap_or((rest, ""));
    let clause = clause_of(alloc, literals)?;
    let hints = numbers_of(alloc, hints)?;
    Ok(proof.add(id.parse::<u64>()?, clause.lits(), hints.as_slice())?)
}

/// Adds a line that takes out the clauses of these ids.
fn delete(alloc: Global, proof: &mut Proof, text: &str) -> Result<(), Fail> {
    let mut ids = Vec::new(alloc);
    for number in &numbers_of(alloc, text)? {
        ids.push(number.unsigned_abs())?;
    }
    Ok(proof.delete(ids.as_slice())?)
}

/// The lines of a proof, with `/` between any two.
pub(crate) fn proof(alloc: Global, text: &str) -> Result<Proof, Fail> {
    let mut made = Proof::new(alloc);
    if text.is_empty() {
        return Ok(made);
    }
    for line in text.split('/') {
        match line.split_once(':') {
            Some((id, rest)) => add(alloc, &mut made, id, rest)?,
            None => delete(alloc, &mut made, line)?,
        }
    }
    Ok(made)
}
