//! Clauses and texts of rows.

use cnf_core::{Clause, Lit, MOST_VARIABLE};
use ep_base::Memory;
use std::alloc::{AllocError, Global};
use std::test::Fail;

/// The numbers of a text, with a space between any two.
pub(crate) fn numbers_of(alloc: Global, text: &str) -> Result<Vec<i64>, Fail> {
    let mut numbers = Vec::new(alloc);
    for word in text.split(' ') {
        if !word.is_empty() {
            numbers.push(word.parse::<i64>()?)?;
        }
    }
    Ok(numbers)
}

/// Lists of numbers, with `/` between any two. `none` is no list.
pub(crate) fn lists_of(alloc: Global, text: &str) -> Result<Vec<Vec<i64>>, Fail> {
    let mut lists = Vec::new(alloc);
    if text == "none" {
        return Ok(lists);
    }
    for part in text.split('/') {
        lists.push(numbers_of(alloc, part)?)?;
    }
    Ok(lists)
}

/// A clause from numbers, negative ones for negative literals.
pub(crate) fn clause(alloc: Global, numbers: &[i64]) -> Result<Clause, Memory> {
    let mut lits = Vec::new(alloc);
    for number in numbers {
        let var = number.unsigned_abs();
        if 1 <= var && var <= MOST_VARIABLE {
            lits.push(Lit::new(var, *number > 0))?;
        }
    }
    Clause::new(alloc, lits)
}

/// The clause of a text.
pub(crate) fn clause_of(alloc: Global, text: &str) -> Result<Clause, Fail> {
    let numbers = numbers_of(alloc, text)?;
    Ok(clause(alloc, &numbers)?)
}

/// A text of a row, in which `@` ends a line.
pub(crate) fn text_of(alloc: Global, row: &str) -> Result<String, AllocError> {
    let mut text = String::new(alloc);
    for letter in row.chars() {
        text.push(if letter == '@' { '\n' } else { letter })?;
    }
    Ok(text)
}

/// Adds the literals of a clause as numbers, each behind a space.
pub(crate) fn push_clause(
    alloc: Global,
    whole: &mut String,
    clause: &[Lit],
) -> Result<(), AllocError> {
    for lit in clause {
        let sign = if lit.positive() { "" } else { "-" };
        let word = format!(in alloc; " {sign}{}", lit.var())?;
        whole.push_str(word.as_str())?;
    }
    Ok(())
}
