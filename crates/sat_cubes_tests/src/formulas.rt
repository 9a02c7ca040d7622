//! Formulas of rows, and what is said of them.

use cnf_core::{Clause, Formula, Lit, MOST_VARIABLE};
use ep_base::Memory;
use std::alloc::Global;
use std::test::Fail;

/// A clause from numbers, negative ones for negative literals.
fn clause(alloc: Global, numbers: &[i64]) -> Result<Clause, Memory> {
    let mut lits = Vec::new(alloc);
    for number in numbers {
        let var = number.unsigned_abs();
        if 1 <= var && var <= MOST_VARIABLE {
            lits.push(Lit::new(var, *number > 0))?;
        }
    }
    Clause::new(alloc, lits)
}

/// The formula of these clauses, over so many variables.
pub(crate) fn formula_of(alloc: Global, vars: u64, clauses: &[Vec<i64>]) -> Result<Formula, Fail> {
    let mut made = Formula::with_vars(alloc, vars.min(MOST_VARIABLE));
    for numbers in clauses {
        let next = clause(alloc, numbers)?;
        if next.greatest_variable() <= made.vars() {
            made.add(next)?;
        }
    }
    Ok(made)
}

/// The numbers of a text, with a space between any two.
fn numbers_of(alloc: Global, text: &str) -> Result<Vec<i64>, Fail> {
    let mut numbers = Vec::new(alloc);
    for word in text.split(' ') {
        if !word.is_empty() {
            numbers.push(word.parse::<i64>()?)?;
        }
    }
    Ok(numbers)
}

/// Lists of numbers, with `/` between any two. `none` is no list.
pub(crate) fn lists_of(alloc: Global, text: &str) -> Result<Vec<Vec<i64>>, Fail> {
    let mut lists = Vec::new(alloc);
    if text == "none" {
        return Ok(lists);
    }
    for part in text.split('/') {
        lists.push(numbers_of(alloc, part)?)?;
    }
    Ok(lists)
}
