//! What a text says, as one line.

use ep_base::{Limit, Memory};
use opb_text::{Opb, OpbError, OpbRow, OpbSizeError, OpbTerm, measure_opb, read_opb};
use std::alloc::{AllocError, Global};

/// Adds terms, as ` 2~x7`.
fn tell_terms(told: &mut String, alloc: Global, terms: &[OpbTerm]) -> Result<(), AllocError> {
    for term in terms {
        let sign = if term.negated { "~" } else { "" };
        let factor = term.factor;
        let var = term.var;
        let one = format!(in alloc; " {factor}{sign}x{var}")?;
        told.push_str(&one)?;
    }
    Ok(())
}

/// Adds a constraint, as ` 2~x7 >= 2;`.
fn tell_row(told: &mut String, alloc: Global, row: &OpbRow) -> Result<(), AllocError> {
    tell_terms(told, alloc, &row.terms)?;
    let sign = if row.equal { "=" } else { ">=" };
    let right = row.right;
    let end = format!(in alloc; " {sign} {right};")?;
    told.push_str(&end)
}

/// A problem.
fn problem(alloc: Global, opb: &Opb) -> Result<String, AllocError> {
    let mut told = String::from_str(alloc, "says")?;
    if let Some(terms) = &opb.objective {
        told.push_str(" min:")?;
        tell_terms(&mut told, alloc, terms)?;
        told.push_str(";")?;
    }
    for row in &opb.rows {
        tell_row(&mut told, alloc, row)?;
    }
    Ok(told)
}

/// What a text says, or why it is refused.
pub(crate) fn reading(alloc: Global, text: &str) -> Result<String, AllocError> {
    match read_opb(alloc, text.as_bytes()) {
        Ok(opb) => problem(alloc, &opb),
        Err(OpbError::TooLong) => String::from_str(alloc, "too long"),
        Err(OpbError::Bad(line)) => format!(in alloc; "fault {line}"),
        Err(OpbError::Memory) => String::from_str(alloc, "memory"),
    }
}

/// The weight of a text's problem, or the limit that it is over.
pub(crate) fn weight(alloc: Global, text: &str) -> Result<String, AllocError> {
    let Ok(opb) = read_opb(alloc, text.as_bytes()) else {
        return String::from_str(alloc, "fault");
    };
    match measure_opb(alloc, &opb) {
        Ok(weight) => format!(in alloc; "{weight}"),
        Err(OpbSizeError::Limit(Limit::Reach)) => String::from_str(alloc, "L5"),
        Err(OpbSizeError::Limit(Limit::Weight)) => String::from_str(alloc, "L6"),
        Err(_) => String::from_str(alloc, "memory"),
    }
}
