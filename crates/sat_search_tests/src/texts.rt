//! Texts of formulas and logs, worked out by hand.
//!
//! A row has a text, with `@` for the end of a line, and what is said of it, behind a `#`.

use crate::numbers::{clause_of, push_clause, text_of};
use cnf_core::{CellNote, Formula, Lit, Log};
use sat_proof::Line;
use sat_text::{CnfError, LogError, read_cnf, read_log, write_cnf, write_log};
use std::alloc::{AllocError, Global};
use std::test::Fail;

fn note(alloc: Global, value: i64, positive: bool) -> Result<CellNote, Fail> {
    Ok(CellNote {
        cell: Vec::from_slice(alloc, "x".as_bytes())?,
        value,
        lit: Lit::new(1, positive),
    })
}

/// Bytes as a text.
fn said(alloc: Global, text: &[u8]) -> Result<String, AllocError> {
    String::from_str(alloc, str::from_utf8(text).unwrap_or("(no text)"))
}

/// What is written of the formula that a text has, or the line of its fault.
fn reread(alloc: Global, text: &[u8]) -> Result<String, Fail> {
    match read_cnf(alloc, text) {
        Ok(file) => {
            let again = write_cnf(alloc, &file.formula, &file.notes, file.added)?;
            Ok(said(alloc, &again)?)
        }
        Err(CnfError::Bad(line)) => Ok(format!(in alloc; "{line}")?),
        Err(_) => Ok(String::from_str(alloc, "refused")?),
    }
}

/// Adds a clause to a formula that has its variables.
pub(crate) fn add(alloc: Global, f: &mut Formula, text: &str) -> Result<(), Fail> {
    let next = clause_of(alloc, text)?;
    if next.greatest_variable() <= f.vars() {
        f.add(next)?;
    }
    Ok(())
}

/// A formula of two clauses, as it is written.
fn written(alloc: Global) -> Result<Vec<u8>, Fail> {
    let mut f = Formula::with_vars(alloc, 2);
    add(alloc, &mut f, "1 2")?;
    add(alloc, &mut f, "-1")?;
    let notes = Vec::from_array(alloc, [note(alloc, 0, false)?, note(alloc, 1, true)?])?;
    Ok(write_cnf(alloc, &f, &notes, 1)?)
}

/// A log of two givens and a step.
fn log_of(alloc: Global) -> Result<Log, Fail> {
    let mut log = Log::new(alloc);
    log.given(clause_of(alloc, "1 2")?)?;
    log.given(clause_of(alloc, "1 -2")?)?;
    if 2 <= log.events().len() {
        log.step(clause_of(alloc, "1")?, [0, 1].to_vec(alloc)?)?;
    }
    Ok(log)
}

/// Adds hints, each behind a space.
fn push_hints(alloc: Global, whole: &mut String, hints: &[i64]) -> Result<(), AllocError> {
    for hint in hints {
        let word = format!(in alloc; " {hint}")?;
        whole.push_str(word.as_str())?;
    }
    Ok(())
}

/// Adds ids, each behind a space.
fn push_ids(alloc: Global, whole: &mut String, ids: &[u64]) -> Result<(), AllocError> {
    for id in ids {
        let word = format!(in alloc; " {id}")?;
        whole.push_str(word.as_str())?;
    }
    Ok(())
}

/// Adds a line: the id, literals and hints of an addition, or the ids of a deletion.
pub(crate) fn push_line(alloc: Global, whole: &mut String, line: Line) -> Result<(), AllocError> {
    match line {
        Line::Add { id, clause, hints } => {
            let word = format!(in alloc; "{id}:")?;
            whole.push_str(word.as_str())?;
            push_clause(alloc, whole, clause)?;
            whole.push(';')?;
            push_hints(alloc, whole, hints)?;
        }
        Line::Delete { ids } => {
            whole.push('d')?;
            push_ids(alloc, whole, ids)?;
        }
    }
    whole.push('.')
}

/// The lines of a log's text, or the line of its fault.
fn lines_of(alloc: Global, text: &[u8]) -> Result<String, Fail> {
    let mut whole = String::new(alloc);
    match read_log(alloc, text) {
        Ok(proof) => {
            for row in proof.rows() {
                push_line(alloc, &mut whole, proof.line(row))?;
            }
            Ok(whole)
        }
        Err(LogError::Bad(line)) => Ok(format!(in alloc; "{line}")?),
        Err(_) => Ok(String::from_str(alloc, "refused")?),
    }
}

/// The first row of a table of whose text something else is said, with that. The text is a formula's, or else a log's.
fn first_wrong(alloc: Global, is_formula: bool, table: &str) -> Result<String, Fail> {
    for row in table.lines() {
        let (text, want) = row.split_once('#').unwrap_or((row, ""));
        let text = text_of(alloc, text)?;
        let want = text_of(alloc, want)?;
        let found = if is_formula {
            reread(alloc, text.as_bytes())?
        } else {
            lines_of(alloc, text.as_bytes())?
        };
        if found.as_str() != want.as_str() {
            return Ok(format!(in alloc; "{row} BUT {found}")?);
        }
    }
    Ok(String::new(alloc))
}

/// Texts of formulas with a fault, and its line; and texts with what is written of their formulas.
const FORMULAS: &str = "\
#1
@@#2
p cnf 2 5@1 2 0@1 -2 0@-1 2 0@-1 -2 0#5
p cnf 2 5@1 2 0@1 -2 0@-1 2 0@-1 -2 0@#5
p cnf 2 1@1 2 0@1 0@#3
p cnf 2 1@1 3 0@#2
p cnf 2 1@1@x 0@#3
p cnf 2 1@1 2@#2
p cnf 2@c note@1 2 0@#3
p cnf 2@#1
p cnf 2 1 1@1 0@#1
c x@p dnf 2 1@1 0@#2
p cnf 2 1234567890123456789@#1
p cnf -1 1@#1
p cnf 2 1@1234567890123456789 0@#2
p cnf 1 1@@@2 0@@#4
p cnf 0 0#c added 0@p cnf 0 0@
p cnf 999999999999999999 0@#c added 0@p cnf 999999999999999999 0@
p cnf 1 1@0#c added 0@p cnf 1 1@0@
c p cnf\r@ \t p  cnf 02 2 \r@-2@01 1 -0@@2 00#c added 0@p cnf 2 2@1 -2 0@2 0@
c added 7@p cnf 1 1@c cell q[1,-2] 3 01@1@c cell of 1 1@c cell y 1  1@0@c added 1@#c cell q[1,-2] 3 1@c added 1@p cnf 1 1@1 0@";

/// Texts of logs with a fault, and its line; and a text with its lines.
const LOGS: &str = "\
5 1 0 1 2 0@6 x#2
5 1 0 1 2#1
c note@@5 1 0 1 2 0 0@#3
0 1 0 1 0@#1
-5 1 0 1 0@#1
5@#1
5 d 1 2@#1
5 d 1 -2 0@#1
5 0 0@6 1 0 0@d#3
c note@@ 5 2 -1 1 1 00 -3 4 -0\r@6\td 5 05 0@7 0 0#5: 1 -1 2; -3 4.d 5 5.7:;.";

#[test]
fn texts_are_read_or_refused_at_their_line(rt: HostRuntime) -> Result<(), Fail> {
    for (is_formula, table) in [(true, FORMULAS), (false, LOGS)] {
        let wrong = first_wrong(rt.alloc(), is_formula, table)?;
        assert_eq!(rt; wrong.as_str(), "");
    }
    Ok(())
}

#[test]
fn what_is_written_is_read_again(rt: HostRuntime) -> Result<(), Fail> {
    let alloc = rt.alloc();
    let wanted = "c cell x 0 -1\nc cell x 1 1\nc added 1\np cnf 2 2\n1 2 0\n-1 0\n";
    let text = written(alloc)?;
    assert_eq!(rt; text.as_slice(), wanted.as_bytes());
    let again = reread(alloc, &text)?;
    assert_eq!(rt; again.as_str(), wanted);
    let text = write_log(alloc, &log_of(alloc)?)?;
    assert_eq!(rt; text.as_slice(), "3 1 0 1 2 0\n".as_bytes());
    let lines = lines_of(alloc, &text)?;
    assert_eq!(rt; lines.as_str(), "3: 1; 1 2.");
    Ok(())
}
