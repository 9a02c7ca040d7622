//! The program over files in memory: what it answers, and that its logs are accepted once they are written and read again.

use crate::answer::answer;
use cnf_core::{Clause, Formula, Lit, MOST_VARIABLE};
use ep_base::{MemFiles, Word};
use log_check::{Verdict, check_log};
use sat_problems::{drawn, hinted_square, pigeons, square_of_hints};
use sat_text::{read_cnf, read_log, write_cnf};
use std::alloc::{AllocError, Global};
use std::test::Fail;

// The words of a text, with a `,` between any two. `none` is no word.
fn words_of(alloc: Global, text: &str) -> Result<Vec<Word>, Fail> {
    let mut words = Vec::new(alloc);
    if text == "none" {
        return Ok(words);
    }
    for word in text.split(',') {
        words.push(Word::new(alloc, word)?)?;
    }
    Ok(words)
}

// Files with a formula. The call of them with this number fails, if any has it.
fn files_of(alloc: Global, cnf: &[u8], fail: u64) -> Result<MemFiles, Fail> {
    let fails = Vec::from_slice(alloc, &[fail])?;
    let mut files = MemFiles::new(alloc, fails);
    files.hold("a.cnf", cnf)?;
    Ok(files)
}

// What is answered to words over a formula: the status and the text, or why there is none.
fn said_over(alloc: Global, files: &mut MemFiles, words: &str) -> Result<String, Fail> {
    let words = words_of(alloc, words)?;
    match answer(alloc, &words, files) {
        Ok(reply) => Ok(format!(in alloc; "{} {}", reply.status, reply.text.as_str())?),
        Err(refused) => Ok(format!(in alloc; "{refused}")?),
    }
}

// The same over a formula alone.
fn said_of(alloc: Global, cnf: &[u8], words: &str) -> Result<String, Fail> {
    let mut files = files_of(alloc, cnf, 0)?;
    said_over(alloc, &mut files, words)
}

// The clause of these numbers, negative ones for negative literals.
fn clause(alloc: Global, numbers: &[i64]) -> Result<Clause, Fail> {
    let mut lits = Vec::new(alloc);
    for number in numbers {
        let var = number.unsigned_abs().clamp(1, MOST_VARIABLE);
        lits.push(Lit::new(var, *number > 0))?;
    }
    Ok(Clause::new(alloc, lits)?)
}

// The text of a formula. Its header has the greatest number of variables.
fn cnf_text(alloc: Global, clauses: &[Vec<i64>]) -> Result<Vec<u8>, Fail> {
    let mut formula = Formula::with_vars(alloc, MOST_VARIABLE);
    for numbers in clauses {
        let next = clause(alloc, numbers)?;
        if next.greatest_variable() <= formula.vars() {
            formula.add(next)?;
        }
    }
    Ok(write_cnf(alloc, &formula, &[], 0)?)
}

// Whether the check accepts the text of a log, and how many of its lines aren't the empty step. None where a step is bad.
fn steps_of(alloc: Global, cnf: &[u8], log: &[u8]) -> Result<Option<(bool, usize)>, Fail> {
    let file = read_cnf(alloc, cnf)?;
    let proof = read_log(alloc, log)?;
    match check_log(alloc, &file.formula, &proof)? {
        Verdict::Verified => Ok(Some((true, proof.rows().len().saturating_sub(1)))),
        Verdict::NoEmptyClause => Ok(Some((false, proof.rows().len()))),
        Verdict::BadStep(_) => Ok(None),
    }
}

// How the program ends on a formula, whether the log that it writes is accepted, and how many of its lines aren't the empty step, as
// the text that is put out has to say.
fn logged(alloc: Global, cnf: &[u8], conflicts: &str) -> Result<String, Fail> {
    let mut files = files_of(alloc, cnf, 0)?;
    let words = format!(in alloc; "a.cnf,{conflicts},a.lrat")?;
    let said = said_over(alloc, &mut files, words.as_str())?;
    let log = files.get("a.lrat").ok_or("the log is written")?;
    let Some((is_verified, steps)) = steps_of(alloc, cnf, log)? else {
        return Ok(String::from_str(alloc, "a bad step")?);
    };
    let (status, text) = said.as_str().split_once(' ').unwrap_or(("", ""));
    let line = format!(in alloc; "c conflicts {steps}\n")?;
    if !text.starts_with(line.as_str()) {
        return Ok(String::from_str(alloc, "another number of conflicts")?);
    }
    let word = if is_verified { "verified" } else { "open" };
    Ok(format!(in alloc; "{status} {word} {steps}")?)
}

// Formulas, with `@` for a line's end, and how the program ends on them.
const SMALL: &str = "\
p cnf 2 4@1 2 0@1 -2 0@-1 2 0@-1 -2 0@#20 verified
p cnf 2 5@1 -1 0@1 2 0@1 -2 0@-1 2 0@-1 -2 0@#20 verified
p cnf 4 3@-1 2 0@-2 3 0@4 -4 0@#10 open
p cnf 0 0@#10 open
p cnf 0 1@0@#20 verified";

// A text in which `@` is a line's end.
fn text_of(alloc: Global, row: &str) -> Result<String, AllocError> {
    let mut text = String::new(alloc);
    for letter in row.chars() {
        text.push(if letter == '@' { '\n' } else { letter })?;
    }
    Ok(text)
}

#[test]
fn logs_of_small_problems_are_accepted(rt: HostRuntime) -> Result<(), Fail> {
    for row in SMALL.lines() {
        let (cnf, wanted) = row.split_once('#').unwrap_or((row, ""));
        let cnf = text_of(rt.alloc(), cnf)?;
        let said = logged(rt.alloc(), cnf.as_bytes(), "10")?;
        assert!(rt; said.starts_with(wanted), "{row}: {said}");
    }
    Ok(())
}

// How the program ends on clauses.
fn logged_of(alloc: Global, clauses: &[Vec<i64>], conflicts: &str) -> Result<String, Fail> {
    let cnf = cnf_text(alloc, clauses)?;
    logged(alloc, &cnf, conflicts)
}

// Whether a search over clauses ends so, after some steps.
fn searches(alloc: Global, clauses: &[Vec<i64>], wanted: &str) -> Result<bool, Fail> {
    let said = logged_of(alloc, clauses, "1000000")?;
    Ok(said.starts_with(wanted) && !said.ends_with(" 0"))
}

#[test]
fn logs_of_searches_are_accepted(rt: HostRuntime) -> Result<(), Fail> {
    let few = pigeons(rt.alloc(), 4, 3)?;
    assert!(rt; searches(rt.alloc(), &few, "20 verified ")?);
    let many = pigeons(rt.alloc(), 7, 6)?;
    assert!(rt; searches(rt.alloc(), &many, "20 verified ")?);
    let none = drawn(rt.alloc(), 6)?;
    assert!(rt; searches(rt.alloc(), &none, "20 verified ")?);
    let some = drawn(rt.alloc(), 13)?;
    assert!(rt; searches(rt.alloc(), &some, "10 open ")?);
    let square = hinted_square(rt.alloc())?;
    assert!(rt; searches(rt.alloc(), &square, "10 open ")?);
    Ok(())
}

#[test]
fn logs_of_searches_that_are_cut_off_are_accepted(rt: HostRuntime) -> Result<(), Fail> {
    let few = pigeons(rt.alloc(), 4, 3)?;
    let said = logged_of(rt.alloc(), &few, "1")?;
    assert_eq!(rt; said.as_str(), "0 open 1");
    let many = pigeons(rt.alloc(), 7, 6)?;
    let said = logged_of(rt.alloc(), &many, "100")?;
    assert_eq!(rt; said.as_str(), "0 open 100");
    Ok(())
}

// Whether the lines of values have all these numbers.
fn has_values(alloc: Global, text: &str, numbers: &[i64]) -> Result<bool, Fail> {
    for number in numbers {
        let within = format!(in alloc; " {number} ")?;
        let last = format!(in alloc; " {number}\n")?;
        if !text.contains(within.as_str()) && !text.contains(last.as_str()) {
            return Ok(false);
        }
    }
    Ok(true)
}

#[test]
fn a_model_has_the_values_of_the_only_solution(rt: HostRuntime) -> Result<(), Fail> {
    let clauses = hinted_square(rt.alloc())?;
    let cnf = cnf_text(rt.alloc(), &clauses)?;
    let said = said_of(rt.alloc(), &cnf, "a.cnf,1000")?;
    let wanted = square_of_hints(rt.alloc())?;
    assert!(rt; has_values(rt.alloc(), said.as_str(), &wanted)?);
    Ok(())
}

// Formulas, and what is said of them.
const ANSWERS: &str = "\
p cnf 0 0#10 c conflicts 0@s SATISFIABLE@v 0@
p cnf 999999999999999999 3@-2 0 1 -1 1 0 -1 0 #10 c conflicts 0@s SATISFIABLE@v -1 -2 0@
p cnf 3 2@1 0@-2 0@#10 c conflicts 0@s SATISFIABLE@v 1 -2 -3 0@
p cnf 1 2@1 0@-1 0@#20 c conflicts 0@s UNSATISFIABLE@";

#[test]
fn answers_are_put_out_as_in_competitions(rt: HostRuntime) -> Result<(), Fail> {
    for row in ANSWERS.lines() {
        let (cnf, wanted) = row.split_once('#').unwrap_or((row, ""));
        let cnf = text_of(rt.alloc(), cnf)?;
        let wanted = text_of(rt.alloc(), wanted)?;
        let said = said_of(rt.alloc(), cnf.as_bytes(), "a.cnf,7")?;
        assert_eq!(rt; said.as_str(), wanted.as_str());
    }
    Ok(())
}

// Words, the call of the files that fails, and what is said.
const REFUSED: &str = "\
none#0#usage: sat_bench FILE CONFLICTS [LOG]
a.cnf#0#usage: sat_bench FILE CONFLICTS [LOG]
a.cnf,0#0#usage: sat_bench FILE CONFLICTS [LOG]
a.cnf,#0#usage: sat_bench FILE CONFLICTS [LOG]
a.cnf,+1#0#usage: sat_bench FILE CONFLICTS [LOG]
a.cnf,00000000001#0#usage: sat_bench FILE CONFLICTS [LOG]
a.cnf,1,a.lrat,more#0#usage: sat_bench FILE CONFLICTS [LOG]
a.cnf,1,#0#usage: sat_bench FILE CONFLICTS [LOG]
a.cnf,1,a.cnf#0#usage: sat_bench FILE CONFLICTS [LOG]
b.cnf,1#0#the file can't be read
a.cnf,1#1#the file can't be read
a.cnf,1,a.lrat#2#the log can't be written
a.cnf,1,a.lrat#3#10 c conflicts 0@s SATISFIABLE@v 1 0@
a.cnf,9999999999#0#10 c conflicts 0@s SATISFIABLE@v 1 0@
a.cnf,0000000001#0#10 c conflicts 0@s SATISFIABLE@v 1 0@";

// Whether this is said to the words of a row.
fn is_right(alloc: Global, row: &str) -> Result<bool, Fail> {
    let (words, rest) = row.split_once('#').unwrap_or((row, ""));
    let (fail, wanted) = rest.split_once('#').unwrap_or((rest, ""));
    let mut files = files_of(alloc, b"p cnf 1 1\n1 0\n", fail.parse::<u64>()?)?;
    let said = said_over(alloc, &mut files, words)?;
    let wanted = text_of(alloc, wanted)?;
    Ok(said.as_str() == wanted.as_str())
}

#[test]
fn what_cannot_be_answered_is_refused(rt: HostRuntime) -> Result<(), Fail> {
    for row in REFUSED.lines() {
        assert!(rt; is_right(rt.alloc(), row)?, "{row}");
    }
    let said = said_of(rt.alloc(), b"p cnf 1 1\n\n2 0\n", "a.cnf,1")?;
    assert_eq!(rt;
        said.as_str(),
        "line 3 of the file isn't in the DIMACS format"
    );
    Ok(())
}
