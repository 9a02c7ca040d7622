//! Checks a proof against a formula: whether each clause that it adds is shown by the live clauses
//! that its hints name.
#![tactic(auto)]

ghost use Rattle.std.specs.Prelude.{◌≡◌, ◌+◌, ◌<◌, ◌≤◌, ◌^◌, ◌||◌, IfOk, length};
ghost use Rattle.std.specs.List.{list_any};
ghost use Rattle.sat_proof.specs.Lines.{plain_line, proof_lines, row_line, row_lines};
ghost use Rattle.log_check.specs.Parts.{FindsBad};
ghost use Rattle.log_check.specs.Verdict.{verdict_of, verdict_from, is_empty_clause, adds_empty_clause};

mod calendar;
mod laws;
mod parts;
mod reading;
mod signs;

use calendar::Calendar;
use cnf_core::{ClauseList, Formula, Lit};
use ep_base::Memory;
pub use laws::{valid_logs_are_accepted, verified_formulas_have_no_solution};
use parts::{Work, first_bad, least};
use sat_proof::{Line, Proof, Row};
use signs::places;
use std::alloc::Global;
use std::thread::{Threads, map_chunks};

/// What the check of a proof found.
#[derive(Clone, Copy, Debug, PartialEq, Eq)]
pub enum Verdict {
    /// Each line is valid, and there is an empty clause: the formula has no satisfying assignment.
    Verified,
    /// The first line that isn't valid, counted from 1.
    BadStep(u64),
    /// Each line is valid, and no clause is empty.
    NoEmptyClause,
}

fn is_empty(clause: &[Lit]) -> bool
    ensures { result ≡ is_empty_clause clause.now }
{
    clause.is_empty()
}

fn adds_empty(line: Line) -> bool
    ensures { result ≡ adds_empty_clause (plain_line line.entry) }
{
    match line {
        Line::Add { clause, .. } => clause.is_empty(),
        Line::Delete { .. } => false,
    }
}

fn some_is_empty(clauses: &ClauseList) -> bool
    ensures { result ≡ list_any is_empty_clause clauses.now }
{
    for place in 0..clauses.len() {
        if is_empty(clauses.clause(place)) {
            return true;
        }
    }
    false
}

fn any_adds_empty(proof: &Proof) -> bool
    ensures { result ≡ list_any (λ row. adds_empty_clause (row_line proof.now row)) proof.now.rows }
{
    proof.rows().iter().any(|row| adds_empty(proof.line(row)))
}

/// The same, where the last line is looked at first: mostly it is the one.
fn some_adds_empty(proof: &Proof) -> bool
    ensures { result ≡ list_any (λ row. adds_empty_clause (row_line proof.now row)) proof.now.rows }
{
    if let Some(last) = proof.rows().last() {
        if adds_empty(proof.line(last)) {
            return true;
        }
    }
    any_adds_empty(proof)
}

/// The verdict, where this is the number of the first line that isn't valid, or each line is.
fn verdict_after(clauses: &ClauseList, proof: &Proof, bad: Option<u64>) -> Verdict
    ensures { result ≡ verdict_from bad
        (list_any is_empty_clause clauses.now
        || list_any (λ row. adds_empty_clause (row_line proof.now row)) proof.now.rows) }
{
    if let Some(line) = bad {
        Verdict::BadStep(line)
    } else if some_is_empty(clauses) || some_adds_empty(proof) {
        Verdict::Verified
    } else {
        Verdict::NoEmptyClause
    }
}

/// Checks the lines of a proof in order, over the clauses of the formula and those that earlier
/// lines added.
///
/// A line costs the literals of its clause and of the clauses that its hints name.
pub fn check_log(alloc: Global, f: &Formula, p: &Proof) -> Result<Verdict, Memory>
    ensures { IfOk result
        (λ verdict. verdict ≡ verdict_of f.now.clauses (proof_lines p.now)) }
{
    let clauses = f.clauses();
    let work = Work {
        calendar: Calendar::new(alloc, clauses, p)?,
        proof: p,
        places: places(f),
    };
    let bad = first_bad(alloc, &work, 0, p.rows())?;
    Ok(verdict_after(clauses, p, bad))
}

/// Is told when the check of a chunk of a proof begins and when it ends, by the thread that does it.
pub trait Gate: Sync {
    /// Comes before the first line of the chunk of this number.
    fn enter(&self, chunk: u64);

    /// Comes behind the last line of the chunk of this number.
    fn leave(&self, chunk: u64);
}

/// A gate that lets each chunk begin and end.
#[derive(Clone, Copy, Debug)]
pub struct OpenGate;

impl Gate for OpenGate {
    fn enter(&self, _chunk: u64) {}

    fn leave(&self, _chunk: u64) {}
}

/// Checks a proof as `check_log` does, and gives the same verdict.
///
/// The lines are cut into as many chunks as there are workers, of the same length but for the last,
/// or into fewer where so many chunks have all lines. Each is checked in a thread of its own where
/// one can be started, over what one pass has noted of the clauses that are live. The gate is told of
/// each chunk, which are numbered from 0.
pub fn check_log_parallel<R: Threads + Sync, G: Gate>(
    rt: &R,
    alloc: Global,
    f: &Formula,
    p: &Proof,
    workers: u64,
    gate: &G,
) -> Result<Verdict, Memory>
    requires { (1 ≤ workers) × (workers ≤ 64) }
    ensures { IfOk result
        (λ verdict. verdict ≡ verdict_of f.now.clauses (proof_lines p.now)) }
{
    let clauses = f.clauses();
    let rows = p.rows();
    let work = Work {
        calendar: Calendar::new(alloc, clauses, p)?,
        proof: p,
        places: places(f),
    };
    let size = rows.len().div_ceil(workers as usize).max(1);
    let check = |start: usize, chunk: &[Row]| -> Result<Option<u64>, Memory>
        requires { (0 < size) × (start + length chunk.now < 2 ^ 64) }
    { bad_in_chunk(alloc, &work, size, gate, start, chunk) };
    let found = map_chunks(rt, alloc, rows, size, &check)?;
    let bad = least(&found)?;
    Ok(verdict_after(clauses, p, bad))
}

/// Checks a chunk between two calls of the gate, where all chunks but the last have this size.
fn bad_in_chunk<G: Gate>(
    alloc: Global,
    work: &Work,
    size: usize,
    gate: &G,
    start: usize,
    chunk: &[Row],
) -> Result<Option<u64>, Memory>
    requires size { 0 < size }
    requires room { start + length chunk.now < 2 ^ 64 }
    ensures { IfOk result (λ bad. FindsBad work.now.calendar start (row_lines work.now.proof.now chunk.now) bad) }
{
    let number = (start / size) as u64;
    gate.enter(number);
    let bad = first_bad(alloc, work, start, chunk);
    gate.leave(number);
    bad
}
