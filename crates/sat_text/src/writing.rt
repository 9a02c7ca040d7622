//! Writes the texts of formulas and of logs.

ghost use Rattle.std.specs.Prelude.{◌≡◌, ◌^◌, ◌<◌, ℕ, pos, ◌++◌, ◌∷◌, [], length, map, count_by, All, OnOk, IfOk, Ok, codes, decimal, slice_index};
ghost use Rattle.std.specs.Fmt.{signed_decimal};
ghost use Rattle.std.specs.List.{flat_map};
ghost use Rattle.cnf_core.specs.Literal.{Literal, IsVariable};
ghost use Rattle.cnf_core.specs.Events.{plain_note, is_given, HintsAreEarlier};
ghost use Rattle.cnf_core.specs.Lines.{add};
ghost use Rattle.sat_text.specs.Proofs.{proof_of};
ghost use Rattle.sat_text.specs.Clauses.{number_of};
ghost use Rattle.cnf_core.specs.LogLines.{event_ids, step_lines, log_lines};
ghost use Rattle.sat_text.specs.CnfGrammar.{SpellsCnf};
ghost use Rattle.sat_text.specs.LogGrammar.{SpellsLog};
ghost use Rattle.sat_text.specs.Writing.{spaced, line_text, log_text, IsReadable, note_text, clause_text, header_text, added_text, cnf_text, IsReadableNote, IsReadableFormula, NamesVariables, SaysAgain};

use cnf_core::{CellNote, ClauseList, EventList, Formula, Lit, Log};
use ep_base::Memory;
use itoa::Buffer;
use std::alloc::Global;

/// The number of a literal: its variable's, negative where the literal is.
fn number(lit: &Lit) -> i64
    ensures value { result ≡ number_of lit.now }
    ensures variable { IsVariable lit.now.var }
{
    let var = lit.var() as i64;
    if lit.positive() { var } else { -var }
}

fn put_natural(out: &mut Vec<u8>, n: u64) -> Result<(), Memory>
    ensures { OnOk result (out.new.items ≡ out.old.items ++ decimal n) }
{
    let mut buffer = Buffer::new();
    out.extend_from_slice(buffer.format(n).as_bytes())?;
    Ok(())
}

fn put_whole(out: &mut Vec<u8>, n: i64) -> Result<(), Memory>
    ensures { OnOk result (out.new.items ≡ out.old.items ++ signed_decimal n) }
{
    let mut buffer = Buffer::new();
    out.extend_from_slice(buffer.format(n).as_bytes())?;
    Ok(())
}

/// A number with a space before it.
fn put_spaced(out: &mut Vec<u8>, n: i64) -> Result<(), Memory>
    ensures { OnOk result (out.new.items ≡ out.old.items ++ 32 ∷ signed_decimal n) }
{
    out.push(b' ')?;
    put_whole(out, n)
}

/// A clause's literals with a space behind each, and a 0.
fn put_clause(out: &mut Vec<u8>, clause: &[Lit]) -> Result<(), Memory>
    ensures { OnOk result (out.new.items ≡ out.old.items ++ clause_text clause.now) }
{
    for lit in clause {
        put_whole(out, number(lit))?;
        out.push(b' ')?;
    }
    out.extend_from_slice(b"0\n")?;
    Ok(())
}

fn put_note(out: &mut Vec<u8>, note: &CellNote) -> Result<(), Memory>
    ensures text { OnOk result
        (out.new.items ≡ out.old.items ++ note_text (plain_note note.now)) }
    ensures variable { OnOk result (IsVariable note.now.lit.var) }
{
    out.extend_from_slice(b"c cell ")?;
    out.extend_from_slice(&note.cell)?;
    put_spaced(out, note.value)?;
    put_spaced(out, number(&note.lit))?;
    out.extend_from_slice(b"\n")?;
    Ok(())
}

fn put_header(out: &mut Vec<u8>, vars: u64, clauses: usize) -> Result<(), Memory>
    ensures { OnOk result (out.new.items ≡ out.old.items ++ header_text vars clauses) }
{
    out.extend_from_slice(b"p cnf ")?;
    put_natural(out, vars)?;
    out.push(b' ')?;
    put_natural(out, clauses as u64)?;
    out.push(b'\n')?;
    Ok(())
}

fn put_added(out: &mut Vec<u8>, added: u64) -> Result<(), Memory>
    ensures { OnOk result (out.new.items ≡ out.old.items ++ added_text added) }
{
    out.extend_from_slice(b"c added ")?;
    put_natural(out, added)?;
    out.push(b'\n')?;
    Ok(())
}

fn put_notes(out: &mut Vec<u8>, notes: &[CellNote]) -> Result<(), Memory>
    ensures text { OnOk result
        (out.new.items ≡ out.old.items ++ flat_map note_text (map plain_note notes.now)) }
    ensures variables { OnOk result (NamesVariables (map plain_note notes.now)) }
{
    for note in notes {
        put_note(out, note)?;
    }
    Ok(())
}

fn put_clauses(out: &mut Vec<u8>, clauses: &ClauseList) -> Result<(), Memory>
    ensures { OnOk result (out.new.items ≡ out.old.items ++ flat_map clause_text clauses.now) }
{
    for place in 0..clauses.len() {
        put_clause(out, clauses.clause(place))?;
    }
    Ok(())
}

/// The ids of events: the givens have the first ones, from 1 on, and the steps those behind them.
fn ids(alloc: Global, events: &EventList) -> Result<Vec<u64>, Memory>
    ensures ids { IfOk result (λ made. made.items ≡ event_ids events.now) }
    ensures all { IfOk result (λ made. length made.items ≡ length events.now) }
    ensures few { length events.now < 2 ^ 63 }
{
    let mut given_id = 1;
    let mut step_id = count_givens(events) as u64 + 1;
    let mut made = Vec::new(alloc);
    for place in 0..events.len() {
        match events.hints(place) {
            Some(_) => {
                made.push(step_id)?;
                step_id += 1;
            }
            None => {
                made.push(given_id)?;
                given_id += 1;
            }
        }
    }
    Ok(made)
}

/// How many events are givens.
fn count_givens(events: &EventList) -> usize
    ensures value { result ≡ count_by is_given events.now }
    ensures few { result < 2 ^ 63 }
{
    let mut count = 0;
    for place in 0..events.len() {
        match events.hints(place) {
            Some(_) => continue,
            None => count += 1,
        }
    }
    count
}

/// A step's literals with a space before each.
fn put_literals(out: &mut Vec<u8>, clause: &[Lit]) -> Result<(), Memory>
    ensures { OnOk result (out.new.items ≡ out.old.items ++ spaced (map number_of clause.now)) }
{
    for lit in clause {
        put_spaced(out, number(lit))?;
    }
    Ok(())
}

/// The ids of a step's hints with a space before each.
fn put_hints(out: &mut Vec<u8>, ids: &[u64], hints: &[u64]) -> Result<(), Memory>
    requires { All (λ hint. hint < length ids.now) hints.now }
    ensures { OnOk result (out.new.items
        ≡ out.old.items ++ spaced (map (λ hint. pos (slice_index ids.now hint)) hints.now)) }
{
    for hint in hints {
        out.push(b' ')?;
        put_natural(out, ids[*hint as usize])?;
    }
    Ok(())
}

/// The line of a step, whose hints are positions among the ids.
fn put_step(
    out: &mut Vec<u8>,
    ids: &[u64],
    id: u64,
    clause: &[Lit],
    hints: &[u64],
) -> Result<(), Memory>
    requires { All (λ hint. hint < length ids.now) hints.now }
    ensures { OnOk result (out.new.items ≡ out.old.items
        ++ line_text (add id clause.now (map (λ hint. pos (slice_index ids.now hint)) hints.now))) }
{
    put_natural(out, id)?;
    put_literals(out, clause)?;
    out.extend_from_slice(b" 0")?;
    put_hints(out, ids, hints)?;
    out.extend_from_slice(b" 0\n")?;
    Ok(())
}

/// The lines of the steps of a log, whose events have these ids.
fn put_steps(out: &mut Vec<u8>, ids: &[u64], events: &EventList) -> Result<(), Memory>
    requires all { length ids.now ≡ length events.now }
    requires hints { HintsAreEarlier events.now }
    ensures { OnOk result (out.new.items ≡ out.old.items
        ++ flat_map line_text (step_lines ids.now ids.now events.now)) }
{
    for place in 0..events.len() {
        match events.hints(place) {
            Some(hints) => put_step(out, ids, ids[place], events.clause(place), hints)?,
            None => {}
        }
    }
    Ok(())
}

/// The room in bytes that a step's line is given at the start. Where memory has it for all events, ids have at most 18 digits.
const STEP_ROOM: usize = 32;

/// The lines of the steps of a log.
fn log_bytes(alloc: Global, log: &Log) -> Result<Vec<u8>, Memory>
    ensures text { IfOk result (λ text. text.items ≡ log_text log.now.events) }
    ensures readable { IfOk result (λ _. All IsReadable (log_lines log.now.events)) }
{
    let events = log.events();
    let ids = ids(alloc, events)?;
    let mut out = Vec::new(alloc);
    out.reserve(events.len().saturating_mul(STEP_ROOM))?;
    put_steps(&mut out, &ids, events)?;
    Ok(out)
}

/// The text of a log: a line for each step, with ids as a proof has them over the clauses that were
/// given. Linear in the log.
pub fn write_log(alloc: Global, log: &Log) -> Result<Vec<u8>, Memory>
    ensures text { IfOk result (λ text. text.items ≡ log_text log.now.events) }
    // Reading gives the lines of the log back.
    ensures again { IfOk result (λ text. proof_of text.items ≡ Ok (log_lines log.now.events)) }
    ensures spells { IfOk result (λ text. SpellsLog text.items (log_lines log.now.events)) }
{
    log_bytes(alloc, log)
}

/// The room in bytes that a clause's line is given at the start. Where memory has it for all clauses, a header can state how many
/// these are: it has at most 18 digits.
const CLAUSE_ROOM: usize = 16;

fn cnf_bytes(alloc: Global, f: &Formula, notes: &[CellNote], added: u64) -> Result<Vec<u8>, Memory>
    ensures text { IfOk result
        (λ text. text.items ≡ cnf_text f.now (map plain_note notes.now) added) }
    ensures readable { IfOk result (λ _. IsReadableFormula f.now) }
    ensures variables { IfOk result (λ _. NamesVariables (map plain_note notes.now)) }
{
    let clauses = f.clauses();
    let mut out = Vec::new(alloc);
    out.reserve(clauses.len().saturating_mul(CLAUSE_ROOM))?;
    put_notes(&mut out, notes)?;
    put_added(&mut out, added)?;
    put_header(&mut out, f.vars(), clauses.len())?;
    put_clauses(&mut out, clauses)?;
    Ok(out)
}

/// The text of a formula, with the notes of its cells and the number of clauses that were added
/// last. Linear in the text.
pub fn write_cnf(
    alloc: Global,
    f: &Formula,
    notes: &[CellNote],
    added: u64,
) -> Result<Vec<u8>, Memory>
    ensures text { IfOk result
        (λ text. text.items ≡ cnf_text f.now (map plain_note notes.now) added) }
    // Reading gives the formula, the notes and the number back.
    ensures again { All IsReadableNote (map plain_note notes.now) → added < 10 ^ 18 →
        IfOk result (λ text. SaysAgain text.items f.now (map plain_note notes.now) added) }
    ensures spells { All IsReadableNote (map plain_note notes.now) → added < 10 ^ 18 →
        IfOk result (λ text. SpellsCnf text.items f.now.vars f.now.clauses) }
{
    cnf_bytes(alloc, f, notes, added)
}
