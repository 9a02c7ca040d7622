//! Reads what the comments of a formula's text say.

ghost use Rattle.std.specs.Prelude.{◌≡◌, ◌<◌, ◌==◌, ◌∷◌, [], length, position, IfOk, OnOk, IfSome, MatchOption};
ghost use Rattle.std.specs.Option.{option_map};
ghost use Rattle.std.specs.List.{slice_split, list_all};
ghost use Rattle.sat_text.specs.Numbers.{whole_of};
ghost use Rattle.cnf_core.specs.Events.{plain_note};
ghost use Rattle.ep_base.specs.TokenTexts.{continues_name};
ghost use Rattle.sat_text.specs.Heard.{Heard};
ghost use Rattle.sat_text.specs.Notes.{is_free_name, are_wholes, are_indices, is_cell, note_of, note_at, note_value, note_literal, note_with, added_on};

use crate::items::{is_zero, literal};
use crate::numbers::{natural, whole};
use crate::words::place_of;
use cnf_core::CellNote;
use ep_base::{Memory, begins_name, continues_name, is_word};
use std::alloc::Global;

fn all_in_name(word: &[u8]) -> bool
    ensures { result ≡ list_all continues_name word.now }
{
    word.iter().all(|b| continues_name(*b))
}

fn is_plain_name(word: &[u8]) -> bool
    ensures { result ≡ is_free_name word.now }
{
    match word {
        [] => false,
        [first, others @ ..] => { begins_name(*first) && all_in_name(others) && !is_word(word) }
    }
}

/// What stands before the first separator, and what stands behind it.
fn next_piece(bytes: &[u8], separator: u8) -> (&[u8], Option<&[u8]>)
    ensures cuts { MatchOption result.1
        (slice_split (λ b. b == separator) bytes.now ≡ result.0.now ∷ [])
        (λ later. slice_split (λ b. b == separator) bytes.now
        ≡ result.0.now ∷ slice_split (λ b. b == separator) later.now) }
    ensures shorter { IfSome result.1 (λ later. length later.now < length bytes.now) }
{
    match place_of(bytes, separator) {
        Some(end) => {
            let (_, later) = bytes.split_at(end + 1);
            (&bytes[..end], Some(later))
        }
        None => (bytes, None),
    }
}

fn all_wholes(bytes: &[u8]) -> bool
    ensures { result ≡ are_wholes (slice_split (λ b. b == 44) bytes.now) }
{
    let mut rest = bytes;
    loop {
        let (piece, later) = next_piece(rest, b',');
        if whole(piece).is_none() {
            return false;
        }
        match later {
            Some(later) => rest = later,
            None => return true,
        }
    }
}

fn are_indices_with_bracket(bytes: &[u8]) -> bool
    ensures { result ≡ are_indices (position (λ b. b == 93) bytes.now) bytes.now }
{
    match place_of(bytes, b']') {
        Some(end) => end + 1 == bytes.len() && all_wholes(&bytes[..end]),
        None => false,
    }
}

fn is_cell_name(bytes: &[u8]) -> bool
    ensures { result ≡ is_cell bytes.now }
{
    match place_of(bytes, b'[') {
        Some(start) => {
            let (_, indices) = bytes.split_at(start + 1);
            is_plain_name(&bytes[..start]) && are_indices_with_bracket(indices)
        }
        None => is_plain_name(bytes),
    }
}

/// The note of a cell's name, a value and a literal's number, as words spell them.
#[tactic(auto, unfolding(crate::specs::Notes::note_with))]
fn note_of_words(
    alloc: Global,
    cell: &[u8],
    value: &[u8],
    lit: &[u8],
) -> Result<Option<CellNote>, Memory>
    ensures { IfOk result (λ found. option_map plain_note found
        ≡ note_with cell.now (whole_of value.now) (whole_of lit.now)) }
{
    let Some(value) = whole(value) else {
        return Ok(None);
    };
    let Some(number) = whole(lit) else {
        return Ok(None);
    };
    if is_zero(number) {
        return Ok(None);
    }
    let cell = Vec::from_slice(alloc, cell)?;
    let lit = literal(number);
    Ok(Some(CellNote { cell, value, lit }))
}

/// The note whose literal's number is all of the bytes.
#[tactic(auto, unfolding(crate::specs::Notes::note_literal))]
fn note_of_literal(
    alloc: Global,
    cell: &[u8],
    value: &[u8],
    bytes: &[u8],
) -> Result<Option<CellNote>, Memory>
    ensures { IfOk result (λ found. option_map plain_note found
        ≡ note_literal cell.now value.now (slice_split (λ b. b == 32) bytes.now)) }
{
    let (lit, rest) = next_piece(bytes, b' ');
    match rest {
        Some(_) => Ok(None),
        None => {
            if is_cell_name(cell) {
                note_of_words(alloc, cell, value, lit)
            } else {
                Ok(None)
            }
        }
    }
}

/// The note whose value and literal the bytes give.
#[tactic(auto, unfolding(crate::specs::Notes::note_value))]
fn note_of_value(alloc: Global, cell: &[u8], bytes: &[u8]) -> Result<Option<CellNote>, Memory>
    ensures { IfOk result (λ found. option_map plain_note found
        ≡ note_value cell.now (slice_split (λ b. b == 32) bytes.now)) }
{
    let (value, rest) = next_piece(bytes, b' ');
    match rest {
        Some(rest) => note_of_literal(alloc, cell, value, rest),
        None => Ok(None),
    }
}

/// The note that stands behind `c cell `.
#[tactic(auto, unfolding(crate::specs::Notes::note_at))]
fn note_behind(alloc: Global, bytes: &[u8]) -> Result<Option<CellNote>, Memory>
    ensures { IfOk result (λ found. option_map plain_note found
        ≡ note_at (slice_split (λ b. b == 32) bytes.now)) }
{
    let (cell, rest) = next_piece(bytes, b' ');
    match rest {
        Some(rest) => note_of_value(alloc, cell, rest),
        None => Ok(None),
    }
}

fn note(alloc: Global, line: &[u8]) -> Result<Option<CellNote>, Memory>
    ensures { IfOk result (λ found. option_map plain_note found ≡ note_of line.now) }
{
    if line.starts_with(b"c cell ") {
        let (_, rest) = line.split_at(7);
        note_behind(alloc, rest)
    } else {
        Ok(None)
    }
}

fn added(line: &[u8]) -> Option<u64>
    ensures { result ≡ added_on line.now }
{
    if line.starts_with(b"c added ") {
        let (_, rest) = line.split_at(8);
        natural(rest)
    } else {
        None
    }
}

/// What the comments of a formula's text say, as far as they were heard.
#[derive(Drop)]
pub(crate) struct Comments {
    /// What the literals of the cells mean.
    pub(crate) notes: Vec<CellNote>,
    /// How many clauses were added last.
    pub(crate) added: u64,
}

impl Comments {
    /// Nothing is heard yet.
    pub(crate) fn new(alloc: Global) -> Comments
        ensures notes { result.notes.items ≡ [] }
        ensures added { result.added ≡ 0 }
    {
        Comments {
            notes: Vec::new(alloc),
            added: 0,
        }
    }

    /// Takes in what a line says.
    pub(crate) fn hear(&mut self, alloc: Global, line: &[u8]) -> Result<(), Memory>
        ensures { OnOk result (Heard self.old self.new (line.now ∷ [])) }
    {
        if let Some(found) = note(alloc, line)? {
            self.notes.push(found)?;
        }
        self.added = added(line).unwrap_or(self.added);
        Ok(())
    }
}
