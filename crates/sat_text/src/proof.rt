//! Reads the text of a proof.

ghost use Rattle.std.specs.Prelude.{◌≡◌, ◌<◌, ◌↔◌, [], ◌∷◌, false, ℕ, List, length, Ok, Err, IfOk, IfSome, MatchOption, MatchResult, IsErrOf};
ghost use Rattle.cnf_core.specs.Literal.{HaveSameLiterals, IsClause, IsOrdered};
ghost use Rattle.sat_text.specs.Words.{behind_line, first_line, words, most_text_bytes};
ghost use Rattle.sat_text.specs.Clauses.{in_order};
ghost use Rattle.sat_text.specs.Proofs.{begins_with_d, addition_at, deletion_at, behind_id, line_of, proof_of};
ghost use Rattle.cnf_core.specs.Lines.{ProofLine};
ghost use Rattle.sat_proof.specs.Lines.{proof_lines};
ghost use Rattle.sat_text.specs.LogGrammar.{SpellsLog, IsFirstWrongLine};
ghost use Rattle.sat_text.specs.Answers.{AddsLine};

use crate::MOST_BYTES;
use crate::faults::Fault;
use crate::items::{hints, ids, literals, positive, whole_at};
use crate::words::{begins_word, behind_blanks, line_end, silent_line};
use cnf_core::Lit;
use sat_proof::{Proof, put_in_order};
use std::alloc::{AllocError, AllocFailed, Global};

/// Why the text of a proof was refused.
#[derive(Clone, Copy, Debug, PartialEq, Eq)]
pub enum LogError {
    /// It has more than [`MOST_BYTES`] bytes.
    TooLong,
    /// This line, counted from 1, is the first that isn't in the grammar.
    Bad(u64),
    /// An allocation was refused.
    Memory,
}

impl<T: Drop> From<AllocFailed<T>> for LogError {
    ghost use Rattle.sat_text.specs.declared.proof.LogError.TheVariants.{Memory};

    ghost from_gives = { λ _ e. e ≡ Memory };

    fn from(_refused: AllocFailed<T>) -> LogError {
        LogError::Memory
    }
}

/// Puts literals in order, and leaves each once.
pub(crate) fn order(literals: &mut Vec<Lit>)
    ensures value { literals.new.items ≡ in_order literals.old.items }
    ensures ordered { IsOrdered literals.new.items }
    ensures clause { IsClause literals.new.items }
    ensures same { HaveSameLiterals literals.new.items literals.old.items }
{
    put_in_order(literals);
}

/// The proof that is being read, and room for what its next line says.
#[derive(Drop)]
struct Reading {
    proof: Proof,
    literals: Vec<Lit>,
    hints: Vec<i64>,
    ids: Vec<u64>,
}

impl Reading {
    /// Nothing is read yet.
    fn new(alloc: Global) -> Reading
        ensures { proof_lines result.proof ≡ [] }
    {
        Reading {
            proof: Proof::new(alloc),
            literals: Vec::new(alloc),
            hints: Vec::new(alloc),
            ids: Vec::new(alloc),
        }
    }

    /// Reads the line that adds a clause, from what stands behind its id, and gives what stands behind the line.
    #[tactic(auto, unfolding(crate::specs::Proofs::addition_at))]
    fn addition<'a>(&mut self, id: u64, text: &'a [u8]) -> Result<&'a [u8], Fault>
        ensures adds { AddsLine self.old.proof self.new.proof result (addition_at id (words (first_line text.now))) }
        ensures later { IfOk result (λ later. later.now ≡ behind_line text.now) }
    {
        let rest = literals(&mut self.literals, text)?;
        let rest = hints(&mut self.hints, rest)?;
        order(&mut self.literals);
        match line_end(rest) {
            Some(later) => {
                self.proof
                    .add(id, self.literals.as_slice(), self.hints.as_slice())?;
                Ok(later)
            }
            None => Err(Fault::Wrong),
        }
    }

    /// Reads the line that deletes ids, from what stands behind its `d`.
    #[tactic(auto, unfolding(crate::specs::Proofs::deletion_at))]
    fn deletion<'a>(&mut self, text: &'a [u8]) -> Result<&'a [u8], Fault>
        ensures adds { AddsLine self.old.proof self.new.proof result (deletion_at (words (first_line text.now))) }
        ensures later { IfOk result (λ later. later.now ≡ behind_line text.now) }
    {
        let rest = ids(&mut self.ids, text)?;
        match line_end(rest) {
            Some(later) => {
                self.proof.delete(self.ids.as_slice())?;
                Ok(later)
            }
            None => Err(Fault::Wrong),
        }
    }

    #[tactic(auto, unfolding(crate::specs::Proofs::behind_id))]
    fn behind_id<'a>(&mut self, id: u64, text: &'a [u8]) -> Result<&'a [u8], Fault>
        ensures adds { AddsLine self.old.proof self.new.proof result (behind_id id (words (first_line text.now))) }
        ensures later { IfOk result (λ later. later.now ≡ behind_line text.now) }
    {
        match behind_letter_d(text) {
            Some(later) => self.deletion(later),
            None => self.addition(id, text),
        }
    }

    /// Reads the first line of a text, and gives what stands behind its end.
    #[tactic(auto, unfolding(crate::specs::Proofs::line_of))]
    fn line<'a>(&mut self, text: &'a [u8]) -> Result<&'a [u8], Fault>
        ensures adds { AddsLine self.old.proof self.new.proof result (line_of (words (first_line text.now))) }
        ensures later { IfOk result (λ later. later.now ≡ behind_line text.now) }
    {
        let (number, rest) = whole_at(text)?;
        let id = positive(number)?;
        self.behind_id(id, rest)
    }
}

/// What stands behind the next word of a line, where that is the letter `d`.
fn behind_letter_d(text: &[u8]) -> Option<&[u8]>
    ensures words { MatchOption result (begins_with_d (words (first_line text.now)) ≡ false)
        (λ later. words (first_line text.now) ≡ (100 ∷ []) ∷ words (first_line later.now)) }
    ensures line { IfSome result (λ later. behind_line later.now ≡ behind_line text.now) }
{
    match behind_blanks(text) {
        [first, later @ ..] => {
            if *first != b'd' {
                return None;
            }
            if begins_word(later) {
                None
            } else {
                Some(later)
            }
        }
        [] => None,
    }
}

/// Reads the text of a proof. Linear in the text.
///
/// # Errors
///
/// [`LogError::TooLong`] exactly where the text has more than [`MOST_BYTES`] bytes, and otherwise
/// [`LogError::Bad`] with the first line that isn't in the grammar.
pub fn read_log(alloc: Global, text: &[u8]) -> Result<Proof, LogError>
    ensures too_long { IsErrOf result LogError.TooLong ↔ (most_text_bytes < length text.now) }
    // What is read is what the text spells, and no text that spells a proof is refused as bad.
    ensures spelled { IfOk result (λ p. SpellsLog text.now (proof_lines p)) }
    ensures complete { (proof : List ProofLine) → SpellsLog text.now proof → MatchResult result
        (λ p. proof_lines p ≡ proof)
        (λ error. (line : ℕ) → error ≡ LogError.Bad line → ⊥) }
    // The line of a fault is the first that isn't in the grammar.
    ensures fault { (line : ℕ) → result ≡ Err (LogError.Bad line) →
        IsFirstWrongLine text.now line }
    ensures found { IfOk result (λ p. proof_of text.now ≡ Ok (proof_lines p)) }
    ensures bad { (line : ℕ) → result ≡ Err (LogError.Bad line) → proof_of text.now ≡ Err line }
{
    if text.len() > MOST_BYTES {
        return Err(LogError::TooLong);
    }
    let mut reading = Reading::new(alloc);
    let mut rest = text;
    let mut number = 0u64;
    while !rest.is_empty() {
        number += 1;
        match silent_line(rest) {
            Some(later) => rest = later,
            None => match reading.line(rest) {
                Ok(later) => rest = later,
                Err(Fault::Memory) => return Err(LogError::Memory),
                Err(Fault::Wrong) => return Err(LogError::Bad(number)),
            },
        }
    }
    Ok(reading.proof)
}
