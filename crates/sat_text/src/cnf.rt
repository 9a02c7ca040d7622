//! Reads the text of a formula.

ghost use Rattle.std.specs.Prelude.{◌≡◌, ◌<◌, ◌^◌, ◌↔◌, ℕ, List, false, length, map, Ok, Err, IfOk, OnOk, MatchResult, IsErrOf};
ghost use Rattle.cnf_core.specs.Events.{plain_note};
ghost use Rattle.cnf_core.specs.Literal.{Literal};
ghost use Rattle.sat_text.specs.CnfGrammar.{SpellsCnf, IsFaultLine};
ghost use Rattle.sat_text.specs.Words.{lines, most_text_bytes};
ghost use Rattle.sat_text.specs.Cnf.{formula_of, plain_formula};
ghost use Rattle.sat_text.specs.Notes.{notes_of, added_of};
ghost use Rattle.sat_text.specs.Heard.{Heard};

use crate::MOST_BYTES;
use crate::faults::Stop;
use crate::formula::{last_line, read_formula};
use crate::notes::Comments;
use cnf_core::{CellNote, Formula};
use ep_base::Memory;
use std::alloc::Global;

/// What the text of a formula says.
#[derive(Debug, Drop)]
pub struct CnfFile {
    /// The variables and the clauses.
    pub formula: Formula,
    /// What the literals of the cells mean.
    pub notes: Vec<CellNote>,
    /// How many of the clauses were added last.
    pub added: u64,
}

/// Why the text of a formula was refused.
#[derive(Clone, Copy, Debug, PartialEq, Eq)]
pub enum CnfError {
    /// It has more than [`MOST_BYTES`] bytes.
    TooLong,
    /// The first word with which no text can go on stands on this line, counted from 1, or words
    /// are wanting at the end, and then it is the text's last line.
    Bad(u64),
    /// An allocation was refused.
    Memory,
}

impl From<Memory> for CnfError {
    ghost use Rattle.sat_text.specs.declared.cnf.CnfError.TheVariants.{Memory};

    ghost from_gives = { λ _ e. e ≡ Memory };

    fn from(_refused: Memory) -> CnfError {
        CnfError::Memory
    }
}

/// The formula, or the line of its text's fault. Comments are heard on the way.
fn formula(alloc: Global, text: &[u8], said: &mut Comments) -> Result<Formula, CnfError>
    requires { length text.now < 2 ^ 62 }
    ensures heard { OnOk result (Heard said.old said.new (lines text.now)) }
    ensures spelled { IfOk result (λ f. SpellsCnf text.now f.vars f.clauses) }
    ensures complete { (vars : ℕ) (clauses : List (List Literal)) →
        SpellsCnf text.now vars clauses → MatchResult result
        (λ f. (f.vars ≡ vars) × (f.clauses ≡ clauses))
        (λ error. (line : ℕ) → error ≡ CnfError.Bad line → ⊥) }
    ensures origin { IfOk result (λ f. f.from_new ≡ false) }
    ensures found { IfOk result (λ f. formula_of text.now ≡ Ok (plain_formula f)) }
    ensures fault { (line : ℕ) → result ≡ Err (CnfError.Bad line) → IsFaultLine text.now line }
    ensures bad { (line : ℕ) → result ≡ Err (CnfError.Bad line) → formula_of text.now ≡ Err line }
    ensures short { IsErrOf result CnfError.TooLong → ⊥ }
{
    match read_formula(alloc, text, said) {
        Ok(found) => Ok(found),
        Err(Stop::Memory) => Err(CnfError::Memory),
        Err(Stop::At(line)) => Err(CnfError::Bad(line)),
        Err(Stop::Ends) => Err(CnfError::Bad(last_line(text))),
    }
}

/// Reads the text of a formula. Linear in the text, and a clause costs a sort besides.
///
/// # Errors
///
/// [`CnfError::TooLong`] exactly where the text has more than [`MOST_BYTES`] bytes, and otherwise
/// [`CnfError::Bad`] with the line of the first word with which no text can go on, or with the text's
/// last line where words are wanting.
pub fn read_cnf(alloc: Global, text: &[u8]) -> Result<CnfFile, CnfError>
    ensures too_long { IsErrOf result CnfError.TooLong ↔ (most_text_bytes < length text.now) }
    // What is read is what the text spells, and no text that spells a formula is refused as bad.
    ensures spelled { IfOk result
        (λ file. SpellsCnf text.now file.formula.vars file.formula.clauses) }
    ensures complete { (vars : ℕ) (clauses : List (List Literal)) →
        SpellsCnf text.now vars clauses → MatchResult result
        (λ file. (file.formula.vars ≡ vars) × (file.formula.clauses ≡ clauses))
        (λ error. (line : ℕ) → error ≡ CnfError.Bad line → ⊥) }
    ensures formula { IfOk result (λ file. formula_of text.now ≡ Ok (plain_formula file.formula)) }
    ensures read { IfOk result (λ file. file.formula.from_new ≡ false) }
    ensures notes { IfOk result
        (λ file. map plain_note file.notes.items ≡ notes_of (lines text.now)) }
    ensures added { IfOk result (λ file. file.added ≡ added_of 0 (lines text.now)) }
    // A fault is the line of the first word with which no text can go on, or the last line.
    ensures fault { (line : ℕ) → result ≡ Err (CnfError.Bad line) → IsFaultLine text.now line }
    ensures bad { (line : ℕ) → result ≡ Err (CnfError.Bad line) → formula_of text.now ≡ Err line }
{
    if text.len() > MOST_BYTES {
        return Err(CnfError::TooLong);
    }
    let mut said = Comments::new(alloc);
    let formula = formula(alloc, text, &mut said)?;
    let Comments { notes, added } = said;
    Ok(CnfFile {
        formula,
        notes,
        added,
    })
}
