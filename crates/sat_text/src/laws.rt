//! What is written is read again, and a text has one meaning.

ghost use Rattle.std.specs.Prelude.{◌≡◌, ◌↔◌, ℕ, All, List, Ok, Some};
ghost use Rattle.std.specs.List.{flat_map};
ghost use Rattle.cnf_core.specs.Lines.{ProofLine};
ghost use Rattle.cnf_core.specs.Literal.{Literal};
ghost use Rattle.sat_text.specs.CnfGrammar.{IsFaultLine, SpellsCnf};
ghost use Rattle.cnf_core.specs.Events.{Note};
ghost use Rattle.sat_text.specs.NoteGrammar.{SpellsNote, SpellsAdded};
ghost use Rattle.sat_text.specs.Notes.{note_of, added_on};
ghost use Rattle.sat_text.specs.LogGrammar.{IsFirstWrongLine, SpellsLog};
ghost use Rattle.sat_text.specs.Proofs.{proof_of};
ghost use Rattle.sat_text.specs.Writing.{line_text, IsReadable};

/// The text of lines that can be read says these lines.
pub fn lines_are_read_again()
    ensures { (written : List ProofLine) → All IsReadable written
        → proof_of (flat_map line_text written) ≡ Ok written }
{}

/// A text spells one formula at most, and where it spells none its fault has one line alone.
pub fn cnf_texts_have_one_meaning()
    ensures one { (text : List ℕ) (vars others : ℕ) (clauses other_clauses : List (List Literal)) →
        SpellsCnf text vars clauses → SpellsCnf text others other_clauses →
        (vars ≡ others) × (clauses ≡ other_clauses) }
    ensures line { (text : List ℕ) (line other : ℕ) →
        IsFaultLine text line → IsFaultLine text other → line ≡ other }
{}

/// A text spells one proof at most, and where it spells none its fault has one line alone.
pub fn log_texts_have_one_meaning()
    ensures one { (text : List ℕ) (lines others : List ProofLine) →
        SpellsLog text lines → SpellsLog text others → lines ≡ others }
    ensures line { (text : List ℕ) (line other : ℕ) →
        IsFirstWrongLine text line → IsFirstWrongLine text other → line ≡ other }
{}

/// Which lines are read as notes, and as numbers of clauses that were added.
pub fn notes_are_spelled()
    ensures notes { (line : List ℕ) (note : Note) →
        (note_of line ≡ Some note) ↔ (SpellsNote line note) }
    ensures added { (line : List ℕ) (added : ℕ) →
        (added_on line ≡ Some added) ↔ (SpellsAdded line added) }
{}
