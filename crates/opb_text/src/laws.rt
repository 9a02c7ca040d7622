//! Each text has one meaning.

ghost use Rattle.std.specs.Prelude.{◌≡◌, ◌⊎◌, ℕ, List};
ghost use Rattle.opb_text.specs.Contents.{OpbContent};
ghost use Rattle.opb_text.specs.Grammar.{IsOpbFaultLine, SpellsOpb};

/// A text spells one problem at most, and one that spells none has a line of its fault.
pub fn opb_texts_have_one_meaning()
    ensures one { (text : List ℕ) (content other : OpbContent) → SpellsOpb text content → SpellsOpb text other → content ≡ other }
    ensures some { (text : List ℕ) → ((content : OpbContent) × SpellsOpb text content)
        ⊎ (((content : OpbContent) → ¬ SpellsOpb text content) × (line : ℕ) × IsOpbFaultLine text line) }
{}
