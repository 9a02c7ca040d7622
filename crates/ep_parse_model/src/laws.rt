//! Laws that hold of the definitions, each the contract of a function that does nothing.

ghost use Rattle.std.specs.Prelude.{◌≡◌, ℕ, List};
ghost use Rattle.ep_tree.specs.Phrases.{Lexeme};
ghost use Rattle.ep_tree.specs.StatementSpelling.{SpellsModel, SpellsParams};
ghost use Rattle.ep_tree.specs.Statements.{TextTree};
ghost use Rattle.ep_tree.specs.Texts.{AnswersModel, AnswersParams, TextAnswer};

/// Some tokens spell one model at most, and one parameter text at most: the grammar is unambiguous.
pub fn tokens_spell_one_text()
    ensures models { (one other : TextTree) (tokens : List Lexeme) →
        SpellsModel one tokens → SpellsModel other tokens → one ≡ other }
    ensures params { (one other : TextTree) (tokens : List Lexeme) →
        SpellsParams one tokens → SpellsParams other tokens → one ≡ other }
{}

/// A text has one answer at most, be a model to be read or a parameter text.
pub fn texts_have_one_answer()
    ensures models { (text : List ℕ) (one other : TextAnswer) →
        AnswersModel text one → AnswersModel text other → one ≡ other }
    ensures params { (text : List ℕ) (one other : TextAnswer) →
        AnswersParams text one → AnswersParams text other → one ≡ other }
{}
