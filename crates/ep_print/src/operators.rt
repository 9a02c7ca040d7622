//! The words of operators.

ghost use Rattle.std.specs.Prelude.{◌≡◌, codes};
ghost use Rattle.ep_tree.specs.Spelling.{binary_word, compare_word, fold_word, is_called, lex_word, quantifier_word, set_word, sign_word, truth_word};
ghost use Rattle.ep_print.specs.Words.{sense_word};

use ep_base::{CompareOp, LexOp, Sense};
use ep_tree::{BinaryOp, FoldOp, QuantOp, SetOp};

#[tactic(auto, unfolding(ep_tree::specs::Spelling::truth_word))]
pub(crate) fn truth_word(truth: bool) -> &'static str
    ensures { result.now ≡ codes (truth_word truth) }
{
    if truth { "true" } else { "false" }
}

#[tactic(auto, unfolding(ep_tree::specs::Spelling::sign_word))]
pub(crate) fn sign_word(plus: bool) -> &'static str
    ensures { result.now ≡ codes (sign_word plus) }
{
    if plus { "+" } else { "-" }
}

#[tactic(auto, unfolding(ep_tree::specs::Spelling::binary_word))]
pub(crate) fn binary_word(op: BinaryOp) -> &'static str
    ensures { result.now ≡ codes (binary_word op) }
{
    match op {
        BinaryOp::Mul => "*",
        BinaryOp::Div => "/",
        BinaryOp::Mod => "%",
        BinaryOp::Pow => "**",
        BinaryOp::Min => "min",
        BinaryOp::Max => "max",
        BinaryOp::Implies => "->",
        BinaryOp::Iff => "<->",
    }
}

/// Whether an operator is written as a function.
#[tactic(auto, unfolding(ep_tree::specs::Spelling::is_called))]
pub(crate) fn is_called(op: BinaryOp) -> bool
    ensures { result ≡ is_called op }
{
    match op {
        BinaryOp::Min | BinaryOp::Max => true,
        _ => false,
    }
}

#[tactic(auto, unfolding(ep_tree::specs::Spelling::compare_word))]
pub(crate) fn compare_word(op: CompareOp) -> &'static str
    ensures { result.now ≡ codes (compare_word op) }
{
    match op {
        CompareOp::Equal => "=",
        CompareOp::NotEqual => "!=",
        CompareOp::Less => "<",
        CompareOp::AtMost => "<=",
        CompareOp::Greater => ">",
        CompareOp::AtLeast => ">=",
    }
}

#[tactic(auto, unfolding(ep_tree::specs::Spelling::lex_word))]
pub(crate) fn lex_word(op: LexOp) -> &'static str
    ensures { result.now ≡ codes (lex_word op) }
{
    match op {
        LexOp::Less => "<lex",
        LexOp::AtMost => "<=lex",
        LexOp::Greater => ">lex",
        LexOp::AtLeast => ">=lex",
    }
}

#[tactic(auto, unfolding(ep_tree::specs::Spelling::quantifier_word))]
pub(crate) fn quantifier_word(op: QuantOp) -> &'static str
    ensures { result.now ≡ codes (quantifier_word op) }
{
    match op {
        QuantOp::ForAll => "forAll",
        QuantOp::Exists => "exists",
        QuantOp::Sum => "sum",
    }
}

#[tactic(auto, unfolding(ep_tree::specs::Spelling::fold_word))]
pub(crate) fn fold_word(op: FoldOp) -> &'static str
    ensures { result.now ≡ codes (fold_word op) }
{
    match op {
        FoldOp::Sum => "sum",
        FoldOp::Product => "product",
        FoldOp::And => "and",
        FoldOp::Or => "or",
        FoldOp::Min => "min",
        FoldOp::Max => "max",
    }
}

#[tactic(auto, unfolding(ep_tree::specs::Spelling::set_word))]
pub(crate) fn set_word(op: SetOp) -> &'static str
    ensures { result.now ≡ codes (set_word op) }
{
    match op {
        SetOp::Union => "union",
        SetOp::Intersect => "intersect",
        SetOp::Minus => "-",
    }
}

#[tactic(auto, unfolding(crate::specs::Words::sense_word))]
pub(crate) fn sense_word(sense: Sense) -> &'static str
    ensures { result.now ≡ codes (sense_word sense) }
{
    match sense {
        Sense::Minimising => "minimising",
        Sense::Maximising => "maximising",
    }
}
