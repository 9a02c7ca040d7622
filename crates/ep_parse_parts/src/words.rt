//! What words and symbols mean where a tree is read.

ghost use Rattle.std.specs.Prelude.{◌≡◌, option_map};
ghost use Rattle.ep_parse_parts.specs.DomainReaders.{domain_openings, set_words};
ghost use Rattle.ep_parse_parts.specs.OperandReaders.{openings};
ghost use Rattle.ep_parse_parts.specs.Openings.{call_openings, comparison_of, domain_opening_of, function_openings, level_of, opening_of, right_of, symbol_openings, words_of};
ghost use Rattle.ep_parse_parts.specs.OperatorReaders.{comparison_words, implication_words, power_words, product_words, sign_words};
ghost use Rattle.ep_parse_parts.specs.Readers.{looked_up};

use ep_base::{CompareOp, LexOp};
use ep_tree::{BinaryOp, FoldOp, QuantOp, SetOp};

/// How tightly a place in the text binds, loosest first.
#[derive(Clone, Copy)]
pub enum Level {
    Implications,
    Disjunctions,
    Conjunctions,
    Comparisons,
    Sums,
    Products,
    Powers,
    Unaries,
}

/// Where a domain stands: where a matrix domain may, where set operations may, or where neither may.
#[derive(Clone, Copy)]
pub enum DomainLevel {
    Domains,
    SetOperations,
    SetParts,
}

/// A function with one part.
#[derive(Clone, Copy)]
pub enum OnePart {
    ToInt,
    Factorial,
    Flatten,
    Fold(FoldOp),
    AllDiff,
}

/// A function with three parts.
#[derive(Clone, Copy)]
pub enum ThreeParts {
    Gcc,
    AtLeast,
    AtMost,
}

/// What a word begins.
#[derive(Clone, Copy)]
pub enum Opening {
    Truth(bool),
    Bracket,
    Group,
    Bar,
    Negation,
    Minus,
    Quantifier(QuantOp),
    /// A quantifier, or a function.
    Sum,
    One(OnePart),
    /// A function with one part or two.
    Least,
    /// A function with one part or two.
    Greatest,
    Table,
    Three(ThreeParts),
}

/// What a word begins in a domain.
#[derive(Clone, Copy)]
pub enum DomainOpening {
    Bool,
    Int,
    Group,
}

/// What an operator of comparisons compares.
#[derive(Clone, Copy)]
pub enum Comparison {
    Numbers(CompareOp),
    Lists(LexOp),
    Set,
}

/// What a word begins in an expression.
#[tactic(auto, using(crate::proofs::OpeningTables::found_symbol, crate::proofs::OpeningTables::found_function, crate::proofs::OpeningTables::found_call))]
pub fn find_opening(word: &[u8]) -> Option<Opening>
    ensures meant { option_map opening_of result ≡ looked_up openings word.now }
{
    if let Some(symbol) = find_symbol(word) {
        return Some(symbol);
    }
    if let Some(function) = find_function(word) {
        return Some(function);
    }
    find_call(word)
}

/// What a truth value or a symbol begins in an expression.
#[tactic(auto, unfolding(crate::specs::Readers::looked_up))]
fn find_symbol(word: &[u8]) -> Option<Opening>
    ensures meant { option_map opening_of result ≡ looked_up symbol_openings word.now }
{
    match word {
        b"true" => Some(Opening::Truth(true)),
        b"false" => Some(Opening::Truth(false)),
        b"[" => Some(Opening::Bracket),
        b"(" => Some(Opening::Group),
        b"|" => Some(Opening::Bar),
        b"!" => Some(Opening::Negation),
        b"-" => Some(Opening::Minus),
        _ => None,
    }
}

/// What a quantifier or a function of one part begins.
#[tactic(auto, unfolding(crate::specs::Readers::looked_up))]
fn find_function(word: &[u8]) -> Option<Opening>
    ensures meant { option_map opening_of result ≡ looked_up function_openings word.now }
{
    match word {
        b"forAll" => Some(Opening::Quantifier(QuantOp::ForAll)),
        b"exists" => Some(Opening::Quantifier(QuantOp::Exists)),
        b"sum" => Some(Opening::Sum),
        b"toInt" => Some(Opening::One(OnePart::ToInt)),
        b"factorial" => Some(Opening::One(OnePart::Factorial)),
        b"flatten" => Some(Opening::One(OnePart::Flatten)),
        b"product" => Some(Opening::One(OnePart::Fold(FoldOp::Product))),
        _ => None,
    }
}

/// What another function begins.
#[tactic(auto, unfolding(crate::specs::Readers::looked_up))]
fn find_call(word: &[u8]) -> Option<Opening>
    ensures meant { option_map opening_of result ≡ looked_up call_openings word.now }
{
    match word {
        b"and" => Some(Opening::One(OnePart::Fold(FoldOp::And))),
        b"or" => Some(Opening::One(OnePart::Fold(FoldOp::Or))),
        b"allDiff" => Some(Opening::One(OnePart::AllDiff)),
        b"min" => Some(Opening::Least),
        b"max" => Some(Opening::Greatest),
        b"table" => Some(Opening::Table),
        b"gcc" => Some(Opening::Three(ThreeParts::Gcc)),
        b"atleast" => Some(Opening::Three(ThreeParts::AtLeast)),
        b"atmost" => Some(Opening::Three(ThreeParts::AtMost)),
        _ => None,
    }
}

/// What a word begins in a domain.
#[tactic(auto, unfolding(crate::specs::Readers::looked_up))]
pub fn find_domain_opening(word: &[u8]) -> Option<DomainOpening>
    ensures meant { option_map domain_opening_of result ≡ looked_up domain_openings word.now }
{
    match word {
        b"bool" => Some(DomainOpening::Bool),
        b"int" => Some(DomainOpening::Int),
        b"(" => Some(DomainOpening::Group),
        _ => None,
    }
}

/// What an operator of powers is.
#[tactic(auto, unfolding(crate::specs::Readers::looked_up))]
pub(crate) fn find_power(word: &[u8]) -> Option<BinaryOp>
    ensures meant { result ≡ looked_up power_words word.now }
{
    match word {
        b"**" => Some(BinaryOp::Pow),
        _ => None,
    }
}

/// What an operator of products is.
#[tactic(auto, unfolding(crate::specs::Readers::looked_up))]
pub(crate) fn find_product(word: &[u8]) -> Option<BinaryOp>
    ensures meant { result ≡ looked_up product_words word.now }
{
    match word {
        b"*" => Some(BinaryOp::Mul),
        b"/" => Some(BinaryOp::Div),
        b"%" => Some(BinaryOp::Mod),
        _ => None,
    }
}

/// What an arrow is.
#[tactic(auto, unfolding(crate::specs::Readers::looked_up))]
pub(crate) fn find_arrow(word: &[u8]) -> Option<BinaryOp>
    ensures meant { result ≡ looked_up implication_words word.now }
{
    match word {
        b"->" => Some(BinaryOp::Implies),
        b"<->" => Some(BinaryOp::Iff),
        _ => None,
    }
}

/// Whether a sign adds.
#[tactic(auto, unfolding(crate::specs::Readers::looked_up))]
pub fn find_sign(word: &[u8]) -> Option<bool>
    ensures meant { result ≡ looked_up sign_words word.now }
{
    match word {
        b"+" => Some(true),
        b"-" => Some(false),
        _ => None,
    }
}

/// What an operator of comparisons compares.
#[tactic(auto, unfolding(crate::specs::Readers::looked_up))]
pub fn find_comparison(word: &[u8]) -> Option<Comparison>
    ensures meant { option_map comparison_of result ≡ looked_up comparison_words word.now }
{
    match word {
        b"=" => Some(Comparison::Numbers(CompareOp::Equal)),
        b"!=" => Some(Comparison::Numbers(CompareOp::NotEqual)),
        b"<" => Some(Comparison::Numbers(CompareOp::Less)),
        b"<=" => Some(Comparison::Numbers(CompareOp::AtMost)),
        b">" => Some(Comparison::Numbers(CompareOp::Greater)),
        b">=" => Some(Comparison::Numbers(CompareOp::AtLeast)),
        b"<lex" => Some(Comparison::Lists(LexOp::Less)),
        b"<=lex" => Some(Comparison::Lists(LexOp::AtMost)),
        b">lex" => Some(Comparison::Lists(LexOp::Greater)),
        b">=lex" => Some(Comparison::Lists(LexOp::AtLeast)),
        b"in" => Some(Comparison::Set),
        _ => None,
    }
}

/// What an operation on domains is.
#[tactic(auto, unfolding(crate::specs::Readers::looked_up))]
pub fn find_set_operation(word: &[u8]) -> Option<SetOp>
    ensures meant { result ≡ looked_up set_words word.now }
{
    match word {
        b"union" => Some(SetOp::Union),
        b"intersect" => Some(SetOp::Intersect),
        b"-" => Some(SetOp::Minus),
        _ => None,
    }
}

/// A chain of operators of two parts that nests to the left.
#[derive(Clone, Copy)]
pub enum Chain {
    Powers,
    Products,
    Arrows,
}

impl Chain {
    /// The operator that a word is, if it is one of the chain's.
    pub fn operator(self, word: &[u8]) -> Option<BinaryOp>
        ensures meant { result ≡ looked_up (words_of self) word.now }
    {
        match self {
            Chain::Powers => find_power(word),
            Chain::Products => find_product(word),
            Chain::Arrows => find_arrow(word),
        }
    }

    /// The level of a right part.
    pub fn right(self) -> Level
        ensures level { level_of result ≡ right_of self }
    {
        match self {
            Chain::Powers => Level::Unaries,
            Chain::Products => Level::Powers,
            Chain::Arrows => Level::Disjunctions,
        }
    }
}
