//! The operators and words that the language's trees and the stages behind them share.

ghost use Rattle.std.specs.Prelude.{◌≡◌};
ghost use Rattle.ep_base.specs.Numbers.{contrary_comparison};

/// Which way an objective is to be driven.
#[derive(Clone, Copy, Debug, PartialEq, Eq)]
pub enum Sense {
    Minimising,
    Maximising,
}

/// A comparison of two numbers.
#[derive(Clone, Copy, Debug, PartialEq, Eq, Hash)]
pub enum CompareOp {
    Equal,
    NotEqual,
    Less,
    AtMost,
    Greater,
    AtLeast,
}

impl CompareOp {
    /// The comparison that holds exactly where this one doesn't.
    #[tactic(auto, unfolding(crate::specs::Numbers::contrary_comparison))]
    pub fn contrary(self) -> CompareOp
        ensures { result ≡ contrary_comparison self }
    {
        match self {
            CompareOp::Equal => CompareOp::NotEqual,
            CompareOp::NotEqual => CompareOp::Equal,
            CompareOp::Less => CompareOp::AtLeast,
            CompareOp::AtMost => CompareOp::Greater,
            CompareOp::Greater => CompareOp::AtMost,
            CompareOp::AtLeast => CompareOp::Less,
        }
    }
}

/// A lexicographic comparison of two lists of numbers.
#[derive(Clone, Copy, Debug, PartialEq, Eq, Hash)]
pub enum LexOp {
    Less,
    AtMost,
    Greater,
    AtLeast,
}

/// A limit of the program on an instance.
#[derive(Clone, Copy, Debug, PartialEq, Eq)]
pub enum Limit {
    /// The unrolled size.
    Size,
    /// The numbers that a subexpression reaches.
    Reach,
    /// The weight.
    Weight,
}
