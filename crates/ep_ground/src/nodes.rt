//! The nodes of terms.

use crate::terms::Term;
use ep_base::{CompareOp, Key, LexOp, Runs};

/// A number, a cell, or an operation on terms. The number 1 stands for true, and a part that has to
/// be true is so where it is 1.
///
/// An integer node has no value where a part has none. A Boolean node is 0 there.
#[derive(Debug, PartialEq, Eq, Hash, Drop)]
pub enum Node {
    /// A number.
    Const(i64),
    /// What has no value.
    Undefined,
    /// The cell of this number.
    Cell(u64),
    /// A number and the sum of parts, each multiplied by its coefficient.
    Add(i64, Vec<(i64, Term)>),
    Mul(Term, Term),
    /// The floor of the quotient, without a value for a divisor of 0.
    Div(Term, Term),
    /// The remainder, with the sign of the divisor, without a value for a divisor of 0.
    Mod(Term, Term),
    Pow(Term, u64),
    Abs(Term),
    Min(Vec<Term>),
    Max(Vec<Term>),
    /// The part at the place of the first key that equals the indices, without a value where there
    /// is none.
    Pick(Vec<Term>, Vec<Key>, Vec<Term>),
    /// The first term, where all the others have values too.
    Whole(Term, Vec<Term>),
    /// `Div`, and 0 where it has no value.
    SafeDiv(Term, Term),
    /// `Mod`, and 0 where it has no value.
    SafeMod(Term, Term),
    /// `Pick`, and the first part, or else 0, where it has no value.
    SafePick(Vec<Term>, Vec<Key>, Vec<Term>),
    Compare(CompareOp, Term, Term),
    Lex(LexOp, Vec<Term>, Vec<Term>),
    /// Whether a term is one of these numbers.
    Member(Term, Runs),
    Not(Term),
    And(Vec<Term>),
    Or(Vec<Term>),
    /// Whether both are true or neither is.
    Iff(Term, Term),
    AllDiff(Vec<Term>),
    /// Whether each of these numbers stands among the terms as often as its count says.
    Gcc(Vec<Term>, Vec<i64>, Vec<Term>),
    /// Whether each of the second numbers stands among the terms at least as often as its count, of
    /// the first numbers, says.
    AtLeast(Vec<Term>, Vec<i64>, Vec<i64>),
    /// The same with "at most".
    AtMost(Vec<Term>, Vec<i64>, Vec<i64>),
    /// Whether the terms are one of these rows.
    Table(Vec<Term>, Vec<Key>),
}
