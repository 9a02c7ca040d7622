//! Flat constraints. A variable is a number, from 0 on.

use ep_base::{CompareOp, Key, LexOp, Runs, Sense};

/// Variables with domains, and constraints on them.
#[derive(Debug, Drop)]
pub struct Flat {
    /// The domain of each variable.
    pub vars: Vec<Runs>,
    /// What has to hold.
    pub cons: Vec<Con>,
}

/// A constraint, or the variable that is 1 exactly where it holds, and else 0.
#[derive(Debug, Drop)]
pub struct Con {
    /// The variable that says whether the constraint holds; none where it has to hold.
    pub truth: Option<u64>,
    /// The constraint.
    pub kind: ConKind,
}

/// A constraint on variables. The result of a function stands first. A variable is true where it is 1.
#[derive(Debug, Drop)]
pub enum ConKind {
    /// One of these is so: the variable is true, or it isn't.
    Clause(Vec<(bool, u64)>),
    /// Each is true.
    All(Vec<u64>),
    /// Both are true, or neither is.
    Same(u64, u64),
    /// The sum of the variables, each multiplied by its coefficient, compares so with the number.
    Linear(Vec<(i64, u64)>, CompareOp, i64),
    /// The variable is one of these numbers.
    Member(u64, Runs),
    Product(u64, u64, u64),
    /// The floor of the quotient, and 0 for a divisor of 0.
    Quotient(u64, u64, u64),
    /// The remainder, and 0 for a divisor of 0.
    Remainder(u64, u64, u64),
    /// The power with this exponent.
    Power(u64, u64, u64),
    Absolute(u64, u64),
    Least(u64, Vec<u64>),
    Greatest(u64, Vec<u64>),
    /// The part at the place of the first key that equals the indices; where there is none the first
    /// part, or 0.
    Element(u64, Vec<u64>, Vec<Key>, Vec<u64>),
    AllDiff(Vec<u64>),
    /// Each of these numbers stands among the variables as often as its count says.
    Gcc(Vec<u64>, Vec<i64>, Vec<u64>),
    /// Each of the second numbers stands among the variables at least as often as its count, of the
    /// first numbers, says.
    AtLeast(Vec<u64>, Vec<i64>, Vec<i64>),
    /// The same with "at most".
    AtMost(Vec<u64>, Vec<i64>, Vec<i64>),
    /// The variables are one of these rows.
    Table(Vec<u64>, Vec<Key>),
    Lex(LexOp, Vec<u64>, Vec<u64>),
}

/// Which variables stand for cells, and which one is to be driven.
#[derive(Debug, Drop)]
pub struct CellMap {
    /// The variable of each cell.
    pub cells: Vec<u64>,
    /// The variable of the objective, where there is one.
    pub objective: Option<(Sense, u64)>,
}
