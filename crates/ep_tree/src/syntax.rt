//! Expressions and domains as trees.

use ep_base::{CompareOp, LexOp, Name, Place};

/// An expression, with the place of its first token.
#[cycle(syntax)]
#[derive(Drop)]
pub struct Expr {
    pub place: Place,
    pub kind: Kind,
}

/// What an expression is.
#[cycle(syntax)]
#[derive(Drop)]
pub enum Kind {
    /// A number.
    Number(i64),
    /// `true` or `false`.
    Truth(bool),
    /// A name.
    Named(Name),
    /// An expression in brackets.
    Group(Box<Expr>),
    /// `!e`
    Not(Box<Expr>),
    /// `-e`
    Neg(Box<Expr>),
    /// An expression between bars.
    Abs(Box<Expr>),
    /// `toInt(e)`
    ToInt(Box<Expr>),
    /// `factorial(e)`
    Factorial(Box<Expr>),
    /// `flatten(m)`
    Flatten(Box<Expr>),
    /// A chain of sums: each part, and whether it is added rather than subtracted.
    Add(Vec<(bool, Expr)>),
    /// Two parts with an operator that takes two.
    Binary(BinaryOp, Box<Expr>, Box<Expr>),
    /// A comparison of numbers.
    Compare(CompareOp, Box<Expr>, Box<Expr>),
    /// A lexicographic comparison.
    Lex(LexOp, Box<Expr>, Box<Expr>),
    /// `e in D`
    InDomain(Box<Expr>, Box<Domain>),
    /// `e in toSet(m)`
    InSet(Box<Expr>, Box<Expr>),
    /// A chain of `/\`.
    And(Vec<Expr>),
    /// A chain of `\/`.
    Or(Vec<Expr>),
    /// A quantifier with its names.
    Quant(QuantOp, Vec<Name>, Box<Domain>, Box<Expr>),
    /// A list in square brackets, with the domain of its indices where one is written.
    Literal(Vec<Expr>, Option<Box<Domain>>),
    /// A comprehension: its expression, generators, conditions, and the domain of its indices.
    Comprehension(Box<Expr>, Vec<Generator>, Vec<Expr>, Option<Box<Domain>>),
    /// A read of a matrix; an index that is none stands for `..`.
    Read(Box<Expr>, Vec<Option<Expr>>),
    /// One matrix folded into a number.
    Fold(FoldOp, Box<Expr>),
    /// `allDiff(m)`
    AllDiff(Box<Expr>),
    /// `gcc(m, values, counts)`
    Gcc(Box<Expr>, Box<Expr>, Box<Expr>),
    /// `atleast(m, counts, values)`
    AtLeast(Box<Expr>, Box<Expr>, Box<Expr>),
    /// `atmost(m, counts, values)`
    AtMost(Box<Expr>, Box<Expr>, Box<Expr>),
    /// `table(row, rows)`
    Table(Box<Expr>, Box<Expr>),
}

/// The operators that take two parts and don't make a chain.
#[derive(Clone, Copy, Debug, PartialEq, Eq)]
pub enum BinaryOp {
    Mul,
    Div,
    Mod,
    Pow,
    Min,
    Max,
    Implies,
    Iff,
}

/// The quantifiers.
#[derive(Clone, Copy, Debug, PartialEq, Eq)]
pub enum QuantOp {
    ForAll,
    Exists,
    Sum,
}

/// The functions that fold a matrix.
#[derive(Clone, Copy, Debug, PartialEq, Eq)]
pub enum FoldOp {
    Sum,
    Product,
    And,
    Or,
    Min,
    Max,
}

/// The names of a comprehension that take the values of a domain.
#[cycle(syntax)]
#[derive(Drop)]
pub struct Generator {
    pub names: Vec<Name>,
    pub domain: Domain,
}

/// A domain, with the place of its first token.
#[cycle(syntax)]
#[derive(Drop)]
pub struct Domain {
    pub place: Place,
    pub kind: DomainKind,
}

/// What a domain is.
#[cycle(syntax)]
#[derive(Drop)]
pub enum DomainKind {
    /// `bool`
    Bool,
    /// `int` without ranges.
    Int,
    /// `int` with ranges.
    Ranges(Vec<Range>),
    /// A domain's name.
    Named(Name),
    /// A domain in brackets.
    Group(Box<Domain>),
    /// Two domains with an operation of sets.
    Set(SetOp, Box<Domain>, Box<Domain>),
    /// A matrix domain: the domains of its indices, and of its elements.
    Matrix(Vec<Domain>, Box<Domain>),
}

/// The operations on domains.
#[derive(Clone, Copy, Debug, PartialEq, Eq)]
pub enum SetOp {
    Union,
    Intersect,
    Minus,
}

/// A part of an `int` domain: one number, or all numbers between two ends, of which each may be open.
#[cycle(syntax)]
#[derive(Drop)]
pub enum Range {
    One(Expr),
    Span(Option<Expr>, Option<Expr>),
}
