//! The forms of expressions.

ghost use Rattle.std.specs.Prelude.{◌≡◌};
ghost use Rattle.ep_base.specs.declared.places.Place.{Place};
ghost use Rattle.ep_tree.specs.Views.{kind_tree};
ghost use Rattle.ep_tree.specs.declared.syntax.Kind.{size-Kind};
ghost use Rattle.ep_forms.specs.Forms.{form_tree};
ghost use Rattle.ep_forms.specs.Ranks.{IsBelow};

use ep_base::{CompareOp, LexOp, Name};
use ep_tree::{BinaryOp, Domain, Expr, FoldOp, Generator, Kind, QuantOp};

/// What is made of one part.
#[derive(Clone, Copy)]
pub enum OneOp {
    Group,
    Not,
    Neg,
    Abs,
    ToInt,
    Factorial,
    Flatten,
    AllDiff,
    Fold(FoldOp),
}

/// What is made of two parts.
#[derive(Clone, Copy)]
pub enum TwoOp {
    Binary(BinaryOp),
    Compare(CompareOp),
    Lex(LexOp),
    InSet,
    Table,
}

/// How often numbers have to stand in a matrix.
#[derive(Clone, Copy)]
pub enum CountOp {
    Gcc,
    AtLeast,
    AtMost,
}

/// A quantifier but for its names.
#[derive(Clone, Copy)]
pub struct Quantifier<'e> {
    pub op: QuantOp,
    pub domain: &'e Domain,
    pub body: &'e Expr,
}

/// What a comprehension lists, and under which conditions.
#[derive(Clone, Copy)]
pub struct Listing<'e> {
    pub body: &'e Expr,
    pub conditions: &'e [Expr],
}

/// What an expression is made of. It lends its parts.
#[derive(Clone, Copy)]
pub enum Form<'e> {
    /// A number.
    Number(i64),
    /// `true` or `false`.
    Truth(bool),
    /// A name.
    Named(&'e Name),
    /// One part.
    One(OneOp, &'e Expr),
    /// Two parts.
    Two(TwoOp, &'e Expr, &'e Expr),
    /// How often numbers stand in a matrix, with two lists in the order of the text: values and counts of `gcc`, counts and
    /// values of the others.
    Counts(CountOp, &'e Expr, &'e Expr, &'e Expr),
    /// A chain of `/\`, and else one of `\/`.
    Truths(bool, &'e [Expr]),
    /// A chain of sums.
    Chain(&'e [(bool, Expr)]),
    /// `e in D`
    InDomain(&'e Expr, &'e Domain),
    /// A quantifier over names.
    Quant(Quantifier<'e>, &'e [Name]),
    /// A list in square brackets, with the domain of its indices where one is written.
    Literal(&'e [Expr], &'e Option<Box<Domain>>),
    /// A comprehension by its generators, with the domain of its indices.
    Comprehension(Listing<'e>, &'e [Generator], &'e Option<Box<Domain>>),
    /// A read of a matrix.
    Read(&'e Expr, &'e [Option<Expr>]),
}

/// The form of a kind of expression. It takes the same time for each.
#[tactic(auto, unfolding(crate::specs::Forms::form_tree, crate::specs::Forms::one_node, crate::specs::Forms::two_node, crate::specs::Forms::counts_node, crate::specs::Forms::truths_node, crate::specs::Forms::index_at, crate::specs::Ranks::IsBelow, ep_tree::specs::Views::kind_tree))]
pub fn form_of(kind: &Kind) -> Form<'_>
    ensures tree { (p : Place) → form_tree p result ≡ kind_tree p kind.now }
    ensures below { IsBelow (size-Kind kind.now) result }
{
    match kind {
        Kind::Number(number) => Form::Number(*number),
        Kind::Truth(truth) => Form::Truth(*truth),
        Kind::Named(name) => Form::Named(name),
        Kind::Group(part) => Form::One(OneOp::Group, part),
        Kind::Not(part) => Form::One(OneOp::Not, part),
        Kind::Neg(part) => Form::One(OneOp::Neg, part),
        Kind::Abs(part) => Form::One(OneOp::Abs, part),
        Kind::ToInt(part) => Form::One(OneOp::ToInt, part),
        Kind::Factorial(part) => Form::One(OneOp::Factorial, part),
        Kind::Flatten(part) => Form::One(OneOp::Flatten, part),
        Kind::AllDiff(part) => Form::One(OneOp::AllDiff, part),
        Kind::Fold(op, part) => Form::One(OneOp::Fold(*op), part),
        Kind::Binary(op, left, right) => Form::Two(TwoOp::Binary(*op), left, right),
        Kind::Compare(op, left, right) => Form::Two(TwoOp::Compare(*op), left, right),
        Kind::Lex(op, left, right) => Form::Two(TwoOp::Lex(*op), left, right),
        Kind::InSet(part, set) => Form::Two(TwoOp::InSet, part, set),
        Kind::Table(row, rows) => Form::Two(TwoOp::Table, row, rows),
        Kind::Gcc(list, values, counts) => Form::Counts(CountOp::Gcc, list, values, counts),
        Kind::AtLeast(list, counts, values) => {
            Form::Counts(CountOp::AtLeast, list, counts, values)
        }
        Kind::AtMost(list, counts, values) => Form::Counts(CountOp::AtMost, list, counts, values),
        Kind::And(parts) => Form::Truths(true, parts),
        Kind::Or(parts) => Form::Truths(false, parts),
        Kind::Add(terms) => Form::Chain(terms),
        Kind::InDomain(part, domain) => Form::InDomain(part, domain),
        Kind::Quant(op, names, domain, body) => {
            let quantifier = Quantifier {
                op: *op,
                domain,
                body,
            };
            Form::Quant(quantifier, names)
        }
        Kind::Literal(parts, domain) => Form::Literal(parts, domain),
        Kind::Comprehension(body, generators, conditions, domain) => {
            let listing = Listing { body, conditions };
            Form::Comprehension(listing, generators, domain)
        }
        Kind::Read(matrix, indices) => Form::Read(matrix, indices),
    }
}
