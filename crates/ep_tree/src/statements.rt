//! Statements, models and parameter texts as trees.

use crate::syntax::{Domain, Expr};
use ep_base::{Name, Place, Sense};

/// A statement, with the place of its first token.
#[derive(Drop)]
pub struct Statement {
    pub place: Place,
    pub kind: StatementKind,
}

/// What a statement is.
#[derive(Drop)]
pub enum StatementKind {
    /// Parameters and their domains.
    Given(Vec<Declared>),
    /// Decision variables and their domains.
    Find(Vec<Declared>),
    /// A name for a value, with the domain that it states.
    Letting(Name, Place, Option<Domain>, Expr),
    /// A name for a domain.
    LettingDomain(Name, Place, Domain),
    /// Conditions on the parameters.
    Where(Vec<Expr>),
    /// Constraints.
    SuchThat(Vec<Expr>),
    /// What is to be as small or as great as can be.
    Objective(Sense, Expr),
    /// `branching on`, which is read and not used.
    Branching(Vec<(Name, Place)>),
    /// `heuristic`, which is read and not used.
    Heuristic(Name),
}

/// Names that are declared together, with their places and their domain.
#[derive(Drop)]
pub struct Declared {
    pub names: Vec<(Name, Place)>,
    pub domain: Domain,
}

/// What is to be as small or as great as can be.
#[derive(Drop)]
pub struct Objective {
    pub sense: Sense,
    pub e: Expr,
}

/// A model.
#[derive(Drop)]
pub struct Model {
    pub statements: Vec<Statement>,
}

/// A parameter text, or a solution text.
#[derive(Drop)]
pub struct Params {
    pub statements: Vec<Statement>,
}
