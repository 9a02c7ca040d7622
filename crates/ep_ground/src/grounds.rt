//! Grounds.

use crate::arena::Arena;
use crate::cells::Cell;
use crate::terms::Term;
use ep_base::Sense;

/// What is to be found: cells, the terms over them that have to be true, and the term that is to be
/// driven.
#[derive(Drop)]
pub struct Ground {
    /// Where the terms' nodes are.
    pub arena: Arena,
    /// The numbers that are to be found.
    pub cells: Vec<Cell>,
    /// The terms that have to be 1.
    pub clauses: Vec<Term>,
    /// The term that has to have a value, and is to be made small or great.
    pub objective: Option<(Sense, Term)>,
}
