//! Shared terms over cells, and grounds: the clauses and the objective that an instance asks for.
#![tactic(auto)]

mod arena;
mod cells;
mod grounds;
mod laws;
mod nodes;
mod terms;

pub use arena::{Arena, InternError};
pub use cells::Cell;
pub use grounds::Ground;
pub use laws::{
    a_term_has_the_value_of_its_node, a_term_reaches_as_far_as_its_node,
    equal_trees_are_equal_terms,
};
pub use nodes::Node;
pub use terms::Term;
