//! Copies of trees.
#![tactic(auto)]

mod copying;

pub use copying::copy_expr;
