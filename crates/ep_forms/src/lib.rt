//! Expressions by what they are made of: a few forms in place of many kinds.
#![tactic(auto)]

mod forms;

pub use forms::{CountOp, Form, Listing, OneOp, Quantifier, TwoOp, form_of};
