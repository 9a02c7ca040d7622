//! Types and categories: whether a text is well formed.
#![tactic(auto)]

mod check;
mod expressions;
mod names;
mod statements;
mod typed;

pub use check::{check_model, check_params};
pub use ep_types_rules::StaticError;
pub use typed::{Typed, TypedParams};
