//! Reads expressions and domains of at most a height, each by what reads the lower ones.
#![tactic(auto)]

mod descent;
mod operands;
mod operators;
mod reads;

pub use descent::{domain, expr};
