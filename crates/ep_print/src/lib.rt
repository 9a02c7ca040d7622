//! The texts that the program writes: values, answers, models, and lines of refusal.
#![tactic(auto)]

mod answers;
mod expressions;
mod indices;
mod lines;
mod listings;
mod numbers;
mod operators;
mod refusals;
mod spaced;
mod statements;
mod texts;
mod values;

pub use answers::{Answer, print_answer};
pub use lines::refusal_line;
pub use listings::{Listing, ListingEnd, print_listing};
pub use refusals::{Refusal, TextFile};
pub use texts::print_model;
pub use values::print_value;
