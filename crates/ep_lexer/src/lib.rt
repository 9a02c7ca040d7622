//! Reads a text into its tokens, in one pass over its bytes.
#![tactic(auto)]

mod bytes;
mod cursor;
mod errors;
mod numbers;
mod scan;
mod symbols;

pub use errors::LexError;
pub use scan::lex;
