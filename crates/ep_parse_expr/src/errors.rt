//! Why no expression or domain was read.

ghost use Rattle.std.specs.Prelude.{◌≡◌};
ghost use Rattle.ep_parse_expr.specs.declared.errors.ParseError.TheVariants.{Memory as OutOfMemory};

use ep_base::Memory;
use std::alloc::{AllocError, AllocFailed};
use std::error::Error;
use std::fmt;

/// Why no expression or domain was read. A token is named by its number, and the end by the number of
/// tokens.
#[derive(Clone, Copy, Debug, PartialEq, Eq)]
pub enum ParseError {
    /// Nothing goes on with this token, and the tokens before it are nothing whole.
    Syntax(usize),
    /// Only trees that are too high go on with this token.
    TooHigh(usize),
    /// An allocation was refused.
    Memory,
}

impl fmt::Display for ParseError {
    fn fmt<W: fmt::Write>(&self, f: &mut fmt::Formatter<W>) -> fmt::Result {
        match self {
            ParseError::Syntax(number) => write!(f, "a fault of syntax at token {number}"),
            ParseError::TooHigh(number) => write!(f, "a tree that is too high at token {number}"),
            ParseError::Memory => write!(f, "memory"),
        }
    }
}

impl Error for ParseError {}

impl From<Memory> for ParseError {
    ghost from_gives = { λ _ e. e ≡ OutOfMemory };

    fn from(_refused: Memory) -> ParseError {
        ParseError::Memory
    }
}

impl From<AllocError> for ParseError {
    ghost from_gives = { λ _ e. e ≡ OutOfMemory };

    fn from(_refused: AllocError) -> ParseError {
        ParseError::Memory
    }
}

impl<T: Drop> From<AllocFailed<T>> for ParseError {
    ghost from_gives = { λ _ e. e ≡ OutOfMemory };

    fn from(_refused: AllocFailed<T>) -> ParseError {
        ParseError::Memory
    }
}
