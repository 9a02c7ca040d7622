//! Why a text has no tokens.

ghost use Rattle.std.specs.Prelude.{◌≡◌};
ghost use Rattle.ep_lexer.specs.declared.errors.LexError.TheVariants.{Memory};

use ep_base::Place;
use std::alloc::{AllocError, AllocFailed};
use std::error::Error;
use std::fmt;

/// Why a text has no tokens.
#[derive(Clone, Copy, Debug, PartialEq, Eq)]
pub enum LexError {
    /// No token begins with the byte at this place.
    BadByte(Place),
    /// The number that begins at this place has more than 18 digits.
    LongNumber(Place),
    /// An allocation was refused.
    Memory,
}

impl fmt::Display for LexError {
    fn fmt<W: fmt::Write>(&self, f: &mut fmt::Formatter<W>) -> fmt::Result {
        match self {
            LexError::BadByte(place) => {
                write!(f, "no token begins at {}:{}", place.line, place.column)
            }
            LexError::LongNumber(place) => {
                write!(
                    f,
                    "a number of over 18 digits at {}:{}",
                    place.line, place.column
                )
            }
            LexError::Memory => write!(f, "memory"),
        }
    }
}

impl Error for LexError {}

impl From<AllocError> for LexError {
    ghost from_gives = { λ _ e. e ≡ Memory };

    fn from(_refused: AllocError) -> LexError {
        LexError::Memory
    }
}

impl<T: Drop> From<AllocFailed<T>> for LexError {
    ghost from_gives = { λ _ e. e ≡ Memory };

    fn from(_refused: AllocFailed<T>) -> LexError {
        LexError::Memory
    }
}
