//! Why a text was not read.

ghost use Rattle.std.specs.Prelude.{◌≡◌};
ghost use Rattle.ep_parse_model.specs.declared.text_errors.TextError.TheVariants.{Memory as OutOfMemory};

use ep_base::{Memory, Place};
use std::alloc::{AllocError, AllocFailed};
use std::error::Error;
use std::fmt;

/// Why a text was not read.
#[derive(Clone, Copy, Debug, PartialEq, Eq)]
pub enum TextError {
    /// The text has too many bytes.
    TooLong,
    /// A byte begins no token.
    BadByte(Place),
    /// A number has too many digits.
    LongNumber(Place),
    /// No text goes on with a token, or the tokens end too soon.
    Syntax(Place),
    /// Only trees that are too high go on with a token.
    TooHigh(Place),
    /// An allocation was refused.
    Memory,
}

/// Writes what is wrong, and where.
fn write_at<W: fmt::Write>(f: &mut fmt::Formatter<W>, what: &str, place: &Place) -> fmt::Result {
    let line = place.line;
    let column = place.column;
    write!(f, "{what} at {line}:{column}")
}

impl fmt::Display for TextError {
    fn fmt<W: fmt::Write>(&self, f: &mut fmt::Formatter<W>) -> fmt::Result {
        match self {
            TextError::TooLong => write!(f, "too many bytes"),
            TextError::BadByte(place) => write_at(f, "no token", place),
            TextError::LongNumber(place) => write_at(f, "too many digits", place),
            TextError::Syntax(place) => write_at(f, "a fault of syntax", place),
            TextError::TooHigh(place) => write_at(f, "a tree that is too high", place),
            TextError::Memory => write!(f, "memory"),
        }
    }
}

impl Error for TextError {}

impl From<Memory> for TextError {
    ghost from_gives = { λ _ e. e ≡ OutOfMemory };

    fn from(_refused: Memory) -> TextError {
        TextError::Memory
    }
}

impl From<AllocError> for TextError {
    ghost from_gives = { λ _ e. e ≡ OutOfMemory };

    fn from(_refused: AllocError) -> TextError {
        TextError::Memory
    }
}

impl<T: Drop> From<AllocFailed<T>> for TextError {
    ghost from_gives = { λ _ e. e ≡ OutOfMemory };

    fn from(_refused: AllocFailed<T>) -> TextError {
        TextError::Memory
    }
}
