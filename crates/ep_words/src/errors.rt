//! Why words were not read as a job.

ghost use Rattle.std.specs.Prelude.{◌≡◌, ◌≢◌, ◌↔◌};
ghost use Rattle.clap.specs.Values.{kind_of};
ghost use Rattle.clap.specs.declared.error.kind.ErrorKind.TheVariants as kind;
ghost use Rattle.ep_words.specs.declared.errors.WordsError.TheVariants.{Usage, Memory as OutOfMemory};

use clap::error::ErrorKind;
use ep_base::Memory;
use std::alloc::{AllocError, AllocFailed};
use std::error::Error;
use std::fmt;

/// Why words were not read as a job.
#[derive(Clone, Copy, Debug, PartialEq, Eq)]
pub enum WordsError {
    /// The words are no command.
    Usage,
    /// An allocation was refused.
    Memory,
}

impl fmt::Display for WordsError {
    fn fmt<W: fmt::Write>(&self, f: &mut fmt::Formatter<W>) -> fmt::Result {
        match self {
            WordsError::Usage => write!(f, "no command"),
            WordsError::Memory => write!(f, "memory"),
        }
    }
}

impl Error for WordsError {}

impl From<Memory> for WordsError {
    ghost from_gives = { λ _ e. e ≡ OutOfMemory };

    fn from(_refused: Memory) -> WordsError {
        WordsError::Memory
    }
}

impl From<AllocError> for WordsError {
    ghost from_gives = { λ _ e. e ≡ OutOfMemory };

    fn from(_refused: AllocError) -> WordsError {
        WordsError::Memory
    }
}

impl<T: Drop> From<AllocFailed<T>> for WordsError {
    ghost from_gives = { λ _ e. e ≡ OutOfMemory };

    fn from(_refused: AllocFailed<T>) -> WordsError {
        WordsError::Memory
    }
}

impl From<clap::Error> for WordsError {
    ghost from_gives = { λ error e. (e ≡ Usage) ↔ (kind_of error ≢ kind.OutOfMemory) };

    fn from(error: clap::Error) -> WordsError {
        match error.kind() {
            ErrorKind::OutOfMemory => WordsError::Memory,
            _ => WordsError::Usage,
        }
    }
}
