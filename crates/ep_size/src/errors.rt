//! Why an instance isn't measured.

ghost use Rattle.std.specs.Prelude.{◌≡◌};
ghost use Rattle.ep_size.specs.Refusing.{of_evaluation};
ghost use Rattle.ep_size.specs.declared.errors.SizeError.TheVariants.{Memory as OutOfMemory};

use ep_base::{Limit, Memory};
use ep_eval::EvalError;
use std::alloc::{AllocError, AllocFailed};
use std::error::Error;
use std::fmt;

/// Why an instance isn't measured.
#[derive(Clone, Copy, Debug, PartialEq, Eq)]
pub enum SizeError {
    /// A limit is passed.
    Limit(Limit),
    /// An allocation was refused.
    Memory,
}

impl fmt::Display for SizeError {
    fn fmt<W: fmt::Write>(&self, f: &mut fmt::Formatter<W>) -> fmt::Result {
        match self {
            SizeError::Limit(_) => write!(f, "limit"),
            SizeError::Memory => write!(f, "memory"),
        }
    }
}

impl Error for SizeError {}

impl From<Memory> for SizeError {
    ghost from_gives = { λ _ e. e ≡ OutOfMemory };

    fn from(_refused: Memory) -> SizeError {
        SizeError::Memory
    }
}

impl From<AllocError> for SizeError {
    ghost from_gives = { λ _ e. e ≡ OutOfMemory };

    fn from(_refused: AllocError) -> SizeError {
        SizeError::Memory
    }
}

impl<T: Drop> From<AllocFailed<T>> for SizeError {
    ghost from_gives = { λ _ e. e ≡ OutOfMemory };

    fn from(_refused: AllocFailed<T>) -> SizeError {
        SizeError::Memory
    }
}

impl From<EvalError> for SizeError {
    ghost from_gives = { λ refused e. e ≡ of_evaluation refused };

    fn from(refused: EvalError) -> SizeError {
        match refused {
            EvalError::Limit(limit) => SizeError::Limit(limit),
            EvalError::Memory => SizeError::Memory,
        }
    }
}
