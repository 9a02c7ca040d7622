//! Why an expression isn't evaluated.

use ep_base::{Limit, Memory};
use std::alloc::{AllocError, AllocFailed};
use std::error::Error;
use std::fmt;

/// Why an expression isn't evaluated.
#[derive(Clone, Copy, Debug, PartialEq, Eq)]
pub enum EvalError {
    /// A limit is passed: of size, or of the numbers that are values.
    Limit(Limit),
    /// An allocation was refused.
    Memory,
}

impl fmt::Display for EvalError {
    fn fmt<W: fmt::Write>(&self, f: &mut fmt::Formatter<W>) -> fmt::Result {
        match self {
            EvalError::Limit(_) => write!(f, "limit"),
            EvalError::Memory => write!(f, "memory"),
        }
    }
}

impl Error for EvalError {}

impl From<Memory> for EvalError {
    ghost use Rattle.std.specs.Prelude.{◌≡◌};
    ghost use Rattle.ep_eval.specs.declared.errors.EvalError.TheVariants as error;

    ghost from_gives = { λ _ given. given ≡ error.Memory };

    fn from(_refused: Memory) -> EvalError {
        EvalError::Memory
    }
}

impl From<AllocError> for EvalError {
    ghost use Rattle.std.specs.Prelude.{◌≡◌};
    ghost use Rattle.ep_eval.specs.declared.errors.EvalError.TheVariants as error;

    ghost from_gives = { λ _ given. given ≡ error.Memory };

    fn from(_refused: AllocError) -> EvalError {
        EvalError::Memory
    }
}

impl<T: Drop> From<AllocFailed<T>> for EvalError {
    ghost use Rattle.std.specs.Prelude.{◌≡◌};
    ghost use Rattle.ep_eval.specs.declared.errors.EvalError.TheVariants as error;

    ghost from_gives = { λ _ given. given ≡ error.Memory };

    fn from(_refused: AllocFailed<T>) -> EvalError {
        EvalError::Memory
    }
}
