//! Why a model and its parameters make no instance.

ghost use Rattle.std.specs.Prelude.{◌≡◌};
ghost use Rattle.ep_instance_parts.specs.Refusals.{bind_error};
ghost use Rattle.ep_instance_parts.specs.declared.errors.BindError.TheVariants.{Memory as OutOfMemory};

use ep_base::{Memory, Name, Place};
use ep_eval::EvalError;
use std::alloc::{AllocError, AllocFailed};

/// The text that a place is in.
#[derive(Clone, Copy, Debug, PartialEq, Eq)]
pub enum Source {
    Model,
    Params,
    Solution,
}

/// Why a model and its parameters make no instance.
#[derive(Debug, Drop)]
pub enum BindError {
    /// A `given` has no parameter.
    Missing(Name),
    /// A value doesn't fit its domain.
    Outside(Name),
    /// A value or a domain isn't defined.
    Undefined(Source, Place),
    /// A `where` clause doesn't hold.
    WhereFalse(u64),
    /// A limit is passed.
    Limit(ep_base::Limit),
    /// An allocation was refused.
    Memory,
}

impl From<Memory> for BindError {
    ghost from_gives = { λ _ e. e ≡ OutOfMemory };

    fn from(_refused: Memory) -> BindError {
        BindError::Memory
    }
}

impl From<AllocError> for BindError {
    ghost from_gives = { λ _ e. e ≡ OutOfMemory };

    fn from(_refused: AllocError) -> BindError {
        BindError::Memory
    }
}

impl<T: Drop> From<AllocFailed<T>> for BindError {
    ghost from_gives = { λ _ e. e ≡ OutOfMemory };

    fn from(_refused: AllocFailed<T>) -> BindError {
        BindError::Memory
    }
}

impl From<EvalError> for BindError {
    ghost from_gives = { λ refused e. e ≡ bind_error refused };

    fn from(refused: EvalError) -> BindError {
        match refused {
            EvalError::Limit(limit) => BindError::Limit(limit),
            EvalError::Memory => BindError::Memory,
        }
    }
}
