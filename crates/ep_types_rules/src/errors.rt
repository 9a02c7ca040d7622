//! Why a text isn't well formed.

ghost use Rattle.std.specs.Prelude.{◌≡◌};
ghost use Rattle.ep_types_rules.specs.declared.errors.StaticError.TheVariants.{Memory as OutOfMemory};

use ep_base::{Memory, Name, Place};
use std::alloc::{AllocError, AllocFailed};
use std::error::Error;
use std::fmt;

/// A fault of types or categories, or want of memory.
#[derive(Debug, Drop)]
pub enum StaticError {
    /// A name that isn't declared before it is used.
    UnknownName(Place, Name),
    /// A declaration of a name that is declared before.
    Redeclared(Place, Name),
    /// A node or a domain whose parts have types that it doesn't take, a clause that isn't Boolean, an
    /// objective that isn't integer, a domain's name as an expression, or another name as a domain.
    IllTyped(Place),
    /// A decision variable's name where none may stand.
    WrongCategory(Place),
    /// Plain `int`, or a domain with an open range, where neither may stand.
    OpenDomain(Place),
    /// An allocation was refused.
    Memory,
}

impl fmt::Display for StaticError {
    fn fmt<W: fmt::Write>(&self, f: &mut fmt::Formatter<W>) -> fmt::Result {
        match self {
            StaticError::UnknownName(_, name) => write!(f, "unknown name {name}"),
            StaticError::Redeclared(_, name) => write!(f, "name {name} declared again"),
            StaticError::IllTyped(_) => write!(f, "ill typed"),
            StaticError::WrongCategory(_) => write!(f, "decision variable where none may stand"),
            StaticError::OpenDomain(_) => write!(f, "open domain where none may stand"),
            StaticError::Memory => write!(f, "memory"),
        }
    }
}

impl Error for StaticError {}

impl From<Memory> for StaticError {
    ghost from_gives = { λ _ e. e ≡ OutOfMemory };

    fn from(_refused: Memory) -> StaticError {
        StaticError::Memory
    }
}

impl From<AllocError> for StaticError {
    ghost from_gives = { λ _ e. e ≡ OutOfMemory };

    fn from(_refused: AllocError) -> StaticError {
        StaticError::Memory
    }
}

impl<T: Drop> From<AllocFailed<T>> for StaticError {
    ghost from_gives = { λ _ e. e ≡ OutOfMemory };

    fn from(_refused: AllocFailed<T>) -> StaticError {
        StaticError::Memory
    }
}
