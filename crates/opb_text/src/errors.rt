//! Why a text or a problem was refused.

ghost use Rattle.std.specs.Prelude.{◌≡◌};

use ep_base::{Limit, Memory};
use std::alloc::AllocFailed;

/// Why a text was refused.
#[derive(Clone, Copy, Debug, PartialEq, Eq)]
pub enum OpbError {
    /// It has more than [`crate::MOST_BYTES`] bytes.
    TooLong,
    /// The first word with which no text can go on stands on this line, counted from 1, or words
    /// are wanting at the end, and then it is the text's last line.
    Bad(u64),
    /// An allocation was refused.
    Memory,
}

impl From<Memory> for OpbError {
    ghost use Rattle.opb_text.specs.declared.errors.OpbError.TheVariants.{Memory};

    ghost from_gives = { λ _ e. e ≡ Memory };

    fn from(_refused: Memory) -> OpbError {
        OpbError::Memory
    }
}

/// Why a problem isn't taken on.
#[derive(Clone, Copy, Debug, PartialEq, Eq)]
pub enum OpbSizeError {
    /// It is over this limit.
    Limit(Limit),
    /// An allocation was refused.
    Memory,
}

impl From<Memory> for OpbSizeError {
    ghost use Rattle.opb_text.specs.declared.errors.OpbSizeError.TheVariants.{Memory};

    ghost from_gives = { λ _ e. e ≡ Memory };

    fn from(_refused: Memory) -> OpbSizeError {
        OpbSizeError::Memory
    }
}

/// Why a word could not be taken.
#[derive(Clone, Copy, Debug, PartialEq, Eq)]
pub enum Fault {
    /// An allocation was refused.
    Memory,
    /// No text goes on so.
    Wrong,
}

impl<T: Drop> From<AllocFailed<T>> for Fault {
    ghost use Rattle.opb_text.specs.declared.errors.Fault.TheVariants.{Memory};

    ghost from_gives = { λ _ e. e ≡ Memory };

    fn from(_refused: AllocFailed<T>) -> Fault {
        Fault::Memory
    }
}

/// Why the words of a text could not be taken.
#[derive(Clone, Copy, Debug, PartialEq, Eq)]
pub enum Stop {
    /// An allocation was refused.
    Memory,
    /// A word on this line is wrong.
    At(u64),
}
