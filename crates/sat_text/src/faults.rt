//! Why a part of a text could not be read.

ghost use Rattle.std.specs.Prelude.{◌≡◌};
ghost use Rattle.sat_text.specs.declared.faults.Fault.TheVariants.{Memory};

use std::alloc::{AllocError, AllocFailed};

/// Why a part could not be read.
#[derive(Clone, Copy, Debug, PartialEq, Eq)]
pub enum Fault {
    /// An allocation was refused.
    Memory,
    /// The part isn't in the grammar.
    Wrong,
}

impl From<AllocError> for Fault {
    ghost from_gives = { λ _ e. e ≡ Memory };

    fn from(_refused: AllocError) -> Fault {
        Fault::Memory
    }
}

impl<T: Drop> From<AllocFailed<T>> for Fault {
    ghost from_gives = { λ _ e. e ≡ Memory };

    fn from(_refused: AllocFailed<T>) -> Fault {
        Fault::Memory
    }
}

impl From<ep_base::Memory> for Fault {
    ghost from_gives = { λ _ e. e ≡ Memory };

    fn from(_refused: ep_base::Memory) -> Fault {
        Fault::Memory
    }
}

/// Why the clauses of a formula could not be read.
#[derive(Clone, Copy, Debug, PartialEq, Eq)]
pub enum Stop {
    /// An allocation was refused.
    Memory,
    /// A word on this line is wrong.
    At(u64),
    /// Words are wanting.
    Ends,
}

impl<T: Drop> From<AllocFailed<T>> for Stop {
    ghost use Rattle.sat_text.specs.declared.faults.Stop.TheVariants.{Memory};

    ghost from_gives = { λ _ e. e ≡ Memory };

    fn from(_refused: AllocFailed<T>) -> Stop {
        Stop::Memory
    }
}

impl From<ep_base::Memory> for Stop {
    ghost use Rattle.sat_text.specs.declared.faults.Stop.TheVariants.{Memory};

    ghost from_gives = { λ _ e. e ≡ Memory };

    fn from(_refused: ep_base::Memory) -> Stop {
        Stop::Memory
    }
}
