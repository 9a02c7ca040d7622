//! Why a run stops before it has an answer.

ghost use Rattle.std.specs.Prelude.{◌≡◌};
ghost use Rattle.ep_files.specs.declared.stops.Stop.TheVariants.{Memory as OutOfMemory};

use ep_base::Memory;
use ep_print::Refusal;
use std::alloc::{AllocError, AllocFailed};

/// Why a run stops before it has an answer.
#[derive(Drop)]
pub enum Stop {
    /// It is refused.
    Refused(Refusal),
    /// An allocation was refused.
    Memory,
}

impl From<Memory> for Stop {
    ghost from_gives = { λ _ stop. stop ≡ OutOfMemory };

    fn from(_refused: Memory) -> Stop {
        Stop::Memory
    }
}

impl From<AllocError> for Stop {
    ghost from_gives = { λ _ stop. stop ≡ OutOfMemory };

    fn from(_refused: AllocError) -> Stop {
        Stop::Memory
    }
}

impl<T: Drop> From<AllocFailed<T>> for Stop {
    ghost from_gives = { λ _ stop. stop ≡ OutOfMemory };

    fn from(_refused: AllocFailed<T>) -> Stop {
        Stop::Memory
    }
}
