//! How a search ends, and why a call is refused.

use ep_base::Memory;
use std::error::Error;
use std::fmt;

/// How a search ended.
#[derive(Clone, Copy, Debug, PartialEq, Eq)]
pub enum Outcome {
    /// The kept values satisfy every given.
    Sat,
    /// The empty clause follows, and is the log's last step.
    Unsat,
    /// The log has as many steps with a literal as the budget allows.
    Spent,
}

/// Why a call was refused.
#[derive(Clone, Copy, Debug, PartialEq, Eq)]
pub enum SolveError {
    /// An allocation was refused.
    Memory,
    /// An earlier call on this solver was refused memory.
    Broken,
}

impl fmt::Display for SolveError {
    fn fmt<W: fmt::Write>(&self, f: &mut fmt::Formatter<W>) -> fmt::Result {
        match self {
            SolveError::Memory => write!(f, "memory"),
            SolveError::Broken => write!(f, "an earlier call was refused memory"),
        }
    }
}

impl Error for SolveError {}

impl From<Memory> for SolveError {
    ghost use Rattle.std.specs.Prelude.{◌≡◌};
    ghost use Rattle.sat_search.specs.declared.outcome.SolveError.TheVariants as errors;

    ghost from_gives = { λ _ e. e ≡ errors.Memory };

    fn from(_refused: Memory) -> SolveError {
        SolveError::Memory
    }
}
