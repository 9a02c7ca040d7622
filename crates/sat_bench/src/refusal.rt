//! Why there is no answer.

use ep_base::Memory;
use sat_search::SolveError;
use sat_text::{CnfError, MOST_BYTES};
use std::alloc::{AllocError, AllocFailed};
use std::error::Error;
use std::fmt;

/// Why there is no answer.
#[derive(Clone, Copy, Debug, PartialEq, Eq)]
pub enum Refusal {
    /// The words aren't those that the program takes.
    Usage,
    /// The file wasn't read.
    Unread,
    /// The file is too long.
    TooLong,
    /// The first fault of the file stands on this line, counted from 1.
    Line(u64),
    /// The log wasn't written.
    Unwritten,
    /// An allocation was refused.
    Memory,
}

impl fmt::Display for Refusal {
    fn fmt<W: fmt::Write>(&self, f: &mut fmt::Formatter<W>) -> fmt::Result {
        match self {
            Refusal::Usage => write!(f, "usage: sat_bench FILE CONFLICTS [LOG]"),
            Refusal::Unread => write!(f, "the file can't be read"),
            Refusal::TooLong => write!(f, "the file has more than {MOST_BYTES} bytes"),
            Refusal::Line(line) => write!(f, "line {line} of the file isn't in the DIMACS format"),
            Refusal::Unwritten => write!(f, "the log can't be written"),
            Refusal::Memory => write!(f, "memory"),
        }
    }
}

impl Error for Refusal {}

impl From<AllocError> for Refusal {
    fn from(_refused: AllocError) -> Refusal {
        Refusal::Memory
    }
}

impl<T: Drop> From<AllocFailed<T>> for Refusal {
    fn from(_refused: AllocFailed<T>) -> Refusal {
        Refusal::Memory
    }
}

impl From<Memory> for Refusal {
    fn from(_refused: Memory) -> Refusal {
        Refusal::Memory
    }
}

impl From<SolveError> for Refusal {
    fn from(_refused: SolveError) -> Refusal {
        Refusal::Memory
    }
}

impl From<CnfError> for Refusal {
    fn from(refused: CnfError) -> Refusal {
        match refused {
            CnfError::TooLong => Refusal::TooLong,
            CnfError::Bad(line) => Refusal::Line(line),
            CnfError::Memory => Refusal::Memory,
        }
    }
}
