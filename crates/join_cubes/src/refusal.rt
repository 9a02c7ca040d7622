//! Why nothing is joined.

use ep_base::{FileError, Memory};
use sat_merge::JoinError;
use sat_text::{CnfError, LogError, MOST_BYTES};
use std::alloc::{AllocError, AllocFailed};
use std::error::Error;
use std::fmt;

/// What a file is: the formula, or the proof of the cube of a number.
#[derive(Clone, Copy, Debug, PartialEq, Eq)]
pub enum Source {
    /// The formula.
    Formula,
    /// The proof of a cube.
    Proof(u64),
}

impl fmt::Display for Source {
    fn fmt<W: fmt::Write>(&self, f: &mut fmt::Formatter<W>) -> fmt::Result {
        match self {
            Source::Formula => write!(f, "the formula"),
            Source::Proof(cube) => write!(f, "the proof of cube {cube}"),
        }
    }
}

/// Why nothing is joined.
#[derive(Clone, Copy, Debug, PartialEq, Eq)]
pub enum Refusal {
    /// The words aren't those that the program takes.
    Usage,
    /// There aren't so many proofs, one for each cube.
    Cubes(u64),
    /// The file wasn't read.
    Unread(Source),
    /// The file is too long.
    TooLong(Source),
    /// The first fault of the file stands on this line, counted from 1.
    Line(Source, u64),
    /// The line of this number, counted from 1, isn't valid in the proof of a cube.
    Bad(u64, u64),
    /// The proof of a cube doesn't come to the empty clause.
    Open(u64),
    /// An allocation was refused.
    Memory,
}

impl fmt::Display for Refusal {
    fn fmt<W: fmt::Write>(&self, f: &mut fmt::Formatter<W>) -> fmt::Result {
        match self {
            Refusal::Usage => write!(
                f,
                "usage: join_cubes FORMULA PROOF.., one proof for each cube in the order of their numbers"
            ),
            Refusal::Cubes(count) => write!(f, "{count} proofs are wanted, one for each cube"),
            Refusal::Unread(source) => write!(f, "{source} can't be read"),
            Refusal::TooLong(source) => write!(f, "{source} has more than {MOST_BYTES} bytes"),
            Refusal::Line(source, line) => write!(f, "line {line} of {source} can't be read"),
            Refusal::Bad(cube, line) => write!(
                f,
                "line {line} of the proof of cube {cube} isn't valid"
            ),
            Refusal::Open(cube) => write!(
                f,
                "the proof of cube {cube} doesn't come to the empty clause"
            ),
            Refusal::Memory => write!(f, "memory"),
        }
    }
}

impl Error for Refusal {}

impl From<AllocError> for Refusal {
    fn from(_refused: AllocError) -> Refusal {
        Refusal::Memory
    }
}

impl<T: Drop> From<AllocFailed<T>> for Refusal {
    fn from(_refused: AllocFailed<T>) -> Refusal {
        Refusal::Memory
    }
}

impl From<Memory> for Refusal {
    fn from(_refused: Memory) -> Refusal {
        Refusal::Memory
    }
}

impl Refusal {
    /// Why the text of a file isn't there.
    pub fn of_file(source: Source, error: FileError) -> Refusal {
        match error {
            FileError::Failed => Refusal::Unread(source),
            FileError::Memory => Refusal::Memory,
        }
    }

    /// Why the formula can't be read.
    pub fn of_formula(error: CnfError) -> Refusal {
        match error {
            CnfError::TooLong => Refusal::TooLong(Source::Formula),
            CnfError::Bad(line) => Refusal::Line(Source::Formula, line),
            CnfError::Memory => Refusal::Memory,
        }
    }

    /// Why the proof of a cube can't be read.
    pub fn of_proof(cube: u64, error: LogError) -> Refusal {
        match error {
            LogError::TooLong => Refusal::TooLong(Source::Proof(cube)),
            LogError::Bad(line) => Refusal::Line(Source::Proof(cube), line),
            LogError::Memory => Refusal::Memory,
        }
    }

    /// Why the proof of a cube isn't joined.
    pub fn of_joining(cube: u64, error: JoinError) -> Refusal {
        match error {
            JoinError::Bad(line) => Refusal::Bad(cube, line),
            JoinError::Open => Refusal::Open(cube),
            JoinError::Memory => Refusal::Memory,
        }
    }
}
