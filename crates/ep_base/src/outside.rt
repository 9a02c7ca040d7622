//! The outside as every call above sees it: devices that hold files and devices that take bytes.

ghost use Rattle.std.specs.Prelude.{◌≡◌, ◌+◌, ◌^◌, ◌<◌, ◌≤◌, ℕ, List, length, take, Option, option_map, IfOk, OnOk, OnErr, IsErrOf};
ghost use Rattle.ep_base.specs.Outside.{Held, with_bytes, ReadGives, SameElsewhere, Rose, with_more, TookPart};
ghost use Rattle.ep_base.specs.declared.outside.FileError.TheVariants.{Memory as FileMemory};
ghost use Rattle.ep_base.specs.declared.outside.PutError.TheVariants.{Memory as PutMemory};

use std::alloc::{AllocError, AllocFailed, Global};
use std::error::Error;
use std::fmt;

/// Why a file was not read or not written.
#[derive(Clone, Copy, Debug, PartialEq, Eq)]
pub enum FileError {
    /// The device failed, and has counted it.
    Failed,
    /// An allocation was refused.
    Memory,
}

impl fmt::Display for FileError {
    fn fmt<W: fmt::Write>(&self, f: &mut fmt::Formatter<W>) -> fmt::Result {
        match self {
            FileError::Failed => write!(f, "the device of files failed"),
            FileError::Memory => write!(f, "memory"),
        }
    }
}

impl Error for FileError {}

impl From<AllocError> for FileError {
    ghost from_gives = { λ _ error. error ≡ FileMemory };

    fn from(_refused: AllocError) -> FileError {
        FileError::Memory
    }
}

impl<T: Drop> From<AllocFailed<T>> for FileError {
    ghost from_gives = { λ _ error. error ≡ FileMemory };

    fn from(_refused: AllocFailed<T>) -> FileError {
        FileError::Memory
    }
}

/// Why a piece was not taken.
#[derive(Clone, Copy, Debug, PartialEq, Eq)]
pub enum PutError {
    /// The sink failed, and has counted it.
    Failed,
    /// An allocation was refused.
    Memory,
}

impl fmt::Display for PutError {
    fn fmt<W: fmt::Write>(&self, f: &mut fmt::Formatter<W>) -> fmt::Result {
        match self {
            PutError::Failed => write!(f, "the sink failed"),
            PutError::Memory => write!(f, "memory"),
        }
    }
}

impl Error for PutError {}

impl From<AllocError> for PutError {
    ghost from_gives = { λ _ error. error ≡ PutMemory };

    fn from(_refused: AllocError) -> PutError {
        PutError::Memory
    }
}

impl<T: Drop> From<AllocFailed<T>> for PutError {
    ghost from_gives = { λ _ error. error ≡ PutMemory };

    fn from(_refused: AllocFailed<T>) -> PutError {
        PutError::Memory
    }
}

/// A device that holds bytes under names.
pub trait Files {
    /// The bytes under each name, or nothing where the device doesn't tell.
    ghost held: { Self → Option Held };

    /// How many faults the device has counted.
    ghost faults: { Self → ℕ };

    /// Reads the first `at_most` bytes under a name. None says that there is no such name; only a device
    /// that tells its contents answers it, and to any other a missing name is a fault.
    fn read(
        &mut self,
        alloc: Global,
        name: &str,
        at_most: u64,
    ) -> Result<Option<Vec<u8>>, FileError>
        ensures gives { IfOk result (λ answer.
            ReadGives (held self.old) name.now at_most (option_map (λ bytes. bytes.items) answer)) }
        ensures unchanged { held self.new ≡ held self.old }
        ensures failed { IsErrOf result FileError.Failed → Rose (faults self.old) (faults self.new) }
        ensures never_falls { faults self.old ≤ faults self.new }
        ensures fits { faults self.new < 2 ^ 64 };

    /// Makes a name hold exactly these bytes. After `Failed` the name may hold anything; every other name
    /// holds what it held, whatever the answer.
    fn write(&mut self, name: &str, bytes: &[u8]) -> Result<(), FileError>
        ensures written { OnOk result
            (held self.new ≡ option_map (with_bytes name.now bytes.now) (held self.old)) }
        ensures elsewhere { IsErrOf result FileError.Failed
            → SameElsewhere name.now (held self.old) (held self.new) }
        ensures unchanged { IsErrOf result FileError.Memory → held self.new ≡ held self.old }
        ensures failed { IsErrOf result FileError.Failed → Rose (faults self.old) (faults self.new) }
        ensures never_falls { faults self.old ≤ faults self.new }
        ensures fits { faults self.new < 2 ^ 64 };
}

/// A device that takes bytes.
pub trait Sink {
    /// All bytes that were taken, in order, or nothing where the sink doesn't tell.
    ghost taken: { Self → Option (List ℕ) };

    /// How many faults the sink has counted.
    ghost faults: { Self → ℕ };

    /// Takes some first bytes of a piece, at least one, and says how many.
    fn put(&mut self, piece: &[u8]) -> Result<usize, PutError>
        requires { 0 < length piece.now }
        ensures some { IfOk result (λ count. 1 ≤ count) }
        ensures within { IfOk result (λ count. count ≤ length piece.now) }
        ensures takes { IfOk result (λ count.
            taken self.new ≡ with_more (take count piece.now) (taken self.old)) }
        ensures refused { OnErr result (taken self.new ≡ taken self.old) }
        ensures failed { IsErrOf result PutError.Failed → Rose (faults self.old) (faults self.new) }
        ensures never_falls { faults self.old ≤ faults self.new }
        ensures fits { faults self.new < 2 ^ 64 };
}

/// Puts all the bytes, in order. A refusal of the sink is passed on, and a first part of the bytes was
/// taken before it. Takes no memory of its own, and makes at most one put for each byte.
pub fn put_all<K: Sink>(sink: &mut K, bytes: &[u8]) -> Result<(), PutError>
    ensures all { OnOk result (K.taken sink.new ≡ with_more bytes.now (K.taken sink.old)) }
    ensures part { OnErr result (TookPart bytes.now (K.taken sink.old) (K.taken sink.new)) }
    ensures failed { IsErrOf result PutError.Failed → Rose (K.faults sink.old) (K.faults sink.new) }
    ensures never_falls { K.faults sink.old ≤ K.faults sink.new }
{
    let mut rest = bytes;
    while !rest.is_empty() {
        let count = sink.put(rest)?;
        rest = &rest[count..];
    }
    Ok(())
}
