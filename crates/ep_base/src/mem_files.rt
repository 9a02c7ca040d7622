//! Files in memory, for tests and for whoever wants the texts themselves.

ghost use Rattle.std.specs.Prelude.{◌≡◌, ◌↔◌, ◌≤◌, ◌<◌, ◌^◌, take, option_map, IsTrue, IfOk, OnOk, OnErr, IsErrOf};
ghost use Rattle.std.specs.FinMap as map;
ghost use Rattle.ep_base.specs.MemoryDevices.{contents};
ghost use Rattle.ep_base.specs.Calls.{next_fails, after_call, no_call};

use crate::calls::Calls;
use crate::{FileError, Files, Memory};
use std::alloc::{AllocError, Global};
use std::collections::BTreeMap;
use std::marker::Model;

/// Holds bytes under names, and fails in chosen reads and writes, which are counted together.
#[derive(Drop)]
pub struct MemFiles {
    files: BTreeMap<String, Vec<u8>>,
    calls: Calls,
    alloc: Global,
}

impl Model for MemFiles {
    ghost use Rattle.ep_base.specs.MemoryDevices.{FilesInMemory, files_code, contents};

    ghost Value = { FilesInMemory };

    ghost coded = { files_code };

    ghost view = { λ m. record { files = contents m.files.entries; calls = m.calls } };
}

impl MemFiles {
    /// Holds nothing. The reads and writes whose numbers stand in `fails`, counted from 1, will fail.
    pub fn new(alloc: Global, fails: Vec<u64>) -> MemFiles
        ensures nothing { result ≡ record { files = map.empty; calls = no_call fails.items } }
    {
        MemFiles {
            files: BTreeMap::new(alloc),
            calls: Calls::new(fails),
            alloc,
        }
    }

    /// Makes a name hold exactly these bytes, and counts as no call.
    pub fn hold(&mut self, name: &str, bytes: &[u8]) -> Result<(), Memory>
        ensures held { OnOk result
            (self.new ≡ record self.old { files = map.insert self.old.files name.now bytes.now }) }
        ensures refused { OnErr result (self.new ≡ self.old) }
    {
        hold_under(self.alloc, &mut self.files, name, bytes)?;
        Ok(())
    }

    /// The bytes that a name holds, if it is held.
    pub fn get(&self, name: &str) -> Option<&[u8]>
        ensures bytes { option_map (λ bytes. bytes.now) result ≡ map.get self.now.files name.now }
    {
        held_under(&self.files, name)
    }
}

impl Files for MemFiles {
    ghost use Rattle.std.specs.Prelude.{Some};

    ghost held = { λ m. Some (map.get m.files) };

    ghost faults = { λ m. m.calls.faults };

    fn read(
        &mut self,
        alloc: Global,
        name: &str,
        at_most: u64,
    ) -> Result<Option<Vec<u8>>, FileError>
        ensures gives { IfOk result (λ answer. option_map (λ bytes. bytes.items) answer
            ≡ option_map (take at_most) (map.get self.old.files name.now)) }
        ensures never_falls { self.old.calls.faults ≤ self.new.calls.faults }
        ensures fits { self.new.calls.faults < 2 ^ 64 }
        ensures failed { IsErrOf result FileError.Failed ↔ IsTrue (next_fails self.old.calls) }
        ensures quiet { (IsErrOf result FileError.Failed → ⊥) → self.new.calls.faults ≡ self.old.calls.faults }
        ensures after { self.new ≡ record self.old { calls = after_call self.old.calls } }
    {
        if self.calls.next_fails() {
            return Err(FileError::Failed);
        }
        match held_under(&self.files, name) {
            Some(bytes) => Ok(Some(first_bytes(alloc, bytes, at_most)?)),
            None => Ok(None),
        }
    }

    fn write(&mut self, name: &str, bytes: &[u8]) -> Result<(), FileError>
        ensures written { OnOk result (self.new.files ≡ map.insert self.old.files name.now bytes.now) }
        ensures never_falls { self.old.calls.faults ≤ self.new.calls.faults }
        ensures fits { self.new.calls.faults < 2 ^ 64 }
        ensures failed { IsErrOf result FileError.Failed ↔ IsTrue (next_fails self.old.calls) }
        ensures quiet { (IsErrOf result FileError.Failed → ⊥) → self.new.calls.faults ≡ self.old.calls.faults }
        ensures refused { OnErr result (self.new.files ≡ self.old.files) }
        ensures calls { self.new.calls ≡ after_call self.old.calls }
    {
        if self.calls.next_fails() {
            return Err(FileError::Failed);
        }
        hold_under(self.alloc, &mut self.files, name, bytes)?;
        Ok(())
    }
}

/// The bytes under a name.
fn held_under<'a>(files: &'a BTreeMap<String, Vec<u8>>, name: &str) -> Option<&'a [u8]>
    ensures { option_map (λ bytes. bytes.now) result ≡ map.get (contents files.now.entries) name.now }
{
    match files.get(name) {
        Some(bytes) => Some(bytes.as_slice()),
        None => None,
    }
}

/// Puts a copy of the bytes under a copy of the name.
fn hold_under(
    alloc: Global,
    files: &mut BTreeMap<String, Vec<u8>>,
    name: &str,
    bytes: &[u8],
) -> Result<(), AllocError>
    ensures held { OnOk result
        (contents files.new.entries ≡ map.insert (contents files.old.entries) name.now bytes.now) }
    ensures refused { OnErr result (files.new.entries ≡ files.old.entries) }
{
    let key = String::from_str(alloc, name)?;
    let value = Vec::from_slice(alloc, bytes)?;
    files.insert(key, value)?;
    Ok(())
}

/// A copy of the first bytes.
fn first_bytes(alloc: Global, bytes: &[u8], at_most: u64) -> Result<Vec<u8>, AllocError>
    ensures { IfOk result (λ copy. copy.items ≡ take at_most bytes.now) }
{
    let count = bytes.len().min(at_most as usize);
    Vec::from_slice(alloc, &bytes[..count])
}
