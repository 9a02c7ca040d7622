//! The trusted edge: the files of the system and its standard output, as devices that tell nothing of
//! their contents.

ghost use Rattle.std.specs.Io.KnownBytes.{Appends, Consumes, IsAtEnd};
ghost use Rattle.std.specs.Prelude.{◌≡◌, ◌<◌, ◌≤◌, length, take, vec_len, IfOk, IfSome, OnOk};
ghost use Rattle.ep_base.specs.Outside.{AppendsRead};

use crate::{FileError, Files, PutError, Sink};
use std::alloc::{AllocError, Global};
use std::io::{Read, Write};
use std::marker::Model;
use std::rt::Files as HostFiles;
use std::{fs, io};

/// How many bytes one read of a file asks for at most.
const CHUNK: usize = 65536;

/// The files of the system. Contracts see the count of its faults: each error of the system is one, a
/// missing file included, and a write that takes no byte.
#[derive(Drop)]
pub struct StdFiles<R> {
    rt: R,
    faults: u64,
}

impl<R> Model for StdFiles<R> {
    ghost use Rattle.std.specs.Prelude.{ℕ};

    ghost Value = { ℕ };

    ghost view = { λ files. files.faults };
}

impl<R> StdFiles<R> {
    /// No fault was counted.
    pub fn new(rt: R) -> StdFiles<R>
        ensures none { result ≡ 0 }
    {
        StdFiles { rt, faults: 0 }
    }
}

impl<R: HostFiles + Drop> Files for StdFiles<R> {
    ghost use Rattle.std.specs.Prelude.{None};

    ghost held = { λ _. None };

    ghost faults = { λ count. count };

    fn read(
        &mut self,
        alloc: Global,
        name: &str,
        at_most: u64,
    ) -> Result<Option<Vec<u8>>, FileError> {
        let faults = self.faults;
        let answer = read_file(&self.rt, alloc, name, at_most);
        self.faults = match answer {
            Err(FileError::Failed) => faults.saturating_add(1),
            _ => faults,
        };
        Ok(Some(answer?))
    }

    fn write(&mut self, name: &str, bytes: &[u8]) -> Result<(), FileError> {
        let faults = self.faults;
        if write_file(&self.rt, name, bytes).is_ok() {
            return Ok(());
        }
        self.faults = faults.saturating_add(1);
        Err(FileError::Failed)
    }
}

/// The first bytes of a file.
fn read_file<R: HostFiles>(
    rt: &R,
    alloc: Global,
    name: &str,
    at_most: u64,
) -> Result<Vec<u8>, FileError>
    ensures within { IfOk result (λ bytes. length bytes.items ≤ at_most) }
{
    let Ok(mut file) = fs::open(rt, name) else {
        return Err(FileError::Failed);
    };
    read_first(&mut file, alloc, at_most)
}

/// The first bytes that a reader gives, or all where there are fewer. Linear in them.
fn read_first<F: Read>(file: &mut F, alloc: Global, at_most: u64) -> Result<Vec<u8>, FileError>
    ensures within { IfOk result (λ bytes. length bytes.items ≤ at_most) }
    ensures first { IfOk result (λ bytes.
        IfSome (F.remaining file.old) (λ left. bytes.items ≡ take at_most left)) }
{
    let mut buffer = zeros(alloc, CHUNK)?;
    let mut bytes = Vec::new(alloc);
    while (bytes.len() as u64) < at_most {
        let left = at_most - bytes.len() as u64;
        if append_some(file, &mut buffer, &mut bytes, left)? == 0 {
            return Ok(bytes);
        }
    }
    Ok(bytes)
}

/// A buffer of so many bytes.
fn zeros(alloc: Global, count: usize) -> Result<Vec<u8>, AllocError>
    ensures length { IfOk result (λ buffer. vec_len buffer ≡ count) }
{
    vec![in alloc; 0u8; count]
}

/// Reads once, at most `left` bytes, and appends what was read: nothing only at the reader's end.
fn append_some<F: Read>(
    file: &mut F,
    buffer: &mut [u8],
    bytes: &mut Vec<u8>,
    left: u64,
) -> Result<usize, FileError>
    requires some { 0 < left }
    requires room { 0 < length buffer.old }
    ensures appended { IfOk result (λ count. AppendsRead (F.remaining file.old) (F.remaining file.new)
        bytes.old.items bytes.new.items count) }
    ensures end { IfOk result (λ count. count ≡ 0 → IsAtEnd (F.remaining file.new)) }
    ensures within { IfOk result (λ count. count ≤ left) }
{
    let asked = left.min(buffer.len() as u64) as usize;
    let count = read_some(file, &mut buffer[..asked])?;
    bytes.extend_from_slice(&buffer[..count])?;
    Ok(count)
}

/// Reads once.
fn read_some<F: Read>(file: &mut F, buffer: &mut [u8]) -> Result<usize, FileError>
    ensures within { IfOk result (λ count. count ≤ length buffer.old) }
    ensures consumed { IfOk result (λ count.
        Consumes (F.remaining file.old) (F.remaining file.new) (take count buffer.new)) }
    ensures end { IfOk result (λ count.
        count ≡ 0 → 0 < length buffer.new → IsAtEnd (F.remaining file.new)) }
{
    match file.read(buffer) {
        Ok(count) => Ok(count),
        Err(_) => Err(FileError::Failed),
    }
}

/// Makes a file hold these bytes and no others.
fn write_file<R: HostFiles>(rt: &R, name: &str, bytes: &[u8]) -> io::Result<()> {
    write_whole(&mut fs::create(rt, name)?, bytes)
}

/// Writes all the bytes.
fn write_whole<W: Write>(writer: &mut W, bytes: &[u8]) -> io::Result<()>
    ensures written { OnOk result (Appends (W.contents writer.old) (W.contents writer.new) bytes.now) }
{
    writer.write_all(bytes)
}

/// Writes once, and says how many bytes were taken, at least one.
fn write_once<W: Write>(writer: &mut W, piece: &[u8]) -> Option<usize>
    ensures some { IfSome result (λ count. 1 ≤ count) }
    ensures within { IfSome result (λ count. count ≤ length piece.now) }
    ensures taken { IfSome result (λ count.
        Appends (W.contents writer.old) (W.contents writer.new) (take count piece.now)) }
{
    match writer.write(piece) {
        Ok(count) if count > 0 => Some(count),
        _ => None,
    }
}

/// Standard output. Contracts see the count of its faults: each error of the system is one, and a write
/// that takes no byte.
#[derive(Drop)]
pub struct StdSink<R> {
    rt: R,
    faults: u64,
}

impl<R> Model for StdSink<R> {
    ghost use Rattle.std.specs.Prelude.{ℕ};

    ghost Value = { ℕ };

    ghost view = { λ sink. sink.faults };
}

impl<R> StdSink<R> {
    /// No fault was counted.
    pub fn new(rt: R) -> StdSink<R>
        ensures none { result ≡ 0 }
    {
        StdSink { rt, faults: 0 }
    }
}

impl<R: Print + Drop> Sink for StdSink<R> {
    ghost use Rattle.std.specs.Prelude.{None};

    ghost taken = { λ _. None };

    ghost faults = { λ count. count };

    /// Writes to standard output once.
    fn put(&mut self, piece: &[u8]) -> Result<usize, PutError> {
        let faults = self.faults;
        match write_once(&mut io::writer(&self.rt), piece) {
            Some(count) => Ok(count),
            None => {
                self.faults = faults.saturating_add(1);
                Err(PutError::Failed)
            }
        }
    }
}
