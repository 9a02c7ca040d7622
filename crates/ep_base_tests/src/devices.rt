//! The files of the system and its standard output, as they are.

use ep_base::{Files, Sink, StdFiles, StdSink};
use std::alloc::Global;
use std::fs;
use std::rt::Files as HostFiles;
use std::test::Fail;

fn reads<R: HostFiles + Drop>(
    files: &mut StdFiles<R>,
    alloc: Global,
    at_most: u64,
    want: &str,
) -> bool {
    match files.read(alloc, "ep_base.tmp", at_most) {
        Ok(Some(bytes)) => bytes.as_slice() == want.as_bytes(),
        _ => false,
    }
}

/// Which of the reads give the wanted text.
fn texts_read<R: HostFiles + Drop>(files: &mut StdFiles<R>, alloc: Global) -> [bool; 4] {
    [
        reads(files, alloc, 0, ""),
        reads(files, alloc, 4, "some"),
        reads(files, alloc, 9, "some text"),
        reads(files, alloc, 10, "some text"),
    ]
}

#[test]
fn system_files_are_read_back(rt: HostRuntime) -> Result<(), Fail> {
    let mut files = StdFiles::new(rt.clone()?);
    let long = vec![in rt.alloc(); 0u8; 100000]?;
    files.write("ep_base.tmp", &long)?;
    files.write("ep_base.tmp", b"some text")?;
    let read = texts_read(&mut files, rt.alloc());
    fs::remove_file(&rt, "ep_base.tmp")?;
    assert_eq!(rt; read, [true; 4]);
    Ok(())
}

/// Whether a read of a missing file, and a read and a write of a folder, failed. The contracts say that each is counted as a fault.
fn refusals<R: HostFiles + Drop>(files: &mut StdFiles<R>, alloc: Global) -> [bool; 3] {
    [
        files.read(alloc, "ep_base.none", 10).is_err(),
        files.read(alloc, "ep_base.dir", 10).is_err(),
        files.write("ep_base.dir", b"x").is_err(),
    ]
}

#[test]
fn system_faults_are_told(rt: HostRuntime) -> Result<(), Fail> {
    let mut files = StdFiles::new(rt.clone()?);
    fs::create_dir(&rt, "ep_base.dir")?;
    let refused = refusals(&mut files, rt.alloc());
    fs::remove_dir(&rt, "ep_base.dir")?;
    assert_eq!(rt; refused, [true; 3]);
    Ok(())
}

#[test]
fn standard_output_takes_a_piece(rt: HostRuntime) -> Result<(), Fail> {
    let mut sink = StdSink::new(rt.clone()?);
    let taken = sink.put(b"\n")?;
    assert_eq!(rt; taken, 1);
    Ok(())
}
