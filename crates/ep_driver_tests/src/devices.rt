//! Runs over files and an output that fail.

use crate::calls::{FIRST_LINE, Texts, files_of_run, held_by, joined, said_by_bytes, text_of};
use std::alloc::{AllocError, Global};
use std::test::Fail;
use std::thread::Threads;

const SOLVE: &str = "--in-eprime m --in-param p";

const THREE: &str = "find x : int(1..3)@such that x > 2@";

const ANSWERED: &str = "language ESSENCE' 1.0\n$ solution\nletting x be 3\n";

/// What the words say over a model with one solution where these calls fail, and what a file holds then, behind a `#`.
fn said_and_held<R: Threads + Sync + AllocGlobal>(
    rt: &R,
    words: &str,
    file_fail: u64,
    put_fail: u64,
    name: &str,
) -> Result<String, Fail> {
    let model = text_of(rt.alloc(), FIRST_LINE, THREE)?;
    let texts = Texts {
        model: model.as_bytes(),
        params: b"",
        solution: b"old",
    };
    let mut files = files_of_run(rt.alloc(), &texts, file_fail)?;
    let mut said = said_by_bytes(rt, words, &mut files, put_fail)?;
    said.push('#')?;
    said.push_str(held_by(&files, name))?;
    Ok(said)
}

/// Words, the call of the files and that of the output that fail, and what is said.
const FAILING: [(&str, u64, u64, &str, &str); 7] = [
    (SOLVE, 1, 0, "device", "device read m\n"),
    (SOLVE, 2, 0, "device", "device read p\n"),
    (SOLVE, 3, 0, "answered", ANSWERED),
    ("--in-eprime m", 2, 0, "answered", ANSWERED),
    (SOLVE, 0, 1, "device", ""),
    (SOLVE, 0, 2, "device", "l"),
    (SOLVE, 0, 10, "device", "language "),
];

#[test]
fn devices_may_fail(rt: HostRuntime) -> Result<(), Fail> {
    for (words, file_fail, put_fail, status, want) in FAILING {
        let said = said_and_held(&rt, words, file_fail, put_fail, "t")?;
        let want = three_of(rt.alloc(), status, want, "(no file)")?;
        assert_eq!(rt; said.as_str(), want.as_str());
    }
    Ok(())
}

/// The end of the words, the call of the files and that of the output that fail, the file that is written, how the run ends,
/// what is put out, and what the file holds then.
const WRITING: [(&str, &str, u64, u64, &str, &str, &str); 8] = [
    (
        " p --out-solution=s",
        "s",
        0,
        0,
        "answered",
        ANSWERED,
        ANSWERED,
    ),
    (
        " p --out-solution=t",
        "t",
        0,
        0,
        "answered",
        ANSWERED,
        ANSWERED,
    ),
    (
        " p --out-solution=t",
        "t",
        1,
        0,
        "device",
        "device read m\n",
        "(no file)",
    ),
    (
        " p --out-solution=t",
        "t",
        3,
        0,
        "device",
        "device write t\n",
        "(no file)",
    ),
    (
        " p --out-solution=s",
        "s",
        3,
        0,
        "device",
        "device write s\n",
        "old",
    ),
    (" p --out-solution=s", "s", 3, 8, "device", "device ", "old"),
    (" p --out-solution=s", "s", 0, 2, "device", "l", ANSWERED),
    (
        " none --out-solution=s",
        "s",
        0,
        0,
        "device",
        "device read none\n",
        "old",
    ),
];

#[test]
fn answers_are_written(rt: HostRuntime) -> Result<(), Fail> {
    for (end, name, file_fail, put_fail, status, want, held) in WRITING {
        let words = joined(rt.alloc(), "--in-eprime m --in-param", end)?;
        let said = said_and_held(&rt, words.as_str(), file_fail, put_fail, name)?;
        let want = three_of(rt.alloc(), status, want, held)?;
        assert_eq!(rt; said.as_str(), want.as_str());
    }
    Ok(())
}

/// How a run ends, what it puts out, and what a file holds then.
fn three_of(alloc: Global, status: &str, put: &str, held: &str) -> Result<String, AllocError> {
    let mut whole = joined(alloc, status, " ")?;
    whole.push_str(put)?;
    whole.push('#')?;
    whole.push_str(held)?;
    Ok(whole)
}
