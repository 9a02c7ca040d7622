//! Texts that are generated from a number.

use crate::calls::{files_of, held_by, joined, said_over};
use std::test::Fail;
use std::thread::Threads;

/// Words behind `--task generate`, what is said, and how the texts that are held as `a` and `b` begin.
const GENERATED: [(&str, &str, &str, &str); 4] = [
    (
        "--number 0 --out-param b --out-eprime a",
        "answered $ generated 0\n$ order 16\n$ solution\n",
        "language ESSENCE' 1.0\ngiven n : int(1..100)\n",
        "language ESSENCE' 1.0\nletting n be 16\nletting hint be [[3, 4, ",
    ),
    (
        "--number 4",
        "answered $ generated 4\n$ order 20\n$ solution\n",
        "(no file)",
        "(no file)",
    ),
    (
        "--number 0 --conflicts 1000 --out-eprime a",
        "answered $ generated 0\n$ order 16\n$ solution\n",
        "language ESSENCE' 1.0\ngiven n : int(1..100)\n",
        "(no file)",
    ),
    ("--number", "usage fault usage\n", "(no file)", "(no file)"),
];

/// Whether the words generate so.
fn generates<R: Threads + Sync + AllocGlobal>(
    rt: &R,
    words: &str,
    want: &str,
    model: &str,
    params: &str,
) -> Result<bool, Fail> {
    let words = joined(rt.alloc(), "--task generate ", words)?;
    let mut files = files_of(rt.alloc(), &[], 0)?;
    let said = said_over(rt, words.as_str(), &mut files)?;
    let is_held = held_by(&files, "a").starts_with(model)
        && held_by(&files, "b").starts_with(params);
    Ok(said.as_str() == want && is_held)
}

#[test]
fn generated_texts_are_solved_and_written(rt: HostRuntime) -> Result<(), Fail> {
    for (words, want, model, params) in GENERATED {
        let is_right = generates(&rt, words, want, model, params)?;
        assert!(rt; is_right, "{words}");
    }
    Ok(())
}
