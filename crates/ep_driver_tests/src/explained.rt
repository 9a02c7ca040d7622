//! Runs that explain why a model has no solution: what they name, budgets, refusals, and files and an output that fail.
//!
//! A table has a row a line: a model below its first line, its parameters, and what is put out, with `#` between them. An `@` ends a line
//! of the texts.

use crate::calls::{
    FIRST_LINE, files_of, joined, said_by_bytes, text_of, wrong_behind, wrong_rows,
};
use std::test::Fail;

const EXPLAIN: &str = "--task explain --in-eprime m --in-param p";

const EXPLAIN_IN: &str = "--task explain --in-eprime m --undefined ";

/// Models with what is said of them: where several answers are right each has one value.
const EXPLAINED: &str = "\
find x : int(2..3)@such that x > 2, x < 3, x != 1##$ explanation 2@$ without 1@letting x be 2@$ without 2@letting x be 3@
find x : int(1..0)@such that true##$ explanation 0@
find x : int(1..0)##$ explanation 0@
find x : int(1..3)@such that x > 2##$ solution@letting x be 3@
find x : int(3..3)@minimising x##$ solution@letting x be 3@
find x : int(3..3)@minimising 1 / 0##$ solution@letting x be 3@
find x : int(3..3)@maximising x@such that x = 3@such that true, x < 3##$ explanation 1@$ without 3@letting x be 3@
given n : int(1..9)@find x : int(n..n)@such that x != n#letting n be 4#$ explanation 1@$ without 1@letting x be 4@
such that false##$ explanation 1@$ without 1@
##$ solution@";

/// The same by a mode of undefinedness, which stands in front.
const IN_A_MODE: &str = "\
relational#find x : int(0..0)@such that 1 / x = 1 \\/ true##$ solution@letting x be 0@
strict#find x : int(0..0)@such that 1 / x = 1 \\/ true##$ explanation 1@$ without 1@letting x be 0@";

/// Models and words that are refused.
const REFUSED: &str = "\
find x : int(1..3)@such that x##fault F5 model 3:11@
find x : int(1..3)@such that y > 1##fault F3 model 3:11 y@
find x : int(1..3)@such that x + 1099511627776 > 7##limit L5@
given n : int(1..9)@find x : int(n..n)@such that x != n##fault F8 n@";

#[test]
fn models_are_explained(rt: HostRuntime) -> Result<(), Fail> {
    let wrong = wrong_rows(&rt, EXPLAIN, FIRST_LINE, EXPLAINED)?;
    assert_eq!(rt; wrong.as_str(), "");
    let wrong = wrong_behind(&rt, EXPLAIN_IN, FIRST_LINE, IN_A_MODE)?;
    assert_eq!(rt; wrong.as_str(), "");
    Ok(())
}

#[test]
fn what_is_faulty_is_refused(rt: HostRuntime) -> Result<(), Fail> {
    let wrong = wrong_rows(&rt, EXPLAIN, "", REFUSED)?;
    assert_eq!(rt; wrong.as_str(), "");
    Ok(())
}

/// Four pigeons of which each sits in one of three holes, and no two in one.
const PIGEONS: &str = "\
find p : matrix indexed by [int(1..4), int(1..3)] of bool@such that forAll i : int(1..4) . exists j : int(1..3) . p[i,j],@\
forAll j : int(1..3) . forAll a,b : int(1..4) . (a < b) -> !(p[a,j] /\\ p[b,j])";

/// Two clauses that don't go together, with the only value that keeps each of them.
const BETWEEN: &str = "find x : int(2..3)@such that x > 2, x < 3";

/// A model, words behind the task, the calls of the files and of the output that fail, and how the run ends, with what a sink of one byte
/// a put took.
const OVER: [(&str, &str, u64, u64, &str); 10] = [
    (
        PIGEONS,
        "--in-eprime m --conflicts 1",
        0,
        0,
        "unknown language ESSENCE' 1.0\n$ unknown 1 conflicts\n",
    ),
    (
        BETWEEN,
        "--in-eprime m",
        0,
        0,
        "answered language ESSENCE' 1.0\n$ explanation 2\n$ without 1\nletting x be 2\n$ without 2\nletting x be 3\n",
    ),
    (BETWEEN, "--in-eprime m", 1, 0, "device device read m\n"),
    (
        BETWEEN,
        "--in-eprime m --in-param m",
        2,
        0,
        "device device read m\n",
    ),
    (BETWEEN, "--in-eprime q", 0, 0, "device device read q\n"),
    (BETWEEN, "--in-eprime m", 0, 1, "device "),
    (BETWEEN, "--in-eprime m", 0, 9, "device language"),
    (
        BETWEEN,
        "--in-eprime m --conflicts 0",
        0,
        0,
        "usage fault usage\n",
    ),
    (
        BETWEEN,
        "--in-eprime m --out-log l",
        0,
        0,
        "usage fault usage\n",
    ),
    (BETWEEN, "--in-param m", 0, 0, "usage fault usage\n"),
];

#[test]
fn an_explanation_is_read_and_put_out_byte_by_byte(rt: HostRuntime) -> Result<(), Fail> {
    for (model, end, file_fail, put_fail, want) in OVER {
        let text = text_of(rt.alloc(), FIRST_LINE, model)?;
        let words = joined(rt.alloc(), "--task explain ", end)?;
        let mut files = files_of(rt.alloc(), &[("m", text.as_bytes())], file_fail)?;
        let said = said_by_bytes(&rt, words.as_str(), &mut files, put_fail)?;
        assert_eq!(rt; said.as_str(), want, "{end}");
    }
    Ok(())
}
