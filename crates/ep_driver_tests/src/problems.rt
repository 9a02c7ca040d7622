//! Runs over texts of pseudo-Boolean problems: answers, refusals with their lines, and files and an output that fail.
//!
//! A row has a text and what is put out, with ` => ` between them. An `@` ends a line of both.

use crate::calls::{difference, files_of, said_by_bytes, said_over, text_of};
use std::alloc::{AllocError, Global};
use std::test::Fail;
use std::thread::Threads;

const SOLVE: &str = "--task opb --in-opb o";

/// What is said of texts that are taken on: the optimum, that there is no solution, the empty text, and what a `~` says.
const ANSWERED: &str = "\
* #variable= 2 #constraint= 1@min: +1 x1 +2 x2 ;@+1 x1 +1 x2 >= 1 ;@ => s OPTIMUM FOUND@v x1 -x2@
+1 x1 +1 x2 = 1 ;@+1 x1 >= 1 ;@+1 x2 >= 1 ;@ => s UNSATISFIABLE@
 => s SATISFIABLE@v@
+2 ~x7 >= 2; => s SATISFIABLE@v -x7@
* #variable= 9 #constraint= 7@+1 x1 >= 1 ;@ => s SATISFIABLE@v x1@
min: -3 ~x9 +1 x2 ;@+1 x9 +1 x2 >= 1 ;@ => s OPTIMUM FOUND@v x2 -x9@";

/// What refuses texts: the line of their fault, and each limit of a problem.
const REFUSED: &str = "\
+1 x1 > 1 ;@ => fault F14 1@
* one@+1 x1 >= 1 ;@+1 x2 >= 1@ => fault F14 3@
+1 x1 >= 1 ;@min: +1 x1 ;@ => fault F14 2@
+1 x1 >= 1234567890123456789 ; => fault F14 1@
+1000000000000 x1 +1000000000000 x2 >= 1 ; => limit L5@
+10000000 x1 +10000000 x2 >= 1 ; => limit L6@";

/// A row with what words say of its text where that is something else, and else nothing.
fn wrong_problem<R: Threads + Sync + AllocGlobal>(
    rt: &R,
    words: &str,
    row: &str,
) -> Result<String, Fail> {
    let alloc = rt.alloc();
    let (text, want) = row.split_once(" => ").unwrap_or((row, ""));
    let text = text_of(alloc, "", text)?;
    let mut files = files_of(alloc, &[("o", text.as_bytes())], 0)?;
    let said = said_over(rt, words, &mut files)?;
    Ok(difference(alloc, row, said.as_str(), "", want)?)
}

/// The first row of a table of which something else is said.
fn first_wrong_problem<R: Threads + Sync + AllocGlobal>(
    rt: &R,
    table: &str,
) -> Result<String, Fail> {
    for row in table.lines() {
        let wrong = wrong_problem(rt, SOLVE, row)?;
        if !wrong.is_empty() {
            return Ok(wrong);
        }
    }
    Ok(String::new(rt.alloc()))
}

#[test]
fn problems_have_their_answers(rt: HostRuntime) -> Result<(), Fail> {
    let wrong = first_wrong_problem(&rt, ANSWERED)?;
    assert_eq!(rt; wrong.as_str(), "");
    Ok(())
}

#[test]
fn problems_are_refused_at_their_line_or_limit(rt: HostRuntime) -> Result<(), Fail> {
    let wrong = first_wrong_problem(&rt, REFUSED)?;
    assert_eq!(rt; wrong.as_str(), "");
    Ok(())
}

/// Four pigeons in three holes: each sits somewhere, and no hole takes two.
const PIGEONS: &str = "\
+1 x1 +1 x2 +1 x3 >= 1 ;@+1 x4 +1 x5 +1 x6 >= 1 ;@+1 x7 +1 x8 +1 x9 >= 1 ;@+1 x10 +1 x11 +1 x12 >= 1 ;@\
-1 x1 -1 x4 -1 x7 -1 x10 >= -1 ;@-1 x2 -1 x5 -1 x8 -1 x11 >= -1 ;@-1 x3 -1 x6 -1 x9 -1 x12 >= -1 ;@";

/// Words, the calls of the files and of the output that fail, and how the run ends, with what a sink of one byte a put took.
const OVER_PIGEONS: [(&str, u64, u64, &str); 8] = [
    ("--task opb --in-opb o", 0, 0, "answered s UNSATISFIABLE\n"),
    (
        "--task opb --in-opb o --conflicts 1",
        0,
        0,
        "unknown s UNKNOWN\n",
    ),
    ("--task opb --in-opb o", 1, 0, "device device read o\n"),
    ("--task opb --in-opb p", 0, 0, "device device read p\n"),
    ("--task opb --in-opb o", 0, 1, "device "),
    ("--task opb --in-opb o", 0, 5, "device s UN"),
    (
        "--task opb --in-opb o --out-cnf c",
        0,
        0,
        "usage fault usage\n",
    ),
    ("--in-opb o", 0, 0, "usage fault usage\n"),
];

#[test]
fn a_problem_is_read_and_answered_byte_by_byte(rt: HostRuntime) -> Result<(), Fail> {
    let text = text_of(rt.alloc(), "", PIGEONS)?;
    for (words, file_fail, put_fail, want) in OVER_PIGEONS {
        let mut files = files_of(rt.alloc(), &[("o", text.as_bytes())], file_fail)?;
        let said = said_by_bytes(&rt, words, &mut files, put_fail)?;
        assert_eq!(rt; said.as_str(), want, "{words}");
    }
    Ok(())
}

/// So many blanks.
fn blanks(alloc: Global, count: usize) -> Result<Vec<u8>, AllocError> {
    let mut text = Vec::new(alloc);
    for _ in 0..count {
        text.push(b' ')?;
    }
    Ok(text)
}

/// How many bytes a text has, and what is said of it.
const LENGTHS: [(usize, &str); 2] = [
    (16_777_216, "answered s SATISFIABLE\nv\n"),
    (16_777_217, "limit limit L1 opb\n"),
];

#[test]
fn a_problem_may_have_so_many_bytes(rt: HostRuntime) -> Result<(), Fail> {
    for (count, want) in LENGTHS {
        let text = blanks(rt.alloc(), count)?;
        let mut files = files_of(rt.alloc(), &[("o", text.as_slice())], 0)?;
        let said = said_over(&rt, SOLVE, &mut files)?;
        assert_eq!(rt; said.as_str(), want);
    }
    Ok(())
}
