//! Verdicts on small proofs, each by one thread and by several.
//!
//! A row has clauses, the lines of a proof, and its verdict, with `#` between them.

use crate::rows::{formula, proof};
use cnf_core::Formula;
use log_check::{OpenGate, Verdict, check_log, check_log_parallel};
use sat_proof::Proof;
use std::alloc::Global;
use std::test::Fail;
use std::thread::Threads;

/// A verdict in words.
fn words(alloc: Global, verdict: Verdict) -> Result<String, Fail> {
    match verdict {
        Verdict::Verified => Ok(String::from_str(alloc, "verified")?),
        Verdict::BadStep(line) => Ok(format!(in alloc; "bad {line}")?),
        Verdict::NoEmptyClause => Ok(String::from_str(alloc, "no empty clause")?),
    }
}

/// The numbers of workers that each row is checked by.
const WORKERS: [u64; 7] = [1, 2, 3, 4, 5, 63, 64];

/// The first verdict that isn't the one that the row says.
fn wrong_verdict<R: Threads + Sync>(
    rt: &R,
    alloc: Global,
    f: &Formula,
    p: &Proof,
    want: &str,
) -> Result<String, Fail> {
    let found = words(alloc, check_log(alloc, f, p)?)?;
    if found.as_str() != want {
        return Ok(found);
    }
    for workers in WORKERS {
        let verdict = check_log_parallel(rt, alloc, f, p, workers, &OpenGate)?;
        let found = words(alloc, verdict)?;
        if found.as_str() != want {
            return Ok(format!(in alloc; "{} by {workers}", found.as_str())?);
        }
    }
    Ok(String::new(alloc))
}

/// The first row of a table with another verdict, and that.
fn first_wrong<R: Threads + Sync>(rt: &R, alloc: Global, table: &str) -> Result<String, Fail> {
    for row in table.lines() {
        let (clauses, rest) = row.split_once('#').unwrap_or((row, ""));
        let (lines, want) = rest.split_once('#').unwrap_or((rest, ""));
        let f = formula(alloc, clauses)?;
        let p = proof(alloc, lines)?;
        let wrong = wrong_verdict(rt, alloc, &f, &p, want)?;
        if !wrong.is_empty() {
            return Ok(format!(in alloc; "{row} BUT {}", wrong.as_str())?);
        }
    }
    Ok(String::new(alloc))
}

const STEPS: &str = "\
1 2/1 -2/-1 2/-1 -2#5:1:1 2/6::5 3 4#verified
1 2/1 -2/-1 2/-1 -2#5:1:1/6::5 3 4#bad 1
1 2/1 -2/-1 2/-1 -2#5:-1:1 2/6::5 3 4#bad 1
1 2/1 -2/-1 2/-1 -2#5:1:1 6/6::5 3 4#bad 1
1 2/1 -2/-1 2/-1 -2#5:1:1/6::5#bad 1
1 2/1 -2/-1 2/-1 -2#5:1 999999999999999999:1 2/6::5 3 4#bad 2
1 2/1 -2/-1 2/-1 -2#5:1:1 2#no empty clause
1 2/1 -2/-1 2/-1 -2#4:1:1 2/6::4 3 4#bad 1
1 2/1 -2/-1 2/-1 -2#5:1:1 2/5::5 3 4#bad 2
1 2/1 -2/-1 2/-1 -2#7:1:1 2/6::7 3 4#bad 2
1 2/1 -2/-1 2/-1 -2#9:1:1 2/20::9 3 4#verified";

#[test]
fn verdicts_of_small_proofs(rt: HostRuntime) -> Result<(), Fail> {
    let wrong = first_wrong(&rt, rt.alloc(), STEPS)?;
    assert_eq!(rt; wrong.as_str(), "");
    Ok(())
}

// An id that was deleted and comes again; one that is deleted in two chunks, and before it is there;
// one that is deleted in one chunk and used in another.
const DELETIONS: &str = "\
1 2/1 -2/-1 2/-1 -2#3 4/5:1:1 2#no empty clause
1 2/1 -2/-1 2/-1 -2#2/5:1:1 2#bad 2
1 2/1 -2/-1 2/-1 -2#5 9/5:1:1 2#no empty clause
1 2/1 -2/-1 2/-1 -2#5:1:1 2/5/6::5 3 4#bad 3
1 2/1 -2/-1 2/-1 -2#5:1:1 2/5/5:1:1 2/6::5 3 4#bad 3
1 2/1 -2/-1 2/-1 -2#1/1:1 2:/6::5 3 4#bad 2
1 2/1 -2/-1 2/-1 -2#6/5:1:1 2/6:2:5 3/6/7::5 6 4#bad 5
1 2/1 -2/-1 2/-1 -2#6/5:1:1 2/6:2:5 3/7::5 6 4/6/6#verified
1 2/1 -2/-1 2/-1 -2#5:1:1 2/1/1/1 2/6::5 3 4#verified
1 2/1 -2/-1 2/-1 -2#5:1:1 2/1/1/1 2/6:1:1 2#bad 5
1 2/1 -2/-1 2/-1 -2#5:1:1 2/6:1:5/5/7::5 3 4#bad 4
1 2/1 -2/-1 2/-1 -2#5:1:1 2/6:1:5/5/7::6 3 4#verified";

#[test]
fn deletions_take_out_what_is_live(rt: HostRuntime) -> Result<(), Fail> {
    let wrong = first_wrong(&rt, rt.alloc(), DELETIONS)?;
    assert_eq!(rt; wrong.as_str(), "");
    Ok(())
}

// A hint to a line of a later chunk and to its own line; ids of 18 digits; the first two bad lines in
// different chunks.
const CHUNKS: &str = "\
1 2/1 -2/-1 2/-1 -2#5:1:1 7/6:1:1 2/7:1 2:1/8::6 3 4#bad 1
1 2/1 -2/-1 2/-1 -2#5:1:5#bad 1
1 2/1 -2/-1 2/-1 -2#5:1:1 2/6:1 2:8/7:2:5 3/8::5 7 4#bad 2
1 2/1 -2/-1 2/-1 -2#999999999999999998:1:1 2/999999999999999999::999999999999999998 3 4#verified
1 2/1 -2/-1 2/-1 -2#999999999999999998:1:1 2/999999999999999998/999999999999999999::999999999999999998 3 4#bad 3
1 2/1 -2/-1 2/-1 -2#999999999999999999:1:1 2/6:1:1 2#bad 2
1 2/1 -2/-1 2/-1 -2#5:1:1 2/6:2:9/7:1:1 2/8:2:9/9::5 3 4#bad 2
1 2/1 -2/-1 2/-1 -2#5:1:1 2/6:1:5/7:1:6/8:2:9/9:2:7 9/10::5 3 4#bad 4
1 2/1 -2/-1 2/-1 -2#5:1:1 2/6:1:5/7:1:6/7:1:6/9:2:9/10::5 3 4#bad 4
1 2/1 -2/-1 2/-1 -2#5:1:1 2/6:1:5/7:1:6/8:1:7/9:1:8/10:1:9/11:1:10/12::11 3 4#verified";

#[test]
fn chunks_are_checked_as_the_whole_is(rt: HostRuntime) -> Result<(), Fail> {
    let wrong = first_wrong(&rt, rt.alloc(), CHUNKS)?;
    assert_eq!(rt; wrong.as_str(), "");
    Ok(())
}

const WITHOUT_LINES: &str = "\
none##no empty clause
##verified
1##no empty clause";

#[test]
fn a_proof_without_lines_asks_for_an_empty_clause(rt: HostRuntime) -> Result<(), Fail> {
    let wrong = first_wrong(&rt, rt.alloc(), WITHOUT_LINES)?;
    assert_eq!(rt; wrong.as_str(), "");
    Ok(())
}
