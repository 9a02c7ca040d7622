//! The program over files in memory: that what it answers is accepted, and what it refuses.

use crate::answer::joined_text;
use ep_base::{MemFiles, Word};
use log_check::{Verdict, check_log};
use sat_text::{read_cnf, read_log};
use std::alloc::Global;
use std::test::Fail;

const FORMULA: &[u8] = b"p cnf 2 4\n1 2 0\n1 -2 0\n-1 2 0\n-1 -2 0\n";

// Files with a formula and proofs. The call of them with this number fails, if any has it.
fn files_of(alloc: Global, fail: u64) -> Result<MemFiles, Fail> {
    let fails = Vec::from_slice(alloc, &[fail])?;
    let mut files = MemFiles::new(alloc, fails);
    files.hold("f", FORMULA)?;
    files.hold("empty", b"p cnf 0 1\n0\n")?;
    files.hold("wrong", b"p cnf 2\n")?;
    files.hold("0", b"6 2 0 5 1 0\n6 d 1 0\n7 0 6 2 5 0\n")?;
    files.hold("1", b"6 2 1 0 3 5 0\n7 2 0 5 3 0\n8 0 7 4 5 0\n")?;
    files.hold("all", b"5 1 0 1 2 0\n6 0 5 3 4 0\n")?;
    files.hold("bad", b"6 2 0 5 1 0\n7 0 6 1 5 0\n")?;
    files.hold("none", b"")?;
    Ok(files)
}

// The words of a text, with a space between any two.
fn words_of(alloc: Global, text: &str) -> Result<Vec<Word>, Fail> {
    let mut words = Vec::new(alloc);
    for word in text.split(' ') {
        if !word.is_empty() {
            words.push(Word::new(alloc, word)?)?;
        }
    }
    Ok(words)
}

// What the check says of a text over the formula of a file.
fn verdict(alloc: Global, files: &MemFiles, name: &str, log: &[u8]) -> Result<&'static str, Fail> {
    let cnf = files.get(name).ok_or("the file is there")?;
    let file = read_cnf(alloc, cnf)?;
    let proof = read_log(alloc, log)?;
    Ok(match check_log(alloc, &file.formula, &proof)? {
        Verdict::Verified => "verified",
        Verdict::BadStep(_) => "bad",
        Verdict::NoEmptyClause => "open",
    })
}

// What is said to words: of what is put out the check's verdict, or why nothing is.
fn said_of(alloc: Global, words: &str, fail: u64) -> Result<String, Fail> {
    let mut files = files_of(alloc, fail)?;
    let name = words.split(' ').next().unwrap_or("");
    let words = words_of(alloc, words)?;
    match joined_text(alloc, &words, &mut files) {
        Ok(text) => Ok(String::from_str(alloc, verdict(alloc, &files, name, &text)?)?),
        Err(refused) => Ok(format!(in alloc; "{refused}")?),
    }
}

// Words, the call of the files that fails, and what is said.
const ROWS: &str = "\
f 0 1#0#verified
f all#0#verified
empty none#0#verified
#0#usage: join_cubes FORMULA PROOF.., one proof for each cube in the order of their numbers
f#0#1 proofs are wanted, one for each cube
f 0 1 1#0#4 proofs are wanted, one for each cube
empty none none#0#1 proofs are wanted, one for each cube
g 0 1#0#the formula can't be read
f 0 2#0#the proof of cube 1 can't be read
f 0 1#1#the formula can't be read
f 0 1#3#the proof of cube 1 can't be read
f 0 1#4#verified
wrong 0 1#0#line 1 of the formula can't be read
f 0 f#0#line 1 of the proof of cube 1 can't be read
f 1 0#0#line 1 of the proof of cube 0 isn't valid
f bad 1#0#line 2 of the proof of cube 0 isn't valid
f 0 none#0#the proof of cube 1 doesn't come to the empty clause";

#[test]
fn joined_proofs_are_accepted(rt: HostRuntime) -> Result<(), Fail> {
    for row in ROWS.lines() {
        let (words, rest) = row.split_once('#').unwrap_or((row, ""));
        let (fail, wanted) = rest.split_once('#').unwrap_or((rest, ""));
        let said = said_of(rt.alloc(), words, fail.parse::<u64>()?)?;
        assert_eq!(rt; said.as_str(), wanted, "{row}");
    }
    Ok(())
}
