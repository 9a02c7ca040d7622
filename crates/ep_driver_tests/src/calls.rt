//! How tests run words over texts. No function here has a clause, so that no test is proved over those of a run.

use cnf_core::Log;
use ep_base::{MemFiles, MemSink, Memory, Word};
use ep_driver::{Status, run};
use std::alloc::{AllocError, Global};
use std::test::Fail;
use std::thread::Threads;

pub const FIRST_LINE: &str = "language ESSENCE' 1.0\n";

/// The texts that are held as `m`, `p` and `s`.
#[derive(Clone, Copy)]
pub struct Texts<'a> {
    pub model: &'a [u8],
    pub params: &'a [u8],
    pub solution: &'a [u8],
}

/// Files that hold these texts by their names. Their call with this number fails, if any has it.
pub fn files_of(alloc: Global, texts: &[(&str, &[u8])], file_fail: u64) -> Result<MemFiles, Fail> {
    let fails = Vec::from_slice(alloc, &[file_fail])?;
    let mut files = MemFiles::new(alloc, fails);
    for (name, text) in texts {
        files.hold(name, text)?;
    }
    Ok(files)
}

/// Files that hold the texts of a run.
pub fn files_of_run(alloc: Global, texts: &Texts, file_fail: u64) -> Result<MemFiles, Fail> {
    let named = [
        ("m", texts.model),
        ("p", texts.params),
        ("s", texts.solution),
    ];
    files_of(alloc, &named, file_fail)
}

/// What a file holds, or that none has this name.
pub fn held_by<'a>(files: &'a MemFiles, name: &str) -> &'a str {
    match files.get(name) {
        Some(bytes) => str::from_utf8(bytes).unwrap_or("(no text)"),
        None => "(no file)",
    }
}

/// Words with a space between any two.
fn list_of(alloc: Global, words: &str) -> Result<Vec<Word>, Memory> {
    let mut list = Vec::new(alloc);
    for word in words.split(' ') {
        if !word.is_empty() {
            list.push(Word::new(alloc, word)?)?;
        }
    }
    Ok(list)
}

/// How words end over files.
fn status_over<R: Threads + Sync + AllocGlobal>(
    rt: &R,
    words: &str,
    files: &mut MemFiles,
    out: &mut MemSink,
) -> Result<Status, Fail> {
    let alloc = rt.alloc();
    let list = list_of(alloc, words)?;
    let mut log = Log::new(alloc);
    Ok(run(rt, alloc, &list, files, out, &mut log))
}

/// How a run ends, in a word.
fn word_of(status: Status) -> &'static str {
    match status {
        Status::Answered => "answered",
        Status::Unknown => "unknown",
        Status::Usage => "usage",
        Status::Text => "text",
        Status::Limit => "limit",
        Status::Device => "device",
        Status::Memory => "memory",
        Status::Refuted => "refuted",
    }
}

/// How a run ended, a space, and what was put out.
fn said(alloc: Global, status: Status, put: &[u8]) -> Result<String, AllocError> {
    let mut whole = String::from_str(alloc, word_of(status))?;
    whole.push(' ')?;
    whole.push_str(str::from_utf8(put).unwrap_or("(no text)"))?;
    Ok(whole)
}

/// How words end over files, a space, and what they put out.
pub fn said_over<R: Threads + Sync + AllocGlobal>(
    rt: &R,
    words: &str,
    files: &mut MemFiles,
) -> Result<String, Fail> {
    let alloc = rt.alloc();
    let mut out = MemSink::new(alloc, 1000, Vec::new(alloc));
    let status = status_over(rt, words, files, &mut out)?;
    Ok(said(alloc, status, out.taken())?)
}

/// The same where the output takes a byte at once, and its call with this number fails, if any has it.
pub fn said_by_bytes<R: Threads + Sync + AllocGlobal>(
    rt: &R,
    words: &str,
    files: &mut MemFiles,
    put_fail: u64,
) -> Result<String, Fail> {
    let alloc = rt.alloc();
    let fails = Vec::from_slice(alloc, &[put_fail])?;
    let mut out = MemSink::new(alloc, 1, fails);
    let status = status_over(rt, words, files, &mut out)?;
    Ok(said(alloc, status, out.taken())?)
}

/// How words end over the texts of a run, a space, and what they put out.
pub fn said_of<R: Threads + Sync + AllocGlobal>(
    rt: &R,
    words: &str,
    texts: &Texts,
) -> Result<String, Fail> {
    let mut files = files_of_run(rt.alloc(), texts, 0)?;
    said_over(rt, words, &mut files)
}

/// Adds a text of a row.
fn push_text(whole: &mut String, text: &str) -> Result<(), AllocError> {
    for letter in text.chars() {
        whole.push(if letter == '@' { '\n' } else { letter })?;
    }
    Ok(())
}

/// A text of a row, behind another.
pub fn text_of(alloc: Global, before: &str, text: &str) -> Result<String, AllocError> {
    let mut whole = String::from_str(alloc, before)?;
    push_text(&mut whole, text)?;
    Ok(whole)
}

/// How a run ends that puts this out.
fn status_of(want: &str) -> Status {
    for (beginning, status) in [
        ("fault usage", Status::Usage),
        ("fault", Status::Text),
        ("limit", Status::Limit),
        ("device", Status::Device),
        ("$ unknown", Status::Unknown),
        ("$ violated", Status::Refuted),
        ("$ objective", Status::Refuted),
        ("$ wrong", Status::Refuted),
        ("$ bad", Status::Refuted),
        ("$ no empty", Status::Refuted),
    ] {
        if want.starts_with(beginning) {
            return status;
        }
    }
    Status::Answered
}

/// What is said where this text of a row is put out behind a first line.
pub fn wanted(alloc: Global, first_line: &str, want: &str) -> Result<String, AllocError> {
    let mut whole = said(alloc, status_of(want), first_line.as_bytes())?;
    push_text(&mut whole, want)?;
    Ok(whole)
}

/// A row's three parts.
fn parts_of(row: &str) -> (&str, &str, &str) {
    let (first, rest) = row.split_once('#').unwrap_or((row, ""));
    let (second, third) = rest.split_once('#').unwrap_or((rest, ""));
    (first, second, third)
}

/// What the words say over a row's model, with its second part as parameters and as solution.
fn said_of_row<R: Threads + Sync + AllocGlobal>(
    rt: &R,
    words: &str,
    row: &str,
) -> Result<String, Fail> {
    let alloc = rt.alloc();
    let (model, input, _) = parts_of(row);
    let model = text_of(alloc, FIRST_LINE, model)?;
    let input = text_of(alloc, "", input)?;
    let texts = Texts {
        model: model.as_bytes(),
        params: input.as_bytes(),
        solution: input.as_bytes(),
    };
    said_of(rt, words, &texts)
}

/// Nothing where what is said is what a row wants, and else the row and what is said.
pub fn difference(
    alloc: Global,
    row: &str,
    said: &str,
    first_line: &str,
    want: &str,
) -> Result<String, AllocError> {
    let want = wanted(alloc, first_line, want)?;
    let mut whole = String::new(alloc);
    if said != want.as_str() {
        whole.push_str(row)?;
        whole.push_str(" BUT ")?;
        whole.push_str(said)?;
    }
    Ok(whole)
}

/// A row with what the words say of it, where that isn't its third part below this line, and else nothing.
pub fn wrong_row<R: Threads + Sync + AllocGlobal>(
    rt: &R,
    words: &str,
    first_line: &str,
    row: &str,
) -> Result<String, Fail> {
    let said = said_of_row(rt, words, row)?;
    let (_, _, want) = parts_of(row);
    Ok(difference(rt.alloc(), row, said.as_str(), first_line, want)?)
}

/// The first row of a table that is wrong, with what is said of it, or nothing.
pub fn wrong_rows<R: Threads + Sync + AllocGlobal>(
    rt: &R,
    words: &str,
    first_line: &str,
    table: &str,
) -> Result<String, Fail> {
    for row in table.lines() {
        let wrong = wrong_row(rt, words, first_line, row)?;
        if !wrong.is_empty() {
            return Ok(wrong);
        }
    }
    Ok(String::new(rt.alloc()))
}

/// The same where each row has the end of its words in front.
pub fn wrong_behind<R: Threads + Sync + AllocGlobal>(
    rt: &R,
    words: &str,
    first_line: &str,
    table: &str,
) -> Result<String, Fail> {
    for line in table.lines() {
        let (end, row) = line.split_once('#').unwrap_or(("", line));
        let words = joined(rt.alloc(), words, end)?;
        let wrong = wrong_row(rt, words.as_str(), first_line, row)?;
        if !wrong.is_empty() {
            return Ok(wrong);
        }
    }
    Ok(String::new(rt.alloc()))
}

/// A text and another behind it.
pub fn joined(alloc: Global, text: &str, end: &str) -> Result<String, AllocError> {
    let mut whole = String::from_str(alloc, text)?;
    whole.push_str(end)?;
    Ok(whole)
}
