//! The program `join_cubes`, which joins the proofs of a formula's cubes, by whatever solvers, into one proof of the formula.
#![tactic(auto)]

mod answer;
mod refusal;
#[cfg(test)]
mod tests;

use crate::answer::joined_text;
use crate::refusal::Refusal;
use ep_base::{StdFiles, StdSink, Word, put_all};
use std::io::ErrorKind;
use std::process::ExitCode;
use std::rt::Env;
use std::{env, io};

/// The status where nothing is joined.
const REFUSED: u8 = 1;

fn main(rt: HostRuntime) -> ExitCode {
    let mut files = StdFiles::new(&rt);
    let joined = match words_of(&rt) {
        Ok(words) => joined_text(rt.alloc(), &words, &mut files),
        Err(refusal) => Err(refusal),
    };
    let status = match joined {
        Ok(text) => status_of(&rt, &text),
        Err(refusal) => {
            let _ = println!(rt; "c {refusal}");
            REFUSED
        }
    };
    ExitCode::from(status)
}

/// Puts the text out, and answers the status with which the program ends.
fn status_of<R: Print + Drop>(rt: R, text: &[u8]) -> u8 {
    match put_all(&mut StdSink::new(rt), text) {
        Ok(()) => 0,
        Err(_) => REFUSED,
    }
}

/// The words after the program's name. Where the system doesn't give them as texts they are no request.
fn words_of<R: Env + AllocGlobal>(rt: &R) -> Result<Vec<Word>, Refusal> {
    let mut words = Vec::new(rt.alloc());
    for text in env::args(rt).map_err(refusal_of)?.skip(1) {
        words.push(Word::new(rt.alloc(), text.as_str())?)?;
    }
    Ok(words)
}

fn refusal_of(error: io::Error) -> Refusal {
    match error.kind() {
        ErrorKind::OutOfMemory => Refusal::Memory,
        _ => Refusal::Usage,
    }
}
