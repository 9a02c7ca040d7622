//! The program `sat_bench`, for measuring the solver: it solves a formula in the DIMACS format within so many conflicts.
#![tactic(auto)]

mod answer;
mod posing;
mod refusal;
#[cfg(test)]
mod tests;
mod texts;
mod words;

use crate::answer::answer;
use crate::refusal::Refusal;
use crate::texts::Reply;
use ep_base::{StdFiles, StdSink, Word, put_all};
use std::io::ErrorKind;
use std::process::ExitCode;
use std::rt::Env;
use std::{env, io};

/// The status where there is no answer.
const REFUSED: u8 = 1;

fn main(rt: HostRuntime) -> ExitCode {
    let mut files = StdFiles::new(&rt);
    let answered = match words_of(&rt) {
        Ok(words) => answer(rt.alloc(), &words, &mut files),
        Err(refusal) => Err(refusal),
    };
    let status = match answered {
        Ok(reply) => status_of(&rt, &reply),
        Err(refusal) => {
            let _ = println!(rt; "c {refusal}");
            REFUSED
        }
    };
    ExitCode::from(status)
}

/// Puts the text of a reply out, and answers the status with which the program ends.
fn status_of<R: Print + Drop>(rt: R, reply: &Reply) -> u8 {
    match put_all(&mut StdSink::new(rt), reply.text.as_bytes()) {
        Ok(()) => reply.status,
        Err(_) => REFUSED,
    }
}

/// The words after the program's name. Where the system doesn't give them as texts they are no request.
fn words_of<R: Env + AllocGlobal>(rt: &R) -> Result<Vec<Word>, Refusal> {
    let mut words = Vec::new(rt.alloc());
    for text in env::args(rt).map_err(refusal_of)?.skip(1) {
        words.push(Word::new(rt.alloc(), text.as_str())?)?;
    }
    Ok(words)
}

fn refusal_of(error: io::Error) -> Refusal {
    match error.kind() {
        ErrorKind::OutOfMemory => Refusal::Memory,
        _ => Refusal::Usage,
    }
}
