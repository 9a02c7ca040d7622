//! What the program does for the words of its command line.

use crate::posing::{pose, read_formula};
use crate::refusal::Refusal;
use crate::texts::{Reply, last_valued, reply_to};
use crate::words::read_request;
use cnf_core::Log;
use ep_base::{FileError, Files, Word};
use sat_text::write_log;
use std::alloc::Global;

/// Solves the formula of the file that the words name, and writes the log where they name a file for it.
///
/// # Errors
///
/// Each [`Refusal`]. The log is written before anything is answered.
pub fn answer<F: Files>(alloc: Global, words: &[Word], files: &mut F) -> Result<Reply, Refusal> {
    let asked = read_request(words)?;
    let formula = read_formula(alloc, files, asked.file)?;
    let vars = last_valued(&formula);
    let (mut solver, mut log) = pose(alloc, formula)?;
    let outcome = solver.solve(asked.conflicts, &mut log)?;
    if let Some(name) = asked.log {
        keep_log(alloc, files, name, &log)?;
    }
    reply_to(alloc, outcome, &solver, vars, log.steps())
}

/// Writes a log to a file as LRAT.
fn keep_log<F: Files>(alloc: Global, files: &mut F, name: &str, log: &Log) -> Result<(), Refusal> {
    let text = write_log(alloc, log)?;
    match files.write(name, &text) {
        Ok(()) => Ok(()),
        Err(FileError::Failed) => Err(Refusal::Unwritten),
        Err(FileError::Memory) => Err(Refusal::Memory),
    }
}
