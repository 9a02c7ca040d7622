//! Writes files one by one.

ghost use Rattle.std.specs.Prelude.{◌≤◌, ℕ, All, List};
ghost use Rattle.ep_base.specs.Outside.{Rose};
ghost use Rattle.cnf_core.specs.Events.{LogState};
ghost use Rattle.sat_text.specs.Writing.{IsReadableNote};
ghost use Rattle.ep_outputs.specs.Outputs.{a_formula, a_text, an_answer, for_texts, named, steps};
ghost use Rattle.ep_outputs.specs.Writes.{TellsWrite, TellsWritten};

use super::texts::formula_text;
use cnf_core::Log;
use ep_base::{FileError, Files, Word};
use ep_files::Stop;
use ep_gen::gen_text;
use ep_print::Refusal;
use sat_text::write_log;
use std::alloc::Global;

/// Writes the texts of a number, the model first.
pub fn write_texts<F: Files>(
    alloc: Global,
    files: &mut F,
    number: u64,
    eprime: Option<Word>,
    param: Option<Word>,
) -> Result<(), Stop>
    requires within { number ≤ 1000000000 }
    ensures tells { (log : LogState) (answer : List ℕ) → TellsWritten log answer (for_texts number eprime param) (F.held files.old) (F.held files.new)
        (Rose (F.faults files.old) (F.faults files.new)) result }
    ensures faults { F.faults files.old ≤ F.faults files.new }
{
    let texts = gen_text(alloc, number)?;
    write_named(files, eprime, &texts.0)?;
    write_named(files, param, &texts.1)
}

/// Writes a text into the file of this name, if there is one.
fn write_named<F: Files>(files: &mut F, output: Option<Word>, text: &[u8]) -> Result<(), Stop>
    ensures tells { (log : LogState) (answer : List ℕ) → TellsWritten log answer (named (a_text text.now) output) (F.held files.old) (F.held files.new)
        (Rose (F.faults files.old) (F.faults files.new)) result }
    ensures faults { F.faults files.old ≤ F.faults files.new }
{
    let Some(name) = output else {
        return Ok(());
    };
    write_text(files, name, text)
}

/// Writes the formula into the file of this name, if there is one.
pub fn write_formula<F: Files>(
    alloc: Global,
    files: &mut F,
    output: Option<Word>,
    log: &Log,
) -> Result<(), Stop>
    requires readable { All IsReadableNote log.now.notes }
    ensures tells { (answer : List ℕ) → TellsWritten log.now answer (named a_formula output) (F.held files.old) (F.held files.new)
        (Rose (F.faults files.old) (F.faults files.new)) result }
    ensures faults { F.faults files.old ≤ F.faults files.new }
{
    let Some(name) = output else {
        return Ok(());
    };
    let text = formula_text(alloc, log)?;
    write_text(files, name, &text)
}

/// Writes the steps of the log into the file of this name, if there is one.
pub fn write_steps<F: Files>(
    alloc: Global,
    files: &mut F,
    output: Option<Word>,
    log: &Log,
) -> Result<(), Stop>
    ensures tells { (answer : List ℕ) → TellsWritten log.now answer (named steps output) (F.held files.old) (F.held files.new)
        (Rose (F.faults files.old) (F.faults files.new)) result }
    ensures faults { F.faults files.old ≤ F.faults files.new }
{
    let Some(name) = output else {
        return Ok(());
    };
    let text = write_log(alloc, log)?;
    write_text(files, name, &text)
}

/// Writes the answer into the file of this name, if there is one.
pub fn write_answer<F: Files>(
    files: &mut F,
    output: Option<Word>,
    log: &Log,
    answer: &[u8],
) -> Result<(), Stop>
    ensures tells { TellsWritten log.now answer.now (named an_answer output) (F.held files.old) (F.held files.new)
        (Rose (F.faults files.old) (F.faults files.new)) result }
    ensures faults { F.faults files.old ≤ F.faults files.new }
{
    let _ = log;
    let Some(name) = output else {
        return Ok(());
    };
    write_text(files, name, answer)
}

/// Writes a text under a name.
fn write_text<F: Files>(files: &mut F, name: Word, text: &[u8]) -> Result<(), Stop>
    ensures tells { TellsWrite name text.now (F.held files.old) (F.held files.new)
        (Rose (F.faults files.old) (F.faults files.new)) result }
    ensures faults { F.faults files.old ≤ F.faults files.new }
{
    match files.write(name.text(), text) {
        Ok(()) => Ok(()),
        Err(FileError::Failed) => Err(Stop::Refused(Refusal::CannotWrite(name))),
        Err(FileError::Memory) => Err(Stop::Memory),
    }
}
