//! Writes the files that what is wanted names for output.

ghost use Rattle.std.specs.Prelude.{◌≤◌, All};
ghost use Rattle.ep_base.specs.Outside.{Rose};
ghost use Rattle.sat_text.specs.Writing.{IsReadableNote};
ghost use Rattle.ep_driver.specs.Outputs.{outputs_in_order, written_for};
ghost use Rattle.ep_driver.specs.Searches.{CanBeRequested, CanBeWanted, LogsInstance, NotesMayBeWritten};
ghost use Rattle.ep_outputs.specs.Writes.{TellsWritten};

use super::wanted::{Outputs, Request, Wanted};
use cnf_core::Log;
use ep_base::Files;
use ep_files::Stop;
use ep_outputs::{write_answer, write_formula, write_steps, write_texts};
use std::alloc::Global;

/// Writes the files that what is wanted names for output.
pub fn write_wanted<F: Files>(
    alloc: Global,
    files: &mut F,
    wanted: Wanted,
    log: &Log,
    answer: &[u8],
) -> Result<(), Stop>
    requires possible { CanBeWanted wanted }
    requires readable { NotesMayBeWritten wanted → All IsReadableNote log.now.notes }
    ensures tells { TellsWritten log.now answer.now (written_for wanted) (F.held files.old) (F.held files.new)
        (Rose (F.faults files.old) (F.faults files.new)) result }
    ensures faults { F.faults files.old ≤ F.faults files.new }
{
    match wanted {
        Wanted::Search {
            request,
            outputs,
            ..
        } => write_searched(alloc, files, request, outputs, log, answer),
        Wanted::Opb { .. } => Ok(()),
        Wanted::Verify { .. } => Ok(()),
        Wanted::Check { .. } => Ok(()),
        Wanted::Generate {
            number,
            eprime,
            param,
            ..
        } => write_texts(alloc, files, number, eprime, param),
    }
}

/// Writes the files that are named for output, of which an explanation has none.
fn write_searched<F: Files>(
    alloc: Global,
    files: &mut F,
    request: Request,
    outputs: Outputs,
    log: &Log,
    answer: &[u8],
) -> Result<(), Stop>
    requires possible { CanBeRequested request outputs }
    requires readable { LogsInstance request → All IsReadableNote log.now.notes }
    ensures tells { TellsWritten log.now answer.now (outputs_in_order outputs) (F.held files.old) (F.held files.new)
        (Rose (F.faults files.old) (F.faults files.new)) result }
    ensures faults { F.faults files.old ≤ F.faults files.new }
{
    match request {
        Request::One { .. } => write_outputs(alloc, files, outputs, log, answer),
        Request::Divided { .. } => write_outputs(alloc, files, outputs, log, answer),
        Request::Many { .. } => write_outputs(alloc, files, outputs, log, answer),
        Request::Explained { .. } => Ok(()),
        Request::Generated { .. } => write_outputs(alloc, files, outputs, log, answer),
    }
}

/// Writes the files that are named for output: the formula, the steps of the log, and the answer.
fn write_outputs<F: Files>(
    alloc: Global,
    files: &mut F,
    outputs: Outputs,
    log: &Log,
    answer: &[u8],
) -> Result<(), Stop>
    requires readable { All IsReadableNote log.now.notes }
    ensures tells { TellsWritten log.now answer.now (outputs_in_order outputs) (F.held files.old) (F.held files.new)
        (Rose (F.faults files.old) (F.faults files.new)) result }
    ensures faults { F.faults files.old ≤ F.faults files.new }
{
    write_formula(alloc, files, outputs.formula, log)?;
    write_steps(alloc, files, outputs.log, log)?;
    write_answer(files, outputs.solution, log, answer)
}
