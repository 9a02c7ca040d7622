//! What is to be said to the words, and with which status.

ghost use Rattle.std.specs.Prelude.{◌≡◌, ◌≤◌, IfOk, OnErr};
ghost use Rattle.ep_base.specs.Outside.{Rose};
ghost use Rattle.ep_print.specs.Refusals.{refusal_text};
ghost use Rattle.ep_solve.specs.Right.{empty_log};
ghost use Rattle.ep_driver.specs.Puts.{HoldOnWant};
ghost use Rattle.ep_files.specs.Status.{HasReply, status_of};
ghost use Rattle.ep_driver.specs.Steps.{AnswersWords, IsSoundRun, LogsTask, SaysOfRun, TellsRun};

use super::runs::do_wanted;
use super::wanted::read_wanted;
use super::writing::write_wanted;
use cnf_core::Log;
use ep_base::{Files, Memory, Word};
use ep_files::{Status, Stop, status_of};
use ep_print::{Refusal, refusal_line};
use std::alloc::Global;
use std::thread::Threads;

/// A status and the text that goes with it.
#[derive(Drop)]
pub struct Reply {
    pub status: Status,
    pub text: Vec<u8>,
}

/// What the words ask to be said.
pub fn reply_to<R: Threads + Sync, F: Files>(
    rt: &R,
    alloc: Global,
    words: &[Word],
    files: &mut F,
    log: &mut Log,
) -> Result<Reply, Memory>
    requires empty { log.old ≡ empty_log }
    ensures says { IfOk result (λ reply. SaysOfRun words.now (F.held files.old) (F.held files.new)
        (Rose (F.faults files.old) (F.faults files.new)) reply.status reply.text.items log.new) }
    ensures generated { IfOk result (λ reply. HasReply reply.status →
        AnswersWords words.now reply.status reply.text.items log.new) }
    ensures wants { OnErr result (HoldOnWant words.now (F.held files.old) (F.held files.new)
        (Rose (F.faults files.old) (F.faults files.new)) log.new) }
    ensures asked { OnErr result (LogsTask words.now (F.held files.old) log.new) }
    ensures sound { IsSoundRun words.now log.new.events }
    ensures faults { F.faults files.old ≤ F.faults files.new }
{
    match run_words(rt, alloc, words, files, log) {
        Ok(reply) => Ok(reply),
        Err(Stop::Refused(refusal)) => refused(alloc, &refusal),
        Err(Stop::Memory) => Err(Memory),
    }
}

/// Does what the words want, and writes what answers into the files that are named for output.
fn run_words<R: Threads + Sync, F: Files>(
    rt: &R,
    alloc: Global,
    words: &[Word],
    files: &mut F,
    log: &mut Log,
) -> Result<Reply, Stop>
    requires empty { log.old ≡ empty_log }
    ensures tells { TellsRun words.now (F.held files.old) (F.held files.new)
        (Rose (F.faults files.old) (F.faults files.new)) log.new result }
    ensures generated { IfOk result (λ reply. AnswersWords words.now reply.status reply.text.items log.new) }
    ensures faults { F.faults files.old ≤ F.faults files.new }
{
    let wanted = read_wanted(alloc, words)?;
    let reply = do_wanted(rt, alloc, files, &wanted, log)?;
    write_wanted(alloc, files, wanted, log, &reply.text)?;
    Ok(reply)
}

/// The status and the line of a refusal.
fn refused(alloc: Global, refusal: &Refusal) -> Result<Reply, Memory>
    ensures status { IfOk result (λ reply. reply.status ≡ status_of refusal.now) }
    ensures line { IfOk result (λ reply. reply.text.items ≡ refusal_text refusal.now) }
{
    Ok(Reply {
        status: status_of(refusal),
        text: refusal_line(alloc, refusal)?,
    })
}
