//! What is said of a text.

ghost use Rattle.std.specs.Prelude.{◌≡◌, ◌⊎◌, [], All, IfOk, Err};
ghost use Rattle.opb_answer.specs.Answers.{plain_found};
ghost use Rattle.opb_solve.specs.Replies.{GivesOpb, OpbComesTo, ReadsOpb, RepliesToOpb, says_spent, read_stop, size_stop};
ghost use Rattle.opb_solve.specs.declared.replies.OpbRefusal.{OpbRefusal as Refusal};
ghost use Rattle.opb_solve.specs.declared.replies.OpbStop.TheVariants as stops;
ghost use Rattle.opb_text.specs.Contents.{OpbContent};
ghost use Rattle.opb_text.specs.Grammar.{SpellsOpb};
ghost use Rattle.opb_text.specs.Views.{plain_opb};
ghost use Rattle.sat_search.specs.Logs.{IsSound};
ghost use Rattle.sat_text.specs.Writing.{IsReadableNote};

use crate::solving::solve_opb;
use cnf_core::Log;
use ep_base::{Limit, Memory};
use opb_answer::{OpbAnswer, print_opb_answer};
use opb_text::{Opb, OpbError, OpbSizeError, measure_opb, read_opb};
use std::alloc::Global;

/// What is put out.
#[derive(Debug, Drop)]
pub struct OpbReply {
    /// The lines of the answer.
    pub text: Vec<u8>,
    /// Whether the conflicts were spent before more was known.
    pub spent: bool,
}

/// Why a text isn't taken on.
#[derive(Clone, Copy, Debug, PartialEq, Eq)]
pub enum OpbRefusal {
    /// It has more than [`opb_text::MOST_BYTES`] bytes.
    TooLong,
    /// The first word with which no text can go on stands on this line, counted from 1, or words are wanting at the end, and
    /// then it is the text's last line.
    Bad(u64),
    /// Its problem is over this limit.
    Over(Limit),
}

/// Why a text has no reply.
#[derive(Clone, Copy, Debug, PartialEq, Eq)]
pub enum OpbStop {
    /// It is refused.
    Refused(OpbRefusal),
    /// An allocation was refused.
    Memory,
}

impl From<Memory> for OpbStop {
    ghost use Rattle.opb_solve.specs.declared.replies.OpbStop.TheVariants.{Memory};

    ghost from_gives = { λ _ e. e ≡ Memory };

    fn from(_refused: Memory) -> OpbStop {
        OpbStop::Memory
    }
}

/// What is said of a text within so many conflicts. Nothing is logged where the text is refused; else the log is as
/// [`solve_opb`] leaves it, and each step is sound, however it ends.
///
/// # Errors
///
/// A refusal exactly where the text is refused so.
pub fn reply_to_opb(
    alloc: Global,
    text: &[u8],
    budget: u64,
    log: &mut Log,
) -> Result<OpbReply, OpbStop>
    requires empty { log.old ≡ record { events = []; notes = []; base = 0 } }
    ensures replies { RepliesToOpb text.now budget log.new result }
    ensures refused { (refusal : Refusal) → OpbComesTo text.now (Err refusal)
        → ((result ≡ Err (stops.Refused refusal)) ⊎ (result ≡ Err stops.Memory)) × (log.new ≡ log.old) }
    ensures readable { IfOk result (λ reply. All IsReadableNote log.new.notes) }
    ensures sound { IsSound log.new.events }
{
    let opb = opb_in(alloc, text)?;
    let answer = solve_opb(alloc, &opb, budget, log)?;
    let lines = print_opb_answer(alloc, &answer)?;
    let spent = says_spent(&answer);
    Ok(OpbReply { text: lines, spent })
}

/// The problem that a text comes to.
fn opb_in(alloc: Global, text: &[u8]) -> Result<Opb, OpbStop>
    ensures gives { GivesOpb text.now result }
    ensures refused { (refusal : Refusal) → OpbComesTo text.now (Err refusal)
        → (result ≡ Err (stops.Refused refusal)) ⊎ (result ≡ Err stops.Memory) }
{
    let opb = read(alloc, text)?;
    match measure_opb(alloc, &opb) {
        Ok(_weight) => Ok(opb),
        Err(error) => Err(size_stop(error)),
    }
}

/// The problem that a text spells.
fn read(alloc: Global, text: &[u8]) -> Result<Opb, OpbStop>
    ensures reads { ReadsOpb text.now result }
    ensures only { (content : OpbContent) → SpellsOpb text.now content → IfOk result (λ opb. plain_opb opb ≡ content) }
{
    match read_opb(alloc, text) {
        Ok(opb) => Ok(opb),
        Err(error) => Err(read_stop(error)),
    }
}

/// What an error of reading stops for.
fn read_stop(error: OpbError) -> OpbStop
    ensures { result ≡ read_stop error }
{
    match error {
        OpbError::TooLong => OpbStop::Refused(OpbRefusal::TooLong),
        OpbError::Bad(line) => OpbStop::Refused(OpbRefusal::Bad(line)),
        OpbError::Memory => OpbStop::Memory,
    }
}

/// What an error of measuring stops for.
fn size_stop(error: OpbSizeError) -> OpbStop
    ensures { result ≡ size_stop error }
{
    match error {
        OpbSizeError::Limit(limit) => OpbStop::Refused(OpbRefusal::Over(limit)),
        OpbSizeError::Memory => OpbStop::Memory,
    }
}

/// Whether an answer is that the conflicts were spent.
#[tactic(auto, unfolding(crate::specs::Replies::says_spent))]
fn says_spent(answer: &OpbAnswer) -> bool
    ensures { result ≡ says_spent (plain_found answer.now) }
{
    match answer {
        OpbAnswer::Solution(_) | OpbAnswer::Optimum(_) | OpbAnswer::NoSolution => false,
        OpbAnswer::Unknown(_) => true,
    }
}
