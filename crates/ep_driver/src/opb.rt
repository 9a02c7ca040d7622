//! What is said of a pseudo-Boolean problem.

ghost use Rattle.std.specs.Prelude.{◌≡◌, ◌≤◌, ◌∷◌, [], All, IfOk};
ghost use Rattle.ep_base.specs.Outside.{Rose};
ghost use Rattle.ep_files.specs.Readings.{IsReadBy};
ghost use Rattle.ep_solve.specs.Right.{empty_log};
ghost use Rattle.sat_search.specs.Logs.{IsSound};
ghost use Rattle.sat_text.specs.Writing.{IsReadableNote};
ghost use Rattle.ep_driver.specs.Shown.{IsOpbTextReadAs, ThenShows, is_opb_task};
ghost use Rattle.ep_driver.specs.Steps.{EndsBy, IsSearched, TellsShown, TellsTask};

use super::answering::spent_status;
use super::errors::opb_stop;
use super::replies::Reply;
use cnf_core::Log;
use ep_base::{Files, Word};
use ep_files::{Stop, read_bytes};
use opb_solve::{opb_texts_come_to_one_thing, reply_to_opb};
use opb_text::MOST_BYTES;
use std::alloc::Global;

/// What is said of the problem that a file holds.
pub fn opb_file_reply<F: Files>(
    alloc: Global,
    files: &mut F,
    opb: &Word,
    conflicts: u64,
    log: &mut Log,
) -> Result<Reply, Stop>
    requires empty { log.old ≡ empty_log }
    ensures tells { TellsTask (opb.now ∷ []) (λ held. ThenShows (IsReadBy IsOpbTextReadAs held opb.now) (is_opb_task conflicts))
        (F.held files.old) (Rose (F.faults files.old) (F.faults files.new)) log.new result }
    ensures ends { EndsBy (IsSound log.new.events) (λ status. IsSearched conflicts status log.new) log.new result }
    ensures readable { IfOk result (λ reply. All IsReadableNote log.new.notes) }
    ensures held { F.held files.new ≡ F.held files.old }
    ensures faults { F.faults files.old ≤ F.faults files.new }
{
    let text = read_bytes(alloc, files, opb, MOST_BYTES as u64)?;
    opb_reply(alloc, &text, conflicts, log)
}

/// What is said of the problem of a text.
fn opb_reply(alloc: Global, text: &[u8], conflicts: u64, log: &mut Log) -> Result<Reply, Stop>
    requires empty { log.old ≡ empty_log }
    ensures tells { TellsShown (ThenShows (IsOpbTextReadAs text.now) (is_opb_task conflicts)) log.new result }
    ensures ends { EndsBy (IsSound log.new.events) (λ status. IsSearched conflicts status log.new) log.new result }
    ensures readable { IfOk result (λ reply. All IsReadableNote log.new.notes) }
{
    opb_texts_come_to_one_thing();
    match reply_to_opb(alloc, text, conflicts, log) {
        Ok(reply) => Ok(Reply {
            status: spent_status(reply.spent),
            text: reply.text,
        }),
        Err(stop) => Err(opb_stop(stop)),
    }
}
