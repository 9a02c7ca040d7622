//! Solves the texts of a number.

ghost use Rattle.std.specs.Prelude.{◌≡◌, ◌≤◌, All, IfOk};
ghost use Rattle.ep_solve.specs.Right.{empty_log};
ghost use Rattle.sat_text.specs.Writing.{IsReadableNote};
ghost use Rattle.sat_search.specs.Logs.{IsSound};
ghost use Rattle.ep_driver.specs.Shown.{comes_to_generate};
ghost use Rattle.ep_driver.specs.Steps.{EndsBy, IsSearched, TellsShown};

use super::replies::Reply;
use super::runs::search_texts;
use super::wanted::Request;
use cnf_core::Log;
use ep_files::{Stop, model_in, params_in};
use ep_gen::gen_text;
use ep_print::TextFile;
use ep_tree::Mode;
use std::alloc::Global;
use std::thread::Threads;

/// Makes the texts of a number, and solves them within so many conflicts.
pub fn generate<R: Threads + Sync>(
    rt: &R,
    alloc: Global,
    number: u64,
    conflicts: u64,
    log: &mut Log,
) -> Result<Reply, Stop>
    requires within { number ≤ 1000000000 }
    requires empty { log.old ≡ empty_log }
    ensures tells { TellsShown (comes_to_generate number conflicts) log.new result }
    ensures ends { EndsBy (IsSound log.new.events) (λ status. IsSearched conflicts status log.new) log.new result }
    ensures readable { IfOk result (λ reply. All IsReadableNote log.new.notes) }
{
    let texts = gen_text(alloc, number)?;
    let model = model_in(alloc, &texts.0)?;
    let params = params_in(alloc, TextFile::Params, &texts.1)?;
    let request = Request::Generated { number, conflicts };
    search_texts(rt, alloc, model, params, Mode::Relational, request, log)
}
