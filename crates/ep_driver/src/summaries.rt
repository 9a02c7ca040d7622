//! Sums up what the texts of a number came to.

ghost use Rattle.std.specs.Prelude.{◌≡◌, [], IfOk};
ghost use Rattle.std.specs.List.{All};
ghost use Rattle.ep_base.specs.Reads.{IsWithinNumbers};
ghost use Rattle.ep_tree.specs.Closed.{IsClosed};
ghost use Rattle.ep_tree.specs.Solutions.{instance_limits};
ghost use Rattle.ep_instance_parts.specs.Instances.{plain_instance, instance_mode};
ghost use Rattle.ep_solve.specs.Right.{empty_log};
ghost use Rattle.sat_search.specs.Logs.{IsSound};
ghost use Rattle.ep_driver.specs.Answers.{Settles};
ghost use Rattle.ep_driver.specs.Outcomes.{to_generate};
ghost use Rattle.ep_driver.specs.Steps.{IsSearched};

use super::answering::answer_status;
use super::replies::Reply;
use cnf_core::Log;
use ep_base::Memory;
use ep_instance::Instance;
use ep_said::summary_text;
use ep_solve::solve;
use std::alloc::Global;

/// What is said of the instance of a number's texts within so many conflicts.
pub fn summed_reply(
    alloc: Global,
    instance: &Instance,
    number: u64,
    conflicts: u64,
    log: &mut Log,
) -> Result<Reply, Memory>
    requires closed { IsClosed (plain_instance instance.now) }
    requires numbers { All (λ f. All IsWithinNumbers f.values) (plain_instance instance.now).finds }
    requires within { instance_limits (instance_mode instance.now) (plain_instance instance.now) ≡ [] }
    requires empty { log.old ≡ empty_log }
    ensures answers { IfOk result (λ reply.
        Settles (to_generate number (instance_mode instance.now) (plain_instance instance.now) conflicts)
        reply.status reply.text.items log.new) }
    ensures ends { IfOk result (λ reply. IsSearched conflicts reply.status log.new) }
    ensures sound { IsSound log.new.events }
{
    let answer = solve(alloc, instance, conflicts, log)?;
    let text = summary_text(alloc, number, &answer)?;
    Ok(Reply {
        status: answer_status(&answer),
        text,
    })
}
