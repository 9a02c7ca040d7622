//! Says whether a solution text is a solution.

ghost use Rattle.std.specs.Prelude.{◌≡◌, [], IfOk};
ghost use Rattle.ep_tree.specs.Closed.{IsClosed};
ghost use Rattle.ep_tree.specs.Solutions.{Fits, Found, instance_limits};
ghost use Rattle.ep_tree.specs.Views.{assigned};
ghost use Rattle.ep_types.specs.Texts.{typed_params_tree};
ghost use Rattle.ep_instance_parts.specs.Instances.{plain_instance, instance_mode};
ghost use Rattle.ep_instance.specs.Judgements.{judgement_of};
ghost use Rattle.ep_solve.specs.Right.{empty_log};
ghost use Rattle.ep_driver.specs.Answers.{judgement_status};
ghost use Rattle.ep_driver.specs.Outcomes.{judge_outcome};
ghost use Rattle.ep_driver.specs.Steps.{IsJudged, TellsReply, TellsShape};

use super::errors::bind_stop;
use super::replies::Reply;
use ep_base::Memory;
use ep_files::{Status, Stop};
use ep_instance::{Instance, Judgement, Shaped, is_solution, read_assignment};
use ep_said::{judgement_text, wrong_shape_text};
use ep_tree::Assignment;
use ep_types::TypedParams;
use std::alloc::Global;

/// What is said of a solution text.
pub fn judged_reply(
    alloc: Global,
    instance: &Instance,
    solution: TypedParams,
) -> Result<Reply, Stop>
    requires closed { IsClosed (plain_instance instance.now) }
    requires within { instance_limits (instance_mode instance.now) (plain_instance instance.now) ≡ [] }
    ensures { TellsReply
        (judge_outcome (instance_mode instance.now) (plain_instance instance.now) (typed_params_tree solution))
        empty_log result }
{
    match shaped(alloc, instance, solution)? {
        Shaped::Fits(assignment) => Ok(judged(alloc, instance, &assignment)?),
        Shaped::WrongShape(name) => Ok(Reply {
            status: Status::Refuted,
            text: wrong_shape_text(alloc, name.text())?,
        }),
    }
}

/// The assignment of a solution text, or a name that keeps it from giving one.
fn shaped(alloc: Global, instance: &Instance, solution: TypedParams) -> Result<Shaped, Stop>
    requires closed { IsClosed (plain_instance instance.now) }
    ensures { TellsShape (instance_mode instance.now) (plain_instance instance.now) (typed_params_tree solution) result }
{
    match read_assignment(alloc, instance, solution) {
        Ok(shaped) => Ok(shaped),
        Err(error) => Err(bind_stop(error)),
    }
}

/// What is said of an assignment that fits.
fn judged(alloc: Global, instance: &Instance, assignment: &Assignment) -> Result<Reply, Memory>
    requires closed { IsClosed (plain_instance instance.now) }
    requires within { instance_limits (instance_mode instance.now) (plain_instance instance.now) ≡ [] }
    requires fits { (found : Found) × Fits (plain_instance instance.now) (assigned assignment.now) found }
    ensures { IfOk result (λ reply. (found : Found)
        → Fits (plain_instance instance.now) (assigned assignment.now) found
        → IsJudged (instance_mode instance.now) (plain_instance instance.now) found reply.status reply.text.items) }
{
    let judgement = is_solution(alloc, instance, assignment)?;
    Ok(Reply {
        status: judgement_status(&judgement),
        text: judgement_text(alloc, &judgement)?,
    })
}

/// How a run ends that judges an assignment.
#[tactic(auto, unfolding(crate::specs::Answers::judgement_status))]
fn judgement_status(judgement: &Judgement) -> Status
    ensures { result ≡ judgement_status (judgement_of judgement.now) }
{
    match judgement {
        Judgement::Solution { .. } => Status::Answered,
        Judgement::Violated(_) | Judgement::ObjectiveUndefined => Status::Refuted,
    }
}
