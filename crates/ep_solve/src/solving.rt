//! The answer of an instance.

ghost use Rattle.std.specs.Prelude.{◌≡◌, [], length, map, take, IfOk};
ghost use Rattle.std.specs.List.{All};
ghost use Rattle.ep_answer.specs.Answered.{AnswersCells};
ghost use Rattle.ep_answer.specs.AnswerViews.{plain_answer, plain_problem};
ghost use Rattle.ep_answer.specs.Problems.{CanSearch};
ghost use Rattle.ep_base.specs.Reads.{IsWithinNumbers};
ghost use Rattle.ep_instance_parts.specs.Instances.{find_of, plain_instance, instance_mode};
ghost use Rattle.ep_print.specs.Answers.{HasTypedValues, answer_tree};
ghost use Rattle.ep_solve.specs.Reading.{answer_from};
ghost use Rattle.ep_solve.specs.Logged.{IsLogged};
ghost use Rattle.ep_solve.specs.Right.{IsRight, empty_log};
ghost use Rattle.ep_solve.specs.Searched.{AddsBounds};
ghost use Rattle.ep_tree.specs.Closed.{IsClosed};
ghost use Rattle.ep_tree.specs.Solutions.{instance_limits};
ghost use Rattle.sat_search.specs.Logs.{IsSound};

use crate::formulas::formula_for;
use crate::posing::posed;
use crate::reading_back::assignment_from;
use cnf_core::Log;
use ep_answer::{CellAnswer, Problem, find_one, optimise};
use ep_base::Memory;
use ep_instance_parts::{Find, Instance};
use ep_print::Answer;
use std::alloc::Global;

/// The answer of an instance: a solution, an optimum where an objective is stated, that there is
/// none, or that so many conflicts were spent. The formula, a given for each number of the objective that was
/// reached, which asks for a better one, and the solver's steps stand in the log then, and each step is sound,
/// however it ends.
pub fn solve(
    alloc: Global,
    instance: &Instance,
    budget: u64,
    log: &mut Log,
) -> Result<Answer, Memory>
    requires closed { IsClosed (plain_instance instance.now) }
    requires within { instance_limits (instance_mode instance.now) (plain_instance instance.now) ≡ [] }
    requires values { All (λ f. All IsWithinNumbers f.values) (plain_instance instance.now).finds }
    requires empty { log.old ≡ empty_log }
    ensures right { IfOk result (λ answer.
        IsRight (instance_mode instance.now) (plain_instance instance.now) budget (answer_tree answer)) }
    ensures typed { IfOk result (λ answer. HasTypedValues (answer_tree answer)) }
    ensures logged { IfOk result (λ answer.
        IsLogged (instance_mode instance.now) (plain_instance instance.now) budget log.new (answer_tree answer)) }
    ensures sound { IsSound log.new.events }
{
    let encoded = formula_for(alloc, instance)?;
    let mut problem = posed(alloc, encoded, log)?;
    let found = search(alloc, &mut problem, budget, log)?;
    read_back(alloc, instance.finds(), budget, found)
}

/// Numbers of the cells that answer a problem.
#[tactic(auto, using(crate::proofs::Showing::adds_none, crate::proofs::Showing::adds_improved))]
fn search(
    alloc: Global,
    problem: &mut Problem,
    budget: u64,
    log: &mut Log,
) -> Result<CellAnswer, Memory>
    requires { CanSearch (plain_problem problem.old) log.old }
    ensures answers { IfOk result (λ found.
        AnswersCells (plain_problem problem.old) budget log.new (plain_answer found)) }
    ensures adds { IfOk result (λ found.
        AddsBounds (plain_problem problem.old) (plain_answer found) log.old log.new) }
    ensures sound { IsSound log.old.events → IsSound log.new.events }
    ensures front { take (length log.old.events) log.new.events ≡ log.old.events }
    ensures base { log.new.base ≡ log.old.base }
    ensures notes { log.new.notes ≡ log.old.notes }
{
    match problem.map.objective {
        None => find_one(alloc, problem, budget, log),
        Some(_) => optimise(alloc, problem, budget, log),
    }
}

/// An answer over numbers of the cells as one over values of the decision variables. Linear in the cells.
#[tactic(auto, unfolding(crate::specs::Reading::answer_from, ep_print::specs::Answers::answer_tree, ep_print::specs::Answers::unknown_tree))]
pub fn read_back(
    alloc: Global,
    finds: &[Find],
    budget: u64,
    found: CellAnswer,
) -> Result<Answer, Memory>
    ensures { IfOk result (λ answer.
        answer_tree answer ≡ answer_from (map find_of finds.now) budget (plain_answer found)) }
{
    match found {
        CellAnswer::Solution(cells) => {
            Ok(Answer::Solution(assignment_from(alloc, finds, &cells)?))
        }
        CellAnswer::Optimum(number, cells) => Ok(Answer::Optimum(
            number,
            assignment_from(alloc, finds, &cells)?,
        )),
        CellAnswer::NoSolution => Ok(Answer::NoSolution),
        CellAnswer::Unknown(None) => Ok(Answer::Unknown {
            conflicts: budget,
            incumbent: None,
        }),
        CellAnswer::Unknown(Some((number, cells))) => {
            let incumbent = assignment_from(alloc, finds, &cells)?;
            Ok(Answer::Unknown {
                conflicts: budget,
                incumbent: Some((number, incumbent)),
            })
        }
    }
}
