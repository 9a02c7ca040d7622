//! The answer of a problem.

ghost use Rattle.std.specs.Prelude.{◌≡◌, [], All, IfOk, length, take};
ghost use Rattle.ep_answer.specs.Answered.{AnswersCells, Improves};
ghost use Rattle.ep_answer.specs.AnswerViews.{plain_answer, plain_problem};
ghost use Rattle.ep_answer.specs.Problems.{CanSearch};
ghost use Rattle.ep_base.specs.Numbers.{is_one};
ghost use Rattle.opb_answer.specs.Answers.{plain_found};
ghost use Rattle.opb_answer.specs.Right.{IsRightOpb};
ghost use Rattle.opb_solve.specs.Logged.{IsOpbLogged};
ghost use Rattle.opb_solve.specs.Meant.{found_from, values_from};
ghost use Rattle.opb_text.specs.Views.{plain_opb};
ghost use Rattle.opb_text.specs.Weights.{IsProblemWithinReach};
ghost use Rattle.sat_search.specs.Logs.{IsSound};
ghost use Rattle.sat_text.specs.Writing.{IsReadableNote};

use crate::posing::posed;
use cnf_core::Log;
use ep_answer::{CellAnswer, Problem, find_one, optimise};
use ep_base::Memory;
use opb_answer::{OpbAnswer, OpbValue};
use opb_text::{Opb, opb_vars};
use std::alloc::Global;

/// The answer of a problem: a solution where no objective is stated, one with the smallest objective where one is, that there
/// is none, or that so many conflicts were spent. The formula, a given for each number of the objective that was reached,
/// which asks for a smaller one, and the solver's steps stand in the log then, and each step is sound, however it ends.
pub fn solve_opb(alloc: Global, opb: &Opb, budget: u64, log: &mut Log) -> Result<OpbAnswer, Memory>
    requires within { IsProblemWithinReach (plain_opb opb.now) }
    requires empty { log.old ≡ record { events = []; notes = []; base = 0 } }
    ensures right { IfOk result (λ answer. IsRightOpb (plain_opb opb.now) (plain_found answer)) }
    ensures logged { IfOk result (λ answer. IsOpbLogged (plain_opb opb.now) budget log.new (plain_found answer)) }
    ensures readable { IfOk result (λ answer. All IsReadableNote log.new.notes) }
    ensures sound { IsSound log.new.events }
{
    let vars = opb_vars(alloc, opb)?;
    let mut problem = posed(alloc, opb, &vars, log)?;
    let found = search(alloc, &mut problem, budget, log)?;
    let answer = answer_from(alloc, &vars, found)?;
    Ok(answer)
}

/// Numbers of the variables that answer a problem.
fn search(
    alloc: Global,
    problem: &mut Problem,
    budget: u64,
    log: &mut Log,
) -> Result<CellAnswer, Memory>
    requires { CanSearch (plain_problem problem.old) log.old }
    ensures answers { IfOk result (λ found.
        AnswersCells (plain_problem problem.old) budget log.new (plain_answer found)) }
    ensures improves { IfOk result (λ found.
        Improves (plain_problem problem.old) log.old log.new (plain_answer found)) }
    ensures sound { IsSound log.old.events → IsSound log.new.events }
    ensures front { take (length log.old.events) log.new.events ≡ log.old.events }
    ensures base { log.new.base ≡ log.old.base }
    ensures notes { log.new.notes ≡ log.old.notes }
{
    match problem.map.objective {
        None => find_one(alloc, problem, budget, log),
        Some(_) => optimise(alloc, problem, budget, log),
    }
}

/// An answer over numbers of variables as one over their truth values.
#[tactic(auto, unfolding(crate::specs::Meant::found_from))]
fn answer_from(alloc: Global, vars: &[u64], found: CellAnswer) -> Result<OpbAnswer, Memory>
    ensures { IfOk result (λ answer. plain_found answer ≡ found_from vars.now (plain_answer found)) }
{
    match found {
        CellAnswer::Solution(numbers) => Ok(OpbAnswer::Solution(values_from(
            alloc, vars, &numbers,
        )?)),
        CellAnswer::Optimum(_, numbers) => Ok(OpbAnswer::Optimum(values_from(
            alloc, vars, &numbers,
        )?)),
        CellAnswer::NoSolution => Ok(OpbAnswer::NoSolution),
        CellAnswer::Unknown(None) => Ok(OpbAnswer::Unknown(None)),
        CellAnswer::Unknown(Some((_, numbers))) => {
            let values = values_from(alloc, vars, &numbers)?;
            Ok(OpbAnswer::Unknown(Some(values)))
        }
    }
}

/// Variables with their truth values, where 1 stands for true.
fn values_from(alloc: Global, vars: &[u64], numbers: &[i64]) -> Result<Vec<OpbValue>, Memory>
    ensures { IfOk result (λ values. values.items ≡ values_from vars.now numbers.now) }
{
    let mut values = Vec::new(alloc);
    for (var, number) in vars.iter().zip(numbers) {
        values.push(OpbValue {
            var: *var,
            holds: is_true(*number),
        })?;
    }
    Ok(values)
}

/// Whether a number stands for true.
fn is_true(number: i64) -> bool
    ensures { result ≡ is_one number }
{
    number == 1
}
