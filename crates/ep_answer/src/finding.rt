//! The search for solutions.

ghost use Rattle.std.specs.Prelude.{◌≡◌, ◌≢◌, false, None, IfOk, length, map, option_map, take};
ghost use Rattle.ep_answer.specs.Answered.{AnswersCells, Improves, ListsCells};
ghost use Rattle.ep_answer.specs.AnswerViews.{plain_answer, plain_end, plain_problem};
ghost use Rattle.ep_answer.specs.Problems.{CanSearch};
ghost use Rattle.ep_answer.specs.Searches.{best_answer};
ghost use Rattle.cnf_core.specs.Events.{clauses_of, givens};
ghost use Rattle.sat_search.specs.Logs.{IsSound};

use crate::answers::{CellAnswer, CellListing, End};
use crate::blocking::block;
use crate::decoding::read_back;
use crate::improving::improve;
use crate::problem::Problem;
use crate::refusals::refusal;
use cnf_core::Log;
use ep_base::Memory;
use sat_search::Outcome;
use std::alloc::Global;

/// One solution, of a problem without an objective. Adds no given.
pub fn find_one(
    alloc: Global,
    p: &mut Problem,
    budget: u64,
    log: &mut Log,
) -> Result<CellAnswer, Memory>
    requires can_search { CanSearch (plain_problem p.old) log.old }
    requires no_objective { (plain_problem p.old).variables.objective ≡ None }
    ensures answers { IfOk result (λ answer.
        AnswersCells (plain_problem p.old) budget log.new (plain_answer answer)) }
    ensures givens { givens log.new.events ≡ givens log.old.events }
    ensures front { take (length log.old.events) log.new.events ≡ log.old.events }
    ensures sound { IsSound log.old.events → IsSound log.new.events }
    ensures notes { log.new.notes ≡ log.old.notes }
    ensures base { log.new.base ≡ log.old.base }
    ensures problem { plain_problem p.new ≡ record (plain_problem p.old) { solver = p.new.solver } }
    ensures clauses { p.new.solver.broken ≡ false → p.new.solver.clauses ≡ clauses_of log.new.events }
{
    let outcome = match p.solver.solve(budget, log) {
        Ok(outcome) => outcome,
        Err(error) => return Err(refusal(error)),
    };
    match outcome {
        Outcome::Sat => {
            let cells = read_back(alloc, &p.layout, &p.solver, p.map.cells.as_slice())?;
            Ok(CellAnswer::Solution(cells))
        }
        Outcome::Unsat => Ok(CellAnswer::NoSolution),
        Outcome::Spent => Ok(CellAnswer::Unknown(None)),
    }
}

/// The best solution, of a problem with an objective. After each solution one given is added, which
/// says that the objective is better.
pub fn optimise(
    alloc: Global,
    p: &mut Problem,
    budget: u64,
    log: &mut Log,
) -> Result<CellAnswer, Memory>
    requires can_search { CanSearch (plain_problem p.old) log.old }
    requires objective { (plain_problem p.old).variables.objective ≢ None }
    ensures answers { IfOk result (λ answer.
        AnswersCells (plain_problem p.old) budget log.new (plain_answer answer)) }
    ensures improves { IfOk result (λ answer.
        Improves (plain_problem p.old) log.old log.new (plain_answer answer)) }
    ensures front { take (length log.old.events) log.new.events ≡ log.old.events }
    ensures sound { IsSound log.old.events → IsSound log.new.events }
    ensures notes { log.new.notes ≡ log.old.notes }
    ensures base { log.new.base ≡ log.old.base }
    ensures problem { plain_problem p.new ≡ record (plain_problem p.old) { solver = p.new.solver } }
    ensures clauses { p.new.solver.broken ≡ false → p.new.solver.clauses ≡ clauses_of log.new.events }
{
    let Some((sense, var)) = p.map.objective else {
        unreachable!()
    };
    let mut best: Option<(i64, Vec<i64>)> = None;
    'solutions: loop {
        let outcome = match p.solver.solve(budget, log) {
            Ok(outcome) => outcome,
            Err(error) => return Err(refusal(error)),
        };
        match outcome {
            Outcome::Sat => best = Some(improve(alloc, p, sense, var, log)?),
            Outcome::Unsat => return Ok(best_of_all(best)),
            Outcome::Spent => return Ok(CellAnswer::Unknown(best)),
        }
    }
}

/// The answer where nothing is better than the best so far.
fn best_of_all(best: Option<(i64, Vec<i64>)>) -> CellAnswer
    ensures { plain_answer result ≡ best_answer (option_map (λ one. (one.0, one.1.items)) best) }
{
    match best {
        Some((number, cells)) => CellAnswer::Optimum(number, cells),
        None => CellAnswer::NoSolution,
    }
}

/// Up to `most` solutions. After each one a given is added, over literals of the cells alone, which
/// blocks it.
pub fn enumerate(
    alloc: Global,
    p: &mut Problem,
    most: u64,
    budget: u64,
    log: &mut Log,
) -> Result<CellListing, Memory>
    requires { CanSearch (plain_problem p.old) log.old }
    ensures lists { IfOk result (λ listing. ListsCells (plain_problem p.old) budget most log.old log.new
        (map (λ cells. cells.items) listing.found.items) (plain_end listing.end)) }
    ensures front { take (length log.old.events) log.new.events ≡ log.old.events }
    ensures sound { IsSound log.old.events → IsSound log.new.events }
    ensures notes { log.new.notes ≡ log.old.notes }
    ensures base { log.new.base ≡ log.old.base }
    ensures problem { plain_problem p.new ≡ record (plain_problem p.old) { solver = p.new.solver } }
    ensures clauses { p.new.solver.broken ≡ false → p.new.solver.clauses ≡ clauses_of log.new.events }
{
    let mut found: Vec<Vec<i64>> = Vec::new(alloc);
    'solutions: while (found.len() as u64) < most {
        let outcome = match p.solver.solve(budget, log) {
            Ok(outcome) => outcome,
            Err(error) => return Err(refusal(error)),
        };
        match outcome {
            Outcome::Sat => found.push(block(alloc, p, log)?)?,
            Outcome::Unsat => {
                return Ok(CellListing {
                    found,
                    end: End::Complete,
                });
            }
            Outcome::Spent => {
                return Ok(CellListing {
                    found,
                    end: End::Spent,
                });
            }
        }
    }
    Ok(CellListing {
        found,
        end: End::Stopped,
    })
}
