//! The answer of an instance by cubes.

ghost use Rattle.std.specs.Prelude.{◌≡◌, ◌≤◌, [], IfOk, map};
ghost use Rattle.std.specs.List.{All};
ghost use Rattle.cnf_core.specs.Steps.{IsValidLog, NonEmptyStepsAreNew};
ghost use Rattle.ep_base.specs.Reads.{IsWithinNumbers};
ghost use Rattle.ep_divided.specs.Divided.{IsLoggedAsDivided};
ghost use Rattle.ep_instance_parts.specs.Instances.{plain_instance, instance_mode};
ghost use Rattle.ep_print.specs.Answers.{HasTypedValues, answer_tree};
ghost use Rattle.ep_solve.specs.Right.{IsRight, empty_log};
ghost use Rattle.ep_tree.specs.Closed.{IsClosed};
ghost use Rattle.ep_tree.specs.Solutions.{instance_limits};

use cnf_core::Log;
use ep_base::Memory;
use ep_cubes::find_in_cubes;
use ep_instance_parts::Instance;
use ep_print::Answer;
use ep_solve::{formula_for, read_back, solve};
use std::alloc::Global;
use std::thread::Threads;

/// The answer of an instance, as `solve` gives it. Where no objective is stated its formula is divided by its lowest variables, at most
/// so many, and the cubes are solved side by side, each within the budget: the answer is that of the lowest one that isn't refuted. The
/// log has the formula and the joined steps of the refuted cubes then, or, where the budget is spent, the literals and the steps of that
/// cube alone. With an objective nothing is divided.
pub fn solve_in_cubes<R: Threads + Sync>(
    rt: &R,
    alloc: Global,
    instance: &Instance,
    cubes: u64,
    budget: u64,
    log: &mut Log,
) -> Result<Answer, Memory>
    requires closed { IsClosed (plain_instance instance.now) }
    requires within { instance_limits (instance_mode instance.now) (plain_instance instance.now) ≡ [] }
    requires values { All (λ f. All IsWithinNumbers f.values) (plain_instance instance.now).finds }
    requires empty { log.old ≡ empty_log }
    requires cubes { cubes ≤ 6 }
    ensures right { IfOk result (λ answer.
        IsRight (instance_mode instance.now) (plain_instance instance.now) budget (answer_tree answer)) }
    ensures typed { IfOk result (λ answer. HasTypedValues (answer_tree answer)) }
    ensures logged { IfOk result (λ answer.
        IsLoggedAsDivided (instance_mode instance.now) (plain_instance instance.now) cubes budget log.new (answer_tree answer)) }
    ensures valid { IsValidLog log.new.events }
    ensures new { NonEmptyStepsAreNew log.new.events }
{
    if instance.objective().is_some() {
        return solve(alloc, instance, budget, log);
    }
    let encoded = formula_for(alloc, instance)?;
    let (found, made) = find_in_cubes(
        rt,
        alloc,
        &encoded.layout,
        &encoded.cells,
        &encoded.map,
        &encoded.formula,
        cubes,
        budget,
    )?;
    *log = made;
    read_back(alloc, instance.finds(), budget, found)
}
