//! Conditions on the parameters.

ghost use Rattle.std.specs.Prelude.{◌≡◌, ◌+◌, Some, None, IfOk, false, map, if◌then◌else◌, unwrap_or};
ghost use Rattle.ep_base.specs.Numbers.{is_one};
ghost use Rattle.ep_tree.specs.Evaluation.{truth_of};
ghost use Rattle.ep_tree.specs.Views.{expr_tree};
ghost use Rattle.ep_eval.specs.Known.{env_of};
ghost use Rattle.ep_eval.specs.Outcomes.{seen_value};
ghost use Rattle.ep_instance_parts.specs.Refusals.{BindsTo};
ghost use Rattle.ep_instance_parts.specs.Steps.{conditions_said, first_of};

use super::bounds::seen_number;
use super::errors::BindError;
use ep_base::Memory;
use ep_eval::{Env, Seen, evaluate_after};
use ep_tree::Expr;
use std::alloc::Global;

/// Whether a number stands for true.
fn is_one(number: i64) -> bool
    ensures { result ≡ is_one number }
{
    number == 1
}

/// Whether what was seen is true.
#[tactic(auto, unfolding(ep_tree::specs::Evaluation::truth_of))]
pub fn is_true(seen: &Seen) -> bool
    ensures { result ≡ unwrap_or (truth_of (seen_value seen.now)) false }
{
    match seen_number(seen) {
        Some(number) => is_one(number),
        None => false,
    }
}

/// What is violated first, with one expression more, which holds or doesn't.
#[tactic(auto, unfolding(crate::specs::Steps::first_of))]
fn with_next(violated: Option<u64>, holds: bool, number: u64) -> Option<u64>
    ensures { result ≡ first_of violated (if holds then None else Some number) }
{
    match violated {
        Some(first) => Some(first),
        None => {
            if holds {
                return None;
            }
            Some(number)
        }
    }
}

/// The next number. More conditions than there are numbers need more memory than there is.
pub fn number_after(number: u64) -> Result<u64, Memory>
    ensures { IfOk result (λ n. n ≡ number + 1) }
{
    if number == u64::MAX {
        return Err(Memory);
    }
    Ok(number + 1)
}

/// Checks conditions that are numbered on from a number, and gives the number of the next one. All
/// are evaluated, also behind a false one, since limits come first.
pub fn check_conditions(
    alloc: Global,
    env: &Env,
    first: u64,
    conditions: &[Expr],
) -> Result<u64, BindError>
    ensures { BindsTo (λ n. n) result
        (conditions_said env.now.mode (env_of env.now) first (map expr_tree conditions.now)) }
{
    let mut violated = None;
    let mut number = first;
    let mut count = 0;
    for condition in conditions {
        let (seen, after) = evaluate_after(alloc, env, count, condition)?;
        violated = with_next(violated, is_true(&seen), number);
        number = number_after(number)?;
        count = after;
    }
    match violated {
        Some(number) => Err(BindError::WhereFalse(number)),
        None => Ok(number),
    }
}
