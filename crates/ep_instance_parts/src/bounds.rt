//! Bounds of domains: their numbers, with the nodes that are met counted.

ghost use Rattle.std.specs.Prelude.{◌≡◌, ◌≤◌, ◌++◌, [], ◌∷◌, Some, IfOk, IfErr, option_map};
ghost use Rattle.ep_base.specs.Options.{map_both};
ghost use Rattle.ep_tree.specs.Binding.{above_end, below_end, ranges_pass};
ghost use Rattle.ep_tree.specs.Evaluation.{evaluate, number_in};
ghost use Rattle.ep_tree.specs.Limits.{limits_of_values};
ghost use Rattle.ep_tree.specs.Measures.{met, met_end, met_ranges};
ghost use Rattle.ep_tree.specs.Views.{end_of, expr_tree, ranges_of, value_tree};
ghost use Rattle.ep_eval.specs.Known.{env_of};
ghost use Rattle.ep_eval.specs.Outcomes.{IsCause, seen_value};
ghost use Rattle.ep_instance_parts.specs.Counted.{IsCounted};
ghost use Rattle.ep_instance_parts.specs.Tests.{Answers64, above, below, element_test, met_range, range_passes, run_test};

use super::elements::Elements;
use ep_base::{Run, Runs};
use ep_eval::{Env, EvalError, Seen, evaluate_after};
use ep_tree::{Expr, Range, Value};
use std::alloc::{AllocError, Global};

/// The greatest size of a statement.
pub const MOST_SIZE: u64 = 5_000_000;

/// The number that a value is.
#[tactic(auto, unfolding(ep_tree::specs::Views::value_tree, ep_tree::specs::Evaluation::number_in))]
fn value_number(value: &Value) -> Option<i64>
    ensures { result ≡ number_in (Some (value_tree value.now)) }
{
    match value {
        Value::Number(number) => Some(*number),
        Value::Matrix(_, _) => None,
    }
}

/// The number that was seen.
#[tactic(auto, unfolding(ep_eval::specs::Outcomes::seen_value, ep_tree::specs::Evaluation::number_in))]
pub fn seen_number(seen: &Seen) -> Option<i64>
    ensures { result ≡ number_in (seen_value seen.now) }
{
    match seen {
        Seen::Value(value) => value_number(value),
        Seen::Undefined => None,
    }
}

/// The number of an expression behind others that met so many nodes, and how many are met by its
/// end.
fn number_at(
    alloc: Global,
    env: &Env,
    before: u64,
    e: &Expr,
) -> Result<(Option<i64>, u64), EvalError>
    requires { before ≤ 5000000 }
    ensures number { IfOk result (λ r. r.0 ≡ number_in (evaluate env.now.mode (env_of env.now) (expr_tree e.now))) }
    ensures counted { IfOk result (λ r.
        IsCounted env.now.mode before (met env.now.mode (env_of env.now) (expr_tree e.now)) r.1) }
    ensures cause { IfErr result (IsCause (limits_of_values env.now.mode before
        (met env.now.mode (env_of env.now) (expr_tree e.now)))) }
{
    let (seen, after) = evaluate_after(alloc, env, before, e)?;
    Ok((seen_number(&seen), after))
}

/// The least number above the lower end of a range.
fn low_end(
    alloc: Global,
    env: &Env,
    before: u64,
    end: &Option<Expr>,
) -> Result<(Option<i64>, u64), EvalError>
    requires { before ≤ 5000000 }
    ensures low { IfOk result (λ r.
        Answers64 above r.0 (above_end env.now.mode (env_of env.now) (end_of end.now))) }
    ensures counted { IfOk result (λ r.
        IsCounted env.now.mode before (met_end env.now.mode (env_of env.now) (end_of end.now)) r.1) }
    ensures cause { IfErr result (IsCause (limits_of_values env.now.mode before
        (met_end env.now.mode (env_of env.now) (end_of end.now)))) }
{
    match end {
        Some(e) => {
            let (number, after) = number_at(alloc, env, before, e)?;
            Ok((number, after))
        }
        None => Ok((Some(i64::MIN), before)),
    }
}

/// The greatest number below the upper end of a range.
fn high_end(
    alloc: Global,
    env: &Env,
    before: u64,
    end: &Option<Expr>,
) -> Result<(Option<i64>, u64), EvalError>
    requires { before ≤ 5000000 }
    ensures high { IfOk result (λ r.
        Answers64 below r.0 (below_end env.now.mode (env_of env.now) (end_of end.now))) }
    ensures counted { IfOk result (λ r.
        IsCounted env.now.mode before (met_end env.now.mode (env_of env.now) (end_of end.now)) r.1) }
    ensures cause { IfErr result (IsCause (limits_of_values env.now.mode before
        (met_end env.now.mode (env_of env.now) (end_of end.now)))) }
{
    match end {
        Some(e) => {
            let (number, after) = number_at(alloc, env, before, e)?;
            Ok((number, after))
        }
        None => Ok((Some(i64::MAX), before)),
    }
}

/// The numbers of a range, where an end that is left out stands for the last number that there is.
fn read_range(
    alloc: Global,
    env: &Env,
    before: u64,
    range: &Range,
) -> Result<(Option<Run>, u64), EvalError>
    requires { before ≤ 5000000 }
    ensures run { IfOk result (λ r.
        Answers64 run_test r.0 (range_passes env.now.mode (env_of env.now) range.now)) }
    ensures counted { IfOk result (λ r.
        IsCounted env.now.mode before (met_range env.now.mode (env_of env.now) range.now) r.1) }
    ensures cause { IfErr result (IsCause (limits_of_values env.now.mode before
        (met_range env.now.mode (env_of env.now) range.now))) }
{
    match range {
        Range::One(e) => {
            let (number, after) = number_at(alloc, env, before, e)?;
            Ok((run_between(number, number), after))
        }
        Range::Span(low, high) => {
            let (low, count) = low_end(alloc, env, before, low)?;
            let (high, after) = high_end(alloc, env, count, high)?;
            Ok((run_between(low, high), after))
        }
    }
}

/// The run between two ends, where both are there.
#[tactic(auto, unfolding(ep_base::specs::Options::map_both))]
fn run_between(low: Option<i64>, high: Option<i64>) -> Option<Run>
    ensures { result ≡ map_both (λ lo hi. record { lo = lo; hi = hi }) low high }
{
    let Some(lo) = low else {
        return None;
    };
    let Some(hi) = high else {
        return None;
    };
    Some(Run { lo, hi })
}

/// Runs and one more, where they are there.
#[tactic(auto, unfolding(ep_base::specs::Options::map_both))]
fn with_run(runs: Option<Vec<Run>>, run: Option<Run>) -> Result<Option<Vec<Run>>, AllocError>
    ensures { IfOk result (λ more. option_map (λ v. v.items) more
        ≡ map_both (λ all one. all ++ one ∷ []) (option_map (λ v. v.items) runs) run) }
{
    let Some(mut runs) = runs else {
        return Ok(None);
    };
    let Some(run) = run else {
        return Ok(None);
    };
    runs.push(run)?;
    Ok(Some(runs))
}

/// The numbers of ranges, and how many nodes are met by their end. All are read, also behind an
/// undefined one, since limits come first.
pub fn read_ranges(
    alloc: Global,
    env: &Env,
    before: u64,
    ranges: &[Range],
) -> Result<(Option<Elements>, u64), EvalError>
    requires { before ≤ 5000000 }
    ensures elements { IfOk result (λ r.
        Answers64 element_test r.0 (ranges_pass env.now.mode (env_of env.now) (ranges_of ranges.now))) }
    ensures counted { IfOk result (λ r.
        IsCounted env.now.mode before (met_ranges env.now.mode (env_of env.now) (ranges_of ranges.now)) r.1) }
    ensures cause { IfErr result (IsCause (limits_of_values env.now.mode before
        (met_ranges env.now.mode (env_of env.now) (ranges_of ranges.now)))) }
{
    let mut runs = Some(Vec::new(alloc));
    let mut count = before;
    for range in ranges {
        let (run, after) = read_range(alloc, env, count, range)?;
        runs = with_run(runs, run)?;
        count = after;
    }
    let Some(runs) = runs else {
        return Ok((None, count));
    };
    Ok((Some(Elements::Within(Runs::new(alloc, runs)?)), count))
}
