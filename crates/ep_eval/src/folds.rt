//! Matrices folded into a number or a truth.

ghost use Rattle.std.specs.Prelude.{◌≡◌, Some, fold, pos};
ghost use Rattle.std.specs.Int.{int_max, int_min};
ghost use Rattle.ep_base.specs.Numbers.{all_one, any_one, greatest_of, least_of, product_of, sum_of};
ghost use Rattle.ep_tree.specs.Evaluation.{folded_value, number_value, scalars_in};
ghost use Rattle.ep_tree.specs.Limits.{products_from};
ghost use Rattle.ep_tree.specs.Values.{single};
ghost use Rattle.ep_eval.specs.Counting.{Gives};
ghost use Rattle.ep_eval.specs.Folding.{GivesAt, folded_numbers};
ghost use Rattle.ep_eval.specs.Helds.{seen_held};

use super::binaries::is_true;
use super::errors::EvalError;
use super::forms::truth_value;
use super::held::Held;
use super::numbers::{number_seen, some_word};
use super::operands::scalars;
use ep_base::Limit;
use ep_numbers::is_far;
use ep_tree::{FoldOp, Mode};
use std::alloc::Global;

/// The sum of some numbers.
fn sum(parts: &[i64]) -> i128
    ensures { result ≡ sum_of parts.now }
{
    let mut sum = 0;
    for part in parts {
        sum += i128::from(*part);
    }
    sum
}

/// The product of some numbers, unless that of the first of them is too far from 0 for some count of them.
fn product<'a>(parts: &[i64]) -> Result<Option<Held<'a>>, EvalError>
    ensures { GivesAt result (Some (single (product_of parts.now))) (products_from (pos 1) parts.now) }
{
    let mut product = 1;
    for part in parts {
        product *= i128::from(*part);
        if is_far(product) {
            return Err(EvalError::Limit(Limit::Reach));
        }
    }
    number_seen(product)
}

/// Whether all of some numbers stand for true.
fn all_true(parts: &[i64]) -> bool
    ensures { result ≡ all_one parts.now }
{
    for part in parts {
        if !is_true(*part) {
            return false;
        }
    }
    true
}

/// Whether one of some numbers stands for true.
fn any_true(parts: &[i64]) -> bool
    ensures { result ≡ any_one parts.now }
{
    for part in parts {
        if is_true(*part) {
            return true;
        }
    }
    false
}

/// The least of a number and others.
fn least_from(first: i64, others: &[i64]) -> i64
    ensures { result ≡ fold int_min first others.now }
{
    let mut least = first;
    for other in others {
        least = least.min(*other);
    }
    least
}

/// The greatest of a number and others.
fn greatest_from(first: i64, others: &[i64]) -> i64
    ensures { result ≡ fold int_max first others.now }
{
    let mut greatest = first;
    for other in others {
        greatest = greatest.max(*other);
    }
    greatest
}

/// The least of some numbers.
#[tactic(auto, unfolding(ep_base::specs::Numbers::least_of))]
fn least(parts: &[i64]) -> Option<i64>
    ensures { result ≡ least_of parts.now }
{
    match parts.split_first() {
        Some((first, others)) => Some(least_from(*first, others)),
        None => None,
    }
}

/// The greatest of some numbers.
#[tactic(auto, unfolding(ep_base::specs::Numbers::greatest_of))]
fn greatest(parts: &[i64]) -> Option<i64>
    ensures { result ≡ greatest_of parts.now }
{
    match parts.split_first() {
        Some((first, others)) => Some(greatest_from(*first, others)),
        None => None,
    }
}

/// The parts of a matrix folded.
fn of_parts<'a>(mode: Mode, op: FoldOp, parts: &[i64]) -> Result<Option<Held<'a>>, EvalError>
    ensures { GivesAt result (folded_value mode op (Some parts.now)) (folded_numbers mode op (Some parts.now)) }
{
    match op {
        FoldOp::Sum => number_seen(sum(parts)),
        FoldOp::Product => product(parts),
        FoldOp::And => Ok(truth_value(mode, Some(all_true(parts)))),
        FoldOp::Or => Ok(truth_value(mode, Some(any_true(parts)))),
        FoldOp::Min => some_word(least(parts)),
        FoldOp::Max => some_word(greatest(parts)),
    }
}

/// What a fold gives of a matrix without a value.
#[tactic(auto, unfolding(ep_tree::specs::Evaluation::folded_value))]
fn of_none<'a>(mode: Mode, op: FoldOp) -> Option<Held<'a>>
    ensures { seen_held result ≡ folded_value mode op None }
{
    match op {
        FoldOp::And => truth_value(mode, None),
        FoldOp::Or => truth_value(mode, None),
        _ => None,
    }
}

/// `sum(m)` and its like
pub fn folded<'a>(
    alloc: Global,
    mode: Mode,
    op: FoldOp,
    seen: &Option<Held>,
) -> Result<Option<Held<'a>>, EvalError>
    ensures { GivesAt result (folded_value mode op (scalars_in (seen_held seen.now)))
        (folded_numbers mode op (scalars_in (seen_held seen.now))) }
{
    let parts = scalars(alloc, seen)?;
    match parts {
        Some(parts) => of_parts(mode, op, &parts),
        None => Ok(of_none(mode, op)),
    }
}
