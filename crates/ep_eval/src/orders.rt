//! Forms of lists: their order, their members, and how their parts differ.

ghost use Rattle.std.specs.Prelude.{◌≡◌, IfOk, option_map};
ghost use Rattle.std.specs.Ordering.{int_eq};
ghost use Rattle.ep_base.specs.Numbers as numbers;
ghost use Rattle.ep_base.specs.Numbers.{are_different, lex_holds, lex_less};
ghost use Rattle.ep_base.specs.Options.{map_both};
ghost use Rattle.ep_tree.specs.Evaluation.{number_in, scalars_in, truth_in};
ghost use Rattle.ep_eval.specs.Counting.{Gives};
ghost use Rattle.ep_eval.specs.Helds.{seen_held};

use super::errors::EvalError;
use super::forms::truth_value;
use super::held::{Held, number_of};
use super::operands::scalars;
use ep_base::{LexOp, Runs};
use ep_tree::Mode;
use std::alloc::{AllocError, Global};
use std::collections::BTreeSet;

/// Whether a list comes before another in the lexicographic order. Linear in the shorter one.
fn is_less(left: &[i64], right: &[i64]) -> bool
    ensures { result ≡ lex_less left.now right.now }
{
    for (i, x) in left.iter().enumerate() {
        if i >= right.len() {
            return false;
        }
        if *x < right[i] {
            return true;
        }
        if *x > right[i] {
            return false;
        }
    }
    left.len() < right.len()
}

/// Whether a lexicographic comparison of two lists holds.
#[tactic(auto, unfolding(ep_base::specs::Numbers::lex_holds))]
fn lex_between(op: LexOp, left: &[i64], right: &[i64]) -> bool
    ensures { result ≡ lex_holds op left.now right.now }
{
    match op {
        LexOp::Less => is_less(left, right),
        LexOp::AtMost => !is_less(right, left),
        LexOp::Greater => is_less(right, left),
        LexOp::AtLeast => !is_less(left, right),
    }
}

/// `x <lex y` and its like
pub fn lex_comparison<'a>(
    alloc: Global,
    mode: Mode,
    op: LexOp,
    first: &Option<Held>,
    second: &Option<Held>,
) -> Result<Option<Held<'a>>, EvalError>
    ensures { Gives result (truth_in mode (map_both (lex_holds op)
        (scalars_in (seen_held first.now)) (scalars_in (seen_held second.now)))) }
{
    let left = scalars(alloc, first)?;
    let right = scalars(alloc, second)?;
    match left {
        Some(left) => match right {
            Some(right) => Ok(truth_value(mode, Some(lex_between(op, &left, &right)))),
            None => Ok(truth_value(mode, None)),
        },
        None => Ok(truth_value(mode, None)),
    }
}

/// Whether two numbers are one.
pub fn are_equal(left: i64, right: i64) -> bool
    ensures { result ≡ int_eq left right }
{
    left == right
}

/// Whether a number stands in a list.
fn has_number(parts: &[i64], number: i64) -> bool
    ensures { result ≡ numbers.has_number parts.now number }
{
    for part in parts {
        if are_equal(number, *part) {
            return true;
        }
    }
    false
}

/// `x in toSet(m)`
pub fn membership<'a>(
    alloc: Global,
    mode: Mode,
    seen: &Option<Held>,
    set: &Option<Held>,
) -> Result<Option<Held<'a>>, EvalError>
    ensures { Gives result (truth_in mode (map_both numbers.has_number
        (scalars_in (seen_held set.now)) (number_in (seen_held seen.now)))) }
{
    let parts = scalars(alloc, set)?;
    match parts {
        Some(parts) => match number_of(seen) {
            Some(number) => Ok(truth_value(mode, Some(has_number(&parts, number)))),
            None => Ok(truth_value(mode, None)),
        },
        None => Ok(truth_value(mode, None)),
    }
}

/// `x in D`
pub fn within<'a>(mode: Mode, seen: &Option<Held>, set: &Option<Runs>) -> Option<Held<'a>>
    ensures { seen_held result ≡ truth_in mode (map_both numbers.has_number set.now (number_in (seen_held seen.now))) }
{
    match set {
        Some(set) => match number_of(seen) {
            Some(number) => truth_value(mode, Some(set.has(number))),
            None => truth_value(mode, None),
        },
        None => truth_value(mode, None),
    }
}

/// Whether no two numbers of a list are equal.
fn differ(alloc: Global, parts: &[i64]) -> Result<bool, AllocError>
    ensures { IfOk result (λ all. all ≡ are_different parts.now) }
{
    let mut before = BTreeSet::new(alloc);
    for part in parts {
        if !before.insert(*part)? {
            return Ok(false);
        }
    }
    Ok(true)
}

/// `allDiff(m)`
pub fn difference<'a>(
    alloc: Global,
    mode: Mode,
    seen: &Option<Held>,
) -> Result<Option<Held<'a>>, EvalError>
    ensures { Gives result (truth_in mode (option_map are_different (scalars_in (seen_held seen.now)))) }
{
    let parts = scalars(alloc, seen)?;
    match parts {
        Some(parts) => {
            let all = differ(alloc, &parts)?;
            Ok(truth_value(mode, Some(all)))
        }
        None => Ok(truth_value(mode, None)),
    }
}
