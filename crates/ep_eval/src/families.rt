//! What nodes are worth by the values of their parts, family by family.

ghost use Rattle.std.specs.Prelude.{IfOk};
ghost use Rattle.ep_tree.specs.Evaluation.{number_value};
ghost use Rattle.ep_eval.specs.Gathering as gathering;
ghost use Rattle.ep_eval.specs.Helds.{seen_held};
ghost use Rattle.ep_eval.specs.Meters.{IsWorth};
ghost use Rattle.ep_eval.specs.Worths as worths;
ghost use Rattle.ep_eval.specs.Worths.{own_number};

use super::binaries::{binary, some_number};
use super::counts::{counting, look_up_row};
use super::folds::folded;
use super::forms::{comparison, negation};
use super::gathering::{Gathered, gathered_value};
use super::held::Held;
use super::numbers::{absolute, minus};
use super::operands::flattened;
use super::orders::{difference, lex_comparison, membership};
use super::powers::factorial;
use super::worth::{Worth, worth_of};
use ep_base::{CompareOp, Memory};
use ep_forms::{CountOp, OneOp, TwoOp};
use ep_tree::Mode;
use std::alloc::Global;

/// What is made of one value.
pub fn one_value<'a>(
    alloc: Global,
    mode: Mode,
    op: OneOp,
    seen: Option<Held<'a>>,
) -> Result<Worth<'a>, Memory>
    ensures { IfOk result (IsWorth (worths.one_numbers mode op (seen_held seen.entry))
        (worths.one_value mode op (seen_held seen.entry))) }
{
    match op {
        OneOp::Group => Ok(Worth::Seen(seen)),
        OneOp::ToInt => Ok(Worth::Seen(seen)),
        OneOp::Not => Ok(Worth::Seen(negation(mode, &seen))),
        OneOp::Neg => {
            let worth = worth_of(minus(&seen))?;
            Ok(worth)
        }
        OneOp::Abs => {
            let worth = worth_of(absolute(&seen))?;
            Ok(worth)
        }
        OneOp::Factorial => {
            let worth = worth_of(factorial(&seen))?;
            Ok(worth)
        }
        OneOp::Flatten => {
            let worth = worth_of(flattened(alloc, &seen))?;
            Ok(worth)
        }
        OneOp::AllDiff => {
            let worth = worth_of(difference(alloc, mode, &seen))?;
            Ok(worth)
        }
        OneOp::Fold(fold) => {
            let worth = worth_of(folded(alloc, mode, fold, &seen))?;
            Ok(worth)
        }
    }
}

/// What is made of two values.
pub fn two_value<'a>(
    alloc: Global,
    mode: Mode,
    op: TwoOp,
    first: &Option<Held>,
    second: &Option<Held>,
) -> Result<Worth<'a>, Memory>
    ensures { IfOk result (IsWorth (own_number (worths.two_value mode op (seen_held first.now) (seen_held second.now)))
        (worths.two_value mode op (seen_held first.now) (seen_held second.now))) }
{
    match op {
        TwoOp::Binary(operator) => {
            let worth = worth_of(binary(mode, operator, first, second))?;
            Ok(worth)
        }
        TwoOp::Compare(operator) => Ok(Worth::Seen(comparison(mode, operator, first, second))),
        TwoOp::Lex(operator) => {
            let worth = worth_of(lex_comparison(alloc, mode, operator, first, second))?;
            Ok(worth)
        }
        TwoOp::InSet => {
            let worth = worth_of(membership(alloc, mode, first, second))?;
            Ok(worth)
        }
        TwoOp::Table => {
            let worth = worth_of(look_up_row(alloc, mode, first, second))?;
            Ok(worth)
        }
    }
}

/// Whether numbers stand in a list as often as is asked for.
fn counts_value<'a>(
    alloc: Global,
    mode: Mode,
    op: CompareOp,
    list: &Option<Held>,
    values: &Option<Held>,
    counts: &Option<Held>,
) -> Result<Worth<'a>, Memory>
    ensures { IfOk result (IsWorth (own_number (worths.counts_value mode op (seen_held list.now)
        (seen_held values.now) (seen_held counts.now))) (worths.counts_value mode op (seen_held list.now)
        (seen_held values.now) (seen_held counts.now))) }
{
    let worth = worth_of(counting(alloc, mode, op, list, values, counts))?;
    Ok(worth)
}

/// What is made of a list and two others in the order of the text.
#[tactic(auto, unfolding(crate::specs::Worths::count_value))]
pub fn count_value<'a>(
    alloc: Global,
    mode: Mode,
    op: CountOp,
    list: &Option<Held>,
    second: &Option<Held>,
    third: &Option<Held>,
) -> Result<Worth<'a>, Memory>
    ensures { IfOk result (IsWorth (own_number (worths.count_value mode op (seen_held list.now)
        (seen_held second.now) (seen_held third.now))) (worths.count_value mode op (seen_held list.now)
        (seen_held second.now) (seen_held third.now))) }
{
    match op {
        CountOp::Gcc => counts_value(alloc, mode, CompareOp::Equal, list, second, third),
        CountOp::AtLeast => counts_value(alloc, mode, CompareOp::AtLeast, list, third, second),
        CountOp::AtMost => counts_value(alloc, mode, CompareOp::AtMost, list, third, second),
    }
}

/// What the instances of a quantifier are worth.
pub fn gathered_worth<'a>(mode: Mode, gathered: Gathered) -> Result<Worth<'a>, Memory>
    ensures { IfOk result (IsWorth (own_number (gathering.worth mode gathered)) (gathering.worth mode gathered)) }
{
    let worth = worth_of(gathered_value(mode, gathered))?;
    Ok(worth)
}

/// What the total of a chain is worth.
pub fn total_worth<'a>(total: Option<i128>) -> Result<Worth<'a>, Memory>
    ensures { IfOk result (IsWorth (own_number (number_value total)) (number_value total)) }
{
    let worth = worth_of(some_number(total))?;
    Ok(worth)
}
