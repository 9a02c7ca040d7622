//! Forms of two numbers.

ghost use Rattle.std.specs.Prelude.{◌≡◌, ◌||◌, Some, not};
ghost use Rattle.ep_base.specs.Numbers.{is_one};
ghost use Rattle.ep_base.specs.Numbers as numbers;
ghost use Rattle.ep_tree.specs.Evaluation.{binary_number, binary_value, number_in, number_value};
ghost use Rattle.ep_eval.specs.Counting.{Gives, undefined_binary};
ghost use Rattle.ep_eval.specs.Helds.{seen_held};

use super::errors::EvalError;
use super::forms::{holds, truth_value};
use super::held::{Held, held_truth, number_of};
use super::numbers::number_seen;
use super::powers::power;
use ep_base::CompareOp;
use ep_numbers::quotients::{quotient, remainder};
use ep_tree::{BinaryOp, Mode};

/// Whether a number stands for true.
pub fn is_true(number: i64) -> bool
    ensures { result ≡ is_one number }
{
    number == 1
}

/// `x -> y`
fn implies(left: i64, right: i64) -> bool
    ensures { result ≡ (not (is_one left) || is_one right) }
{
    if is_true(left) {
        return is_true(right);
    }
    true
}

/// A number, if there is one that isn't too far from 0.
pub fn some_number<'a>(number: Option<i128>) -> Result<Option<Held<'a>>, EvalError>
    ensures { Gives result (number_value number) }
{
    match number {
        Some(number) => number_seen(number),
        None => Ok(None),
    }
}

/// What an operator gives of two numbers.
#[tactic(auto, unfolding(ep_tree::specs::Evaluation::binary_number))]
fn of_two<'a>(op: BinaryOp, left: i64, right: i64) -> Result<Option<Held<'a>>, EvalError>
    ensures { Gives result (number_value (binary_number op left right)) }
{
    match op {
        BinaryOp::Mul => number_seen(i128::from(left) * i128::from(right)),
        BinaryOp::Div => some_number(quotient(left, right)),
        BinaryOp::Mod => some_number(remainder(left, right)),
        BinaryOp::Pow => power(left, right),
        BinaryOp::Min => number_seen(i128::from(left.min(right))),
        BinaryOp::Max => number_seen(i128::from(left.max(right))),
        BinaryOp::Implies => Ok(held_truth(implies(left, right))),
        BinaryOp::Iff => Ok(held_truth(holds(CompareOp::Equal, left, right))),
    }
}

/// What an operator gives where a part has no value.
#[tactic(auto, unfolding(crate::specs::Counting::undefined_binary))]
fn of_none<'a>(mode: Mode, op: BinaryOp) -> Option<Held<'a>>
    ensures { seen_held result ≡ undefined_binary mode op }
{
    match op {
        BinaryOp::Implies => truth_value(mode, None),
        BinaryOp::Iff => truth_value(mode, None),
        _ => None,
    }
}

/// Two parts with an operator between them.
pub fn binary<'a>(
    mode: Mode,
    op: BinaryOp,
    first: &Option<Held>,
    second: &Option<Held>,
) -> Result<Option<Held<'a>>, EvalError>
    ensures { Gives result (binary_value mode op
        (number_in (seen_held first.now)) (number_in (seen_held second.now))) }
{
    match number_of(first) {
        Some(left) => match number_of(second) {
            Some(right) => of_two(op, left, right),
            None => Ok(of_none(mode, op)),
        },
        None => Ok(of_none(mode, op)),
    }
}
