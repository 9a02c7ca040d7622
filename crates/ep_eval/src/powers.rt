//! Powers and factorials.

ghost use Rattle.std.specs.Prelude.{◌≡◌, ◌≤◌, Some, option_and_then, pos};
ghost use Rattle.ep_base.specs.Numbers as numbers;
ghost use Rattle.ep_base.specs.Numbers.{factorial_of, product_to};
ghost use Rattle.ep_tree.specs.Evaluation.{number_in, number_value};
ghost use Rattle.ep_tree.specs.Values.{single};
ghost use Rattle.ep_eval.specs.Counting.{Gives};
ghost use Rattle.ep_eval.specs.Helds.{seen_held};

use super::errors::EvalError;
use super::held::{Held, number_of};
use super::numbers::{number_seen, seen_near};
use ep_base::Limit;
use ep_numbers::{is_far, nth_power};

/// `x ** y`, which has no value for y < 0.
pub fn power<'a>(base: i64, exponent: i64) -> Result<Option<Held<'a>>, EvalError>
    ensures { Gives result (number_value (numbers.power base exponent)) }
{
    if exponent < 0 {
        return Ok(None);
    }
    seen_near(nth_power(base, exponent as u64))
}

/// The product of the numbers from 1 to one. It ends soon behind the first that is too far from 0.
fn product_to<'a>(last: u64) -> Result<Option<Held<'a>>, EvalError>
    ensures { Gives result (Some (single (pos (product_to last)))) }
{
    let mut product = 1;
    for i in 0..last {
        product *= i128::from(i + 1);
        if is_far(product) {
            return Err(EvalError::Limit(Limit::Reach));
        }
    }
    number_seen(product)
}

/// `factorial(x)`, which has no value for x < 0.
pub fn factorial<'a>(seen: &Option<Held>) -> Result<Option<Held<'a>>, EvalError>
    ensures { Gives result (number_value (option_and_then factorial_of (number_in (seen_held seen.now)))) }
{
    match number_of(seen) {
        Some(number) => {
            if number < 0 {
                return Ok(None);
            }
            product_to(number as u64)
        }
        None => Ok(None),
    }
}
