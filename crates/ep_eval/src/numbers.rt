//! The numbers of forms by the numbers of their parts.

ghost use Rattle.std.specs.Prelude.{◌≡◌, Some, ℤ, neg_ℤ, option_map, IfSome, IsSome};
ghost use Rattle.ep_base.specs.Numbers.{absolute_of};
ghost use Rattle.ep_base.specs.Reads.{IsWithinNumbers};
ghost use Rattle.ep_tree.specs.Evaluation.{binary_value, number_in, number_value};
ghost use Rattle.ep_tree.specs.Values.{single};
ghost use Rattle.ep_eval.specs.Counting.{Gives};
ghost use Rattle.ep_eval.specs.Helds.{seen_held};

use super::errors::EvalError;
use super::held::{Held, number_of};
use ep_base::Limit;
use ep_numbers::near_number;

/// A number that was told where it isn't too far from 0.
pub fn seen_near<'a>(told: Option<i64>) -> Result<Option<Held<'a>>, EvalError>
    ensures { (whole : ℤ) → IfSome told (λ n. n ≡ whole) → (IsWithinNumbers whole → IsSome told)
        → Gives result (Some (single whole)) }
{
    match told {
        Some(number) => Ok(Some(Held::Number(number))),
        None => Err(EvalError::Limit(Limit::Reach)),
    }
}

/// A number, if it isn't too far from 0.
pub fn number_seen<'a>(number: i128) -> Result<Option<Held<'a>>, EvalError>
    ensures { Gives result (Some (single number)) }
{
    seen_near(near_number(number))
}

/// `-x`
pub fn minus<'a>(seen: &Option<Held>) -> Result<Option<Held<'a>>, EvalError>
    ensures { Gives result (number_value (option_map neg_ℤ (number_in (seen_held seen.now)))) }
{
    match number_of(seen) {
        Some(number) => number_seen(-i128::from(number)),
        None => Ok(None),
    }
}

/// `|x|`
pub fn absolute<'a>(seen: &Option<Held>) -> Result<Option<Held<'a>>, EvalError>
    ensures { Gives result (number_value (option_map absolute_of (number_in (seen_held seen.now)))) }
{
    match number_of(seen) {
        Some(number) => number_seen(i128::from(number).abs()),
        None => Ok(None),
    }
}

/// A number, if there is one, and it isn't too far from 0.
pub fn some_word<'a>(number: Option<i64>) -> Result<Option<Held<'a>>, EvalError>
    ensures { Gives result (number_value number) }
{
    match number {
        Some(number) => number_seen(i128::from(number)),
        None => Ok(None),
    }
}
