//! Powers, as far as the stages compute with them.

ghost use Rattle.std.specs.Prelude.{◌≡◌, ◌*ℤ◌, IfSome, IsSome};
ghost use Rattle.ep_base.specs.Numbers as numbers;
ghost use Rattle.ep_base.specs.Reads.{IsWithinNumbers};

use super::reach::near_number;

/// A product of two numbers.
pub fn times(one: i64, other: i64) -> i128
    ensures { result ≡ one *ℤ other }
{
    i128::from(one) * i128::from(other)
}

/// How often a number is multiplied by itself for a power of it: as often as the exponent says, but no more than twice for
/// -1, 0 and 1, whose powers repeat.
pub fn steps(base: i64, exponent: u64) -> u64
    ensures { numbers.nth_power base result ≡ numbers.nth_power base exponent }
{
    if exponent <= 2 || base > 1 || base < -1 {
        return exponent;
    }
    2 - exponent % 2
}

/// A number multiplied by itself, so often in all. It ends at the first power that is too far from 0.
fn multiplied(base: i64, exponent: u64) -> Option<i64>
    ensures same { IfSome result (λ power. power ≡ numbers.nth_power base exponent) }
    ensures near { IfSome result IsWithinNumbers }
    ensures told { IsWithinNumbers (numbers.nth_power base exponent) → IsSome result }
{
    let mut power = 1;
    for _step in 0..exponent {
        let Some(more) = near_number(times(power, base)) else {
            return None;
        };
        power = more;
    }
    Some(power)
}

/// A power, where it isn't too far from 0.
pub fn nth_power(base: i64, exponent: u64) -> Option<i64>
    ensures same { IfSome result (λ power. power ≡ numbers.nth_power base exponent) }
    ensures near { IfSome result IsWithinNumbers }
    ensures told { IsWithinNumbers (numbers.nth_power base exponent) → IsSome result }
{
    multiplied(base, steps(base, exponent))
}
