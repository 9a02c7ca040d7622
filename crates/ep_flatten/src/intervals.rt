//! Intervals of numbers that are kept to those that the stages compute with, and powers, as far as wide words tell them.

ghost use Rattle.std.specs.Prelude.{◌≡◌, ◌∷◌, [], if◌then◌else◌, ◌≤ℤ◌, neg_ℤ, pos, IfSome};
ghost use Rattle.std.specs.Int.{int_max, int_min};
ghost use Rattle.ep_base.specs.Intervals as defined;
ghost use Rattle.ep_base.specs.Intervals.{Interval, IsWithinReach};
ghost use Rattle.ep_base.specs.Numbers as numbers;
ghost use Rattle.ep_numbers.specs.Spans.{interval_of, wide_interval};
ghost use Rattle.ep_flatten.specs.Building.{HasSmall};

use ep_numbers::{MOST_WIDE, Span, WideSpan, has_zero, steps};

/// The greatest exponent for which powers are computed: beyond it those of other numbers than -1, 0 and 1 are too great
/// words.
const MOST_EXPONENT: u64 = 128;

/// All numbers that the stages compute with.
pub fn widest() -> WideSpan
    ensures { (reach : Interval) → HasSmall reach (wide_interval result) }
{
    WideSpan {
        low: -MOST_WIDE,
        high: MOST_WIDE,
    }
}

/// The nearest number that the stages compute with.
fn kept(number: i128) -> i64
    ensures low { neg_ℤ (pos 1099511627776) ≤ℤ result }
    ensures high { result ≤ℤ pos 1099511627776 }
    ensures value { result ≡ int_max (neg_ℤ (pos 1099511627776)) (int_min number (pos 1099511627776)) }
{
    number.clamp(-MOST_WIDE, MOST_WIDE) as i64
}

/// The numbers of an interval with which the stages compute.
pub fn clamped(x: WideSpan) -> Span
    ensures small { IsWithinReach (interval_of result) }
    ensures holds { HasSmall (wide_interval x) (interval_of result) }
{
    Span {
        low: kept(x.low),
        high: kept(x.high),
    }
}

/// A number multiplied by itself, so often in all, as far as words of 128 bits tell it, and not more often than 128 times.
fn multiplied(base: i64, exponent: u64) -> Option<i128>
    ensures { IfSome result (λ power. power ≡ numbers.nth_power base exponent) }
{
    if exponent > MOST_EXPONENT {
        return None;
    }
    let mut power = 1_i128;
    for _step in 0..exponent {
        power = power.checked_mul(i128::from(base))?;
    }
    Some(power)
}

/// A power, as far as words of 128 bits tell it.
fn nth_power(base: i64, exponent: u64) -> Option<i128>
    ensures { IfSome result (λ power. power ≡ numbers.nth_power base exponent) }
{
    multiplied(base, steps(base, exponent))
}

/// From the least to the greatest of two numbers, and 0 where it lies in the interval.
#[tactic(auto, unfolding(ep_base::specs::Intervals::spanned, ep_base::specs::Intervals::least_or_zero, ep_base::specs::Intervals::greatest_or_zero, ep_base::specs::Numbers::least_of, ep_base::specs::Numbers::greatest_of))]
fn between(x: Span, one: i128, other: i128) -> WideSpan
    ensures { wide_interval result ≡ defined.spanned
        (one ∷ other ∷ (if defined.has_zero (interval_of x) then pos 0 ∷ [] else [])) }
{
    if has_zero(x) {
        return WideSpan {
            low: one.min(other).min(0),
            high: one.max(other).max(0),
        };
    }
    WideSpan {
        low: one.min(other),
        high: one.max(other),
    }
}

/// `x ** n`, as far as it is told.
pub fn power(x: Span, exponent: u64) -> Option<WideSpan>
    ensures { IfSome result (λ whole.
        wide_interval whole ≡ defined.nth_power_interval (interval_of x) exponent) }
{
    if exponent == 0 {
        return Some(WideSpan { low: 1, high: 1 });
    }
    let low = nth_power(x.low, exponent)?;
    let high = nth_power(x.high, exponent)?;
    Some(between(x, low, high))
}
