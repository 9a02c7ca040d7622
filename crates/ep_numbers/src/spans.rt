//! Intervals of numbers: those in which the results of operations lie.

ghost use Rattle.std.specs.Prelude.{◌≡◌, ◌∷◌, [], if◌then◌else◌, ◌≤ℤ◌, ◌+ℤ◌, ◌*ℤ◌, ◌-ℤ◌, int_le, neg_ℤ, pos, IfSome, IsSome};
ghost use Rattle.std.specs.Int.{int_max, int_min};
ghost use Rattle.ep_base.specs.Intervals as defined;
ghost use Rattle.ep_base.specs.Intervals.{IsWithinReach, from_to};
ghost use Rattle.ep_base.specs.Numbers.{absolute_of};
ghost use Rattle.ep_numbers.specs.Spans.{IsWide, interval_of, wide_interval};
ghost use Rattle.ep_base.specs.RunEnds.{greatest_from, least_from};

use super::powers::{nth_power, times};
use super::reach::near_number;
use ep_base::{Run, Runs};

/// The whole numbers from the lower end to the upper end.
#[derive(Clone, Copy, Debug, PartialEq, Eq)]
pub struct Span {
    /// The least number.
    pub low: i64,
    /// The greatest number.
    pub high: i64,
}

/// The same, where the ends may be farther from 0 than the stages compute.
#[derive(Clone, Copy, Debug, PartialEq, Eq)]
pub struct WideSpan {
    /// The least number.
    pub low: i128,
    /// The greatest number.
    pub high: i128,
}

/// The same ends, wide enough for any result.
pub fn widened(x: Span) -> WideSpan
    ensures { wide_interval result ≡ interval_of x }
{
    WideSpan {
        low: i128::from(x.low),
        high: i128::from(x.high),
    }
}

/// An interval with whose ends the stages compute.
pub fn near(x: WideSpan) -> Option<Span>
    ensures same { IfSome result (λ span. interval_of span ≡ wide_interval x) }
    ensures near { IfSome result (λ span. IsWithinReach (interval_of span)) }
    ensures told { IsWithinReach (wide_interval x) → IsSome result }
{
    let low = near_number(x.low)?;
    let high = near_number(x.high)?;
    Some(Span { low, high })
}

/// A number alone.
pub fn only(number: i64) -> WideSpan
    ensures { wide_interval result ≡ defined.only number }
{
    widened(Span {
        low: number,
        high: number,
    })
}

/// From the least number of an interval and of a run to the greatest.
fn with_run(x: Span, run: Run) -> Span
    ensures low { result.low ≡ int_min x.low run.lo }
    ensures high { result.high ≡ int_max x.high run.hi }
{
    Span {
        low: x.low.min(run.lo),
        high: x.high.max(run.hi),
    }
}

/// From the least number of a run and of some others to the greatest.
fn span_from(first: Run, runs: &[Run]) -> Span
    ensures low { result.low ≡ least_from first.lo runs.now }
    ensures high { result.high ≡ greatest_from first.hi runs.now }
{
    let mut span = Span {
        low: first.lo,
        high: first.hi,
    };
    for run in runs {
        span = with_run(span, *run);
    }
    span
}

/// From the least number of a set to the greatest, by its runs.
pub fn span_of_set(set: &Runs) -> Span
    ensures { interval_of result ≡ defined.spanned set.now }
{
    let runs = set.runs();
    match runs.split_first() {
        Some((first, _)) => span_from(*first, runs),
        None => Span { low: 0, high: 0 },
    }
}

/// The sum of one number of each of two intervals, where its ends are no too great words.
pub fn added(x: WideSpan, y: WideSpan) -> Option<WideSpan>
    ensures sum { IfSome result (λ sum. wide_interval sum ≡ from_to (x.low +ℤ y.low) (x.high +ℤ y.high)) }
    ensures told { IsWide (x.low +ℤ y.low) → IsWide (x.high +ℤ y.high) → IsSome result }
{
    let low = x.low.checked_add(y.low)?;
    let high = x.high.checked_add(y.high)?;
    Some(WideSpan { low, high })
}

/// The numbers of an interval, each multiplied by a coefficient.
#[tactic(auto, unfolding(ep_base::specs::Intervals::scaled))]
pub fn scaled(coefficient: i64, x: Span) -> WideSpan
    ensures { wide_interval result ≡ defined.scaled coefficient (interval_of x) }
{
    product(
        Span {
            low: coefficient,
            high: coefficient,
        },
        x,
    )
}

/// `-x`
#[tactic(auto, unfolding(ep_base::specs::Intervals::negated))]
pub fn negated(x: Span) -> WideSpan
    ensures { wide_interval result ≡ defined.negated (interval_of x) }
{
    WideSpan {
        low: -i128::from(x.high),
        high: -i128::from(x.low),
    }
}

/// The greatest absolute value of the ends.
#[tactic(auto, unfolding(ep_base::specs::Intervals::farthest_end), using(crate::proofs::Ends::absolute_is))]
fn farthest(x: Span) -> i128
    ensures value { result ≡ defined.farthest_end (interval_of x) }
    ensures low { pos 0 ≤ℤ result }
    ensures high { result ≤ℤ pos 9223372036854775808 }
{
    i128::from(x.low).abs().max(i128::from(x.high).abs())
}

/// The least absolute value of the ends.
#[tactic(auto, using(crate::proofs::Ends::absolute_is))]
fn least_absolute(x: Span) -> i128
    ensures { result ≡ int_min (absolute_of x.low) (absolute_of x.high) }
{
    i128::from(x.low).abs().min(i128::from(x.high).abs())
}

/// Whether 0 lies between the ends.
#[tactic(auto, unfolding(ep_base::specs::Intervals::has_zero))]
pub fn has_zero(x: Span) -> bool
    ensures { result ≡ defined.has_zero (interval_of x) }
{
    x.low <= 0 && 0 <= x.high
}

/// `|x|`
#[tactic(auto, unfolding(ep_base::specs::Intervals::absolute_interval), using(crate::proofs::Ends::absolute_is))]
pub fn absolute(x: Span) -> WideSpan
    ensures { wide_interval result ≡ defined.absolute_interval (interval_of x) }
{
    let high = farthest(x);
    if has_zero(x) {
        return WideSpan { low: 0, high };
    }
    WideSpan {
        low: least_absolute(x),
        high,
    }
}

/// `x / y`
#[tactic(auto, unfolding(ep_base::specs::Intervals::quotient_interval))]
pub fn quotient(x: Span) -> WideSpan
    ensures { wide_interval result ≡ defined.quotient_interval (interval_of x) }
{
    let high = farthest(x);
    WideSpan { low: -high, high }
}

/// The lower end of `x % y`, where none is further from 0 than this.
fn remainder_low(y: Span, most: i128) -> i128
    requires low { pos 0 ≤ℤ most }
    requires high { most ≤ℤ pos 9223372036854775808 }
    ensures { result ≡ (if int_le (pos 0) y.low then pos 0 else neg_ℤ most) }
{
    if 0 <= y.low {
        return 0;
    }
    -most
}

/// The upper end of `x % y`, where none is further from 0 than this.
fn remainder_high(y: Span, most: i128) -> i128
    ensures { result ≡ (if int_le y.high (pos 0) then pos 0 else most) }
{
    if y.high <= 0 {
        return 0;
    }
    most
}

/// The greatest absolute value of `x % y`.
fn most_remainder(y: Span) -> i128
    ensures value { result ≡ (int_max (pos 1) (defined.farthest_end (interval_of y)) -ℤ pos 1) }
    ensures low { pos 0 ≤ℤ result }
    ensures high { result ≤ℤ pos 9223372036854775808 }
{
    1_i128.max(farthest(y)) - 1
}

/// `x % y`
#[tactic(auto, unfolding(ep_base::specs::Intervals::remainder_interval))]
pub fn remainder(y: Span) -> WideSpan
    ensures { wide_interval result ≡ defined.remainder_interval (interval_of y) }
{
    let most = most_remainder(y);
    WideSpan {
        low: remainder_low(y, most),
        high: remainder_high(y, most),
    }
}

/// The least of four numbers.
#[tactic(auto, unfolding(ep_base::specs::Intervals::least_or_zero, ep_base::specs::Numbers::least_of))]
fn least_of_four(one: i128, two: i128, three: i128, four: i128) -> i128
    ensures { result ≡ defined.least_or_zero (one ∷ two ∷ three ∷ four ∷ []) }
{
    one.min(two).min(three).min(four)
}

/// The greatest of four numbers.
#[tactic(auto, unfolding(ep_base::specs::Intervals::greatest_or_zero, ep_base::specs::Numbers::greatest_of))]
fn greatest_of_four(one: i128, two: i128, three: i128, four: i128) -> i128
    ensures { result ≡ defined.greatest_or_zero (one ∷ two ∷ three ∷ four ∷ []) }
{
    one.max(two).max(three).max(four)
}

/// `x * y`
#[tactic(auto, unfolding(ep_base::specs::Intervals::product_interval, ep_base::specs::Intervals::spanned))]
pub fn product(x: Span, y: Span) -> WideSpan
    ensures { wide_interval result ≡ defined.product_interval (interval_of x) (interval_of y) }
{
    let one = times(x.low, y.low);
    let two = times(x.low, y.high);
    let three = times(x.high, y.low);
    let four = times(x.high, y.high);
    WideSpan {
        low: least_of_four(one, two, three, four),
        high: greatest_of_four(one, two, three, four),
    }
}

/// From the least to the greatest of two numbers, and 0 where it lies in the interval.
#[tactic(auto, unfolding(ep_base::specs::Intervals::spanned, ep_base::specs::Intervals::least_or_zero, ep_base::specs::Intervals::greatest_or_zero, ep_base::specs::Numbers::least_of, ep_base::specs::Numbers::greatest_of))]
fn between(x: Span, one: i64, other: i64) -> WideSpan
    ensures { wide_interval result ≡ defined.spanned
        (one ∷ other ∷ (if defined.has_zero (interval_of x) then pos 0 ∷ [] else [])) }
{
    if has_zero(x) {
        return widened(Span {
            low: one.min(other).min(0),
            high: one.max(other).max(0),
        });
    }
    widened(Span {
        low: one.min(other),
        high: one.max(other),
    })
}

/// `x ** n`, where the powers of its ends are no farther from 0 than the stages compute.
pub fn power(x: Span, exponent: u64) -> Option<WideSpan>
    ensures same { IfSome result (λ whole.
        wide_interval whole ≡ defined.nth_power_interval (interval_of x) exponent) }
    ensures told { IsWithinReach (defined.nth_power_interval (interval_of x) exponent) → IsSome result }
{
    if exponent == 0 {
        return Some(only(1));
    }
    let Some(low) = nth_power(x.low, exponent) else {
        return None;
    };
    let Some(high) = nth_power(x.high, exponent) else {
        return None;
    };
    Some(between(x, low, high))
}

/// The lesser of two numbers.
#[tactic(auto, unfolding(ep_base::specs::Intervals::least_interval, ep_base::specs::Intervals::least_or_zero, ep_base::specs::Numbers::least_of))]
pub fn least(x: Span, y: Span) -> Span
    ensures { interval_of result ≡ defined.least_interval (interval_of x ∷ interval_of y ∷ []) }
{
    Span {
        low: x.low.min(y.low),
        high: x.high.min(y.high),
    }
}

/// The greater of two numbers.
#[tactic(auto, unfolding(ep_base::specs::Intervals::greatest_interval, ep_base::specs::Intervals::greatest_or_zero, ep_base::specs::Numbers::greatest_of))]
pub fn greatest(x: Span, y: Span) -> Span
    ensures { interval_of result ≡ defined.greatest_interval (interval_of x ∷ interval_of y ∷ []) }
{
    Span {
        low: x.low.max(y.low),
        high: x.high.max(y.high),
    }
}

/// How many numbers lie in an interval.
#[tactic(auto, unfolding(ep_base::specs::Intervals::width))]
pub fn width(x: Span) -> u128
    ensures { result ≡ defined.width (interval_of x) }
{
    let count = i128::from(x.high) + 1 - i128::from(x.low);
    if count < 0 {
        return 0;
    }
    count as u128
}

/// The least and the greatest of the lower ends of some intervals, and of their upper ends.
#[derive(Clone, Copy, Debug, PartialEq, Eq)]
pub struct Extremes {
    /// The least and the greatest of the lower ends.
    pub lows: Span,
    /// The least and the greatest of the upper ends.
    pub highs: Span,
}

/// The same of one interval more.
pub fn with_one(found: Extremes, x: Span) -> Extremes
    ensures least_low { result.lows.low ≡ int_min found.lows.low x.low }
    ensures greatest_low { result.lows.high ≡ int_max found.lows.high x.low }
    ensures least_high { result.highs.low ≡ int_min found.highs.low x.high }
    ensures greatest_high { result.highs.high ≡ int_max found.highs.high x.high }
{
    Extremes {
        lows: Span {
            low: found.lows.low.min(x.low),
            high: found.lows.high.max(x.low),
        },
        highs: Span {
            low: found.highs.low.min(x.high),
            high: found.highs.high.max(x.high),
        },
    }
}
