//! Powers of numbers with a decision variable.

ghost use Rattle.std.specs.Prelude.{◌≡◌, ℤ, Bool, Option, Some};
ghost use Rattle.ep_base.specs.Intervals as intervals;
ghost use Rattle.ep_tree.specs.Reach as defined;
ghost use Rattle.ep_tree.specs.Reach.{measured_index};
ghost use Rattle.ep_size.specs.Finishing.{Gives};
ghost use Rattle.ep_size.specs.Indices.{measured_of};
ghost use Rattle.ep_numbers.specs.Spans.{interval_of};

use super::errors::SizeError;
use super::extents::{Span, wide_span};
use super::nodes::wide;
use super::reading::Indexed;
use ep_base::Limit;
use ep_numbers::{Span as Ends, power as whole_power};

/// `x ** n` for numbers between two ends.
fn power_span(x: Ends, exponent: u64) -> Result<Span, SizeError>
    ensures { Gives result (defined.wide_span (intervals.nth_power_interval (interval_of x) exponent)) }
{
    match whole_power(x, exponent) {
        Some(reach) => wide(reach),
        None => Err(SizeError::Limit(Limit::Reach)),
    }
}

/// `x ** y` for a number y, which may be negative.
fn stated_power(x: Ends, exponent: i64) -> Result<Span, SizeError>
    ensures { Gives result (defined.wide_span (intervals.power_interval (interval_of x) (Some exponent))) }
{
    if exponent < 0 {
        return Ok(wide_span(Ends { low: 0, high: 0 }));
    }
    power_span(x, exponent as u64)
}

/// `x ** y`, where no decision variable stands in y.
pub fn power(x: Span, exponent: Indexed) -> Result<Span, SizeError>
    ensures { (n : Option ℤ) → (decided : Bool) → (s : defined.Span) → measured_of exponent ≡ measured_index decided s n
        → Gives result (defined.wide_span (intervals.power_interval (interval_of x.reach) n)) }
{
    match exponent {
        Indexed::Stated(number) => match number {
            Some(stated) => stated_power(x.reach, stated),
            None => Ok(wide_span(Ends { low: 0, high: 0 })),
        },
        Indexed::Every => Err(SizeError::Memory),
        Indexed::Decided(_) => Err(SizeError::Memory),
    }
}
