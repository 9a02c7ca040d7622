//! Intervals that are near enough to 0 to be kept, and counts that are told.

ghost use Rattle.std.specs.Prelude.{◌≡◌};
ghost use Rattle.ep_numbers.specs.Spans.{wide_interval};
ghost use Rattle.ep_size.specs.Spans.{Keeps};
ghost use Rattle.ep_size.specs.Totals.{capped};

use super::errors::SizeError;
use super::totals::MOST_TOLD;
use ep_base::Limit;
use ep_numbers::{Span, WideSpan, near as near_span};

/// A count, as far as it is told.
pub fn told_count(count: u128) -> u64
    ensures { result ≡ capped count }
{
    if count > 20_000_001 {
        return MOST_TOLD;
    }
    count as u64
}

/// An interval that is near enough to 0 to be kept.
pub fn near(wide: WideSpan) -> Result<Span, SizeError>
    ensures { Keeps (wide_interval wide) result }
{
    match near_span(wide) {
        Some(span) => Ok(span),
        None => Err(SizeError::Limit(Limit::Reach)),
    }
}
