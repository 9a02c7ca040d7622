//! Quotients and remainders, with 0 for a divisor of 0.

ghost use Rattle.std.specs.Prelude.{◌≡◌};
ghost use Rattle.ep_base.specs.Reads.{safe_quotient, safe_remainder};

use ep_numbers::quotients;

/// The floor of the quotient, and 0 for a divisor of 0.
#[tactic(auto, unfolding(ep_base::specs::Reads::safe_quotient))]
pub(crate) fn quotient(left: i64, right: i64) -> i128
    ensures { result ≡ safe_quotient left right }
{
    quotients::quotient(left, right).unwrap_or(0)
}

/// The remainder, and 0 for a divisor of 0.
#[tactic(auto, unfolding(ep_base::specs::Reads::safe_remainder))]
pub(crate) fn remainder(left: i64, right: i64) -> i128
    ensures { result ≡ safe_remainder left right }
{
    quotients::remainder(left, right).unwrap_or(0)
}
