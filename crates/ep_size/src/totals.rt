//! What is measured so far, and numbers that are told only as far as a limit needs them.

ghost use Rattle.std.specs.Prelude.{◌≡◌, ◌*◌, ◌≤◌};
ghost use Rattle.ep_size.specs.Totals.{MOST_TOLD, capped};

use ep_eval::Meter;

/// The greatest weight of an instance.
pub const MOST_WEIGHT: u64 = 20_000_000;

/// Numbers are told as far as this, since what is greater passes each limit.
pub const MOST_TOLD: u64 = 20_000_001;

/// How many cells and nodes were met, and what they weigh, as far as a weight is told.
#[derive(Clone, Copy, Debug, PartialEq, Eq)]
pub struct Totals {
    pub meter: Meter,
    pub weight: u64,
}

/// A number, as far as it is told.
pub fn told(number: u64) -> u64
    ensures { result ≡ capped number }
{
    if number > MOST_TOLD {
        return MOST_TOLD;
    }
    number
}

/// A product of two numbers, as far as it is told.
pub fn product(one: u64, other: u64) -> u64
    requires first { one ≤ MOST_TOLD }
    requires second { other ≤ MOST_TOLD }
    ensures { result ≡ capped (one * other) }
{
    told(one * other)
}
