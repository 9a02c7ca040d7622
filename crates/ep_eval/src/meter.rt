//! How many nodes were met, and whether a limit is passed.

ghost use Rattle.std.specs.Prelude.{◌≡◌, is_some};
ghost use Rattle.ep_eval.specs.Meters.{Counts, SettlesWorth, is_far_worth};

use super::held::{Held, number_of};
use super::worth::Worth;
use ep_base::Limit;
use ep_numbers::is_far_word;

/// The greatest number of nodes that may be met.
pub const MOST_SIZE: u64 = 5_000_000;

/// How many nodes were met, and the limit that was passed, if one was. Nothing is counted behind it.
#[derive(Clone, Copy, Debug, PartialEq, Eq)]
pub struct Meter {
    pub size: u64,
    pub passed: Option<Limit>,
}

/// Whether a limit is passed.
pub fn is_over(meter: &Meter) -> bool
    ensures { result ≡ is_some meter.now.passed }
{
    meter.passed.is_some()
}

/// Counts a name of a generator, unless a limit is passed.
pub fn count_name(meter: &mut Meter)
    ensures { Counts meter.old meter.new }
{
    if meter.passed.is_some() {
        return;
    }
    if meter.size >= MOST_SIZE {
        meter.passed = Some(Limit::Size);
        return;
    }
    meter.size += 1;
}

/// Whether a worth is a number too far from 0.
#[tactic(auto, unfolding(crate::specs::Meters::is_far_worth))]
fn is_far(worth: &Worth) -> bool
    ensures { result ≡ is_far_worth worth.now }
{
    match worth {
        Worth::Far => true,
        Worth::Seen(seen) => match number_of(seen) {
            Some(number) => is_far_word(number),
            None => false,
        },
    }
}

/// The value of a node whose parts were met. It is counted, unless a limit is passed.
#[tactic(auto, unfolding(crate::specs::Meters::is_far_worth))]
pub fn settled<'a>(meter: &mut Meter, worth: Worth<'a>) -> Option<Held<'a>>
    ensures { SettlesWorth meter.old meter.new worth.entry result }
{
    if meter.passed.is_some() {
        return None;
    }
    if meter.size >= MOST_SIZE {
        meter.passed = Some(Limit::Size);
        return None;
    }
    if is_far(&worth) {
        meter.passed = Some(Limit::Reach);
        return None;
    }
    meter.size += 1;
    match worth {
        Worth::Seen(seen) => seen,
        Worth::Far => None,
    }
}
