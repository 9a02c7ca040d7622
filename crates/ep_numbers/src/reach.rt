//! Numbers that the stages compute with: none is farther from 0 than 2^40.

ghost use Rattle.std.specs.Prelude.{◌≡◌, true, IfSome, IsSome};
ghost use Rattle.ep_base.specs.Reads.{IsWithinNumbers, is_too_far};

/// The greatest number that the stages compute with.
pub const MOST_NUMBER: i64 = 1_099_511_627_776;

/// The same as a wide word.
pub const MOST_WIDE: i128 = MOST_NUMBER as i128;

/// Whether a number is too far from 0.
pub fn is_far(number: i128) -> bool
    ensures { result ≡ is_too_far number }
{
    number > MOST_WIDE || number < -MOST_WIDE
}

/// Whether a word is too far from 0.
pub fn is_far_word(number: i64) -> bool
    ensures { result ≡ is_too_far number }
{
    number > MOST_NUMBER || number < -MOST_NUMBER
}

/// Whether the stages compute with a number.
pub fn is_near(number: i64) -> bool
    ensures sound { result ≡ true → IsWithinNumbers number }
    ensures complete { IsWithinNumbers number → result ≡ true }
{
    number >= -MOST_NUMBER && number <= MOST_NUMBER
}

/// A number with which the stages compute, as a word.
pub fn near_number(number: i128) -> Option<i64>
    ensures same { IfSome result (λ n. n ≡ number) }
    ensures near { IfSome result IsWithinNumbers }
    ensures told { IsWithinNumbers number → IsSome result }
{
    if number < -MOST_WIDE || number > MOST_WIDE {
        return None;
    }
    Some(number as i64)
}
