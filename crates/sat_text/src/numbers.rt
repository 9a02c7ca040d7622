//! Reads numbers.

ghost use Rattle.std.specs.Prelude.{◌≡◌, ◌^◌, ◌<◌, IfSome, MatchOption, None, Some, length, unsigned_abs};
ghost use Rattle.sat_text.specs.Numbers.{natural_of, whole_of};
ghost use Rattle.sat_text.specs.Words.{first_word, behind_word};

use crate::words::plain;

/// The number of one to eighteen digits.
pub(crate) fn natural(word: &[u8]) -> Option<u64>
    ensures value { result ≡ natural_of word.now }
    ensures small { IfSome result (λ n. n < 10 ^ 18) }
{
    if word.is_empty() || word.len() > 18 {
        return None;
    }
    let mut number = 0u64;
    for b in word {
        if !b.is_ascii_digit() {
            return None;
        }
        number = number * 10 + u64::from(*b - b'0');
    }
    Some(number)
}

/// The number of one to eighteen digits, with a `-` before them or none.
pub(crate) fn whole(word: &[u8]) -> Option<i64>
    ensures value { result ≡ whole_of word.now }
    ensures small { IfSome result (λ n. unsigned_abs n < 10 ^ 18) }
{
    match word {
        [b'-', digits @ ..] => natural(digits).map(|n| -(n as i64)),
        _ => natural(word).map(|n| n as i64),
    }
}

/// The number that the word at the front of a text spells, and what stands behind the word.
fn next_natural(text: &[u8]) -> Option<(u64, &[u8])>
    ensures value { MatchOption result (natural_of (first_word text.now) ≡ None)
        (λ found. (natural_of (first_word text.now) ≡ Some found.0)
        × (found.1.now ≡ behind_word text.now)) }
    ensures small { IfSome result (λ found. found.0 < 10 ^ 18) }
    ensures shorter { IfSome result (λ found. length found.1.now < length text.now) }
{
    let mut number = 0u64;
    let mut count = 0usize;
    for b in text {
        if !b.is_ascii_digit() {
            if count == 0 {
                return None;
            }
            if plain(*b) {
                return None;
            }
            let (_, later) = text.split_at(count);
            return Some((number, later));
        }
        if count == 18 {
            return None;
        }
        number = number * 10 + u64::from(*b - b'0');
        count += 1;
    }
    if count == 0 {
        None
    } else {
        Some((number, &[]))
    }
}

/// The same, where a `-` may stand before the digits.
pub(crate) fn next_whole(text: &[u8]) -> Option<(i64, &[u8])>
    ensures value { MatchOption result (whole_of (first_word text.now) ≡ None)
        (λ found. (whole_of (first_word text.now) ≡ Some found.0)
        × (found.1.now ≡ behind_word text.now)) }
    ensures small { IfSome result (λ found. unsigned_abs found.0 < 10 ^ 18) }
    ensures shorter { IfSome result (λ found. length found.1.now < length text.now) }
{
    match text {
        [b'-', digits @ ..] => {
            let (number, later) = next_natural(digits)?;
            Some((-(number as i64), later))
        }
        _ => {
            let (number, later) = next_natural(text)?;
            Some((number as i64, later))
        }
    }
}
