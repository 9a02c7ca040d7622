//! Reads numbers, literals and signs.

ghost use Rattle.std.specs.Prelude.{◌≡◌, ◌^◌, ◌<◌, IfSome, unsigned_abs};
ghost use Rattle.sat_text.specs.Numbers.{natural_of};
ghost use Rattle.opb_text.specs.Words.{is_end, is_goal, relation_of};
ghost use Rattle.opb_text.specs.Numbers.{signed_number_of, variable_of, opb_literal_of};

/// The number of one to eighteen digits.
fn natural(word: &[u8]) -> Option<u64>
    ensures value { result ≡ natural_of word.now }
    ensures small { IfSome result (λ n. n < 10 ^ 18) }
{
    if word.is_empty() || word.len() > 18 {
        return None;
    }
    let mut number = 0u64;
    for b in word {
        if !b.is_ascii_digit() {
            return None;
        }
        number = number * 10 + u64::from(*b - b'0');
    }
    Some(number)
}

/// The number of one to eighteen digits, with a `+` or a `-` before them or none.
pub(crate) fn number(word: &[u8]) -> Option<i64>
    ensures { result ≡ signed_number_of word.now }
{
    match word {
        [b'+', digits @ ..] => natural(digits).map(|n| n as i64),
        [b'-', digits @ ..] => natural(digits).map(|n| -(n as i64)),
        _ => natural(word).map(|n| n as i64),
    }
}

/// The variable that an `x` and digits name.
fn variable(word: &[u8]) -> Option<u64>
    ensures { result ≡ variable_of word.now }
{
    match word {
        [b'x', digits @ ..] => natural(digits).filter(|n| *n > 0),
        _ => None,
    }
}

/// Whether a literal is negated, and its variable.
pub(crate) fn literal(word: &[u8]) -> Option<(bool, u64)>
    ensures { result ≡ opb_literal_of word.now }
{
    match word {
        [b'~', name @ ..] => variable(name).map(|var| (true, var)),
        _ => variable(word).map(|var| (false, var)),
    }
}

/// Whether a sum has to be equal to its right side, by the sign between them.
pub(crate) fn relation(word: &[u8]) -> Option<bool>
    ensures { result ≡ relation_of word.now }
{
    match word {
        [b'='] => Some(true),
        [b'>', b'='] => Some(false),
        _ => None,
    }
}

/// Whether a word ends the objective or a constraint.
pub(crate) fn is_end(word: &[u8]) -> bool
    ensures { result ≡ is_end word.now }
{
    matches!(word, [b';'])
}

/// Whether a word begins the objective.
pub(crate) fn is_goal(word: &[u8]) -> bool
    ensures { result ≡ is_goal word.now }
{
    matches!(word, [b'm', b'i', b'n', b':'])
}
