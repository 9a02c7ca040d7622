//! Reads the numbers of a line, from where a text stands up to the end of the line.

ghost use Rattle.std.specs.Prelude.{◌≡◌, ◌<◌, ◌^◌, length, false, IfOk, unsigned_abs};
ghost use Rattle.sat_text.specs.Words.{behind_line, first_line, words};
ghost use Rattle.sat_text.specs.Clauses.{is_zero, literal_of};
ghost use Rattle.sat_text.specs.Answers.{Gives};
ghost use Rattle.sat_text.specs.Proofs.{whole_at, items_at, positive_of, any_literal, any_hint};

use crate::faults::Fault;
use crate::numbers::next_whole;
use crate::words::behind_blanks;
use cnf_core::Lit;

/// The first number of what a line still has, and what stands behind it.
pub(crate) fn whole_at(text: &[u8]) -> Result<(i64, &[u8]), Fault>
    ensures value { Gives (λ x. (x.0, words (first_line x.1.now))) result (whole_at (words (first_line text.now))) }
    ensures line { IfOk result (λ x. behind_line x.1.now ≡ behind_line text.now) }
    ensures small { IfOk result (λ x. unsigned_abs x.0 < 10 ^ 18) }
    ensures shorter { IfOk result (λ x. length x.1.now < length text.now) }
{
    match next_whole(behind_blanks(text)) {
        Some(found) => Ok(found),
        None => Err(Fault::Wrong),
    }
}

/// A number that is positive.
pub(crate) fn positive(number: i64) -> Result<u64, Fault>
    ensures { Gives (λ x. x) result (positive_of number) }
{
    if number > 0 {
        Ok(number.unsigned_abs())
    } else {
        Err(Fault::Wrong)
    }
}

pub(crate) fn is_zero(number: i64) -> bool
    ensures { result ≡ is_zero number }
{
    number == 0
}

/// The literal of a number.
pub(crate) fn literal(number: i64) -> Lit
    requires other { is_zero number ≡ false }
    requires small { unsigned_abs number < 10 ^ 18 }
    ensures { result ≡ literal_of number }
{
    Lit::new(number.unsigned_abs(), number > 0)
}

/// Puts the literals of the numbers up to a 0 into a list in place of what it has, and gives what stands behind the 0.
pub(crate) fn literals<'a>(found: &mut Vec<Lit>, text: &'a [u8]) -> Result<&'a [u8], Fault>
    ensures value { Gives (λ rest. (found.new.items, words (first_line rest.now))) result (items_at any_literal (words (first_line text.now))) }
    ensures line { IfOk result (λ rest. behind_line rest.now ≡ behind_line text.now) }
{
    found.clear();
    let mut rest = text;
    loop {
        let (number, later) = whole_at(rest)?;
        if is_zero(number) {
            return Ok(later);
        }
        found.push(literal(number))?;
        rest = later;
    }
}

/// The same with the numbers.
pub(crate) fn hints<'a>(found: &mut Vec<i64>, text: &'a [u8]) -> Result<&'a [u8], Fault>
    ensures value { Gives (λ rest. (found.new.items, words (first_line rest.now))) result (items_at any_hint (words (first_line text.now))) }
    ensures line { IfOk result (λ rest. behind_line rest.now ≡ behind_line text.now) }
{
    found.clear();
    let mut rest = text;
    loop {
        let (number, later) = whole_at(rest)?;
        if is_zero(number) {
            return Ok(later);
        }
        found.push(number)?;
        rest = later;
    }
}

/// The same with the numbers, which have to be positive.
pub(crate) fn ids<'a>(found: &mut Vec<u64>, text: &'a [u8]) -> Result<&'a [u8], Fault>
    ensures value { Gives (λ rest. (found.new.items, words (first_line rest.now))) result (items_at positive_of (words (first_line text.now))) }
    ensures line { IfOk result (λ rest. behind_line rest.now ≡ behind_line text.now) }
{
    found.clear();
    let mut rest = text;
    loop {
        let (number, later) = whole_at(rest)?;
        if is_zero(number) {
            return Ok(later);
        }
        found.push(positive(number)?)?;
        rest = later;
    }
}
