//! Between which numbers sums lie, so that partial sums are told apart only where that matters.

ghost use Rattle.std.specs.Prelude.{◌≡◌, ◌≤ℤ◌, ◌+ℤ◌, ◌-ℤ◌, int_le, int_lt, neg_ℤ, pos, IfOk};
ghost use Rattle.enc_linear.specs.Bounds.{HasBounds, clipped};
ghost use Rattle.enc_linear.specs.Terms.{HoldsSteps};

use crate::terms::{Step, Term};
use ep_base::Memory;

/// Two numbers between which a sum lies.
#[derive(Clone, Copy, Debug)]
pub struct Bounds {
    /// It is no less than this.
    pub least: i128,
    /// It is no greater than this.
    pub greatest: i128,
}

/// Two numbers between which partial sums are told apart. With a sum of at most `low` the whole comes to less than it is
/// compared with, whatever the rest comes to, and with one of at least `high` to more.
#[derive(Clone, Copy, Debug)]
pub struct Clip {
    /// What is less counts as this.
    pub low: i128,
    /// What is greater counts as this.
    pub high: i128,
}

/// Bounds that hold a number as well.
fn widened(bounds: Bounds, number: i128) -> Bounds
    ensures least { (result.least ≤ℤ bounds.least) × (result.least ≤ℤ number) }
    ensures greatest { (bounds.greatest ≤ℤ result.greatest) × (number ≤ℤ result.greatest) }
{
    let mut wide = bounds;
    if number < wide.least {
        wide.least = number;
    }
    if wide.greatest < number {
        wide.greatest = number;
    }
    wide
}

/// The bounds of what steps are worth.
pub(crate) fn bounds_of(steps: &[Step]) -> Bounds
    ensures { HoldsSteps result steps.now }
{
    if steps.len() == 0 {
        return Bounds {
            least: 0,
            greatest: 0,
        };
    }
    let first = steps[0].worth;
    let mut bounds = Bounds {
        least: first,
        greatest: first,
    };
    for step in steps {
        bounds = widened(bounds, step.worth);
    }
    bounds
}

/// Whether a number is less than all that lies within bounds.
pub(crate) fn is_under(number: i128, bounds: Bounds) -> bool
    ensures { result ≡ int_lt number bounds.least }
{
    number < bounds.least
}

/// Whether a number is greater than all that lies within bounds.
pub(crate) fn is_over(number: i128, bounds: Bounds) -> bool
    ensures { result ≡ int_lt bounds.greatest number }
{
    bounds.greatest < number
}

/// Whether a number is no less than all that lies within bounds.
pub(crate) fn is_enough(number: i128, bounds: Bounds) -> bool
    ensures { result ≡ int_le bounds.greatest number }
{
    bounds.greatest <= number
}

/// The bounds of a sum of two that lie within bounds.
pub(crate) fn added(one: Bounds, other: Bounds) -> Result<Bounds, Memory>
    ensures least { IfOk result (λ sum. sum.least ≡ one.least +ℤ other.least) }
    ensures greatest { IfOk result (λ sum. sum.greatest ≡ one.greatest +ℤ other.greatest) }
{
    let least = one.least.checked_add(other.least).ok_or(Memory)?;
    let greatest = one.greatest.checked_add(other.greatest).ok_or(Memory)?;
    Ok(Bounds { least, greatest })
}

/// The bounds of which others were part.
pub(crate) fn without(whole: Bounds, part: Bounds) -> Result<Bounds, Memory>
    ensures least { IfOk result (λ rest. rest.least ≡ whole.least -ℤ part.least) }
    ensures greatest { IfOk result (λ rest. rest.greatest ≡ whole.greatest -ℤ part.greatest) }
{
    let least = whole.least.checked_sub(part.least).ok_or(Memory)?;
    let greatest = whole.greatest.checked_sub(part.greatest).ok_or(Memory)?;
    Ok(Bounds { least, greatest })
}

/// The bounds of a sum of terms.
pub(crate) fn bounds_of_sum(terms: &[Term]) -> Result<Bounds, Memory>
    ensures { IfOk result (λ bounds. HasBounds bounds terms.now) }
{
    let mut bounds = Bounds {
        least: 0,
        greatest: 0,
    };
    for term in terms {
        bounds = added(bounds, term.bounds)?;
    }
    Ok(bounds)
}

/// Where a partial sum is told apart, if the rest of a sum that is compared with a number lies within these bounds.
pub(crate) fn clip_for(rest: Bounds, number: i64) -> Result<Clip, Memory>
    ensures low { IfOk result (λ clip. clip.low ≡ (number -ℤ rest.greatest) -ℤ pos 1) }
    ensures high { IfOk result (λ clip. clip.high ≡ (number -ℤ rest.least) +ℤ pos 1) }
{
    let number = i128::from(number);
    let under = number.checked_sub(rest.greatest).ok_or(Memory)?;
    let over = number.checked_sub(rest.least).ok_or(Memory)?;
    let low = under.checked_sub(1).ok_or(Memory)?;
    let high = over.checked_add(1).ok_or(Memory)?;
    Ok(Clip { low, high })
}

/// Where the opposite of a partial sum is told apart.
pub(crate) fn opposite_clip(clip: Clip) -> Result<Clip, Memory>
    ensures low { IfOk result (λ other. other.low ≡ neg_ℤ clip.high) }
    ensures high { IfOk result (λ other. other.high ≡ neg_ℤ clip.low) }
{
    let low = 0i128.checked_sub(clip.high).ok_or(Memory)?;
    let high = 0i128.checked_sub(clip.low).ok_or(Memory)?;
    Ok(Clip { low, high })
}

/// A number, or the end of the clip beyond which it lies, as a number that a variable may have.
pub(crate) fn clipped(clip: Clip, number: i128) -> Result<i64, Memory>
    ensures { IfOk result (λ near. near ≡ clipped clip.low clip.high number) }
{
    if number < clip.low {
        return narrowed(clip.low);
    }
    if clip.high < number {
        return narrowed(clip.high);
    }
    narrowed(number)
}

/// A number of the width that variables have.
fn narrowed(number: i128) -> Result<i64, Memory>
    ensures { IfOk result (λ narrow. narrow ≡ number) }
{
    match i64::try_from(number) {
        Ok(narrow) => Ok(narrow),
        Err(_) => Err(Memory),
    }
}
