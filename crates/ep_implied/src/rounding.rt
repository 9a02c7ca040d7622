//! Sums divided by a number.

ghost use Rattle.std.specs.Prelude.{◌≡◌, ◌*ℤ◌, ◌≤ℤ◌, ℤ, pos, true, false, IfSome};
ghost use Rattle.std.specs.List.{All};
ghost use Rattle.ep_implied.specs.Sums.{IsRounded};

use crate::sums::raised;
use ep_base::{Run, Runs};
use ep_numbers::near_number;

/// Whether no run begins below 0.
fn are_natural(runs: &[Run]) -> bool
    ensures { result ≡ true → All (λ run. pos 0 ≤ℤ run.lo) runs.now }
{
    runs.iter().all(|run| run.lo >= 0)
}

/// Whether no number of a domain is negative.
pub(crate) fn is_natural(domain: &Runs) -> bool
    ensures { result ≡ true → All (λ number. pos 0 ≤ℤ number) domain.now }
{
    are_natural(domain.runs())
}

/// How far from 0 a variable is at most, times a coefficient.
pub(crate) fn reach_of(vars: &[Runs], place: usize, coefficient: i64) -> i128 {
    if place >= vars.len() {
        return 0;
    }
    let least = end_of(&vars[place], 1).saturating_abs();
    let greatest = end_of(&vars[place], -1).saturating_abs();
    let most = if least < greatest { greatest } else { least };
    most.saturating_mul(i128::from(coefficient).saturating_abs())
}

/// The end of a domain at which a variable with this coefficient counts least.
pub(crate) fn end_of(domain: &Runs, coefficient: i128) -> i128 {
    match domain.runs() {
        [] => 0,
        runs => {
            if coefficient >= 0 {
                i128::from(runs[0].lo)
            } else {
                i128::from(runs[runs.len() - 1].hi)
            }
        }
    }
}

/// The floor of a quotient, where there is one.
fn floor(whole: i128, unit: i128) -> i128 {
    let quotient = whole.checked_div(unit).unwrap_or(0);
    if quotient.saturating_mul(unit) > whole {
        return quotient.saturating_sub(1);
    }
    quotient
}

/// Whether a coefficient counts no more than another one, for a variable that is natural or may be negative.
fn counts_no_more(coefficient: i128, other: i128, natural: bool) -> bool
    ensures low { result ≡ true → coefficient ≤ℤ other }
    ensures exact { result ≡ true → natural ≡ false → other ≤ℤ coefficient }
{
    if coefficient > other {
        return false;
    }
    if natural {
        return true;
    }
    other <= coefficient
}

/// A coefficient that counts no more than another one when it is taken so many times, for a variable that is natural or may be
/// negative; none where there is none that is near.
pub(crate) fn rounded(whole: i128, unit: i128, natural: bool) -> Option<i64>
    ensures { IfSome result (IsRounded whole unit natural) }
{
    let Some(coefficient) = near_number(floor(whole, unit)) else {
        return None;
    };
    let Some(back) = raised(0, unit, coefficient) else {
        return None;
    };
    if !counts_no_more(back, whole, natural) {
        return None;
    }
    Some(coefficient)
}

/// A number that each is at most which is at most another one when it is taken so many times; none where there is none that
/// is near.
pub(crate) fn most_of(most: i128, unit: i128) -> Option<i64>
    ensures { IfSome result (λ number. (sum : ℤ) → (unit *ℤ sum) ≤ℤ most → sum ≤ℤ number) }
{
    if unit <= 0 {
        return None;
    }
    let Some(number) = near_number(floor(most, unit)) else {
        return None;
    };
    let Some(beyond) = raised(unit, unit, number) else {
        return None;
    };
    if beyond <= most {
        return None;
    }
    Some(number)
}
