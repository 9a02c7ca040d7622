//! The constraint that is added.

ghost use Rattle.std.specs.Prelude.{◌≡◌, ◌≤ℤ◌, ℤ, pos, List, length, map, IfOk, IfSome, IsTrue, OnErr, OnOk};
ghost use Rattle.std.specs.List.{All};
ghost use Rattle.ep_flat.specs.Cons.{con_holds};
ghost use Rattle.ep_flat.specs.Flats.{IsSoundFlat, Meets};
ghost use Rattle.ep_flat.specs.FlatViews.{plain_con, plain_flat};
ghost use Rattle.ep_implied.specs.Follows.{FollowsFrom, GoesOnByOne, MeansTheSame};
ghost use Rattle.ep_implied.specs.Sums.{HoldsWithin, TakesIn};

use crate::multipliers::multipliers_of;
use crate::rounding::{is_natural, most_of, reach_of, rounded};
use crate::sums::{Within, add_times, at, zeros};
use ep_base::{CompareOp, Memory, Runs};
use ep_flat::{Con, ConKind, Flat};
use ep_numbers::MOST_WIDE;
use std::alloc::Global;

/// By what the sum of constraints is divided. That of the objective is in it four times as often.
const UNIT: i128 = 2048;

/// How often the constraint is in the sum which says what the objective is.
pub(crate) const WHOLE: i128 = 8192;

/// A sum of no constraints.
fn nothing(alloc: Global, count: usize) -> Result<Within, Memory>
    ensures { IfOk result (λ sum. (values : List ℤ) → HoldsWithin sum values) }
{
    let coefficients = zeros(alloc, count)?;
    Ok(Within {
        coefficients,
        most: 0,
    })
}

/// The sum of constraints, each so many times, where that can be had.
fn combined(alloc: Global, flat: &Flat, times: &[i128]) -> Result<Option<Within>, Memory>
    ensures { IfOk result (λ found. IfSome found (λ sum. (values : List ℤ)
        → All (λ con. IsTrue (con_holds values con)) (map plain_con flat.now.cons.items) → HoldsWithin sum values)) }
{
    let mut sum = nothing(alloc, flat.vars.len())?;
    for place in 0..flat.cons.len() {
        if !add_times(&mut sum, at(times, place), &flat.cons[place]) {
            return Ok(None);
        }
    }
    Ok(Some(sum))
}

/// Adds a variable with a coefficient, where that isn't 0.
fn push_part(parts: &mut Vec<(i64, u64)>, coefficient: i64, var: u64) -> Result<(), Memory>
    ensures { OnOk result (TakesIn (coefficient, var) parts.old.items parts.new.items) }
{
    if coefficient == 0 {
        return Ok(());
    }
    parts.push((coefficient, var))?;
    Ok(())
}

/// Whether the parts of a sum and a number add up to no more than the stages compute with, whatever numbers of their domains the
/// variables are and whatever signs the parts have.
fn is_near(vars: &[Runs], parts: &[(i64, u64)], number: i64) -> bool {
    let mut reach = i128::from(number).saturating_abs();
    for part in parts {
        reach = reach.saturating_add(reach_of(vars, part.1 as usize, part.0));
    }
    reach <= MOST_WIDE
}

/// The constraint that follows where a sum is divided, where that can be had.
fn divided(alloc: Global, flat: &Flat, sum: &Within) -> Result<Option<Con>, Memory>
    requires { (values : List ℤ) → Meets (plain_flat flat.now) values → HoldsWithin sum.now values }
    ensures { IfOk result (λ found. IfSome found (λ con. FollowsFrom (plain_flat flat.now) (plain_con con))) }
{
    if flat.vars.len() != sum.coefficients.len() {
        return Ok(None);
    }
    let mut parts = Vec::new(alloc);
    for place in 0..flat.vars.len() {
        let natural = is_natural(&flat.vars[place]);
        let Some(coefficient) = rounded(sum.coefficients[place], UNIT, natural) else {
            return Ok(None);
        };
        push_part(&mut parts, coefficient, place as u64)?;
    }
    let Some(number) = most_of(sum.most, UNIT) else {
        return Ok(None);
    };
    if !is_near(&flat.vars, &parts, number) {
        return Ok(None);
    }
    Ok(Some(Con {
        truth: None,
        kind: ConKind::Linear(parts, CompareOp::AtMost, number),
    }))
}

/// A constraint that the others imply and that bounds a variable, where one is found.
fn bound_of(alloc: Global, flat: &Flat, goal: u64) -> Result<Option<Con>, Memory>
    ensures { IfOk result (λ found. IfSome found (λ con. FollowsFrom (plain_flat flat.now) (plain_con con))) }
{
    let times = multipliers_of(alloc, flat, goal)?;
    if times.is_empty() {
        return Ok(None);
    }
    let Some(sum) = combined(alloc, flat, &times)? else {
        return Ok(None);
    };
    divided(alloc, flat, &sum)
}

/// Adds a constraint that the others imply and that bounds a variable from below by the others, where one is found. Nothing is
/// added where the last constraint doesn't say what the variable is. Takes at most 2,000 looks at the flat problem, which
/// together come to about 5,000,000 of its terms.
///
/// # Errors
///
/// Where an allocation is refused the flat problem is as it was.
pub fn add_bound(alloc: Global, flat: &mut Flat, goal: u64) -> Result<(), Memory>
    requires { IsSoundFlat (plain_flat flat.old) }
    ensures same { OnOk result (MeansTheSame (plain_flat flat.old) (plain_flat flat.new)) }
    ensures sound { OnOk result (IsSoundFlat (plain_flat flat.new)) }
    ensures more { OnOk result (GoesOnByOne (plain_flat flat.old) (plain_flat flat.new)) }
    ensures err { OnErr result (plain_flat flat.new ≡ plain_flat flat.old) }
{
    let Some(con) = bound_of(alloc, flat, goal)? else {
        return Ok(());
    };
    flat.cons.push(con)?;
    Ok(())
}
