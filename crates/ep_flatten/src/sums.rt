//! Sums of terms.

ghost use Rattle.std.specs.Prelude.{◌≡◌, ◌<◌, ◌∷◌, ◌+ℤ◌, ◌*ℤ◌, [], ℕ, List, length, IfOk, IfSome, IsTrue, MatchOption, OnOk};
ghost use Rattle.std.specs.List.{All, HoldsAt};
ghost use Rattle.ep_base.specs.Reads.{IsWithinNumbers};
ghost use Rattle.ep_flatten.specs.Forms.{IsFormOf, summed};
ghost use Rattle.ep_flatten.specs.FormViews.{plain_sum};
ghost use Rattle.ep_flatten.specs.Sums as defined;
ghost use Rattle.ep_flatten.specs.Sums.{Joins, TakesIn, coefficients_in};
ghost use Rattle.ep_ground.specs.Nodes.{GroundNode};

use ep_base::Memory;
use ep_ground::Term;
use ep_numbers::is_near;
use std::alloc::Global;

/// Among so many parts of a sum the same term is looked for.
const MOST_SEARCHED: usize = 64;

/// A number and terms with coefficients, of which it is the sum.
#[derive(Debug, Drop)]
pub struct TermSum {
    /// The number.
    pub number: i64,
    /// The coefficients and the terms.
    pub parts: Vec<(i64, Term)>,
}

/// The sum of two numbers, where the stages compute with it.
fn small_sum(one: i64, other: i64) -> Option<i64>
    ensures value { IfSome result (λ sum. sum ≡ one +ℤ other) }
    ensures small { IfSome result IsWithinNumbers }
{
    let sum = one.checked_add(other)?;
    if is_near(sum) { Some(sum) } else { None }
}

/// The product of two numbers, where the stages compute with it.
fn small_product(one: i64, other: i64) -> Option<i64>
    ensures value { IfSome result (λ product. product ≡ one *ℤ other) }
    ensures small { IfSome result IsWithinNumbers }
{
    let product = one.checked_mul(other)?;
    if is_near(product) {
        Some(product)
    } else {
        None
    }
}

/// A number and a product, where it is a number of the code.
fn raised(number: i64, one: i64, other: i64) -> Option<i64>
    ensures { IfSome result (λ sum. sum ≡ number +ℤ (one *ℤ other)) }
{
    number.checked_add(one.checked_mul(other)?)
}

/// The place of a term among the first parts of a sum, and that behind the last part where it isn't
/// found.
fn place_in(parts: &[(i64, Term)], term: Term) -> usize
    ensures { result < length parts.now → HoldsAt (λ part. part.1 ≡ term) parts.now result }
{
    for place in 0..MOST_SEARCHED.min(parts.len()) {
        if parts[place].1.number() == term.number() {
            return place;
        }
    }
    parts.len()
}

/// Adds a term with its coefficient: to the part with the same term, or as one part more.
pub fn add_part(sum: &mut TermSum, coefficient: i64, term: Term) -> Result<(), Memory>
    ensures number { OnOk result (sum.new.number ≡ sum.old.number) }
    ensures parts { OnOk result (TakesIn ((coefficient, term) ∷ []) sum.old.parts.items sum.new.parts.items) }
{
    let place = place_in(&sum.parts, term);
    if place < sum.parts.len() {
        let part = sum.parts[place];
        if let Some(both) = small_sum(part.0, coefficient) {
            sum.parts[place] = (both, part.1);
            return Ok(());
        }
    }
    sum.parts.push((coefficient, term))?;
    Ok(())
}

/// The parts with their coefficients multiplied, where these stay small.
fn multiplied(
    alloc: Global,
    coefficient: i64,
    parts: &[(i64, Term)],
) -> Result<Option<Vec<(i64, Term)>>, Memory>
    ensures { IfOk result (λ found. IfSome found (λ made.
        (made.items ≡ defined.multiplied coefficient parts.now) × All IsWithinNumbers (coefficients_in made.items))) }
{
    let mut made = Vec::new(alloc);
    for part in parts {
        let Some(product) = small_product(coefficient, part.0) else {
            return Ok(None);
        };
        made.push((product, part.1))?;
    }
    Ok(Some(made))
}

/// Adds these parts.
fn add_parts(sum: &mut TermSum, parts: &[(i64, Term)]) -> Result<(), Memory>
    ensures number { OnOk result (sum.new.number ≡ sum.old.number) }
    ensures parts { OnOk result (TakesIn parts.now sum.old.parts.items sum.new.parts.items) }
{
    for part in parts {
        add_part(sum, part.0, part.1)?;
    }
    Ok(())
}

/// Adds a term that is a number and a sum of parts, by these where all stays small, with its
/// coefficient.
pub fn add_sum(
    alloc: Global,
    sum: &mut TermSum,
    coefficient: i64,
    term: Term,
    number: i64,
    parts: &[(i64, Term)],
) -> Result<(), Memory>
    ensures { (nodes : List GroundNode) → (node : GroundNode) → IsFormOf nodes term node (summed number parts.now)
        → OnOk result (Joins nodes coefficient term (plain_sum sum.old) (plain_sum sum.new)) }
{
    let Some(whole) = raised(sum.number, coefficient, number) else {
        return add_part(sum, coefficient, term);
    };
    let Some(more) = multiplied(alloc, coefficient, parts)? else {
        return add_part(sum, coefficient, term);
    };
    sum.number = whole;
    add_parts(sum, &more)
}
