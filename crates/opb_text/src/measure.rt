//! How far the sums of a problem reach, and what it weighs.

ghost use Rattle.std.specs.Prelude.{All, map, ◌≡◌, ℕ, ◌<◌, ◌≤◌, ◌+◌, ◌*◌, ◌^◌, ◌↔◌, min, length, Err, IfOk, IsTrue, unsigned_abs};
ghost use Rattle.ep_base.specs.declared.operators.Limit.TheVariants as limit;
ghost use Rattle.ep_base.specs.Intervals.{sum_cost};
ghost use Rattle.opb_text.specs.Contents.{objective_terms};
ghost use Rattle.opb_text.specs.Views.{plain_opb, plain_row};
ghost use Rattle.opb_text.specs.Weights.{IsProblemWithinReach, Weighs, factors_reach, row_reach, terms_cost, sums_cost, most_reach, most_weight};
ghost use Rattle.opb_text.specs.declared.errors.OpbSizeError.TheVariants as refused;

use crate::content::{Opb, OpbRow, OpbTerm, objective_terms};
use crate::errors::OpbSizeError;
use crate::variables::opb_vars;
use ep_base::Limit;
use std::alloc::Global;

/// How far the absolute values of a sum's factors and of its right side may add up.
pub const MOST_REACH: u64 = 1_099_511_627_776;

/// The greatest weight of a problem that is taken on.
pub const MOST_WEIGHT: u64 = 20_000_000;

/// The absolute value of a term's factor.
fn factor_reach(term: &OpbTerm) -> u128
    ensures value { result ≡ unsigned_abs term.now.factor }
    ensures small { result ≤ 2 ^ 63 }
{
    u128::from(term.factor.unsigned_abs())
}

/// The absolute values of the factors of terms, added up.
fn factors_reach(terms: &[OpbTerm]) -> u128
    ensures value { result ≡ factors_reach terms.now }
    ensures small { result < 2 ^ 127 }
{
    let mut size = 0u128;
    for term in terms {
        size += factor_reach(term);
    }
    size
}

/// The absolute values of the factors of a constraint and of its right side, added up.
fn row_reach(row: &OpbRow) -> u128
    ensures { result ≡ row_reach (plain_row row.now) }
{
    factors_reach(&row.terms) + u128::from(row.right.unsigned_abs())
}

/// Whether no constraint reaches too far.
fn are_within_reach(rows: &[OpbRow]) -> bool
    ensures { IsTrue result ↔ All (λ row. row_reach row ≤ most_reach) (map plain_row rows.now) }
{
    for row in rows {
        if row_reach(row) > u128::from(MOST_REACH) {
            return false;
        }
    }
    true
}

/// Whether no constraint reaches too far, nor the objective.
fn is_within_reach(opb: &Opb) -> bool
    ensures { IsTrue result ↔ IsProblemWithinReach (plain_opb opb.now) }
{
    if factors_reach(objective_terms(opb)) > u128::from(MOST_REACH) {
        return false;
    }
    are_within_reach(&opb.rows)
}

/// What a sum costs: rows of order literals for each partial sum, or binary adders, whichever is less.
fn terms_cost(terms: &[OpbTerm]) -> u128
    requires { factors_reach terms.now ≤ most_reach }
    ensures { result ≡ terms_cost terms.now }
{
    let parts = terms.len() as u128;
    let width = factors_reach(terms) + 1;
    let order = width * (2 * parts);
    let adders = 8 * (width + 2 * parts) + 1024 * parts;
    order.min(adders)
}

/// A sum that is exact as far as the greatest weight, and else above it.
fn capped_sum(weight: u64, more: u128) -> u64
    requires { weight ≤ most_weight + 1 }
    ensures { result ≡ min (weight + more) (most_weight + 1) }
{
    let most = u128::from(MOST_WEIGHT) + 1;
    let sum = u128::from(weight).saturating_add(more);
    sum.min(most) as u64
}

/// The weight of a problem of so many variables, exact as far as the greatest weight, and else above it.
fn weight_of(opb: &Opb, vars: usize) -> u64
    requires few { vars < 2 ^ 63 }
    requires reach { IsProblemWithinReach (plain_opb opb.now) }
    ensures { result ≡ min (2 * vars + sums_cost (plain_opb opb.now)) (most_weight + 1) }
{
    let mut weight = capped_sum(0, 2 * (vars as u128));
    weight = capped_sum(weight, terms_cost(objective_terms(opb)));
    for row in &opb.rows {
        weight = capped_sum(weight, terms_cost(&row.terms));
    }
    weight
}

/// The weight of a problem, which counts each term, also those of one variable. Costs what [`opb_vars`] does.
///
/// # Errors
///
/// [`Limit::Reach`] exactly where for some constraint, or for the objective, the absolute values of the factors and of the
/// right side add up to more than [`MOST_REACH`], and otherwise [`Limit::Weight`] exactly where the weight is over
/// [`MOST_WEIGHT`].
pub fn measure_opb(alloc: Global, opb: &Opb) -> Result<u64, OpbSizeError>
    ensures weight { IfOk result (λ weight. IsProblemWithinReach (plain_opb opb.now) × Weighs (plain_opb opb.now) weight × (weight ≤ most_weight)) }
    ensures reach { result ≡ Err (refused.Limit limit.Reach) ↔ (IsProblemWithinReach (plain_opb opb.now) → ⊥) }
    ensures over { result ≡ Err (refused.Limit limit.Weight) → IsProblemWithinReach (plain_opb opb.now) × (weight : ℕ) × Weighs (plain_opb opb.now) weight × (most_weight < weight) }
    ensures size { result ≡ Err (refused.Limit limit.Size) → ⊥ }
{
    if !is_within_reach(opb) {
        return Err(OpbSizeError::Limit(Limit::Reach));
    }
    let vars = opb_vars(alloc, opb)?;
    let weight = weight_of(opb, vars.len());
    if weight > MOST_WEIGHT {
        return Err(OpbSizeError::Limit(Limit::Weight));
    }
    Ok(weight)
}
