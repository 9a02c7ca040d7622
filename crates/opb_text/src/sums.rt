//! Sums of terms as sums of flat variables, each of which stands once.

ghost use Rattle.std.specs.Prelude.{◌≡◌, ◌<◌, ◌≤◌, ◌≤ℤ◌, ◌+ℤ◌, ◌+◌, ◌++◌, ◌∷◌, [], ℕ, ℤ, Bool, List, length, IfOk, OnOk, neg_ℤ, slice_index_or, unsigned_abs};
ghost use Rattle.std.specs.List.{AllPairs, Contains};
ghost use Rattle.ep_base.specs.Reads.{IsWithinNumbers};
ghost use Rattle.opb_text.specs.declared.content.OpbTerm.{OpbTerm};
ghost use Rattle.opb_text.specs.Solutions.{terms_total};
ghost use Rattle.opb_text.specs.Sums.{AreNamed, PartsComeTo, base_of, coefficient_of, IsFactorValue, IsSumOf, TakesInPart, parts_reach};
ghost use Rattle.opb_text.specs.Weights.{factors_reach, most_reach};

use crate::content::OpbTerm;
use ep_base::Memory;
use std::alloc::Global;

/// A sum of flat variables with coefficients, and a number.
#[derive(Debug, Drop)]
pub struct Sum {
    /// The coefficients and the variables.
    pub parts: Vec<(i64, u64)>,
    /// What is added to them.
    pub constant: i64,
}

/// The place of a variable among those of a problem.
fn place_of(vars: &[u64], var: u64) -> u64
    requires ascending { AllPairs ◌<◌ vars.now }
    requires there { Contains vars.now var }
    ensures within { result < length vars.now }
    ensures is { slice_index_or vars.now result 0 ≡ var }
{
    match vars.binary_search(&var) {
        Ok(place) => place as u64,
        Err(_) => unreachable!(),
    }
}

/// The sum of two numbers.
fn added(a: i64, b: i64) -> i64
    requires { unsigned_abs a + unsigned_abs b ≤ most_reach }
    ensures { result ≡ a +ℤ b }
{
    a + b
}

/// What the variable of a term is multiplied by. A negated literal counts its factor, less that of its variable.
fn coefficient(term: &OpbTerm) -> i64
    requires { unsigned_abs term.now.factor ≤ most_reach }
    ensures { result ≡ coefficient_of term.now }
{
    if term.negated {
        return -term.factor;
    }
    term.factor
}

/// What a term counts where its variable is false.
fn base(term: &OpbTerm) -> i64
    ensures { result ≡ base_of term.now }
{
    if term.negated {
        return term.factor;
    }
    0
}

/// Adds a flat variable with a coefficient.
pub(crate) fn push_part(
    parts: &mut Vec<(i64, u64)>,
    coefficient: i64,
    place: u64,
) -> Result<(), Memory>
    ensures { OnOk result (parts.new.items ≡ parts.old.items ++ (coefficient, place) ∷ []) }
{
    parts.push((coefficient, place))?;
    Ok(())
}

/// The sum of terms, in which a variable may stand many times.
fn spread(alloc: Global, vars: &[u64], terms: &[OpbTerm]) -> Result<Sum, Memory>
    requires ascending { AllPairs ◌<◌ vars.now }
    requires named { AreNamed vars.now terms.now }
    requires small { factors_reach terms.now ≤ most_reach }
    ensures { IfOk result (λ sum. IsSumOf vars.now terms.now sum.parts.items sum.constant) }
{
    let mut parts = Vec::new(alloc);
    let mut constant = 0i64;
    for term in terms {
        let place = place_of(vars, term.var);
        constant = added(constant, base(term));
        push_part(&mut parts, coefficient(term), place)?;
    }
    Ok(Sum { parts, constant })
}

/// Adds a coefficient to that of the last variable, where it is the same one.
fn join_part(parts: &mut Vec<(i64, u64)>, part: (i64, u64)) -> Result<(), Memory>
    requires { parts_reach parts.old.items + unsigned_abs part.0 ≤ most_reach }
    ensures { OnOk result (TakesInPart part parts.old.items parts.new.items) }
{
    let Some(last) = parts.pop() else {
        parts.push(part)?;
        return Ok(());
    };
    if last.1 == part.1 {
        return push_part(parts, added(last.0, part.0), last.1);
    }
    parts.push(last)?;
    parts.push(part)?;
    Ok(())
}

/// Parts in which neighbors of one variable are joined.
fn joined(alloc: Global, parts: &[(i64, u64)]) -> Result<Vec<(i64, u64)>, Memory>
    requires { parts_reach parts.now ≤ most_reach }
    ensures { IfOk result (λ joined. PartsComeTo parts.now joined.items) }
{
    let mut joined = Vec::new(alloc);
    for part in parts {
        join_part(&mut joined, *part)?;
    }
    Ok(joined)
}

/// The sum of terms, in which a variable stands once. Costs a sort.
pub(crate) fn sum_of(alloc: Global, vars: &[u64], terms: &[OpbTerm]) -> Result<Sum, Memory>
    requires ascending { AllPairs ◌<◌ vars.now }
    requires named { AreNamed vars.now terms.now }
    requires small { factors_reach terms.now ≤ most_reach }
    ensures { IfOk result (λ sum. IsSumOf vars.now terms.now sum.parts.items sum.constant) }
{
    let sum = spread(alloc, vars, terms)?;
    let constant = sum.constant;
    let mut spread = sum.parts;
    spread.sort_unstable_by_key(|part| part.1);
    let parts = joined(alloc, &spread)?;
    Ok(Sum { parts, constant })
}

/// A number that no sum is below, where it was so and a term with this factor came.
fn lowered(least: i64, factor: i64) -> i64
    requires { unsigned_abs least + unsigned_abs factor ≤ most_reach }
    ensures bound { (before value : ℤ) → least ≤ℤ before → IsFactorValue factor value → result ≤ℤ (before +ℤ value) }
    ensures near { unsigned_abs result ≤ unsigned_abs least + unsigned_abs factor }
{
    if factor < 0 {
        return least + factor;
    }
    least
}

/// A number that no value of terms is below.
pub(crate) fn least(terms: &[OpbTerm]) -> i64
    requires { factors_reach terms.now ≤ most_reach }
    ensures bound { (truths : ℕ → Bool) → result ≤ℤ terms_total truths terms.now }
    ensures near { IsWithinNumbers result }
{
    let mut least = 0i64;
    for term in terms {
        least = lowered(least, term.factor);
    }
    least
}

/// A number that no sum is above, where it was so and a term with this factor came.
fn raised(greatest: i64, factor: i64) -> i64
    requires { unsigned_abs greatest + unsigned_abs factor ≤ most_reach }
    ensures bound { (before value : ℤ) → before ≤ℤ greatest → IsFactorValue factor value → (before +ℤ value) ≤ℤ result }
    ensures near { unsigned_abs result ≤ unsigned_abs greatest + unsigned_abs factor }
{
    if factor > 0 {
        return greatest + factor;
    }
    greatest
}

/// A number that no value of terms is above.
pub(crate) fn greatest(terms: &[OpbTerm]) -> i64
    requires { factors_reach terms.now ≤ most_reach }
    ensures bound { (truths : ℕ → Bool) → terms_total truths terms.now ≤ℤ result }
    ensures near { IsWithinNumbers result }
{
    let mut greatest = 0i64;
    for term in terms {
        greatest = raised(greatest, term.factor);
    }
    greatest
}
