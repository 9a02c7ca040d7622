//! Sums of constraints.

ghost use Rattle.std.specs.Prelude.{◌≡◌, ◌+ℤ◌, ◌*ℤ◌, ℤ, pos, List, true, IfOk, IfSome, IsTrue};
ghost use Rattle.std.specs.List.{All};
ghost use Rattle.ep_base.specs.Numbers.{compare_holds};
ghost use Rattle.ep_flat.specs.Cons.{con_holds, number_at};
ghost use Rattle.ep_flat.specs.FlatViews.{plain_con};
ghost use Rattle.ep_implied.specs.Sums.{HoldsWithin, parts_sum, stays_within, weighed};

use ep_base::{CompareOp, Memory};
use ep_flat::{Con, ConKind};
use std::alloc::Global;

/// What all variables, each with its coefficient, add up to is at most a number.
#[derive(Drop)]
pub struct Within {
    /// The coefficients of the variables, in their order.
    pub coefficients: Vec<i128>,
    /// The number.
    pub most: i128,
}

/// So many zeros.
pub(crate) fn zeros(alloc: Global, count: usize) -> Result<Vec<i128>, Memory>
    ensures { IfOk result (λ made. All (λ number. number ≡ pos 0) made.items) }
{
    let mut made = Vec::new(alloc);
    for _place in 0..count {
        made.push(0)?;
    }
    Ok(made)
}

/// The number at a place, and 0 where there is none.
pub(crate) fn at(numbers: &[i128], place: usize) -> i128 {
    if place < numbers.len() {
        return numbers[place];
    }
    0
}

/// A number and a product, where it is a number of the code.
pub(crate) fn raised(number: i128, times: i128, factor: i64) -> Option<i128>
    ensures { IfSome result (λ sum. sum ≡ number +ℤ (times *ℤ factor)) }
{
    number.checked_add(times.checked_mul(i128::from(factor))?)
}

/// Adds a variable with a coefficient, so many times. Says whether that could be done.
fn add_part(coefficients: &mut Vec<i128>, times: i128, coefficient: i64, var: u64) -> bool
    ensures { result ≡ true → (values : List ℤ) → weighed 0 coefficients.new.items values
        ≡ (weighed 0 coefficients.old.items values +ℤ ((times *ℤ coefficient) *ℤ number_at values var)) }
{
    let place = var as usize;
    if place >= coefficients.len() {
        return false;
    }
    let Some(sum) = raised(coefficients[place], times, coefficient) else {
        return false;
    };
    coefficients[place] = sum;
    true
}

/// Adds variables with coefficients, so many times. Says whether that could be done.
fn add_parts(coefficients: &mut Vec<i128>, times: i128, parts: &[(i64, u64)]) -> bool
    ensures { result ≡ true → (values : List ℤ) → weighed 0 coefficients.new.items values
        ≡ (weighed 0 coefficients.old.items values +ℤ (times *ℤ parts_sum parts.now values)) }
{
    for part in parts {
        if !add_part(coefficients, times, part.0, part.1) {
            return false;
        }
    }
    true
}

/// Whether a sum that compares so with a number is at most that number, both so many times.
fn stays_within(op: CompareOp, times: i128) -> bool
    ensures { result ≡ stays_within op times }
{
    match op {
        CompareOp::Equal => true,
        CompareOp::NotEqual => false,
        CompareOp::Less => times >= 0,
        CompareOp::AtMost => times >= 0,
        CompareOp::Greater => times <= 0,
        CompareOp::AtLeast => times <= 0,
    }
}

/// Adds a sum that compares so with a number, so many times. Says whether that could be done.
fn add_compared(
    sum: &mut Within,
    times: i128,
    parts: &[(i64, u64)],
    op: CompareOp,
    number: i64,
) -> bool
    ensures { result ≡ true → (values : List ℤ) → IsTrue (compare_holds op (parts_sum parts.now values) number)
        → HoldsWithin sum.old values → HoldsWithin sum.new values }
{
    if !stays_within(op, times) {
        return false;
    }
    let Some(most) = raised(sum.most, times, number) else {
        return false;
    };
    sum.most = most;
    add_parts(&mut sum.coefficients, times, parts)
}

/// Adds a constraint, so many times. Says whether that could be done; where it couldn't the sum is of no use.
pub(crate) fn add_times(sum: &mut Within, times: i128, con: &Con) -> bool
    ensures { result ≡ true → (values : List ℤ) → IsTrue (con_holds values (plain_con con.now))
        → HoldsWithin sum.old values → HoldsWithin sum.new values }
{
    if times == 0 {
        return true;
    }
    match con.truth {
        Some(_) => false,
        None => match &con.kind {
            ConKind::Linear(parts, op, number) => add_compared(sum, times, parts, *op, *number),
            _ => false,
        },
    }
}
