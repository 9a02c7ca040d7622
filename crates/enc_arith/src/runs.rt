//! Clauses which say that a variable has the value of a function of another one, or whether it has: one for each run of the other's numbers for
//! which the function has one value, or none that the variable can have.

ghost use Rattle.std.specs.Prelude.{◌≡◌, ◌<◌, ◌≤◌, ℕ, length, pos, slice_index_or, true, IfOk, IsTrue, OnOk};
ghost use Rattle.std.specs.List.{All};
ghost use Rattle.std.specs.Ordering.{int_eq};
ghost use Rattle.ep_base.specs.Reads.{IsWithinNumbers};
ghost use Rattle.ep_base.specs.Runs.{IsAscending};
ghost use Rattle.ep_flat.specs.Cons.{is_value, number_at};
ghost use Rattle.enc_atoms.specs.Atoms.{Adds};
ghost use Rattle.enc_arith.specs.Elements.{or_outside};
ghost use Rattle.enc_arith.specs.Finding.{FindsIn};
ghost use Rattle.enc_arith.specs.Functions.{function_value};
ghost use Rattle.enc_arith.specs.Running.{AreOutside, StandsFrom, number_before};
ghost use Rattle.enc_arith.specs.Saying.{IsReady, IsTarget, NamesIn, says};
ghost use Rattle.enc_var.specs.Layouts.{literals_at};

use crate::functions::Function;
use crate::targets::Target;
use crate::telling::add_found;
use cnf_core::Formula;
use enc_atoms::Atom;
use enc_var::Layout;
use ep_base::Memory;
use ep_numbers::{listed, runs_ascend};
use std::alloc::{AllocError, Global};

/// The function's value at a number, if the variable can have it.
pub(crate) fn found_in(layout: &Layout, var: u64, function: Function, number: i64) -> Option<i64>
    requires there { var < length layout.now }
    requires numbers { All IsWithinNumbers (literals_at layout.now var).domain }
    ensures { FindsIn (literals_at layout.now var).domain result (function_value function number) }
{
    let found = function.at(number);
    match found {
        Some(value) => {
            if layout.domain(var).has(value) {
                return found;
            }
            None
        }
        None => None,
    }
}

/// Whether this number was found.
fn is_number(found: Option<i64>, number: i64) -> bool
    ensures { result ≡ true → found ≡ Some number }
{
    match found {
        Some(one) => one == number,
        None => false,
    }
}

/// Whether the same was found.
fn is_same(found: Option<i64>, other: Option<i64>) -> bool
    ensures { result ≡ true → found ≡ other }
{
    match other {
        Some(number) => is_number(found, number),
        None => found.is_none(),
    }
}

/// The first place behind a run of numbers for which the same is found.
pub(crate) fn run_end(
    layout: &Layout,
    var: u64,
    function: Function,
    numbers: &[i64],
    start: usize,
    found: Option<i64>,
) -> usize
    requires there { var < length layout.now }
    requires small { All IsWithinNumbers (literals_at layout.now var).domain }
    requires start { start < length numbers.now }
    requires found { FindsIn (literals_at layout.now var).domain found (function_value function (slice_index_or numbers.now start (pos 0))) }
    ensures above { start < result }
    ensures within { result ≤ length numbers.now }
    ensures same { (k : ℕ) → start ≤ k → k < result
        → FindsIn (literals_at layout.now var).domain found (function_value function (slice_index_or numbers.now k (pos 0))) }
{
    let mut end = start + 1;
    'more: while end < numbers.len() {
        let other = found_in(layout, var, function, numbers[end]);
        if !is_same(other, found) {
            return end;
        }
        end += 1;
    }
    end
}

/// The number before a place, if there is one.
fn before(numbers: &[i64], place: usize) -> Option<i64>
    requires { place ≤ length numbers.now }
    ensures { result ≡ number_before numbers.now place }
{
    if place == 0 {
        return None;
    }
    Some(numbers[place - 1])
}

/// Some atoms, and that an index isn't in a run: above the one number, if there is one, and at most the other.
pub(crate) fn or_outside(
    alloc: Global,
    when: &[Atom],
    index: u64,
    above: Option<i64>,
    last: i64,
) -> Result<Vec<Atom>, AllocError>
    ensures { IfOk result (λ atoms. atoms.items ≡ or_outside when.now index above last) }
{
    let mut atoms = Vec::from_slice(alloc, when)?;
    if let Some(above) = above {
        atoms.push(Atom::at_most(index, above))?;
    }
    atoms.push(Atom::above(index, last))?;
    Ok(atoms)
}

/// Some atoms, and that a variable has none of its numbers from one place to another.
fn or_elsewhere(
    alloc: Global,
    when: &[Atom],
    y: u64,
    numbers: &[i64],
    start: usize,
    end: usize,
) -> Result<Vec<Atom>, AllocError>
    requires run { start < end }
    requires within { end ≤ length numbers.now }
    ensures { IfOk result (λ atoms. AreOutside when.now y numbers.now start end atoms.items) }
{
    if end - start == 1 {
        let mut atoms = Vec::from_slice(alloc, when)?;
        atoms.push(Atom::is_not(y, numbers[start]))?;
        return Ok(atoms);
    }
    let above = before(numbers, start);
    let outside = or_outside(alloc, when, y, above, numbers[end - 1])?;
    Ok(outside)
}

/// Adds clauses which say that where a variable has one of its numbers from one place to another, the result is what was found.
pub(crate) fn add_run(
    alloc: Global,
    layout: &Layout,
    f: &mut Formula,
    when: &[Atom],
    target: Target,
    y: u64,
    numbers: &[i64],
    start: usize,
    end: usize,
    found: Option<i64>,
) -> Result<(), Memory>
    requires ready { IsReady layout.now f.old }
    requires names { NamesIn layout.now when.now }
    requires there { IsTarget layout.now target.truth target.result }
    requires argument { y < length layout.now }
    requires numbers { numbers.now ≡ (literals_at layout.now y).domain }
    requires ascending { IsAscending numbers.now }
    requires run { start < end }
    requires within { end ≤ length numbers.now }
    ensures { OnOk result (Adds layout.now f.old layout.now f.new
        (λ values. StandsFrom numbers.now start end (number_at values y)
        → IsTrue (says values when.now target.truth (is_value found (number_at values target.result))))) }
{
    let atoms = or_elsewhere(alloc, when, y, numbers, start, end)?;
    add_found(alloc, layout, f, atoms.as_slice(), target, found)?;
    Ok(())
}

/// Adds clauses which say that the result is the function's value of the variable `y`.
pub(crate) fn add_function(
    alloc: Global,
    layout: &Layout,
    f: &mut Formula,
    when: &[Atom],
    target: Target,
    function: Function,
    y: u64,
) -> Result<(), Memory>
    requires ready { IsReady layout.now f.old }
    requires names { NamesIn layout.now when.now }
    requires there { IsTarget layout.now target.truth target.result }
    requires argument { y < length layout.now }
    ensures { OnOk result (Adds layout.now f.old layout.now f.new
        (λ values. IsTrue (says values when.now target.truth
        (int_eq (number_at values target.result) (function_value function (number_at values y)))))) }
{
    let domain = layout.domain(y);
    runs_ascend(domain);
    let numbers = listed(alloc, domain)?;
    let mut start = 0;
    'runs: while start < numbers.len() {
        let found = found_in(layout, target.result, function, numbers[start]);
        let end = run_end(layout, target.result, function, &numbers, start, found);
        add_run(
            alloc, layout, f, when, target, y, &numbers, start, end, found,
        )?;
        start = end;
    }
    Ok(())
}
