//! Sums of at most three terms that aren't a number, as clauses.

ghost use Rattle.std.specs.Prelude.{◌≢◌, ◌+ℤ◌, ◌<◌, pos, length, IsTrue, OnOk};
ghost use Rattle.std.specs.List.{All};
ghost use Rattle.enc_atoms.specs.Atoms.{Adds};
ghost use Rattle.enc_linear.specs.Guards.{Unless};
ghost use Rattle.enc_linear.specs.Terms.{IsTermOf, worth_of};
ghost use Rattle.enc_var.specs.Layouts.{IsLayoutOf};

use crate::bounds::{added, is_over, is_under};
use crate::sources::unless_other;
use crate::terms::{Term, step_worth};
use cnf_core::Formula;
use enc_atoms::{Atom, add_clause};
use enc_var::Layout;
use ep_base::Memory;
use std::alloc::Global;

/// Adds that 0 isn't the number, unless a guard holds.
pub(crate) fn add_none_apart(
    alloc: Global,
    layout: &Layout,
    f: &mut Formula,
    guards: &[Atom],
    number: i128,
) -> Result<(), Memory>
    requires from_new { IsTrue f.old.from_new }
    requires is_layout { IsLayoutOf layout.now f.old }
    requires guards { All (λ atom. atom.var < length layout.now) guards.now }
    ensures { OnOk result (Adds layout.now f.old layout.now f.new
        (Unless guards.now (λ values. pos 0 ≢ number))) }
{
    if number < 0 {
        return Ok(());
    }
    if 0 < number {
        return Ok(());
    }
    add_clause(alloc, layout, f, guards)
}

/// Adds that a term isn't the number, unless a guard holds.
pub(crate) fn add_one_apart(
    alloc: Global,
    layout: &Layout,
    f: &mut Formula,
    guards: &[Atom],
    term: &Term,
    number: i128,
) -> Result<(), Memory>
    requires from_new { IsTrue f.old.from_new }
    requires is_layout { IsLayoutOf layout.now f.old }
    requires guards { All (λ atom. atom.var < length layout.now) guards.now }
    requires term { IsTermOf layout.now f.old term.now }
    ensures { OnOk result (Adds layout.now f.old layout.now f.new
        (Unless guards.now (λ values. worth_of values term.now ≢ number))) }
{
    let Some(step) = step_worth(term, number) else {
        return Ok(());
    };
    let atoms = unless_other(alloc, guards, term.source, step.value)?;
    add_clause(alloc, layout, f, &atoms)
}

/// Adds that the sum of two terms isn't the number, unless a guard holds: a clause for each step of the first that the
/// second can bring to it.
pub(crate) fn add_two_apart(
    alloc: Global,
    layout: &Layout,
    f: &mut Formula,
    guards: &[Atom],
    first: &Term,
    second: &Term,
    number: i128,
) -> Result<(), Memory>
    requires from_new { IsTrue f.old.from_new }
    requires is_layout { IsLayoutOf layout.now f.old }
    requires guards { All (λ atom. atom.var < length layout.now) guards.now }
    requires first { IsTermOf layout.now f.old first.now }
    requires second { IsTermOf layout.now f.old second.now }
    ensures { OnOk result (Adds layout.now f.old layout.now f.new
        (Unless guards.now (λ values. (worth_of values first.now +ℤ worth_of values second.now) ≢ number))) }
{
    for step in &first.steps {
        let left = number.checked_sub(step.worth).ok_or(Memory)?;
        if is_under(left, second.bounds) {
            continue;
        }
        if is_over(left, second.bounds) {
            continue;
        }
        let atoms = unless_other(alloc, guards, first.source, step.value)?;
        add_one_apart(alloc, layout, f, &atoms, second, left)?;
    }
    Ok(())
}

/// Adds that the sum of three terms isn't the number, unless a guard holds: for each step of the first which the others
/// can bring to it what is said of them then.
pub(crate) fn add_three_apart(
    alloc: Global,
    layout: &Layout,
    f: &mut Formula,
    guards: &[Atom],
    first: &Term,
    second: &Term,
    third: &Term,
    number: i128,
) -> Result<(), Memory>
    requires from_new { IsTrue f.old.from_new }
    requires is_layout { IsLayoutOf layout.now f.old }
    requires guards { All (λ atom. atom.var < length layout.now) guards.now }
    requires first { IsTermOf layout.now f.old first.now }
    requires second { IsTermOf layout.now f.old second.now }
    requires third { IsTermOf layout.now f.old third.now }
    ensures { OnOk result (Adds layout.now f.old layout.now f.new
        (Unless guards.now (λ values. (worth_of values first.now +ℤ (worth_of values second.now +ℤ worth_of values third.now)) ≢ number))) }
{
    let rest = added(second.bounds, third.bounds)?;
    for step in &first.steps {
        let left = number.checked_sub(step.worth).ok_or(Memory)?;
        if is_under(left, rest) {
            continue;
        }
        if is_over(left, rest) {
            continue;
        }
        let atoms = unless_other(alloc, guards, first.source, step.value)?;
        add_two_apart(alloc, layout, f, &atoms, second, third, left)?;
    }
    Ok(())
}
