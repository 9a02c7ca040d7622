//! Sums of at most three terms that are at most a number, as clauses.

ghost use Rattle.std.specs.Prelude.{◌≡◌, ◌+ℤ◌, ◌-ℤ◌, ◌<◌, ◌≤ℤ◌, pos, length, IfOk, IsTrue, OnOk};
ghost use Rattle.std.specs.List.{All};
ghost use Rattle.enc_atoms.specs.Atoms.{Adds};
ghost use Rattle.enc_linear.specs.Guards.{Unless};
ghost use Rattle.enc_linear.specs.Terms.{IsTermOf, worth_of};
ghost use Rattle.enc_var.specs.Layouts.{IsLayoutOf};

use crate::bounds::{Bounds, added, is_enough};
use crate::guards::{add_guarded, with_atom};
use crate::terms::{Term, less_than, up_to};
use cnf_core::Formula;
use enc_atoms::{Atom, add_clause};
use enc_var::Layout;
use ep_base::Memory;
use std::alloc::Global;

/// Adds that 0 is at most `most`, unless a guard holds.
pub(crate) fn add_none(
    alloc: Global,
    layout: &Layout,
    f: &mut Formula,
    guards: &[Atom],
    most: i128,
) -> Result<(), Memory>
    requires from_new { IsTrue f.old.from_new }
    requires is_layout { IsLayoutOf layout.now f.old }
    requires guards { All (λ atom. atom.var < length layout.now) guards.now }
    ensures { OnOk result (Adds layout.now f.old layout.now f.new
        (Unless guards.now (λ values. pos 0 ≤ℤ most))) }
{
    if 0 <= most {
        return Ok(());
    }
    add_clause(alloc, layout, f, guards)
}

/// Adds that a term is at most `most`, unless a guard holds.
pub(crate) fn add_one(
    alloc: Global,
    layout: &Layout,
    f: &mut Formula,
    guards: &[Atom],
    term: &Term,
    most: i128,
) -> Result<(), Memory>
    requires from_new { IsTrue f.old.from_new }
    requires is_layout { IsLayoutOf layout.now f.old }
    requires guards { All (λ atom. atom.var < length layout.now) guards.now }
    requires term { IsTermOf layout.now f.old term.now }
    ensures { OnOk result (Adds layout.now f.old layout.now f.new
        (Unless guards.now (λ values. worth_of values term.now ≤ℤ most))) }
{
    match up_to(term, most)? {
        None => add_clause(alloc, layout, f, guards),
        Some(atom) => add_guarded(alloc, layout, f, guards, atom),
    }
}

/// What the first of two terms may be worth where the other one lies within these bounds, and their sum is at most `most`.
fn room_beside(rest: Bounds, most: i128) -> Result<i128, Memory>
    ensures { IfOk result (λ room. room ≡ most -ℤ rest.least) }
{
    most.checked_sub(rest.least).ok_or(Memory)
}

/// Adds that the sum of two terms is at most `most`, unless a guard holds: that the first is at most what the least of the
/// second leaves, and a clause for each of its steps up to there which the second can pass.
pub(crate) fn add_two(
    alloc: Global,
    layout: &Layout,
    f: &mut Formula,
    guards: &[Atom],
    first: &Term,
    second: &Term,
    most: i128,
) -> Result<(), Memory>
    requires from_new { IsTrue f.old.from_new }
    requires is_layout { IsLayoutOf layout.now f.old }
    requires guards { All (λ atom. atom.var < length layout.now) guards.now }
    requires first { IsTermOf layout.now f.old first.now }
    requires second { IsTermOf layout.now f.old second.now }
    ensures { OnOk result (Adds layout.now f.old layout.now f.new
        (Unless guards.now (λ values. (worth_of values first.now +ℤ worth_of values second.now) ≤ℤ most))) }
{
    let room = room_beside(second.bounds, most)?;
    add_one(alloc, layout, f, guards, first, room)?;
    for step in &first.steps {
        if room < step.worth {
            continue;
        }
        let left = most.checked_sub(step.worth).ok_or(Memory)?;
        if is_enough(left, second.bounds) {
            continue;
        }
        let less = less_than(first, *step)?;
        let atoms = with_atom(alloc, guards, less)?;
        add_one(alloc, layout, f, &atoms, second, left)?;
    }
    Ok(())
}

/// Adds that the sum of three terms is at most `most`, unless a guard holds: that the first is at most what the least of
/// the others leave, and for each of its steps up to there which the others can pass what is said of them then.
pub(crate) fn add_three(
    alloc: Global,
    layout: &Layout,
    f: &mut Formula,
    guards: &[Atom],
    first: &Term,
    second: &Term,
    third: &Term,
    most: i128,
) -> Result<(), Memory>
    requires from_new { IsTrue f.old.from_new }
    requires is_layout { IsLayoutOf layout.now f.old }
    requires guards { All (λ atom. atom.var < length layout.now) guards.now }
    requires first { IsTermOf layout.now f.old first.now }
    requires second { IsTermOf layout.now f.old second.now }
    requires third { IsTermOf layout.now f.old third.now }
    ensures { OnOk result (Adds layout.now f.old layout.now f.new
        (Unless guards.now (λ values. (worth_of values first.now +ℤ (worth_of values second.now +ℤ worth_of values third.now)) ≤ℤ most))) }
{
    let rest = added(second.bounds, third.bounds)?;
    let room = room_beside(rest, most)?;
    add_one(alloc, layout, f, guards, first, room)?;
    for step in &first.steps {
        if room < step.worth {
            continue;
        }
        let left = most.checked_sub(step.worth).ok_or(Memory)?;
        if is_enough(left, rest) {
            continue;
        }
        let less = less_than(first, *step)?;
        let atoms = with_atom(alloc, guards, less)?;
        add_two(alloc, layout, f, &atoms, second, third, left)?;
    }
    Ok(())
}
