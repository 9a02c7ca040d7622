//! Membership of a variable's number in a set.

ghost use Rattle.std.specs.Prelude.{◌≡◌, ◌<◌, ◌++◌, ◌∷◌, [], true, length, map, MatchOption, OnOk, IsTrue};
ghost use Rattle.std.specs.List.{All};
ghost use Rattle.enc_atoms.specs.Atoms.{Adds};
ghost use Rattle.enc_linear.specs.Guards.{IsMember, Unless};
ghost use Rattle.enc_var.specs.Layouts.{IsLayoutOf};
ghost use Rattle.ep_base.specs.Numbers.{has_number};
ghost use Rattle.ep_flat.specs.Cons.{is_as_said, number_at};

use crate::guards::{add_truth, with_atom};
use cnf_core::Formula;
use enc_atoms::{Atom, add_clause};
use enc_var::Layout;
use ep_base::{Memory, Runs};
use ep_numbers::listed;
use std::alloc::Global;

/// Adds that whether a variable's number is in the set is as given, unless a guard holds.
fn add_membership(
    alloc: Global,
    layout: &Layout,
    f: &mut Formula,
    guards: &[Atom],
    var: u64,
    numbers: &Runs,
    inside: bool,
) -> Result<(), Memory>
    requires from_new { IsTrue f.old.from_new }
    requires is_layout { IsLayoutOf layout.now f.old }
    requires guards { All (λ atom. atom.var < length layout.now) guards.now }
    requires var { var < length layout.now }
    ensures { OnOk result (Adds layout.now f.old layout.now f.new
        (Unless guards.now (IsMember var numbers.now inside))) }
{
    let values = listed(alloc, layout.domain(var))?;
    for value in &values {
        if numbers.has(*value) == inside {
            continue;
        }
        let atoms = with_atom(alloc, guards, Atom::is_not(var, *value))?;
        add_clause(alloc, layout, f, &atoms)?;
    }
    Ok(())
}

/// Adds that a variable's number is in the set, or that the variable of its truth says whether it is.
pub(crate) fn add_member(
    alloc: Global,
    layout: &Layout,
    f: &mut Formula,
    truth: Option<u64>,
    var: u64,
    numbers: &Runs,
) -> Result<(), Memory>
    requires from_new { IsTrue f.old.from_new }
    requires is_layout { IsLayoutOf layout.now f.old }
    requires truth { MatchOption truth (length layout.now ≡ length layout.now) (λ t. t < length layout.now) }
    requires var { var < length layout.now }
    ensures { OnOk result (Adds layout.now f.old layout.now f.new
        (λ values. IsTrue (is_as_said values truth (has_number numbers.now (number_at values var))))) }
{
    let Some(t) = truth else {
        return add_membership(alloc, layout, f, &[], var, numbers, true);
    };
    add_truth(alloc, layout, f, t)?;
    let unless_false = [Atom::is_not(t, 1)];
    add_membership(alloc, layout, f, &unless_false, var, numbers, true)?;
    let unless_true = [Atom::is(t, 1)];
    add_membership(alloc, layout, f, &unless_true, var, numbers, false)
}
