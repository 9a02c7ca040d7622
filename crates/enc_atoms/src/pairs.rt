//! Clauses of two statements, and of many like ones.

ghost use Rattle.std.specs.Prelude.{◌≡◌, ◌⊎◌, ◌<◌, pos, length, IfOk, OnOk};
ghost use Rattle.enc_atoms.specs.Atoms.{Adds};
ghost use Rattle.enc_atoms.specs.Steps.{AreAtomsOf, Implied, IsReady, IsTruth, NotBoth, Unless, are_all};
ghost use Rattle.ep_flat.specs.Cons.{number_at};

use crate::guarded::add_guarded;
use crate::{Atom, add_clause};
use cnf_core::Formula;
use enc_var::Layout;
use ep_base::Memory;
use std::alloc::Global;

/// A variable and a number.
pub type Place = (u64, i64);

/// Adds that where the first variable is the first number, the second one is the second, where no atom of the guard
/// holds.
pub fn add_implied(
    alloc: Global,
    layout: &Layout,
    f: &mut Formula,
    guard: &[Atom],
    given: Place,
    then: Place,
) -> Result<(), Memory>
    requires ready { IsReady layout.now f.old }
    requires guard { AreAtomsOf layout.now guard.now }
    requires given { given.0 < length layout.now }
    requires then { then.0 < length layout.now }
    ensures { OnOk result (Adds layout.now f.old layout.now f.new
        (Unless guard.now (Implied given.0 given.1 then.0 then.1))) }
{
    let atoms = [Atom::is_not(given.0, given.1), Atom::is(then.0, then.1)];
    add_guarded(alloc, layout, f, guard, &atoms)
}

/// Adds that not both variables are their numbers, where no atom of the guard holds.
pub fn add_not_both(
    alloc: Global,
    layout: &Layout,
    f: &mut Formula,
    guard: &[Atom],
    one: Place,
    other: Place,
) -> Result<(), Memory>
    requires ready { IsReady layout.now f.old }
    requires guard { AreAtomsOf layout.now guard.now }
    requires one { one.0 < length layout.now }
    requires other { other.0 < length layout.now }
    ensures { OnOk result (Adds layout.now f.old layout.now f.new
        (Unless guard.now (NotBoth one.0 one.1 other.0 other.1))) }
{
    let atoms = [Atom::is_not(one.0, one.1), Atom::is_not(other.0, other.1)];
    add_guarded(alloc, layout, f, guard, &atoms)
}

/// Adds that a variable is 0 or 1.
pub fn add_decided(
    alloc: Global,
    layout: &Layout,
    f: &mut Formula,
    truth: u64,
) -> Result<(), Memory>
    requires ready { IsReady layout.now f.old }
    requires there { truth < length layout.now }
    ensures { OnOk result (Adds layout.now f.old layout.now f.new
        (λ values. IsTruth (number_at values truth))) }
{
    let atoms = [Atom::is(truth, 0), Atom::is(truth, 1)];
    add_clause(alloc, layout, f, &atoms)
}

/// For each variable "it is the number".
pub fn all_are(alloc: Global, vars: &[u64], number: i64) -> Result<Vec<Atom>, Memory>
    ensures { IfOk result (λ atoms. atoms.items ≡ are_all vars.now number) }
{
    let mut atoms = Vec::new(alloc);
    for var in vars {
        atoms.push(Atom::is(*var, number))?;
    }
    Ok(atoms)
}
