//! Clauses behind a guard.

ghost use Rattle.std.specs.Prelude.{IsTrue, OnOk};
ghost use Rattle.enc_atoms.specs.Atoms.{Adds, clause_holds};
ghost use Rattle.enc_atoms.specs.Steps.{AreAtomsOf, IsReady, Unless};

use crate::{Atom, add_clause};
use cnf_core::Formula;
use enc_var::Layout;
use ep_base::Memory;
use std::alloc::Global;

/// Adds a clause which says that one of the atoms holds where none of the guard does. After want of memory nothing is
/// promised of the formula.
pub fn add_guarded(
    alloc: Global,
    layout: &Layout,
    f: &mut Formula,
    guard: &[Atom],
    atoms: &[Atom],
) -> Result<(), Memory>
    requires ready { IsReady layout.now f.old }
    requires guard { AreAtomsOf layout.now guard.now }
    requires names { AreAtomsOf layout.now atoms.now }
    ensures { OnOk result (Adds layout.now f.old layout.now f.new
        (Unless guard.now (λ values. IsTrue (clause_holds values atoms.now)))) }
{
    if guard.is_empty() {
        return add_clause(alloc, layout, f, atoms);
    }
    let mut all = Vec::from_slice(alloc, guard)?;
    all.extend_from_slice(atoms)?;
    add_clause(alloc, layout, f, &all)
}
