//! Clauses under a guard: what they say has to hold only where no guard does.

ghost use Rattle.std.specs.Prelude.{◌≡◌, ◌<◌, ◌++◌, ◌∷◌, [], length, pos, IfOk, OnOk, IsTrue};
ghost use Rattle.std.specs.List.{All};
ghost use Rattle.enc_atoms.specs.Atoms.{Adds, atom_holds};
ghost use Rattle.enc_linear.specs.Guards.{IsTruthValue, Unless};
ghost use Rattle.enc_var.specs.Layouts.{IsLayoutOf};

use cnf_core::Formula;
use enc_atoms::{Atom, add_clause};
use enc_var::Layout;
use ep_base::Memory;
use std::alloc::Global;

/// The guards with one atom more.
pub(crate) fn with_atom(alloc: Global, guards: &[Atom], atom: Atom) -> Result<Vec<Atom>, Memory>
    ensures { IfOk result (λ atoms. atoms.items ≡ guards.now ++ atom ∷ []) }
{
    let mut atoms = Vec::from_slice(alloc, guards)?;
    atoms.push(atom)?;
    Ok(atoms)
}

/// Adds that a variable is 0 or 1.
pub(crate) fn add_truth(
    alloc: Global,
    layout: &Layout,
    f: &mut Formula,
    truth: u64,
) -> Result<(), Memory>
    requires from_new { IsTrue f.old.from_new }
    requires is_layout { IsLayoutOf layout.now f.old }
    requires truth { truth < length layout.now }
    ensures { OnOk result (Adds layout.now f.old layout.now f.new (IsTruthValue truth)) }
{
    let atoms = [Atom::is(truth, 0), Atom::is(truth, 1)];
    add_clause(alloc, layout, f, &atoms)
}

/// Adds that an atom holds, unless a guard does.
pub(crate) fn add_guarded(
    alloc: Global,
    layout: &Layout,
    f: &mut Formula,
    guards: &[Atom],
    atom: Atom,
) -> Result<(), Memory>
    requires from_new { IsTrue f.old.from_new }
    requires is_layout { IsLayoutOf layout.now f.old }
    requires guards { All (λ atom. atom.var < length layout.now) guards.now }
    requires atom { atom.var < length layout.now }
    ensures { OnOk result (Adds layout.now f.old layout.now f.new
        (Unless guards.now (λ values. IsTrue (atom_holds values atom)))) }
{
    let atoms = with_atom(alloc, guards, atom)?;
    add_clause(alloc, layout, f, &atoms)
}
