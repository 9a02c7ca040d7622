//! Constraints that never hold.

ghost use Rattle.std.specs.Prelude.{◌<◌, false, length, IsTrue, OnOk, Some};
ghost use Rattle.ep_flat.specs.Cons.{is_as_said};
ghost use Rattle.enc_atoms.specs.Atoms.{Adds};
ghost use Rattle.enc_atoms.specs.Steps.{HasTruth, IsReady};

use crate::{Atom, add_clause};
use cnf_core::Formula;
use enc_var::Layout;
use ep_base::Memory;
use std::alloc::Global;

/// Adds that a variable is 0, as the truth of what never holds.
fn add_off(alloc: Global, layout: &Layout, f: &mut Formula, truth: u64) -> Result<(), Memory>
    requires ready { IsReady layout.now f.old }
    requires there { truth < length layout.now }
    ensures { OnOk result (Adds layout.now f.old layout.now f.new
        (λ values. IsTrue (is_as_said values (Some truth) false))) }
{
    let atoms = [Atom::is(truth, 0)];
    add_clause(alloc, layout, f, &atoms)
}

/// Adds that a constraint doesn't hold: nothing can, or its truth is 0. After want of memory nothing is promised of the
/// formula.
pub fn add_never(
    alloc: Global,
    layout: &Layout,
    f: &mut Formula,
    truth: Option<u64>,
) -> Result<(), Memory>
    requires ready { IsReady layout.now f.old }
    requires truth { HasTruth layout.now truth }
    ensures { OnOk result (Adds layout.now f.old layout.now f.new
        (λ values. IsTrue (is_as_said values truth false))) }
{
    match truth {
        None => add_clause(alloc, layout, f, &[]),
        Some(truth) => add_off(alloc, layout, f, truth),
    }
}
