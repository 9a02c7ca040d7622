//! The encoding of a flat problem.

ghost use Rattle.std.specs.Prelude.{◌≡◌, [], map, true, IsTrue, IfOk, OnOk};
ghost use Rattle.std.specs.List.{All};
ghost use Rattle.enc_all.specs.Whole.{HasVariables};
ghost use Rattle.enc_atoms.specs.Atoms.{Adds};
ghost use Rattle.enc_var.specs.Layouts.{CanTake, IsEncoding, IsLayoutOf};
ghost use Rattle.ep_flat.specs.Cons.{con_holds};
ghost use Rattle.ep_flat.specs.FlatViews.{plain_con, plain_flat};
ghost use Rattle.ep_flat.specs.Flats.{IsSoundFlat};

use crate::families::encode_con;
use cnf_core::Formula;
use enc_var::Layout;
use ep_base::{Memory, Runs};
use ep_flat::{Con, Flat};
use std::alloc::Global;

/// A formula whose assignments decode to exactly the numbers that meet the flat problem, and the
/// layout by which they do.
pub fn encode(alloc: Global, flat: &Flat) -> Result<(Formula, Layout), Memory>
    requires { IsSoundFlat (plain_flat flat.now) }
    ensures { IfOk result (λ made. IsEncoding (plain_flat flat.now) made.1 made.0) }
{
    let mut layout = Layout::new(alloc);
    let mut f = Formula::new(alloc);
    add_variables(alloc, &flat.vars, &mut layout, &mut f)?;
    add_constraints(alloc, &flat.cons, &mut layout, &mut f)?;
    Ok((f, layout))
}

/// Adds variables with these domains to a layout and a formula without any.
fn add_variables(
    alloc: Global,
    domains: &[Runs],
    layout: &mut Layout,
    f: &mut Formula,
) -> Result<(), Memory>
    requires layout { layout.old ≡ [] }
    requires formula { f.old ≡ record { vars = 0; clauses = []; from_new = true } }
    ensures { OnOk result (HasVariables domains.now layout.new f.new) }
{
    for domain in domains {
        let _number = layout.new_var(alloc, f, domain)?;
    }
    Ok(())
}

/// Adds the constraints, one after another.
fn add_constraints(
    alloc: Global,
    cons: &[Con],
    layout: &mut Layout,
    f: &mut Formula,
) -> Result<(), Memory>
    requires from_new { IsTrue f.old.from_new }
    requires is_layout { IsLayoutOf layout.old f.old }
    requires can_take { All (CanTake layout.old f.old) (map plain_con cons.now) }
    ensures { OnOk result (Adds layout.old f.old layout.new f.new
        (λ values. All (λ con. IsTrue (con_holds values con)) (map plain_con cons.now))) }
{
    for con in cons {
        encode_con(alloc, con, layout, f)?;
    }
    Ok(())
}
