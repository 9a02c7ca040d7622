//! The encoding of one constraint.

ghost use Rattle.std.specs.Prelude.{◌≡◌, true, OnOk};
ghost use Rattle.cnf_core.specs.Formula.{Keeps};
ghost use Rattle.enc_var.specs.Layouts.{CanTake, GoesOn, HoldsUnder};
ghost use Rattle.ep_flat.specs.Cons.{is_linear};
ghost use Rattle.ep_flat.specs.FlatViews.{plain_con};

use crate::linear::add_linear;
use cnf_core::Formula;
use enc_var::Layout;
use ep_base::Memory;
use ep_flat::{Con, ConKind};
use std::alloc::Global;

/// Adds clauses that keep exactly the assignments under which the constraint holds. After want of
/// memory nothing is promised of layout and formula.
pub fn encode_con(
    alloc: Global,
    con: &Con,
    layout: &mut Layout,
    f: &mut Formula,
) -> Result<(), Memory>
    requires family { is_linear (plain_con con.now).kind ≡ true }
    requires can_take { CanTake layout.old f.old (plain_con con.now) }
    ensures goes_on { OnOk result (GoesOn layout.old f.old layout.new f.new) }
    ensures keeps { OnOk result
        (Keeps f.old f.new (HoldsUnder layout.old (plain_con con.now))) }
{
    match &con.kind {
        ConKind::Linear(parts, op, number) => {
            add_linear(alloc, layout, f, con.truth, parts, *op, *number)
        }
        _ => unreachable!(),
    }
}
