//! The encoding of one constraint.

ghost use Rattle.std.specs.Prelude.{◌≡◌, IsTrue, OnOk};
ghost use Rattle.cnf_core.specs.Formula.{Keeps};
ghost use Rattle.enc_var.specs.Layouts.{CanTake, GoesOn, HoldsUnder};
ghost use Rattle.ep_flat.specs.Cons.{family_of, of_counts};
ghost use Rattle.ep_flat.specs.FlatViews.{plain_con};

use crate::counts::{encode_bounds, encode_counts};
use crate::different::encode_different;
use cnf_core::Formula;
use enc_var::Layout;
use ep_base::{CompareOp, Memory};
use ep_flat::{Con, ConKind};
use std::alloc::Global;

/// Adds clauses that keep exactly the assignments under which the constraint holds. After want of
/// memory nothing is promised of layout and formula.
pub fn encode_con(
    alloc: Global,
    con: &Con,
    layout: &mut Layout,
    f: &mut Formula,
) -> Result<(), Memory>
    requires family { family_of (plain_con con.now).kind ≡ of_counts }
    requires can_take { CanTake layout.old f.old (plain_con con.now) }
    ensures goes_on { OnOk result (GoesOn layout.old f.old layout.new f.new) }
    ensures keeps { OnOk result
        (Keeps f.old f.new (HoldsUnder layout.old (plain_con con.now))) }
{
    match &con.kind {
        ConKind::AllDiff(vars) => encode_different(alloc, layout, f, con.truth, vars),
        ConKind::Gcc(vars, numbers, counts) => {
            encode_counts(alloc, layout, f, con.truth, vars, numbers, counts)
        }
        ConKind::AtLeast(vars, counts, numbers) => encode_bounds(
            alloc,
            layout,
            f,
            con.truth,
            CompareOp::AtLeast,
            vars,
            numbers,
            counts,
        ),
        ConKind::AtMost(vars, counts, numbers) => encode_bounds(
            alloc,
            layout,
            f,
            con.truth,
            CompareOp::AtMost,
            vars,
            numbers,
            counts,
        ),
        _ => unreachable!(),
    }
}
