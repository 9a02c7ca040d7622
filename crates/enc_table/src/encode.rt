//! The encoding of one constraint.

ghost use Rattle.std.specs.Prelude.{◌≡◌, IsTrue, OnOk};
ghost use Rattle.cnf_core.specs.Formula.{Keeps};
ghost use Rattle.enc_var.specs.Layouts.{CanTake, GoesOn, HoldsUnder};
ghost use Rattle.ep_flat.specs.Cons.{family_of, of_rows};
ghost use Rattle.ep_flat.specs.FlatViews.{plain_con};

use crate::orders::encode_lex;
use crate::tables::encode_table;
use cnf_core::Formula;
use enc_var::Layout;
use ep_base::Memory;
use ep_flat::{Con, ConKind};
use std::alloc::Global;

/// Adds clauses that keep exactly the assignments under which the constraint holds. After want of
/// memory nothing is promised of layout and formula.
pub fn encode_con(
    alloc: Global,
    con: &Con,
    layout: &mut Layout,
    f: &mut Formula,
) -> Result<(), Memory>
    requires family { family_of (plain_con con.now).kind ≡ of_rows }
    requires can_take { CanTake layout.old f.old (plain_con con.now) }
    ensures goes_on { OnOk result (GoesOn layout.old f.old layout.new f.new) }
    ensures keeps { OnOk result
        (Keeps f.old f.new (HoldsUnder layout.old (plain_con con.now))) }
{
    match &con.kind {
        ConKind::Table(vars, rows) => encode_table(alloc, layout, f, con.truth, vars, rows),
        ConKind::Lex(op, xs, ys) => encode_lex(alloc, layout, f, con.truth, *op, xs, ys),
        _ => unreachable!(),
    }
}
