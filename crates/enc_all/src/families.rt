//! One constraint, by the encoder of its family.

ghost use Rattle.std.specs.Prelude.{◌≡◌, IsTrue, OnOk};
ghost use Rattle.enc_atoms.specs.Atoms.{Adds};
ghost use Rattle.enc_var.specs.Layouts.{CanTake};
ghost use Rattle.ep_flat.specs.Cons.{con_holds, linear};
ghost use Rattle.ep_flat.specs.FlatViews.{plain_con, plain_kind};

use crate::truths::{encode_all, encode_clause, encode_same};
use crate::wide::is_wide;
use cnf_core::Formula;
use enc_var::Layout;
use ep_base::{CompareOp, Memory};
use ep_flat::{Con, ConKind};
use std::alloc::Global;

/// Adds that a sum compares so with a number, by binary adders where it is wide.
fn encode_linear(
    alloc: Global,
    con: &Con,
    parts: &[(i64, u64)],
    op: CompareOp,
    number: i64,
    layout: &mut Layout,
    f: &mut Formula,
) -> Result<(), Memory>
    requires linear { plain_kind con.now.kind ≡ linear parts.now op number }
    requires can_take { CanTake layout.old f.old (plain_con con.now) }
    ensures { OnOk result (Adds layout.old f.old layout.new f.new
        (λ values. IsTrue (con_holds values (plain_con con.now)))) }
{
    if is_wide(alloc, layout, con.truth, parts, op, number)? {
        return enc_adder::encode_con(alloc, con, layout, f);
    }
    enc_linear::encode_con(alloc, con, layout, f)
}

/// Adds clauses that keep exactly the assignments under which the constraint holds. After want of
/// memory nothing is promised of layout and formula.
pub(crate) fn encode_con(
    alloc: Global,
    con: &Con,
    layout: &mut Layout,
    f: &mut Formula,
) -> Result<(), Memory>
    requires { CanTake layout.old f.old (plain_con con.now) }
    ensures { OnOk result (Adds layout.old f.old layout.new f.new
        (λ values. IsTrue (con_holds values (plain_con con.now)))) }
{
    match &con.kind {
        ConKind::Clause(parts) => encode_clause(alloc, con.truth, parts, layout, f),
        ConKind::All(xs) => encode_all(alloc, con.truth, xs, layout, f),
        ConKind::Same(x, y) => encode_same(alloc, con.truth, *x, *y, layout, f),
        ConKind::Linear(parts, op, number) => {
            encode_linear(alloc, con, parts, *op, *number, layout, f)
        }
        ConKind::Member(_, _) => enc_linear::encode_con(alloc, con, layout, f),
        ConKind::Product(_, _, _) => enc_arith::encode_con(alloc, con, layout, f),
        ConKind::Quotient(_, _, _) => enc_arith::encode_con(alloc, con, layout, f),
        ConKind::Remainder(_, _, _) => enc_arith::encode_con(alloc, con, layout, f),
        ConKind::Power(_, _, _) => enc_arith::encode_con(alloc, con, layout, f),
        ConKind::Absolute(_, _) => enc_arith::encode_con(alloc, con, layout, f),
        ConKind::Least(_, _) => enc_arith::encode_con(alloc, con, layout, f),
        ConKind::Greatest(_, _) => enc_arith::encode_con(alloc, con, layout, f),
        ConKind::Element(_, _, _, _) => enc_arith::encode_con(alloc, con, layout, f),
        ConKind::AllDiff(_) => enc_count::encode_con(alloc, con, layout, f),
        ConKind::Gcc(_, _, _) => enc_count::encode_con(alloc, con, layout, f),
        ConKind::AtLeast(_, _, _) => enc_count::encode_con(alloc, con, layout, f),
        ConKind::AtMost(_, _, _) => enc_count::encode_con(alloc, con, layout, f),
        ConKind::Table(_, _) => enc_table::encode_con(alloc, con, layout, f),
        ConKind::Lex(_, _, _) => enc_table::encode_con(alloc, con, layout, f),
    }
}
