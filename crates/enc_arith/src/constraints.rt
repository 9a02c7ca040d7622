//! Each kind of constraint by the clauses of its function.

ghost use Rattle.std.specs.Prelude.{◌≡◌, ◌<◌, [], length, slice_get, IsTrue, OnOk};
ghost use Rattle.std.specs.List.{All};
ghost use Rattle.std.specs.Ordering.{int_eq};
ghost use Rattle.ep_base.specs.Reads.{safe_picked};
ghost use Rattle.enc_arith.specs.Extremes.{extreme_of};
ghost use Rattle.enc_arith.specs.Saying.{IsReady, IsTarget, says};
ghost use Rattle.enc_atoms.specs.Atoms.{Adds};
ghost use Rattle.enc_var.specs.Layouts.{CanTake};
ghost use Rattle.ep_flat.specs.Cons.{con_holds, family_of, is_value, number_at, numbers_of_vars, of_functions};
ghost use Rattle.ep_flat.specs.FlatViews.{plain_con};

use crate::elements::{add_element, with_parts};
use crate::extremes::{add_extreme, add_whether_extreme};
use crate::functions::Function;
use crate::operations::{Operation, add_operation};
use crate::runs::add_function;
use crate::sides::Side;
use crate::targets::Target;
use cnf_core::Formula;
use enc_var::Layout;
use ep_base::{Key, Memory};
use ep_flat::{Con, ConKind};
use std::alloc::Global;

/// The first part, if there is one.
fn first_of(parts: &[u64]) -> Option<u64>
    ensures { result ≡ slice_get parts.now 0 }
{
    parts.first().copied()
}

/// Adds clauses which say that the result is the part that the indices pick.
fn add_picked(
    alloc: Global,
    layout: &Layout,
    f: &mut Formula,
    target: Target,
    parts: &[u64],
    keys: &[Key],
    indices: &[u64],
) -> Result<(), Memory>
    requires ready { IsReady layout.now f.old }
    requires there { IsTarget layout.now target.truth target.result }
    requires parts { All (λ x. x < length layout.now) parts.now }
    requires indices { All (λ x. x < length layout.now) indices.now }
    ensures { OnOk result (Adds layout.now f.old layout.now f.new
        (λ values. IsTrue (says values [] target.truth (int_eq (number_at values target.result)
        (safe_picked (numbers_of_vars values parts.now) keys.now (numbers_of_vars values indices.now)))))) }
{
    let entries = with_parts(alloc, keys, parts)?;
    let other = first_of(parts);
    add_element(
        alloc,
        layout,
        f,
        &[],
        target,
        entries.as_slice(),
        other,
        indices,
    )?;
    Ok(())
}

/// Adds clauses which say that the result is the least or greatest part.
fn add_side(
    alloc: Global,
    layout: &Layout,
    f: &mut Formula,
    target: Target,
    side: Side,
    parts: &[u64],
) -> Result<(), Memory>
    requires ready { IsReady layout.now f.old }
    requires there { IsTarget layout.now target.truth target.result }
    requires parts { All (λ x. x < length layout.now) parts.now }
    ensures { OnOk result (Adds layout.now f.old layout.now f.new
        (λ values. IsTrue (says values [] target.truth
        (is_value (extreme_of side (numbers_of_vars values parts.now)) (number_at values target.result))))) }
{
    match target.truth {
        Some(truth) => add_whether_extreme(alloc, layout, f, side, truth, parts, target.result)?,
        None => add_extreme(alloc, layout, f, side, parts, target.result)?,
    }
    Ok(())
}

/// Adds clauses which say that the constraint is as it has to be.
pub(crate) fn add_con(
    alloc: Global,
    con: &Con,
    layout: &Layout,
    f: &mut Formula,
) -> Result<(), Memory>
    requires family { family_of (plain_con con.now).kind ≡ of_functions }
    requires can_take { CanTake layout.now f.old (plain_con con.now) }
    ensures { OnOk result (Adds layout.now f.old layout.now f.new (λ values. IsTrue (con_holds values (plain_con con.now)))) }
{
    let truth = con.truth;
    match &con.kind {
        ConKind::Product(r, x, y) => {
            let target = Target { truth, result: *r };
            add_operation(alloc, layout, f, target, Operation::Product, *x, *y)?;
        }
        ConKind::Quotient(r, x, y) => {
            let target = Target { truth, result: *r };
            add_operation(alloc, layout, f, target, Operation::Quotient, *x, *y)?;
        }
        ConKind::Remainder(r, x, y) => {
            let target = Target { truth, result: *r };
            add_operation(alloc, layout, f, target, Operation::Remainder, *x, *y)?;
        }
        ConKind::Power(r, x, n) => {
            let target = Target { truth, result: *r };
            add_function(alloc, layout, f, &[], target, Function::Power(*n), *x)?;
        }
        ConKind::Absolute(r, x) => {
            let target = Target { truth, result: *r };
            add_function(alloc, layout, f, &[], target, Function::Absolute, *x)?;
        }
        ConKind::Least(r, parts) => {
            let target = Target { truth, result: *r };
            add_side(alloc, layout, f, target, Side::Least, parts.as_slice())?;
        }
        ConKind::Greatest(r, parts) => {
            let target = Target { truth, result: *r };
            add_side(alloc, layout, f, target, Side::Greatest, parts.as_slice())?;
        }
        ConKind::Element(r, parts, keys, indices) => {
            let target = Target { truth, result: *r };
            add_picked(
                alloc,
                layout,
                f,
                target,
                parts.as_slice(),
                keys.as_slice(),
                indices.as_slice(),
            )?;
        }
        _ => unreachable!(),
    }
    Ok(())
}
