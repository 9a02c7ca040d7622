//! Linear constraints.

ghost use Rattle.std.specs.Prelude.{◌<◌, length, IfOk, IsTrue, OnOk};
ghost use Rattle.std.specs.List.{All};
ghost use Rattle.std.specs.Ordering.{int_eq};
ghost use Rattle.enc_atoms.specs.Atoms.{Adds};
ghost use Rattle.enc_adder.specs.Comparing.{Tells};
ghost use Rattle.enc_adder.specs.Parts.{sum_of_parts};
ghost use Rattle.enc_atoms.specs.Steps.{HasTruth, IsReady};
ghost use Rattle.ep_base.specs.Numbers.{compare_holds};
ghost use Rattle.ep_flat.specs.Cons.{is_as_said, number_at};

use crate::adding::sum_of_numbers;
use crate::bits::new_constants;
use crate::comparing::compared;
use crate::sides::{level, sides_of};
use cnf_core::Formula;
use enc_atoms::{Atom, Place, add_clause, add_decided, add_guarded};
use enc_var::Layout;
use ep_base::{CompareOp, Memory};
use std::alloc::Global;

/// Adds that a variable is its number, or that the variable of a truth is 1 exactly where it is, and else 0.
fn add_told(
    alloc: Global,
    layout: &Layout,
    f: &mut Formula,
    truth: Option<u64>,
    told: Place,
) -> Result<(), Memory>
    requires ready { IsReady layout.now f.old }
    requires truth { HasTruth layout.now truth }
    requires told { told.0 < length layout.now }
    ensures { OnOk result (Adds layout.now f.old layout.now f.new
        (λ values. IsTrue (is_as_said values truth (int_eq (number_at values told.0) told.1)))) }
{
    let holds = [Atom::is(told.0, told.1)];
    let Some(t) = truth else {
        return add_clause(alloc, layout, f, &holds);
    };
    let fails = [Atom::is_not(told.0, told.1)];
    let on = [Atom::is_not(t, 1)];
    let off = [Atom::is_not(t, 0)];
    add_decided(alloc, layout, f, t)?;
    add_guarded(alloc, layout, f, &on, &holds)?;
    add_guarded(alloc, layout, f, &off, &fails)
}

/// A variable that is its number exactly where a sum compares so with a number.
fn told(
    alloc: Global,
    layout: &mut Layout,
    f: &mut Formula,
    parts: &[(i64, u64)],
    op: CompareOp,
    number: i64,
) -> Result<Place, Memory>
    requires ready { IsReady layout.old f.old }
    requires parts { All (λ part. part.1 < length layout.old) parts.now }
    ensures { IfOk result (Tells layout.old f.old layout.new f.new
        (λ values. compare_holds op (sum_of_parts values parts.now) number)) }
{
    let c = new_constants(alloc, layout, f)?;
    let mut sides = sides_of(alloc, layout, f, c, parts)?;
    level(alloc, c, &mut sides, number)?;
    let left = sum_of_numbers(alloc, layout, f, c.zero, sides.left)?;
    let right = sum_of_numbers(alloc, layout, f, c.zero, sides.right)?;
    compared(alloc, layout, f, c, &left.bits, op, &right.bits)
}

/// Adds that a sum compares so with a number, or that the variable of its truth says whether it does.
pub(crate) fn add_linear(
    alloc: Global,
    layout: &mut Layout,
    f: &mut Formula,
    truth: Option<u64>,
    parts: &[(i64, u64)],
    op: CompareOp,
    number: i64,
) -> Result<(), Memory>
    requires ready { IsReady layout.old f.old }
    requires truth { HasTruth layout.old truth }
    requires parts { All (λ part. part.1 < length layout.old) parts.now }
    ensures { OnOk result (Adds layout.old f.old layout.new f.new
        (λ values. IsTrue (is_as_said values truth (compare_holds op (sum_of_parts values parts.now) number)))) }
{
    let place = told(alloc, layout, f, parts, op, number)?;
    add_told(alloc, layout, f, truth, place)
}
