//! Comparisons of numbers in binary.

ghost use Rattle.std.specs.Prelude.{◌≡◌, ◌↔◌, ◌<ℤ◌, pos, IfOk};
ghost use Rattle.enc_adder.specs.Bits.{AreBits, HasBit, HasConstants, IsConstant, spelled};
ghost use Rattle.enc_adder.specs.Comparing.{Tells};
ghost use Rattle.enc_atoms.specs.Steps.{IsReady};
ghost use Rattle.ep_base.specs.Numbers.{compare_holds};
ghost use Rattle.ep_flat.specs.Cons.{number_at};

use crate::bits::{Constants, bit_at};
use crate::gates::{new_above, new_alike};
use cnf_core::Formula;
use enc_atoms::Place;
use enc_var::Layout;
use ep_base::{CompareOp, Memory};
use std::alloc::Global;

/// A bit that is 1 exactly where the first number is greater than the second.
fn greater(
    alloc: Global,
    layout: &mut Layout,
    f: &mut Formula,
    zero: u64,
    one: &[u64],
    other: &[u64],
) -> Result<u64, Memory>
    requires ready { IsReady layout.old f.old }
    requires zero { IsConstant layout.old zero (pos 0) }
    requires one { AreBits layout.old one.now }
    requires other { AreBits layout.old other.now }
    ensures { IfOk result (HasBit layout.old f.old layout.new f.new
        (λ values x. (number_at values x ≡ pos 1) ↔ (spelled values other.now <ℤ spelled values one.now))) }
{
    let mut above = zero;
    for place in 0..one.len().max(other.len()) {
        let a = bit_at(one, place, zero);
        let b = bit_at(other, place, zero);
        above = new_above(alloc, layout, f, a, b, above)?;
    }
    Ok(above)
}

/// A bit that is 1 exactly where two numbers are equal.
fn equal(
    alloc: Global,
    layout: &mut Layout,
    f: &mut Formula,
    c: Constants,
    one: &[u64],
    other: &[u64],
) -> Result<u64, Memory>
    requires ready { IsReady layout.old f.old }
    requires constants { HasConstants layout.old c }
    requires one { AreBits layout.old one.now }
    requires other { AreBits layout.old other.now }
    ensures { IfOk result (HasBit layout.old f.old layout.new f.new
        (λ values x. (number_at values x ≡ pos 1) ↔ (spelled values one.now ≡ spelled values other.now))) }
{
    let mut alike = c.one;
    for place in 0..one.len().max(other.len()) {
        let a = bit_at(one, place, c.zero);
        let b = bit_at(other, place, c.zero);
        alike = new_alike(alloc, layout, f, a, b, alike)?;
    }
    Ok(alike)
}

/// A bit with the number that it has exactly where two numbers compare so.
pub(crate) fn compared(
    alloc: Global,
    layout: &mut Layout,
    f: &mut Formula,
    c: Constants,
    one: &[u64],
    op: CompareOp,
    other: &[u64],
) -> Result<Place, Memory>
    requires ready { IsReady layout.old f.old }
    requires constants { HasConstants layout.old c }
    requires one { AreBits layout.old one.now }
    requires other { AreBits layout.old other.now }
    ensures { IfOk result (Tells layout.old f.old layout.new f.new
        (λ values. compare_holds op (spelled values one.now) (spelled values other.now))) }
{
    match op {
        CompareOp::Equal => {
            let bit = equal(alloc, layout, f, c, one, other)?;
            Ok((bit, 1))
        }
        CompareOp::NotEqual => {
            let bit = equal(alloc, layout, f, c, one, other)?;
            Ok((bit, 0))
        }
        CompareOp::Less => {
            let bit = greater(alloc, layout, f, c.zero, other, one)?;
            Ok((bit, 1))
        }
        CompareOp::AtMost => {
            let bit = greater(alloc, layout, f, c.zero, one, other)?;
            Ok((bit, 0))
        }
        CompareOp::Greater => {
            let bit = greater(alloc, layout, f, c.zero, one, other)?;
            Ok((bit, 1))
        }
        CompareOp::AtLeast => {
            let bit = greater(alloc, layout, f, c.zero, other, one)?;
            Ok((bit, 0))
        }
    }
}
