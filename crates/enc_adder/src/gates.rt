//! New bits that few others determine.

ghost use Rattle.std.specs.Prelude.{◌≡◌, pos, length, IfOk, OnOk};
ghost use Rattle.enc_atoms.specs.Atoms.{Adds};
ghost use Rattle.enc_adder.specs.Bits.{HasBit, IsAbove, IsAlike, IsBit, IsConstant, IsSum};
ghost use Rattle.enc_adder.specs.Adding.{HasSum};
ghost use Rattle.enc_atoms.specs.Steps.{HasTruths, IsReady};

use crate::rows::add_rows;
use cnf_core::Formula;
use enc_atoms::new_truths;
use enc_var::Layout;
use ep_base::Memory;
use std::alloc::Global;

/// A new variable of 0 and 1.
pub(crate) fn new_bit(alloc: Global, layout: &mut Layout, f: &mut Formula) -> Result<u64, Memory>
    requires { IsReady layout.old f.old }
    ensures number { IfOk result (λ bit. bit ≡ length layout.old) }
    ensures new { OnOk result (HasTruths layout.old f.old layout.new f.new 1) }
{
    let made = new_truths(alloc, layout, f, 1)?;
    Ok(made[0])
}

/// Adds that two bits spell the sum of three.
fn add_sum(
    alloc: Global,
    layout: &Layout,
    f: &mut Formula,
    a: u64,
    b: u64,
    c: u64,
    low: u64,
    high: u64,
) -> Result<(), Memory>
    requires ready { IsReady layout.now f.old }
    requires a { IsBit layout.now a }
    requires b { IsBit layout.now b }
    requires c { IsBit layout.now c }
    requires low { IsBit layout.now low }
    requires high { IsBit layout.now high }
    ensures { OnOk result (Adds layout.now f.old layout.now f.new (IsSum a b c low high)) }
{
    let rows = [
        ((a, 0), (b, 0), (c, 0), (low, 0)),
        ((a, 1), (b, 0), (c, 0), (low, 1)),
        ((a, 0), (b, 1), (c, 0), (low, 1)),
        ((a, 1), (b, 1), (c, 0), (low, 0)),
        ((a, 0), (b, 0), (c, 1), (low, 1)),
        ((a, 1), (b, 0), (c, 1), (low, 0)),
        ((a, 0), (b, 1), (c, 1), (low, 0)),
        ((a, 1), (b, 1), (c, 1), (low, 1)),
        ((a, 0), (a, 0), (b, 0), (high, 0)),
        ((a, 1), (a, 1), (b, 1), (high, 1)),
        ((a, 0), (a, 0), (c, 0), (high, 0)),
        ((a, 1), (a, 1), (c, 1), (high, 1)),
        ((b, 0), (b, 0), (c, 0), (high, 0)),
        ((b, 1), (b, 1), (c, 1), (high, 1)),
    ];
    add_rows(alloc, layout, f, &rows)
}

/// Two new bits that spell the sum of three, the low one first.
fn new_sum(
    alloc: Global,
    layout: &mut Layout,
    f: &mut Formula,
    a: u64,
    b: u64,
    c: u64,
) -> Result<(u64, u64), Memory>
    requires ready { IsReady layout.old f.old }
    requires a { IsBit layout.old a }
    requires b { IsBit layout.old b }
    requires c { IsBit layout.old c }
    ensures { IfOk result (HasSum layout.old f.old layout.new f.new a b c) }
{
    let made = new_truths(alloc, layout, f, 2)?;
    let (low, high) = (made[0], made[1]);
    add_sum(alloc, layout, f, a, b, c, low, high)?;
    Ok((low, high))
}

/// Two bits that spell the sum of three, the low one first. Where two of the three are always 0 no new ones are needed.
pub(crate) fn summed(
    alloc: Global,
    layout: &mut Layout,
    f: &mut Formula,
    zero: u64,
    a: u64,
    b: u64,
    c: u64,
) -> Result<(u64, u64), Memory>
    requires ready { IsReady layout.old f.old }
    requires zero { IsConstant layout.old zero (pos 0) }
    requires a { IsBit layout.old a }
    requires b { IsBit layout.old b }
    requires c { IsBit layout.old c }
    ensures { IfOk result (HasSum layout.old f.old layout.new f.new a b c) }
{
    if b == zero && c == zero {
        return Ok((a, zero));
    }
    if a == zero && c == zero {
        return Ok((b, zero));
    }
    if a == zero && b == zero {
        return Ok((c, zero));
    }
    new_sum(alloc, layout, f, a, b, c)
}

/// Adds that a bit is 1 exactly where the first is greater than the second, or they are alike and the bit before is 1.
fn add_above(
    alloc: Global,
    layout: &Layout,
    f: &mut Formula,
    a: u64,
    b: u64,
    before: u64,
    above: u64,
) -> Result<(), Memory>
    requires ready { IsReady layout.now f.old }
    requires a { IsBit layout.now a }
    requires b { IsBit layout.now b }
    requires before { IsBit layout.now before }
    requires above { IsBit layout.now above }
    ensures { OnOk result (Adds layout.now f.old layout.now f.new (λ values. IsAbove a b before values above)) }
{
    let rows = [
        ((a, 1), (a, 1), (b, 0), (above, 1)),
        ((a, 0), (a, 0), (b, 1), (above, 0)),
        ((a, 1), (a, 1), (before, 1), (above, 1)),
        ((a, 0), (a, 0), (before, 0), (above, 0)),
        ((b, 0), (b, 0), (before, 1), (above, 1)),
        ((b, 1), (b, 1), (before, 0), (above, 0)),
    ];
    add_rows(alloc, layout, f, &rows)
}

/// A new bit that is 1 exactly where the first is greater than the second, or they are alike and the bit before is 1.
pub(crate) fn new_above(
    alloc: Global,
    layout: &mut Layout,
    f: &mut Formula,
    a: u64,
    b: u64,
    before: u64,
) -> Result<u64, Memory>
    requires ready { IsReady layout.old f.old }
    requires a { IsBit layout.old a }
    requires b { IsBit layout.old b }
    requires before { IsBit layout.old before }
    ensures { IfOk result (HasBit layout.old f.old layout.new f.new (IsAbove a b before)) }
{
    let above = new_bit(alloc, layout, f)?;
    add_above(alloc, layout, f, a, b, before, above)?;
    Ok(above)
}

/// Adds that a bit is 1 exactly where two are alike and the bit before is 1.
fn add_alike(
    alloc: Global,
    layout: &Layout,
    f: &mut Formula,
    a: u64,
    b: u64,
    before: u64,
    alike: u64,
) -> Result<(), Memory>
    requires ready { IsReady layout.now f.old }
    requires a { IsBit layout.now a }
    requires b { IsBit layout.now b }
    requires before { IsBit layout.now before }
    requires alike { IsBit layout.now alike }
    ensures { OnOk result (Adds layout.now f.old layout.now f.new (λ values. IsAlike a b before values alike)) }
{
    let rows = [
        ((alike, 1), (alike, 1), (alike, 1), (before, 1)),
        ((alike, 1), (alike, 1), (a, 0), (b, 0)),
        ((alike, 1), (alike, 1), (a, 1), (b, 1)),
        ((before, 1), (a, 0), (b, 0), (alike, 1)),
        ((before, 1), (a, 1), (b, 1), (alike, 1)),
    ];
    add_rows(alloc, layout, f, &rows)
}

/// A new bit that is 1 exactly where two are alike and the bit before is 1.
pub(crate) fn new_alike(
    alloc: Global,
    layout: &mut Layout,
    f: &mut Formula,
    a: u64,
    b: u64,
    before: u64,
) -> Result<u64, Memory>
    requires ready { IsReady layout.old f.old }
    requires a { IsBit layout.old a }
    requires b { IsBit layout.old b }
    requires before { IsBit layout.old before }
    ensures { IfOk result (HasBit layout.old f.old layout.new f.new (IsAlike a b before)) }
{
    let alike = new_bit(alloc, layout, f)?;
    add_alike(alloc, layout, f, a, b, before, alike)?;
    Ok(alike)
}
