//! The two sides of a comparison: parts with a positive coefficient on the left, those with a negative one on the right.

ghost use Rattle.std.specs.Prelude.{◌≡◌, ◌<◌, ◌+ℤ◌, ◌*ℤ◌, ◌<ℤ◌, ◌≤ℤ◌, neg_ℤ, List, pos, length, IfOk, OnOk};
ghost use Rattle.std.specs.List.{All};
ghost use Rattle.enc_adder.specs.Bits.{AreNumbers, HasConstants};
ghost use Rattle.enc_adder.specs.Parts.{HasSides, Levels, Moves, difference, sum_of_parts};
ghost use Rattle.enc_atoms.specs.Steps.{IsReady};
ghost use Rattle.enc_var.specs.Decoding.{VariableLiterals};
ghost use Rattle.enc_var.specs.Layouts.{literals_at};
ghost use Rattle.ep_flat.specs.Cons.{number_at};

use crate::bits::{Binary, Constants, constant};
use crate::parts::part;
use cnf_core::Formula;
use enc_var::Layout;
use ep_base::Memory;
use std::alloc::Global;

/// The sides, and what is left over: what the parts come to is the left side less the right one, and that.
#[derive(Drop)]
pub struct Sides {
    /// The numbers on the left.
    pub left: Vec<Binary>,
    /// The numbers on the right.
    pub right: Vec<Binary>,
    /// What is left over.
    pub rest: i128,
}

/// The least number of a variable, and 0 where it has none.
fn least_of(layout: &Layout, var: u64) -> i64
    requires { var < length layout.now }
    ensures { All (λ v. result ≤ℤ v) (literals_at layout.now var).domain }
{
    match layout.domain(var).runs() {
        [] => 0,
        [first, ..] => first.lo,
    }
}

/// How far a number is from 0.
fn distance(number: i128) -> u128
    ensures above { pos 0 <ℤ number → pos result ≡ number }
    ensures below { number ≤ℤ pos 0 → pos result ≡ neg_ℤ number }
{
    number.unsigned_abs()
}

/// Puts what is left over on the side on which it is positive, so that nothing is left over.
fn put_aside(alloc: Global, c: Constants, sides: &mut Sides) -> Result<(), Memory>
    ensures moves { OnOk result ((layout : List VariableLiterals) → HasConstants layout c
        → Moves layout sides.old sides.new (pos 0)) }
    ensures none { OnOk result (sides.new.rest ≡ pos 0) }
{
    let over = sides.rest;
    let remains = constant(alloc, c, distance(over))?;
    sides.rest = 0;
    if 0 < over {
        sides.left.push(remains)?;
    } else {
        sides.right.push(remains)?;
    }
    Ok(())
}

/// Adds a number to what is left over. Where both together are too far for a word, what was left over goes to its side.
fn add_rest(alloc: Global, c: Constants, sides: &mut Sides, number: i128) -> Result<(), Memory>
    ensures { OnOk result ((layout : List VariableLiterals) → HasConstants layout c
        → Moves layout sides.old sides.new number) }
{
    if let Some(sum) = sides.rest.checked_add(number) {
        sides.rest = sum;
        return Ok(());
    }
    put_aside(alloc, c, sides)?;
    sides.rest = number;
    Ok(())
}

/// Adds a part to the side on which its coefficient is positive.
fn add_part(
    alloc: Global,
    layout: &mut Layout,
    f: &mut Formula,
    c: Constants,
    sides: &mut Sides,
    coefficient: i64,
    var: u64,
) -> Result<(), Memory>
    requires ready { IsReady layout.old f.old }
    requires constants { HasConstants layout.old c }
    requires var { var < length layout.old }
    requires left { AreNumbers layout.old sides.old.left.items }
    requires right { AreNumbers layout.old sides.old.right.items }
    ensures { OnOk result (HasSides layout.old f.old layout.new f.new
        (λ values. difference values sides.old +ℤ (coefficient *ℤ number_at values var)) sides.new) }
{
    let least = least_of(layout, var);
    let size = i128::from(coefficient);
    let shift = size * i128::from(least);
    add_rest(alloc, c, sides, shift)?;
    if size < 0 {
        let number = part(alloc, layout, f, c.zero, var, least, -size)?;
        sides.right.push(number)?;
    } else {
        let number = part(alloc, layout, f, c.zero, var, least, size)?;
        sides.left.push(number)?;
    }
    Ok(())
}

/// The sides of a sum of parts.
pub(crate) fn sides_of(
    alloc: Global,
    layout: &mut Layout,
    f: &mut Formula,
    c: Constants,
    parts: &[(i64, u64)],
) -> Result<Sides, Memory>
    requires ready { IsReady layout.old f.old }
    requires constants { HasConstants layout.old c }
    requires parts { All (λ part. part.1 < length layout.old) parts.now }
    ensures { IfOk result (HasSides layout.old f.old layout.new f.new (λ values. sum_of_parts values parts.now)) }
{
    let mut sides = Sides {
        left: Vec::new(alloc),
        right: Vec::new(alloc),
        rest: 0,
    };
    for part in parts {
        add_part(alloc, layout, f, c, &mut sides, part.0, part.1)?;
    }
    Ok(sides)
}

/// Takes a number from what is left over, and adds what remains to the side on which it is positive, so that nothing is
/// left over.
pub(crate) fn level(
    alloc: Global,
    c: Constants,
    sides: &mut Sides,
    number: i64,
) -> Result<(), Memory>
    ensures { OnOk result ((layout : List VariableLiterals) → HasConstants layout c
        → Levels layout sides.old sides.new number) }
{
    let less = -i128::from(number);
    add_rest(alloc, c, sides, less)?;
    put_aside(alloc, c, sides)?;
    Ok(())
}
