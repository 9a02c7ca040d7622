//! Sums of numbers in binary.

ghost use Rattle.std.specs.Prelude.{◌+ℤ◌, pos, IfOk};
ghost use Rattle.std.specs.List.Sorted.{IsPermutation};
ghost use Rattle.enc_adder.specs.Bits.{AreBits, AreNumbers, IsConstant, SpellsNumber, spelled, total};
ghost use Rattle.enc_atoms.specs.Steps.{IsReady};

use crate::bits::{Binary, bit_at};
use crate::gates::summed;
use cnf_core::Formula;
use enc_var::Layout;
use ep_base::Memory;
use std::alloc::Global;
use std::collections::VecDeque;

/// Bits that spell the sum of two numbers, with a carry from place to place.
fn added(
    alloc: Global,
    layout: &mut Layout,
    f: &mut Formula,
    zero: u64,
    one: &[u64],
    other: &[u64],
) -> Result<Binary, Memory>
    requires ready { IsReady layout.old f.old }
    requires zero { IsConstant layout.old zero (pos 0) }
    requires one { AreBits layout.old one.now }
    requires other { AreBits layout.old other.now }
    ensures { IfOk result (λ sum. SpellsNumber layout.old f.old layout.new f.new
        (λ values. spelled values one.now +ℤ spelled values other.now) sum.bits.items) }
{
    let mut bits = Vec::new(alloc);
    let mut carry = zero;
    for place in 0..one.len().max(other.len()) {
        let a = bit_at(one, place, zero);
        let b = bit_at(other, place, zero);
        let (low, high) = summed(alloc, layout, f, zero, a, b, carry)?;
        bits.push(low)?;
        carry = high;
    }
    bits.push(carry)?;
    Ok(Binary { bits })
}

/// The numbers in order, that of the fewest bits first.
fn in_order(numbers: Vec<Binary>) -> Result<VecDeque<Binary>, Memory>
    ensures { IfOk result (λ sorted. IsPermutation numbers.items sorted.items) }
{
    let mut list = numbers;
    list.sort_by_key(|number| number.bits.len())?;
    Ok(VecDeque::from_vec(list))
}

/// Bits that spell the sum of numbers. Two of the shortest ones are added first.
pub(crate) fn sum_of_numbers(
    alloc: Global,
    layout: &mut Layout,
    f: &mut Formula,
    zero: u64,
    numbers: Vec<Binary>,
) -> Result<Binary, Memory>
    requires ready { IsReady layout.old f.old }
    requires zero { IsConstant layout.old zero (pos 0) }
    requires numbers { AreNumbers layout.old numbers.items }
    ensures { IfOk result (λ sum. SpellsNumber layout.old f.old layout.new f.new
        (λ values. total values numbers.items) sum.bits.items) }
{
    let mut queue = in_order(numbers)?;
    'pairs: while let Some(one) = queue.pop_front() {
        let Some(other) = queue.pop_front() else {
            return Ok(one);
        };
        let sum = added(alloc, layout, f, zero, &one.bits, &other.bits)?;
        queue.push_back(sum)?;
    }
    Ok(Binary {
        bits: Vec::new(alloc),
    })
}
