//! Numbers in binary, whose bits are variables of 0 and 1.

ghost use Rattle.std.specs.Prelude.{◌≡◌, ◌%◌, ℤ, List, pos, slice_index_or, IfOk};
ghost use Rattle.enc_adder.specs.Bits.{AreBits, AreNewConstants, HasConstants, IsNewConstant, spelled};
ghost use Rattle.enc_atoms.specs.Atoms.{AreOfDomains};
ghost use Rattle.enc_atoms.specs.Steps.{IsReady};
ghost use Rattle.enc_var.specs.Decoding.{VariableLiterals};

use cnf_core::Formula;
use enc_var::Layout;
use ep_base::{Memory, Run, Runs};
use std::alloc::Global;

/// A number in binary.
#[derive(Drop)]
pub struct Binary {
    /// Its bits, the lowest first.
    pub bits: Vec<u64>,
}

/// Variables of one number each, which serve as constant bits.
#[derive(Clone, Copy)]
pub struct Constants {
    /// It is always 0.
    pub zero: u64,
    /// It is always 1.
    pub one: u64,
}

/// A new variable that is always this number.
fn new_constant(
    alloc: Global,
    layout: &mut Layout,
    f: &mut Formula,
    number: i64,
) -> Result<u64, Memory>
    requires { IsReady layout.old f.old }
    ensures { IfOk result (IsNewConstant layout.old f.old layout.new f.new number) }
{
    let parts = vec![in alloc;
        Run {
            lo: number,
            hi: number
        },
    ]?;
    let domain = Runs::new(alloc, parts)?;
    layout.new_var(alloc, f, &domain)
}

/// New variables that are always 0 and always 1.
pub(crate) fn new_constants(
    alloc: Global,
    layout: &mut Layout,
    f: &mut Formula,
) -> Result<Constants, Memory>
    requires { IsReady layout.old f.old }
    ensures { IfOk result (AreNewConstants layout.old f.old layout.new f.new) }
{
    let zero = new_constant(alloc, layout, f, 0)?;
    let one = new_constant(alloc, layout, f, 1)?;
    Ok(Constants { zero, one })
}

/// The bit at a place, which is 0 behind the last one.
pub(crate) fn bit_at(bits: &[u64], place: usize, zero: u64) -> u64
    ensures { result ≡ slice_index_or bits.now place zero }
{
    if place < bits.len() {
        return bits[place];
    }
    zero
}

/// The variable that is always the lowest bit of a number.
fn constant_bit(c: Constants, number: u128) -> u64
    ensures odd { number % 2 ≡ 1 → result ≡ c.one }
    ensures even { number % 2 ≡ 0 → result ≡ c.zero }
{
    if number % 2 == 1 {
        return c.one;
    }
    c.zero
}

/// A constant number in binary.
pub(crate) fn constant(alloc: Global, c: Constants, number: u128) -> Result<Binary, Memory>
    ensures bits { IfOk result (λ made. (layout : List VariableLiterals) → HasConstants layout c → AreBits layout made.bits.items) }
    ensures spells { IfOk result (λ made. (layout : List VariableLiterals) (values : List ℤ) → HasConstants layout c
        → AreOfDomains layout values → spelled values made.bits.items ≡ pos number) }
{
    let mut bits = Vec::new(alloc);
    let mut rest = number;
    'halving: while rest > 0 {
        let bit = constant_bit(c, rest);
        bits.push(bit)?;
        rest /= 2;
    }
    Ok(Binary { bits })
}
