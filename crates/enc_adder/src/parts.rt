//! Parts of sums in binary: a variable with a coefficient that is never negative, as the distance from a number.

ghost use Rattle.std.specs.Prelude.{◌≡◌, ◌↔◌, ◌<◌, ◌≤ℤ◌, ◌-ℤ◌, ◌*ℤ◌, ℕ, ℤ, pos, true, false, length, map, IfOk, OnOk};
ghost use Rattle.std.specs.List.{All};
ghost use Rattle.enc_adder.specs.Bits.{HasBit, IsBit, IsConstant, SpellsNumber};
ghost use Rattle.enc_adder.specs.Parts.{AreStepsOf, HaveWorths, IsSizeOfCoefficient, half_step, low_bit as low_bit_is};
ghost use Rattle.enc_atoms.specs.Atoms.{Adds};
ghost use Rattle.enc_atoms.specs.Steps.{IsReady};
ghost use Rattle.enc_var.specs.Layouts.{literals_at};
ghost use Rattle.ep_flat.specs.Cons.{number_at};

use crate::bits::Binary;
use crate::gates::new_bit;
use cnf_core::Formula;
use enc_atoms::add_implied;
use enc_var::Layout;
use ep_base::Memory;
use ep_numbers::listed;
use std::alloc::Global;

/// A number of a variable, and what it is worth.
#[derive(Clone, Copy)]
pub struct Step {
    /// The number.
    pub value: i64,
    /// What it is worth.
    pub worth: u128,
}

/// The lowest bit of a number.
#[tactic(auto, unfolding(crate::specs::Parts::low_bit))]
fn low_bit(number: u128) -> i64
    ensures { result ≡ low_bit_is number }
{
    if number % 2 == 1 {
        return 1;
    }
    0
}

/// What a number is worth: its distance from one that is no greater, so many times.
fn step_from(value: i64, least: i64, size: i128) -> Step
    requires above { least ≤ℤ value }
    requires size { IsSizeOfCoefficient size }
    ensures value { result.value ≡ value }
    ensures worth { pos result.worth ≡ size *ℤ (value -ℤ least) }
{
    let distance = i128::from(value) - i128::from(least);
    let product = size * distance;
    let worth = product.unsigned_abs();
    Step { value, worth }
}

/// The numbers of a variable, each with so many times its distance from a number that is no greater.
fn steps_of(
    alloc: Global,
    layout: &Layout,
    var: u64,
    least: i64,
    size: i128,
) -> Result<Vec<Step>, Memory>
    requires var { var < length layout.now }
    requires least { All (λ v. least ≤ℤ v) (literals_at layout.now var).domain }
    requires size { IsSizeOfCoefficient size }
    ensures steps { IfOk result (λ steps. AreStepsOf layout.now var steps.items) }
    ensures worths { IfOk result (λ steps. All (λ step. pos step.worth ≡ size *ℤ (step.value -ℤ least)) steps.items) }
{
    let values = listed(alloc, layout.domain(var))?;
    let mut steps = Vec::new(alloc);
    for value in &values {
        let step = step_from(*value, least, size);
        steps.push(step)?;
    }
    Ok(steps)
}

/// Whether each step is worth nothing.
fn are_worthless(steps: &[Step]) -> bool
    ensures { (result ≡ true) ↔ All (λ step. step.worth ≡ 0) steps.now }
{
    steps.iter().all(|step| step.worth == 0)
}

/// Whether each step has the lowest bit 0.
fn are_even(steps: &[Step]) -> bool
    ensures { result ≡ true → All (λ step. low_bit_is step.worth ≡ pos 0) steps.now }
{
    steps.iter().all(|step| low_bit(step.worth) == 0)
}

/// Whether the number of each step is the lowest bit of what it is worth.
fn are_themselves(steps: &[Step]) -> bool
    ensures { result ≡ true → All (λ step. low_bit_is step.worth ≡ step.value) steps.now }
{
    steps.iter().all(|step| low_bit(step.worth) == step.value)
}

/// A step with half of what it is worth.
#[tactic(auto, unfolding(crate::specs::Parts::half_step))]
fn half(step: Step) -> Step
    ensures { result ≡ half_step step }
{
    Step {
        value: step.value,
        worth: step.worth / 2,
    }
}

/// The steps with half of what they are worth.
fn halved(alloc: Global, steps: &[Step]) -> Result<Vec<Step>, Memory>
    ensures { IfOk result (λ halves. halves.items ≡ map half_step steps.now) }
{
    let mut halves = Vec::new(alloc);
    for step in steps {
        let one = half(*step);
        halves.push(one)?;
    }
    Ok(halves)
}

/// Adds that a bit is the lowest one of what the number of a variable is worth.
fn add_low_bits(
    alloc: Global,
    layout: &Layout,
    f: &mut Formula,
    var: u64,
    steps: &[Step],
    bit: u64,
) -> Result<(), Memory>
    requires ready { IsReady layout.now f.old }
    requires var { var < length layout.now }
    requires bit { bit < length layout.now }
    ensures { OnOk result (Adds layout.now f.old layout.now f.new
        (λ values. All (λ step. number_at values var ≡ step.value → number_at values bit ≡ low_bit_is step.worth) steps.now)) }
{
    for step in steps {
        let low = low_bit(step.worth);
        add_implied(alloc, layout, f, &[], (var, step.value), (bit, low))?;
    }
    Ok(())
}

/// The lowest bit of what the number of a variable is worth. Where it is 0 always, or the number itself, no new one is
/// needed.
fn low_bit_of(
    alloc: Global,
    layout: &mut Layout,
    f: &mut Formula,
    zero: u64,
    var: u64,
    steps: &[Step],
) -> Result<u64, Memory>
    requires ready { IsReady layout.old f.old }
    requires zero { IsConstant layout.old zero (pos 0) }
    requires var { var < length layout.old }
    requires steps { AreStepsOf layout.old var steps.now }
    ensures { IfOk result (λ bit. (worth : ℤ → ℕ) → HaveWorths worth steps.now
        → HasBit layout.old f.old layout.new f.new (λ values x. number_at values x ≡ low_bit_is (worth (number_at values var))) bit) }
{
    if are_even(steps) {
        return Ok(zero);
    }
    if are_themselves(steps) {
        return Ok(var);
    }
    let bit = new_bit(alloc, layout, f)?;
    add_low_bits(alloc, layout, f, var, steps, bit)?;
    Ok(bit)
}

/// So many times the distance of a variable from a number, in binary.
pub(crate) fn part(
    alloc: Global,
    layout: &mut Layout,
    f: &mut Formula,
    zero: u64,
    var: u64,
    least: i64,
    size: i128,
) -> Result<Binary, Memory>
    requires ready { IsReady layout.old f.old }
    requires zero { IsConstant layout.old zero (pos 0) }
    requires var { var < length layout.old }
    requires least { All (λ v. least ≤ℤ v) (literals_at layout.old var).domain }
    requires size { IsSizeOfCoefficient size }
    ensures { IfOk result (λ made. SpellsNumber layout.old f.old layout.new f.new
        (λ values. size *ℤ (number_at values var -ℤ least)) made.bits.items) }
{
    let mut steps = steps_of(alloc, layout, var, least, size)?;
    let mut bits = Vec::new(alloc);
    'halving: while !are_worthless(&steps) {
        let bit = low_bit_of(alloc, layout, f, zero, var, &steps)?;
        bits.push(bit)?;
        steps = halved(alloc, &steps)?;
    }
    Ok(Binary { bits })
}
