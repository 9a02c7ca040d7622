//! Two terms of a sum give way to a new one that stands for what they come to.

ghost use Rattle.std.specs.Prelude.{◌≡◌, ◌<◌, ◌+ℤ◌, ◌≤ℤ◌, ◌∷◌, pos, ℤ, List, length, true, IfOk, IsTrue, MatchOption, OnOk};
ghost use Rattle.std.specs.List.{All, Any};
ghost use Rattle.enc_atoms.specs.Atoms.{Adds};
ghost use Rattle.enc_linear.specs.Bounds.{HasBounds, HasSums, Reaches, StandsForSum, StaysWithin, clipped, needs_no_greater, needs_no_less};
ghost use Rattle.enc_linear.specs.Folding.{GiveWay};
ghost use Rattle.enc_linear.specs.Terms.{IsTermOf, worth_of};
ghost use Rattle.enc_linear.specs.declared.terms.Term.{Term};
ghost use Rattle.enc_var.specs.Layouts.{IsLayoutOf};
ghost use Rattle.ep_base.specs.Runs.{IsIn};

use crate::bounds::{Bounds, Clip, added, clip_for, clipped, opposite_clip};
use crate::comparison::{Comparison, needs_no_greater, needs_no_less};
use crate::making::{Raise, mirrored, raised};
use crate::new_terms::any_of;
use crate::sums::add_three;
use crate::terms::{Step, Term};
use cnf_core::Formula;
use enc_var::Layout;
use ep_base::{Memory, Run, Runs};
use std::alloc::Global;

/// What two steps are worth together, within a clip.
fn sum_of_steps(one: Step, other: Step, clip: Clip) -> Result<i64, Memory>
    ensures { IfOk result (λ sum. sum ≡ clipped clip.low clip.high (one.worth +ℤ other.worth)) }
{
    let sum = one.worth.checked_add(other.worth).ok_or(Memory)?;
    clipped(clip, sum)
}

/// Adds the sums of a step with each step of a term.
fn push_sums(runs: &mut Vec<Run>, step: Step, second: &Term, clip: Clip) -> Result<(), Memory>
    ensures kept { OnOk result ((number : ℤ) → Any (IsIn number) runs.old.items → Any (IsIn number) runs.new.items) }
    ensures sums { OnOk result
        (All (λ other. Any (IsIn (clipped clip.low clip.high (step.worth +ℤ other.worth))) runs.new.items) second.now.steps.items) }
{
    for other in &second.steps {
        let sum = sum_of_steps(step, *other, clip)?;
        runs.push(Run { lo: sum, hi: sum })?;
    }
    Ok(())
}

/// The numbers that two terms may come to, within a clip. Costs a sort of all sums.
fn sums_of(alloc: Global, first: &Term, second: &Term, clip: Clip) -> Result<Runs, Memory>
    ensures { IfOk result (λ set. HasSums clip.low clip.high set first.now second.now) }
{
    let mut runs = Vec::new(alloc);
    for step in &first.steps {
        push_sums(&mut runs, *step, second, clip)?;
    }
    Runs::new(alloc, runs)
}

/// Adds that three terms come to at most 0. There is a clause for each pair of steps of the two that have the fewest.
fn add_at_most_none(
    alloc: Global,
    layout: &Layout,
    f: &mut Formula,
    first: &Term,
    second: &Term,
    third: &Term,
) -> Result<(), Memory>
    requires from_new { IsTrue f.old.from_new }
    requires is_layout { IsLayoutOf layout.now f.old }
    requires first { IsTermOf layout.now f.old first.now }
    requires second { IsTermOf layout.now f.old second.now }
    requires third { IsTermOf layout.now f.old third.now }
    ensures { OnOk result (Adds layout.now f.old layout.now f.new
        (λ values. (worth_of values first.now +ℤ (worth_of values second.now +ℤ worth_of values third.now)) ≤ℤ pos 0)) }
{
    let sizes = [first.steps.len(), second.steps.len(), third.steps.len()];
    if sizes[0] >= sizes[1] && sizes[0] >= sizes[2] {
        return add_three(alloc, layout, f, &[], second, third, first, 0);
    }
    if sizes[1] >= sizes[2] {
        return add_three(alloc, layout, f, &[], first, third, second, 0);
    }
    add_three(alloc, layout, f, &[], first, second, third, 0)
}

/// What has to be added to a number so that it is no less than what two terms come to.
fn raise_to(first: &Term, second: &Term, from: i128) -> Result<Raise, Memory>
    ensures from { IfOk result (λ raise. raise.from ≡ from) }
    ensures natural { IfOk result (λ raise. pos 0 ≤ℤ raise.by) }
    ensures far { IfOk result (λ raise.
        (first.now.bounds.greatest +ℤ second.now.bounds.greatest) ≤ℤ (from +ℤ raise.by)) }
{
    let most = added(first.bounds, second.bounds)?;
    if most.greatest <= from {
        return Ok(Raise { from, by: 0 });
    }
    let by = most.greatest.checked_sub(from).ok_or(Memory)?;
    Ok(Raise { from, by })
}

/// Adds that a term is worth as much as two others, or more, or at least the upper end of a clip.
fn add_reach(
    alloc: Global,
    layout: &Layout,
    f: &mut Formula,
    first: &Term,
    second: &Term,
    sum: &Term,
    clip: Clip,
) -> Result<(), Memory>
    requires from_new { IsTrue f.old.from_new }
    requires is_layout { IsLayoutOf layout.now f.old }
    requires first { IsTermOf layout.now f.old first.now }
    requires second { IsTermOf layout.now f.old second.now }
    requires sum { IsTermOf layout.now f.old sum.now }
    ensures { OnOk result (Adds layout.now f.old layout.now f.new (Reaches clip.high first.now second.now sum.now)) }
{
    let raise = raise_to(first, second, clip.high)?;
    let high = raised(alloc, sum, raise)?;
    let opposite = mirrored(alloc, &high)?;
    add_at_most_none(alloc, layout, f, first, second, &opposite)
}

/// Adds that a term is worth as much as two others, or less, or at most the lower end of a clip.
fn add_stay(
    alloc: Global,
    layout: &Layout,
    f: &mut Formula,
    first: &Term,
    second: &Term,
    sum: &Term,
    clip: Clip,
) -> Result<(), Memory>
    requires from_new { IsTrue f.old.from_new }
    requires is_layout { IsLayoutOf layout.now f.old }
    requires first { IsTermOf layout.now f.old first.now }
    requires second { IsTermOf layout.now f.old second.now }
    requires sum { IsTermOf layout.now f.old sum.now }
    ensures { OnOk result (Adds layout.now f.old layout.now f.new (StaysWithin clip.low first.now second.now sum.now)) }
{
    let one = mirrored(alloc, first)?;
    let other = mirrored(alloc, second)?;
    let both = mirrored(alloc, sum)?;
    let opposite = opposite_clip(clip)?;
    add_reach(alloc, layout, f, &one, &other, &both, opposite)
}

/// Adds that a term is no less than what two others come to, as far as a comparison needs that.
fn add_no_less(
    alloc: Global,
    layout: &Layout,
    f: &mut Formula,
    first: &Term,
    second: &Term,
    sum: &Term,
    clip: Clip,
    c: Comparison,
) -> Result<(), Memory>
    requires from_new { IsTrue f.old.from_new }
    requires is_layout { IsLayoutOf layout.now f.old }
    requires first { IsTermOf layout.now f.old first.now }
    requires second { IsTermOf layout.now f.old second.now }
    requires sum { IsTermOf layout.now f.old sum.now }
    ensures { OnOk result (Adds layout.now f.old layout.now f.new
        (λ values. needs_no_less c ≡ true → Reaches clip.high first.now second.now sum.now values)) }
{
    if !needs_no_less(c) {
        return Ok(());
    }
    add_reach(alloc, layout, f, first, second, sum, clip)
}

/// Adds that a term is no greater than what two others come to, as far as a comparison needs that.
fn add_no_greater(
    alloc: Global,
    layout: &Layout,
    f: &mut Formula,
    first: &Term,
    second: &Term,
    sum: &Term,
    clip: Clip,
    c: Comparison,
) -> Result<(), Memory>
    requires from_new { IsTrue f.old.from_new }
    requires is_layout { IsLayoutOf layout.now f.old }
    requires first { IsTermOf layout.now f.old first.now }
    requires second { IsTermOf layout.now f.old second.now }
    requires sum { IsTermOf layout.now f.old sum.now }
    ensures { OnOk result (Adds layout.now f.old layout.now f.new
        (λ values. needs_no_greater c ≡ true → StaysWithin clip.low first.now second.now sum.now values)) }
{
    if !needs_no_greater(c) {
        return Ok(());
    }
    add_stay(alloc, layout, f, first, second, sum, clip)
}

/// Adds that a term stands for the sum of two others, as far as a comparison needs it.
fn add_tie(
    alloc: Global,
    layout: &Layout,
    f: &mut Formula,
    first: &Term,
    second: &Term,
    sum: &Term,
    clip: Clip,
    c: Comparison,
) -> Result<(), Memory>
    requires from_new { IsTrue f.old.from_new }
    requires is_layout { IsLayoutOf layout.now f.old }
    requires first { IsTermOf layout.now f.old first.now }
    requires second { IsTermOf layout.now f.old second.now }
    requires sum { IsTermOf layout.now f.old sum.now }
    ensures { OnOk result (Adds layout.now f.old layout.now f.new
        (StandsForSum c clip.low clip.high first.now second.now sum.now)) }
{
    add_no_less(alloc, layout, f, first, second, sum, clip, c)?;
    add_no_greater(alloc, layout, f, first, second, sum, clip, c)
}

/// A new term that stands for the sum of two terms of a sum, if its other terms lie within bounds.
///
/// Costs a clause for each pair of steps of the two terms, or of one and the new term, if that has fewer.
pub(crate) fn joined(
    alloc: Global,
    layout: &mut Layout,
    f: &mut Formula,
    first: &Term,
    second: &Term,
    rest: Bounds,
    c: Comparison,
) -> Result<Term, Memory>
    requires from_new { IsTrue f.old.from_new }
    requires is_layout { IsLayoutOf layout.old f.old }
    requires truth { MatchOption c.truth (length layout.old ≡ length layout.old) (λ t. t < length layout.old) }
    requires first { IsTermOf layout.old f.old first.now }
    requires second { IsTermOf layout.old f.old second.now }
    ensures { IfOk result (λ sum. (others : List Term) → All (IsTermOf layout.old f.old) others → HasBounds rest others
        → GiveWay c layout.old f.old (first.now ∷ second.now ∷ others) layout.new f.new (sum ∷ others)) }
{
    let clip = clip_for(rest, c.number)?;
    let domain = sums_of(alloc, first, second, clip)?;
    let sum = any_of(alloc, layout, f, &domain)?;
    add_tie(alloc, layout, f, first, second, &sum, clip, c)?;
    Ok(sum)
}
