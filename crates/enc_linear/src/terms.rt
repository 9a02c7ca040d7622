//! Terms of sums: what has a number that is worth something.

ghost use Rattle.std.specs.Prelude.{◌≡◌, ◌≢◌, ◌≤◌, ◌<ℤ◌, ◌≤ℤ◌, true, false, length, IfOk, MatchOption};
ghost use Rattle.std.specs.List.{All, AllPairs, AllWithin, Contains};
ghost use Rattle.enc_linear.specs.Terms.{AreInOrder, HasOrderedSteps, SaysOfSteps, SaysOfTerm};

use crate::bounds::Bounds;
use crate::sources::{Source, above, at_most};
use enc_atoms::Atom;
use ep_base::Memory;

/// A number, and what the term is worth there.
#[derive(Clone, Copy, Debug, PartialEq, Eq)]
pub struct Step {
    /// The number.
    pub value: i64,
    /// What the term is worth.
    pub worth: i128,
}

/// What has a number that is worth something: the greater, the more, or the greater, the less.
#[derive(Debug, Drop)]
pub struct Term {
    /// What has the number.
    pub source: Source,
    /// Whether greater numbers are worth more.
    pub rising: bool,
    /// The numbers in ascending order.
    pub steps: Vec<Step>,
    /// Between which numbers lies what it is worth.
    pub bounds: Bounds,
}

/// "It is worth less than at this step."
pub(crate) fn less_than(term: &Term, step: Step) -> Result<Atom, Memory>
    requires ordered { HasOrderedSteps term.now }
    requires step { Contains term.now.steps.items step }
    ensures { IfOk result (λ atom. SaysOfTerm term.now atom (λ worth. worth <ℤ step.worth)) }
{
    if term.rising {
        let below = step.value.checked_sub(1).ok_or(Memory)?;
        return at_most(term.source, below);
    }
    above(term.source, step.value)
}

/// How many of some steps that are worth more and more are worth at most so much, by binary search.
fn count_up_to(steps: &[Step], most: i128) -> usize
    requires { AllPairs (AreInOrder true) steps.now }
    ensures bound { result ≤ length steps.now }
    ensures before { AllWithin (λ step. step.worth ≤ℤ most) steps.now 0 result }
    ensures behind { AllWithin (λ step. most <ℤ step.worth) steps.now result (length steps.now) }
{
    steps.partition_point(|step| step.worth <= most)
}

/// How many of some steps that are worth less and less are worth more than this, by binary search.
fn count_above(steps: &[Step], most: i128) -> usize
    requires { AllPairs (AreInOrder false) steps.now }
    ensures bound { result ≤ length steps.now }
    ensures before { AllWithin (λ step. most <ℤ step.worth) steps.now 0 result }
    ensures behind { AllWithin (λ step. step.worth ≤ℤ most) steps.now result (length steps.now) }
{
    steps.partition_point(|step| step.worth > most)
}

/// "It is worth at most so much", for steps that are worth more and more; none where it never is.
fn rising_up_to(source: Source, steps: &[Step], most: i128) -> Result<Option<Atom>, Memory>
    requires { AllPairs (AreInOrder true) steps.now }
    ensures { IfOk result (λ found. MatchOption found (All (λ step. most <ℤ step.worth) steps.now)
        (λ atom. SaysOfSteps source steps.now atom (λ worth. worth ≤ℤ most))) }
{
    let count = count_up_to(steps, most);
    if count == 0 {
        return Ok(None);
    }
    let last = steps[count - 1];
    let within = at_most(source, last.value)?;
    Ok(Some(within))
}

/// "It is worth at most so much", for steps that are worth less and less; none where it never is.
fn falling_up_to(source: Source, steps: &[Step], most: i128) -> Result<Option<Atom>, Memory>
    requires { AllPairs (AreInOrder false) steps.now }
    ensures { IfOk result (λ found. MatchOption found (All (λ step. most <ℤ step.worth) steps.now)
        (λ atom. SaysOfSteps source steps.now atom (λ worth. worth ≤ℤ most))) }
{
    let count = count_above(steps, most);
    if count == steps.len() {
        return Ok(None);
    }
    let first = steps[count];
    let below = first.value.checked_sub(1).ok_or(Memory)?;
    let beyond = above(source, below)?;
    Ok(Some(beyond))
}

/// "It is worth at most so much"; none where it never is.
pub(crate) fn up_to(term: &Term, most: i128) -> Result<Option<Atom>, Memory>
    requires { HasOrderedSteps term.now }
    ensures { IfOk result (λ found. MatchOption found (All (λ step. most <ℤ step.worth) term.now.steps.items)
        (λ atom. SaysOfTerm term.now atom (λ worth. worth ≤ℤ most))) }
{
    if term.rising {
        return rising_up_to(term.source, &term.steps, most);
    }
    falling_up_to(term.source, &term.steps, most)
}

/// The step of some that are worth more and more which is worth so much, by binary search.
fn rising_worth(steps: &[Step], worth: i128) -> Option<Step>
    requires { AllPairs (AreInOrder true) steps.now }
    ensures { MatchOption result (All (λ step. step.worth ≢ worth) steps.now)
        (λ step. Contains steps.now step × (step.worth ≡ worth)) }
{
    let count = count_up_to(steps, worth);
    if count == 0 {
        return None;
    }
    let last = steps[count - 1];
    if last.worth < worth {
        return None;
    }
    Some(last)
}

/// The step of some that are worth less and less which is worth so much, by binary search.
fn falling_worth(steps: &[Step], worth: i128) -> Option<Step>
    requires { AllPairs (AreInOrder false) steps.now }
    ensures { MatchOption result (All (λ step. step.worth ≢ worth) steps.now)
        (λ step. Contains steps.now step × (step.worth ≡ worth)) }
{
    let count = count_above(steps, worth);
    if count == steps.len() {
        return None;
    }
    let first = steps[count];
    if first.worth < worth {
        return None;
    }
    Some(first)
}

/// The step at which a term is worth so much, by binary search.
pub(crate) fn step_worth(term: &Term, worth: i128) -> Option<Step>
    requires { HasOrderedSteps term.now }
    ensures { MatchOption result (All (λ step. step.worth ≢ worth) term.now.steps.items)
        (λ step. Contains term.now.steps.items step × (step.worth ≡ worth)) }
{
    if term.rising {
        return rising_worth(&term.steps, worth);
    }
    falling_worth(&term.steps, worth)
}
