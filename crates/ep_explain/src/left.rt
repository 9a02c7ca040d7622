//! Clauses that are left while it is looked for those which explain why there is no solution.

ghost use Rattle.std.specs.Prelude.{◌≡◌, ◌<◌, [], Contains, IfOk, IfSome, None, filter, length, not, slice_get};
ghost use Rattle.std.specs.List.{All};
ghost use Rattle.ep_explain.specs.Explained.{HasNoSolution, all_but};
ghost use Rattle.ep_explain.specs.Narrowing.{AreLeft, IsNarrowed, IsSeen, IsTrueAt, is_in_block, left_numbers};
ghost use Rattle.ep_instance.specs.Judgements.{judgement_of};
ghost use Rattle.ep_instance_parts.specs.Instances.{instance_mode, plain_instance};
ghost use Rattle.ep_restrict.specs.Restricted.{AreClauseNumbers, numbered_clauses, restricted};
ghost use Rattle.ep_tree.specs.Closed.{IsClosed};
ghost use Rattle.ep_tree.specs.Binding.{Instance as InstanceValue};
ghost use Rattle.ep_tree.specs.Solutions.{Fits, Found, instance_limits, judgement};
ghost use Rattle.ep_tree.specs.Views.{assigned};
ghost use Rattle.ep_tree.specs.declared.values.Mode.{Mode};

use ep_base::Memory;
use ep_instance::{Judgement, is_solution};
use ep_instance_parts::Instance;
use ep_restrict::restrict;
use ep_tree::Assignment;
use std::alloc::Global;

/// A clause that is left, by its number, and an assignment that makes all others of these true, where one
/// is known: then it stays.
#[derive(Drop)]
pub struct Left {
    pub clause: u64,
    pub without: Option<Assignment>,
}

/// An assignment that was found, and the numbers of the clauses that it violates.
#[derive(Drop)]
pub struct Seen {
    pub assignment: Assignment,
    pub violated: Vec<u64>,
}

/// The clauses that are left, and the assignments that settle none of them yet.
#[derive(Drop)]
pub struct Narrowed {
    pub left: Vec<Left>,
    pub seen: Vec<Seen>,
}

/// The numbers of an instance's clauses.
pub fn all_numbers(alloc: Global, instance: &Instance) -> Result<Vec<u64>, Memory>
    ensures numbers { IfOk result (λ all. AreClauseNumbers (plain_instance instance.now) all.items) }
    ensures whole { IfOk result (λ all. numbered_clauses (plain_instance instance.now).clauses all.items
        ≡ (plain_instance instance.now).clauses) }
{
    let count = instance.clauses().len();
    let mut numbers = Vec::with_capacity(alloc, count)?;
    for place in 0..count {
        numbers.push(place as u64 + 1)?;
    }
    Ok(numbers)
}

/// These clauses as clauses that are left, of which none is known to stay.
pub fn all_left(alloc: Global, numbers: &[u64]) -> Result<Vec<Left>, Memory>
    ensures numbers { IfOk result (λ left. left_numbers left.items ≡ numbers.now) }
    ensures unsettled { IfOk result (λ left. All (λ one. one.without ≡ None) left.items) }
{
    let mut left = Vec::with_capacity(alloc, numbers.len())?;
    for number in numbers {
        left.push(Left {
            clause: *number,
            without: None,
        })?;
    }
    Ok(left)
}

/// The numbers of these clauses.
pub fn numbers_of(alloc: Global, left: &[Left]) -> Result<Vec<u64>, Memory>
    ensures { IfOk result (λ numbers. numbers.items ≡ left_numbers left.now) }
{
    let mut numbers = Vec::with_capacity(alloc, left.len())?;
    for one in left {
        numbers.push(one.clause)?;
    }
    Ok(numbers)
}

/// The numbers of these clauses but one.
pub fn numbers_but(alloc: Global, left: &[Left], clause: u64) -> Result<Vec<u64>, Memory>
    ensures { IfOk result (λ numbers. numbers.items ≡ all_but clause (left_numbers left.now)) }
{
    let mut numbers = Vec::with_capacity(alloc, left.len())?;
    for one in left {
        if one.clause == clause {
            continue;
        }
        numbers.push(one.clause)?;
    }
    Ok(numbers)
}

/// The numbers of these clauses: those of a block, and the others.
pub fn parted(alloc: Global, left: &[Left], block: &[u64]) -> Result<(Vec<u64>, Vec<u64>), Memory>
    ensures inside { IfOk result (λ parts. parts.0.items ≡ filter (is_in_block block.now) (left_numbers left.now)) }
    ensures outside { IfOk result (λ parts. parts.1.items
        ≡ filter (λ n. not (is_in_block block.now n)) (left_numbers left.now)) }
{
    let mut inside = Vec::with_capacity(alloc, block.len())?;
    let mut outside = Vec::with_capacity(alloc, left.len())?;
    for one in left {
        if block.contains(&one.clause) {
            inside.push(one.clause)?;
            continue;
        }
        outside.push(one.clause)?;
    }
    Ok((inside, outside))
}

/// Those of these clauses that aren't of a block.
fn left_outside(alloc: Global, left: Vec<Left>, block: &[u64]) -> Result<Vec<Left>, Memory>
    ensures { IfOk result (λ kept. kept.items
        ≡ filter (λ one. not (is_in_block block.now one.clause)) left.items) }
{
    let mut kept = Vec::with_capacity(alloc, left.len())?;
    for one in left {
        if block.contains(&one.clause) {
            continue;
        }
        kept.push(one)?;
    }
    Ok(kept)
}

/// Leaves out the clauses of a block, where the others have no solution.
pub fn leave_out(alloc: Global, narrowed: Narrowed, block: &[u64]) -> Result<Narrowed, Memory>
    ensures { IfOk result (λ after. (mode : Mode) (i : InstanceValue) → IsNarrowed mode i narrowed
        → HasNoSolution mode (restricted i (filter (λ n. not (is_in_block block.now n)) (left_numbers narrowed.left.items)))
        → IsNarrowed mode i after) }
{
    let left = left_outside(alloc, narrowed.left, block)?;
    Ok(Narrowed {
        left,
        seen: narrowed.seen,
    })
}

/// Keeps an assignment that was seen.
pub fn with_seen(narrowed: Narrowed, one: Seen) -> Result<Narrowed, Memory>
    ensures { IfOk result (λ after. (mode : Mode) (i : InstanceValue) → IsNarrowed mode i narrowed
        → IsSeen mode i (left_numbers narrowed.left.items) one → IsNarrowed mode i after) }
{
    let mut seen = narrowed.seen;
    seen.push(one)?;
    Ok(Narrowed {
        left: narrowed.left,
        seen,
    })
}

/// The numbers of the last clauses that aren't known to stay, at most so many.
pub fn last_open(alloc: Global, left: &[Left], most: usize) -> Result<Vec<u64>, Memory> {
    let mut block = Vec::new(alloc);
    for one in left.iter().rev() {
        if one.without.is_none() && block.len() < most {
            block.push(one.clause)?;
        }
    }
    Ok(block)
}

/// What an assignment is where the clauses of these numbers are all there are.
pub fn judged(
    alloc: Global,
    instance: &Instance,
    numbers: &[u64],
    a: &Assignment,
) -> Result<Judgement, Memory>
    requires closed { IsClosed (plain_instance instance.now) }
    requires within { instance_limits (instance_mode instance.now) (plain_instance instance.now) ≡ [] }
    requires numbers { AreClauseNumbers (plain_instance instance.now) numbers.now }
    requires fits { (found : Found) × Fits (plain_instance instance.now) (assigned a.now) found }
    ensures { IfOk result (λ j. (found : Found) → Fits (plain_instance instance.now) (assigned a.now) found
        → judgement_of j ≡ judgement (instance_mode instance.now)
        (restricted (plain_instance instance.now) numbers.now) found) }
{
    let fewer = restrict(alloc, instance, numbers)?;
    let judgement = is_solution(alloc, &fewer, a)?;
    Ok(judgement)
}

/// The numbers of those clauses that an assignment violates.
pub fn violated_by(
    alloc: Global,
    instance: &Instance,
    numbers: &[u64],
    a: &Assignment,
) -> Result<Vec<u64>, Memory>
    requires closed { IsClosed (plain_instance instance.now) }
    requires within { instance_limits (instance_mode instance.now) (plain_instance instance.now) ≡ [] }
    requires numbers { AreClauseNumbers (plain_instance instance.now) numbers.now }
    requires fits { (found : Found) × Fits (plain_instance instance.now) (assigned a.now) found }
    ensures { IfOk result (λ violated. (found : Found) → Fits (plain_instance instance.now) (assigned a.now) found
        → All (λ n. (Contains violated.items n → ⊥)
        → IsTrueAt (instance_mode instance.now) (plain_instance instance.now) found n) numbers.now) }
{
    let mut violated = Vec::new(alloc);
    let mut begun: usize = 0;
    while begun < numbers.len() {
        let judgement = judged(alloc, instance, &numbers[begun..], a)?;
        match judgement {
            Judgement::Violated(number) => {
                begun += number as usize;
                violated.push(numbers[begun - 1])?;
            }
            Judgement::Solution { .. } => return Ok(violated),
            Judgement::ObjectiveUndefined => return Ok(violated),
        }
    }
    Ok(violated)
}

/// The place of the only one of these clauses that is violated.
pub fn only_violated(left: &[Left], violated: &[u64]) -> Option<usize>
    ensures within { IfSome result (λ place. place < length left.now) }
    ensures only { IfSome result (λ place. (one : Left) → slice_get left.now place ≡ Some one
        → All (λ n. Contains violated.now n → n ≡ one.clause) (left_numbers left.now)) }
{
    let mut only = None;
    for place in 0..left.len() {
        if !violated.contains(&left[place].clause) {
            continue;
        }
        if only.is_some() {
            return None;
        }
        only = Some(place);
    }
    only
}

/// Settles the clause that an assignment alone violates, or gives the assignment back.
fn settle_one(mut left: Vec<Left>, one: Seen) -> (Vec<Left>, Option<Seen>)
    ensures left { (mode : Mode) (i : InstanceValue) → AreLeft mode i left.items
        → IsSeen mode i (left_numbers left.items) one → AreLeft mode i result.0.items }
    ensures same { left_numbers result.0.items ≡ left_numbers left.items }
    ensures kept { IfSome result.1 (λ kept. kept ≡ one) }
{
    match only_violated(&left, &one.violated) {
        Some(place) => {
            left[place].without = Some(one.assignment);
            (left, None)
        }
        None => (left, Some(one)),
    }
}

/// Settles each clause that one of the assignments alone violates, and keeps the other assignments.
pub fn settle(alloc: Global, narrowed: Narrowed) -> Result<Narrowed, Memory>
    ensures narrowed { IfOk result (λ after. (mode : Mode) (i : InstanceValue) → IsNarrowed mode i narrowed
        → IsNarrowed mode i after) }
    ensures same { IfOk result (λ after. left_numbers after.left.items ≡ left_numbers narrowed.left.items) }
{
    let mut left = narrowed.left;
    let mut seen = Vec::with_capacity(alloc, narrowed.seen.len())?;
    for one in narrowed.seen {
        let (after, kept) = settle_one(left, one);
        left = after;
        let Some(kept) = kept else {
            continue;
        };
        seen.push(kept)?;
    }
    Ok(Narrowed { left, seen })
}
