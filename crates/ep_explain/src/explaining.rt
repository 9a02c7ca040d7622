//! What explains why an instance has no solution.

ghost use Rattle.std.specs.Prelude.{◌≡◌, ◌+◌, ◌<◌, ◌≤◌, [], drop, false, length, IfOk, IfSome, IsSome, None, is_some, map, option_map, unwrap_or};
ghost use Rattle.std.specs.List.{All};
ghost use Rattle.ep_base.specs.Reads.{IsWithinNumbers};
ghost use Rattle.ep_explain.specs.Narrowing.{IsAllSettled, AreLeft, IsNarrowed, settled_clause};
ghost use Rattle.ep_explain.specs.Tried.{IsRightExplanation, IsRightTry, IsShownOfSome, IsSpentAt, ends_spent, was_spent, named_clause};
ghost use Rattle.ep_instance_parts.specs.Instances.{instance_mode, plain_instance};
ghost use Rattle.ep_restrict.specs.Restricted.{AreClauseNumbers, restricted};
ghost use Rattle.ep_tree.specs.Closed.{IsClosed};
ghost use Rattle.ep_tree.specs.Solutions.{instance_limits};
ghost use Rattle.ep_tree.specs.Views.{assigned};
ghost use Rattle.sat_search.specs.Logs.{IsSound};

use crate::around::settle_around;
use crate::left::{
    Left, Narrowed, Seen, all_left, all_numbers, last_open, leave_out, numbers_but, parted, settle,
    violated_by, with_seen,
};
use crate::tries::{Tried, Tries};
use ep_base::Memory;
use ep_instance_parts::Instance;
use ep_restrict::restrict;
use ep_tree::Assignment;
use ep_unroll::unroll;
use std::alloc::Global;

/// A clause that is named, and an assignment that makes all other named ones true.
#[derive(Drop)]
pub struct Dropped {
    /// Its number, counted from 1.
    pub clause: u64,
    pub without: Assignment,
}

/// Why an instance has no solution, objective aside.
#[derive(Drop)]
pub enum Explained {
    /// It has one.
    Satisfiable(Assignment),
    /// These clauses have none together, and without any one of them they have one.
    Core(Vec<Dropped>),
    /// The conflicts were spent on the instance with the clauses of these numbers alone.
    Spent(Vec<u64>),
}

/// An attempt at the instance with some of its clauses alone.
fn attempt_at<T: Tries>(
    alloc: Global,
    instance: &Instance,
    keep: &[u64],
    tries: &mut T,
) -> Result<Tried, Memory>
    requires closed { IsClosed (plain_instance instance.now) }
    requires within { instance_limits (instance_mode instance.now) (plain_instance instance.now) ≡ [] }
    requires values { All (λ f. All IsWithinNumbers f.values) (plain_instance instance.now).finds }
    requires numbers { AreClauseNumbers (plain_instance instance.now) keep.now }
    ensures right { IfOk result (IsRightTry (instance_mode instance.now) (restricted (plain_instance instance.now) keep.now)
        (T.budget tries.new) (T.log tries.new)) }
    ensures spent { IfOk result (λ tried. T.spent tries.new ≡ was_spent tried) }
    ensures shown { IfOk result (λ _. T.shown tries.new (instance_mode instance.now)
        (restricted (plain_instance instance.now) keep.now)) }
    ensures budget { T.budget tries.new ≡ T.budget tries.old }
    ensures sound { IsSound (T.log tries.old).events → IsSound (T.log tries.new).events }
{
    let fewer = restrict(alloc, instance, keep)?;
    let tried = tries.attempt(alloc, &fewer)?;
    Ok(tried)
}

/// Tries to leave out a block of clauses. Where there is a solution then, it settles a clause that it alone
/// violates. Gives also the clauses on which the conflicts were spent, if they were.
fn try_without<T: Tries>(
    alloc: Global,
    instance: &Instance,
    narrowed: Narrowed,
    block: &[u64],
    tries: &mut T,
) -> Result<(Narrowed, Option<Vec<u64>>), Memory>
    requires closed { IsClosed (plain_instance instance.now) }
    requires within { instance_limits (instance_mode instance.now) (plain_instance instance.now) ≡ [] }
    requires values { All (λ f. All IsWithinNumbers f.values) (plain_instance instance.now).finds }
    requires narrowed { IsNarrowed (instance_mode instance.now) (plain_instance instance.now) narrowed }
    ensures narrowed { IfOk result (λ r. IsNarrowed (instance_mode instance.now) (plain_instance instance.now) r.0) }
    ensures right { IfOk result (λ r. IfSome r.1 (λ numbers. IsSpentAt (instance_mode instance.now)
        (plain_instance instance.now) (T.budget tries.new) (T.log tries.new) numbers.items)) }
    ensures spent { IfOk result (λ r. T.spent tries.new ≡ is_some r.1) }
    ensures shown { IfOk result (λ _. IsShownOfSome (T.shown tries.new (instance_mode instance.now)) (plain_instance instance.now)) }
    ensures budget { T.budget tries.new ≡ T.budget tries.old }
    ensures sound { IsSound (T.log tries.old).events → IsSound (T.log tries.new).events }
{
    let (inside, outside) = parted(alloc, &narrowed.left, block)?;
    let tried = attempt_at(alloc, instance, &outside, tries)?;
    match tried {
        Tried::Found(assignment) => {
            let violated = violated_by(alloc, instance, &inside, &assignment)?;
            let one = Seen {
                assignment,
                violated,
            };
            let more = with_seen(narrowed, one)?;
            let after = settle(alloc, more)?;
            Ok((after, None))
        }
        Tried::Empty => {
            let fewer = leave_out(alloc, narrowed, block)?;
            let after = settle(alloc, fewer)?;
            Ok((after, None))
        }
        Tried::Spent => Ok((narrowed, Some(outside))),
    }
}

/// Tries to leave out block after block: the next one is half as long where something of this one stays,
/// and twice as long where nothing does. What settles a clause is looked around for what settles others.
fn leave_out_blocks<T: Tries>(
    alloc: Global,
    instance: &Instance,
    mut narrowed: Narrowed,
    tries: &mut T,
) -> Result<(Narrowed, Option<Vec<u64>>), Memory>
    requires closed { IsClosed (plain_instance instance.now) }
    requires within { instance_limits (instance_mode instance.now) (plain_instance instance.now) ≡ [] }
    requires values { All (λ f. All IsWithinNumbers f.values) (plain_instance instance.now).finds }
    requires narrowed { IsNarrowed (instance_mode instance.now) (plain_instance instance.now) narrowed }
    requires spent { T.spent tries.old ≡ false }
    requires shown { IsShownOfSome (T.shown tries.old (instance_mode instance.now)) (plain_instance instance.now) }
    ensures narrowed { IfOk result (λ r. IsNarrowed (instance_mode instance.now) (plain_instance instance.now) r.0) }
    ensures right { IfOk result (λ r. IfSome r.1 (λ numbers. IsSpentAt (instance_mode instance.now)
        (plain_instance instance.now) (T.budget tries.new) (T.log tries.new) numbers.items)) }
    ensures spent { IfOk result (λ r. T.spent tries.new ≡ is_some r.1) }
    ensures shown { IfOk result (λ _. IsShownOfSome (T.shown tries.new (instance_mode instance.now)) (plain_instance instance.now)) }
    ensures budget { T.budget tries.new ≡ T.budget tries.old }
    ensures sound { IsSound (T.log tries.old).events → IsSound (T.log tries.new).events }
{
    let count = narrowed.left.len();
    let most = count / 4 + 1;
    let mut size = most;
    let ground = unroll(alloc, instance)?;
    let mut done = Vec::new(alloc);
    for _turn in 0..count {
        let block = last_open(alloc, &narrowed.left, size)?;
        if block.is_empty() {
            break;
        }
        let before = narrowed.left.len();
        let (after, spent) = try_without(alloc, instance, narrowed, &block, tries)?;
        if spent.is_some() {
            return Ok((after, spent));
        }
        narrowed = settle_around(alloc, instance, &ground.cells, after, &mut done)?;
        size = next_size(narrowed.left.len() < before, block.len(), most);
    }
    Ok((narrowed, None))
}

/// How long the next block is, after one of this length.
fn next_size(left_out: bool, length: usize, most: usize) -> usize {
    if left_out {
        return length.saturating_mul(2).min(most);
    }
    (length / 2).max(1)
}

/// Tries to leave out the clause at a place: it goes where the others have no solution, and stays with an
/// assignment that makes these true. Gives also the clauses on which the conflicts were spent, if they were.
fn leave_out_at<T: Tries>(
    alloc: Global,
    instance: &Instance,
    mut left: Vec<Left>,
    place: usize,
    tries: &mut T,
) -> Result<(Vec<Left>, Option<Vec<u64>>), Memory>
    requires closed { IsClosed (plain_instance instance.now) }
    requires within { instance_limits (instance_mode instance.now) (plain_instance instance.now) ≡ [] }
    requires values { All (λ f. All IsWithinNumbers f.values) (plain_instance instance.now).finds }
    requires left { AreLeft (instance_mode instance.now) (plain_instance instance.now) left.items }
    requires there { place < length left.items }
    ensures left { IfOk result (λ r. AreLeft (instance_mode instance.now) (plain_instance instance.now) r.0.items) }
    ensures there { IfOk result (λ r. place ≤ length r.0.items) }
    ensures settled { IfOk result (λ r. r.1 ≡ None → IsAllSettled (drop (place + 1) left.items)
        → IsAllSettled (drop place r.0.items)) }
    ensures right { IfOk result (λ r. IfSome r.1 (λ numbers. IsSpentAt (instance_mode instance.now)
        (plain_instance instance.now) (T.budget tries.new) (T.log tries.new) numbers.items)) }
    ensures spent { IfOk result (λ r. T.spent tries.new ≡ is_some r.1) }
    ensures shown { IfOk result (λ _. IsShownOfSome (T.shown tries.new (instance_mode instance.now)) (plain_instance instance.now)) }
    ensures budget { T.budget tries.new ≡ T.budget tries.old }
    ensures sound { IsSound (T.log tries.old).events → IsSound (T.log tries.new).events }
{
    let keep = numbers_but(alloc, &left, left[place].clause)?;
    let tried = attempt_at(alloc, instance, &keep, tries)?;
    match tried {
        Tried::Found(a) => {
            left[place].without = Some(a);
            Ok((left, None))
        }
        Tried::Empty => {
            left.remove(place);
            Ok((left, None))
        }
        Tried::Spent => Ok((left, Some(keep))),
    }
}

/// Tries to leave out the clauses one by one, from the last to the first, and gives them with their
/// assignments: what can't be left out stays. Gives the clauses on which the conflicts were spent, if they
/// were.
fn leave_out_single<T: Tries>(
    alloc: Global,
    instance: &Instance,
    mut left: Vec<Left>,
    tries: &mut T,
) -> Result<(Vec<Left>, Option<Vec<u64>>), Memory>
    requires closed { IsClosed (plain_instance instance.now) }
    requires within { instance_limits (instance_mode instance.now) (plain_instance instance.now) ≡ [] }
    requires values { All (λ f. All IsWithinNumbers f.values) (plain_instance instance.now).finds }
    requires left { AreLeft (instance_mode instance.now) (plain_instance instance.now) left.items }
    requires spent { T.spent tries.old ≡ false }
    requires shown { IsShownOfSome (T.shown tries.old (instance_mode instance.now)) (plain_instance instance.now) }
    ensures left { IfOk result (λ r. AreLeft (instance_mode instance.now) (plain_instance instance.now) r.0.items) }
    ensures settled { IfOk result (λ r. r.1 ≡ None → IsAllSettled r.0.items) }
    ensures right { IfOk result (λ r. IfSome r.1 (λ numbers. IsSpentAt (instance_mode instance.now)
        (plain_instance instance.now) (T.budget tries.new) (T.log tries.new) numbers.items)) }
    ensures spent { IfOk result (λ r. T.spent tries.new ≡ is_some r.1) }
    ensures shown { IfOk result (λ _. IsShownOfSome (T.shown tries.new (instance_mode instance.now)) (plain_instance instance.now)) }
    ensures budget { T.budget tries.new ≡ T.budget tries.old }
    ensures sound { IsSound (T.log tries.old).events → IsSound (T.log tries.new).events }
{
    let mut place = left.len();
    while place > 0 {
        place -= 1;
        if left[place].without.is_some() {
            continue;
        }
        let (after, spent) = leave_out_at(alloc, instance, left, place, tries)?;
        left = after;
        if spent.is_some() {
            return Ok((left, spent));
        }
    }
    Ok((left, None))
}

/// A clause that is known to stay, with its assignment.
fn settled(clause: u64, without: Option<Assignment>) -> Dropped
    requires { IsSome without }
    ensures { named_clause result ≡ (clause, unwrap_or (option_map assigned without) []) }
{
    match without {
        Some(without) => Dropped { clause, without },
        None => unreachable!(),
    }
}

/// The clauses that are left, each with its assignment.
fn named(alloc: Global, left: Vec<Left>) -> Result<Vec<Dropped>, Memory>
    requires { IsAllSettled left.items }
    ensures { IfOk result (λ named. map named_clause named.items ≡ map settled_clause left.items) }
{
    let mut named = Vec::with_capacity(alloc, left.len())?;
    for one in left {
        named.push(settled(one.clause, one.without))?;
    }
    Ok(named)
}

/// Why an instance has no solution, its objective aside: a solution, where there is one; clauses that have
/// none together, with an assignment for each that makes the others true; or the clauses on which the
/// conflicts were spent. At most twice as many attempts are made as there are clauses, and one more.
pub fn explain<T: Tries>(
    alloc: Global,
    instance: &Instance,
    tries: &mut T,
) -> Result<Explained, Memory>
    requires closed { IsClosed (plain_instance instance.now) }
    requires within { instance_limits (instance_mode instance.now) (plain_instance instance.now) ≡ [] }
    requires values { All (λ f. All IsWithinNumbers f.values) (plain_instance instance.now).finds }
    ensures right { IfOk result (IsRightExplanation (instance_mode instance.now) (plain_instance instance.now)
        (T.budget tries.new) (T.log tries.new)) }
    ensures spent { IfOk result (λ said. T.spent tries.new ≡ ends_spent said) }
    ensures shown { IfOk result (λ _. IsShownOfSome (T.shown tries.new (instance_mode instance.now)) (plain_instance instance.now)) }
    ensures budget { T.budget tries.new ≡ T.budget tries.old }
    ensures sound { IsSound (T.log tries.old).events → IsSound (T.log tries.new).events }
{
    let all = all_numbers(alloc, instance)?;
    match attempt_at(alloc, instance, &all, tries)? {
        Tried::Found(a) => return Ok(Explained::Satisfiable(a)),
        Tried::Spent => return Ok(Explained::Spent(all)),
        Tried::Empty => {}
    }
    let left = all_left(alloc, &all)?;
    let seen = Vec::new(alloc);
    let (narrowed, spent) = leave_out_blocks(alloc, instance, Narrowed { left, seen }, tries)?;
    if let Some(numbers) = spent {
        return Ok(Explained::Spent(numbers));
    }
    let (left, spent) = leave_out_single(alloc, instance, narrowed.left, tries)?;
    if let Some(numbers) = spent {
        return Ok(Explained::Spent(numbers));
    }
    let core = named(alloc, left)?;
    Ok(Explained::Core(core))
}
