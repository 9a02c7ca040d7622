//! Operations on sets of numbers, by their runs.

ghost use Rattle.std.specs.Prelude.{◌≡◌, ◌&&◌, ◌||◌, not, int_lt, ℤ, List, Some, IfOk, OnOk};
ghost use Rattle.ep_base.specs.Options.{map_both};
ghost use Rattle.ep_base.specs.Runs.{IsAscending};
ghost use Rattle.ep_tree.specs.Domains.{set_has, set_values};
ghost use Rattle.ep_eval.specs.Ranges.{run_has, runs_have};

use ep_base::{Memory, Run, Runs};
use ep_tree::SetOp;
use std::alloc::{AllocError, Global};

/// Puts a run behind others, where it has a number.
fn add_filled(parts: &mut Vec<Run>, run: Run) -> Result<(), AllocError>
    ensures { OnOk result ((n : ℤ) → runs_have n parts.new.items
        ≡ (runs_have n parts.old.items || run_has n run)) }
{
    if run.lo > run.hi {
        return Ok(());
    }
    parts.push(run)?;
    Ok(())
}

/// The numbers of a run that are in another.
fn overlap(one: Run, other: Run) -> Run
    ensures { (n : ℤ) → run_has n result ≡ (run_has n one && run_has n other) }
{
    Run {
        lo: one.lo.max(other.lo),
        hi: one.hi.min(other.hi),
    }
}

/// Adds what is in a run and in one of some runs.
fn add_overlaps(parts: &mut Vec<Run>, runs: &[Run], other: &Run) -> Result<(), AllocError>
    ensures { OnOk result ((n : ℤ) → runs_have n parts.new.items
        ≡ (runs_have n parts.old.items || (runs_have n runs.now && run_has n other.now))) }
{
    for run in runs {
        add_filled(parts, overlap(*run, *other))?;
    }
    Ok(())
}

/// Adds what is in a run and below another.
fn add_below(parts: &mut Vec<Run>, run: Run, other: Run) -> Result<(), AllocError>
    ensures { OnOk result ((n : ℤ) → runs_have n parts.new.items
        ≡ (runs_have n parts.old.items || (run_has n run && int_lt n other.lo))) }
{
    if run.lo >= other.lo {
        return Ok(());
    }
    let below = Run {
        lo: run.lo,
        hi: run.hi.min(other.lo - 1),
    };
    add_filled(parts, below)?;
    Ok(())
}

/// Adds what is in a run and above another.
fn add_above(parts: &mut Vec<Run>, run: Run, other: Run) -> Result<(), AllocError>
    ensures { OnOk result ((n : ℤ) → runs_have n parts.new.items
        ≡ (runs_have n parts.old.items || (run_has n run && int_lt other.hi n))) }
{
    if run.hi <= other.hi {
        return Ok(());
    }
    let above = Run {
        lo: run.lo.max(other.hi + 1),
        hi: run.hi,
    };
    add_filled(parts, above)?;
    Ok(())
}

/// Adds what is in a run and not in another.
fn add_outside(parts: &mut Vec<Run>, run: &Run, other: &Run) -> Result<(), AllocError>
    ensures { OnOk result ((n : ℤ) → runs_have n parts.new.items
        ≡ (runs_have n parts.old.items || (run_has n run.now && not (run_has n other.now)))) }
{
    add_below(parts, *run, *other)?;
    add_above(parts, *run, *other)?;
    Ok(())
}

/// What is in some runs and not in another.
fn without(alloc: Global, runs: &[Run], other: &Run) -> Result<Vec<Run>, AllocError>
    ensures { IfOk result (λ parts. (n : ℤ) → runs_have n parts.items
        ≡ (runs_have n runs.now && not (run_has n other.now))) }
{
    let mut parts = Vec::new(alloc);
    for run in runs {
        add_outside(&mut parts, run, other)?;
    }
    Ok(parts)
}

/// What is in one of two lists of runs.
fn union(alloc: Global, one: &[Run], other: &[Run]) -> Result<Vec<Run>, AllocError>
    ensures { IfOk result (λ parts. (n : ℤ) → runs_have n parts.items
        ≡ (runs_have n one.now || runs_have n other.now)) }
{
    let mut parts = Vec::from_slice(alloc, one)?;
    parts.extend_from_slice(other)?;
    Ok(parts)
}

/// What is in both of two lists of runs.
fn intersection(alloc: Global, one: &[Run], other: &[Run]) -> Result<Vec<Run>, AllocError>
    ensures { IfOk result (λ parts. (n : ℤ) → runs_have n parts.items
        ≡ (runs_have n one.now && runs_have n other.now)) }
{
    let mut parts = Vec::new(alloc);
    for run in other {
        add_overlaps(&mut parts, one, run)?;
    }
    Ok(parts)
}

/// What is in the first of two lists of runs alone.
fn difference(alloc: Global, one: &[Run], other: &[Run]) -> Result<Vec<Run>, AllocError>
    ensures { IfOk result (λ parts. (n : ℤ) → runs_have n parts.items
        ≡ (runs_have n one.now && not (runs_have n other.now))) }
{
    let mut parts = Vec::from_slice(alloc, one)?;
    for run in other {
        parts = without(alloc, &parts, run)?;
    }
    Ok(parts)
}

/// The runs of an operation on two lists of runs.
#[tactic(auto, unfolding(ep_tree::specs::Domains::set_has))]
fn parts_of(alloc: Global, op: SetOp, one: &[Run], other: &[Run]) -> Result<Vec<Run>, AllocError>
    ensures { IfOk result (λ parts. (n : ℤ) → runs_have n parts.items
        ≡ set_has op (runs_have n one.now) (runs_have n other.now)) }
{
    match op {
        SetOp::Union => union(alloc, one, other),
        SetOp::Intersect => intersection(alloc, one, other),
        SetOp::Minus => difference(alloc, one, other),
    }
}

/// The numbers of an operation on two sets.
fn operation(alloc: Global, op: SetOp, one: &Runs, other: &Runs) -> Result<Runs, Memory>
    ensures { IfOk result (λ set. IsAscending (set_values op one.now other.now)
        → set ≡ set_values op one.now other.now) }
{
    let parts = parts_of(alloc, op, one.runs(), other.runs())?;
    let set = Runs::new(alloc, parts)?;
    Ok(set)
}

/// The numbers of an operation on two sets, where both are there. Intersection and difference take time in the product
/// of the two numbers of runs.
#[tactic(auto, unfolding(ep_base::specs::Options::map_both))]
pub fn set_operation(
    alloc: Global,
    op: SetOp,
    one: Option<Runs>,
    other: Option<Runs>,
) -> Result<Option<Runs>, Memory>
    ensures { IfOk result (λ set.
        ((ns : List ℤ) → map_both (set_values op) one other ≡ Some ns → IsAscending ns)
        → set ≡ map_both (set_values op) one other) }
{
    let Some(first) = one else {
        return Ok(None);
    };
    let Some(second) = other else {
        return Ok(None);
    };
    let set = operation(alloc, op, &first, &second)?;
    Ok(Some(set))
}
