//! What is known of a matrix that is made of its parts.

ghost use Rattle.std.specs.Prelude.{◌≡◌, ◌==◌, ℕ, pos, true, IfErr, IfOk, if◌then◌else◌, length, map, Some, None, option_map};
ghost use Rattle.ep_base.specs.Runs.{counting};
ghost use Rattle.ep_base.specs.declared.places.Place.{Place};
ghost use Rattle.ep_tree.specs.Environments as names;
ghost use Rattle.ep_tree.specs.Reach as defined;
ghost use Rattle.ep_tree.specs.Reach.{decisions_in, holds_decision};
ghost use Rattle.ep_tree.specs.Trees.{ExprTree, flatten};
ghost use Rattle.ep_tree.specs.Values.{as_parts, list_value, matrix};
ghost use Rattle.ep_tree.specs.declared.values.Mode.{Mode as EachMode};
ghost use Rattle.ep_size.specs.Extents.{IsKnownExtent, grid_of, plain_span};
ghost use Rattle.ep_size.specs.Finishing.{Finishes};
ghost use Rattle.ep_size.specs.Lists.{ListsExtent};
ghost use Rattle.ep_size.specs.declared.errors.SizeError.TheVariants as error;

use super::errors::SizeError;
use super::extents::{Extent, Span};
use super::scalars::scalars_of;
use ep_base::Runs;
use ep_eval::{next_number, walk_of};
use std::alloc::Global;

/// Numbers as a matrix of one dimension, with indices from 1.
fn list_of<'a>(alloc: Global, spans: &[Span]) -> Result<Extent<'a>, SizeError>
    ensures { ListsExtent result (list_value (map plain_span spans.now)) }
{
    let mut indices = Vec::with_capacity(alloc, spans.len())?;
    let mut parts = Vec::with_capacity(alloc, spans.len())?;
    for (i, span) in spans.iter().enumerate() {
        indices.push(i as i64 + 1)?;
        parts.push(Extent::Number(*span))?;
    }
    Ok(Extent::Matrix(indices, parts))
}

/// What is known of a `flatten` of which this is known.
pub fn flat_node<'a>(alloc: Global, known: &Extent<'_>) -> Result<Extent<'a>, SizeError>
    ensures { (mode : EachMode) → (env : names.Env) → (p : Place) → (e : ExprTree) → (t : ℕ)
        → holds_decision (decisions_in env) (flatten p e) ≡ true → IsKnownExtent mode env e known.now
        → Finishes mode env (flatten p e) t t result }
{
    let spans = scalars_of(alloc, known)?;
    list_of(alloc, &spans)
}

/// The numbers from 1 on, so many of them.
fn first_numbers(alloc: Global, count: usize) -> Result<Vec<i64>, SizeError>
    ensures numbers { IfOk result (λ numbers. numbers.items ≡ counting (pos 1) count) }
    ensures memory { IfErr result (λ e. e ≡ error.Memory) }
{
    if count > 5_000_000 {
        return Err(SizeError::Memory);
    }
    let mut numbers = Vec::with_capacity(alloc, count)?;
    for i in 0..count {
        numbers.push(i as i64 + 1)?;
    }
    Ok(numbers)
}

/// The numbers of a set, where there are so many. No more than these are walked to.
fn listed(alloc: Global, set: &Runs, count: usize) -> Result<Option<Vec<i64>>, SizeError>
    ensures numbers { IfOk result (λ numbers. option_map (λ v. v.items) numbers
        ≡ (if length set.now == count then Some set.now else None)) }
    ensures memory { IfErr result (λ e. e ≡ error.Memory) }
{
    let mut numbers = Vec::new(alloc);
    let mut walk = walk_of(set.runs());
    while let Some((number, behind)) = next_number(walk) {
        if numbers.len() >= count {
            return Ok(None);
        }
        numbers.push(number)?;
        walk = behind;
    }
    if numbers.len() < count {
        return Ok(None);
    }
    Ok(Some(numbers))
}

/// The indices of so many parts: the numbers of a set, where it has as many, and else those from 1 on.
#[tactic(auto, unfolding(ep_tree::specs::Reach::measured_indices))]
fn indices_of(alloc: Global, set: &Option<Runs>, count: usize) -> Result<Vec<i64>, SizeError>
    ensures numbers { IfOk result (λ numbers. numbers.items ≡ defined.measured_indices set.now count) }
    ensures memory { IfErr result (λ e. e ≡ error.Memory) }
{
    let Some(own) = set else {
        return first_numbers(alloc, count);
    };
    let told = listed(alloc, own, count)?;
    match told {
        Some(numbers) => Ok(numbers),
        None => first_numbers(alloc, count),
    }
}

/// A matrix of some parts, with the numbers of a set as their indices, where these are as many.
pub fn matrix_of<'a>(
    alloc: Global,
    set: &Option<Runs>,
    parts: Vec<Extent<'a>>,
) -> Result<Extent<'a>, SizeError>
    ensures { ListsExtent result (matrix (defined.measured_indices set.now (length parts.entry.items)) (as_parts (map grid_of parts.entry.items))) }
{
    let indices = indices_of(alloc, set, parts.len())?;
    Ok(Extent::Matrix(indices, parts))
}
