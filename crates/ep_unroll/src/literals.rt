//! Matrices that are made of their parts, and the indices of these.

ghost use Rattle.std.specs.Prelude.{◌≡◌, ◌==◌, pos, ℕ, ℤ, List, Some, None, IfOk, if◌then◌else◌, length, option_map};
ghost use Rattle.ep_base.specs.Options.{on_both};
ghost use Rattle.ep_base.specs.Runs.{counting};
ghost use Rattle.ep_forms.specs.Forms.{index_at};
ghost use Rattle.ep_eval.specs.Scopes.{env_in, mode_in};
ghost use Rattle.ep_ground.specs.Nodes.{GroundNode};
ghost use Rattle.ep_tree.specs.Evaluation.{index_values};
ghost use Rattle.ep_tree.specs.Values.{all_defined, with_indices};
ghost use Rattle.ep_unroll.specs.Meanings.{AreTerms, worth};
ghost use Rattle.ep_unroll.specs.PartLists.{HaveTerms, worths};
ghost use Rattle.ep_unroll.specs.Readings.{Numbering, Reading};

use super::fixed::fixed_numbers;
use super::unrolled::Unrolled;
use ep_base::{Memory, Run, Runs};
use ep_eval::{Scope, next_number, walk_of};
use ep_tree::Domain;
use std::alloc::Global;

/// The numbers from 1 on, so many of them.
fn first_numbers(alloc: Global, count: usize) -> Result<Runs, Memory>
    ensures { IfOk result (λ set. set ≡ counting (pos 1) count) }
{
    let Ok(last) = i64::try_from(count) else {
        return Err(Memory);
    };
    let mut parts = Vec::new(alloc);
    parts.push(Run { lo: 1, hi: last })?;
    let set = Runs::new(alloc, parts)?;
    Ok(set)
}

/// The indices of so many parts: the numbers of the domain that is stated, and else those from 1 on.
fn index_set(
    scope: Scope<'_, '_>,
    domain: &Option<Box<Domain>>,
    count: usize,
) -> Result<Option<Runs>, Memory>
    ensures { IfOk result (λ set. (n : Numbering) → (r : Reading n (env_in scope.entry))
        → index_values (mode_in scope.entry) r.values (index_at domain.now) count ≡ set) }
{
    match domain {
        Some(stated) => {
            let set = fixed_numbers(scope, stated)?;
            Ok(set)
        }
        None => {
            let set = first_numbers(scope.alloc, count)?;
            Ok(Some(set))
        }
    }
}

/// The numbers of a set, where there are so many. No more than these are walked to.
fn listed(alloc: Global, set: &Runs, count: usize) -> Result<Option<Vec<i64>>, Memory>
    ensures { IfOk result (λ numbers. option_map (λ v. v.items) numbers
        ≡ (if length set.now == count then Some set.now else None)) }
{
    let mut numbers = Vec::new(alloc);
    let mut walk = walk_of(set.runs());
    while let Some((number, behind)) = next_number(walk) {
        if numbers.len() >= count {
            return Ok(None);
        }
        numbers.push(number)?;
        walk = behind;
    }
    if numbers.len() < count {
        return Ok(None);
    }
    Ok(Some(numbers))
}

/// A matrix of some parts with the numbers of a set as indices; nothing where these aren't as many.
fn matrix_of<'a>(
    alloc: Global,
    set: &Runs,
    parts: Vec<Unrolled<'a>>,
) -> Result<Unrolled<'a>, Memory>
    ensures value { IfOk result (λ x. (nodes : List GroundNode) → (numbers : List ℤ)
        → worth nodes numbers x ≡ on_both (Some set.now) (all_defined (worths nodes numbers parts.entry.items)) with_indices) }
    ensures terms { IfOk result (λ x. (count : ℕ) → HaveTerms count parts.entry.items → AreTerms count x) }
{
    let own = listed(alloc, set, parts.len())?;
    match own {
        Some(own) => Ok(Unrolled::Matrix(own, parts)),
        None => Ok(Unrolled::Fixed(None)),
    }
}

/// A matrix of some parts, with the numbers of a domain as indices where one is stated; nothing where it is undefined, or
/// these aren't as many.
pub fn made_matrix<'a>(
    scope: Scope<'_, 'a>,
    domain: &Option<Box<Domain>>,
    parts: Vec<Unrolled<'a>>,
) -> Result<Unrolled<'a>, Memory>
    ensures value { IfOk result (λ x. (n : Numbering) → (r : Reading n (env_in scope.entry)) → (nodes : List GroundNode)
        → worth nodes r.numbers x ≡ on_both (index_values (mode_in scope.entry) r.values (index_at domain.now) (length parts.entry.items))
        (all_defined (worths nodes r.numbers parts.entry.items)) with_indices) }
    ensures terms { IfOk result (λ x. (count : ℕ) → HaveTerms count parts.entry.items → AreTerms count x) }
{
    let set = index_set(scope, domain, parts.len())?;
    match set {
        Some(own) => matrix_of(scope.alloc, &own, parts),
        None => Ok(Unrolled::Fixed(None)),
    }
}
