//! Matrices that are made of their parts, and the indices of these.

ghost use Rattle.std.specs.Prelude.{◌≡◌, ◌==◌, ◌++◌, ◌∷◌, [], pos, Some, None, IfOk, if◌then◌else◌, length, map, option_map};
ghost use Rattle.ep_base.specs.Options.{map_both, on_both};
ghost use Rattle.ep_base.specs.Runs.{counting};
ghost use Rattle.ep_tree.specs.Values.{with_indices};
ghost use Rattle.ep_tree.specs.Views.{value_tree};
ghost use Rattle.ep_eval.specs.Helds.{seen_held};
ghost use Rattle.ep_eval.specs.Literals.{listed_in};

use super::copies::given_value;
use super::held::Held;
use super::walking::{next_number, walk_of};
use ep_base::{Memory, Run, Runs};
use ep_tree::Value;
use std::alloc::Global;

/// Values and one more, where all are there.
pub fn with_value(
    alloc: Global,
    values: Option<Vec<Value>>,
    seen: Option<Held>,
) -> Result<Option<Vec<Value>>, Memory>
    ensures { IfOk result (λ more. listed_in more
        ≡ map_both (λ all one. all ++ one ∷ []) (listed_in values) (seen_held seen.entry)) }
{
    let Some(mut others) = values else {
        return Ok(None);
    };
    let Some(held) = seen else {
        return Ok(None);
    };
    let value = given_value(alloc, held)?;
    others.push(value)?;
    Ok(Some(others))
}

/// The numbers from 1 on, so many of them.
pub fn first_numbers(alloc: Global, count: usize) -> Result<Runs, Memory>
    ensures { IfOk result (λ set. set ≡ counting (pos 1) count) }
{
    let Ok(last) = i64::try_from(count) else {
        return Err(Memory);
    };
    let mut parts = Vec::new(alloc);
    parts.push(Run { lo: 1, hi: last })?;
    let set = Runs::new(alloc, parts)?;
    Ok(set)
}

/// The numbers of a set, where there are so many. No more than these are walked to.
fn listed(alloc: Global, set: &Runs, count: usize) -> Result<Option<Vec<i64>>, Memory>
    ensures { IfOk result (λ numbers. option_map (λ v. v.items) numbers
        ≡ (if length set.now == count then Some set.now else None)) }
{
    let mut numbers = Vec::new(alloc);
    let mut walk = walk_of(set.runs());
    while let Some((number, behind)) = next_number(walk) {
        if numbers.len() >= count {
            return Ok(None);
        }
        numbers.push(number)?;
        walk = behind;
    }
    if numbers.len() < count {
        return Ok(None);
    }
    Ok(Some(numbers))
}

/// A matrix of some parts with the numbers of a set as indices, where these are as many.
fn matrix_of<'a>(alloc: Global, set: &Runs, parts: Vec<Value>) -> Result<Option<Held<'a>>, Memory>
    ensures { IfOk result (λ made. seen_held made
        ≡ with_indices set.now (map value_tree parts.items)) }
{
    let own = listed(alloc, set, parts.len())?;
    match own {
        Some(own) => Ok(Some(Held::Made(Value::Matrix(own, parts)))),
        None => Ok(None),
    }
}

/// A matrix of some parts, where they and the set of their indices are there.
#[tactic(auto, unfolding(ep_base::specs::Options::on_both))]
pub fn made_matrix<'a>(
    alloc: Global,
    set: Option<Runs>,
    values: Option<Vec<Value>>,
) -> Result<Option<Held<'a>>, Memory>
    ensures { IfOk result (λ made. seen_held made ≡ on_both set (listed_in values) with_indices) }
{
    let Some(own) = set else {
        return Ok(None);
    };
    let Some(parts) = values else {
        return Ok(None);
    };
    let made = matrix_of(alloc, &own, parts)?;
    Ok(made)
}
