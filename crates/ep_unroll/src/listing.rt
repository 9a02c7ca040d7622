//! The lists of indices over index domains.

ghost use Rattle.std.specs.Prelude.{◌≡◌, ◌++◌, ◌∷◌, [], IfOk, OnOk, flat_map, map};
ghost use Rattle.ep_unroll.specs.Cells as defined;

use super::blocks::cells_over;
use ep_base::{Key, Memory, Runs};
use ep_numbers::listed;
use std::alloc::Global;

/// A number, and others behind it.
fn in_front(alloc: Global, number: i64, others: &[i64]) -> Result<Vec<i64>, Memory>
    ensures { IfOk result (λ all. all.items ≡ number ∷ others.now) }
{
    let mut all = Vec::new(alloc);
    all.push(number)?;
    for other in others {
        all.push(*other)?;
    }
    Ok(all)
}

/// Adds each of these keys with a number in front.
pub fn push_all_behind(
    alloc: Global,
    keys: &mut Vec<Key>,
    number: i64,
    others: &[Key],
) -> Result<(), Memory>
    ensures { OnOk result (keys.new.items ≡ keys.old.items ++ map (λ rest. number ∷ rest) others.now) }
{
    for other in others {
        keys.push(Key::new(in_front(alloc, number, other.numbers())?))?;
    }
    Ok(())
}

/// Each of these numbers in front of each of these keys.
fn crossed(alloc: Global, numbers: &[i64], others: &[Key]) -> Result<Vec<Key>, Memory>
    ensures { IfOk result (λ keys.
        keys.items ≡ flat_map (λ i. map (λ rest. i ∷ rest) others.now) numbers.now) }
{
    let mut keys = Vec::new(alloc);
    for number in numbers {
        push_all_behind(alloc, &mut keys, *number, others)?;
    }
    Ok(keys)
}

/// The key without a number, alone.
fn no_index(alloc: Global) -> Result<Vec<Key>, Memory>
    ensures { IfOk result (λ keys. keys.items ≡ defined.index_lists []) }
{
    let mut keys = Vec::new(alloc);
    keys.push(Key::new(Vec::new(alloc)))?;
    Ok(keys)
}

/// The lists of indices over index domains, the last index running fastest. Where one of these is empty there is none, however
/// long the others are.
pub fn index_lists(alloc: Global, domains: &[Runs]) -> Result<Vec<Key>, Memory>
    ensures { IfOk result (λ keys. keys.items ≡ defined.index_lists domains.now) }
{
    let cells = cells_over(domains)?;
    if cells == 0 {
        return Ok(Vec::new(alloc));
    }
    let mut keys = no_index(alloc)?;
    let count = domains.len();
    for passed in 0..count {
        let numbers = listed(alloc, &domains[count - 1 - passed])?;
        keys = crossed(alloc, &numbers, &keys)?;
    }
    Ok(keys)
}
