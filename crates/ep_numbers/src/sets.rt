//! Sets of numbers, and keys, once more.

ghost use Rattle.std.specs.Prelude.{◌≡◌, IfOk};

use ep_base::{Key, Memory, Runs};
use std::alloc::Global;

/// The same keys once more. Linear in their numbers.
pub fn copy_keys(alloc: Global, keys: &[Key]) -> Result<Vec<Key>, Memory>
    ensures { IfOk result (λ copies. copies.items ≡ keys.now) }
{
    let mut copies = Vec::with_capacity(alloc, keys.len())?;
    for key in keys {
        copies.push(key.copy(alloc)?)?;
    }
    Ok(copies)
}

/// The same sets of numbers once more. Linear in their runs.
pub fn copy_sets(alloc: Global, sets: &[Runs]) -> Result<Vec<Runs>, Memory>
    ensures { IfOk result (λ copies. copies.items ≡ sets.now) }
{
    let mut copies = Vec::with_capacity(alloc, sets.len())?;
    for set in sets {
        copies.push(set.copy(alloc)?)?;
    }
    Ok(copies)
}
