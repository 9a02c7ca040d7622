//! Keys: lists of numbers by which parts of a list are found.

ghost use Rattle.std.specs.Prelude.{◌≡◌, IfOk};

use crate::Memory;
use std::alloc::Global;
use std::hash::{Hash, Hasher};
use std::marker::Model;

/// The numbers by which a part is found, or a row of a table. Contracts see the list of them.
#[derive(Debug, Drop)]
pub struct Key {
    numbers: Vec<i64>,
}

impl Model for Key {
    ghost use Rattle.std.specs.Prelude.{ℤ, List};

    ghost Value = { List ℤ };

    ghost view = { λ key. key.numbers.items };
}

impl Key {
    /// The key of these numbers.
    pub fn new(numbers: Vec<i64>) -> Key
        ensures { result ≡ numbers.items }
    {
        Key { numbers }
    }

    /// The numbers in order.
    pub fn numbers(&self) -> &[i64]
        ensures { result.now ≡ self.now }
    {
        &self.numbers
    }

    /// The same key once more.
    pub fn copy(&self, alloc: Global) -> Result<Key, Memory>
        ensures { IfOk result (λ key. key ≡ self.now) }
    {
        let numbers = Vec::from_slice(alloc, self.numbers.as_slice())?;
        Ok(Key { numbers })
    }
}

impl PartialEq for Key {
    ghost use Rattle.std.proofs.Common.{rules};
    ghost use Rattle.std.specs.Cmp.Lexicographic.{pointwise};
    ghost use Rattle.std.specs.Cmp.Rules.{comparing};
    ghost use Rattle.std.specs.Ordering.{int_eq};

    ghost eq = { pointwise int_eq };

    ghost laws = { Prim.search (comparing, rules) };

    fn eq(&self, other: &Key) -> bool {
        self.numbers.as_slice() == other.numbers.as_slice()
    }
}

impl Eq for Key {
    ghost use Rattle.std.proofs.Common.{rules};
    ghost use Rattle.std.specs.Cmp.Rules.{comparing};

    ghost laws = { Prim.search (comparing, rules) };
}

impl Hash for Key {
    ghost use Rattle.std.proofs.Common.{rules};
    ghost use Rattle.std.specs.Cmp.Rules.{hashing};
    ghost use Rattle.std.specs.Hash as fed;

    ghost hash_input = { fed.slice fed.i64 };

    ghost respects_eq = { Prim.search (hashing, rules) };

    fn hash<H: Hasher>(&self, state: &mut H) {
        self.numbers.as_slice().hash(state);
    }
}
