//! The variables that a conflict met, and how many of them were not yet looked at.

ghost use Rattle.std.specs.Prelude.{◌≡◌, ◌+◌, ◌-◌, OnOk};

use ep_base::Memory;
use std::alloc::Global;
use std::marker::Model;

/// Variables in the order in which they were met, and how many of them were looked at. Contracts see how many are left.
#[derive(Debug, Drop)]
pub struct Met {
    vars: Vec<u64>,
    passed: u64,
}

impl Model for Met {
    ghost use Rattle.std.specs.Prelude.{ℕ, ◌-◌, ◌≤◌, length};

    ghost Value = { ℕ };

    ghost view = { λ met. length met.vars.items - met.passed };

    ghost invariant = { λ met. met.passed ≤ length met.vars.items };
}

impl Met {
    /// None was met.
    pub fn new(alloc: Global) -> Met
        ensures { result ≡ 0 }
    {
        Met {
            vars: Vec::new(alloc),
            passed: 0,
        }
    }

    /// Forgets all.
    pub fn clear(&mut self)
        ensures { self.new ≡ 0 }
    {
        self.vars.clear();
        self.passed = 0;
    }

    /// Meets one more.
    pub fn push(&mut self, var: u64) -> Result<(), Memory>
        ensures { OnOk result (self.new ≡ self.old + 1) }
    {
        self.vars.push(var)?;
        Ok(())
    }

    /// Looks at one, if any is left.
    pub fn pass(&mut self)
        ensures { self.new ≡ self.old - 1 }
    {
        if self.passed < self.vars.len() as u64 {
            self.passed += 1;
        }
    }

    /// How many are left.
    pub fn left(&self) -> u64
        ensures { result ≡ self.now }
    {
        self.vars.len() as u64 - self.passed
    }

    /// All that were met, in order.
    pub fn all(&self) -> &[u64] {
        &self.vars
    }
}
