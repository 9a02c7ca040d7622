//! Marks on variables, which are all taken away in one step.

ghost use Rattle.std.specs.Prelude.{◌≡◌, ℕ, ◌+◌, ◌^◌, ◌<◌, ◌≤◌, [], length, slice_set, true, false, All, OnOk};
ghost use Rattle.sat_search.specs.Analysis.{is_marked};

use ep_base::Memory;
use std::alloc::Global;
use std::marker::Model;

/// Which variables are marked: those whose stamp is the current one.
#[derive(Debug, Drop)]
pub struct Marks {
    stamps: Vec<u32>,
    stamp: u32,
}

// The latest stamp, after which there is another one: the one given, or else 0, to which all stamps are set.
fn latest(stamps: &mut Vec<u32>, stamp: u32) -> u32
    requires { All (λ s. s ≤ stamp) stamps.old.items }
    ensures room { length stamps.new.items ≡ length stamps.old.items }
    ensures none_later { All (λ s. s ≤ result) stamps.new.items }
    ensures below { result + 1 < 2 ^ 32 }
{
    if stamp == u32::MAX {
        stamps.fill(0);
        return 0;
    }
    stamp
}

impl Model for Marks {
    ghost use Rattle.std.specs.Prelude.{List, Bool};

    ghost Value = { List Bool };

    ghost use Rattle.sat_search.specs.MarksInside.{seen_marks, AreStamps};

    ghost view = { seen_marks };

    ghost invariant = { AreStamps };
}

impl Marks {
    /// No variable is known.
    pub fn new(alloc: Global) -> Marks
        ensures { result ≡ [] }
    {
        Marks {
            stamps: Vec::new(alloc),
            stamp: 1,
        }
    }

    /// Makes the variables up to this number known.
    pub fn grow(&mut self, vars: u64) -> Result<(), Memory>
        ensures { OnOk result (vars < length self.new) }
    {
        let wanted = vars.saturating_add(1) as usize;
        if self.stamps.len() < wanted {
            self.stamps.resize(wanted, 0)?;
        }
        Ok(())
    }

    /// Takes all marks away. Constant in time, but for once in 2^32 calls.
    pub fn clear(&mut self)
        ensures room { length self.new ≡ length self.old }
        ensures none { (v : ℕ) → is_marked self.new v ≡ false }
    {
        self.stamp = latest(&mut self.stamps, self.stamp) + 1;
    }

    /// Marks a variable, if it is known.
    pub fn mark(&mut self, var: u64)
        ensures { self.new ≡ slice_set self.old var true }
    {
        let place = var as usize;
        if place < self.stamps.len() {
            self.stamps[place] = self.stamp;
        }
    }

    /// Whether a variable is marked.
    pub fn is_marked(&self, var: u64) -> bool
        ensures { result ≡ is_marked self.now var }
    {
        match self.stamps.get(var as usize) {
            Some(stamp) => *stamp == self.stamp,
            None => false,
        }
    }
}
