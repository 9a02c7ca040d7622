//! Which calls of a device in memory fail, and how many were made.

ghost use Rattle.std.specs.Prelude.{◌≡◌, ◌≤◌, ◌<◌, ◌^◌};
ghost use Rattle.ep_base.specs.Calls.{next_fails, after_call, no_call, one_more};

use std::marker::Model;

/// Numbers the calls of a device from 1, fails those that were chosen, and counts them.
#[derive(Drop)]
pub struct Calls {
    fails: Vec<u64>,
    made: u64,
    faults: u64,
}

impl Model for Calls {
    ghost use Rattle.ep_base.specs.Calls.{CallsSoFar, calls_code};

    ghost Value = { CallsSoFar };

    ghost coded = { calls_code };

    ghost view = { λ c. record { fails = c.fails.items; made = c.made; faults = c.faults } };
}

impl Calls {
    /// No call was made.
    pub fn new(fails: Vec<u64>) -> Calls
        ensures { result ≡ no_call fails.items }
    {
        Calls {
            fails,
            made: 0,
            faults: 0,
        }
    }

    /// Counts one more call, and says whether it fails. Linear in the chosen numbers.
    pub fn next_fails(&mut self) -> bool
        ensures fails { result ≡ next_fails self.old }
        ensures after { self.new ≡ after_call self.old }
        ensures never_falls { self.old.faults ≤ self.new.faults }
        ensures fits { self.new.faults < 2 ^ 64 }
    {
        let faults = self.faults;
        self.made = self.made.saturating_add(1);
        let fails = self.fails.contains(&self.made);
        self.faults = if fails {
            faults.saturating_add(1)
        } else {
            faults
        };
        fails
    }
}
