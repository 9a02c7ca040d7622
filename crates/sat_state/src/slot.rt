//! What is kept of a variable beside its value, in eight bytes.

ghost use Rattle.std.specs.Prelude.{◌≡◌, ℕ, ◌-◌, ◌^◌, ◌<◌, None, Some, IsSome, IfSome};
ghost use Rattle.std.specs.Option.{option_map, option_map_or};
ghost use Rattle.sat_state.specs.Assigned.{Origin};

use std::marker::Model;

/// Stands for no level and for no reason.
const NONE: u32 = u32::MAX;

/// The level and the reason of a variable, if it has a value.
#[derive(Clone, Copy, Debug)]
pub struct Slot {
    level: u32,
    reason: u32,
}

impl Model for Slot {
    ghost use Rattle.std.specs.Prelude.{Option};
    ghost use Rattle.sat_state.specs.Assigned.{Origin};
    ghost use Rattle.sat_state.specs.SlotInside.{seen_slot, IsSlot, slot_seen, slot_again};

    ghost Value = { Option Origin };

    ghost view = { seen_slot };

    ghost invariant = { IsSlot };

    ghost inverse = { slot_seen };

    ghost inverse_ok = { slot_again };
}

impl Slot {
    /// That of a variable without a value.
    pub fn none() -> Slot
        ensures { result ≡ None }
    {
        Slot {
            level: NONE,
            reason: NONE,
        }
    }

    /// That of a variable with a value of this level and reason.
    pub fn some(level: u64, reason: Option<u64>) -> Slot
        requires level { level < 2 ^ 32 - 1 }
        requires reason { IfSome reason (λ number. number < 2 ^ 32 - 1) }
        ensures { result ≡ Some (record { level = level; reason = reason }) }
    {
        Slot {
            level: level as u32,
            reason: match reason {
                Some(number) => number as u32,
                None => NONE,
            },
        }
    }

    /// The level, if the variable has a value.
    pub fn level(self) -> Option<u64>
        ensures { result ≡ option_map (λ s. s.level) self }
    {
        if self.level == NONE {
            None
        } else {
            Some(u64::from(self.level))
        }
    }

    /// The reason, if the variable has a value and one.
    pub fn reason(self) -> Option<u64>
        ensures { result ≡ option_map_or (λ s. s.reason) self None }
    {
        if self.level == NONE || self.reason == NONE {
            None
        } else {
            Some(u64::from(self.reason))
        }
    }
}
