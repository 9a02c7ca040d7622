//! The values of the variables: which literals are true, in which order, at which level and why.

ghost use Rattle.std.specs.Prelude.{◌≡◌, ℕ, ◌+◌, ◌-◌, ◌^◌, ◌<◌, ◌≤◌, [], ◌∷◌, ◌++◌, length, take, max, IfOk, IfSome, OnOk, OnErr, IsSome, None, Some, is_none, if◌then◌else◌, slice_index_or, All};
ghost use Rattle.std.specs.Option.{option_map, option_map_or};
ghost use Rattle.cnf_core.specs.Literal.{is_among};
ghost use Rattle.sat_state.specs.Trail.{Entry, literals, level_of, trail_value, entry_of, next_level};

use crate::short::ShortLit;
use crate::slot::Slot;
use ep_base::Memory;
use std::alloc::Global;
use std::marker::Model;

// How many levels an entry with this reason opens.
fn levels_opened(reason: Option<u64>) -> u64
    ensures { result ≡ (if is_none reason then 1 else 0) }
{
    u64::from(reason.is_none())
}

/// The literals that are true, in the order in which they were made true.
#[derive(Debug, Drop)]
pub struct Assignment {
    slots: Vec<Slot>,
    trail: Vec<ShortLit>,
    level: u64,
}

impl Model for Assignment {
    ghost use Rattle.sat_state.specs.Assigned.{TrailState};

    ghost Value = { TrailState };

    ghost use Rattle.sat_state.specs.AssignmentInside.{seen, IsAssignment};

    ghost view = { seen };

    ghost invariant = { IsAssignment };
}

impl Assignment {
    /// No variable is known, and no literal is true.
    pub fn new(alloc: Global) -> Result<Assignment, Memory>
        ensures vars { IfOk result (λ made. made.vars ≡ 0) }
        ensures trail { IfOk result (λ made. made.trail ≡ []) }
    {
        let mut slots = Vec::with_capacity(alloc, 1)?;
        slots.push(Slot::none())?;
        Ok(Assignment {
            slots,
            trail: Vec::with_capacity(alloc, 1)?,
            level: 0,
        })
    }

    /// Makes the variables up to this number known.
    pub fn grow(&mut self, vars: u64) -> Result<(), Memory>
        ensures vars { OnOk result (self.new.vars ≡ max self.old.vars vars) }
        ensures trail { self.new.trail ≡ self.old.trail }
        ensures err { OnErr result (self.new ≡ self.old) }
    {
        let wanted = vars.checked_add(1).ok_or(Memory)? as usize;
        if wanted <= self.slots.len() {
            return Ok(());
        }
        if wanted >= u32::MAX as usize {
            return Err(Memory);
        }
        self.trail.reserve(wanted)?;
        self.slots.resize(wanted, Slot::none())?;
        Ok(())
    }

    /// How many decisions there are.
    pub fn level(&self) -> u64
        ensures { result ≡ level_of self.now.trail }
    {
        self.level
    }

    /// The literals that are true, in order.
    pub fn trail(&self) -> &[ShortLit]
        ensures value { result.now ≡ literals self.now.trail }
        ensures known { All (λ l. l.var ≤ self.now.vars) result.now }
        ensures few { length self.now.trail ≤ self.now.vars }
    {
        self.trail.as_slice()
    }

    /// The level at which a variable got its value, or none where it has none.
    pub fn level_in(&self, var: u64) -> Option<u64>
        ensures { result ≡ option_map (λ e. e.level) (entry_of self.now.trail var) }
    {
        let var = var as usize;
        if var < self.slots.len() {
            self.slots[var].level()
        } else {
            None
        }
    }

    /// The clause that gave a variable its value, or none where it was decided or has none.
    pub fn reason_in(&self, var: u64) -> Option<u64>
        ensures { result ≡ option_map_or (λ e. e.reason) (entry_of self.now.trail var) None }
    {
        let var = var as usize;
        if var < self.slots.len() {
            self.slots[var].reason()
        } else {
            None
        }
    }

    /// The level at which a variable got its value.
    pub fn level_of(&self, var: u64) -> u64
        requires { IsSome (trail_value (literals self.now.trail) var) }
        ensures { option_map (λ e. e.level) (entry_of self.now.trail var) ≡ Some result }
    {
        self.slots[var as usize].level().unwrap()
    }

    /// The clause that gave a variable its value, or none where it was decided.
    pub fn reason(&self, var: u64) -> Option<u64>
        requires { IsSome (trail_value (literals self.now.trail) var) }
        ensures { option_map (λ e. e.reason) (entry_of self.now.trail var) ≡ Some result }
    {
        self.slots[var as usize].reason()
    }

    /// Makes a literal true. Without a reason it is a decision, which opens a level.
    pub fn push(&mut self, lit: ShortLit, reason: Option<u64>)
        requires number { IfSome reason (λ number. number < 2 ^ 32 - 1) }
        requires known { lit.var ≤ self.old.vars }
        requires free { trail_value (literals self.old.trail) lit.var ≡ None }
        ensures vars { self.new.vars ≡ self.old.vars }
        ensures trail { self.new.trail
            ≡ self.old.trail ++ record { literal = lit; level = next_level self.old.trail reason; reason = reason } ∷ [] }
    {
        self.level += levels_opened(reason);
        self.slots[lit.var() as usize] = Slot::some(self.level, reason);
        self.trail.push_reserved(lit);
    }

    /// Takes the last literal back.
    pub fn pop(&mut self) -> ShortLit
        requires { 0 < length self.old.trail }
        ensures vars { self.new.vars ≡ self.old.vars }
        ensures trail { self.new.trail ≡ take (length self.old.trail - 1) self.old.trail }
        ensures literal { literals self.old.trail ≡ literals self.new.trail ++ result ∷ [] }
        ensures known { result.var ≤ self.old.vars }
        ensures free { trail_value (literals self.new.trail) result.var ≡ None }
    {
        let lit = self.trail.pop().unwrap();
        let var = lit.var() as usize;
        let reason = self.slots[var].reason();
        self.slots[var] = Slot::none();
        self.level -= levels_opened(reason);
        lit
    }
}
