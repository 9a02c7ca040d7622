//! The values of the variables, with a table of the literals that are true.

ghost use Rattle.std.specs.Prelude.{◌≡◌, ℕ, ◌+◌, ◌-◌, ◌^◌, ◌<◌, ◌≤◌, [], ◌∷◌, ◌++◌, length, take, max, true, false, if◌then◌else◌, IfOk, IfSome, OnOk, OnErr, IsSome, None, Some, All};
ghost use Rattle.std.specs.Option.{option_map, option_map_or};
ghost use Rattle.cnf_core.specs.Literal.{is_among};
ghost use Rattle.sat_state.specs.Trail.{Entry, literals, level_of, trail_value, entry_of, next_level};

use crate::assignment::Assignment;
use crate::short::ShortLit;
use crate::watches::code;
use cnf_core::Lit;
use ep_base::Memory;
use std::alloc::Global;
use std::marker::Model;

/// The literals that are true, in the order in which they were made true, and for each literal whether it is.
#[derive(Debug, Drop)]
pub struct Values {
    assigned: Assignment,
    truths: Vec<bool>,
}

impl Model for Values {
    ghost use Rattle.sat_state.specs.Assigned.{TrailState};

    ghost Value = { TrailState };

    ghost use Rattle.sat_state.specs.ValuesInside.{seen_values, AreValues};

    ghost view = { seen_values };

    ghost invariant = { AreValues };
}

// The value of a variable of which these literals are true.
fn sign(positive: bool, negative: bool) -> Option<bool>
    ensures { result ≡ (if positive then Some true else (if negative then Some false else None)) }
{
    if positive {
        Some(true)
    } else if negative {
        Some(false)
    } else {
        None
    }
}

impl Values {
    /// No variable is known, and no literal is true.
    pub fn new(alloc: Global) -> Result<Values, Memory>
        ensures vars { IfOk result (λ made. made.vars ≡ 0) }
        ensures trail { IfOk result (λ made. made.trail ≡ []) }
    {
        Ok(Values {
            assigned: Assignment::new(alloc)?,
            truths: Vec::new(alloc),
        })
    }

    /// Makes the variables up to this number known.
    pub fn grow(&mut self, vars: u64) -> Result<(), Memory>
        ensures vars { OnOk result (self.new.vars ≡ max self.old.vars vars) }
        ensures trail { self.new.trail ≡ self.old.trail }
        ensures err { OnErr result (self.new ≡ self.old) }
    {
        if vars >= u64::from(u32::MAX / 2) {
            return Err(Memory);
        }
        let wanted = 2 * vars as usize + 2;
        if self.truths.len() < wanted {
            self.truths.resize(wanted, false)?;
        }
        self.assigned.grow(vars)
    }

    /// The value of a variable.
    pub fn value(&self, var: u64) -> Option<bool>
        ensures value { result ≡ trail_value (literals self.now.trail) var }
        ensures unknown { self.now.vars < var → result ≡ None }
    {
        // Shows that no other variable has a value.
        let _trail = self.assigned.trail();
        sign(self.truth(var, true), self.truth(var, false))
    }

    // Whether the literal of a variable with a sign is true.
    fn truth(&self, var: u64, positive: bool) -> bool
        ensures { result ≡ is_among (literals self.now.trail) (record { var = var; positive = positive }) }
    {
        if var as usize >= self.truths.len() {
            return false;
        }
        let code = 2 * var as usize + if positive { 0 } else { 1 };
        if code < self.truths.len() {
            return self.truths[code];
        }
        false
    }

    /// Whether a literal in four bytes is true.
    pub fn is_short_true(&self, lit: ShortLit) -> bool
        ensures { result ≡ is_among (literals self.now.trail) lit }
    {
        let code = lit.code();
        if code < self.truths.len() {
            return self.truths[code];
        }
        false
    }

    /// Whether a literal is true.
    pub fn is_true(&self, lit: Lit) -> bool
        ensures { result ≡ is_among (literals self.now.trail) lit }
    {
        let code = code(lit);
        if code < self.truths.len() {
            return self.truths[code];
        }
        false
    }

    /// How many decisions there are.
    pub fn level(&self) -> u64
        ensures { result ≡ level_of self.now.trail }
    {
        self.assigned.level()
    }

    /// The literals that are true, in order.
    pub fn trail(&self) -> &[ShortLit]
        ensures value { result.now ≡ literals self.now.trail }
        ensures known { All (λ l. l.var ≤ self.now.vars) result.now }
        ensures few { length self.now.trail ≤ self.now.vars }
    {
        self.assigned.trail()
    }

    /// The level at which a variable got its value, or none where it has none.
    pub fn level_in(&self, var: u64) -> Option<u64>
        ensures { result ≡ option_map (λ e. e.level) (entry_of self.now.trail var) }
    {
        self.assigned.level_in(var)
    }

    /// The clause that gave a variable its value, or none where it was decided or has none.
    pub fn reason_in(&self, var: u64) -> Option<u64>
        ensures { result ≡ option_map_or (λ e. e.reason) (entry_of self.now.trail var) None }
    {
        self.assigned.reason_in(var)
    }

    /// The level at which a variable got its value.
    pub fn level_of(&self, var: u64) -> u64
        requires { IsSome (trail_value (literals self.now.trail) var) }
        ensures { option_map (λ e. e.level) (entry_of self.now.trail var) ≡ Some result }
    {
        self.assigned.level_of(var)
    }

    /// The clause that gave a variable its value, or none where it was decided.
    pub fn reason(&self, var: u64) -> Option<u64>
        requires { IsSome (trail_value (literals self.now.trail) var) }
        ensures { option_map (λ e. e.reason) (entry_of self.now.trail var) ≡ Some result }
    {
        self.assigned.reason(var)
    }

    /// Makes a literal true. Without a reason it is a decision, which opens a level.
    pub fn push(&mut self, lit: Lit, reason: Option<u64>)
        requires number { IfSome reason (λ number. number < 2 ^ 32 - 1) }
        requires known { lit.var ≤ self.old.vars }
        requires free { trail_value (literals self.old.trail) lit.var ≡ None }
        ensures vars { self.new.vars ≡ self.old.vars }
        ensures trail { self.new.trail
            ≡ self.old.trail ++ record { literal = lit; level = next_level self.old.trail reason; reason = reason } ∷ [] }
    {
        self.assigned.push(ShortLit::of(lit), reason);
        self.truths[code(lit)] = true;
    }

    /// Takes the last literal back.
    pub fn pop(&mut self) -> ShortLit
        requires { 0 < length self.old.trail }
        ensures vars { self.new.vars ≡ self.old.vars }
        ensures trail { self.new.trail ≡ take (length self.old.trail - 1) self.old.trail }
        ensures literal { literals self.old.trail ≡ literals self.new.trail ++ result ∷ [] }
        ensures known { result.var ≤ self.old.vars }
        ensures free { trail_value (literals self.new.trail) result.var ≡ None }
    {
        let lit = self.assigned.pop();
        self.truths[lit.code()] = false;
        lit
    }
}
