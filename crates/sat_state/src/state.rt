//! The state of a search: clauses, and the literals that are true by decision or by a clause.

ghost use Rattle.std.specs.Prelude.{◌≡◌, ◌≢◌, ℕ, ◌+◌, ◌<◌, ◌≤◌, ◌⊎◌, [], ◌∷◌, ◌++◌, length, take, drop, Bool, All, AllPairs, None, Some, IfOk, OnOk, OnErr, IsSome, IsNone, IfSome, ◌↔◌, true, filter, nat_le, slice_index_or};
ghost use Rattle.std.specs.Option.{option_map, option_map_or};
ghost use Rattle.cnf_core.specs.Literal.{Literal, IsOrdered, IsVariable, VariablesUpTo};
ghost use Rattle.cnf_core.specs.Steps.{IsLastOf};
ghost use Rattle.sat_state.specs.Trail.{literals, trail_value, level_of, entry_of, IsFalsified, NamesFalsified, IsGrounded, IsForcedAt, IsOpenBelow, FollowsFromDecisions};
ghost use Rattle.sat_state.specs.View.{StateView, IsPropagated, BringsIn, AreTwoOf, IsGuarded};

use crate::parts::Parts;
use crate::short::ShortLit;
use cnf_core::{Clause, Lit};
use ep_base::Memory;
use std::alloc::Global;
use std::marker::Model;

/// How propagation ended.
#[derive(Clone, Copy, Debug, PartialEq, Eq)]
pub enum Propagated {
    /// Nothing is left to propagate.
    Done,
    /// Each literal of the clause of this number is false.
    Conflict(u64),
}

/// Clauses, numbered from 0 in the order in which they came, and the trail: the literals that were made true, by a decision or
/// by a clause, in order. Each decision opens a level.
#[derive(Debug, Drop)]
pub struct State {
    parts: Parts,
}

impl Model for State {
    ghost use Rattle.sat_state.specs.View.{StateView};

    ghost Value = { StateView };

    ghost use Rattle.sat_state.specs.StateInside.{seen_state, IsState};

    ghost view = { seen_state };

    ghost invariant = { IsState };
}

impl State {
    // No clause, and the variables up to this number.
    fn empty(alloc: Global, vars: u64) -> Result<State, Memory>
        ensures clauses { IfOk result (λ state. state.clauses ≡ []) }
        ensures vars { IfOk result (λ state. state.vars ≡ vars) }
        ensures trail { IfOk result (λ state. state.trail ≡ []) }
    {
        let mut parts = Parts::new(alloc)?;
        parts.grow(vars)?;
        Ok(State { parts })
    }

    /// The clauses in order, at level 0 with no literal true. The variables up to this number are known. Reserves what the calls
    /// below need, in tables as long as the number.
    pub fn new(alloc: Global, clauses: &[Clause], vars: u64) -> Result<State, Memory>
        requires { All (VariablesUpTo vars) clauses.now }
        ensures clauses { IfOk result (λ state. state.clauses ≡ clauses.now) }
        ensures vars { IfOk result (λ state. state.vars ≡ vars) }
        ensures trail { IfOk result (λ state. state.trail ≡ []) }
    {
        let mut state = State::empty(alloc, vars)?;
        for clause in clauses {
            state.add(clause.copied()?)?;
        }
        Ok(state)
    }

    /// Appends a clause, and makes its variables known. What it forces is left to `propagate`. Where there are decisions, the
    /// clause has two literals that aren't false below their last level, as a learnt clause has at the level to which it leads
    /// back. After a refusal all is as it was.
    pub fn add(&mut self, clause: Clause) -> Result<(), Memory>
        requires { (level_of self.old.trail ≡ 0) ⊎ IsOpenBelow self.old.trail clause }
        ensures clauses { OnOk result (self.new.clauses ≡ self.old.clauses ++ clause ∷ []) }
        ensures vars { OnOk result (BringsIn self.old.vars clause self.new.vars) }
        ensures trail { self.new.trail ≡ self.old.trail }
        ensures grounded { IsGrounded self.new.clauses self.new.trail }
        ensures err_clauses { OnErr result (self.new.clauses ≡ self.old.clauses) }
        ensures err_vars { OnErr result (self.new.vars ≡ self.old.vars) }
    {
        self.parts.add(clause)
    }

    /// Tells how many clauses that will come name a known variable, with this sign, so that what is kept of it gets the room that it
    /// needs and no more. Nothing that is seen changes.
    pub fn expect(&mut self, var: u64, positive: bool, count: u32)
        ensures { self.new ≡ self.old }
    {
        let code = var.saturating_mul(2).saturating_add(u64::from(!positive));
        self.parts.expect(code as usize, count);
    }

    /// Opens a level, at which a literal is made true without a reason. Takes no memory.
    pub fn decide(&mut self, lit: Lit)
        requires known { lit.var ≤ self.old.vars }
        requires free { trail_value (literals self.old.trail) lit.var ≡ None }
        requires propagated { IsPropagated self.old }
        ensures clauses { self.new.clauses ≡ self.old.clauses }
        ensures vars { self.new.vars ≡ self.old.vars }
        ensures trail { self.new.trail
            ≡ self.old.trail ++ record { literal = lit; level = level_of self.old.trail + 1; reason = None } ∷ [] }
        ensures grounded { IsGrounded self.new.clauses self.new.trail }
    {
        self.parts.finish();
        self.parts.decide(lit);
    }

    /// Takes back what was made true at the levels above this one. Takes no memory, and is linear in what it undoes.
    pub fn backtrack(&mut self, level: u64)
        requires { level ≤ level_of self.old.trail }
        ensures clauses { self.new.clauses ≡ self.old.clauses }
        ensures vars { self.new.vars ≡ self.old.vars }
        ensures trail { self.new.trail ≡ filter (λ e. nat_le e.level level) self.old.trail }
        ensures level { level_of self.new.trail ≡ level }
        ensures stays { level ≡ level_of self.old.trail → self.new.trail ≡ self.old.trail }
        ensures propagated { level < level_of self.old.trail → IsPropagated self.new }
        ensures grounded { IsGrounded self.new.clauses self.new.trail }
    {
        if level < self.parts.assigned.level() {
            self.parts.unwind(level);
        }
    }

    /// Makes true what the clauses force, up to a falsified clause. Takes no memory, and looks at each clause once for each of
    /// its literals that became false.
    pub fn propagate(&mut self) -> Propagated
        ensures clauses { self.new.clauses ≡ self.old.clauses }
        ensures vars { self.new.vars ≡ self.old.vars }
        ensures front { take (length self.old.trail) self.new.trail ≡ self.old.trail }
        ensures forced { All (IsForcedAt (level_of self.old.trail)) (drop (length self.old.trail) self.new.trail) }
        ensures level { level_of self.new.trail ≡ level_of self.old.trail }
        ensures grounded { IsGrounded self.new.clauses self.new.trail }
        ensures done { result ≡ Propagated.Done → IsPropagated self.new }
        ensures seen { result ≡ Propagated.Done → self.new.seen ≡ true }
        ensures none_falsified { result ≡ Propagated.Done
            → All (λ clause. IsFalsified (literals self.new.trail) clause → ⊥) self.new.clauses }
        ensures none_unit { result ≡ Propagated.Done
            → All (λ clause. (l : Literal) → IsLastOf (literals self.new.trail) clause l → ⊥) self.new.clauses }
        ensures conflict { (number : ℕ) → result ≡ Propagated.Conflict number
            → NamesFalsified self.new.clauses self.new.trail number }
    {
        match self.parts.propagate() {
            Some(number) => Propagated::Conflict(number as u64),
            None => Propagated::Done,
        }
    }

    /// Tells propagation that a clause was used to explain a conflict: for some time it looks at it early. Nothing that is seen
    /// changes.
    pub fn touch(&mut self, number: u64)
        ensures { self.new ≡ self.old }
    {
        self.parts.clauses.touch(number as usize);
    }

    /// Lets propagation look no more at a clause, if a later one has no literal that it hasn't, since what it forces the later one
    /// forces. Answers whether it is so. Nothing that is seen changes. Reads both clauses, and looks through the lists of the two
    /// literals that the clause watches from their ends back to it.
    pub fn retire(&mut self, number: u64, later: u64) -> bool
        ensures { self.new ≡ self.old }
    {
        self.parts.retire(number as usize, later as usize)
    }

    /// The value of a variable, or none where it has none or isn't known.
    pub fn value(&self, var: u64) -> Option<bool>
        ensures value { result ≡ trail_value (literals self.now.trail) var }
        ensures unknown { self.now.vars < var → result ≡ None }
    {
        self.parts.assigned.value(var)
    }

    /// How many decisions there are.
    pub fn level(&self) -> u64
        ensures { result ≡ level_of self.now.trail }
    {
        self.parts.assigned.level()
    }

    /// The literals that are true, in the order in which they were made true.
    pub fn trail(&self) -> &[ShortLit]
        ensures value { result.now ≡ literals self.now.trail }
        ensures known { VariablesUpTo self.now.vars result.now }
        ensures few { length self.now.trail ≤ self.now.vars }
        ensures distinct { AllPairs (λ a b. a.literal.var ≢ b.literal.var) self.now.trail }
        ensures levels { AllPairs (λ a b. a.level ≤ b.level) self.now.trail }
        ensures grounded { IsGrounded self.now.clauses self.now.trail }
        ensures follows { FollowsFromDecisions self.now.clauses self.now.trail }
    {
        let _clauses = &self.parts.clauses;
        self.parts.assigned.trail()
    }

    /// The literals of the clause of this number, in order.
    pub fn literals(&self, number: u64) -> &[ShortLit]
        requires { number < length self.now.clauses }
        ensures value { result.now ≡ slice_index_or self.now.clauses number [] }
        ensures ordered { IsOrdered result.now }
        ensures variables { All (λ l. IsVariable l.var) result.now }
    {
        self.parts.clauses.lits(number as usize)
    }

    /// Two literals of a clause, or none where it has fewer than two: those that propagation watches, or a false one of these and one that
    /// keeps the clause from being looked at. Where propagation is known to be at its end and one of the two is false, the other is
    /// true and was so at no higher level. Reads the clause.
    pub fn watched(&self, number: u64) -> Option<(Lit, Lit)>
        requires { number < length self.now.clauses }
        ensures none { IsNone result ↔ (length (slice_index_or self.now.clauses number []) < 2) }
        ensures two { IfSome result (λ pair. AreTwoOf (slice_index_or self.now.clauses number []) pair.0 pair.1) }
        ensures one { self.now.seen ≡ true → IfSome result (λ pair. IsGuarded self.now.trail pair.0 pair.1) }
        ensures other { self.now.seen ≡ true → IfSome result (λ pair. IsGuarded self.now.trail pair.1 pair.0) }
    {
        self.parts.watched(number as usize)
    }

    /// The level at which a variable got its value, or none where it has none.
    pub fn level_in(&self, var: u64) -> Option<u64>
        ensures { result ≡ option_map (λ e. e.level) (entry_of self.now.trail var) }
    {
        self.parts.assigned.level_in(var)
    }

    /// The number of the clause that gave a variable its value, or none where it was decided or has no value.
    pub fn reason_in(&self, var: u64) -> Option<u64>
        ensures { result ≡ option_map_or (λ e. e.reason) (entry_of self.now.trail var) None }
    {
        self.parts.assigned.reason_in(var)
    }

    /// The level at which a variable got its value.
    pub fn level_of(&self, var: u64) -> u64
        requires { IsSome (trail_value (literals self.now.trail) var) }
        ensures { option_map (λ e. e.level) (entry_of self.now.trail var) ≡ Some result }
    {
        self.parts.assigned.level_of(var)
    }

    /// The number of the clause that gave a variable its value, or none where it was decided.
    pub fn reason(&self, var: u64) -> Option<u64>
        requires { IsSome (trail_value (literals self.now.trail) var) }
        ensures { option_map (λ e. e.reason) (entry_of self.now.trail var) ≡ Some result }
    {
        self.parts.assigned.reason(var)
    }
}
