//! Clauses and variables that are added.

ghost use Rattle.std.specs.Prelude.{◌≡◌, ◌≢◌, ℕ, ◌+◌, ◌*◌, ◌^◌, ◌<◌, ◌≤◌, ◌⊎◌, [], ◌∷◌, ◌++◌, length, max, All, Contains, true, false, IsTrue, IsNone, IfSome, OnOk, OnErr};
ghost use Rattle.cnf_core.specs.Literal.{VariablesUpTo, IsClause, code_of};
ghost use Rattle.sat_state.specs.Trail.{literals, level_of, IsOpenBelow};
ghost use Rattle.sat_state.specs.View.{BringsIn};
ghost use Rattle.sat_state.specs.Guards.{is_false};
ghost use Rattle.sat_state.specs.Watching.{listed_at};
ghost use Rattle.sat_state.specs.Joined.{AreJoined, IsNotLow, HasHigh, uses};

use crate::parts::Parts;
use crate::short::ShortLit;
use crate::values::Values;
use crate::watches::code;
use cnf_core::{Clause, Lit};
use ep_base::Memory;

// A literal of these, of another code than this one, that isn't false.
fn first_open(assigned: &Values, lits: &[Lit], skipped: usize) -> Option<Lit>
    ensures in_clause { IfSome result (λ l. Contains lits.now l) }
    ensures other { IfSome result (λ l. code_of l ≢ skipped) }
    ensures open { IfSome result (λ l. is_false (literals assigned.now.trail) l ≡ false) }
    ensures none { IsNone result
        → All (λ l. code_of l ≢ skipped → is_false (literals assigned.now.trail) l ≡ true) lits.now }
{
    for lit in lits {
        if code(*lit) != skipped {
            if !assigned.is_true(lit.negated()) {
                return Some(*lit);
            }
        }
    }
    None
}

impl Parts {
    // Whether a literal is false by an entry of a level below the trail's.
    fn is_low(&self, lit: Lit) -> bool
        requires { AreJoined self.now }
        ensures high { result ≡ false → IsNotLow self.now.assigned.trail lit }
        ensures low { IsTrue result → IsNotLow self.now.assigned.trail lit → ⊥ }
    {
        if !self.assigned.is_true(lit.negated()) {
            return false;
        }
        self.assigned.level_of(lit.var()) < self.assigned.level()
    }

    // A literal of these, of another code than this one, that isn't false by an entry of a level below the trail's.
    fn first_high(&self, lits: &[Lit], skipped: usize) -> Option<Lit>
        requires { AreJoined self.now }
        ensures in_clause { IfSome result (λ l. Contains lits.now l) }
        ensures other { IfSome result (λ l. code_of l ≢ skipped) }
        ensures high { IfSome result (IsNotLow self.now.assigned.trail) }
        ensures none { IsNone result → All (λ l. code_of l ≢ skipped → IsNotLow self.now.assigned.trail l → ⊥) lits.now }
    {
        for lit in lits {
            if code(*lit) != skipped {
                if !self.is_low(*lit) {
                    return Some(*lit);
                }
            }
        }
        None
    }

    // The literal of these that is watched, of another code than this one: one that isn't false, or where there is none, one that
    // isn't false by an entry of a level below the trail's.
    fn choose(&self, lits: &[Lit], skipped: usize) -> Lit
        requires joined { AreJoined self.now }
        requires some { HasHigh self.now.assigned.trail lits.now skipped }
        ensures in_clause { Contains lits.now result }
        ensures other { code_of result ≢ skipped }
        ensures high { is_false (literals self.now.assigned.trail) result ≡ true → IsNotLow self.now.assigned.trail result }
        ensures others { is_false (literals self.now.assigned.trail) result ≡ true
            → All (λ l. code_of l ≢ skipped → is_false (literals self.now.assigned.trail) l ≡ true) lits.now }
    {
        if let Some(lit) = first_open(&self.assigned, lits, skipped) {
            return lit;
        }
        match self.first_high(lits, skipped) {
            Some(lit) => lit,
            None => unreachable!(),
        }
    }

    // Appends a clause of known variables.
    fn append(&mut self, clause: Clause)
        requires joined { AreJoined self.old }
        requires level { (level_of self.old.assigned.trail ≡ 0) ⊎ IsOpenBelow self.old.assigned.trail clause }
        requires known { VariablesUpTo self.old.assigned.vars clause }
        requires clauses_room { 1 ≤ self.old.clauses.room }
        requires clauses_spare { length clause ≤ self.old.clauses.spare }
        requires short { All (λ l. code_of l < 2 ^ 32) clause }
        requires watches_room { 2 ≤ self.old.watches.room }
        requires list_room { (code : ℕ) → uses (self.old.clauses.lists ++ clause ∷ []) code ≤ (listed_at self.old.watches.stands code).room }
        requires fits { length self.old.watches.lits + 3 < 2 ^ 31 }
        ensures joined { AreJoined self.new }
        ensures clauses { self.new.clauses.lists ≡ self.old.clauses.lists ++ clause ∷ [] }
        ensures assigned { self.new.assigned ≡ self.old.assigned }
        ensures queue { self.new.queue ≡ self.old.queue }
    {
        let lits = clause.lits();
        if lits.len() < 2 {
            self.watches.push();
            self.clauses.push(clause);
            return;
        }
        let one = self.choose(lits, 0);
        let other = self.choose(lits, code(one));
        let entry = 2 * self.clauses.len();
        self.watches.push();
        let pair = lits.len() == 2;
        self.watches
            .link(entry, pair, one, ShortLit::of(other), false);
        self.watches
            .link(entry + 1, pair, other, ShortLit::of(one), false);
        self.clauses.push(clause);
    }

    // Makes the lists of the variables up to this number.
    fn make_lists(&mut self, vars: u64) -> Result<(), Memory>
        requires { AreJoined self.old }
        ensures joined { AreJoined self.new }
        ensures clauses { self.new.clauses ≡ self.old.clauses }
        ensures assigned { self.new.assigned ≡ self.old.assigned }
        ensures queue { self.new.queue ≡ self.old.queue }
        ensures room { self.new.watches.room ≡ self.old.watches.room }
        ensures lits { self.new.watches.lits ≡ self.old.watches.lits }
        ensures lists { OnOk result (2 * vars + 2 ≤ self.new.watches.lists) }
    {
        if vars >= u64::from(u32::MAX / 2) {
            return Err(Memory);
        }
        self.watches.grow(2 * vars as usize + 2)?;
        Ok(())
    }

    /// Tells how many clauses that will come name the literal of a code, if it is known.
    pub fn expect(&mut self, code: usize, count: u32)
        requires { AreJoined self.old }
        ensures joined { AreJoined self.new }
        ensures clauses { self.new.clauses ≡ self.old.clauses }
        ensures assigned { self.new.assigned ≡ self.old.assigned }
        ensures queue { self.new.queue ≡ self.old.queue }
    {
        if code < self.watches.lists() {
            self.watches.expect(code, count);
        }
    }

    // Makes room for a clause of these literals in the lists of all of them.
    fn make_room(&mut self, lits: &[Lit]) -> Result<(), Memory>
        requires joined { AreJoined self.old }
        requires known { All (λ l. code_of l < self.old.watches.lists) lits.now }
        ensures joined { AreJoined self.new }
        ensures clauses { self.new.clauses ≡ self.old.clauses }
        ensures assigned { self.new.assigned ≡ self.old.assigned }
        ensures queue { self.new.queue ≡ self.old.queue }
        ensures room { self.new.watches.room ≡ self.old.watches.room }
        ensures lits { self.new.watches.lits ≡ self.old.watches.lits }
        ensures lists { self.new.watches.lists ≡ self.old.watches.lists }
        ensures more { OnOk result ((code : ℕ) → uses (self.old.clauses.lists ++ lits.now ∷ []) code ≤ (listed_at self.new.watches.stands code).room) }
    {
        for lit in lits {
            self.watches.make_room(*lit)?;
        }
        Ok(())
    }

    /// Makes the variables up to this number known.
    pub fn grow(&mut self, vars: u64) -> Result<(), Memory>
        requires { AreJoined self.old }
        ensures joined { AreJoined self.new }
        ensures clauses { self.new.clauses ≡ self.old.clauses }
        ensures trail { self.new.assigned.trail ≡ self.old.assigned.trail }
        ensures queue { self.new.queue ≡ self.old.queue }
        ensures vars { OnOk result (self.new.assigned.vars ≡ max self.old.assigned.vars vars) }
        ensures err { OnErr result (self.new.assigned.vars ≡ self.old.assigned.vars) }
    {
        self.make_lists(vars)?;
        self.assigned.grow(vars)
    }

    /// Brings in the variables of a clause, and appends it. After a refusal nothing has changed.
    pub fn add(&mut self, clause: Clause) -> Result<(), Memory>
        requires joined { AreJoined self.old }
        requires level { (level_of self.old.assigned.trail ≡ 0) ⊎ IsOpenBelow self.old.assigned.trail clause }
        ensures joined { AreJoined self.new }
        ensures clauses { OnOk result (self.new.clauses.lists ≡ self.old.clauses.lists ++ clause ∷ []) }
        ensures vars { OnOk result (BringsIn self.old.assigned.vars clause self.new.assigned.vars) }
        ensures trail { self.new.assigned.trail ≡ self.old.assigned.trail }
        ensures queue { self.new.queue ≡ self.old.queue }
        ensures err_clauses { OnErr result (self.new.clauses.lists ≡ self.old.clauses.lists) }
        ensures err_vars { OnErr result (self.new.assigned.vars ≡ self.old.assigned.vars) }
    {
        self.clauses.reserve(&clause)?;
        self.watches.reserve()?;
        let vars = clause.greatest_variable();
        self.make_lists(vars)?;
        self.make_room(clause.lits())?;
        self.assigned.grow(vars)?;
        self.append(clause);
        Ok(())
    }
}
