//! The parts of a state, and propagation over them.

ghost use Rattle.std.specs.Prelude.{◌≡◌, ℕ, ◌+◌, ◌*◌, ◌^◌, ◌<◌, ◌≤◌, ◌⊎◌, [], ◌∷◌, ◌++◌, length, take, max, None, Some, false, IsTrue, All, Contains, IsNone, IfSome, IfOk, OnOk, OnErr, filter, nat_le, ◌/◌, ◌≢◌, if◌then◌else◌};
ghost use Rattle.cnf_core.specs.Literal.{VariablesUpTo, negation};
ghost use Rattle.cnf_core.specs.Steps.{IsAtEnd, HasTrueLiteral, HasTwoNotFalse};
ghost use Rattle.sat_state.specs.Trail.{literals, trail_value, next_level, level_of, HasReason, IsFalsified, NamesFalsified, Gives, IsOpenBelow};
ghost use Rattle.sat_state.specs.Stored.{clause_at};
ghost use Rattle.sat_state.specs.Watching.{IsNext, IsNextEntry};
ghost use Rattle.sat_state.specs.View.{AreTwoOf, IsGuarded};
ghost use Rattle.sat_state.specs.Guards.{is_false, ArePartners, IsTrueBy, Guards};
ghost use Rattle.sat_state.specs.Joined.{AreJoined, GoesOn, IsAllSeen, IsWalking, place_in_queue};

use crate::clauses::{Clauses, first_open};
use crate::short::ShortLit;
use crate::values::Values;
use crate::watches::{Watches, code};
use cnf_core::Lit;
use ep_base::Memory;
use std::alloc::Global;

/// What propagation still has to look at: the clauses from `checked` on, and of the literals of the trail the near lists from `head`
/// on and the far lists from `far` on.
#[derive(Clone, Copy, Debug)]
pub struct Queue {
    pub checked: usize,
    pub head: usize,
    pub far: usize,
}

impl Queue {
    // The place of the trail from which on the near or the far lists are left.
    fn place(self, far: bool) -> usize
        ensures { result ≡ place_in_queue self far }
    {
        if far { self.far } else { self.head }
    }
}

/// The clauses with the literals that they watch, the trail, and what is left to look at.
#[derive(Debug, Drop)]
pub struct Parts {
    pub clauses: Clauses,
    pub watches: Watches,
    pub assigned: Values,
    pub queue: Queue,
}

// The other entry of the clause of an entry.
fn partner(entry: usize) -> usize
    ensures { ArePartners entry result }
{
    if entry % 2 == 0 { entry + 1 } else { entry - 1 }
}

// Whether these literals are all among others, of which they come in the same order.
fn are_within(few: &[ShortLit], many: &[ShortLit]) -> bool
    ensures { IsTrue result → All (Contains many.now) few.now }
{
    let mut place = 0usize;
    for lit in many {
        if place < few.len() {
            if few[place].code() == lit.code() {
                place += 1;
            }
        }
    }
    place == few.len()
}

impl Parts {
    /// No clause, no variable and no literal.
    pub fn new(alloc: Global) -> Result<Parts, Memory>
        ensures joined { IfOk result (λ parts. AreJoined parts) }
        ensures clauses { IfOk result (λ parts. parts.clauses.lists ≡ []) }
        ensures vars { IfOk result (λ parts. parts.assigned.vars ≡ 0) }
        ensures trail { IfOk result (λ parts. parts.assigned.trail ≡ []) }
    {
        let mut watches = Watches::new(alloc);
        watches.grow(2)?;
        Ok(Parts {
            clauses: Clauses::new(alloc),
            watches,
            assigned: Values::new(alloc)?,
            queue: Queue {
                checked: 0,
                head: 0,
                far: 0,
            },
        })
    }

    /// Whether nothing is left to look at.
    pub fn is_seen(&self) -> bool
        ensures { IsTrue result → IsAllSeen self.now }
    {
        let end = self.assigned.trail().len();
        self.queue.checked == self.clauses.len() && self.queue.head == end && self.queue.far == end
    }

    // Makes a literal true that a clause gives.
    fn force(&mut self, lit: Lit, number: usize)
        requires joined { AreJoined self.old }
        requires there { number < length self.old.clauses.lists }
        requires gives { Gives (literals self.old.assigned.trail) (clause_at self.old.clauses.lists number) lit }
        requires free { trail_value (literals self.old.assigned.trail) lit.var ≡ None }
        ensures goes { GoesOn self.old self.new }
        ensures clauses { self.new.clauses ≡ self.old.clauses }
        ensures watches { self.new.watches ≡ self.old.watches }
        ensures queue { self.new.queue ≡ self.old.queue }
        ensures trail { self.new.assigned.trail ≡ self.old.assigned.trail
            ++ record { literal = lit; level = next_level self.old.assigned.trail (Some number); reason = Some number } ∷ [] }
    {
        // Shows that the number fits its word.
        let _entries = self.watches.len();
        self.assigned.push(lit, Some(number as u64));
    }

    // Looks at all of a clause. Where all its literals but one are false and that one has no value, it becomes true. Answers
    // whether the clause isn't falsified.
    fn settle(&mut self, number: usize) -> bool
        requires joined { AreJoined self.old }
        requires there { number < length self.old.clauses.lists }
        ensures goes { GoesOn self.old self.new }
        ensures watches { self.new.watches ≡ self.old.watches }
        ensures queue { self.new.queue ≡ self.old.queue }
        ensures settled { IsTrue result
            → HasTrueLiteral (literals self.new.assigned.trail) (clause_at self.new.clauses.lists number)
            ⊎ HasTwoNotFalse (literals self.new.assigned.trail) (clause_at self.new.clauses.lists number) }
        ensures falsified { result ≡ false → NamesFalsified self.new.clauses.lists self.new.assigned.trail number }
    {
        let lits = self.clauses.lits(number);
        let Some(one) = first_open(&self.assigned, lits, 0) else {
            return false;
        };
        if self.assigned.is_true(one) {
            return true;
        }
        if self
            .clauses
            .other_open(&self.assigned, number, one)
            .is_some()
        {
            return true;
        }
        self.force(one, number);
        true
    }

    // Looks at the clauses that weren't looked at yet, up to a falsified one, whose number it answers.
    fn check_new(&mut self) -> Option<usize>
        requires joined { AreJoined self.old }
        ensures goes { GoesOn self.old self.new }
        ensures falsified { IfSome result (NamesFalsified self.new.clauses.lists self.new.assigned.trail) }
        ensures done { IsNone result → self.new.queue.checked ≡ length self.new.clauses.lists }
    {
        while self.queue.checked < self.clauses.len() {
            let number = self.queue.checked;
            if !self.settle(number) {
                return Some(number);
            }
            self.queue.checked += 1;
        }
        None
    }

    // Reads the clause of the next one of the list that is walked. Answers whether it isn't falsified.
    fn read(&mut self, entry: usize) -> bool
        requires joined { AreJoined self.old }
        requires walking { IsWalking self.old }
        requires next { IsNextEntry self.old.watches entry }
        ensures goes { GoesOn self.old self.new }
        ensures walking { IsTrue result → IsWalking self.new }
        ensures shorter { IsTrue result → length self.new.watches.waiting + 1 ≡ length self.old.watches.waiting }
        ensures queue { self.new.queue ≡ self.old.queue }
        ensures literal { self.new.watches.walked ≡ self.old.watches.walked }
        ensures tier { self.new.watches.walks_far ≡ self.old.watches.walks_far }
        ensures falsified { result ≡ false → NamesFalsified self.new.clauses.lists self.new.assigned.trail (entry / 2) }
    {
        let other = self.watches.lit(partner(entry));
        if self.assigned.is_short_true(other) {
            self.watches.keep_with(other);
            return true;
        }
        let number = entry / 2;
        let found = other.lit();
        if let Some(lit) = self.clauses.other_open(&self.assigned, number, found) {
            self.watches.take();
            let far = self.clauses.is_far(number);
            self.watches.link(entry, false, lit, other, far);
            return true;
        }
        if self.assigned.is_short_true(other.negated()) {
            return false;
        }
        self.force(found, number);
        self.watches.keep();
        true
    }

    // Looks at the clause of the next one of the list that is walked: at the literal beside the entry first, which is the other one where
    // there are two and it isn't false. Answers whether the clause isn't falsified.
    fn visit(&mut self, entry: usize, pair: bool, blocker: ShortLit) -> bool
        requires joined { AreJoined self.old }
        requires walking { IsWalking self.old }
        requires next { IsNext self.old.watches (record { entry = entry; pair = pair; blocker = blocker }) }
        ensures goes { GoesOn self.old self.new }
        ensures walking { IsTrue result → IsWalking self.new }
        ensures shorter { IsTrue result → length self.new.watches.waiting + 1 ≡ length self.old.watches.waiting }
        ensures queue { self.new.queue ≡ self.old.queue }
        ensures literal { self.new.watches.walked ≡ self.old.watches.walked }
        ensures tier { self.new.watches.walks_far ≡ self.old.watches.walks_far }
        ensures falsified { result ≡ false → NamesFalsified self.new.clauses.lists self.new.assigned.trail (entry / 2) }
    {
        if self.assigned.is_short_true(blocker) {
            self.watches.keep();
            return true;
        }
        if !pair {
            return self.read(entry);
        }
        if self.assigned.is_short_true(blocker.negated()) {
            return self.read(entry);
        }
        self.force(blocker.lit(), entry / 2);
        self.watches.keep();
        true
    }

    // Looks at the clauses of the near or the far list of the literal that the next entry of the trail makes false, up to a falsified
    // one, whose number it answers.
    fn walk(&mut self, far: bool) -> Option<usize>
        requires joined { AreJoined self.old }
        requires checked { self.old.queue.checked ≡ length self.old.clauses.lists }
        requires more { place_in_queue self.old.queue far < length self.old.assigned.trail }
        ensures goes { GoesOn self.old self.new }
        ensures checked { self.new.queue.checked ≡ self.old.queue.checked }
        ensures falsified { IfSome result (NamesFalsified self.new.clauses.lists self.new.assigned.trail) }
        ensures done { IsNone result → self.old.queue.head + self.old.queue.far + 1 ≤ self.new.queue.head + self.new.queue.far }
    {
        let lit = self.assigned.trail()[self.queue.place(far)].lit().negated();
        self.watches.start(lit, far);
        'walk: while let Some((entry, pair, blocker)) = self.watches.current() {
            if !self.visit(entry, pair, blocker) {
                return Some(entry / 2);
            }
        }
        if far {
            self.queue.far += 1;
        } else {
            self.pass_near(lit);
        }
        None
    }

    // Goes on behind the near list of a literal, which was walked, and behind its far list, where that is the next one and has nothing.
    fn pass_near(&mut self, lit: Lit)
        requires joined { AreJoined self.old }
        requires walking { IsWalking self.old }
        requires walked { self.old.watches.walked ≡ lit }
        requires near { self.old.watches.walks_far ≡ false }
        requires none { self.old.watches.waiting ≡ [] }
        ensures goes { GoesOn self.old self.new }
        ensures checked { self.new.queue.checked ≡ self.old.queue.checked }
        ensures done { self.old.queue.head + self.old.queue.far + 1 ≤ self.new.queue.head + self.new.queue.far }
    {
        // Shows that the literal is known.
        let _trail = self.assigned.trail();
        let place = self.queue.head;
        self.queue.head += 1;
        if self.queue.far == place && self.watches.has_no_far(lit) {
            self.queue.far += 1;
        }
    }

    // Looks at the literals of the trail that weren't looked at yet, up to a falsified clause, whose number it answers: at the near
    // lists of all of them before a far one.
    fn follow(&mut self) -> Option<usize>
        requires joined { AreJoined self.old }
        requires checked { self.old.queue.checked ≡ length self.old.clauses.lists }
        ensures goes { GoesOn self.old self.new }
        ensures falsified { IfSome result (NamesFalsified self.new.clauses.lists self.new.assigned.trail) }
        ensures done { IsNone result → IsAllSeen self.new }
    {
        'follow: while self.queue.head < self.assigned.trail().len()
            || self.queue.far < self.assigned.trail().len()
        {
            let far = self.queue.head >= self.assigned.trail().len();
            let falsified = self.walk(far);
            if falsified.is_some() {
                return falsified;
            }
        }
        None
    }

    // Looks at what is left: at new clauses, and then at the literals of the trail.
    fn look(&mut self) -> Option<usize>
        requires joined { AreJoined self.old }
        ensures goes { GoesOn self.old self.new }
        ensures falsified { IfSome result (NamesFalsified self.new.clauses.lists self.new.assigned.trail) }
        ensures done { IsNone result → IsAllSeen self.new }
    {
        let falsified = self.check_new();
        if falsified.is_some() {
            return falsified;
        }
        self.follow()
    }

    /// Looks at all that has to be looked at, up to a falsified clause, whose number it answers.
    pub fn propagate(&mut self) -> Option<usize>
        requires joined { AreJoined self.old }
        ensures goes { GoesOn self.old self.new }
        ensures falsified { IfSome result (NamesFalsified self.new.clauses.lists self.new.assigned.trail) }
        ensures done { IsNone result → IsAllSeen self.new }
        ensures at_end { IsNone result → IsAtEnd (literals self.new.assigned.trail) self.new.clauses.lists }
    {
        let falsified = self.look();
        if falsified.is_some() {
            self.clauses.count_conflict();
        }
        falsified
    }

    /// Looks at all that has to be looked at, where the clauses force nothing more.
    pub fn finish(&mut self)
        requires joined { AreJoined self.old }
        requires at_end { IsAtEnd (literals self.old.assigned.trail) self.old.clauses.lists }
        ensures joined { AreJoined self.new }
        ensures seen { IsAllSeen self.new }
        ensures clauses { self.new.clauses.lists ≡ self.old.clauses.lists }
        ensures vars { self.new.assigned.vars ≡ self.old.assigned.vars }
        ensures trail { self.new.assigned.trail ≡ self.old.assigned.trail }
    {
        if self.is_seen() {
            return;
        }
        self.propagate();
    }

    /// Two literals of a clause, or none where it has fewer than two: those that it watches, or a false one of these and one that guards it.
    pub fn watched(&self, number: usize) -> Option<(Lit, Lit)>
        requires joined { AreJoined self.now }
        requires there { number < length self.now.clauses.lists }
        ensures none { IsNone result → length (clause_at self.now.clauses.lists number) < 2 }
        ensures short { length (clause_at self.now.clauses.lists number) < 2 → IsNone result }
        ensures two { IfSome result (λ pair. AreTwoOf (clause_at self.now.clauses.lists number) pair.0 pair.1) }
        ensures one { IsAllSeen self.now → IfSome result (λ pair. IsGuarded self.now.assigned.trail pair.0 pair.1) }
        ensures other { IsAllSeen self.now → IfSome result (λ pair. IsGuarded self.now.assigned.trail pair.1 pair.0) }
    {
        let lits = self.clauses.lits(number);
        if lits.len() < 2 {
            return None;
        }
        // That there are so many entries shows that their numbers fit.
        let _entries = self.watches.len();
        if !self.watches.is_linked(2 * number) {
            return Some(self.pair_of(number));
        }
        let pair = self.watches.of_clause(number);
        if let Some(first) = self.guard(number, pair.0) {
            return Some((pair.0, first));
        }
        if let Some(second) = self.guard(number, pair.1) {
            return Some((second, pair.1));
        }
        Some(pair)
    }

    // Two literals of a clause that watches none: a false one and one that guards it, or else two that aren't false, as far as
    // there are any.
    fn pair_of(&self, number: usize) -> (Lit, Lit)
        requires joined { AreJoined self.now }
        requires there { number < length self.now.clauses.lists }
        requires long { 2 ≤ length (clause_at self.now.clauses.lists number) }
        ensures two { AreTwoOf (clause_at self.now.clauses.lists number) result.0 result.1 }
        ensures one { IsAllSeen self.now → IsGuarded self.now.assigned.trail result.0 result.1 }
        ensures other { IsAllSeen self.now → IsGuarded self.now.assigned.trail result.1 result.0 }
    {
        let lits = self.clauses.lits(number);
        for found in lits {
            let lit = found.lit();
            if let Some(guard) = self.guard(number, lit) {
                return (lit, guard);
            }
        }
        self.open_pair(number)
    }

    // Two literals of a clause that aren't false, or where there are none, its first two.
    fn open_pair(&self, number: usize) -> (Lit, Lit)
        requires joined { AreJoined self.now }
        requires there { number < length self.now.clauses.lists }
        requires long { 2 ≤ length (clause_at self.now.clauses.lists number) }
        ensures two { AreTwoOf (clause_at self.now.clauses.lists number) result.0 result.1 }
        ensures open { HasTwoNotFalse (literals self.now.assigned.trail) (clause_at self.now.clauses.lists number)
            → (is_false (literals self.now.assigned.trail) result.0 ≡ false) × (is_false (literals self.now.assigned.trail) result.1 ≡ false) }
    {
        let lits = self.clauses.lits(number);
        if let Some(one) = first_open(&self.assigned, lits, 0) {
            if let Some(other) = first_open(&self.assigned, lits, code(one)) {
                return (one, other);
            }
        }
        (lits[0].lit(), lits[1].lit())
    }

    // Where a literal of a clause is false, another one of the clause that was true at no higher level, if there is one.
    fn guard(&self, number: usize, lit: Lit) -> Option<Lit>
        requires joined { AreJoined self.now }
        requires there { number < length self.now.clauses.lists }
        ensures in_clause { IfSome result (λ l. Contains (clause_at self.now.clauses.lists number) l) }
        ensures falsified { IfSome result (λ l. Contains (literals self.now.assigned.trail) (negation lit)) }
        ensures is_true { IfSome result (λ l. Contains (literals self.now.assigned.trail) l) }
        ensures guards { IfSome result (λ l. IsGuarded self.now.assigned.trail lit l) }
        ensures none { IsNone result → Guards self.now.assigned.trail (length self.now.assigned.trail) lit (clause_at self.now.clauses.lists number)
            → Contains (literals self.now.assigned.trail) (negation lit) → ⊥ }
    {
        if !self.assigned.is_true(lit.negated()) {
            return None;
        }
        let level = self.assigned.level_of(lit.var());
        let lits = self.clauses.lits(number);
        for found in lits {
            if self.is_true_by(*found, level) {
                return Some(found.lit());
            }
        }
        None
    }

    // Whether a literal became true at no higher level than this one.
    fn is_true_by(&self, lit: ShortLit, level: u64) -> bool
        requires { AreJoined self.now }
        ensures is_true { IsTrue result → IsTrueBy self.now.assigned.trail lit level }
        ensures is_not { result ≡ false → IsTrueBy self.now.assigned.trail lit level → ⊥ }
    {
        if !self.assigned.is_short_true(lit) {
            return false;
        }
        self.assigned.level_of(lit.var()) <= level
    }

    /// Lets a clause be looked at no more where a later one has no literal that it hasn't: where that one has a true literal or two
    /// that aren't false, so has this one. Answers whether it is looked at no more.
    pub fn retire(&mut self, number: usize, later: usize) -> bool
        requires joined { AreJoined self.old }
        ensures joined { AreJoined self.new }
        ensures clauses { self.new.clauses ≡ self.old.clauses }
        ensures assigned { self.new.assigned ≡ self.old.assigned }
        ensures queue { self.new.queue ≡ self.old.queue }
    {
        if number >= later || later >= self.clauses.len() {
            return false;
        }
        if !are_within(self.clauses.lits(later), self.clauses.lits(number)) {
            return false;
        }
        // That there are so many entries shows that their numbers fit.
        let _entries = self.watches.len();
        let entry = 2 * number;
        if self.watches.is_linked(entry) {
            self.watches.unlink(entry);
            self.watches.unlink(entry + 1);
        }
        true
    }

    /// Makes a literal true without a reason, which opens a level.
    pub fn decide(&mut self, lit: Lit)
        requires joined { AreJoined self.old }
        requires seen { IsAllSeen self.old }
        requires at_end { IsAtEnd (literals self.old.assigned.trail) self.old.clauses.lists }
        requires known { lit.var ≤ self.old.assigned.vars }
        requires free { trail_value (literals self.old.assigned.trail) lit.var ≡ None }
        ensures joined { AreJoined self.new }
        ensures clauses { self.new.clauses ≡ self.old.clauses }
        ensures vars { self.new.assigned.vars ≡ self.old.assigned.vars }
        ensures trail { self.new.assigned.trail ≡ self.old.assigned.trail
            ++ record { literal = lit; level = level_of self.old.assigned.trail + 1; reason = None } ∷ [] }
    {
        self.assigned.push(lit, None);
    }

    /// Takes literals back until no level above this one is left.
    pub fn unwind(&mut self, level: u64)
        requires joined { AreJoined self.old }
        requires above { level < level_of self.old.assigned.trail }
        ensures joined { AreJoined self.new }
        ensures clauses { self.new.clauses ≡ self.old.clauses }
        ensures vars { self.new.assigned.vars ≡ self.old.assigned.vars }
        ensures trail { self.new.assigned.trail ≡ filter (λ e. nat_le e.level level) self.old.assigned.trail }
        ensures level { level_of self.new.assigned.trail ≡ level }
        ensures at_end { IsAtEnd (literals self.new.assigned.trail) self.old.clauses.lists }
    {
        'above: while self.assigned.level() > level {
            self.assigned.pop();
        }
        self.queue.head = self.assigned.trail().len();
        self.queue.far = self.queue.head;
    }
}
