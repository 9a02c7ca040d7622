//! The clauses, and the search for literals that aren't false.

ghost use Rattle.std.specs.Prelude.{◌≡◌, ◌≢◌, ℕ, ◌+◌, ◌-◌, ◌^◌, ◌<◌, ◌≤◌, [], ◌∷◌, ◌++◌, length, All, Contains, true, false, IsNone, IfSome, OnOk, OnErr};
ghost use Rattle.std.specs.List.{AllWithin};
ghost use Rattle.cnf_core.specs.Literal.{Literal, code_of};
ghost use Rattle.sat_state.specs.Trail.{literals};
ghost use Rattle.sat_state.specs.Stored.{Stored, clause_at};
ghost use Rattle.sat_state.specs.Watching.{lit_at};
ghost use Rattle.sat_state.specs.Guards.{is_false};

use crate::rows::{GIVEN, Rows};
use crate::short::ShortLit;
use crate::values::Values;
use crate::watches::code;
use cnf_core::{Clause, Lit};
use ep_base::Memory;
use std::alloc::Global;
use std::marker::Model;

/// A clause of more literals is near only where it was used of late.
const FEW: usize = 6;

/// So many conflicts ago is of late.
const LATE: u32 = 300;

/// Clauses by number.
#[derive(Debug, Drop)]
pub struct Clauses {
    rows: Rows,
    conflicts: u32,
}

impl Model for Clauses {
    ghost use Rattle.sat_state.specs.Stored.{Stored};

    ghost Value = { Stored };

    ghost use Rattle.sat_state.specs.StoredInside.{seen_clauses};

    ghost view = { seen_clauses };
}

/// A literal of these, of another code than this one, that isn't false.
pub fn first_open(assigned: &Values, lits: &[ShortLit], skipped: usize) -> Option<Lit>
    ensures in_clause { IfSome result (λ l. Contains lits.now l) }
    ensures other { IfSome result (λ l. code_of l ≢ skipped) }
    ensures open { IfSome result (λ l. is_false (literals assigned.now.trail) l ≡ false) }
    ensures none { IsNone result
        → All (λ l. code_of l ≢ skipped → is_false (literals assigned.now.trail) l ≡ true) lits.now }
{
    for lit in lits {
        if lit.code() != skipped {
            if !assigned.is_short_true(lit.negated()) {
                return Some(lit.lit());
            }
        }
    }
    None
}

// The first place from one on, before another, of a literal that isn't this one and isn't false.
fn open_place(
    assigned: &Values,
    lits: &[ShortLit],
    lit: Lit,
    from: usize,
    to: usize,
) -> Option<usize>
    requires { to ≤ length lits.now }
    ensures there { IfSome result (λ place. place < length lits.now) }
    ensures other { IfSome result (λ place. lit_at lits.now place ≢ lit) }
    ensures open { IfSome result (λ place. is_false (literals assigned.now.trail) (lit_at lits.now place) ≡ false) }
    ensures none { IsNone result
        → AllWithin (λ l. l ≢ lit → is_false (literals assigned.now.trail) l ≡ true) lits.now from to }
{
    let skipped = code(lit);
    for place in from..to {
        let found = lits[place];
        if found.code() != skipped {
            if !assigned.is_short_true(found.negated()) {
                return Some(place);
            }
        }
    }
    None
}

// The same of all places, from one on and then from the first.
fn open_place_from(assigned: &Values, lits: &[ShortLit], lit: Lit, begin: usize) -> Option<usize>
    requires { begin ≤ length lits.now }
    ensures there { IfSome result (λ place. place < length lits.now) }
    ensures other { IfSome result (λ place. lit_at lits.now place ≢ lit) }
    ensures open { IfSome result (λ place. is_false (literals assigned.now.trail) (lit_at lits.now place) ≡ false) }
    ensures none { IsNone result → All (λ l. l ≢ lit → is_false (literals assigned.now.trail) l ≡ true) lits.now }
{
    let found = open_place(assigned, lits, lit, begin, lits.len());
    if found.is_some() {
        return found;
    }
    open_place(assigned, lits, lit, 0, begin)
}

impl Clauses {
    /// No clause.
    pub fn new(alloc: Global) -> Clauses
        ensures { result.lists ≡ [] }
    {
        Clauses {
            rows: Rows::new(alloc),
            conflicts: 0,
        }
    }

    /// Makes room for one more clause, whose literals have to fit their words.
    pub fn reserve(&mut self, clause: &Clause) -> Result<(), Memory>
        ensures lists { self.new.lists ≡ self.old.lists }
        ensures room { OnOk result (1 ≤ self.new.room) }
        ensures spare { OnOk result (length clause.now ≤ self.new.spare) }
        ensures fits { OnOk result (All (λ l. code_of l < 2 ^ 32) clause.now) }
    {
        if clause.greatest_variable() > u64::from(u32::MAX / 2) {
            return Err(Memory);
        }
        self.rows.reserve(clause.lits().len())?;
        Ok(())
    }

    /// Appends a clause.
    pub fn push(&mut self, clause: Clause)
        requires room { 1 ≤ self.old.room }
        requires spare { length clause ≤ self.old.spare }
        requires fits { All (λ l. code_of l < 2 ^ 32) clause }
        ensures { self.new.lists ≡ self.old.lists ++ clause ∷ [] }
    {
        let stamp = self.new_stamp();
        self.rows.push(clause.lits(), stamp);
    }

    // The stamp of a clause that comes now.
    fn new_stamp(&self) -> u32 {
        if self.conflicts == 0 {
            GIVEN
        } else {
            self.conflicts
        }
    }

    /// How many clauses there are.
    pub fn len(&self) -> usize
        ensures { result ≡ length self.now.lists }
    {
        self.rows.len()
    }

    /// The literals of the clause of this number.
    pub fn lits(&self, number: usize) -> &[ShortLit]
        requires { number < length self.now.lists }
        ensures { result.now ≡ clause_at self.now.lists number }
    {
        self.rows.lits(number)
    }

    /// Counts a conflict.
    pub fn count_conflict(&mut self)
        ensures { self.new ≡ self.old }
    {
        self.conflicts = self.conflicts.saturating_add(1).min(GIVEN - 1);
    }

    /// Keeps that a clause was used now.
    pub fn touch(&mut self, number: usize)
        ensures { self.new ≡ self.old }
    {
        self.rows.touch(number, self.conflicts);
    }

    /// Whether a clause is long and wasn't used of late.
    pub fn is_far(&self, number: usize) -> bool
        requires { number < length self.now.lists }
    {
        self.rows.stamp(number) < self.conflicts.saturating_sub(LATE)
            && self.rows.lits(number).len() > FEW
    }

    /// A literal of a clause that isn't this one and isn't false.
    pub fn other_open(&mut self, assigned: &Values, number: usize, lit: Lit) -> Option<Lit>
        requires { number < length self.old.lists }
        ensures clauses { self.new.lists ≡ self.old.lists }
        ensures in_clause { IfSome result (λ l. Contains (clause_at self.old.lists number) l) }
        ensures other { IfSome result (λ l. l ≢ lit) }
        ensures open { IfSome result (λ l. is_false (literals assigned.now.trail) l ≡ false) }
        ensures none { IsNone result
            → All (λ l. l ≢ lit → is_false (literals assigned.now.trail) l ≡ true) (clause_at self.old.lists number) }
    {
        let lits = self.rows.lits(number);
        let begin = self.rows.begin(number).min(lits.len());
        match open_place_from(assigned, lits, lit, begin) {
            Some(place) => {
                let found = lits[place];
                self.rows.begin_at(number, place);
                Some(found.lit())
            }
            None => None,
        }
    }
}
