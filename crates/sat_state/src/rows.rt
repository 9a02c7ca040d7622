//! The literals of clauses, side by side.

ghost use Rattle.std.specs.Prelude.{◌≡◌, ℕ, ◌-◌, ◌^◌, ◌<◌, ◌≤◌, [], ◌∷◌, ◌++◌, length, take, drop, All, OnOk, vec_capacity};
ghost use Rattle.cnf_core.specs.Literal.{code_of};
ghost use Rattle.sat_state.specs.Stored.{clause_at};

use crate::short::ShortLit;
use cnf_core::Lit;
use ep_base::Memory;
use std::alloc::Global;
use std::marker::Model;

/// The stamp of a clause that came before the first conflict.
pub const GIVEN: u32 = u32::MAX;

/// Where the literals of a clause begin and end, at which of them the search for one that isn't false begins, and the conflict at which
/// the clause was used last.
#[derive(Clone, Copy, Debug)]
struct Row {
    start: u32,
    end: u32,
    begin: u32,
    stamp: u32,
}

/// The literals of clauses by number. Those of all clauses stand in one list, so that there is one load on the way to them, and what
/// else a look at a clause takes stands beside it.
#[derive(Debug, Drop)]
pub struct Rows {
    lits: Vec<ShortLit>,
    rows: Vec<Row>,
}

impl Model for Rows {
    ghost use Rattle.sat_state.specs.Rowed.{Rowed};

    ghost Value = { Rowed };

    ghost use Rattle.sat_state.specs.RowsInside.{seen_rows, AreRows};

    ghost view = { seen_rows };

    ghost invariant = { AreRows };
}

// The literals from a place on, up to another.
fn between(lits: &[ShortLit], start: usize, end: usize) -> &[ShortLit]
    requires order { start ≤ end }
    requires there { end ≤ length lits.now }
    ensures { result.now ≡ take (end - start) (drop start lits.now) }
{
    &lits[start..end]
}

// Appends literals in four bytes each, for which there is room.
fn append(kept: &mut Vec<ShortLit>, lits: &[Lit])
    requires room { length lits.now ≤ vec_capacity kept.old - length kept.old.items }
    requires fits { All (λ l. code_of l < 2 ^ 32) lits.now }
    ensures items { kept.new.items ≡ kept.old.items ++ lits.now }
    ensures capacity { vec_capacity kept.new ≡ vec_capacity kept.old }
{
    for lit in lits {
        kept.push_reserved(ShortLit::of(*lit));
    }
}

impl Rows {
    /// No clause.
    pub fn new(alloc: Global) -> Rows
        ensures { result.lists ≡ [] }
    {
        Rows {
            lits: Vec::new(alloc),
            rows: Vec::new(alloc),
        }
    }

    /// Makes room for one more clause of so many literals.
    pub fn reserve(&mut self, count: usize) -> Result<(), Memory>
        ensures lists { self.new.lists ≡ self.old.lists }
        ensures room { OnOk result (1 ≤ self.new.room) }
        ensures spare { OnOk result (count ≤ self.new.spare) }
    {
        if count > u32::MAX as usize - self.lits.len() {
            return Err(Memory);
        }
        self.lits.reserve(count)?;
        self.rows.reserve(1)?;
        Ok(())
    }

    /// Appends the literals of a clause, with a stamp.
    pub fn push(&mut self, lits: &[Lit], stamp: u32)
        requires room { 1 ≤ self.old.room }
        requires spare { length lits.now ≤ self.old.spare }
        requires fits { All (λ l. code_of l < 2 ^ 32) lits.now }
        ensures { self.new.lists ≡ self.old.lists ++ lits.now ∷ [] }
    {
        let start = self.lits.len();
        let end = start + lits.len();
        append(&mut self.lits, lits);
        self.rows.push_reserved(Row {
            start: start as u32,
            end: end as u32,
            begin: 0,
            stamp,
        });
    }

    /// How many clauses there are.
    pub fn len(&self) -> usize
        ensures { result ≡ length self.now.lists }
    {
        self.rows.len()
    }

    /// The literals of the clause of this number.
    pub fn lits(&self, number: usize) -> &[ShortLit]
        requires { number < length self.now.lists }
        ensures { result.now ≡ clause_at self.now.lists number }
    {
        let row = self.rows[number];
        between(self.lits.as_slice(), row.start as usize, row.end as usize)
    }

    /// The place where the search in a clause begins.
    pub fn begin(&self, number: usize) -> usize
        requires { number < length self.now.lists }
    {
        self.rows[number].begin as usize
    }

    /// Lets the search in a clause begin at a place.
    pub fn begin_at(&mut self, number: usize, place: usize)
        requires { number < length self.old.lists }
        ensures { self.new.lists ≡ self.old.lists }
    {
        let row = self.rows[number];
        self.rows[number] = Row {
            begin: place.min(u32::MAX as usize) as u32,
            ..row
        };
    }

    /// Keeps that a clause was used at a conflict, unless it came before the first one.
    pub fn touch(&mut self, number: usize, now: u32)
        ensures { self.new ≡ self.old }
    {
        if number >= self.rows.len() {
            return;
        }
        let row = self.rows[number];
        if row.stamp != GIVEN {
            self.rows[number] = Row { stamp: now, ..row };
        }
    }

    /// The conflict at which a clause was used last.
    pub fn stamp(&self, number: usize) -> u32
        requires { number < length self.now.lists }
    {
        self.rows[number].stamp
    }
}
