//! Logs: clauses that were given, and steps that are said to follow from the events before them.

ghost use Rattle.std.specs.Prelude.{◌≡◌, ◌+◌, ◌≤◌, ◌↔◌, ◌++◌, [], ◌∷◌, IsTrue, All, IfOk, OnOk, OnErr, map};
ghost use Rattle.cnf_core.specs.Literal.{IsClause};
ghost use Rattle.cnf_core.specs.Events.{given, step, plain_note, clauses_of, nonempty_steps, HasBase, HintsAreThere, HintsAreEarlier};

use crate::clause::Clause;
use crate::entries::EventList;
use crate::lists::ClauseList;
use crate::lit::Lit;
use ep_base::Memory;
use std::alloc::Global;
use std::marker::Model;

/// Says that a cell has a value where a literal is true.
#[derive(Debug, Drop)]
pub struct CellNote {
    /// The cell's name, as it is written.
    pub cell: Vec<u8>,
    /// The value.
    pub value: i64,
    /// The literal that is true exactly where the cell has the value.
    pub lit: Lit,
}

/// Events in order, the notes that say what literals mean, and the base: how many of the first
/// events are the problem's own.
#[derive(Debug, Drop)]
pub struct Log {
    events: EventList,
    notes: Vec<CellNote>,
    base: u64,
    steps: u64,
}

impl Model for Log {
    ghost use Rattle.cnf_core.specs.Events.{LogState};

    ghost Value = { LogState };

    ghost use Rattle.cnf_core.specs.LogInside.{state_of, IsLog};

    ghost view = { state_of };

    ghost invariant = { IsLog };
}

impl Log {
    /// A log without events and notes, with the base 0.
    pub fn new(alloc: Global) -> Log
        ensures { result ≡ record { events = []; notes = []; base = 0 } }
    {
        Log {
            events: EventList::new(alloc),
            notes: Vec::new(alloc),
            base: 0,
            steps: 0,
        }
    }

    /// A log of clauses as givens, without notes, with the base 0. Moves the clauses.
    pub fn of_givens(alloc: Global, clauses: ClauseList) -> Result<Log, Memory>
        requires { All IsClause clauses }
        ensures { IfOk result (λ log. log ≡ record { events = map given clauses; notes = []; base = 0 }) }
    {
        Ok(Log {
            events: EventList::of_givens(alloc, clauses)?,
            notes: Vec::new(alloc),
            base: 0,
            steps: 0,
        })
    }

    /// Whether the log is as [`Log::new`] makes it.
    pub fn is_empty(&self) -> bool
        ensures { IsTrue result ↔ (self.now ≡ record { events = []; notes = []; base = 0 }) }
    {
        self.events.len() == 0 && self.notes.is_empty() && self.base == 0
    }

    /// How many steps have a literal.
    pub fn steps(&self) -> u64
        ensures { result ≡ nonempty_steps self.now.events }
    {
        self.steps
    }

    /// The events in order.
    pub fn events(&self) -> &EventList
        ensures value { result.now ≡ self.now.events }
        ensures clauses { All IsClause (clauses_of self.now.events) }
        ensures hints { HintsAreEarlier self.now.events }
    {
        &self.events
    }

    /// The notes, as they were last kept.
    pub fn notes(&self) -> &[CellNote]
        ensures { map plain_note result.now ≡ self.now.notes }
    {
        self.notes.as_slice()
    }

    /// How many of the first events are the problem's own.
    pub fn base(&self) -> u64
        ensures value { result ≡ self.now.base }
        ensures givens { HasBase self.now.events result }
    {
        self.base
    }

    /// Appends a given. After want of memory the log is unchanged.
    pub fn given(&mut self, clause: Clause) -> Result<(), Memory>
        ensures ok { OnOk result
            (self.new ≡ record self.old { events = self.old.events ++ given clause ∷ [] }) }
        ensures err { OnErr result (self.new ≡ self.old) }
    {
        self.given_ordered(clause.lits())
    }

    /// Appends a given of these literals, which are in order. After want of memory the log is unchanged.
    pub fn given_ordered(&mut self, clause: &[Lit]) -> Result<(), Memory>
        requires { IsClause clause.now }
        ensures ok { OnOk result
            (self.new ≡ record self.old { events = self.old.events ++ given clause.now ∷ [] }) }
        ensures err { OnErr result (self.new ≡ self.old) }
    {
        self.events.push_given(clause)?;
        Ok(())
    }

    /// Appends a step. After want of memory the log is unchanged.
    pub fn step(&mut self, clause: Clause, hints: Vec<u64>) -> Result<(), Memory>
        requires { HintsAreThere self.old.events hints.items }
        ensures ok { OnOk result (self.new ≡
            record self.old { events = self.old.events ++ step clause hints.items ∷ [] }) }
        ensures err { OnErr result (self.new ≡ self.old) }
    {
        // Shows that there are few enough to be counted.
        let _count = self.events.len();
        let lits = clause.lits();
        let counts = !lits.is_empty();
        self.events.push_step(lits, hints.as_slice())?;
        if counts {
            self.steps += 1;
        }
        Ok(())
    }

    /// Keeps these notes and this base in place of the old ones.
    pub fn mark(&mut self, notes: Vec<CellNote>, base: u64)
        requires { HasBase self.old.events base }
        ensures { self.new ≡ record self.old { notes = map plain_note notes.items; base = base } }
    {
        self.notes = notes;
        self.base = base;
    }
}
