//! The events of a log, in lists.

ghost use Rattle.std.specs.Prelude.{◌≡◌, ℕ, ◌-◌, ◌^◌, ◌<◌, ◌≤◌, ◌++◌, ◌∷◌, [], length, map, true, false, All, IfOk, IfSome, IsNone, OnOk, OnErr, slice_index, slice_index_or, vec_capacity};
ghost use Rattle.cnf_core.specs.Literal.{IsClause};
ghost use Rattle.cnf_core.specs.Events.{given, step, clause_of, event_at};
ghost use Rattle.cnf_core.specs.EventListInside.{event_of};
ghost use Rattle.cnf_core.specs.Pieces.{part_of, start_of};

use crate::lists::{ClauseList, start};
use crate::lit::Lit;
use ep_base::Memory;
use std::alloc::Global;
use std::marker::Model;

/// Events in order, counted from 0. The literals of all of them lie in one list and the hints of all steps in another, so that an event
/// costs no allocation.
#[derive(Debug, Drop)]
pub struct EventList {
    clauses: ClauseList,
    hints: Vec<u64>,
    // Where the hints of each event end, a given's where they begin.
    ends: Vec<usize>,
    // Whether each event is a step.
    steps: Vec<bool>,
}

impl Model for EventList {
    ghost use Rattle.std.specs.Prelude.{List};
    ghost use Rattle.cnf_core.specs.Events.{LogEvent};

    ghost Value = { List LogEvent };

    ghost use Rattle.cnf_core.specs.EventListInside.{events_in, AreEvents};

    ghost view = { events_in };

    ghost invariant = { AreEvents };
}

/// The part of a list from a place up to another one, or nothing where it has none.
#[inline(always)]
fn part(list: &[u64], from: usize, until: usize) -> &[u64]
    ensures { result.now ≡ part_of list.now from until }
{
    list.get(from..until).unwrap_or(&[])
}

/// The part that ends at the place of this number, and begins where the one before ends.
#[inline(always)]
fn piece<'a>(hints: &'a [u64], ends: &[usize], number: usize) -> &'a [u64]
    requires { number < length ends.now }
    ensures { result.now ≡ part_of hints.now (start_of 0 ends.now number) (slice_index ends.now number) }
{
    part(hints, start(ends, number), ends[number])
}

/// Appends hints, for which there is room.
fn append(kept: &mut Vec<u64>, hints: &[u64])
    requires { length hints.now ≤ vec_capacity kept.old - length kept.old.items }
    ensures { kept.new.items ≡ kept.old.items ++ hints.now }
{
    for hint in hints {
        kept.push_reserved(*hint);
    }
}

impl EventList {
    /// No event.
    pub fn new(alloc: Global) -> EventList
        ensures { result ≡ [] }
    {
        EventList {
            clauses: ClauseList::new(alloc),
            hints: Vec::new(alloc),
            ends: Vec::new(alloc),
            steps: Vec::new(alloc),
        }
    }

    /// Clauses as givens. Moves them.
    pub fn of_givens(alloc: Global, clauses: ClauseList) -> Result<EventList, Memory>
        ensures { IfOk result (λ events. events ≡ map given clauses) }
    {
        let mut ends = Vec::new(alloc);
        ends.resize(clauses.len(), 0)?;
        let mut steps = Vec::new(alloc);
        steps.resize(clauses.len(), false)?;
        Ok(EventList {
            clauses,
            hints: Vec::new(alloc),
            ends,
            steps,
        })
    }

    /// How many events there are.
    pub fn len(&self) -> usize
        ensures value { result ≡ length self.now }
        ensures few { result < 2 ^ 63 }
    {
        self.clauses.len()
    }

    /// The literals of an event's clause, in order.
    pub fn clause(&self, place: usize) -> &[Lit]
        requires { place < length self.now }
        ensures value { result.now ≡ clause_of (event_at self.now place) }
        ensures clause { IsClause result.now }
    {
        self.clauses.clause(place)
    }

    /// The positions of the earlier events that show a step, or none where the event is a given.
    pub fn hints(&self, place: usize) -> Option<&[u64]>
        requires { place < length self.now }
        ensures step { IfSome result (λ hints. event_at self.now place ≡ step (clause_of (event_at self.now place)) hints.now) }
        ensures given { IsNone result → event_at self.now place ≡ given (clause_of (event_at self.now place)) }
    {
        if !self.steps[place] {
            return None;
        }
        Some(piece(self.hints.as_slice(), self.ends.as_slice(), place))
    }

    // Appends an event. After want of memory the events are as they were.
    fn push(&mut self, clause: &[Lit], hints: &[u64], is_step: bool) -> Result<(), Memory>
        requires { IsClause clause.now }
        ensures ok { OnOk result (self.new ≡ self.old ++ event_of is_step clause.now hints.now ∷ []) }
        ensures err { OnErr result (self.new ≡ self.old) }
    {
        self.hints.reserve(hints.len())?;
        self.ends.reserve(1)?;
        self.steps.reserve(1)?;
        self.clauses.push(clause)?;
        append(&mut self.hints, hints);
        let end = self.hints.len();
        self.ends.push_reserved(end);
        self.steps.push_reserved(is_step);
        Ok(())
    }

    /// Appends a given. After want of memory the events are as they were.
    pub fn push_given(&mut self, clause: &[Lit]) -> Result<(), Memory>
        requires { IsClause clause.now }
        ensures ok { OnOk result (self.new ≡ self.old ++ given clause.now ∷ []) }
        ensures err { OnErr result (self.new ≡ self.old) }
    {
        self.push(clause, &[], false)
    }

    /// Appends a step. After want of memory the events are as they were.
    pub fn push_step(&mut self, clause: &[Lit], hints: &[u64]) -> Result<(), Memory>
        requires { IsClause clause.now }
        ensures ok { OnOk result (self.new ≡ self.old ++ step clause.now hints.now ∷ []) }
        ensures err { OnErr result (self.new ≡ self.old) }
    {
        self.push(clause, hints, true)
    }
}
