//! The clauses that watch a literal: near ones, which propagation walks first, and far ones.

ghost use Rattle.std.specs.Prelude.{◌≡◌, ℕ, ◌+◌, ◌<◌, ◌≤◌, [], length, true, false, if◌then◌else◌, slice_index_or, slice_set, OnOk, OnErr};
ghost use Rattle.sat_state.specs.Watched.{Watched};
ghost use Rattle.sat_state.specs.Listed.{Listed, IsWithout};

use crate::short::ShortLit;
use crate::watch::Watch;
use ep_base::Memory;
use std::alloc::Global;
use std::marker::Model;

/// The near ones stand before the far ones.
#[derive(Debug, Drop)]
pub struct List {
    watches: Vec<Watch>,
    nears: u32,
    room: u32,
}

impl Model for List {
    ghost use Rattle.sat_state.specs.Listed.{Listed};

    ghost Value = { Listed };

    ghost use Rattle.sat_state.specs.ListInside.{seen_list, IsList};

    ghost view = { seen_list };

    ghost invariant = { IsList };
}

impl List {
    /// Nothing watches.
    pub fn new(alloc: Global) -> List
        ensures { result ≡ record { watches = []; nears = 0; room = 0 } }
    {
        List {
            watches: Vec::new(alloc),
            nears: 0,
            room: 0,
        }
    }

    /// How many there are.
    pub fn len(&self) -> usize
        ensures { result ≡ length self.now.watches }
    {
        self.watches.len()
    }

    /// How many near ones there are.
    pub fn nears(&self) -> usize
        ensures value { result ≡ self.now.nears }
        ensures within { result ≤ length self.now.watches }
    {
        self.nears as usize
    }

    /// What stands at a place.
    pub fn at(&self, place: usize) -> Watch
        requires { place < length self.now.watches }
        ensures { result ≡ slice_index_or self.now.watches place result }
    {
        self.watches[place]
    }

    /// Lets a watch name another literal of its clause, of which nothing more is known then.
    pub fn block(&mut self, place: usize, blocker: ShortLit)
        requires { place < length self.old.watches }
        ensures watches { (d : Watched) → self.new.watches ≡ slice_set self.old.watches place (record { entry = (slice_index_or self.old.watches place d).entry; pair = false; blocker = blocker }) }
        ensures nears { self.new.nears ≡ self.old.nears }
        ensures room { self.new.room ≡ self.old.room }
    {
        let watch = self.watches[place];
        self.watches[place] = Watch::new(watch.entry(), false, blocker);
    }

    /// Tells how many more will come, so that the memory for them is of that size, where there is so much. Nothing that is seen changes.
    pub fn expect(&mut self, count: u32)
        ensures { self.new ≡ self.old }
    {
        let _ = self.watches.reserve_exact(count as usize);
    }

    /// Makes room for one more.
    pub fn make_room(&mut self) -> Result<(), Memory>
        ensures watches { self.new.watches ≡ self.old.watches }
        ensures nears { self.new.nears ≡ self.old.nears }
        ensures room { OnOk result (self.new.room ≡ self.old.room + 1) }
        ensures err { OnErr result (self.new.room ≡ self.old.room) }
    {
        let room = self.room.checked_add(1).ok_or(Memory)?;
        let kept = self.watches.len();
        self.watches.reserve(room as usize - kept)?;
        self.room = room;
        Ok(())
    }

    /// Puts a near one in. Takes no memory.
    pub fn push_near(&mut self, watch: Watch)
        requires { length self.old.watches < self.old.room }
        ensures rest { IsWithout self.new self.old self.old.nears false }
        ensures there { (d : Watched) → slice_index_or self.new.watches self.old.nears d ≡ watch }
        ensures room { self.new.room ≡ self.old.room }
    {
        let last = self.watches.len();
        self.watches.push_reserved(watch);
        self.watches.swap(self.nears as usize, last);
        self.nears += 1;
    }

    /// Puts a far one in. Takes no memory.
    pub fn push_far(&mut self, watch: Watch)
        requires { length self.old.watches < self.old.room }
        ensures rest { IsWithout self.new self.old (length self.old.watches) true }
        ensures there { (d : Watched) → slice_index_or self.new.watches (length self.old.watches) d ≡ watch }
        ensures behind { self.new.nears ≤ length self.old.watches }
        ensures room { self.new.room ≡ self.old.room }
    {
        self.watches.push_reserved(watch);
    }

    /// Takes a near one out. Those before it stay where they are.
    pub fn remove_near(&mut self, place: usize)
        requires { place < self.old.nears }
        ensures rest { IsWithout self.old self.new place false }
        ensures before { (k : ℕ) (d : Watched) → k < place → slice_index_or self.new.watches k d ≡ slice_index_or self.old.watches k d }
        ensures room { self.new.room ≡ self.old.room }
    {
        let last = self.nears - 1;
        self.watches.swap(place, last as usize);
        self.watches.swap_remove(last as usize);
        self.nears = last;
    }

    /// Takes a far one out. Those before it stay where they are.
    pub fn remove_far(&mut self, place: usize)
        requires far { self.old.nears ≤ place }
        requires there { place < length self.old.watches }
        ensures rest { IsWithout self.old self.new place true }
        ensures before { (k : ℕ) (d : Watched) → k < place → slice_index_or self.new.watches k d ≡ slice_index_or self.old.watches k d }
        ensures room { self.new.room ≡ self.old.room }
    {
        self.watches.swap_remove(place);
    }
}
