//! The literals that clauses watch: for each literal a list of what watches it, the near ones, which propagation walks first, before the
//! far ones, which it walks where the near ones bring nothing more.

ghost use Rattle.std.specs.Prelude.{◌≡◌, ◌≢◌, ℕ, ◌+◌, ◌*◌, ◌^◌, ◌<◌, ◌≤◌, ◌⊎◌, [], ◌∷◌, ◌++◌, length, drop, max, false, slice_index, Contains, OnOk, IfSome, IsNone, IsTrue};
ghost use Rattle.std.proofs.Common.{set};
ghost use Rattle.cnf_core.specs.Literal.{code_of};
ghost use Rattle.sat_state.specs.Watched.{Watched};
ghost use Rattle.sat_state.specs.Watching.{Watching, no_lit, lit_at, far_at, listed_at, IsInSomeList, links, IsNext};
ghost use Rattle.sat_state.specs.WatchesInside.{name_of};

use crate::list::List;
use crate::short::ShortLit;
use crate::watch::Watch;
use cnf_core::Lit;
use ep_base::Memory;
use std::alloc::Global;
use std::marker::Model;

/// The entries of the clauses, two for each, in the lists of their literals. One part of a list can be walked.
#[derive(Debug, Drop)]
pub struct Watches {
    // For each entry the part in which it stands, or 0 for none.
    names: Vec<u32>,
    lists: Vec<List>,
    walked: u32,
    // Where the part that is walked begins, and how many of it weren't looked at: these are its first ones.
    low: usize,
    left: usize,
    alloc: Global,
}

impl Model for Watches {
    ghost use Rattle.sat_state.specs.Watching.{Watching};

    ghost Value = { Watching };

    ghost use Rattle.sat_state.specs.WatchesInside.{seen_watches, AreWatches};

    ghost view = { seen_watches };

    ghost invariant = { AreWatches };
}

/// Where the list of a literal is kept.
pub fn code(lit: Lit) -> usize
    ensures value { result ≡ code_of lit }
    ensures some { 2 ≤ result }
{
    2 * lit.var() as usize + if lit.positive() { 0 } else { 1 }
}

// The name of a part of the list of a code.
fn name(code: usize, far: bool) -> u32
    requires { 2 * code + 1 < 2 ^ 32 }
    ensures { result ≡ name_of code far }
{
    (2 * code + if far { 1 } else { 0 }) as u32
}

// Appends empty lists up to so many.
fn extend(lists: &mut Vec<List>, alloc: Global, wanted: usize) -> Result<(), Memory>
    ensures same { (code : ℕ) → listed_at lists.new.items code ≡ listed_at lists.old.items code }
    ensures kept { length lists.old.items ≤ length lists.new.items }
    ensures most { length lists.new.items ≤ max (length lists.old.items) wanted }
    ensures all { OnOk result (length lists.new.items ≡ max (length lists.old.items) wanted) }
{
    'extend: while lists.len() < wanted {
        lists.push(List::new(alloc))?;
    }
    Ok(())
}

impl Watches {
    /// No entry, and no list.
    pub fn new(alloc: Global) -> Watches
        ensures lits { result.lits ≡ [] }
        ensures fars { result.fars ≡ [] }
        ensures stands { result.stands ≡ [] }
        ensures lists { result.lists ≡ 0 }
    {
        Watches {
            names: Vec::new(alloc),
            lists: Vec::new(alloc),
            walked: 0,
            low: 0,
            left: 0,
            alloc,
        }
    }

    /// Makes so many lists, at least.
    pub fn grow(&mut self, lists: usize) -> Result<(), Memory>
        ensures lits { self.new.lits ≡ self.old.lits }
        ensures fars { self.new.fars ≡ self.old.fars }
        ensures same { (code : ℕ) → listed_at self.new.stands code ≡ listed_at self.old.stands code }
        ensures lists { OnOk result (self.new.lists ≡ max self.old.lists lists) }
        ensures kept { self.old.lists ≤ self.new.lists }
        ensures room { self.new.room ≡ self.old.room }
    {
        if lists >= (u32::MAX / 2) as usize {
            return Err(Memory);
        }
        self.left = 0;
        extend(&mut self.lists, self.alloc, lists)?;
        Ok(())
    }

    /// Makes room for the entries of one more clause.
    pub fn reserve(&mut self) -> Result<(), Memory>
        ensures lits { self.new.lits ≡ self.old.lits }
        ensures fars { self.new.fars ≡ self.old.fars }
        ensures stands { self.new.stands ≡ self.old.stands }
        ensures lists { self.new.lists ≡ self.old.lists }
        ensures room { OnOk result (2 ≤ self.new.room) }
        ensures fits { OnOk result (length self.new.lits + 3 < 2 ^ 31) }
    {
        if self.names.len() >= (u32::MAX / 2) as usize - 3 {
            return Err(Memory);
        }
        self.names.reserve(2)?;
        Ok(())
    }

    /// Tells how many clauses that will come name the literal of a code.
    pub fn expect(&mut self, code: usize, count: u32)
        requires { code < self.old.lists }
        ensures lits { self.new.lits ≡ self.old.lits }
        ensures fars { self.new.fars ≡ self.old.fars }
        ensures same { (code : ℕ) → listed_at self.new.stands code ≡ listed_at self.old.stands code }
        ensures lists { self.new.lists ≡ self.old.lists }
        ensures room { self.new.room ≡ self.old.room }
    {
        self.left = 0;
        self.lists[code].expect(count);
    }

    /// How many lists there are.
    pub fn lists(&self) -> usize
        ensures { result ≡ self.now.lists }
    {
        self.lists.len()
    }

    /// Makes room for one more in the list of a literal.
    pub fn make_room(&mut self, lit: Lit) -> Result<(), Memory>
        requires known { code_of lit < self.old.lists }
        ensures lits { self.new.lits ≡ self.old.lits }
        ensures fars { self.new.fars ≡ self.old.fars }
        ensures watches { (code : ℕ) → (listed_at self.new.stands code).watches ≡ (listed_at self.old.stands code).watches }
        ensures kept { (code : ℕ) → (listed_at self.old.stands code).room ≤ (listed_at self.new.stands code).room }
        ensures more { OnOk result ((listed_at self.new.stands (code_of lit)).room ≡ (listed_at self.old.stands (code_of lit)).room + 1) }
        ensures lists { self.new.lists ≡ self.old.lists }
        ensures room { self.new.room ≡ self.old.room }
    {
        self.left = 0;
        self.lists[code(lit)].make_room()?;
        Ok(())
    }

    /// Two entries that watch nothing. Ends a walk.
    pub fn push(&mut self)
        requires room { 2 ≤ self.old.room }
        requires fits { length self.old.lits + 3 < 2 ^ 31 }
        ensures lits { self.new.lits ≡ self.old.lits ++ no_lit ∷ no_lit ∷ [] }
        ensures fars { self.new.fars ≡ self.old.fars ++ false ∷ false ∷ [] }
        ensures stands { self.new.stands ≡ self.old.stands }
        ensures lists { self.new.lists ≡ self.old.lists }
        ensures waiting { self.new.waiting ≡ [] }
    {
        self.left = 0;
        self.names.push_reserved(0);
        self.names.push_reserved(0);
    }

    /// How many entries there are. Their numbers fit their words.
    pub fn len(&self) -> usize
        ensures value { result ≡ length self.now.lits }
        ensures few { result + 1 < 2 ^ 32 }
    {
        self.names.len()
    }

    /// The literal that an entry watches.
    pub fn lit(&self, entry: usize) -> ShortLit
        requires there { entry < length self.now.lits }
        requires some { 1 ≤ (lit_at self.now.lits entry).var }
        ensures { result ≡ lit_at self.now.lits entry }
    {
        ShortLit::of_code(self.names[entry] / 2)
    }

    /// The literals that the two entries of a clause watch.
    pub fn of_clause(&self, number: usize) -> (Lit, Lit)
        requires there { 2 * number + 1 < length self.now.lits }
        requires one { 1 ≤ (lit_at self.now.lits (2 * number)).var }
        requires other { 1 ≤ (lit_at self.now.lits (2 * number + 1)).var }
        ensures one { result.0 ≡ lit_at self.now.lits (2 * number) }
        ensures other { result.1 ≡ lit_at self.now.lits (2 * number + 1) }
    {
        // That there are so many entries shows that their numbers fit.
        let _entries = self.names.len();
        let entry = 2 * number;
        (self.lit(entry).lit(), self.lit(entry + 1).lit())
    }

    /// Whether an entry watches a literal.
    pub fn is_linked(&self, entry: usize) -> bool
        requires { entry < length self.now.lits }
        ensures some { IsTrue result → 1 ≤ (lit_at self.now.lits entry).var }
        ensures none { result ≡ false → (lit_at self.now.lits entry).var ≡ 0 }
    {
        self.names[entry] >= 4
    }

    // Whether an entry stands in the far part of its list.
    fn is_far(&self, entry: usize) -> bool
        requires { entry < length self.now.lits }
        ensures { result ≡ far_at self.now.fars entry }
    {
        self.names[entry] % 2 == 1
    }

    /// Takes an entry out of its list, where it is looked for from the end of its part back. Ends a walk.
    pub fn unlink(&mut self, entry: usize)
        requires there { entry < length self.old.lits }
        requires some { 1 ≤ (lit_at self.old.lits entry).var }
        requires known { code_of (lit_at self.old.lits entry) < self.old.lists }
        ensures lits { self.new.lits ≡ set self.old.lits entry no_lit }
        ensures fars { self.new.fars ≡ set self.old.fars entry false }
        ensures stands { (w : Watched) → IsInSomeList self.new.stands w → IsInSomeList self.old.stands w }
        ensures kept { (code : ℕ) → (listed_at self.new.stands code).room ≡ (listed_at self.old.stands code).room }
        ensures lists { self.new.lists ≡ self.old.lists }
    {
        let lit = self.lit(entry).lit();
        let far = self.is_far(entry);
        self.start(lit, far);
        'look: while let Some((found, _, _)) = self.current() {
            if found == entry {
                self.take();
                return;
            }
            self.keep();
        }
        unreachable!()
    }

    /// Puts an entry that watches nothing into a part of the list of a literal, with whether its clause is known to have two literals
    /// and some literal of it. Takes no memory.
    pub fn link(&mut self, entry: usize, pair: bool, lit: Lit, blocker: ShortLit, far: bool)
        requires there { entry < length self.old.lits }
        requires none { lit_at self.old.lits entry ≡ no_lit }
        requires known { code_of lit < self.old.lists }
        requires room { links self.old.lits (code_of lit) < (listed_at self.old.stands (code_of lit)).room }
        requires other { (self.old.waiting ≡ []) ⊎ (lit ≢ self.old.walked) }
        ensures lits { self.new.lits ≡ set self.old.lits entry lit }
        ensures fars { self.new.fars ≡ set self.old.fars entry far }
        ensures stands { (w : Watched) → IsInSomeList self.new.stands w → IsInSomeList self.old.stands w ⊎ (w ≡ record { entry = entry; pair = pair; blocker = blocker }) }
        ensures kept { (code : ℕ) → (listed_at self.new.stands code).room ≡ (listed_at self.old.stands code).room }
        ensures lists { self.new.lists ≡ self.old.lists }
        ensures walked { self.new.walked ≡ self.old.walked }
        ensures walks_far { self.new.walks_far ≡ self.old.walks_far }
        ensures waiting { self.new.waiting ≡ self.old.waiting }
    {
        // Shows that the numbers of entries and of lists fit their words.
        let _entries = self.names.len();
        let code = code(lit);
        let watch = Watch::new(entry as u32, pair, blocker);
        self.names[entry] = name(code, far);
        if far {
            self.lists[code].push_far(watch);
        } else {
            self.lists[code].push_near(watch);
        }
    }

    /// Whether nothing stands in the far part of the list of a literal.
    pub fn has_no_far(&self, lit: Lit) -> bool
        requires known { code_of lit < self.now.lists }
        ensures { IsTrue result → (entry : ℕ) → entry < length self.now.lits → lit_at self.now.lits entry ≡ lit → far_at self.now.fars entry ≡ false }
    {
        let code = code(lit);
        self.lists[code].nears() == self.lists[code].len()
    }

    /// Begins to walk a part of the list of a literal.
    pub fn start(&mut self, lit: Lit, far: bool)
        requires known { code_of lit < self.old.lists }
        ensures lits { self.new.lits ≡ self.old.lits }
        ensures fars { self.new.fars ≡ self.old.fars }
        ensures stands { self.new.stands ≡ self.old.stands }
        ensures lists { self.new.lists ≡ self.old.lists }
        ensures walked { self.new.walked ≡ lit }
        ensures walks_far { self.new.walks_far ≡ far }
        ensures some { 1 ≤ lit.var }
        ensures all { (entry : ℕ) → entry < length self.old.lits → lit_at self.old.lits entry ≡ lit
            → far_at self.old.fars entry ≡ far → Contains self.new.waiting entry }
    {
        let code = code(lit);
        let nears = self.lists[code].nears();
        let len = self.lists[code].len();
        self.walked = name(code, far);
        if far {
            self.low = nears;
            self.left = len - nears;
        } else {
            self.low = 0;
            self.left = nears;
        }
    }

    /// The next entry of the part that is walked, whether its clause is known to have two literals, and the literal beside it.
    pub fn current(&self) -> Option<(usize, bool, ShortLit)>
        ensures some { IfSome result (λ w. IsNext self.now (record { entry = w.0; pair = w.1; blocker = w.2 })) }
        ensures none { IsNone result → self.now.waiting ≡ [] }
    {
        if self.left == 0 {
            None
        } else {
            let watch = self.lists[(self.walked / 2) as usize].at(self.low + (self.left - 1));
            Some((watch.entry() as usize, watch.is_pair(), watch.blocker()))
        }
    }

    /// Goes on to the one behind the next.
    pub fn keep(&mut self)
        requires { 0 < length self.old.waiting }
        ensures lits { self.new.lits ≡ self.old.lits }
        ensures fars { self.new.fars ≡ self.old.fars }
        ensures stands { self.new.stands ≡ self.old.stands }
        ensures lists { self.new.lists ≡ self.old.lists }
        ensures walked { self.new.walked ≡ self.old.walked }
        ensures walks_far { self.new.walks_far ≡ self.old.walks_far }
        ensures waiting { self.new.waiting ≡ drop 1 self.old.waiting }
    {
        self.left -= 1;
    }

    /// Keeps another literal of its clause for the next one, and goes on to the one behind it.
    pub fn keep_with(&mut self, blocker: ShortLit)
        requires { 0 < length self.old.waiting }
        ensures lits { self.new.lits ≡ self.old.lits }
        ensures fars { self.new.fars ≡ self.old.fars }
        ensures stands { (w : Watched) → IsInSomeList self.new.stands w
            → IsInSomeList self.old.stands w ⊎ (w ≡ record { entry = slice_index self.old.waiting 0; pair = false; blocker = blocker }) }
        ensures kept { (code : ℕ) → (listed_at self.new.stands code).room ≡ (listed_at self.old.stands code).room }
        ensures lists { self.new.lists ≡ self.old.lists }
        ensures walked { self.new.walked ≡ self.old.walked }
        ensures walks_far { self.new.walks_far ≡ self.old.walks_far }
        ensures waiting { self.new.waiting ≡ drop 1 self.old.waiting }
    {
        self.left -= 1;
        self.lists[(self.walked / 2) as usize].block(self.low + self.left, blocker);
    }

    /// Takes the next one out of the part that is walked, and goes on to the one behind it.
    pub fn take(&mut self)
        requires { 0 < length self.old.waiting }
        ensures lits { self.new.lits ≡ set self.old.lits (slice_index self.old.waiting 0) no_lit }
        ensures fars { self.new.fars ≡ set self.old.fars (slice_index self.old.waiting 0) false }
        ensures stands { (w : Watched) → IsInSomeList self.new.stands w → IsInSomeList self.old.stands w }
        ensures kept { (code : ℕ) → (listed_at self.new.stands code).room ≡ (listed_at self.old.stands code).room }
        ensures lists { self.new.lists ≡ self.old.lists }
        ensures walked { self.new.walked ≡ self.old.walked }
        ensures walks_far { self.new.walks_far ≡ self.old.walks_far }
        ensures waiting { self.new.waiting ≡ drop 1 self.old.waiting }
    {
        let code = (self.walked / 2) as usize;
        self.left -= 1;
        let place = self.low + self.left;
        let watch = self.lists[code].at(place);
        self.names[watch.entry() as usize] = 0;
        if self.walked % 2 == 1 {
            self.lists[code].remove_far(place);
        } else {
            self.lists[code].remove_near(place);
        }
    }
}
