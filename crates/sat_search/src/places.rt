//! Where variables stand in the trail, and which of these places a conflict met, so that not all of the trail is looked through for
//! the few that it met. Nothing is promised of it.

ghost use Rattle.std.specs.Prelude.{ℕ, ◌<◌, ◌≤◌};

use ep_base::Memory;
use sat_state::ShortLit;
use std::alloc::Global;

/// For so many places there is a bit in a word.
const WORD: usize = 64;

/// The place of each variable, as far as the trail was read, and a bit for each place that was met.
#[derive(Debug, Drop)]
pub struct Places {
    // The places of the variables of the first literals of the trail.
    places: Vec<u32>,
    read: usize,
    met: Vec<u64>,
    // How many of the variables that were met have their bit.
    taken: usize,
}

impl Places {
    /// Nothing was read.
    pub fn new(alloc: Global) -> Places {
        Places {
            places: Vec::new(alloc),
            read: 0,
            met: Vec::new(alloc),
            taken: 0,
        }
    }

    /// Begins with a conflict over the variables up to this number: reads the rest of the trail. No place was met.
    pub fn begin(&mut self, vars: u64, trail: &[ShortLit]) -> Result<(), Memory> {
        let wanted = vars.saturating_add(1) as usize;
        if self.places.len() < wanted {
            self.places.resize(wanted, 0)?;
            self.met.resize(wanted / WORD + 1, 0)?;
        }
        self.met.fill(0);
        self.taken = 0;
        let from = self.read.min(trail.len());
        let mut place = from.min(u32::MAX as usize) as u32;
        for lit in &trail[from..] {
            if let Some(kept) = self.places.get_mut(lit.var() as usize) {
                *kept = place;
            }
            place = place.wrapping_add(1);
        }
        self.read = trail.len();
        Ok(())
    }

    /// Forgets what is behind the first literals of the trail, so many of which are left.
    pub fn forget(&mut self, left: usize) {
        self.read = self.read.min(left);
    }

    // Sets the bits of the variables that were met and have none.
    fn take(&mut self, met: &[u64]) {
        for index in self.taken..met.len() {
            let place = match self.places.get(met[index] as usize) {
                Some(place) => *place as usize,
                None => 0,
            };
            if let Some(word) = self.met.get_mut(place / WORD) {
                *word |= 1 << (place % WORD) as u32;
            }
        }
        self.taken = met.len();
    }

    // The bits of a word of places.
    fn word(&self, index: usize) -> u64 {
        self.met.get(index).copied().unwrap_or(0)
    }

    /// The last place below this one that was met, as far as these are the variables that were met.
    pub fn next_below(&mut self, met: &[u64], place: usize) -> usize
        requires { 0 < place }
        ensures { result < place }
    {
        self.take(met);
        let last = place - 1;
        let mut index = last / WORD;
        let mut bits = self.word(index) & (u64::MAX >> (WORD - 1 - last % WORD) as u32);
        while bits == 0 && index > 0 {
            index -= 1;
            bits = self.word(index);
        }
        if bits == 0 {
            return 0;
        }
        let bit = (u64::BITS - 1).saturating_sub(bits.leading_zeros()) as usize;
        index.saturating_mul(WORD).saturating_add(bit).min(last)
    }
}
