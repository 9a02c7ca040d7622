//! Which variable is decided next, and with which value: those that conflicts met most, of late above all (the order of MiniSat, in
//! whole numbers), each with the value that it had in the longest trail without a conflict, or else had last. The choice is free, so
//! nothing is promised of it.

use ep_base::Memory;
use sat_state::ShortLit;
use std::alloc::Global;

/// The weight of the first conflict.
const FIRST_STEP: u64 = 1 << 20;

/// Where weights are over this, all are divided by 2 to the power of [`SHIFT`].
const MOST_STEP: u64 = 1 << 58;

const SHIFT: u32 = 40;

/// More levels than a heap in memory has.
const LEVELS: u32 = 64;

// A number of a variable or a place in four bytes. There are fewer of either than the greatest.
fn narrow(number: u64) -> u32 {
    number.min(u64::from(u32::MAX)) as u32
}

/// What is kept of a variable.
#[derive(Clone, Copy, Debug)]
struct Known {
    score: u64,
    // One more than its place in the heap, or 0.
    place: u32,
    // The value that it had last, and that in the longest trail without a conflict.
    last: bool,
    best: Option<bool>,
}

/// The variables in a heap by their scores, the greatest first: a conflict adds its weight to the scores of the variables that it
/// met, and the weights grow. A variable that isn't in the heap has a value.
#[derive(Drop)]
pub struct Order {
    vars: Vec<Known>,
    // The length of the longest trail without a conflict.
    longest: usize,
    heap: Vec<u32>,
    step: u64,
}

impl Order {
    /// An order of no variables.
    pub fn new(alloc: Global) -> Order {
        Order {
            vars: Vec::new(alloc),
            longest: 0,
            heap: Vec::new(alloc),
            step: FIRST_STEP,
        }
    }

    /// Brings in the variables up to this number that weren't there, for a search that begins.
    pub fn grow(&mut self, vars: u64) -> Result<(), Memory> {
        let wanted = vars.saturating_add(1) as usize;
        let known = self.vars.len();
        if known < wanted {
            let none = Known {
                score: 0,
                place: 0,
                last: true,
                best: None,
            };
            self.vars.resize(wanted, none)?;
            self.heap.reserve(wanted.saturating_sub(self.heap.len()))?;
        }
        self.longest = 0;
        for var in known.max(1)..wanted {
            self.insert(narrow(var as u64))?;
        }
        Ok(())
    }

    /// The variable of the greatest score in the heap, or 0 where it is empty.
    pub fn place(&self) -> u64 {
        u64::from(self.at(0))
    }

    /// Takes the variable of the greatest score out of the heap.
    pub fn advance(&mut self) {
        let first = self.at(0);
        if let Some(known) = self.vars.get_mut(first as usize) {
            known.place = 0;
        }
        if let Some(last) = self.heap.pop() {
            if last != first {
                self.sink(last);
            }
        }
    }

    /// The value that a variable had in the longest trail without a conflict, or else last.
    pub fn phase(&self, var: u64) -> bool {
        match self.vars.get(var as usize) {
            Some(known) => match known.best {
                Some(positive) => positive,
                None => known.last,
            },
            None => true,
        }
    }

    fn score(&self, var: u32) -> u64 {
        match self.vars.get(var as usize) {
            Some(known) => known.score,
            None => 0,
        }
    }

    // The variable at a place of the heap, or 0.
    fn at(&self, place: u32) -> u32 {
        self.heap.get(place as usize).copied().unwrap_or(0)
    }

    fn put(&mut self, place: u32, var: u32) {
        if let Some(there) = self.heap.get_mut(place as usize) {
            *there = var;
        }
        if let Some(known) = self.vars.get_mut(var as usize) {
            known.place = place.wrapping_add(1);
        }
    }

    // Puts a variable of this score to this place, or above it.
    fn rise(&mut self, place: u32, var: u32, score: u64) {
        let mut place = place;
        for _ in 0..LEVELS {
            if place == 0 {
                break;
            }
            let above = (place - 1) / 2;
            let parent = self.at(above);
            if self.score(parent) >= score {
                break;
            }
            self.put(place, parent);
            place = above;
        }
        self.put(place, var);
    }

    // Puts a variable to the first place, or below it.
    fn sink(&mut self, var: u32) {
        let score = self.score(var);
        let mut place = 0u32;
        for _ in 0..LEVELS {
            let left = place.wrapping_mul(2).wrapping_add(1);
            let right = left.wrapping_add(1);
            let mut below = left;
            let mut child = self.at(left);
            let mut most = self.score(child);
            let other = self.at(right);
            let its = self.score(other);
            if its > most {
                below = right;
                child = other;
                most = its;
            }
            if child == 0 || score >= most {
                break;
            }
            self.put(place, child);
            place = below;
        }
        self.put(place, var);
    }

    // Brings a variable into the heap, unless it is there.
    fn insert(&mut self, var: u32) -> Result<(), Memory> {
        let Some(known) = self.vars.get(var as usize).copied() else {
            return Ok(());
        };
        if known.place > 0 {
            return Ok(());
        }
        self.push(var, known.score)
    }

    // Brings a variable of this score into the heap.
    fn push(&mut self, var: u32, score: u64) -> Result<(), Memory> {
        let place = narrow(self.heap.len() as u64);
        self.heap.push(var)?;
        self.rise(place, var, score);
        Ok(())
    }

    /// Keeps the signs of so many literals, the first of these, which were true together without a conflict, if there are more of
    /// them than before in this search.
    pub fn keep_longest(&mut self, lits: &[ShortLit], count: usize) {
        if count <= self.longest {
            return;
        }
        self.longest = count;
        for lit in lits.iter().take(count) {
            if let Some(known) = self.vars.get_mut(lit.var() as usize) {
                known.best = Some(lit.positive());
            }
        }
    }

    /// Raises the scores of the first of these variables, so many of them, which a conflict met.
    pub fn name(&mut self, vars: &[u64], count: usize) {
        for var in vars.iter().take(count) {
            self.raise(*var);
        }
    }

    /// Lets the next conflict weigh more.
    pub fn advance_step(&mut self) {
        self.step = self.step.saturating_add(self.step / 19);
        if self.step > MOST_STEP {
            self.shrink();
        }
    }

    /// Raises the score of a variable.
    pub fn raise(&mut self, var: u64) {
        let step = self.step;
        let Some(known) = self.vars.get_mut(var as usize) else {
            return;
        };
        known.score = known.score.saturating_add(step);
        let Known { score, place, .. } = *known;
        if place > 0 {
            self.rise(place - 1, narrow(var), score);
        }
    }

    fn shrink(&mut self) {
        for known in self.vars.iter_mut() {
            known.score >>= SHIFT;
        }
        self.step = (self.step >> SHIFT).max(1);
    }

    /// Keeps the value of a literal that is about to be taken back, and brings its variable into the heap.
    pub fn release(&mut self, lit: ShortLit) {
        let var = lit.var();
        let Some(known) = self.vars.get_mut(var as usize) else {
            return;
        };
        known.last = lit.positive();
        let Known { score, place, .. } = *known;
        if place == 0 {
            // There is room for each variable.
            let _ = self.push(narrow(var), score);
        }
    }
}
