//! The clauses that came since values were found, for propagation to look no more at those that a later one makes needless. Nothing is
//! promised of it.

ghost use Rattle.std.specs.Prelude.{◌≡◌};

use sat_state::State;
use std::alloc::Global;

/// After so many clauses in a row that are needed, the older ones are taken to be needed too.
const MOST_NEEDED: usize = 16;

/// The numbers of clauses that propagation looks at, the last one first to be looked at here.
#[derive(Debug, Drop)]
pub struct Recent {
    numbers: Vec<u64>,
    needed: Vec<u64>,
}

impl Recent {
    /// No clause.
    pub fn new(alloc: Global) -> Recent {
        Recent {
            numbers: Vec::new(alloc),
            needed: Vec::new(alloc),
        }
    }

    /// Brings a clause in. Where there is no room, it is looked at for ever.
    pub fn push(&mut self, number: u64) {
        let _ = self.numbers.push(number);
    }

    // Brings those back that are needed.
    fn push_needed(&mut self) {
        for _ in 0..self.needed.len() {
            if let Some(number) = self.needed.pop() {
                self.push(number);
            }
        }
    }

    /// Lets propagation look no more at those that this one makes needless, and brings it in.
    pub fn retire_before(&mut self, state: &mut State, later: u64)
        ensures { state.new ≡ state.old }
    {
        'needed: for _ in 0..self.numbers.len() {
            if self.needed.len() >= MOST_NEEDED {
                break;
            }
            if let Some(number) = self.numbers.pop() {
                if !state.retire(number, later) {
                    let _ = self.needed.push(number);
                }
            }
        }
        self.push_needed();
        self.push(later);
    }
}
