//! When the search goes back to its start: after so many conflicts, by Luby's sequence. Nothing is promised of it.

/// The number of conflicts for which each 1 of the sequence stands.
const UNIT: u64 = 128;

/// A place in Luby's sequence 1, 1, 2, 1, 1, 2, 4, .. (Luby, Sinclair and Zuckerman 1993), by Knuth's reluctant doubling: the
/// second number of the pair runs through it.
#[derive(Clone, Copy, Debug)]
pub struct Restarts {
    turn: u64,
    length: u64,
    left: u64,
    near: bool,
}

impl Restarts {
    /// The start of the sequence.
    pub fn new() -> Restarts {
        Restarts {
            turn: 1,
            length: 1,
            left: UNIT,
            near: false,
        }
    }

    /// Values were found, and the search goes on beside them: it isn't to go back to its start for some conflicts.
    pub fn stay(&mut self) {
        self.left = UNIT;
        self.near = true;
    }

    /// Whether the search goes on beside values that it found, and didn't go back to its start since.
    pub fn is_near(&self) -> bool {
        self.near
    }

    /// Counts a conflict. Answers whether the search is to go back to its start now.
    pub fn count(&mut self) -> bool {
        self.left = self.left.saturating_sub(1);
        if self.left > 0 {
            return false;
        }
        self.near = false;
        if self.turn & self.turn.wrapping_neg() == self.length {
            self.turn = self.turn.wrapping_add(1);
            self.length = 1;
        } else {
            self.length = self.length.wrapping_mul(2);
        }
        self.left = self.length.saturating_mul(UNIT);
        true
    }
}
