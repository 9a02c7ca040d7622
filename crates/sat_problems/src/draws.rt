//! Clauses that look drawn at random.

ghost use Rattle.std.specs.Prelude.{ℕ, ◌+◌, ◌^◌, ◌<◌, ◌≤◌};

use crate::Numbers;
use std::alloc::{AllocError, Global};

/// Numbers that look drawn at random, by a linear congruence (Knuth's for MMIX).
#[derive(Debug, Drop)]
struct Draws {
    state: u64,
}

// A number that is drawn below one less than a bound, moved so that it leaves one number out.
fn beside(drawn: u64, left_out: u64) -> u64
    requires { drawn < 2 ^ 32 }
    ensures { result ≤ drawn + 1 }
{
    if drawn >= left_out { drawn + 1 } else { drawn }
}

impl Draws {
    // A number below a bound.
    fn below(&mut self, bound: u64) -> u64
        requires { 0 < bound }
        ensures { result < bound }
    {
        self.state = self
            .state
            .wrapping_mul(6_364_136_223_846_793_005)
            .wrapping_add(1_442_695_040_888_963_407);
        (self.state >> 33) % bound
    }

    // A number or its negation.
    fn signed(&mut self, number: u64) -> i64
        requires { number < 2 ^ 32 }
    {
        let number = number as i64;
        if self.below(2) == 0 { number } else { -number }
    }

    // A clause of three different variables from 1 to 150.
    fn clause(&mut self, alloc: Global) -> Result<Vec<i64>, AllocError> {
        let first = self.below(150);
        let second = beside(self.below(149), first);
        let third = beside(self.below(148), first.min(second));
        let third = beside(third, first.max(second));
        let mut numbers = Vec::new(alloc);
        numbers.push(self.signed(first + 1))?;
        numbers.push(self.signed(second + 1))?;
        numbers.push(self.signed(third + 1))?;
        Ok(numbers)
    }
}

/// 639 clauses of three different variables of 150, drawn from a seed: 4.26 clauses for a variable.
pub fn drawn(alloc: Global, seed: u64) -> Result<Numbers, AllocError> {
    let mut draws = Draws { state: seed };
    let mut clauses = Vec::new(alloc);
    for _ in 0..639 {
        clauses.push(draws.clause(alloc)?)?;
    }
    Ok(clauses)
}
