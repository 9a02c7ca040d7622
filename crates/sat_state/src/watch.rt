//! What watches a literal.

ghost use Rattle.std.specs.Prelude.{◌≡◌, ◌^◌, ◌<◌};

use crate::short::ShortLit;
use std::marker::Model;

/// One of the two entries of a clause, by its number, with some literal of the clause, and whether the clause is known to have two
/// literals.
#[derive(Clone, Copy, Debug)]
pub struct Watch {
    // Twice the number of the entry, and one more where the clause is known to have two literals.
    word: u32,
    blocker: ShortLit,
}

impl Model for Watch {
    ghost use Rattle.std.specs.Prelude.{◌≡◌, ℕ, ◌+◌, ◌*◌, ◌/◌, ◌%◌, ◌==◌, if◌then◌else◌};
    ghost use Rattle.std.proofs.Common.{ap};
    ghost use Rattle.sat_state.specs.Watched.{Watched, word_again};

    ghost Value = { Watched };

    ghost view = { λ a. record { entry = a.word / 2; pair = a.word % 2 == 1; blocker = a.blocker } };

    ghost inverse = { λ w. record { word = 2 * w.entry + (if w.pair then 1 else 0); blocker = w.blocker } };

    ghost inverse_ok = { λ a h. ap (λ (n : ℕ). record { word = n; blocker = a.blocker }) (word_again a.word) };
}

impl Watch {
    /// An entry, whether its clause is known to have two literals, and some literal of the clause.
    pub fn new(entry: u32, pair: bool, blocker: ShortLit) -> Watch
        requires { entry < 2 ^ 31 }
        ensures { result ≡ record { entry = entry; pair = pair; blocker = blocker } }
    {
        Watch {
            word: 2 * entry + if pair { 1 } else { 0 },
            blocker,
        }
    }

    /// The number of the entry.
    pub fn entry(self) -> u32
        ensures value { result ≡ self.entry }
        ensures few { result < 2 ^ 31 }
    {
        self.word / 2
    }

    /// Whether the clause is known to have two literals.
    pub fn is_pair(self) -> bool
        ensures { result ≡ self.pair }
    {
        self.word % 2 == 1
    }

    /// Some literal of the clause.
    pub fn blocker(self) -> ShortLit
        ensures { result ≡ self.blocker }
    {
        self.blocker
    }
}
