//! Terms: the numbers of nodes.

ghost use Rattle.std.specs.Prelude.{◌≡◌};

use std::marker::Model;

/// A term: the number of its node in an arena. Contracts see the number.
#[derive(Clone, Copy, Debug, PartialEq, Eq, Hash)]
pub struct Term {
    number: u32,
}

impl Model for Term {
    ghost use Rattle.std.specs.Prelude.{ℕ};

    ghost Value = { ℕ };

    ghost view = { λ term. term.number };

    ghost inverse = { λ number. record { number = number } };
}

impl Term {
    /// The term of this number.
    pub fn new(number: u32) -> Term
        ensures { result ≡ number }
    {
        Term { number }
    }

    /// The number of its node.
    pub fn number(&self) -> u32
        ensures { result ≡ self.now }
    {
        self.number
    }
}
