//! Literals: a variable and a sign in eight bytes.

ghost use Rattle.std.specs.Prelude.{◌≡◌, ℕ};
ghost use Rattle.cnf_core.specs.Literal.{IsVariable, negation};

use std::marker::Model;

/// The greatest number of a variable.
pub const MOST_VARIABLE: u64 = 999_999_999_999_999_999;

/// A variable, numbered from 1 to [`MOST_VARIABLE`], or its negation.
///
/// Literals are ordered by variable, the positive one first.
#[derive(Clone, Copy, Debug, PartialEq, Eq, PartialOrd, Ord, Hash)]
pub struct Lit {
    code: u64,
}

impl Model for Lit {
    ghost use Rattle.std.specs.Prelude.{◌≡◌, ℕ, ◌+◌, ◌*◌, ◌/◌, ◌%◌, ◌≤◌, ◌==◌, if◌then◌else◌};
    ghost use Rattle.std.proofs.Common.{ap};
    ghost use Rattle.cnf_core.specs.Literal.{Literal, IsVariable, code_of};
    ghost use Rattle.cnf_core.specs.Codes.{code_again};

    ghost Value = { Literal };

    ghost view = { λ a. record { var = a.code / 2; positive = a.code % 2 == 0 } };

    ghost invariant = { λ a. IsVariable (a.code / 2) };

    ghost inverse = { λ l. record { code = code_of l } };

    ghost inverse_ok = { λ a h. ap (λ (n : ℕ). record { code = n }) (code_again a.code) };
}

impl Lit {
    /// The literal that says that the variable is true, or with `positive` false that it is false.
    pub fn new(var: u64, positive: bool) -> Lit
        requires { IsVariable var }
        ensures { result ≡ record { var = var; positive = positive } }
    {
        Lit {
            code: 2 * var + if positive { 0 } else { 1 },
        }
    }

    /// The number of the variable.
    pub fn var(&self) -> u64
        ensures value { result ≡ self.now.var }
        ensures in_range { IsVariable result }
    {
        self.code / 2
    }

    /// Whether the literal says that its variable is true.
    pub fn positive(&self) -> bool
        ensures { result ≡ self.now.positive }
    {
        self.code % 2 == 0
    }

    /// The literal of the same variable with the other sign.
    pub fn negated(&self) -> Lit
        ensures { result ≡ negation self.now }
    {
        Lit::new(self.var(), !self.positive())
    }
}
