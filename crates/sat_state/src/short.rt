//! Literals in four bytes, of which the tables of a state are made.

ghost use Rattle.std.specs.Prelude.{◌≡◌, ℕ, ◌/◌, ◌%◌, ◌==◌, ◌^◌, ◌<◌, ◌≤◌};
ghost use Rattle.cnf_core.specs.Literal.{IsVariable, code_of, negation};

use cnf_core::Lit;
use std::marker::Model;

/// A literal in four bytes: one of the variables that a state knows, whose numbers fit.
#[derive(Clone, Copy, Debug, PartialEq, Eq)]
pub struct ShortLit {
    code: u32,
}

impl Model for ShortLit {
    ghost use Rattle.std.specs.Prelude.{◌≡◌, ℕ, ◌/◌, ◌%◌, ◌==◌};
    ghost use Rattle.std.proofs.Common.{ap};
    ghost use Rattle.cnf_core.specs.Literal.{Literal, IsVariable, code_of};
    ghost use Rattle.cnf_core.specs.Codes.{code_again};

    ghost Value = { Literal };

    ghost view = { λ a. record { var = a.code / 2; positive = a.code % 2 == 0 } };

    ghost invariant = { λ a. IsVariable (a.code / 2) };

    ghost inverse = { λ l. record { code = code_of l } };

    ghost inverse_ok = { λ a h. ap (λ (n : ℕ). record { code = n }) (code_again a.code) };
}

impl ShortLit {
    /// The same literal in four bytes.
    pub fn of(lit: Lit) -> ShortLit
        requires { code_of lit < 2 ^ 32 }
        ensures { result ≡ lit }
    {
        ShortLit {
            code: (2 * lit.var() + if lit.positive() { 0 } else { 1 }) as u32,
        }
    }

    /// The literal of a code.
    pub fn of_code(code: u32) -> ShortLit
        requires { IsVariable (code / 2) }
        ensures { result ≡ record { var = code / 2; positive = code % 2 == 0 } }
    {
        ShortLit { code }
    }

    /// The same literal as others take it.
    pub fn lit(self) -> Lit
        ensures { result ≡ self }
    {
        Lit::new(u64::from(self.code / 2), self.code % 2 == 0)
    }

    /// The number by which the literal is kept.
    pub fn code(self) -> usize
        ensures value { result ≡ code_of self }
        ensures some { 2 ≤ result }
    {
        self.code as usize
    }

    /// The number of the variable.
    pub fn var(self) -> u64
        ensures value { result ≡ self.var }
        ensures in_range { IsVariable result }
    {
        u64::from(self.code / 2)
    }

    /// Whether the literal says that its variable is true.
    pub fn positive(self) -> bool
        ensures { result ≡ self.positive }
    {
        self.code % 2 == 0
    }

    /// The literal of the same variable with the other sign.
    pub fn negated(self) -> ShortLit
        ensures { result ≡ negation self }
    {
        ShortLit {
            code: self.code ^ 1,
        }
    }
}
