//! Statements on one variable.

ghost use Rattle.std.specs.Prelude.{◌≡◌};
ghost use Rattle.enc_atoms.specs.declared.atoms.Test.TheVariants as Test;

/// How a variable's number compares with a given one.
#[derive(Clone, Copy, Debug, PartialEq, Eq)]
pub enum Test {
    /// It is at most the given one.
    AtMost,
    /// It is above the given one.
    Above,
    /// It is the given one.
    Is,
    /// It is another one.
    IsNot,
}

/// A statement on a variable's number.
#[derive(Clone, Copy, Debug, PartialEq, Eq)]
pub struct Atom {
    /// The variable.
    pub var: u64,
    /// How its number compares.
    pub test: Test,
    /// The number that it compares with.
    pub value: i64,
}

impl Atom {
    /// "The variable is at most `value`."
    pub fn at_most(var: u64, value: i64) -> Atom
        ensures { result ≡ record { var = var; test = Test.AtMost; value = value } }
    {
        Atom {
            var,
            test: Test::AtMost,
            value,
        }
    }

    /// "The variable is above `value`."
    pub fn above(var: u64, value: i64) -> Atom
        ensures { result ≡ record { var = var; test = Test.Above; value = value } }
    {
        Atom {
            var,
            test: Test::Above,
            value,
        }
    }

    /// "The variable is `value`."
    pub fn is(var: u64, value: i64) -> Atom
        ensures { result ≡ record { var = var; test = Test.Is; value = value } }
    {
        Atom {
            var,
            test: Test::Is,
            value,
        }
    }

    /// "The variable isn't `value`."
    pub fn is_not(var: u64, value: i64) -> Atom
        ensures { result ≡ record { var = var; test = Test.IsNot; value = value } }
    {
        Atom {
            var,
            test: Test::IsNot,
            value,
        }
    }
}
