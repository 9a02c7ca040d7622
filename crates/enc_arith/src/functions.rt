//! Functions of one number.

ghost use Rattle.std.specs.Prelude.{◌≡◌};
ghost use Rattle.enc_arith.specs.Finding.{Finds};

use crate::numbers::{quotient, remainder};
use ep_numbers::{near_number, nth_power};

/// A function of one number. One of two numbers is given its first one.
#[derive(Clone, Copy)]
pub(crate) enum Function {
    /// The number itself.
    Same,
    Absolute,
    /// The power with this exponent.
    Power(u64),
    /// The product of this factor and the number.
    Product(i64),
    /// This number divided by the function's one.
    Quotient(i64),
    /// What a division of this number by the function's one leaves.
    Remainder(i64),
}

impl Function {
    ghost use Rattle.enc_arith.specs.Functions.{function_value};

    /// The function's value, if a variable can have it.
    pub(crate) fn at(self, number: i64) -> Option<i64>
        ensures { Finds result (function_value self number) }
    {
        match self {
            Function::Same => Some(number),
            Function::Absolute => near_number(i128::from(number).abs()),
            Function::Power(exponent) => nth_power(number, exponent),
            Function::Product(factor) => near_number(i128::from(factor) * i128::from(number)),
            Function::Quotient(over) => near_number(quotient(over, number)),
            Function::Remainder(over) => near_number(remainder(over, number)),
        }
    }
}
