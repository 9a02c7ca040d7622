//! Operations on two variables.

ghost use Rattle.std.specs.Prelude.{◌<◌, [], length, IsTrue, OnOk};
ghost use Rattle.std.specs.Ordering.{int_eq};
ghost use Rattle.ep_flat.specs.Cons.{number_at};
ghost use Rattle.enc_atoms.specs.Atoms.{Adds};
ghost use Rattle.enc_arith.specs.Operations.{result_of};
ghost use Rattle.enc_arith.specs.Saying.{IsReady, IsTarget, or_is_not, says};

use crate::functions::Function;
use crate::runs::add_function;
use crate::targets::Target;
use cnf_core::Formula;
use enc_atoms::Atom;
use enc_var::Layout;
use ep_base::Memory;
use ep_numbers::listed;
use std::alloc::Global;

/// An operation on two numbers.
#[derive(Clone, Copy)]
pub(crate) enum Operation {
    Product,
    Quotient,
    Remainder,
}

impl Operation {
    ghost use Rattle.std.specs.Prelude.{◌≡◌, ℤ};
    ghost use Rattle.enc_arith.specs.Functions.{function_value};
    ghost use Rattle.enc_arith.specs.Operations.{result_of};

    /// The function of the second number, where this is the first one.
    #[tactic(auto, unfolding(crate::specs::Functions::function_value, crate::specs::Operations::result_of))]
    fn given(self, first: i64) -> Function
        ensures { (n : ℤ) → function_value result n ≡ result_of self first n }
    {
        match self {
            Operation::Product => Function::Product(first),
            Operation::Quotient => Function::Quotient(first),
            Operation::Remainder => Function::Remainder(first),
        }
    }
}

/// Adds clauses which say that where the variable `x` is the number the result is the operation's value.
fn add_given(
    alloc: Global,
    layout: &Layout,
    f: &mut Formula,
    target: Target,
    operation: Operation,
    x: u64,
    y: u64,
    number: i64,
) -> Result<(), Memory>
    requires ready { IsReady layout.now f.old }
    requires there { IsTarget layout.now target.truth target.result }
    requires first { x < length layout.now }
    requires second { y < length layout.now }
    ensures { OnOk result (Adds layout.now f.old layout.now f.new
        (λ values. IsTrue (says values (or_is_not [] x number) target.truth
        (int_eq (number_at values target.result) (result_of operation number (number_at values y)))))) }
{
    let when = [Atom::is_not(x, number)];
    add_function(alloc, layout, f, &when, target, operation.given(number), y)?;
    Ok(())
}

/// Adds clauses which say that the result is the operation's value of the variables `x` and `y`.
pub(crate) fn add_operation(
    alloc: Global,
    layout: &Layout,
    f: &mut Formula,
    target: Target,
    operation: Operation,
    x: u64,
    y: u64,
) -> Result<(), Memory>
    requires ready { IsReady layout.now f.old }
    requires there { IsTarget layout.now target.truth target.result }
    requires first { x < length layout.now }
    requires second { y < length layout.now }
    ensures { OnOk result (Adds layout.now f.old layout.now f.new
        (λ values. IsTrue (says values [] target.truth
        (int_eq (number_at values target.result)
        (result_of operation (number_at values x) (number_at values y)))))) }
{
    let numbers = listed(alloc, layout.domain(x))?;
    for number in numbers.as_slice() {
        add_given(alloc, layout, f, target, operation, x, y, *number)?;
    }
    Ok(())
}
