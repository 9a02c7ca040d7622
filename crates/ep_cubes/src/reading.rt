//! The numbers of cells, from values of a formula's variables.

ghost use Rattle.std.specs.Prelude.{◌≡◌, ◌<◌, length, IfOk};
ghost use Rattle.std.specs.List.{All};
ghost use Rattle.enc_var.specs.Decoding.{known_holds};
ghost use Rattle.enc_var.specs.Layouts.{decoded_values};
ghost use Rattle.ep_flat.specs.Cons.{number_at, numbers_of_vars};
ghost use Rattle.sat_cubes.specs.Answers as answers;

use enc_var::{Known, Layout};
use ep_base::Memory;
use ep_numbers::listed;
use std::alloc::Global;

/// The value of a variable, the first value being that of variable 1; false where there is none.
fn value_at(values: &[bool], var: u64) -> bool
    ensures { result ≡ answers.is_variable_true values.now var }
{
    let place = var.saturating_sub(1) as usize;
    if place < values.len() {
        values[place]
    } else {
        false
    }
}

/// Whether what is known is so.
fn holds(values: &[bool], known: Known) -> bool
    ensures { result ≡ known_holds (answers.is_variable_true values.now) known }
{
    match known {
        Known::True => true,
        Known::False => false,
        Known::Is(lit) => value_at(values, lit.var()) == lit.positive(),
    }
}

/// The number of a variable: the first of its domain's whose literal is true; 0 where there is none.
fn number_of(alloc: Global, layout: &Layout, values: &[bool], var: u64) -> Result<i64, Memory>
    requires { var < length layout.now }
    ensures { IfOk result (λ number. number ≡ number_at (decoded_values layout.now (answers.is_variable_true values.now)) var) }
{
    let domain = listed(alloc, layout.domain(var))?;
    for number in &domain {
        if holds(values, layout.eq(var, *number)) {
            return Ok(*number);
        }
    }
    Ok(0)
}

/// The numbers of variables, as those that stand for cells, that values of the formula's variables give them.
///
/// Costs a look at each number of their domains.
pub fn read_values(
    alloc: Global,
    layout: &Layout,
    values: &[bool],
    vars: &[u64],
) -> Result<Vec<i64>, Memory>
    requires { All (λ x. x < length layout.now) vars.now }
    ensures { IfOk result (λ found.
        found.items ≡ numbers_of_vars (decoded_values layout.now (answers.is_variable_true values.now)) vars.now) }
{
    let mut found = Vec::new(alloc);
    for var in vars {
        found.push(number_of(alloc, layout, values, *var)?)?;
    }
    Ok(found)
}
