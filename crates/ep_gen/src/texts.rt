//! The texts of a generated input.

ghost use Rattle.std.specs.Prelude.{◌≡◌, ◌≤◌, ◌<◌, ◌++◌, IfOk, OnOk};
ghost use Rattle.ep_print.specs.Answers.{letting_text};
ghost use Rattle.ep_tree.specs.TypedValues.{IsOf};
ghost use Rattle.ep_tree.specs.Views.{value_tree};
ghost use Rattle.ep_gen.specs.Hints.{order_of};
ghost use Rattle.ep_gen.specs.Texts.{generated_model, generated_params};

use crate::hints::square;
use ep_base::Memory;
use ep_print::print_value;
use ep_tree::{Scalar, Value, ValueType};
use std::alloc::Global;

/// The line with which each text begins.
const LANGUAGE_LINE: &[u8] = b"language ESSENCE' 1.0\n";

/// The model of Latin squares with hints.
const MODEL: &[u8] = b"language ESSENCE' 1.0
given n : int(1..100)
given hint : matrix indexed by [int(1..n), int(1..n)] of int(0..n)
find q : matrix indexed by [int(1..n), int(1..n)] of int(1..n)
such that
forAll i : int(1..n) . allDiff(q[i,..]),
forAll j : int(1..n) . allDiff(q[..,j]),
forAll i,j : int(1..n) . (hint[i,j] != 0) -> (q[i,j] = hint[i,j])
";

/// The text of a model, and that of the parameters that a number gives it. Linear in the text.
#[tactic(auto, unfolding(crate::specs::Texts::generated_model))]
pub fn gen_text(alloc: Global, number: u64) -> Result<(Vec<u8>, Vec<u8>), Memory>
    requires within { number ≤ 1000000000 }
    ensures model { IfOk result (λ texts. texts.0.items ≡ generated_model) }
    ensures params { IfOk result (λ texts. texts.1.items ≡ generated_params number) }
{
    let model = Vec::from_slice(alloc, MODEL)?;
    let params = params_text(alloc, number)?;
    Ok((model, params))
}

/// The order of the square of a number: how many rows and columns it has.
#[tactic(auto, unfolding(crate::specs::Hints::order_of))]
pub fn order(number: u64) -> u64
    ensures order { result ≡ order_of number }
    ensures within { (0 < result) × (result ≤ 20) }
{
    16 + number % 5
}

/// The text of the parameters of a number.
fn params_text(alloc: Global, number: u64) -> Result<Vec<u8>, Memory>
    requires within { number ≤ 1000000000 }
    ensures { IfOk result (λ text. text.items ≡ generated_params number) }
{
    let order = order(number);
    let hints = square(alloc, order, number)?;
    let ty = ValueType::Matrix {
        dims: 2,
        of: Scalar::Int,
    };
    let mut text = Vec::from_slice(alloc, LANGUAGE_LINE)?;
    push_letting(
        alloc,
        &mut text,
        b"n",
        ValueType::Int,
        &Value::Number(order as i64),
    )?;
    push_letting(alloc, &mut text, b"hint", ty, &hints)?;
    Ok(text)
}

/// The line that gives a name its value.
#[tactic(auto, unfolding(ep_print::specs::Answers::letting_text))]
fn push_letting(
    alloc: Global,
    text: &mut Vec<u8>,
    name: &[u8],
    ty: ValueType,
    value: &Value,
) -> Result<(), Memory>
    requires typed { IsOf ty (value_tree value.now) }
    ensures { OnOk result (text.new.items ≡ text.old.items
        ++ letting_text (record { name = name.now; ty = ty; value = value_tree value.now })) }
{
    let shown = print_value(alloc, &ty, value)?;
    text.extend_from_slice(b"letting ")?;
    text.extend_from_slice(name)?;
    text.extend_from_slice(b" be ")?;
    text.extend_from_slice(&shown)?;
    text.extend_from_slice(b"\n")?;
    Ok(())
}
