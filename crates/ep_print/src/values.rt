//! Puts values out.

ghost use Rattle.std.specs.Prelude.{◌≡◌, ◌++◌, codes, IfOk, OnOk, false};
ghost use Rattle.ep_tree.specs.TypedValues.{IsOf};
ghost use Rattle.ep_tree.specs.Values.{matrix};
ghost use Rattle.ep_tree.specs.Views.{value_tree, values_from};
ghost use Rattle.ep_print.specs.Putting.{continued};
ghost use Rattle.ep_print.specs.Values.{scalar_text, scalar_value_text, scalar_value_texts, value_text};

use crate::indices::{push_index_domain, push_text_between};
use crate::numbers::push_whole;
use ep_base::Memory;
use ep_tree::{Scalar, Value, ValueType};
use std::alloc::{AllocError, Global};

/// The text of a value of a type. One pass, linear in the text.
pub fn print_value(alloc: Global, ty: &ValueType, value: &Value) -> Result<Vec<u8>, Memory>
    requires typed { IsOf ty.now (value_tree value.now) }
    ensures text { IfOk result (λ text. text.items ≡ value_text ty.now (value_tree value.now)) }
{
    let mut text = Vec::new(alloc);
    push_value(&mut text, *ty, value)?;
    Ok(text)
}

/// A value of a type.
#[tactic(auto, unfolding(crate::specs::Values::value_text))]
pub(crate) fn push_value(text: &mut Vec<u8>, ty: ValueType, value: &Value) -> Result<(), AllocError>
    ensures { OnOk result (text.new.items
        ≡ text.old.items ++ value_text ty (value_tree value.now)) }
{
    push_scalars(text, ty.scalar(), value)
}

/// A value whose numbers stand for these.
#[cycle(values)]
#[tactic(auto, unfolding(crate::specs::Values::scalar_value_text, ep_tree::specs::Views::value_tree))]
fn push_scalars(text: &mut Vec<u8>, scalar: Scalar, value: &Value) -> Result<(), AllocError>
    ensures { OnOk result (text.new.items
        ≡ text.old.items ++ scalar_value_text scalar (value_tree value.now)) }
{
    match value {
        Value::Number(number) => push_scalar(text, scalar, *number),
        Value::Matrix(indices, parts) => push_matrix(text, scalar, indices, parts),
    }
}

/// A matrix.
#[cycle(values)]
fn push_matrix(
    text: &mut Vec<u8>,
    scalar: Scalar,
    indices: &[i64],
    parts: &[Value],
) -> Result<(), AllocError>
    ensures { OnOk result (text.new.items ≡ text.old.items
        ++ scalar_value_text scalar (matrix indices.now (values_from parts.now))) }
{
    if parts.is_empty() {
        text.extend_from_slice(b"[; int(1..0)]")?;
        return Ok(());
    }
    text.extend_from_slice(b"[")?;
    push_parts(text, scalar, parts)?;
    text.extend_from_slice(b"; ")?;
    push_index_domain(text, indices)?;
    text.extend_from_slice(b"]")?;
    Ok(())
}

/// The parts of a matrix with commas between them.
#[cycle(values)]
fn push_parts(text: &mut Vec<u8>, scalar: Scalar, parts: &[Value]) -> Result<(), AllocError>
    ensures { OnOk result (text.new.items ≡ text.old.items
        ++ continued (codes ", ") false (scalar_value_texts scalar (values_from parts.now))) }
{
    let mut started = false;
    for part in parts {
        push_text_between(text, started, b", ")?;
        push_scalars(text, scalar, part)?;
        started = true;
    }
    Ok(())
}

/// A number, or the Boolean that it stands for.
#[tactic(auto, unfolding(crate::specs::Values::scalar_text))]
fn push_scalar(text: &mut Vec<u8>, scalar: Scalar, number: i64) -> Result<(), AllocError>
    ensures { OnOk result (text.new.items ≡ text.old.items ++ scalar_text scalar number) }
{
    match scalar {
        Scalar::Bool => {
            let word: &[u8] = if number == 1 { b"true" } else { b"false" };
            text.extend_from_slice(word)
        }
        Scalar::Int => push_whole(text, number),
    }
}
