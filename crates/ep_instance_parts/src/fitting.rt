//! Values fitted into domains.

ghost use Rattle.std.specs.Prelude.{◌≡◌, ◌&&◌, ℤ, Bool, IfOk, option_map};
ghost use Rattle.ep_tree.specs.Values.{fitted, scalar_fits, single};
ghost use Rattle.ep_tree.specs.Views.{value_tree};
ghost use Rattle.ep_instance_parts.specs.Elements.{PassesAs};

use super::elements::{Elements, passes};
use ep_base::{Memory, Runs};
use ep_numbers::{has_count, listed};
use ep_tree::{Scalar, Value};
use std::alloc::Global;

/// Whether a number of one scalar may stand where one of another is wanted.
#[tactic(auto, unfolding(ep_tree::specs::Values::scalar_fits))]
fn scalar_fits(own: Scalar, wanted: Scalar) -> bool
    ensures { result ≡ scalar_fits own wanted }
{
    own == Scalar::Bool || wanted == Scalar::Int
}

/// Whether a number of one scalar may be an element of a domain with numbers of another.
fn number_fits(number: i64, own: Scalar, wanted: Scalar, elements: &Elements) -> bool
    ensures { (passes : ℤ → Bool) → PassesAs elements.now passes →
        result ≡ (scalar_fits own wanted && passes number) }
{
    scalar_fits(own, wanted) && passes(elements, number)
}

/// A number fitted into a domain.
fn fit_number(
    number: i64,
    own: Scalar,
    wanted: Scalar,
    elements: &Elements,
    indices: &[Runs],
) -> Option<Value>
    ensures { (passes : ℤ → Bool) → PassesAs elements.now passes →
        option_map value_tree result ≡ fitted own wanted passes indices.now (single number) }
{
    if !indices.is_empty() {
        return None;
    }
    if number_fits(number, own, wanted, elements) {
        Some(Value::Number(number))
    } else {
        None
    }
}

/// A copy of a value of numbers of one scalar, fitted into a domain: of a scalar, with these
/// elements and index domains; nothing where it doesn't fit. Linear in the value.
pub fn fit(
    alloc: Global,
    value: &Value,
    own: Scalar,
    wanted: Scalar,
    elements: &Elements,
    indices: &[Runs],
) -> Result<Option<Value>, Memory>
    ensures { IfOk result (λ fit. (passes : ℤ → Bool) → PassesAs elements.now passes →
        option_map value_tree fit ≡ fitted own wanted passes indices.now (value_tree value.now)) }
{
    match value {
        Value::Number(number) => Ok(fit_number(*number, own, wanted, elements, indices)),
        Value::Matrix(_, parts) => {
            let Some((first, inner)) = indices.split_first() else {
                return Ok(None);
            };
            if !has_count(first, parts.len()) {
                return Ok(None);
            }
            let mut fitted = Vec::new(alloc);
            for part in parts {
                let Some(part) = fit(alloc, part, own, wanted, elements, inner)? else {
                    return Ok(None);
                };
                fitted.push(part)?;
            }
            Ok(Some(Value::Matrix(listed(alloc, first)?, fitted)))
        }
    }
}
