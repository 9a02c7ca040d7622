//! Copies of values and of domains.

ghost use Rattle.std.specs.Prelude.{◌≡◌, IfOk};
ghost use Rattle.ep_tree.specs.Views.{value_tree};
ghost use Rattle.ep_eval.specs.Helds.{held_value};

use super::environments::NamedDomain;
use super::held::Held;
use ep_base::{Memory, Name, Runs};
use ep_numbers::copy_sets;
use ep_tree::{Entry, Value};
use std::alloc::Global;

/// The same value once more. Linear in its numbers.
pub fn copy_value(alloc: Global, value: &Value) -> Result<Value, Memory>
    ensures { IfOk result (λ copy. value_tree copy ≡ value_tree value.now) }
{
    match value {
        Value::Number(number) => Ok(Value::Number(*number)),
        Value::Matrix(indices, parts) => {
            let indices = Vec::from_slice(alloc, indices.as_slice())?;
            let mut copies = Vec::with_capacity(alloc, parts.len())?;
            for part in parts {
                copies.push(copy_value(alloc, part)?)?;
            }
            Ok(Value::Matrix(indices, copies))
        }
    }
}

/// A value for the caller: what is lent is copied.
pub fn given_value(alloc: Global, held: Held) -> Result<Value, Memory>
    ensures { IfOk result (λ value. value_tree value ≡ held_value held.entry) }
{
    match held {
        Held::Number(number) => Ok(Value::Number(number)),
        Held::Lent(value) => {
            let copy = copy_value(alloc, value)?;
            Ok(copy)
        }
        Held::Made(value) => Ok(value),
    }
}

/// The same domain once more.
pub fn copy_domain(alloc: Global, domain: &NamedDomain) -> Result<NamedDomain, Memory>
    ensures indices { IfOk result (λ copy. copy.indices.items ≡ domain.now.indices.items) }
    ensures values { IfOk result (λ copy. copy.values ≡ domain.now.values) }
    ensures of { IfOk result (λ copy. copy.of ≡ domain.now.of) }
{
    Ok(NamedDomain {
        indices: copy_sets(alloc, &domain.indices)?,
        values: domain.values.copy(alloc)?,
        of: domain.of,
    })
}

/// The same entry once more.
pub fn copy_entry(alloc: Global, entry: &Entry) -> Result<Entry, Memory>
    ensures name { IfOk result (λ copy. copy.name ≡ entry.now.name) }
    ensures ty { IfOk result (λ copy. copy.ty ≡ entry.now.ty) }
    ensures value { IfOk result (λ copy. value_tree copy.value ≡ value_tree entry.now.value) }
{
    Ok(Entry {
        name: Name::new(alloc, entry.name.text())?,
        ty: entry.ty,
        value: copy_value(alloc, &entry.value)?,
    })
}
