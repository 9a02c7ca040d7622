//! The scalar parts of values as lists.

ghost use Rattle.std.specs.Prelude.{◌≡◌, ◌++◌, IfOk, OnOk, map, option_map};
ghost use Rattle.ep_tree.specs.Evaluation.{rows_in, scalars_in};
ghost use Rattle.ep_tree.specs.Values.{list_value, rows_of, scalars_of};
ghost use Rattle.ep_tree.specs.Views.{value_tree};
ghost use Rattle.ep_eval.specs.Counting.{Gives};
ghost use Rattle.ep_eval.specs.Helds.{held_value, seen_held};

use super::errors::EvalError;
use super::held::Held;
use ep_tree::Value;
use std::alloc::{AllocError, Global};

/// Puts the scalars of a value behind others, row by row. Linear in them.
fn add_scalars(value: &Value, scalars: &mut Vec<i64>) -> Result<(), AllocError>
    ensures { OnOk result (scalars.new.items ≡ scalars.old.items ++ scalars_of (value_tree value.now)) }
{
    match value {
        Value::Number(number) => {
            scalars.push(*number)?;
            Ok(())
        }
        Value::Matrix(_, parts) => {
            for part in parts {
                add_scalars(part, scalars)?;
            }
            Ok(())
        }
    }
}

/// The scalars of a value, row by row.
fn plain_scalars(alloc: Global, value: &Value) -> Result<Vec<i64>, AllocError>
    ensures { IfOk result (λ parts. parts.items ≡ scalars_of (value_tree value.now)) }
{
    let mut parts = Vec::new(alloc);
    add_scalars(value, &mut parts)?;
    Ok(parts)
}

/// The scalars of what is held, row by row.
fn held_scalars(alloc: Global, held: &Held) -> Result<Vec<i64>, AllocError>
    ensures { IfOk result (λ parts. parts.items ≡ scalars_of (held_value held.now)) }
{
    match held {
        Held::Number(number) => {
            let mut parts = Vec::new(alloc);
            parts.push(*number)?;
            Ok(parts)
        }
        Held::Lent(value) => plain_scalars(alloc, value),
        Held::Made(value) => plain_scalars(alloc, value),
    }
}

/// The scalars of what was seen, row by row. Linear in them.
pub fn scalars(alloc: Global, seen: &Option<Held>) -> Result<Option<Vec<i64>>, AllocError>
    ensures { IfOk result (λ parts. option_map (λ v. v.items) parts ≡ scalars_in (seen_held seen.now)) }
{
    match seen {
        Some(held) => {
            let parts = held_scalars(alloc, held)?;
            Ok(Some(parts))
        }
        None => Ok(None),
    }
}

/// The rows of a value.
fn plain_rows(alloc: Global, value: &Value) -> Result<Vec<Vec<i64>>, AllocError>
    ensures { IfOk result (λ rows. map (λ v. v.items) rows.items ≡ rows_of (value_tree value.now)) }
{
    let mut rows = Vec::new(alloc);
    match value {
        Value::Number(_) => Ok(rows),
        Value::Matrix(_, parts) => {
            for part in parts {
                rows.push(plain_scalars(alloc, part)?)?;
            }
            Ok(rows)
        }
    }
}

/// The rows of what is held.
fn held_rows(alloc: Global, held: &Held) -> Result<Vec<Vec<i64>>, AllocError>
    ensures { IfOk result (λ rows. map (λ v. v.items) rows.items ≡ rows_of (held_value held.now)) }
{
    match held {
        Held::Number(_) => Ok(Vec::new(alloc)),
        Held::Lent(value) => plain_rows(alloc, value),
        Held::Made(value) => plain_rows(alloc, value),
    }
}

/// The rows of what was seen. Linear in their scalars.
pub fn rows(alloc: Global, seen: &Option<Held>) -> Result<Option<Vec<Vec<i64>>>, AllocError>
    ensures { IfOk result (λ rows. option_map (λ all. map (λ v. v.items) all.items) rows
        ≡ rows_in (seen_held seen.now)) }
{
    match seen {
        Some(held) => {
            let rows = held_rows(alloc, held)?;
            Ok(Some(rows))
        }
        None => Ok(None),
    }
}

/// Numbers as a matrix of one dimension, with indices from 1.
fn list_of(alloc: Global, parts: &[i64]) -> Result<Value, AllocError>
    ensures { IfOk result (λ value. value_tree value ≡ list_value parts.now) }
{
    let mut indices = Vec::with_capacity(alloc, parts.len())?;
    let mut numbers = Vec::with_capacity(alloc, parts.len())?;
    for (i, part) in parts.iter().enumerate() {
        indices.push(i as i64 + 1)?;
        numbers.push(Value::Number(*part))?;
    }
    Ok(Value::Matrix(indices, numbers))
}

/// `flatten(m)`
pub fn flattened<'a>(alloc: Global, seen: &Option<Held>) -> Result<Option<Held<'a>>, EvalError>
    ensures { Gives result (option_map list_value (scalars_in (seen_held seen.now))) }
{
    let parts = scalars(alloc, seen)?;
    match parts {
        Some(parts) => {
            let list = list_of(alloc, &parts)?;
            Ok(Some(Held::Made(list)))
        }
        None => Ok(None),
    }
}
