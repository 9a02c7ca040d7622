//! Lists in which no decision variable stands: their scalars and their rows.

ghost use Rattle.std.specs.Prelude.{◌≡◌, ◌++◌, IfOk, OnOk, map, option_map};
ghost use Rattle.ep_eval.specs.Helds.{held_value, seen_held};
ghost use Rattle.ep_eval.specs.Scopes.{env_in, mode_in};
ghost use Rattle.ep_tree.specs.Evaluation.{evaluate, rows_in, scalars_in};
ghost use Rattle.ep_tree.specs.Values.{rows_of, scalars_of};
ghost use Rattle.ep_tree.specs.Views.{expr_tree, value_tree};
ghost use Rattle.ep_unroll.specs.Readings.{Numbering, Reading};

use super::fixed::{fixed_value, is_fixed};
use ep_base::{Key, Memory};
use ep_eval::{Held, Scope};
use ep_tree::{Expr, Value};
use std::alloc::{AllocError, Global};

/// Puts the scalars of a value behind others, row by row. Linear in them.
fn add_scalars(value: &Value, scalars: &mut Vec<i64>) -> Result<(), AllocError>
    ensures { OnOk result (scalars.new.items ≡ scalars.old.items ++ scalars_of (value_tree value.now)) }
{
    match value {
        Value::Number(number) => {
            scalars.push(*number)?;
            Ok(())
        }
        Value::Matrix(_, parts) => {
            for part in parts {
                add_scalars(part, scalars)?;
            }
            Ok(())
        }
    }
}

/// The scalars of a value, row by row.
fn plain_scalars(alloc: Global, value: &Value) -> Result<Vec<i64>, AllocError>
    ensures { IfOk result (λ parts. parts.items ≡ scalars_of (value_tree value.now)) }
{
    let mut parts = Vec::new(alloc);
    add_scalars(value, &mut parts)?;
    Ok(parts)
}

/// The scalars of what is held, row by row.
fn held_scalars(alloc: Global, held: &Held) -> Result<Vec<i64>, AllocError>
    ensures { IfOk result (λ parts. parts.items ≡ scalars_of (held_value held.now)) }
{
    match held {
        Held::Number(number) => {
            let mut parts = Vec::new(alloc);
            parts.push(*number)?;
            Ok(parts)
        }
        Held::Lent(value) => plain_scalars(alloc, value),
        Held::Made(value) => plain_scalars(alloc, value),
    }
}

/// The scalars of what was seen, where there is a value. Linear in them.
pub fn seen_scalars(alloc: Global, seen: &Option<Held>) -> Result<Option<Vec<i64>>, AllocError>
    ensures { IfOk result (λ parts. option_map (λ v. v.items) parts ≡ scalars_in (seen_held seen.now)) }
{
    match seen {
        Some(held) => {
            let parts = held_scalars(alloc, held)?;
            Ok(Some(parts))
        }
        None => Ok(None),
    }
}

/// The scalars of an expression's value, where it has one. No decision variable may stand in it.
pub fn fixed_scalars(scope: Scope<'_, '_>, e: &Expr) -> Result<Option<Vec<i64>>, Memory>
    ensures { IfOk result (λ parts. (n : Numbering) → (r : Reading n (env_in scope.entry))
        → scalars_in (evaluate (mode_in scope.entry) r.values (expr_tree e.now)) ≡ option_map (λ v. v.items) parts) }
{
    if !is_fixed(scope, e) {
        return Err(Memory);
    }
    let seen = fixed_value(scope, e)?;
    let parts = seen_scalars(scope.alloc, &seen)?;
    Ok(parts)
}

/// The rows of a value.
fn plain_rows(alloc: Global, value: &Value) -> Result<Vec<Key>, AllocError>
    ensures { IfOk result (λ rows. rows.items ≡ rows_of (value_tree value.now)) }
{
    let mut rows = Vec::new(alloc);
    match value {
        Value::Number(_) => Ok(rows),
        Value::Matrix(_, parts) => {
            for part in parts {
                rows.push(Key::new(plain_scalars(alloc, part)?))?;
            }
            Ok(rows)
        }
    }
}

/// The rows of what is held.
fn held_rows(alloc: Global, held: &Held) -> Result<Vec<Key>, AllocError>
    ensures { IfOk result (λ rows. rows.items ≡ rows_of (held_value held.now)) }
{
    match held {
        Held::Number(_) => Ok(Vec::new(alloc)),
        Held::Lent(value) => plain_rows(alloc, value),
        Held::Made(value) => plain_rows(alloc, value),
    }
}

/// The rows of what was seen, where there is a value. Linear in their scalars.
fn seen_rows(alloc: Global, seen: &Option<Held>) -> Result<Option<Vec<Key>>, AllocError>
    ensures { IfOk result (λ rows. option_map (λ v. v.items) rows ≡ rows_in (seen_held seen.now)) }
{
    match seen {
        Some(held) => {
            let rows = held_rows(alloc, held)?;
            Ok(Some(rows))
        }
        None => Ok(None),
    }
}

/// The rows of an expression's value, where it has one. No decision variable may stand in it.
pub fn fixed_rows(scope: Scope<'_, '_>, e: &Expr) -> Result<Option<Vec<Key>>, Memory>
    ensures { IfOk result (λ rows. (n : Numbering) → (r : Reading n (env_in scope.entry))
        → rows_in (evaluate (mode_in scope.entry) r.values (expr_tree e.now)) ≡ option_map (λ v. v.items) rows) }
{
    if !is_fixed(scope, e) {
        return Err(Memory);
    }
    let seen = fixed_value(scope, e)?;
    let rows = seen_rows(scope.alloc, &seen)?;
    Ok(rows)
}
