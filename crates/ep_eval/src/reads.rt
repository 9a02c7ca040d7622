//! Reads of matrices by indices. What is lent is lent on, where no `..` makes something new.

ghost use Rattle.std.specs.Prelude.{◌≡◌, ◌∷◌, Some, true, IfOk, map, option_and_then, option_map};
ghost use Rattle.ep_base.specs.Options.{on_both};
ghost use Rattle.ep_tree.specs.Values.{all_defined, any_index, indices_in, part_at, read_value};
ghost use Rattle.ep_tree.specs.Views.{value_tree, values_from};
ghost use Rattle.ep_eval.specs.Helds.{held_value, seen_held};
ghost use Rattle.ep_eval.specs.Reading.{IsStatedFirst, part_under, with_index};

use super::copies::copy_value;
use super::forms::holds;
use super::held::Held;
use ep_base::{CompareOp, Memory};
use ep_tree::Value;
use std::alloc::{AllocError, Global};

/// The part with an index, if there is one.
fn part_of<'v>(own: &[i64], parts: &'v [Value], index: i64) -> Option<&'v Value>
    ensures { option_map (λ part. value_tree part.now) result ≡ part_at own.now (values_from parts.now) index }
{
    let mut left = parts;
    for own_index in own {
        match left.split_first() {
            Some((part, rest)) => {
                if holds(CompareOp::Equal, index, *own_index) {
                    return Some(part);
                }
                left = rest;
            }
            None => return None,
        }
    }
    None
}

/// The part of a value with an index, if there is one.
fn part_in(value: &Value, index: i64) -> Option<&Value>
    ensures { option_map (λ part. value_tree part.now) result ≡ part_under (value_tree value.now) index }
{
    match value {
        Value::Number(_) => None,
        Value::Matrix(own, parts) => part_of(own, parts, index),
    }
}

/// The first index with those behind it, where it is stated.
fn first_stated(indices: &[Option<i64>]) -> Option<(i64, &[Option<i64>])>
    ensures { IsStatedFirst indices.now (option_map (λ cut. (cut.0, cut.1.now)) result) }
{
    match indices.split_first() {
        Some((index, rest)) => match index {
            Some(stated) => Some((*stated, rest)),
            None => None,
        },
        None => None,
    }
}

/// The part that the stated indices lead to, with those that are left: none, or `..` and what is behind it.
fn descend<'v, 'i>(
    value: &'v Value,
    indices: &'i [Option<i64>],
) -> Option<(&'v Value, &'i [Option<i64>])>
    ensures { read_value (indices_in indices.now) (value_tree value.now)
        ≡ option_and_then (λ found. read_value (indices_in found.1.now) (value_tree found.0.now)) result }
{
    match first_stated(indices) {
        Some((index, rest)) => match part_in(value, index) {
            Some(part) => descend(part, rest),
            None => None,
        },
        None => Some((value, indices)),
    }
}

/// What a read gives, made anew.
#[cycle(copying)]
fn read_copy(alloc: Global, value: &Value, indices: &[Option<i64>]) -> Result<Option<Value>, Memory>
    ensures { IfOk result (λ copy. option_map value_tree copy
        ≡ read_value (indices_in indices.now) (value_tree value.now)) }
{
    match indices.split_first() {
        Some((index, rest)) => match index {
            Some(stated) => read_under(alloc, value, *stated, rest),
            None => read_every(alloc, value, rest),
        },
        None => {
            let copy = copy_value(alloc, value)?;
            Ok(Some(copy))
        }
    }
}

/// What a read gives of the part with an index.
#[cycle(copying)]
fn read_under(
    alloc: Global,
    value: &Value,
    index: i64,
    rest: &[Option<i64>],
) -> Result<Option<Value>, Memory>
    ensures { IfOk result (λ copy. option_map value_tree copy
        ≡ option_and_then (read_value (indices_in rest.now)) (part_under (value_tree value.now) index)) }
{
    match part_in(value, index) {
        Some(part) => read_copy(alloc, part, rest),
        None => Ok(None),
    }
}

/// What a read gives of each part, as a matrix with the same indices.
#[cycle(copying)]
fn read_every(alloc: Global, value: &Value, rest: &[Option<i64>]) -> Result<Option<Value>, Memory>
    ensures { IfOk result (λ copy. option_map value_tree copy
        ≡ read_value (any_index ∷ indices_in rest.now) (value_tree value.now)) }
{
    match value {
        Value::Number(_) => Ok(None),
        Value::Matrix(own, parts) => {
            let copies = read_parts(alloc, parts, rest)?;
            match copies {
                Some(copies) => {
                    let own = Vec::from_slice(alloc, own.as_slice())?;
                    Ok(Some(Value::Matrix(own, copies)))
                }
                None => Ok(None),
            }
        }
    }
}

/// What a read gives of each of some parts, where each gives something.
#[cycle(copying)]
fn read_parts(
    alloc: Global,
    parts: &[Value],
    rest: &[Option<i64>],
) -> Result<Option<Vec<Value>>, Memory>
    ensures { IfOk result (λ copies. option_map (λ v. map value_tree v.items) copies
        ≡ all_defined (map (λ part. read_value (indices_in rest.now) (value_tree part)) parts.now)) }
{
    let mut copies = Vec::new(alloc);
    for part in parts {
        let copy = read_copy(alloc, part, rest)?;
        match copy {
            Some(copy) => copies.push(copy)?,
            None => return Ok(None),
        }
    }
    Ok(Some(copies))
}

/// What a read gives of a lent value.
fn read_lent<'a>(
    alloc: Global,
    value: &'a Value,
    indices: &[Option<i64>],
) -> Result<Option<Held<'a>>, Memory>
    ensures { IfOk result (λ found. seen_held found
        ≡ read_value (indices_in indices.now) (value_tree value.now)) }
{
    match descend(value, indices) {
        Some((part, rest)) => {
            if rest.len() == 0 {
                return Ok(Some(Held::Lent(part)));
            }
            let copy = read_copy(alloc, part, rest)?;
            Ok(made(copy))
        }
        None => Ok(None),
    }
}

/// A value that was made, if there is one.
fn made<'a>(value: Option<Value>) -> Option<Held<'a>>
    ensures { seen_held result ≡ option_map value_tree value }
{
    match value {
        Some(value) => Some(Held::Made(value)),
        None => None,
    }
}

/// What a read gives of what is held.
fn read_held<'a>(
    alloc: Global,
    held: Held<'a>,
    indices: &[Option<i64>],
) -> Result<Option<Held<'a>>, Memory>
    ensures { IfOk result (λ found. seen_held found
        ≡ read_value (indices_in indices.now) (held_value held.entry)) }
{
    match held {
        Held::Number(number) => {
            if indices.len() == 0 {
                return Ok(Some(Held::Number(number)));
            }
            Ok(None)
        }
        Held::Lent(value) => read_lent(alloc, value, indices),
        Held::Made(value) => {
            let copy = read_copy(alloc, &value, indices)?;
            Ok(made(copy))
        }
    }
}

/// What a read gives, where the matrix and the indices are there.
pub fn read<'a>(
    alloc: Global,
    seen: Option<Held<'a>>,
    indices: Option<Vec<Option<i64>>>,
) -> Result<Option<Held<'a>>, Memory>
    ensures { IfOk result (λ found. seen_held found
        ≡ on_both (option_map (λ v. indices_in v.items) indices) (seen_held seen.entry) read_value) }
{
    match seen {
        Some(held) => match indices {
            Some(indices) => read_held(alloc, held, &indices),
            None => Ok(None),
        },
        None => Ok(None),
    }
}

/// The values of indices with one that is stated, where it has one.
fn with_stated(
    mut values: Vec<Option<i64>>,
    number: Option<i64>,
) -> Result<Option<Vec<Option<i64>>>, AllocError>
    ensures { IfOk result (λ more. option_map (λ v. v.items) more
        ≡ with_index (Some values.items) true number) }
{
    match number {
        Some(number) => {
            values.push(Some(number))?;
            Ok(Some(values))
        }
        None => Ok(None),
    }
}

/// The values of some indices and of one more, which is `..` where it isn't stated.
pub fn with_next(
    values: Option<Vec<Option<i64>>>,
    stated: bool,
    number: Option<i64>,
) -> Result<Option<Vec<Option<i64>>>, AllocError>
    ensures { IfOk result (λ more. option_map (λ v. v.items) more
        ≡ with_index (option_map (λ v. v.items) values) stated number) }
{
    match values {
        Some(mut values) => {
            if stated {
                return with_stated(values, number);
            }
            values.push(None)?;
            Ok(Some(values))
        }
        None => Ok(None),
    }
}
