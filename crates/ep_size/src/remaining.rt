//! The scalars that the indices of a read leave of a value.

ghost use Rattle.std.specs.Prelude.{◌≡◌, ◌∷◌, ◌++◌, List, IfErr, IfOk, OnOk, false, flat_map, map, option_map, option_to_list};
ghost use Rattle.ep_base.specs.Numbers.{compare_holds};
ghost use Rattle.ep_base.specs.declared.operators.CompareOp.{CompareOp as EachCompare};
ghost use Rattle.ep_tree.specs.Reach.{MeasuredIndex, parts_left};
ghost use Rattle.ep_tree.specs.Values.{part_at, scalars_of};
ghost use Rattle.ep_tree.specs.Views.{value_tree, values_from};
ghost use Rattle.ep_eval.specs.Reading.{part_under};
ghost use Rattle.ep_size.specs.Extents.{fixed_grid, plain_span};
ghost use Rattle.ep_size.specs.Hulls.{Hulls};
ghost use Rattle.ep_size.specs.Indices.{keeps_all, measured_of};
ghost use Rattle.ep_size.specs.declared.errors.SizeError.TheVariants as error;

use super::errors::SizeError;
use super::extents::Span;
use super::hulls::Hulled;
use super::reading::Indexed;
use super::scalars::add_value;
use ep_tree::Value;
use std::alloc::Global;

/// Whether an index leaves each part.
#[tactic(auto, unfolding(crate::specs::Indices::keeps_all, crate::specs::Indices::measured_of))]
pub fn keeps_all(index: Indexed) -> bool
    ensures { result ≡ keeps_all (measured_of index) }
{
    match index {
        Indexed::Stated(_) => false,
        Indexed::Every => true,
        Indexed::Decided(_) => true,
    }
}

/// Whether two numbers are one.
#[tactic(auto, unfolding(ep_base::specs::Numbers::compare_holds))]
pub fn is_same(one: i64, other: i64) -> bool
    ensures { result ≡ compare_holds EachCompare.Equal one other }
{
    one == other
}

/// The part with an index, if there is one. Linear in the parts.
fn part_with<'v>(own: &[i64], parts: &'v [Value], index: i64) -> Option<&'v Value>
    ensures { option_map (λ part. value_tree part.now) result ≡ part_at own.now (values_from parts.now) index }
{
    let mut left = parts;
    for own_index in own {
        match left.split_first() {
            Some((part, rest)) => {
                if is_same(index, *own_index) {
                    return Some(part);
                }
                left = rest;
            }
            None => return None,
        }
    }
    None
}

/// The part of a value with an index, if there is one.
fn part_under(value: &Value, index: i64) -> Option<&Value>
    ensures { option_map (λ part. value_tree part.now) result ≡ part_under (value_tree value.now) index }
{
    match value {
        Value::Number(_) => None,
        Value::Matrix(own, parts) => part_with(own, parts, index),
    }
}

/// The part of a value that a stated index leaves, if there is one.
#[tactic(auto, unfolding(crate::specs::Indices::keeps_all, crate::specs::Indices::measured_of))]
fn part_left(value: &Value, index: Indexed) -> Option<&Value>
    ensures { (is : List MeasuredIndex) → keeps_all (measured_of index) ≡ false
        → parts_left (measured_of index ∷ is) (fixed_grid (value_tree value.now))
        ≡ flat_map (parts_left is) (option_to_list (option_map (λ part. fixed_grid (value_tree part.now)) result)) }
{
    match index {
        Indexed::Stated(number) => match number {
            Some(stated) => part_under(value, stated),
            None => None,
        },
        Indexed::Every => None,
        Indexed::Decided(_) => None,
    }
}

/// Puts the scalars that indices leave of a value behind others.
pub fn add_left(value: &Value, indices: &[Indexed], spans: &mut Vec<Span>) -> Result<(), SizeError>
    ensures added { OnOk result (map plain_span spans.new.items
        ≡ map plain_span spans.old.items ++ flat_map scalars_of (parts_left (map measured_of indices.now) (fixed_grid (value_tree value.now)))) }
    ensures memory { IfErr result (λ e. e ≡ error.Memory) }
{
    match indices.split_first() {
        Some((index, rest)) => {
            if !keeps_all(*index) {
                return match part_left(value, *index) {
                    Some(part) => add_left(part, rest, spans),
                    None => Ok(()),
                };
            }
            match value {
                Value::Number(_) => Ok(()),
                Value::Matrix(_, parts) => {
                    for part in parts {
                        add_left(part, rest, spans)?;
                    }
                    Ok(())
                }
            }
        }
        None => add_value(value, spans),
    }
}

/// Some numbers one after another.
pub fn hull_over(spans: &[Span]) -> Hulled
    ensures { Hulls result (map plain_span spans.now) }
{
    let mut hull = Hulled::new();
    for span in spans {
        hull.add(*span);
    }
    hull
}

/// What indices leave of a value.
pub fn value_left(alloc: Global, value: &Value, indices: &[Indexed]) -> Result<Hulled, SizeError>
    ensures left { IfOk result (λ left. Hulls left (flat_map scalars_of (parts_left (map measured_of indices.now) (fixed_grid (value_tree value.now))))) }
    ensures memory { IfErr result (λ e. e ≡ error.Memory) }
{
    let mut spans = Vec::new(alloc);
    add_left(value, indices, &mut spans)?;
    Ok(hull_over(&spans))
}
