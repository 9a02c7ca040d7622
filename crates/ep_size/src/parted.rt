//! Reads that leave a matrix of one whose parts are known one by one.

ghost use Rattle.std.specs.Prelude.{◌≡◌, ◌∷◌, [], List, Some, IfErr, IfOk, false, map};
ghost use Rattle.std.specs.List.{list_any};
ghost use Rattle.ep_tree.specs.Measures.{number_reach};
ghost use Rattle.ep_tree.specs.Reach.{MeasuredIndex, fixed_index, is_decided_index, no_extent, slice_extent, whole_index};
ghost use Rattle.ep_tree.specs.Values.{matrix};
ghost use Rattle.ep_tree.specs.Views.{value_tree};
ghost use Rattle.ep_eval.specs.Helds.{held_value};
ghost use Rattle.ep_size.specs.Extents.{fixed_grid, grid_of, grids_from};
ghost use Rattle.ep_size.specs.Indices.{measured_of};
ghost use Rattle.ep_size.specs.Lists.{TellsExtent};
ghost use Rattle.ep_size.specs.Slices.{ReadsGrid};
ghost use Rattle.ep_size.specs.declared.errors.SizeError.TheVariants as error;

use super::errors::SizeError;
use super::extents::Extent;
use super::picked::part_with;
use super::reading::Indexed;
use super::slices::{are_told, cells_part, no_parts};
use ep_eval::Held;
use ep_tree::Value;
use std::alloc::Global;

/// What is known of a value, with its parts apart. Linear in its scalars.
fn opened_value<'a>(alloc: Global, value: &Value) -> Result<Extent<'a>, SizeError>
    ensures grid { IfOk result (λ x. grid_of x ≡ fixed_grid (value_tree value.now)) }
    ensures memory { IfErr result (λ e. e ≡ error.Memory) }
{
    match value {
        Value::Number(number) => Ok(Extent::Fixed(Held::Number(*number))),
        Value::Matrix(own, parts) => {
            let mut indices = Vec::new(alloc);
            indices.extend_from_slice(own)?;
            let mut inner = Vec::new(alloc);
            for part in parts {
                let opened = opened_value(alloc, part)?;
                inner.push(opened)?;
            }
            Ok(Extent::Matrix(indices, inner))
        }
    }
}

/// The same of a value that is held.
fn opened_held<'a>(alloc: Global, held: &Held<'_>) -> Result<Extent<'a>, SizeError>
    ensures grid { IfOk result (λ x. grid_of x ≡ fixed_grid (held_value held.now)) }
    ensures memory { IfErr result (λ e. e ≡ error.Memory) }
{
    match held {
        Held::Number(number) => Ok(Extent::Fixed(Held::Number(*number))),
        Held::Lent(value) => opened_value(alloc, value),
        Held::Made(value) => opened_value(alloc, value),
    }
}

/// What is known once more. Linear in its parts.
fn copied<'a>(alloc: Global, known: &Extent<'a>) -> Result<Extent<'a>, SizeError>
    ensures grid { IfOk result (λ x. grid_of x ≡ grid_of known.now) }
    ensures memory { IfErr result (λ e. e ≡ error.Memory) }
{
    match known {
        Extent::Number(span) => Ok(Extent::Number(*span)),
        Extent::Cells(span, domains) => Ok(Extent::Cells(*span, domains)),
        Extent::Fixed(held) => opened_held(alloc, held),
        Extent::Nothing => Ok(Extent::Nothing),
        Extent::NoParts => Ok(no_parts(alloc)),
        Extent::Matrix(own, parts) => {
            let mut indices = Vec::new(alloc);
            indices.extend_from_slice(own)?;
            let mut inner = Vec::new(alloc);
            for part in parts {
                let copy = copied(alloc, part)?;
                inner.push(copy)?;
            }
            Ok(Extent::Matrix(indices, inner))
        }
    }
}

/// What an index, with others behind it, leaves of a matrix without parts, if that has a value: `..` leaves it as it is.
fn left_of_none<'a>(alloc: Global, index: Indexed) -> Option<Extent<'a>>
    ensures { (is : List MeasuredIndex) → ReadsGrid (measured_of index ∷ is) no_extent result }
{
    match index {
        Indexed::Stated(_) => None,
        Indexed::Every => Some(no_parts(alloc)),
        Indexed::Decided(_) => None,
    }
}

/// What indices leave of what is known, if that has a value. Linear in its parts.
#[cycle(leaving)]
fn left_of<'a>(
    alloc: Global,
    known: &Extent<'a>,
    indices: &[Indexed],
) -> Result<Option<Extent<'a>>, SizeError>
    ensures read { IfOk result (ReadsGrid (map measured_of indices.now) (grid_of known.now)) }
    ensures memory { IfErr result (λ e. e ≡ error.Memory) }
{
    match indices.split_first() {
        Some((index, rest)) => match known {
            Extent::Cells(span, domains) => cells_part(alloc, *span, domains, indices),
            Extent::Fixed(held) => left_of_held(alloc, held, *index, rest),
            Extent::Matrix(own, parts) => left_in(alloc, own, parts, *index, rest),
            Extent::NoParts => Ok(left_of_none(alloc, *index)),
            // A number has no part.
            Extent::Number(_) => Ok(None),
            Extent::Nothing => Ok(None),
        },
        None => {
            let copy = copied(alloc, known)?;
            Ok(Some(copy))
        }
    }
}

/// The same of a value that is held. Of a number it isn't told: it has no part.
#[cycle(leaving)]
fn left_of_held<'a>(
    alloc: Global,
    held: &Held<'a>,
    index: Indexed,
    rest: &[Indexed],
) -> Result<Option<Extent<'a>>, SizeError>
    ensures read { IfOk result (ReadsGrid (measured_of index ∷ map measured_of rest.now) (fixed_grid (held_value held.now))) }
    ensures memory { IfErr result (λ e. e ≡ error.Memory) }
{
    let known = opened_held(alloc, held)?;
    match &known {
        Extent::Matrix(own, parts) => left_in(alloc, own, parts, index, rest),
        _ => Err(SizeError::Memory),
    }
}

/// The same of a matrix of these parts.
#[cycle(leaving)]
fn left_in<'a>(
    alloc: Global,
    own: &[i64],
    parts: &[Extent<'a>],
    index: Indexed,
    rest: &[Indexed],
) -> Result<Option<Extent<'a>>, SizeError>
    ensures read { IfOk result (ReadsGrid (measured_of index ∷ map measured_of rest.now) (matrix own.now (grids_from parts.now))) }
    ensures memory { IfErr result (λ e. e ≡ error.Memory) }
{
    match index {
        Indexed::Stated(number) => match number {
            Some(stated) => left_at(alloc, own, parts, stated, rest),
            None => Err(SizeError::Memory),
        },
        Indexed::Every => left_of_each(alloc, own, parts, rest),
        Indexed::Decided(_) => Err(SizeError::Memory),
    }
}

/// What indices leave of the part with an index.
#[cycle(leaving)]
fn left_at<'a>(
    alloc: Global,
    own: &[i64],
    parts: &[Extent<'a>],
    stated: i64,
    rest: &[Indexed],
) -> Result<Option<Extent<'a>>, SizeError>
    ensures read { IfOk result (ReadsGrid (fixed_index (Some stated) ∷ map measured_of rest.now) (matrix own.now (grids_from parts.now))) }
    ensures memory { IfErr result (λ e. e ≡ error.Memory) }
{
    match part_with(own, parts, stated) {
        Some(part) => left_of(alloc, part, rest),
        None => Ok(None),
    }
}

/// What indices leave of each part.
#[cycle(leaving)]
fn left_of_each<'a>(
    alloc: Global,
    own: &[i64],
    parts: &[Extent<'a>],
    rest: &[Indexed],
) -> Result<Option<Extent<'a>>, SizeError>
    ensures read { IfOk result (ReadsGrid (whole_index ∷ map measured_of rest.now) (matrix own.now (grids_from parts.now))) }
    ensures memory { IfErr result (λ e. e ≡ error.Memory) }
{
    let mut indices = Vec::new(alloc);
    indices.extend_from_slice(own)?;
    let mut lefts = Vec::new(alloc);
    for part in parts {
        let left = left_of(alloc, part, rest)?;
        match left {
            Some(known) => lefts.push(known)?,
            None => return Ok(None),
        }
    }
    Ok(Some(Extent::Matrix(indices, lefts)))
}

/// What is known of a matrix with a decision variable, by its cells or by its parts.
fn as_matrix(known: Extent<'_>) -> Result<Extent<'_>, SizeError>
    ensures listed { IfOk result (λ x. TellsExtent x (grid_of known.entry)) }
    ensures none { IfOk result (λ x. number_reach (grid_of x) ≡ []) }
    ensures memory { IfErr result (λ e. e ≡ error.Memory) }
{
    match known {
        Extent::Matrix(indices, parts) => Ok(Extent::Matrix(indices, parts)),
        Extent::Cells(span, domains) => match domains.split_first() {
            Some(_) => Ok(Extent::Cells(span, domains)),
            None => Err(SizeError::Memory),
        },
        _ => Err(SizeError::Memory),
    }
}

/// What indices leave of a matrix whose parts are known one by one; no part where that has no value.
pub fn parts_apart<'a>(
    alloc: Global,
    known: &Extent<'a>,
    indices: &[Indexed],
) -> Result<Extent<'a>, SizeError>
    ensures listed { IfOk result (λ x. list_any is_decided_index (map measured_of indices.now) ≡ false
        → TellsExtent x (slice_extent (map measured_of indices.now) (grid_of known.now))) }
    ensures none { IfOk result (λ x. number_reach (grid_of x) ≡ []) }
    ensures memory { IfErr result (λ e. e ≡ error.Memory) }
{
    if !are_told(indices) {
        return Ok(no_parts(alloc));
    }
    let left = left_of(alloc, known, indices)?;
    match left {
        Some(own) => as_matrix(own),
        None => Ok(no_parts(alloc)),
    }
}
