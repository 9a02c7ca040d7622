//! The scalars that the indices of a read leave of a matrix whose parts are known one by one.

ghost use Rattle.std.specs.Prelude.{◌≡◌, ◌∷◌, ◌++◌, List, IfErr, IfOk, OnOk, false, flat_map, map, option_map, option_to_list};
ghost use Rattle.ep_tree.specs.Reach.{MeasuredIndex, parts_left};
ghost use Rattle.ep_tree.specs.Values.{filled, matrix, part_at, scalars_of, single};
ghost use Rattle.ep_eval.specs.Helds.{held_value};
ghost use Rattle.ep_size.specs.Extents.{fixed_grid, grid_of, grids_from, plain_span};
ghost use Rattle.ep_size.specs.Hulls.{Hulls};
ghost use Rattle.ep_size.specs.Indices.{keeps_all, measured_of};
ghost use Rattle.ep_size.specs.declared.errors.SizeError.TheVariants as error;

use super::errors::SizeError;
use super::extents::{Extent, Span, fixed_number};
use super::hulls::Hulled;
use super::reading::{Indexed, cells_left};
use super::remaining::{add_left, hull_over, is_same, keeps_all};
use super::scalars::add_scalars;
use super::totals::MOST_TOLD;
use ep_base::Runs;
use ep_eval::Held;
use std::alloc::Global;

/// The part with an index, if there is one. Linear in the parts.
pub fn part_with<'v, 'a>(own: &[i64], parts: &'v [Extent<'a>], index: i64) -> Option<&'v Extent<'a>>
    ensures { option_map (λ part. grid_of part.now) result ≡ part_at own.now (grids_from parts.now) index }
{
    let count = parts.len();
    for (place, own_index) in own.iter().enumerate() {
        if place >= count {
            return None;
        }
        if is_same(index, *own_index) {
            return Some(&parts[place]);
        }
    }
    None
}

/// The part that a stated index leaves, if there is one.
#[tactic(auto, unfolding(crate::specs::Indices::keeps_all, crate::specs::Indices::measured_of))]
fn part_stated<'v, 'a>(
    own: &[i64],
    parts: &'v [Extent<'a>],
    index: Indexed,
) -> Option<&'v Extent<'a>>
    ensures { (is : List MeasuredIndex) → keeps_all (measured_of index) ≡ false
        → parts_left (measured_of index ∷ is) (matrix own.now (grids_from parts.now))
        ≡ flat_map (parts_left is) (option_to_list (option_map (λ part. grid_of part.now) result)) }
{
    match index {
        Indexed::Stated(number) => match number {
            Some(stated) => part_with(own, parts, stated),
            None => None,
        },
        Indexed::Every => None,
        Indexed::Decided(_) => None,
    }
}

/// Puts the cells that indices leave of those of a decision variable behind others. An instance has fewer of them than
/// there may be told.
fn add_cells_left(
    span: Span,
    domains: &[Runs],
    indices: &[Indexed],
    spans: &mut Vec<Span>,
) -> Result<(), SizeError>
    ensures added { OnOk result (map plain_span spans.new.items
        ≡ map plain_span spans.old.items ++ flat_map scalars_of (parts_left (map measured_of indices.now) (filled (plain_span span) domains.now))) }
    ensures memory { IfErr result (λ e. e ≡ error.Memory) }
{
    let count = cells_left(indices, domains);
    if count >= MOST_TOLD {
        return Err(SizeError::Memory);
    }
    for _cell in 0..count {
        spans.push(span)?;
    }
    Ok(())
}

/// Puts what indices leave of a number behind others: nothing, where there is one.
fn add_number_left(span: Span, indices: &[Indexed], spans: &mut Vec<Span>) -> Result<(), SizeError>
    ensures added { OnOk result (map plain_span spans.new.items
        ≡ map plain_span spans.old.items ++ flat_map scalars_of (parts_left (map measured_of indices.now) (single (plain_span span)))) }
    ensures memory { IfErr result (λ e. e ≡ error.Memory) }
{
    match indices.split_first() {
        Some(_) => Ok(()),
        None => {
            spans.push(span)?;
            Ok(())
        }
    }
}

/// The same of a value that is held.
fn add_held_left(held: &Held, indices: &[Indexed], spans: &mut Vec<Span>) -> Result<(), SizeError>
    ensures added { OnOk result (map plain_span spans.new.items
        ≡ map plain_span spans.old.items ++ flat_map scalars_of (parts_left (map measured_of indices.now) (fixed_grid (held_value held.now)))) }
    ensures memory { IfErr result (λ e. e ≡ error.Memory) }
{
    match held {
        Held::Number(number) => add_number_left(fixed_number(*number), indices, spans),
        Held::Lent(value) => add_left(value, indices, spans),
        Held::Made(value) => add_left(value, indices, spans),
    }
}

/// Puts the scalars that indices leave of what is known behind others. Of a number, and of a matrix without parts, an index
/// leaves none.
fn add_known(known: &Extent, indices: &[Indexed], spans: &mut Vec<Span>) -> Result<(), SizeError>
    ensures added { OnOk result (map plain_span spans.new.items
        ≡ map plain_span spans.old.items ++ flat_map scalars_of (parts_left (map measured_of indices.now) (grid_of known.now))) }
    ensures memory { IfErr result (λ e. e ≡ error.Memory) }
{
    match indices.split_first() {
        Some((index, rest)) => match known {
            Extent::Number(_) => Ok(()),
            Extent::Cells(span, domains) => add_cells_left(*span, domains, indices, spans),
            Extent::Fixed(held) => add_held_left(held, indices, spans),
            Extent::Nothing => Ok(()),
            Extent::NoParts => Ok(()),
            Extent::Matrix(own, parts) => {
                if !keeps_all(*index) {
                    return match part_stated(own, parts, *index) {
                        Some(part) => add_known(part, rest, spans),
                        None => Ok(()),
                    };
                }
                for part in parts {
                    add_known(part, rest, spans)?;
                }
                Ok(())
            }
        },
        None => add_scalars(known, spans),
    }
}

/// What indices leave of what is known.
pub fn known_left(alloc: Global, known: &Extent, indices: &[Indexed]) -> Result<Hulled, SizeError>
    ensures left { IfOk result (λ left. Hulls left (flat_map scalars_of (parts_left (map measured_of indices.now) (grid_of known.now)))) }
    ensures memory { IfErr result (λ e. e ≡ error.Memory) }
{
    let mut spans = Vec::new(alloc);
    add_known(known, indices, &mut spans)?;
    Ok(hull_over(&spans))
}
