//! What is known of the scalars of a matrix, row by row.

ghost use Rattle.std.specs.Prelude.{◌≡◌, ◌++◌, IfErr, IfOk, OnOk, map};
ghost use Rattle.ep_tree.specs.Values.{filled, scalars_of};
ghost use Rattle.ep_tree.specs.Views.{value_tree};
ghost use Rattle.ep_eval.specs.Helds.{held_value};
ghost use Rattle.ep_size.specs.Extents.{fixed_grid, grid_of, plain_span};
ghost use Rattle.ep_size.specs.declared.errors.SizeError.TheVariants as error;

use super::cells::cells_over;
use super::errors::SizeError;
use super::extents::{Extent, Span, fixed_number, undefined_number};
use super::totals::MOST_TOLD;
use ep_base::Runs;
use ep_eval::Held;
use ep_tree::Value;
use std::alloc::Global;

/// Puts the scalars of a value behind others.
pub fn add_value(value: &Value, spans: &mut Vec<Span>) -> Result<(), SizeError>
    ensures added { OnOk result (map plain_span spans.new.items ≡ map plain_span spans.old.items ++ scalars_of (fixed_grid (value_tree value.now))) }
    ensures memory { IfErr result (λ e. e ≡ error.Memory) }
{
    match value {
        Value::Number(number) => {
            spans.push(fixed_number(*number))?;
            Ok(())
        }
        Value::Matrix(_, parts) => {
            for part in parts {
                add_value(part, spans)?;
            }
            Ok(())
        }
    }
}

/// The same of a value that is held.
fn add_held(held: &Held, spans: &mut Vec<Span>) -> Result<(), SizeError>
    ensures added { OnOk result (map plain_span spans.new.items ≡ map plain_span spans.old.items ++ scalars_of (fixed_grid (held_value held.now))) }
    ensures memory { IfErr result (λ e. e ≡ error.Memory) }
{
    match held {
        Held::Number(number) => {
            spans.push(fixed_number(*number))?;
            Ok(())
        }
        Held::Lent(value) => add_value(value, spans),
        Held::Made(value) => add_value(value, spans),
    }
}

/// The same of the cells of a decision variable. An instance has fewer of them than there may be told.
fn add_cells(span: Span, indices: &[Runs], spans: &mut Vec<Span>) -> Result<(), SizeError>
    ensures added { OnOk result (map plain_span spans.new.items ≡ map plain_span spans.old.items ++ scalars_of (filled (plain_span span) indices.now)) }
    ensures memory { IfErr result (λ e. e ≡ error.Memory) }
{
    let count = cells_over(indices);
    if count >= MOST_TOLD {
        return Err(SizeError::Memory);
    }
    for _cell in 0..count {
        spans.push(span)?;
    }
    Ok(())
}

/// The same of what is known of a number or of a matrix.
pub fn add_scalars(extent: &Extent, spans: &mut Vec<Span>) -> Result<(), SizeError>
    ensures added { OnOk result (map plain_span spans.new.items ≡ map plain_span spans.old.items ++ scalars_of (grid_of extent.now)) }
    ensures memory { IfErr result (λ e. e ≡ error.Memory) }
{
    match extent {
        Extent::Number(span) => {
            spans.push(*span)?;
            Ok(())
        }
        Extent::Cells(span, indices) => add_cells(*span, indices, spans),
        Extent::Fixed(held) => add_held(held, spans),
        Extent::Nothing => {
            spans.push(undefined_number())?;
            Ok(())
        }
        Extent::NoParts => Ok(()),
        Extent::Matrix(_, parts) => {
            for part in parts {
                add_scalars(part, spans)?;
            }
            Ok(())
        }
    }
}

/// What is known of the scalars of a number or of a matrix. Linear in them.
pub fn scalars_of(alloc: Global, extent: &Extent) -> Result<Vec<Span>, SizeError>
    ensures scalars { IfOk result (λ spans. map plain_span spans.items ≡ scalars_of (grid_of extent.now)) }
    ensures memory { IfErr result (λ e. e ≡ error.Memory) }
{
    let mut spans = Vec::new(alloc);
    add_scalars(extent, &mut spans)?;
    Ok(spans)
}
