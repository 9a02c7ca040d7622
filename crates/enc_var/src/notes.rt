//! The notes of cells.

ghost use Rattle.std.specs.Prelude.{◌≡◌, ◌<◌, ◌++◌, ◌∷◌, [], length, map, slice_index_or, IfOk, OnOk};
ghost use Rattle.std.specs.Fmt.{signed_decimal};
ghost use Rattle.std.specs.List.{All, Contains, flat_map};
ghost use Rattle.cnf_core.specs.Events.{plain_note};
ghost use Rattle.enc_var.specs.Decoding.{literal_of_note};
ghost use Rattle.enc_var.specs.Layouts.{literals_at};
ghost use Rattle.enc_var.specs.Notes.{cell_notes, cell_text, indices_text};

use crate::variables::Variable;
use cnf_core::CellNote;
use ep_ground::Cell;
use itoa::Buffer;
use std::alloc::{AllocError, Global};

/// Puts a number out.
fn push_number(text: &mut Vec<u8>, number: i64) -> Result<(), AllocError>
    ensures { OnOk result (text.new.items ≡ text.old.items ++ signed_decimal number) }
{
    let mut digits = Buffer::new();
    text.extend_from_slice(digits.format(number).as_bytes())
}

/// Puts numbers out, each behind a comma.
fn push_more(text: &mut Vec<u8>, numbers: &[i64]) -> Result<(), AllocError>
    ensures { OnOk result (text.new.items
        ≡ text.old.items ++ flat_map (λ n. 44 ∷ signed_decimal n) numbers.now) }
{
    for number in numbers {
        text.push(b',')?;
        push_number(text, *number)?;
    }
    Ok(())
}

/// Puts the indices of a cell out in brackets; nothing where there are none.
fn push_indices(text: &mut Vec<u8>, indices: &[i64]) -> Result<(), AllocError>
    ensures { OnOk result (text.new.items ≡ text.old.items ++ indices_text indices.now) }
{
    let [first, others @ ..] = indices else {
        return Ok(());
    };
    text.push(b'[')?;
    push_number(text, *first)?;
    push_more(text, others)?;
    text.push(b']')?;
    Ok(())
}

/// The name of a cell, with its indices.
fn text_of_cell(alloc: Global, cell: &Cell) -> Result<Vec<u8>, AllocError>
    ensures { IfOk result (λ text. text.items ≡ cell_text cell.now) }
{
    let mut text = Vec::from_slice(alloc, cell.name.text().as_bytes())?;
    push_indices(&mut text, cell.indices.numbers())?;
    Ok(text)
}

/// The note that the cell with this name has this value.
fn note_of_value(
    alloc: Global,
    name: &[u8],
    variable: &Variable,
    value: i64,
) -> Result<CellNote, AllocError>
    requires { Contains variable.now.domain value }
    ensures { IfOk result (λ note. plain_note note
        ≡ record { cell = name.now; value = value; lit = literal_of_note variable.now value }) }
{
    let cell = Vec::from_slice(alloc, name)?;
    let lit = variable.note(value);
    Ok(CellNote { cell, value, lit })
}

/// Adds the notes of a cell for which this variable stands.
fn push_notes(
    alloc: Global,
    notes: &mut Vec<CellNote>,
    cell: &Cell,
    variable: &Variable,
) -> Result<(), AllocError>
    ensures { OnOk result (map plain_note notes.new.items ≡ map plain_note notes.old.items
        ++ map (λ v. record { cell = cell_text cell.now; value = v; lit = literal_of_note variable.now v })
        variable.now.domain) }
{
    let name = text_of_cell(alloc, cell)?;
    for value in variable.values() {
        let note = note_of_value(alloc, &name, variable, *value)?;
        notes.push(note)?;
    }
    Ok(())
}

/// The notes of cells for which these variables stand, cell by cell.
pub(crate) fn notes_of_cells(
    alloc: Global,
    variables: &[Variable],
    cells: &[Cell],
    places: &[u64],
) -> Result<Vec<CellNote>, AllocError>
    requires long { length places.now ≡ length cells.now }
    requires there { All (λ x. x < length variables.now) places.now }
    requires values { map (λ x. (literals_at variables.now x).domain) places.now
        ≡ map (λ one. one.values) cells.now }
    ensures { IfOk result (λ notes. map plain_note notes.items
        ≡ cell_notes variables.now cells.now places.now) }
{
    let mut notes = Vec::new(alloc);
    for (k, cell) in cells.iter().enumerate() {
        let variable = &variables[places[k] as usize];
        push_notes(alloc, &mut notes, cell, variable)?;
    }
    Ok(notes)
}
