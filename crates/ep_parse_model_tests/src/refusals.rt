//! Which texts are read, and where the others are refused: the tests over the tables of rows.

use crate::marks::{of_pieces, without_mark};
use crate::rows::{
    BYTES, COMMAS, FOREIGN, HIGH, HIGH_FIRST, LATER_BYTES, LONGER, LOW, NUMBERS, PARAMS,
    PARAMS_NUMBERS, READ, REFUSED, WHOLE, WHOLE_BYTES, WRONG_FIRST,
};
use ep_base::Place;
use ep_parse_model::{TextError, parse_model, parse_params};
use std::alloc::Global;
use std::test::Fail;

/// The first line of a model.
pub(crate) const LANGUAGE: &str = "language ESSENCE' 1.0\n";

/// The refusal in a letter and a digit, with its place.
fn named(refused: TextError) -> (&'static str, Place) {
    let nowhere = Place { line: 0, column: 0 };
    match refused {
        TextError::TooLong => ("L1", nowhere),
        TextError::BadByte(place) => ("F1", place),
        TextError::LongNumber(place) => ("L2", place),
        TextError::Syntax(place) => ("F2", place),
        TextError::TooHigh(place) => ("L3", place),
        TextError::Memory => ("memory", nowhere),
    }
}

/// What is said of a text as a model: `fine`, or its refusal.
pub(crate) fn of_model(alloc: Global, text: &[u8]) -> (&'static str, Place) {
    match parse_model(alloc, text) {
        Ok(_) => ("fine", Place { line: 0, column: 0 }),
        Err(refused) => named(refused),
    }
}

/// What is said of a text as parameters.
pub(crate) fn of_params(alloc: Global, text: &[u8]) -> (&'static str, Place) {
    match parse_params(alloc, text) {
        Ok(_) => ("fine", Place { line: 0, column: 0 }),
        Err(refused) => named(refused),
    }
}

/// How the rows of a table are read.
#[derive(Clone, Copy)]
enum Rows {
    /// As models, behind the first line.
    Behind,
    /// The same, of pieces behind how often each stands there.
    Pieces,
    /// As models.
    Whole,
    /// As parameters.
    Params,
}

/// What is said of a row, and whether it is said of its mark.
fn of_row(alloc: Global, rows: Rows, row: &str) -> Result<(&'static str, bool), Fail> {
    let (front, lines) = match rows {
        Rows::Behind | Rows::Pieces => (LANGUAGE, 1),
        Rows::Whole | Rows::Params => ("", 0),
    };
    let text = match rows {
        Rows::Pieces => of_pieces(alloc, row)?,
        _ => Vec::from_slice(alloc, row.as_bytes())?,
    };
    let marked = without_mark(alloc, front.as_bytes(), lines, &text)?;
    let (said, place) = match rows {
        Rows::Params => of_params(alloc, &marked.text),
        _ => of_model(alloc, &marked.text),
    };
    Ok((said, place == marked.place))
}

/// The first row of a table of which something else is said than this, or at another place than the mark's. A line that is a comment is a heading.
fn first_misread<'a>(
    alloc: Global,
    rows: Rows,
    wanted: &str,
    table: &'a str,
) -> Result<Option<&'a str>, Fail> {
    for row in table.lines() {
        if !row.starts_with('$') {
            let (said, is_marked) = of_row(alloc, rows, row)?;
            if said != wanted || !is_marked {
                return Ok(Some(row));
            }
        }
    }
    Ok(None)
}

/// The tables, with how their rows are read and what is said of each.
const TABLES: [(Rows, &str, &str); 12] = [
    (Rows::Behind, "F2", REFUSED),
    (Rows::Behind, "F2", COMMAS),
    (Rows::Behind, "F2", FOREIGN),
    (Rows::Behind, "F2", LONGER),
    (Rows::Behind, "F1", BYTES),
    (Rows::Behind, "L2", NUMBERS),
    (Rows::Behind, "fine", READ),
    (Rows::Whole, "F2", WHOLE),
    (Rows::Whole, "F1", WHOLE_BYTES),
    (Rows::Params, "F2", PARAMS),
    (Rows::Params, "L2", PARAMS_NUMBERS),
    (Rows::Pieces, "F1", LATER_BYTES),
];

/// The same of texts of great heights.
const HIGH_TABLES: [(Rows, &str, &str); 4] = [
    (Rows::Pieces, "fine", LOW),
    (Rows::Pieces, "L3", HIGH),
    (Rows::Pieces, "L3", HIGH_FIRST),
    (Rows::Pieces, "F2", WRONG_FIRST),
];

#[test]
fn texts_are_read_or_refused_at_their_places(rt: HostRuntime) -> Result<(), Fail> {
    for (rows, wanted, table) in TABLES {
        assert_eq!(rt; first_misread(rt.alloc(), rows, wanted, table)?, None);
    }
    Ok(())
}

#[test]
fn high_trees_are_read_or_refused_where_they_get_too_high(rt: HostRuntime) -> Result<(), Fail> {
    for (rows, wanted, table) in HIGH_TABLES {
        assert_eq!(rt; first_misread(rt.alloc(), rows, wanted, table)?, None);
    }
    Ok(())
}

/// Tables whose second row is wrong: it is fine, or refused at another place.
const WRONG: [(Rows, &str, &str); 3] = [
    (Rows::Behind, "F1", "@?\nsuch that x $ = ?\n@?"),
    (Rows::Behind, "L2", "@1234567890123456789\nsuch that x@ = 1"),
    (
        Rows::Pieces,
        "L3",
        "1~such that ~255~!~1~@!x\n1~such that ~256~!~1~@!x",
    ),
];

#[test]
fn a_wrong_row_is_found(rt: HostRuntime) -> Result<(), Fail> {
    for (rows, wanted, table) in WRONG {
        let found = first_misread(rt.alloc(), rows, wanted, table)?;
        assert!(rt; found.is_some() && found == table.lines().nth(1));
    }
    Ok(())
}

#[test]
fn longer_texts_are_refused(rt: HostRuntime) -> Result<(), Fail> {
    let alloc = rt.alloc();
    let mut text = Vec::from_slice(alloc, b" ")?;
    for _ in 0..24 {
        let half = Vec::from_slice(alloc, &text)?;
        text.extend_from_slice(&half)?;
    }
    text.push(b' ')?;
    assert_eq!(rt; text.len(), 16_777_217);
    assert_eq!(rt; of_model(alloc, &text).0, "L1");
    assert_eq!(rt; of_params(alloc, &text).0, "L1");
    Ok(())
}
