//! Rows of tables: texts with a mark where a fault stands.
//!
//! The mark `@` is no part of the text. A text without a mark is well formed.

use ep_parse_model::{parse_model, parse_params};
use ep_parse_model_tests::marks::{Marked, of_pieces, without_mark};
use ep_types::{StaticError, check_model, check_params};
use std::alloc::Global;
use std::test::Fail;

/// What stands in front of a row of a model: domains of numbers, of Booleans and of matrices of Booleans;
/// numbers, Booleans, lists and squares that are given, and some that are to be found.
const DECLARED: &str = "language ESSENCE' 1.0
letting D be domain int(1..3) letting E be domain bool letting M be domain matrix indexed by [D] of bool
given n : int(1..9), g : bool
given v : matrix indexed by [D] of int(0..9), w : matrix indexed by [D, D] of int(0..9)
find x, y : int(0..9), b : bool
find m : matrix indexed by [D] of int(0..9), q : matrix indexed by [D, D] of int(0..9)
find p : matrix indexed by [D] of bool, r : matrix indexed by [D, D] of bool
";

/// What stands in front of a row of parameters.
const LANGUAGE: &str = "language ESSENCE' 1.0\n";

/// Whether a name stands at the mark.
fn names_mark(marked: &Marked, name: &str) -> bool {
    match marked.text.get(marked.before..) {
        Some(rest) => rest.starts_with(name.as_bytes()),
        None => false,
    }
}

/// The fault that is named, in a letter and a digit, and whether it is the one at the mark.
fn named(marked: &Marked, refused: &StaticError) -> (&'static str, bool) {
    match refused {
        StaticError::UnknownName(place, name) => {
            let is_named = names_mark(marked, name.text());
            ("F3", *place == marked.place && is_named)
        }
        StaticError::Redeclared(place, name) => {
            let is_named = names_mark(marked, name.text());
            ("F4", *place == marked.place && is_named)
        }
        StaticError::IllTyped(place) => ("F5", *place == marked.place),
        StaticError::WrongCategory(place) => ("F6", *place == marked.place),
        StaticError::OpenDomain(place) => ("F7", *place == marked.place),
        StaticError::Memory => ("memory", false),
    }
}

/// What is said of a model's text: `fine`, or the fault that is named, and whether it is the marked one.
fn of_text(alloc: Global, marked: &Marked) -> (&'static str, bool) {
    match parse_model(alloc, &marked.text) {
        Err(_) => ("not read", false),
        Ok(model) => match check_model(alloc, model) {
            Ok(_) => ("fine", true),
            Err(refused) => named(marked, &refused),
        },
    }
}

/// How the rows of a table are read.
#[derive(Clone, Copy)]
pub(crate) enum Rows {
    /// As models, behind the declarations.
    Behind,
    /// As models, behind the first line alone.
    Whole,
    /// The same, of pieces behind how often each stands there.
    Pieces,
    /// As parameters.
    Params,
}

/// What is said of parameters.
fn of_params(alloc: Global, marked: &Marked) -> (&'static str, bool) {
    match parse_params(alloc, &marked.text) {
        Err(_) => ("not read", false),
        Ok(params) => match check_params(alloc, params) {
            Ok(_) => ("fine", true),
            Err(refused) => named(marked, &refused),
        },
    }
}

/// What is said of a row.
pub(crate) fn of_row(alloc: Global, rows: Rows, row: &str) -> Result<(&'static str, bool), Fail> {
    let (front, lines) = match rows {
        Rows::Behind => (DECLARED, 7),
        _ => (LANGUAGE, 1),
    };
    let text = match rows {
        Rows::Pieces => of_pieces(alloc, row)?,
        _ => Vec::from_slice(alloc, row.as_bytes())?,
    };
    let marked = without_mark(alloc, front.as_bytes(), lines, &text)?;
    Ok(match rows {
        Rows::Params => of_params(alloc, &marked),
        _ => of_text(alloc, &marked),
    })
}

/// What is wanted of a line, and its row.
fn parts_of<'a>(wanted: &'a str, line: &'a str) -> (&'a str, &'a str) {
    if wanted.is_empty() {
        return line.split_once(' ').unwrap_or(("", line));
    }
    (wanted, line)
}

/// The first row of a table, a line each, of which something else is said than this, or where this is empty than stands in front of it.
/// A line that is a comment is a heading.
pub(crate) fn first_wrong<'a>(
    alloc: Global,
    rows: Rows,
    wanted: &str,
    table: &'a str,
) -> Result<Option<&'a str>, Fail> {
    for line in table.lines() {
        if !line.starts_with('$') {
            let (wanted, row) = parts_of(wanted, line);
            let (said, is_marked) = of_row(alloc, rows, row)?;
            if said != wanted || !is_marked {
                return Ok(Some(line));
            }
        }
    }
    Ok(None)
}
