//! The tables of rows, and the tests over them.

use crate::categories::{ALLOWED, FORBIDDEN};
use crate::forms::{ILL_TYPED, WELL_TYPED};
use crate::names::{
    ALONE, DECLARED_AGAIN, KNOWN, OF_THE_WRONG_SORT, OTHER_TYPES, PARAMS, TWO_FAULTS, TYPES,
    UNKNOWN,
};
use crate::open_domains::{CLOSED, OPEN};
use crate::rows::{Rows, first_wrong};
use crate::sizes::GREAT;
use crate::users::{REFUSED, WRITTEN};
use ep_parse_model::{parse_model, parse_params};
use ep_types::{check_model, check_params};
use std::alloc::Global;
use std::test::Fail;

/// The tables, with how their rows are read and what is said of each, where that doesn't stand in front of it.
const TABLES: [(Rows, &str, &str); 18] = [
    (Rows::Behind, "fine", ALLOWED),
    (Rows::Behind, "F6", FORBIDDEN),
    (Rows::Behind, "fine", WELL_TYPED),
    (Rows::Behind, "F5", ILL_TYPED),
    (Rows::Behind, "fine", TYPES),
    (Rows::Behind, "F5", OTHER_TYPES),
    (Rows::Behind, "fine", KNOWN),
    (Rows::Behind, "F3", UNKNOWN),
    (Rows::Behind, "F4", DECLARED_AGAIN),
    (Rows::Behind, "F5", OF_THE_WRONG_SORT),
    (Rows::Behind, "", TWO_FAULTS),
    (Rows::Behind, "fine", OPEN),
    (Rows::Behind, "F7", CLOSED),
    (Rows::Behind, "", REFUSED),
    (Rows::Behind, "fine", WRITTEN),
    (Rows::Whole, "", ALONE),
    (Rows::Params, "", PARAMS),
    (Rows::Pieces, "", GREAT),
];

#[test]
fn texts_are_well_formed_or_have_their_fault(rt: HostRuntime) -> Result<(), Fail> {
    for (rows, wanted, table) in TABLES {
        assert_eq!(rt; first_wrong(rt.alloc(), rows, wanted, table)?, None);
    }
    Ok(())
}

/// Tables whose second row is wrong: it has a fault, or one at another place.
const WRONG: [(&str, &str); 2] = [
    ("fine", "such that b\nsuch that x\nsuch that b"),
    (
        "",
        "F5 such that @x\nF5 such that @b /\\ b[1]\nF5 such that @x",
    ),
];

#[test]
fn a_row_that_is_wrong_is_found(rt: HostRuntime) -> Result<(), Fail> {
    for (wanted, table) in WRONG {
        let found = first_wrong(rt.alloc(), Rows::Behind, wanted, table)?;
        assert!(rt; found.is_some() && found == table.lines().nth(1));
    }
    Ok(())
}

/// How many statements a model and some parameters have that were found to be well formed, lent and handed back.
fn handed_back(alloc: Global) -> Result<[usize; 4], Fail> {
    let text = "language ESSENCE' 1.0 find x : bool such that x";
    let model = check_model(alloc, parse_model(alloc, text.as_bytes())?)?;
    let params = check_params(alloc, parse_params(alloc, "letting n be 3".as_bytes())?)?;
    let lent = model.model().statements.len();
    let lent_params = params.params().statements.len();
    let back = model.into_model().statements.len();
    Ok([
        lent,
        back,
        lent_params,
        params.into_params().statements.len(),
    ])
}

#[test]
fn what_is_well_formed_is_handed_back(rt: HostRuntime) -> Result<(), Fail> {
    assert_eq!(rt; handed_back(rt.alloc())?, [2, 2, 1, 1]);
    Ok(())
}
