//! The tables of rows, and the tests over them.

use crate::bound::{self, BOUND, JUDGED};
use crate::measured::{self, INSTANCES, MANY_NODES};
use crate::reaches::{MEASURES, REACHES, has_measure, has_reach};
use crate::values::{self, VALUES};
use std::alloc::Global;
use std::test::Fail;

/// What the rows of a table tell.
#[derive(Clone, Copy)]
enum Tells {
    /// How a model is bound, and a solution text judged.
    Bound,
    /// How great an instance is.
    Measured,
    /// The size or the weight of an expression.
    Weighed,
    /// What an expression reaches.
    Reached,
    /// What an expression is worth.
    Worth,
}

/// Whether a row is right.
fn is_right(alloc: Global, tells: Tells, row: &str) -> Result<bool, Fail> {
    match tells {
        Tells::Bound => bound::is_right(alloc, row),
        Tells::Measured => measured::is_right(alloc, row),
        Tells::Weighed => has_measure(alloc, row),
        Tells::Reached => has_reach(alloc, row),
        Tells::Worth => values::is_right(alloc, row),
    }
}

/// The first row of a table that isn't right. A line that is a comment is a heading.
fn first_wrong(alloc: Global, tells: Tells, table: &str) -> Result<Option<&str>, Fail> {
    for row in table.lines() {
        if !row.starts_with('$') && !is_right(alloc, tells, row)? {
            return Ok(Some(row));
        }
    }
    Ok(None)
}

/// Tables of whole instances, with what their rows tell.
const INSTANCE_TABLES: [(Tells, &str); 3] = [
    (Tells::Bound, BOUND),
    (Tells::Bound, JUDGED),
    (Tells::Measured, INSTANCES),
];

#[test]
fn instances_are_as_said(rt: HostRuntime) -> Result<(), Fail> {
    for (tells, table) in INSTANCE_TABLES {
        assert_eq!(rt; first_wrong(rt.alloc(), tells, table)?, None);
    }
    Ok(())
}

/// Tables of expressions, with what their rows tell.
const EXPRESSION_TABLES: [(Tells, &str); 3] = [
    (Tells::Weighed, MEASURES),
    (Tells::Reached, REACHES),
    (Tells::Worth, VALUES),
];

#[test]
fn expressions_are_as_said(rt: HostRuntime) -> Result<(), Fail> {
    for (tells, table) in EXPRESSION_TABLES {
        assert_eq!(rt; first_wrong(rt.alloc(), tells, table)?, None);
    }
    Ok(())
}

#[test]
fn nodes_are_counted_up_to_their_limit(rt: HostRuntime) -> Result<(), Fail> {
    assert_eq!(rt; first_wrong(rt.alloc(), Tells::Measured, MANY_NODES)?, None);
    Ok(())
}

/// Rows that are wrong.
const WRONG: [(Tells, &str); 7] = [
    (Tells::Bound, "where !(1/0 = 1)###solution"),
    (Tells::Measured, "such that true##2 0"),
    (Tells::Weighed, "s = s#weight 9"),
    (Tells::Reached, "x#0#8#10"),
    (Tells::Reached, "x#1#9#10"),
    (Tells::Reached, "x#0#9#9"),
    (Tells::Worth, "m[1]#20"),
];

#[test]
fn a_wrong_row_is_found(rt: HostRuntime) -> Result<(), Fail> {
    for (tells, row) in WRONG {
        assert_eq!(rt; first_wrong(rt.alloc(), tells, row)?, Some(row));
    }
    Ok(())
}
