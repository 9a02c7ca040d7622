//! The lists of solutions of the table.

use ep_base::{Memory, Name};
use ep_print::{Listing, ListingEnd, print_listing};
use ep_tree::{Assignment, Entry, Value, ValueType};
use std::alloc::Global;

/// The text of a list of the table.
pub(crate) fn text(alloc: Global, number: usize) -> Result<Vec<u8>, Memory> {
    let mut found = Vec::new(alloc);
    if number < 3 {
        found.push(x_is(alloc, 1)?)?;
        found.push(x_is(alloc, -2)?)?;
    }
    let end = match number {
        1 => ListingEnd::Stopped,
        2 => ListingEnd::Spent { conflicts: 10 },
        _ => ListingEnd::Complete,
    };
    print_listing(alloc, &Listing { found, end })
}

/// An assignment that gives `x` a number.
fn x_is(alloc: Global, number: i64) -> Result<Assignment, Memory> {
    let mut entries = Vec::new(alloc);
    entries.push(Entry {
        name: Name::new(alloc, "x")?,
        ty: ValueType::Int,
        value: Value::Number(number),
    })?;
    Ok(Assignment { entries })
}
