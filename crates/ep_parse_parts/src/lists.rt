//! Reads lists.

ghost use Rattle.ep_parse_parts.specs.Cursors.{Gives};
ghost use Rattle.ep_parse_parts.specs.Readers.{names_from};

use crate::cursor::{Cursor, Stop};
use ep_base::Name;
use std::alloc::Global;

/// Names with `,` between any two, at least one.
pub fn names(alloc: Global, cursor: &mut Cursor<'_>) -> Result<Vec<Name>, Stop>
    ensures read { Gives (λ names. names.items) result cursor.new (names_from cursor.old) }
{
    let mut names = Vec::new(alloc);
    loop {
        let text = cursor.name()?;
        names.push(Name::new(alloc, text)?)?;
        if !cursor.passes(b",") {
            return Ok(names);
        }
    }
}
