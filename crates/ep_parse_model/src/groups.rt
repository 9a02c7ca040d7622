//! Reads lists: names with their places, names with their domains, and expressions.

ghost use Rattle.std.specs.Prelude.{map};
ghost use Rattle.ep_parse_parts.specs.Cursors.{Gives};
ghost use Rattle.ep_parse_model.specs.TextReaders.{expressions_from, full, group_from, groups_from, placed_name_from, placed_names_from};
ghost use Rattle.ep_tree.specs.Views.{expr_tree, group_of};

use crate::parts::{domain, expression};
use ep_base::{Name, Place};
use ep_parse_parts::{Cursor, Stop};
use ep_tree::{Declared, Expr};
use std::alloc::Global;

/// A name with its place.
pub(crate) fn placed_name(alloc: Global, cursor: &mut Cursor<'_>) -> Result<(Name, Place), Stop>
    ensures read { Gives (λ found. found) result cursor.new (placed_name_from cursor.old) }
{
    let place = cursor.place();
    let text = cursor.name()?;
    let name = Name::new(alloc, text)?;
    Ok((name, place))
}

/// Names with their places and `,` between any two, at least one.
pub(crate) fn placed_names(
    alloc: Global,
    cursor: &mut Cursor<'_>,
) -> Result<Vec<(Name, Place)>, Stop>
    ensures read { Gives (λ names. names.items) result cursor.new (placed_names_from cursor.old) }
{
    let mut names = Vec::new(alloc);
    loop {
        let name = placed_name(alloc, cursor)?;
        names.push(name)?;
        if !cursor.passes(b",") {
            return Ok(names);
        }
    }
}

/// Names, `:`, and their domain.
#[tactic(auto, unfolding(crate::specs::TextReaders::group_from, ep_tree::specs::Views::group_of))]
fn group(alloc: Global, cursor: &mut Cursor<'_>) -> Result<Declared, Stop>
    ensures read { Gives group_of result cursor.new (group_from full cursor.old) }
{
    let names = placed_names(alloc, cursor)?;
    cursor.word(b":")?;
    let domain = domain(alloc, cursor)?;
    Ok(Declared { names, domain })
}

/// Groups with `,` between any two, at least one.
pub(crate) fn groups(alloc: Global, cursor: &mut Cursor<'_>) -> Result<Vec<Declared>, Stop>
    ensures read { Gives (λ groups. map group_of groups.items) result cursor.new
        (groups_from full cursor.old) }
{
    let mut groups = Vec::new(alloc);
    loop {
        let group = group(alloc, cursor)?;
        groups.push(group)?;
        if !cursor.passes(b",") {
            return Ok(groups);
        }
    }
}

/// Expressions with `,` between any two, or none. A `,` may stand behind the last.
pub(crate) fn expressions(alloc: Global, cursor: &mut Cursor<'_>) -> Result<Vec<Expr>, Stop>
    ensures read { Gives (λ expressions. map expr_tree expressions.items) result cursor.new
        (expressions_from full cursor.old) }
{
    let mut expressions = Vec::new(alloc);
    loop {
        if !cursor.expression_next() {
            return Ok(expressions);
        }
        let expression = expression(alloc, cursor)?;
        expressions.push(expression)?;
        if !cursor.passes(b",") {
            return Ok(expressions);
        }
    }
}
