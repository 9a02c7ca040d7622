//! Reads lettings: names for values and for domains.

ghost use Rattle.std.specs.Prelude.{None, option_map};
ghost use Rattle.ep_parse_parts.specs.Cursors.{Gives};
ghost use Rattle.ep_parse_model.specs.TextReaders.{be_from, full, let_from, letting_from, stated_from, value_from};
ghost use Rattle.ep_tree.specs.Views.{domain_tree, statement_tree};

use crate::groups::placed_name;
use crate::parts::{domain, expression};
use ep_base::{Name, Place};
use ep_parse_parts::{Cursor, Stop};
use ep_tree::{Domain, Statement, StatementKind};
use std::alloc::Global;

/// A letting, behind its word.
#[tactic(auto, unfolding(crate::specs::TextReaders::letting_from, crate::specs::TextReaders::let_from))]
pub(crate) fn letting(
    alloc: Global,
    place: Place,
    cursor: &mut Cursor<'_>,
) -> Result<Statement, Stop>
    ensures read { Gives statement_tree result cursor.new (letting_from full place cursor.old) }
{
    let name = placed_name(alloc, cursor)?;
    let stated = stated_domain(alloc, cursor)?;
    word_before_value(cursor)?;
    match stated {
        Some(domain) => value(alloc, place, name, Some(domain), cursor),
        None => unstated(alloc, place, name, cursor),
    }
}

/// The domain that a letting states, where it does.
#[tactic(auto, unfolding(crate::specs::TextReaders::stated_from))]
fn stated_domain(alloc: Global, cursor: &mut Cursor<'_>) -> Result<Option<Domain>, Stop>
    ensures read { Gives (option_map domain_tree) result cursor.new (stated_from full cursor.old) }
{
    if !cursor.is_at(b":") {
        return Ok(None);
    }
    cursor.pass();
    let domain = domain(alloc, cursor)?;
    Ok(Some(domain))
}

/// What stands between a letting's name and its value.
#[tactic(auto, unfolding(crate::specs::TextReaders::be_from))]
fn word_before_value(cursor: &mut Cursor<'_>) -> Result<Place, Stop>
    ensures read { Gives (λ place. place) result cursor.new (be_from cursor.old) }
{
    if cursor.is_at(b"be") {
        return cursor.word(b"be");
    }
    cursor.word(b"=")
}

/// What is let where no domain is stated.
#[tactic(auto, unfolding(crate::specs::TextReaders::let_from, ep_tree::specs::Views::statement_kind_tree))]
fn unstated(
    alloc: Global,
    place: Place,
    name: (Name, Place),
    cursor: &mut Cursor<'_>,
) -> Result<Statement, Stop>
    ensures read { Gives statement_tree result cursor.new (let_from full place name None cursor.old) }
{
    if !cursor.is_at(b"domain") {
        return value(alloc, place, name, None, cursor);
    }
    cursor.pass();
    let domain = domain(alloc, cursor)?;
    let kind = StatementKind::LettingDomain(name.0, name.1, domain);
    Ok(Statement { place, kind })
}

/// The value of a letting.
#[tactic(auto, unfolding(crate::specs::TextReaders::value_from, ep_tree::specs::Views::statement_kind_tree))]
fn value(
    alloc: Global,
    place: Place,
    name: (Name, Place),
    stated: Option<Domain>,
    cursor: &mut Cursor<'_>,
) -> Result<Statement, Stop>
    ensures read { Gives statement_tree result cursor.new
        (value_from full place name (option_map domain_tree stated) cursor.old) }
{
    let value = expression(alloc, cursor)?;
    let kind = StatementKind::Letting(name.0, name.1, stated, value);
    Ok(Statement { place, kind })
}
