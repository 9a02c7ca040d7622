//! Reads expressions and domains of at most a height.

ghost use Rattle.std.specs.Prelude.{◌≡◌, if◌then◌else◌};
ghost use Rattle.ep_parse_parts.specs.declared.cursor.Stop.TheVariants.{TooHigh, Wrong};
ghost use Rattle.ep_parse_parts.specs.Founds.{Finds, FindsDomain};
ghost use Rattle.ep_parse_parts.specs.Openings.{domain_level_of, level_of};
ghost use Rattle.ep_parse_parts.specs.TreeReaders.{expr_from, some_domain_from};

use crate::operators::at_level;
use ep_parse_below::Below;
use ep_parse_parts::{Cursor, DomainLevel, Found, FoundDomain, Level, Stop, lone_number};
use std::alloc::Global;

/// An expression of at most a height that stands where a level is asked for, as far as one goes on.
#[cycle(descent)]
#[tactic(auto, using(crate::proofs::Descending::expr_none, crate::proofs::Descending::expr_at))]
pub fn expr(alloc: Global, cursor: &mut Cursor<'_>, level: Level, most: u64) -> Result<Found, Stop>
    ensures read { Finds result cursor.new (expr_from most (level_of level) cursor.old) }
{
    if most == 0 {
        return Err(refused(cursor.expression_next()));
    }
    if let Some(found) = lone_number(cursor) {
        return Ok(found);
    }
    let less = most - 1;
    let below = Below {
        alloc,
        most,
        read_expr: |cursor: &mut Cursor<'_>, level: Level|
            ensures read { Finds result cursor.new (expr_from less (level_of level) cursor.old) }
        { expr(alloc, cursor, level, less) },
        read_domain: |cursor: &mut Cursor<'_>, level: DomainLevel|
            ensures read { FindsDomain result cursor.new (some_domain_from less (domain_level_of level) cursor.old) }
        { domain(alloc, cursor, level, less) },
    };
    at_level(&below, cursor, level)
}

/// A domain of at most a height that stands where a level is asked for, as far as one goes on.
#[cycle(descent)]
#[tactic(auto, using(crate::proofs::Descending::domain_none, crate::proofs::Descending::domain_at))]
pub fn domain(
    alloc: Global,
    cursor: &mut Cursor<'_>,
    level: DomainLevel,
    most: u64,
) -> Result<FoundDomain, Stop>
    ensures read { FindsDomain result cursor.new (some_domain_from most (domain_level_of level) cursor.old) }
{
    if most == 0 {
        return Err(refused(cursor.domain_next(level)));
    }
    let less = most - 1;
    let below = Below {
        alloc,
        most,
        read_expr: |cursor: &mut Cursor<'_>, level: Level|
            ensures read { Finds result cursor.new (expr_from less (level_of level) cursor.old) }
        { expr(alloc, cursor, level, less) },
        read_domain: |cursor: &mut Cursor<'_>, level: DomainLevel|
            ensures read { FindsDomain result cursor.new (some_domain_from less (domain_level_of level) cursor.old) }
        { domain(alloc, cursor, level, less) },
    };
    below.domain_at_level(cursor, level)
}

/// What begins is too high, and what doesn't is wrong.
fn refused(begins: bool) -> Stop
    ensures why { result ≡ (if begins then TooHigh else Wrong) }
{
    if begins { Stop::TooHigh } else { Stop::Wrong }
}
