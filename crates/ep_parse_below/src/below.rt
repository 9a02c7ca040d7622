//! Reads what is lower than what is being read.

ghost use Rattle.ep_parse_parts.specs.Founds.{Finds, FindsDomain, lower};
ghost use Rattle.ep_parse_below.specs.Lowers.{Ready};
ghost use Rattle.ep_parse_parts.specs.Openings.{domain_level_of, level_of};

use ep_parse_parts::{Cursor, DomainLevel, Found, FoundDomain, Level, Stop};
use std::alloc::Global;

/// What reads the parts of a tree of at most a height, each lower by one.
#[derive(Drop)]
pub struct Below<E, D> {
    /// Where trees are allocated.
    pub alloc: Global,
    /// The greatest height of what is being read.
    pub most: u64,
    /// Reads an expression that is lower.
    pub read_expr: E,
    /// Reads a domain that is lower.
    pub read_domain: D,
}

impl<
    E: Fn(&mut Cursor<'_>, Level) -> Result<Found, Stop>,
    D: Fn(&mut Cursor<'_>, DomainLevel) -> Result<FoundDomain, Stop>,
> Below<E, D> {
    /// An expression that is lower, where a level is asked for.
    #[tactic(auto, unfolding(ep_parse_parts::specs::Founds::lower))]
    pub fn expr(&self, cursor: &mut Cursor<'_>, level: Level) -> Result<Found, Stop>
        requires ready { Ready E.Fn D.Fn self.now }
        ensures read { Finds result cursor.new ((lower self.now.most).expr (level_of level) cursor.old) }
    {
        (self.read_expr)(cursor, level)
    }

    /// A domain that is lower, where a level is asked for.
    #[tactic(auto, unfolding(ep_parse_parts::specs::Founds::lower))]
    pub fn domain(&self, cursor: &mut Cursor<'_>, level: DomainLevel) -> Result<FoundDomain, Stop>
        requires ready { Ready E.Fn D.Fn self.now }
        ensures read { FindsDomain result cursor.new ((lower self.now.most).domain (domain_level_of level) cursor.old) }
    {
        (self.read_domain)(cursor, level)
    }
}
