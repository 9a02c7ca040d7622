//! Reads domains.

ghost use Rattle.std.specs.Prelude.{◌≡◌, codes, map, nat_lt, None, OnOk, Some};
ghost use Rattle.ep_parse_below.specs.Chains.{another_set};
ghost use Rattle.ep_parse_parts.specs.DomainReaders.{end_from, range_from, domain_at_level, domain_open_from, domain_part_from, another_operation, any_domain_from, matrix_from, matrix_head_from, operations_from, set_words, place_next, ranges_from};
ghost use Rattle.ep_parse_parts.specs.Cursors.{Gives};
ghost use Rattle.ep_parse_parts.specs.Founds.{FindsDomain, MeasuredDomain, lower};
ghost use Rattle.ep_parse_parts.specs.Gathered.{Adds, DomainsCount, EndCount, FindsEnd, GivesDomains, GivesRanges, PassesTo, RangesCount, all_ranges_from, elements_from, end_tree, index_domains_from, range_read, upper_from};
ghost use Rattle.ep_parse_below.specs.Lowers.{Ready};
ghost use Rattle.ep_parse_parts.specs.Openings.{domain_level_of, domain_opening_of};
ghost use Rattle.ep_parse_parts.specs.Readers.{behind, grown, next_in, took, word_from, ◌and_then◌};
ghost use Rattle.ep_parse_parts.specs.Sayings.{name_next, word_next};
ghost use Rattle.ep_tree.specs.Trees as trees;
ghost use Rattle.ep_tree.specs.Views.{domain_tree, domains_of, ranges_of};

use crate::below::Below;
use ep_base::{Name, Place};
use ep_parse_parts::{
    Cursor, DomainLevel, DomainOpening, Domains, End, Found, FoundDomain, Level, Ranges, Stop,
    booleans, find_domain_opening, find_set_operation, group_domain, integers, matrix,
    named_domain, of_ranges, set_domain,
};
use ep_tree::SetOp;

impl<
    E: Fn(&mut Cursor<'_>, Level) -> Result<Found, Stop>,
    D: Fn(&mut Cursor<'_>, DomainLevel) -> Result<FoundDomain, Stop>,
> Below<E, D> {
    /// A domain where a level is asked for.
    #[tactic(auto, unfolding(ep_parse_parts::specs::DomainReaders::domain_at_level))]
    pub fn domain_at_level(
        &self,
        cursor: &mut Cursor<'_>,
        level: DomainLevel,
    ) -> Result<FoundDomain, Stop>
        requires ready { Ready E.Fn D.Fn self.now }
        ensures read { FindsDomain result cursor.new (domain_at_level self.now.most (lower self.now.most) (domain_level_of level) cursor.old) }
    {
        match level {
            DomainLevel::Domains => self.any_domain(cursor),
            DomainLevel::SetOperations => self.operations(cursor),
            DomainLevel::SetParts => self.domain_part(cursor),
        }
    }

    /// Any domain.
    #[tactic(auto, unfolding(ep_parse_parts::specs::DomainReaders::any_domain_from))]
    fn any_domain(&self, cursor: &mut Cursor<'_>) -> Result<FoundDomain, Stop>
        requires ready { Ready E.Fn D.Fn self.now }
        ensures read { FindsDomain result cursor.new (any_domain_from self.now.most (lower self.now.most) cursor.old) }
    {
        if !cursor.is_at(b"matrix") {
            return self.operations(cursor);
        }
        if !(1 < self.most) {
            return Err(Stop::TooHigh);
        }
        let place = cursor.pass();
        self.matrix(cursor, place)
    }

    /// A matrix domain behind its first word.
    fn matrix(&self, cursor: &mut Cursor<'_>, place: Place) -> Result<FoundDomain, Stop>
        requires ready { Ready E.Fn D.Fn self.now }
        ensures read { FindsDomain result cursor.new (matrix_from (lower self.now.most) place cursor.old) }
    {
        matrix_head(cursor)?;
        let indices = self.index_domains(cursor)?;
        self.elements(cursor, place, indices)
    }

    /// What closes the index domains of a matrix domain, and the domain of its elements.
    #[tactic(auto, unfolding(ep_parse_parts::specs::Gathered::elements_from), using(ep_parse_parts::proofs::Finding::finds_made_domain))]
    fn elements(
        &self,
        cursor: &mut Cursor<'_>,
        place: Place,
        indices: Domains,
    ) -> Result<FoundDomain, Stop>
        requires ready { Ready E.Fn D.Fn self.now }
        requires indices { DomainsCount indices }
        ensures read { FindsDomain result cursor.new (elements_from (lower self.now.most) place (domains_of indices.items.items) cursor.old) }
    {
        cursor.word(b"]")?;
        cursor.word(b"of")?;
        let element = self.domain(cursor, DomainLevel::SetOperations)?;
        matrix(self.alloc, place, indices, element)
    }

    /// The index domains of a matrix domain, and of those that its elements are written as.
    fn index_domains(&self, cursor: &mut Cursor<'_>) -> Result<Domains, Stop>
        requires ready { Ready E.Fn D.Fn self.now }
        ensures read { GivesDomains result cursor.new (index_domains_from (lower self.now.most) cursor.old) }
    {
        let mut domains = Domains::new(self.alloc);
        'more: loop {
            let domain = self.domain(cursor, DomainLevel::SetOperations)?;
            domains.push(domain)?;
            let goes_on = passes_to_index_domain(cursor)?;
            if !goes_on {
                return Ok(domains);
            }
        }
    }

    /// A domain with operations.
    #[tactic(auto, unfolding(ep_parse_parts::specs::DomainReaders::operations_from))]
    fn operations(&self, cursor: &mut Cursor<'_>) -> Result<FoundDomain, Stop>
        requires ready { Ready E.Fn D.Fn self.now }
        ensures read { FindsDomain result cursor.new (operations_from self.now.most (lower self.now.most) cursor.old) }
    {
        let first = self.domain_part(cursor)?;
        self.operated(cursor, first)
    }

    /// Operations of sets behind their first part.
    fn operated(&self, cursor: &mut Cursor<'_>, first: FoundDomain) -> Result<FoundDomain, Stop>
        requires ready { Ready E.Fn D.Fn self.now }
        requires first { MeasuredDomain first }
        ensures read { FindsDomain result cursor.new (grown (another_operation self.now.most (lower self.now.most)) (domain_tree first.domain) cursor.old) }
    {
        let mut left = first;
        while let Some(op) = set_operation_next(cursor) {
            left = self.another_set(cursor, op, left)?;
        }
        Ok(left)
    }

    /// One more part of a chain of operations of sets, with its operator before it.
    #[tactic(auto, unfolding(crate::specs::Chains::another_set), using(ep_parse_parts::proofs::Finding::finds_made_domain))]
    fn another_set(
        &self,
        cursor: &mut Cursor<'_>,
        op: SetOp,
        left: FoundDomain,
    ) -> Result<FoundDomain, Stop>
        requires ready { Ready E.Fn D.Fn self.now }
        requires left { MeasuredDomain left }
        ensures read { FindsDomain result cursor.new (another_set self.now.most (lower self.now.most) (domain_tree left.domain) op cursor.old) }
    {
        if !left.is_below(self.most) {
            return Err(Stop::TooHigh);
        }
        cursor.pass();
        let right = self.domain(cursor, DomainLevel::SetParts)?;
        set_domain(self.alloc, op, left, right)
    }

    /// A domain without operations.
    fn domain_part(&self, cursor: &mut Cursor<'_>) -> Result<FoundDomain, Stop>
        requires ready { Ready E.Fn D.Fn self.now }
        ensures read { FindsDomain result cursor.new (domain_part_from (nat_lt 1 self.now.most) (lower self.now.most) cursor.old) }
    {
        match cursor.name_next() {
            Some(name) => self.named_domain(cursor, name),
            None => self.unnamed_domain(cursor),
        }
    }

    /// A domain's name, which is next.
    fn named_domain(&self, cursor: &mut Cursor<'_>, name: &str) -> Result<FoundDomain, Stop>
        requires next { name_next cursor.old ≡ Some name.now }
        ensures read { FindsDomain result cursor.new (domain_part_from (nat_lt 1 self.now.most) (lower self.now.most) cursor.old) }
    {
        let name = Name::new(self.alloc, name)?;
        Ok(named_domain(cursor.pass(), name))
    }

    /// A domain without operations that is no name.
    fn unnamed_domain(&self, cursor: &mut Cursor<'_>) -> Result<FoundDomain, Stop>
        requires ready { Ready E.Fn D.Fn self.now }
        requires no_name { name_next cursor.old ≡ None }
        ensures read { FindsDomain result cursor.new (domain_part_from (nat_lt 1 self.now.most) (lower self.now.most) cursor.old) }
    {
        match cursor.word_next() {
            Some(word) => self.domain_begun_by(cursor, word),
            None => Err(Stop::Wrong),
        }
    }

    /// The domain that this word begins, which is next.
    fn domain_begun_by(&self, cursor: &mut Cursor<'_>, word: &[u8]) -> Result<FoundDomain, Stop>
        requires ready { Ready E.Fn D.Fn self.now }
        requires next { word_next cursor.old ≡ Some word.now }
        ensures read { FindsDomain result cursor.new (domain_part_from (nat_lt 1 self.now.most) (lower self.now.most) cursor.old) }
    {
        match find_domain_opening(word) {
            Some(opening) => self.domain_begun(cursor, opening),
            None => Err(Stop::Wrong),
        }
    }

    /// What a word begins in a domain.
    #[tactic(auto, unfolding(ep_parse_parts::specs::DomainReaders::domain_open_from, ep_parse_parts::specs::Cursors::passing), using(ep_parse_parts::proofs::Finding::finds_made_domain, ep_parse_parts::proofs::Finding::finds_shown_domain))]
    fn domain_begun(
        &self,
        cursor: &mut Cursor<'_>,
        opening: DomainOpening,
    ) -> Result<FoundDomain, Stop>
        requires ready { Ready E.Fn D.Fn self.now }
        ensures read { FindsDomain result cursor.new (domain_open_from (nat_lt 1 self.now.most) (lower self.now.most) (place_next cursor.old) (Some (domain_opening_of opening)) (behind cursor.old) cursor.old) }
    {
        match opening {
            DomainOpening::Bool => Ok(booleans(cursor.pass())),
            DomainOpening::Int => {
                let place = cursor.pass();
                if !cursor.passes(b"(") {
                    return Ok(integers(place));
                }
                self.ranges(cursor, place)
            }
            DomainOpening::Group => {
                if !(1 < self.most) {
                    return Err(Stop::TooHigh);
                }
                let place = cursor.pass();
                let part = self.domain(cursor, DomainLevel::SetOperations)?;
                cursor.word(b")")?;
                group_domain(self.alloc, place, part)
            }
        }
    }

    /// The ranges of a domain behind their bracket.
    fn ranges(&self, cursor: &mut Cursor<'_>, place: Place) -> Result<FoundDomain, Stop>
        requires ready { Ready E.Fn D.Fn self.now }
        ensures read { FindsDomain result cursor.new (ranges_from (lower self.now.most) place cursor.old) }
    {
        let ranges = self.all_ranges(cursor)?;
        ranges_end(cursor, place, ranges)
    }

    /// The ranges of a domain.
    fn all_ranges(&self, cursor: &mut Cursor<'_>) -> Result<Ranges, Stop>
        requires ready { Ready E.Fn D.Fn self.now }
        ensures read { GivesRanges result cursor.new (all_ranges_from (lower self.now.most) cursor.old) }
    {
        let mut ranges = Ranges::new(self.alloc);
        'more: loop {
            self.range(cursor, &mut ranges)?;
            if !cursor.passes(b",") {
                return Ok(ranges);
            }
        }
    }

    /// One more range.
    fn range(&self, cursor: &mut Cursor<'_>, ranges: &mut Ranges) -> Result<(), Stop>
        requires ready { Ready E.Fn D.Fn self.now }
        requires counted { RangesCount ranges.old }
        ensures read { Adds result (map range_read ranges.old.items.items) (map range_read ranges.new.items.items) cursor.new (range_from (lower self.now.most) cursor.old) }
        ensures counted { OnOk result (RangesCount ranges.new) }
    {
        if cursor.passes(b"..") {
            return self.span(cursor, End::none(), ranges);
        }
        let first = self.expr(cursor, Level::Implications)?;
        if !cursor.passes(b"..") {
            return ranges.push_one(first);
        }
        self.span(cursor, End::found(first), ranges)
    }

    /// One more range behind its `..`.
    fn span(&self, cursor: &mut Cursor<'_>, first: End, ranges: &mut Ranges) -> Result<(), Stop>
        requires ready { Ready E.Fn D.Fn self.now }
        requires counted { RangesCount ranges.old }
        requires first { EndCount first }
        ensures read { Adds result (map range_read ranges.old.items.items) (map range_read ranges.new.items.items) cursor.new (end_from (lower self.now.most) (end_tree first.end) cursor.old) }
        ensures counted { OnOk result (RangesCount ranges.new) }
    {
        let last = self.upper_end(cursor)?;
        ranges.push_span(first, last)
    }

    /// The upper end of a range behind its `..`, where there is one.
    #[tactic(auto, unfolding(ep_parse_parts::specs::Gathered::upper_from))]
    fn upper_end(&self, cursor: &mut Cursor<'_>) -> Result<End, Stop>
        requires ready { Ready E.Fn D.Fn self.now }
        ensures read { FindsEnd result cursor.new (upper_from (lower self.now.most) cursor.old) }
    {
        if !cursor.expression_next() {
            return Ok(End::none());
        }
        let last = self.expr(cursor, Level::Implications)?;
        Ok(End::found(last))
    }
}

/// The bracket behind the ranges of a domain.
#[tactic(auto, using(ep_parse_parts::proofs::Finding::finds_shown_domain))]
fn ranges_end(cursor: &mut Cursor<'_>, place: Place, ranges: Ranges) -> Result<FoundDomain, Stop>
    requires ranges { RangesCount ranges }
    ensures read { FindsDomain result cursor.new (word_from (codes ")") cursor.old and_then λ _ end. took (trees.ranges place (ranges_of ranges.items.items)) end) }
{
    cursor.word(b")")?;
    Ok(of_ranges(place, ranges))
}

/// Passes what stands before a further index domain, and tells whether there is one.
fn passes_to_index_domain(cursor: &mut Cursor<'_>) -> Result<bool, Stop>
    ensures passed { PassesTo result cursor.old cursor.new }
{
    if cursor.is_at(b",") {
        cursor.word(b",")?;
        return Ok(true);
    }
    if !cursor.matrix_follows() {
        return Ok(false);
    }
    cursor.pass();
    cursor.pass();
    cursor.pass();
    matrix_head(cursor)?;
    Ok(true)
}

/// Passes what stands before the index domains of a matrix domain, behind its first word.
#[tactic(auto, unfolding(ep_parse_parts::specs::DomainReaders::matrix_head_from))]
fn matrix_head(cursor: &mut Cursor<'_>) -> Result<Place, Stop>
    ensures read { Gives (λ place. place) result cursor.new (matrix_head_from cursor.old) }
{
    cursor.word(b"indexed")?;
    cursor.word(b"by")?;
    cursor.word(b"[")
}

/// The operation on domains that is next.
fn set_operation_next(cursor: &Cursor<'_>) -> Option<SetOp>
    ensures next { result ≡ next_in set_words cursor.now }
{
    let Some(word) = cursor.word_next() else {
        return None;
    };
    find_set_operation(word)
}
