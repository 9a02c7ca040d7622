//! Reads lists and comprehensions behind their bracket.

ghost use Rattle.std.specs.Prelude.{◌≡◌, ◌&&◌, codes, map, true, OnOk};
ghost use Rattle.ep_parse_parts.specs.Founds.{Finds, Measured, lower};
ghost use Rattle.ep_parse_parts.specs.Gathered.{Adds, FindsIndex, Gathers, GeneratorsCount, GivesGenerators, PartsCount, as_read, generators_from};
ghost use Rattle.ep_parse_below.specs.Lowers.{Ready};
ghost use Rattle.ep_parse_parts.specs.OperandReaders.{bracket_from, colon_comes, comprehension_from, conditions_from, generator_from, index_domain_from, list_end, literal_from};
ghost use Rattle.ep_parse_parts.specs.Readers.{behind, says};
ghost use Rattle.ep_tree.specs.Trees as trees;
ghost use Rattle.ep_tree.specs.Views.{expr_tree, expr_trees, generators_of};

use crate::below::Below;
use ep_base::Place;
use ep_parse_parts::{
    Cursor, DomainLevel, Found, FoundDomain, Generators, Index, Level, Parts, Stop, comprehension,
    literal, names,
};

impl<
    E: Fn(&mut Cursor<'_>, Level) -> Result<Found, Stop>,
    D: Fn(&mut Cursor<'_>, DomainLevel) -> Result<FoundDomain, Stop>,
> Below<E, D> {
    /// A list or a comprehension behind its bracket.
    #[tactic(auto, unfolding(ep_parse_parts::specs::OperandReaders::bracket_from, ep_parse_parts::specs::Cursors::passing))]
    pub fn bracket(
        &self,
        cursor: &mut Cursor<'_>,
        place: Place,
        low_enough: bool,
    ) -> Result<Found, Stop>
        requires ready { Ready E.Fn D.Fn self.now }
        ensures read { Finds result cursor.new (bracket_from low_enough (lower self.now.most) place cursor.old) }
    {
        if !cursor.expression_next() {
            let none = Parts::new(self.alloc);
            return self.literal_end(cursor, place, low_enough, none);
        }
        let first = self.expr(cursor, Level::Implications)?;
        if cursor.passes(b"|") {
            return self.comprehension(cursor, place, low_enough, first);
        }
        self.literal(cursor, place, low_enough, first)
    }

    /// A list behind its first expression.
    fn literal(
        &self,
        cursor: &mut Cursor<'_>,
        place: Place,
        low_enough: bool,
        first: Found,
    ) -> Result<Found, Stop>
        requires ready { Ready E.Fn D.Fn self.now }
        requires first { Measured first }
        ensures read { Finds result cursor.new (literal_from low_enough (lower self.now.most) place (expr_tree first.expr) cursor.old) }
    {
        let mut parts = Parts::new(self.alloc);
        parts.push(first)?;
        self.more_parts(cursor, &mut parts)?;
        self.literal_end(cursor, place, low_enough, parts)
    }

    /// Further expressions, each behind a comma.
    fn more_parts(&self, cursor: &mut Cursor<'_>, parts: &mut Parts) -> Result<(), Stop>
        requires ready { Ready E.Fn D.Fn self.now }
        requires counted { PartsCount parts.old }
        ensures read { Gathers result (map expr_tree parts.old.items.items) (map expr_tree parts.new.items.items) cursor.new (conditions_from (lower self.now.most) cursor.old) }
        ensures counted { OnOk result (PartsCount parts.new) }
    {
        'more: loop {
            if !cursor.passes(b",") {
                return Ok(());
            }
            let part = self.expr(cursor, Level::Implications)?;
            parts.push(part)?;
        }
    }

    /// The end of a list of parts: the domain of its indices, and its bracket.
    #[tactic(auto, using(ep_parse_parts::proofs::Finding::finds_shown))]
    fn literal_end(
        &self,
        cursor: &mut Cursor<'_>,
        place: Place,
        low_enough: bool,
        parts: Parts,
    ) -> Result<Found, Stop>
        requires ready { Ready E.Fn D.Fn self.now }
        requires parts { PartsCount parts }
        ensures read { Finds result cursor.new (list_end low_enough (lower self.now.most) (trees.literal place (expr_trees parts.items.items)) cursor.old) }
    {
        let index = self.index_domain(cursor, low_enough)?;
        cursor.word(b"]")?;
        Ok(literal(place, parts, index))
    }

    /// A comprehension behind its bar.
    fn comprehension(
        &self,
        cursor: &mut Cursor<'_>,
        place: Place,
        low_enough: bool,
        part: Found,
    ) -> Result<Found, Stop>
        requires ready { Ready E.Fn D.Fn self.now }
        requires part { Measured part }
        ensures read { Finds result cursor.new (comprehension_from low_enough (lower self.now.most) place (expr_tree part.expr) cursor.old) }
    {
        let generators = self.generators(cursor)?;
        let mut conditions = Parts::new(self.alloc);
        self.more_parts(cursor, &mut conditions)?;
        self.comprehension_end(cursor, place, low_enough, part, generators, conditions)
    }

    /// The end of a comprehension: the domain of its indices, and its bracket.
    #[tactic(auto, using(ep_parse_parts::proofs::Finding::finds_made))]
    fn comprehension_end(
        &self,
        cursor: &mut Cursor<'_>,
        place: Place,
        low_enough: bool,
        part: Found,
        generators: Generators,
        conditions: Parts,
    ) -> Result<Found, Stop>
        requires ready { Ready E.Fn D.Fn self.now }
        requires part { Measured part }
        requires generators { GeneratorsCount generators }
        requires conditions { PartsCount conditions }
        ensures read { Finds result cursor.new (list_end low_enough (lower self.now.most) (trees.comprehension place (expr_tree part.expr) (generators_of generators.items.items) (expr_trees conditions.items.items)) cursor.old) }
    {
        let index = self.index_domain(cursor, low_enough)?;
        cursor.word(b"]")?;
        comprehension(self.alloc, place, part, generators, conditions, index)
    }

    /// The generators of a comprehension.
    fn generators(&self, cursor: &mut Cursor<'_>) -> Result<Generators, Stop>
        requires ready { Ready E.Fn D.Fn self.now }
        ensures read { GivesGenerators result cursor.new (generators_from (lower self.now.most) cursor.old) }
    {
        let mut generators = Generators::new(self.alloc);
        'more: loop {
            self.generator(cursor, &mut generators)?;
            if !generator_behind(cursor) {
                return Ok(generators);
            }
            cursor.pass();
        }
    }

    /// One more generator.
    #[tactic(auto, unfolding(ep_parse_parts::specs::OperandReaders::generator_from), using(crate::proofs::ListLoops::added_pushed))]
    fn generator(&self, cursor: &mut Cursor<'_>, generators: &mut Generators) -> Result<(), Stop>
        requires ready { Ready E.Fn D.Fn self.now }
        requires counted { GeneratorsCount generators.old }
        ensures read { Adds result (map as_read generators.old.items.items) (map as_read generators.new.items.items) cursor.new (generator_from (lower self.now.most) cursor.old) }
        ensures counted { OnOk result (GeneratorsCount generators.new) }
    {
        let names = names(self.alloc, cursor)?;
        cursor.word(b":")?;
        let domain = self.domain(cursor, DomainLevel::SetOperations)?;
        generators.push(names, domain)
    }

    /// The domain of indices behind a semicolon, where there is one.
    #[tactic(auto, unfolding(ep_parse_parts::specs::OperandReaders::index_domain_from))]
    fn index_domain(&self, cursor: &mut Cursor<'_>, low_enough: bool) -> Result<Index, Stop>
        requires ready { Ready E.Fn D.Fn self.now }
        ensures read { FindsIndex result cursor.new (index_domain_from low_enough (lower self.now.most) cursor.old) }
    {
        if !cursor.is_at(b";") {
            return Ok(Index::none());
        }
        if !low_enough {
            return Err(Stop::TooHigh);
        }
        cursor.pass();
        let domain = self.domain(cursor, DomainLevel::SetOperations)?;
        Index::over(self.alloc, domain)
    }
}

/// Whether another generator stands behind a comma.
fn generator_behind(cursor: &Cursor<'_>) -> bool
    ensures comes { result ≡ (says (codes ",") cursor.now && colon_comes true (behind cursor.now)) }
{
    if !cursor.is_at(b",") {
        return false;
    }
    let mut ahead = cursor.ahead();
    ahead.pass();
    ahead.colon_comes()
}
