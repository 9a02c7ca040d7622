//! Reads functions and quantifiers behind their words.

ghost use Rattle.ep_parse_below.specs.Calls.{extreme_of_one, extreme_of_two, rows_from, second_of_three, third_of_three};
ghost use Rattle.ep_parse_parts.specs.Founds.{Finds, Measured, lower};
ghost use Rattle.ep_parse_below.specs.Lowers.{Ready};
ghost use Rattle.ep_parse_parts.specs.OperandReaders.{call_from, call_of_three_from, call_of_two_from, one_part, quantifier_from, sum_from, table_from};
ghost use Rattle.ep_parse_parts.specs.Openings.{extreme_of, fold_of, one_part_of, three_parts_of};
ghost use Rattle.ep_tree.specs.Views.{expr_tree};

use crate::below::Below;
use ep_base::Place;
use ep_parse_parts::{
    Cursor, DomainLevel, Found, FoundDomain, Level, OnePart, Stop, ThreeParts, call_of_one,
    call_of_three, extreme, folded, names, quantified, table,
};
use ep_tree::{FoldOp, QuantOp};

impl<
    E: Fn(&mut Cursor<'_>, Level) -> Result<Found, Stop>,
    D: Fn(&mut Cursor<'_>, DomainLevel) -> Result<FoundDomain, Stop>,
> Below<E, D> {
    /// A function of one part behind its name.
    #[tactic(auto, unfolding(ep_parse_parts::specs::OperandReaders::call_from), using(ep_parse_parts::proofs::Finding::finds_made))]
    pub fn call(&self, cursor: &mut Cursor<'_>, place: Place, what: OnePart) -> Result<Found, Stop>
        requires ready { Ready E.Fn D.Fn self.now }
        ensures read { Finds result cursor.new (call_from (lower self.now.most) (one_part (one_part_of what) place) cursor.old) }
    {
        cursor.word(b"(")?;
        let part = self.expr(cursor, Level::Implications)?;
        cursor.word(b")")?;
        call_of_one(self.alloc, place, what, part)
    }

    /// A function of one part or two behind its name: the least or the greatest.
    #[tactic(auto, unfolding(ep_parse_parts::specs::OperandReaders::call_of_two_from, crate::specs::Calls::extreme_of_one, crate::specs::Calls::extreme_of_two))]
    pub fn extreme(
        &self,
        cursor: &mut Cursor<'_>,
        place: Place,
        is_least: bool,
    ) -> Result<Found, Stop>
        requires ready { Ready E.Fn D.Fn self.now }
        ensures read { Finds result cursor.new (call_of_two_from (lower self.now.most) (fold_of is_least) (extreme_of is_least) place cursor.old) }
    {
        cursor.word(b"(")?;
        let part = self.expr(cursor, Level::Implications)?;
        if cursor.is_at(b",") {
            return self.extreme_of_two(cursor, place, is_least, part);
        }
        self.extreme_of_one(cursor, place, is_least, part)
    }

    /// The end of a least or greatest behind its only part.
    #[tactic(auto, unfolding(crate::specs::Calls::extreme_of_one), using(ep_parse_parts::proofs::Finding::finds_made))]
    fn extreme_of_one(
        &self,
        cursor: &mut Cursor<'_>,
        place: Place,
        is_least: bool,
        part: Found,
    ) -> Result<Found, Stop>
        requires part { Measured part }
        ensures read { Finds result cursor.new (extreme_of_one is_least place (expr_tree part.expr) cursor.old) }
    {
        cursor.word(b")")?;
        folded(self.alloc, place, is_least, part)
    }

    /// The end of a least or greatest behind the first of two parts.
    #[tactic(auto, unfolding(crate::specs::Calls::extreme_of_two), using(ep_parse_parts::proofs::Finding::finds_made))]
    fn extreme_of_two(
        &self,
        cursor: &mut Cursor<'_>,
        place: Place,
        is_least: bool,
        part: Found,
    ) -> Result<Found, Stop>
        requires ready { Ready E.Fn D.Fn self.now }
        requires part { Measured part }
        ensures read { Finds result cursor.new (extreme_of_two (lower self.now.most) is_least place (expr_tree part.expr) cursor.old) }
    {
        cursor.word(b",")?;
        let other = self.expr(cursor, Level::Implications)?;
        cursor.word(b")")?;
        extreme(self.alloc, place, is_least, part, other)
    }

    /// A table behind its name.
    #[tactic(auto, unfolding(ep_parse_parts::specs::OperandReaders::table_from, crate::specs::Calls::rows_from))]
    pub fn table(&self, cursor: &mut Cursor<'_>, place: Place) -> Result<Found, Stop>
        requires ready { Ready E.Fn D.Fn self.now }
        ensures read { Finds result cursor.new (table_from (lower self.now.most) place cursor.old) }
    {
        cursor.word(b"(")?;
        let row = self.expr(cursor, Level::Implications)?;
        self.rows(cursor, place, row)
    }

    /// The end of a table behind its row.
    #[tactic(auto, unfolding(crate::specs::Calls::rows_from), using(ep_parse_parts::proofs::Finding::finds_made))]
    fn rows(&self, cursor: &mut Cursor<'_>, place: Place, row: Found) -> Result<Found, Stop>
        requires ready { Ready E.Fn D.Fn self.now }
        requires row { Measured row }
        ensures read { Finds result cursor.new (rows_from (lower self.now.most) place (expr_tree row.expr) cursor.old) }
    {
        cursor.word(b",")?;
        let rows = self.expr(cursor, Level::Implications)?;
        cursor.word(b")")?;
        table(self.alloc, place, row, rows)
    }

    /// A function of three parts behind its name.
    #[tactic(auto, unfolding(ep_parse_parts::specs::OperandReaders::call_of_three_from, crate::specs::Calls::second_of_three))]
    pub fn call_of_three(
        &self,
        cursor: &mut Cursor<'_>,
        place: Place,
        what: ThreeParts,
    ) -> Result<Found, Stop>
        requires ready { Ready E.Fn D.Fn self.now }
        ensures read { Finds result cursor.new (call_of_three_from (lower self.now.most) (three_parts_of what) place cursor.old) }
    {
        cursor.word(b"(")?;
        let one = self.expr(cursor, Level::Implications)?;
        self.second_of_three(cursor, place, what, one)
    }

    /// The end of a function of three parts behind its first part.
    #[tactic(auto, unfolding(crate::specs::Calls::second_of_three, crate::specs::Calls::third_of_three))]
    fn second_of_three(
        &self,
        cursor: &mut Cursor<'_>,
        place: Place,
        what: ThreeParts,
        one: Found,
    ) -> Result<Found, Stop>
        requires ready { Ready E.Fn D.Fn self.now }
        requires one { Measured one }
        ensures read { Finds result cursor.new (second_of_three (lower self.now.most) (three_parts_of what) place (expr_tree one.expr) cursor.old) }
    {
        cursor.word(b",")?;
        let two = self.expr(cursor, Level::Implications)?;
        self.third_of_three(cursor, place, what, one, two)
    }

    /// The end of a function of three parts behind its second part.
    #[tactic(auto, unfolding(crate::specs::Calls::third_of_three), using(ep_parse_parts::proofs::Finding::finds_made))]
    fn third_of_three(
        &self,
        cursor: &mut Cursor<'_>,
        place: Place,
        what: ThreeParts,
        one: Found,
        two: Found,
    ) -> Result<Found, Stop>
        requires ready { Ready E.Fn D.Fn self.now }
        requires one { Measured one }
        requires two { Measured two }
        ensures read { Finds result cursor.new (third_of_three (lower self.now.most) (three_parts_of what) place (expr_tree one.expr) (expr_tree two.expr) cursor.old) }
    {
        cursor.word(b",")?;
        let three = self.expr(cursor, Level::Implications)?;
        cursor.word(b")")?;
        call_of_three(self.alloc, place, what, one, two, three)
    }

    /// A quantifier behind its word.
    #[tactic(auto, unfolding(ep_parse_parts::specs::OperandReaders::quantifier_from), using(ep_parse_parts::proofs::Finding::finds_made))]
    pub fn quantifier(
        &self,
        cursor: &mut Cursor<'_>,
        place: Place,
        op: QuantOp,
    ) -> Result<Found, Stop>
        requires ready { Ready E.Fn D.Fn self.now }
        ensures read { Finds result cursor.new (quantifier_from (lower self.now.most) op place cursor.old) }
    {
        let names = names(self.alloc, cursor)?;
        cursor.word(b":")?;
        let domain = self.domain(cursor, DomainLevel::SetOperations)?;
        cursor.word(b".")?;
        let body = self.expr(cursor, Level::Implications)?;
        quantified(self.alloc, place, op, names, domain, body)
    }

    /// A sum over a domain or of a matrix, behind its word.
    #[tactic(auto, unfolding(ep_parse_parts::specs::OperandReaders::sum_from))]
    pub fn sum(&self, cursor: &mut Cursor<'_>, place: Place) -> Result<Found, Stop>
        requires ready { Ready E.Fn D.Fn self.now }
        ensures read { Finds result cursor.new (sum_from (lower self.now.most) place cursor.old) }
    {
        if cursor.is_at(b"(") {
            return self.call(cursor, place, OnePart::Fold(FoldOp::Sum));
        }
        self.quantifier(cursor, place, QuantOp::Sum)
    }
}
