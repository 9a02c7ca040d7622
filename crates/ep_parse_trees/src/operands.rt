//! Reads operands: what a token begins.

ghost use Rattle.std.specs.Prelude.{◌≡◌, nat_lt, None, Some};
ghost use Rattle.ep_parse_parts.specs.DomainReaders.{place_next};
ghost use Rattle.ep_parse_parts.specs.Founds.{Finds, Measured, lower};
ghost use Rattle.ep_parse_below.specs.Lowers.{Ready};
ghost use Rattle.ep_parse_parts.specs.OperandReaders.{a_bar, a_group, a_minus, a_negation, bracket_from, if_low, open_from, opened_from, operand_from};
ghost use Rattle.ep_parse_parts.specs.Openings.{opening_of};
ghost use Rattle.ep_parse_parts.specs.OperatorReaders.{unary_from};
ghost use Rattle.ep_parse_parts.specs.Readers.{behind};
ghost use Rattle.ep_parse_parts.specs.Sayings.{name_next, said_number_next, word_next};

use ep_base::{Name, Place};
use ep_parse_below::Below;
use ep_parse_parts::{
    Cursor, DomainLevel, Found, FoundDomain, Level, Opening, Stop, find_opening, number, truth,
};

/// An operand without indices behind it.
pub(crate) fn operand<
    E: Fn(&mut Cursor<'_>, Level) -> Result<Found, Stop>,
    D: Fn(&mut Cursor<'_>, DomainLevel) -> Result<FoundDomain, Stop>,
>(below: &Below<E, D>, cursor: &mut Cursor<'_>) -> Result<Found, Stop>
    requires ready { Ready E.Fn D.Fn below.now }
    ensures read { Finds result cursor.new (operand_from (nat_lt 1 below.now.most) (lower below.now.most) cursor.old) }
{
    match cursor.name_next() {
        Some(name) => named(below, cursor, name),
        None => unnamed(below, cursor),
    }
}

/// A name, which is next.
fn named<
    E: Fn(&mut Cursor<'_>, Level) -> Result<Found, Stop>,
    D: Fn(&mut Cursor<'_>, DomainLevel) -> Result<FoundDomain, Stop>,
>(below: &Below<E, D>, cursor: &mut Cursor<'_>, name: &str) -> Result<Found, Stop>
    requires next { name_next cursor.old ≡ Some name.now }
    ensures read { Finds result cursor.new (operand_from (nat_lt 1 below.now.most) (lower below.now.most) cursor.old) }
{
    let name = Name::new(below.alloc, name)?;
    Ok(ep_parse_parts::named(cursor.pass(), name))
}

/// An operand that is no name.
fn unnamed<
    E: Fn(&mut Cursor<'_>, Level) -> Result<Found, Stop>,
    D: Fn(&mut Cursor<'_>, DomainLevel) -> Result<FoundDomain, Stop>,
>(below: &Below<E, D>, cursor: &mut Cursor<'_>) -> Result<Found, Stop>
    requires ready { Ready E.Fn D.Fn below.now }
    requires no_name { name_next cursor.old ≡ None }
    ensures read { Finds result cursor.new (operand_from (nat_lt 1 below.now.most) (lower below.now.most) cursor.old) }
{
    match cursor.number_next() {
        Some(value) => Ok(number(cursor.pass(), value)),
        None => worded(below, cursor),
    }
}

/// An operand that is neither a name nor a number.
fn worded<
    E: Fn(&mut Cursor<'_>, Level) -> Result<Found, Stop>,
    D: Fn(&mut Cursor<'_>, DomainLevel) -> Result<FoundDomain, Stop>,
>(below: &Below<E, D>, cursor: &mut Cursor<'_>) -> Result<Found, Stop>
    requires ready { Ready E.Fn D.Fn below.now }
    requires no_name { name_next cursor.old ≡ None }
    requires no_number { said_number_next cursor.old ≡ None }
    ensures read { Finds result cursor.new (operand_from (nat_lt 1 below.now.most) (lower below.now.most) cursor.old) }
{
    match cursor.word_next() {
        Some(word) => begun_by(below, cursor, word),
        None => Err(Stop::Wrong),
    }
}

/// What this word begins, which is next.
fn begun_by<
    E: Fn(&mut Cursor<'_>, Level) -> Result<Found, Stop>,
    D: Fn(&mut Cursor<'_>, DomainLevel) -> Result<FoundDomain, Stop>,
>(below: &Below<E, D>, cursor: &mut Cursor<'_>, word: &[u8]) -> Result<Found, Stop>
    requires ready { Ready E.Fn D.Fn below.now }
    requires next { word_next cursor.old ≡ Some word.now }
    ensures read { Finds result cursor.new (operand_from (nat_lt 1 below.now.most) (lower below.now.most) cursor.old) }
{
    match find_opening(word) {
        Some(opening) => begun(below, cursor, opening),
        None => Err(Stop::Wrong),
    }
}

/// What a word begins. Only a truth value and an empty list have no part.
fn begun<
    E: Fn(&mut Cursor<'_>, Level) -> Result<Found, Stop>,
    D: Fn(&mut Cursor<'_>, DomainLevel) -> Result<FoundDomain, Stop>,
>(below: &Below<E, D>, cursor: &mut Cursor<'_>, opening: Opening) -> Result<Found, Stop>
    requires ready { Ready E.Fn D.Fn below.now }
    ensures read { Finds result cursor.new (open_from (nat_lt 1 below.now.most) (lower below.now.most) (place_next cursor.old) (Some (opening_of opening)) (behind cursor.old) cursor.old) }
{
    match opening {
        Opening::Truth(value) => Ok(truth(cursor.pass(), value)),
        Opening::Bracket => {
            let place = cursor.pass();
            below.bracket(cursor, place, 1 < below.most)
        }
        _ => with_part(below, cursor, opening),
    }
}

/// What a word begins that has a part.
fn with_part<
    E: Fn(&mut Cursor<'_>, Level) -> Result<Found, Stop>,
    D: Fn(&mut Cursor<'_>, DomainLevel) -> Result<FoundDomain, Stop>,
>(below: &Below<E, D>, cursor: &mut Cursor<'_>, opening: Opening) -> Result<Found, Stop>
    requires ready { Ready E.Fn D.Fn below.now }
    ensures read { Finds result cursor.new (if_low (nat_lt 1 below.now.most) (λ all. opened_from (lower below.now.most) (place_next all) (opening_of opening) (behind all)) cursor.old) }
{
    if !(1 < below.most) {
        return Err(Stop::TooHigh);
    }
    let place = cursor.pass();
    opened(below, cursor, place, opening)
}

/// A node with a part, behind the word that opens it.
#[tactic(auto, unfolding(ep_parse_parts::specs::OperandReaders::opened_from), using(ep_parse_parts::proofs::Finding::finds_made, ep_parse_parts::proofs::Finding::finds_shown))]
fn opened<
    E: Fn(&mut Cursor<'_>, Level) -> Result<Found, Stop>,
    D: Fn(&mut Cursor<'_>, DomainLevel) -> Result<FoundDomain, Stop>,
>(
    below: &Below<E, D>,
    cursor: &mut Cursor<'_>,
    place: Place,
    opening: Opening,
) -> Result<Found, Stop>
    requires ready { Ready E.Fn D.Fn below.now }
    ensures read { Finds result cursor.new (opened_from (lower below.now.most) place (opening_of opening) cursor.old) }
{
    match opening {
        Opening::Truth(value) => Ok(truth(place, value)),
        Opening::Bracket => below.bracket(cursor, place, true),
        Opening::Group => group(below, cursor, place),
        Opening::Bar => absolute(below, cursor, place),
        Opening::Negation => negation(below, cursor, place),
        Opening::Minus => minus(below, cursor, place),
        Opening::Quantifier(op) => below.quantifier(cursor, place, op),
        Opening::Sum => below.sum(cursor, place),
        Opening::One(what) => below.call(cursor, place, what),
        Opening::Least => below.extreme(cursor, place, true),
        Opening::Greatest => below.extreme(cursor, place, false),
        Opening::Table => below.table(cursor, place),
        Opening::Three(what) => below.call_of_three(cursor, place, what),
    }
}

/// An expression in brackets, behind its bracket.
#[tactic(auto, unfolding(ep_parse_parts::specs::OperandReaders::opened_from), using(ep_parse_parts::proofs::Finding::finds_made))]
fn group<
    E: Fn(&mut Cursor<'_>, Level) -> Result<Found, Stop>,
    D: Fn(&mut Cursor<'_>, DomainLevel) -> Result<FoundDomain, Stop>,
>(below: &Below<E, D>, cursor: &mut Cursor<'_>, place: Place) -> Result<Found, Stop>
    requires ready { Ready E.Fn D.Fn below.now }
    ensures read { Finds result cursor.new (opened_from (lower below.now.most) place a_group cursor.old) }
{
    let part = below.expr(cursor, Level::Implications)?;
    cursor.word(b")")?;
    ep_parse_parts::group(below.alloc, place, part)
}

/// An expression between bars, behind the first.
#[tactic(auto, unfolding(ep_parse_parts::specs::OperandReaders::opened_from), using(ep_parse_parts::proofs::Finding::finds_made))]
fn absolute<
    E: Fn(&mut Cursor<'_>, Level) -> Result<Found, Stop>,
    D: Fn(&mut Cursor<'_>, DomainLevel) -> Result<FoundDomain, Stop>,
>(below: &Below<E, D>, cursor: &mut Cursor<'_>, place: Place) -> Result<Found, Stop>
    requires ready { Ready E.Fn D.Fn below.now }
    ensures read { Finds result cursor.new (opened_from (lower below.now.most) place a_bar cursor.old) }
{
    let part = below.expr(cursor, Level::Implications)?;
    cursor.word(b"|")?;
    ep_parse_parts::absolute(below.alloc, place, part)
}

/// What stands behind `!`.
#[tactic(auto, unfolding(ep_parse_parts::specs::OperandReaders::opened_from), using(ep_parse_parts::proofs::Finding::finds_made))]
fn negation<
    E: Fn(&mut Cursor<'_>, Level) -> Result<Found, Stop>,
    D: Fn(&mut Cursor<'_>, DomainLevel) -> Result<FoundDomain, Stop>,
>(below: &Below<E, D>, cursor: &mut Cursor<'_>, place: Place) -> Result<Found, Stop>
    requires ready { Ready E.Fn D.Fn below.now }
    ensures read { Finds result cursor.new (opened_from (lower below.now.most) place a_negation cursor.old) }
{
    let part = below.expr(cursor, Level::Unaries)?;
    ep_parse_parts::negation(below.alloc, place, part)
}

/// What stands behind `-`.
#[tactic(auto, unfolding(ep_parse_parts::specs::OperandReaders::opened_from), using(ep_parse_parts::proofs::Finding::finds_made))]
fn minus<
    E: Fn(&mut Cursor<'_>, Level) -> Result<Found, Stop>,
    D: Fn(&mut Cursor<'_>, DomainLevel) -> Result<FoundDomain, Stop>,
>(below: &Below<E, D>, cursor: &mut Cursor<'_>, place: Place) -> Result<Found, Stop>
    requires ready { Ready E.Fn D.Fn below.now }
    ensures read { Finds result cursor.new (opened_from (lower below.now.most) place a_minus cursor.old) }
{
    let part = below.expr(cursor, Level::Unaries)?;
    ep_parse_parts::minus(below.alloc, place, part)
}
