//! Makes trees of trees that were read.

ghost use Rattle.std.specs.Prelude.{◌≡◌, false, true};
ghost use Rattle.ep_parse_parts.specs.Founds.{Makes, Measured, MeasuredDomain, Shows};
ghost use Rattle.ep_parse_parts.specs.OperandReaders.{one_part, three_parts};
ghost use Rattle.ep_parse_parts.specs.Openings.{extreme_of, fold_of, one_part_of, three_parts_of};
ghost use Rattle.ep_tree.specs.Spelling.{is_called};
ghost use Rattle.ep_tree.specs.Trees as trees;
ghost use Rattle.ep_tree.specs.Views.{domain_tree, expr_tree};

use crate::cursor::Stop;
use crate::found::{Found, FoundDomain, above, higher};
use crate::words::{OnePart, ThreeParts};
use ep_base::{CompareOp, LexOp, Name, Place};
use ep_tree::{BinaryOp, Expr, FoldOp, Kind, QuantOp};
use std::alloc::Global;

/// A number.
pub fn number(place: Place, number: i64) -> Found
    ensures made { Shows result (trees.number place number) }
{
    Found {
        expr: Expr {
            place,
            kind: Kind::Number(number),
        },
        height: 1,
        ends_open: false,
        takes_group: true,
    }
}

/// A truth value.
pub fn truth(place: Place, truth: bool) -> Found
    ensures made { Shows result (trees.truth place truth) }
{
    Found {
        expr: Expr {
            place,
            kind: Kind::Truth(truth),
        },
        height: 1,
        ends_open: false,
        takes_group: true,
    }
}

/// A name.
pub fn named(place: Place, name: Name) -> Found
    ensures made { Shows result (trees.named place name) }
{
    Found {
        expr: Expr {
            place,
            kind: Kind::Named(name),
        },
        height: 1,
        ends_open: false,
        takes_group: true,
    }
}

/// An expression in brackets.
pub fn group(alloc: Global, place: Place, part: Found) -> Result<Found, Stop>
    requires part { Measured part }
    ensures made { Makes result (trees.group place (expr_tree part.expr)) }
{
    let height = above(part.height);
    let part = Box::new(alloc, part.expr)?;
    Ok(closed(place, Kind::Group(part), height))
}

/// `!` and what stands behind it.
pub fn negation(alloc: Global, place: Place, part: Found) -> Result<Found, Stop>
    requires part { Measured part }
    ensures made { Makes result (trees.negation place (expr_tree part.expr)) }
{
    let height = above(part.height);
    let ends_open = part.ends_open;
    let part = Box::new(alloc, part.expr)?;
    Ok(operated(place, Kind::Not(part), height, ends_open))
}

/// `-` and what stands behind it.
pub fn minus(alloc: Global, place: Place, part: Found) -> Result<Found, Stop>
    requires part { Measured part }
    ensures made { Makes result (trees.minus place (expr_tree part.expr)) }
{
    let height = above(part.height);
    let ends_open = part.ends_open;
    let part = Box::new(alloc, part.expr)?;
    Ok(operated(place, Kind::Neg(part), height, ends_open))
}

/// An expression between bars.
pub fn absolute(alloc: Global, place: Place, part: Found) -> Result<Found, Stop>
    requires part { Measured part }
    ensures made { Makes result (trees.absolute place (expr_tree part.expr)) }
{
    let height = above(part.height);
    let part = Box::new(alloc, part.expr)?;
    Ok(closed(place, Kind::Abs(part), height))
}

/// A function of one part.
pub fn call_of_one(alloc: Global, place: Place, what: OnePart, part: Found) -> Result<Found, Stop>
    requires part { Measured part }
    ensures made { Makes result (one_part (one_part_of what) place (expr_tree part.expr)) }
{
    let height = above(part.height);
    let part = Box::new(alloc, part.expr)?;
    match what {
        OnePart::ToInt => Ok(closed(place, Kind::ToInt(part), height)),
        OnePart::Factorial => Ok(closed(place, Kind::Factorial(part), height)),
        OnePart::Flatten => Ok(closed(place, Kind::Flatten(part), height)),
        OnePart::Fold(op) => Ok(closed(place, Kind::Fold(op, part), height)),
        OnePart::AllDiff => Ok(closed(place, Kind::AllDiff(part), height)),
    }
}

/// The least or the greatest part of a matrix.
pub fn folded(alloc: Global, place: Place, is_least: bool, part: Found) -> Result<Found, Stop>
    requires part { Measured part }
    ensures made { Makes result (trees.folded place (fold_of is_least) (expr_tree part.expr)) }
{
    if is_least {
        return call_of_one(alloc, place, OnePart::Fold(FoldOp::Min), part);
    }
    call_of_one(alloc, place, OnePart::Fold(FoldOp::Max), part)
}

/// The lesser or the greater of two parts.
pub fn extreme(
    alloc: Global,
    place: Place,
    is_least: bool,
    one: Found,
    other: Found,
) -> Result<Found, Stop>
    requires one { Measured one }
    requires other { Measured other }
    ensures made { Makes result (trees.binary place (extreme_of is_least) (expr_tree one.expr) (expr_tree other.expr)) }
{
    let height = above(higher(one.height, other.height));
    let one = Box::new(alloc, one.expr)?;
    let other = Box::new(alloc, other.expr)?;
    if is_least {
        return Ok(closed(place, Kind::Binary(BinaryOp::Min, one, other), height));
    }
    Ok(closed(place, Kind::Binary(BinaryOp::Max, one, other), height))
}

/// A function of three parts.
pub fn call_of_three(
    alloc: Global,
    place: Place,
    what: ThreeParts,
    one: Found,
    two: Found,
    three: Found,
) -> Result<Found, Stop>
    requires one { Measured one }
    requires two { Measured two }
    requires three { Measured three }
    ensures made { Makes result (three_parts (three_parts_of what) place (expr_tree one.expr) (expr_tree two.expr) (expr_tree three.expr)) }
{
    let height = above(higher(one.height, higher(two.height, three.height)));
    let one = Box::new(alloc, one.expr)?;
    let two = Box::new(alloc, two.expr)?;
    let three = Box::new(alloc, three.expr)?;
    match what {
        ThreeParts::Gcc => Ok(closed(place, Kind::Gcc(one, two, three), height)),
        ThreeParts::AtLeast => Ok(closed(place, Kind::AtLeast(one, two, three), height)),
        ThreeParts::AtMost => Ok(closed(place, Kind::AtMost(one, two, three), height)),
    }
}

/// A table.
pub fn table(alloc: Global, place: Place, row: Found, rows: Found) -> Result<Found, Stop>
    requires row { Measured row }
    requires rows { Measured rows }
    ensures made { Makes result (trees.table place (expr_tree row.expr) (expr_tree rows.expr)) }
{
    let height = above(higher(row.height, rows.height));
    let row = Box::new(alloc, row.expr)?;
    let rows = Box::new(alloc, rows.expr)?;
    Ok(closed(place, Kind::Table(row, rows), height))
}

/// A quantifier.
pub fn quantified(
    alloc: Global,
    place: Place,
    op: QuantOp,
    names: Vec<Name>,
    domain: FoundDomain,
    body: Found,
) -> Result<Found, Stop>
    requires domain { MeasuredDomain domain }
    requires body { Measured body }
    ensures made { Makes result (trees.quantified place op names.items (domain_tree domain.domain) (expr_tree body.expr)) }
{
    let height = above(higher(domain.height, body.height));
    let domain = Box::new(alloc, domain.domain)?;
    let body = Box::new(alloc, body.expr)?;
    Ok(operated(place, Kind::Quant(op, names, domain, body), height, true))
}

/// Two parts with an operator between them that makes no comparison.
pub fn joined(alloc: Global, op: BinaryOp, one: Found, other: Found) -> Result<Found, Stop>
    requires infix { is_called op ≡ false }
    requires one { Measured one }
    requires other { Measured other }
    ensures made { Makes result (trees.binary (trees.place_of (expr_tree one.expr)) op (expr_tree one.expr) (expr_tree other.expr)) }
{
    let height = above(higher(one.height, other.height));
    let place = one.expr.place;
    let ends_open = other.ends_open;
    let one = Box::new(alloc, one.expr)?;
    let other = Box::new(alloc, other.expr)?;
    Ok(operated(place, Kind::Binary(op, one, other), height, ends_open))
}

/// A comparison of numbers.
pub fn compared(alloc: Global, op: CompareOp, one: Found, other: Found) -> Result<Found, Stop>
    requires one { Measured one }
    requires other { Measured other }
    ensures made { Makes result (trees.compare (trees.place_of (expr_tree one.expr)) op (expr_tree one.expr) (expr_tree other.expr)) }
{
    let height = above(higher(one.height, other.height));
    let place = one.expr.place;
    let ends_open = other.ends_open;
    let one = Box::new(alloc, one.expr)?;
    let other = Box::new(alloc, other.expr)?;
    Ok(operated(place, Kind::Compare(op, one, other), height, ends_open))
}

/// A lexicographic comparison.
pub fn lex_compared(alloc: Global, op: LexOp, one: Found, other: Found) -> Result<Found, Stop>
    requires one { Measured one }
    requires other { Measured other }
    ensures made { Makes result (trees.lex (trees.place_of (expr_tree one.expr)) op (expr_tree one.expr) (expr_tree other.expr)) }
{
    let height = above(higher(one.height, other.height));
    let place = one.expr.place;
    let ends_open = other.ends_open;
    let one = Box::new(alloc, one.expr)?;
    let other = Box::new(alloc, other.expr)?;
    Ok(operated(place, Kind::Lex(op, one, other), height, ends_open))
}

/// Whether a number is one of a domain's.
pub fn in_domain(alloc: Global, one: Found, domain: FoundDomain) -> Result<Found, Stop>
    requires one { Measured one }
    requires domain { MeasuredDomain domain }
    ensures made { Makes result (trees.in_domain (trees.place_of (expr_tree one.expr)) (expr_tree one.expr) (domain_tree domain.domain)) }
{
    let height = above(higher(one.height, domain.height));
    let place = one.expr.place;
    let one = Box::new(alloc, one.expr)?;
    let domain = Box::new(alloc, domain.domain)?;
    Ok(operated(place, Kind::InDomain(one, domain), height, false))
}

/// Whether a number is one of a matrix's.
pub fn in_set(alloc: Global, one: Found, matrix: Found) -> Result<Found, Stop>
    requires one { Measured one }
    requires matrix { Measured matrix }
    ensures made { Makes result (trees.in_set (trees.place_of (expr_tree one.expr)) (expr_tree one.expr) (expr_tree matrix.expr)) }
{
    let height = above(higher(one.height, matrix.height));
    let place = one.expr.place;
    let one = Box::new(alloc, one.expr)?;
    let matrix = Box::new(alloc, matrix.expr)?;
    Ok(operated(place, Kind::InSet(one, matrix), height, false))
}

/// A node that its last token closes.
fn closed(place: Place, kind: Kind, height: u64) -> Found
    ensures made { result ≡ record { expr = record { place = place; kind = kind }; height = height; ends_open = false; takes_group = true } }
{
    Found {
        expr: Expr { place, kind },
        height,
        ends_open: false,
        takes_group: true,
    }
}

/// A node of an operator or a quantifier.
fn operated(place: Place, kind: Kind, height: u64, ends_open: bool) -> Found
    ensures made { result ≡ record { expr = record { place = place; kind = kind }; height = height; ends_open = ends_open; takes_group = false } }
{
    Found {
        expr: Expr { place, kind },
        height,
        ends_open,
        takes_group: false,
    }
}
