//! The models of the table.

use ep_base::{CompareOp, Memory, Name, Place, Sense};
use ep_print::print_model;
use ep_tree::{Declared, Domain, DomainKind, Expr, Kind, Model, Range, Statement, StatementKind};
use std::alloc::Global;

const PLACE: Place = Place { line: 2, column: 6 };

/// The text of a model of the table.
pub(crate) fn text(alloc: Global, number: usize) -> Result<Vec<u8>, Memory> {
    let mut statements = Vec::new(alloc);
    if number == 0 {
        statements.push(find(alloc)?)?;
        statements.push(such_that(alloc)?)?;
    } else {
        statements.push(goal(alloc, Sense::Minimising)?)?;
        statements.push(goal(alloc, Sense::Maximising)?)?;
    }
    print_model(alloc, &Model { statements })
}

/// A statement of this kind.
fn statement(kind: StatementKind) -> Statement {
    Statement { place: PLACE, kind }
}

/// An expression of this kind.
fn expr(kind: Kind) -> Expr {
    Expr { place: PLACE, kind }
}

/// `x`
fn x(alloc: Global) -> Result<Expr, Memory> {
    Ok(expr(Kind::Named(Name::new(alloc, "x")?)))
}

/// `find x : int(1..3)`
fn find(alloc: Global) -> Result<Statement, Memory> {
    let mut ranges = Vec::new(alloc);
    let least = Some(expr(Kind::Number(1)));
    let greatest = Some(expr(Kind::Number(3)));
    ranges.push(Range::Span(least, greatest))?;
    let domain = Domain {
        place: PLACE,
        kind: DomainKind::Ranges(ranges),
    };
    let mut names = Vec::new(alloc);
    names.push((Name::new(alloc, "x")?, PLACE))?;
    let mut groups = Vec::new(alloc);
    groups.push(Declared { names, domain })?;
    Ok(statement(StatementKind::Find(groups)))
}

/// `such that x > 2`
fn such_that(alloc: Global) -> Result<Statement, Memory> {
    let left = Box::new(alloc, x(alloc)?)?;
    let right = Box::new(alloc, expr(Kind::Number(2)))?;
    let mut clauses = Vec::new(alloc);
    clauses.push(expr(Kind::Compare(CompareOp::Greater, left, right)))?;
    Ok(statement(StatementKind::SuchThat(clauses)))
}

/// An objective, `x[1, ..]`
fn goal(alloc: Global, sense: Sense) -> Result<Statement, Memory> {
    let mut indices = Vec::new(alloc);
    indices.push(Some(expr(Kind::Number(1))))?;
    indices.push(None)?;
    let read = expr(Kind::Read(Box::new(alloc, x(alloc)?)?, indices));
    Ok(statement(StatementKind::Objective(sense, read)))
}
