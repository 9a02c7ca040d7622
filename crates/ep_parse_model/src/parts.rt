//! Reads the expressions and domains of statements, as high as the language has them.

ghost use Rattle.ep_parse_parts.specs.Cursors.{Gives};
ghost use Rattle.ep_parse_model.specs.TextReaders.{full};
ghost use Rattle.ep_tree.specs.Spelling.{domains, implications};
ghost use Rattle.ep_tree.specs.Views.{domain_tree, expr_tree};

use ep_parse_parts::{Cursor, DomainLevel, Level, Stop};
use ep_parse_trees::{domain as read_domain, expr as read_expr};
use ep_tree::{Domain, Expr};
use std::alloc::Global;

/// The greatest height of an expression or a domain of a text.
const MOST_HEIGHT: u64 = 256;

/// An expression, as far as one goes on.
pub(crate) fn expression(alloc: Global, cursor: &mut Cursor<'_>) -> Result<Expr, Stop>
    ensures read { Gives expr_tree result cursor.new (full.expr implications cursor.old) }
{
    let found = read_expr(alloc, cursor, Level::Implications, MOST_HEIGHT)?;
    Ok(found.expr)
}

/// A domain, as far as one goes on.
pub(crate) fn domain(alloc: Global, cursor: &mut Cursor<'_>) -> Result<Domain, Stop>
    ensures read { Gives domain_tree result cursor.new (full.domain domains cursor.old) }
{
    let found = read_domain(alloc, cursor, DomainLevel::Domains, MOST_HEIGHT)?;
    Ok(found.domain)
}
