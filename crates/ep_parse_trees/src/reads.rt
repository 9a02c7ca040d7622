//! Reads reads of matrices.

ghost use Rattle.std.specs.Prelude.{◌≡◌, ◌&&◌, codes, false, nat_lt, None};
ghost use Rattle.ep_parse_parts.specs.Founds.{Finds, Measured, lower};
ghost use Rattle.ep_parse_parts.specs.Gathered.{AddsIndex, GivesIndices, IndicesCount, indices_from};
ghost use Rattle.ep_parse_below.specs.Lowers.{Ready};
ghost use Rattle.ep_parse_parts.specs.OperandReaders.{closed_by, if_low};
ghost use Rattle.ep_parse_parts.specs.OperatorReaders.{another_index, another_read, index_from, read_from, takes_group, unary_from};
ghost use Rattle.ep_parse_parts.specs.Readers.{behind, grown, kept, says};
ghost use Rattle.ep_tree.specs.Heights.{height};
ghost use Rattle.ep_tree.specs.Trees as trees;
ghost use Rattle.ep_tree.specs.Views.{expr_tree, indices_of};

use crate::operands::operand;
use ep_parse_below::Below;
use ep_parse_parts::{Cursor, DomainLevel, Found, FoundDomain, Indices, Level, Stop};

/// An operand, with reads of it.
#[tactic(auto, unfolding(ep_parse_parts::specs::OperatorReaders::unary_from))]
pub(crate) fn unary<
    E: Fn(&mut Cursor<'_>, Level) -> Result<Found, Stop>,
    D: Fn(&mut Cursor<'_>, DomainLevel) -> Result<FoundDomain, Stop>,
>(below: &Below<E, D>, cursor: &mut Cursor<'_>) -> Result<Found, Stop>
    requires ready { Ready E.Fn D.Fn below.now }
    ensures read { Finds result cursor.new (unary_from below.now.most (lower below.now.most) cursor.old) }
{
    let first = operand(below, cursor)?;
    reads_of(below, cursor, first)
}

/// What was read, with reads of it.
fn reads_of<
    E: Fn(&mut Cursor<'_>, Level) -> Result<Found, Stop>,
    D: Fn(&mut Cursor<'_>, DomainLevel) -> Result<FoundDomain, Stop>,
>(below: &Below<E, D>, cursor: &mut Cursor<'_>, first: Found) -> Result<Found, Stop>
    requires ready { Ready E.Fn D.Fn below.now }
    requires first { Measured first }
    ensures read { Finds result cursor.new (grown (another_read below.now.most (lower below.now.most)) (expr_tree first.expr) cursor.old) }
{
    let mut found = first;
    'more: loop {
        if !group_next(cursor, &found) {
            return Ok(found);
        }
        found = another_read(below, cursor, found)?;
    }
}

/// One more read of what was read, whose bracket is next.
fn another_read<
    E: Fn(&mut Cursor<'_>, Level) -> Result<Found, Stop>,
    D: Fn(&mut Cursor<'_>, DomainLevel) -> Result<FoundDomain, Stop>,
>(below: &Below<E, D>, cursor: &mut Cursor<'_>, matrix: Found) -> Result<Found, Stop>
    requires ready { Ready E.Fn D.Fn below.now }
    requires matrix { Measured matrix }
    ensures read { Finds result cursor.new (if_low (nat_lt (height (expr_tree matrix.expr)) below.now.most) (λ all. read_from (lower below.now.most) (expr_tree matrix.expr) (behind all)) cursor.old) }
{
    if !matrix.is_below(below.most) {
        return Err(Stop::TooHigh);
    }
    cursor.pass();
    read(below, cursor, matrix)
}

/// A read of a matrix behind its bracket.
fn read<
    E: Fn(&mut Cursor<'_>, Level) -> Result<Found, Stop>,
    D: Fn(&mut Cursor<'_>, DomainLevel) -> Result<FoundDomain, Stop>,
>(below: &Below<E, D>, cursor: &mut Cursor<'_>, matrix: Found) -> Result<Found, Stop>
    requires ready { Ready E.Fn D.Fn below.now }
    requires matrix { Measured matrix }
    ensures read { Finds result cursor.new (read_from (lower below.now.most) (expr_tree matrix.expr) cursor.old) }
{
    let indices = indices(below, cursor)?;
    read_end(below, cursor, matrix, indices)
}

/// The end of a read: its bracket.
#[tactic(auto, using(ep_parse_parts::proofs::Finding::finds_made))]
fn read_end<
    E: Fn(&mut Cursor<'_>, Level) -> Result<Found, Stop>,
    D: Fn(&mut Cursor<'_>, DomainLevel) -> Result<FoundDomain, Stop>,
>(
    below: &Below<E, D>,
    cursor: &mut Cursor<'_>,
    matrix: Found,
    indices: Indices,
) -> Result<Found, Stop>
    requires matrix { Measured matrix }
    requires indices { IndicesCount indices }
    ensures read { Finds result cursor.new (closed_by (codes "]") (trees.read (trees.place_of (expr_tree matrix.expr)) (expr_tree matrix.expr) (indices_of indices.items.items)) cursor.old) }
{
    cursor.word(b"]")?;
    ep_parse_parts::read(below.alloc, matrix, indices)
}

/// The indices of a read.
fn indices<
    E: Fn(&mut Cursor<'_>, Level) -> Result<Found, Stop>,
    D: Fn(&mut Cursor<'_>, DomainLevel) -> Result<FoundDomain, Stop>,
>(below: &Below<E, D>, cursor: &mut Cursor<'_>) -> Result<Indices, Stop>
    requires ready { Ready E.Fn D.Fn below.now }
    ensures read { GivesIndices result cursor.new (indices_from (lower below.now.most) false cursor.old) }
{
    let mut indices = Indices::new(below.alloc);
    'more: loop {
        index(below, cursor, &mut indices)?;
        if !passes_to_index(cursor, indices.has_every) {
            return Ok(indices);
        }
    }
}

/// One more index.
fn index<
    E: Fn(&mut Cursor<'_>, Level) -> Result<Found, Stop>,
    D: Fn(&mut Cursor<'_>, DomainLevel) -> Result<FoundDomain, Stop>,
>(below: &Below<E, D>, cursor: &mut Cursor<'_>, indices: &mut Indices) -> Result<(), Stop>
    requires ready { Ready E.Fn D.Fn below.now }
    requires counted { IndicesCount indices.old }
    ensures read { AddsIndex result indices.old indices.new cursor.new (index_from (lower below.now.most) indices.old.has_every cursor.old) }
{
    if cursor.passes(b"..") {
        return indices.push_every();
    }
    let index = below.expr(cursor, Level::Implications)?;
    indices.push(index)
}

/// Whether the indices of a read that was read stand behind it.
fn group_next(cursor: &Cursor<'_>, found: &Found) -> bool
    requires found { Measured found.now }
    ensures next { result ≡ (says (codes "[") cursor.now && takes_group (expr_tree found.now.expr)) }
{
    cursor.is_at(b"[") && found.takes_group
}

/// Passes what stands before another index: a comma, or, as long as no `..` has come, what closes a bracket group and
/// opens the next.
#[tactic(auto, unfolding(ep_parse_parts::specs::OperatorReaders::another_index, ep_parse_parts::specs::Cursors::passing))]
fn passes_to_index(cursor: &mut Cursor<'_>, has_every: bool) -> bool
    ensures went { kept result cursor.new ≡ another_index (has_every, None) cursor.old }
    ensures stays { result ≡ false → cursor.new ≡ cursor.old }
{
    if cursor.passes(b",") {
        return true;
    }
    if has_every {
        return false;
    }
    if !group_follows(cursor) {
        return false;
    }
    cursor.pass();
    cursor.pass();
    true
}

/// Whether a bracket group closes and another opens.
fn group_follows(cursor: &Cursor<'_>) -> bool
    ensures follows { result ≡ (says (codes "]") cursor.now && says (codes "[") (behind cursor.now)) }
{
    if !cursor.is_at(b"]") {
        return false;
    }
    let mut ahead = cursor.ahead();
    ahead.pass();
    ahead.is_at(b"[")
}
