//! Takes the words of a text, one after another.

ghost use Rattle.std.specs.Prelude.{◌≡◌};
ghost use Rattle.opb_text.specs.Reading.{Takes, start, opb_step, at_start, at_goal_term, at_row_term, at_literal, at_right, at_row_end, has_none, is_done, content_of};
ghost use Rattle.opb_text.specs.Views.{plain_reader, plain_opb};

use crate::content::{Opb, OpbRow, OpbTerm};
use crate::errors::Fault;
use crate::numbers::{is_end, is_goal, literal, number, relation};
use std::alloc::Global;
use std::mem::replace;

/// What a sum is there for.
#[derive(Clone, Copy, Debug, PartialEq, Eq)]
pub enum Part {
    /// It is the objective.
    Goal,
    /// It is the left side of a constraint.
    Row,
}

/// What may come next.
#[derive(Clone, Copy, Debug, PartialEq, Eq)]
pub enum Stage {
    /// Nothing was read: the objective, a constraint or nothing.
    Start,
    /// A term, or what follows the last term. Behind a whole constraint nothing may come too.
    Term(Part),
    /// The literal that is multiplied by this number.
    Literal(Part, i64),
    /// The right side of a constraint, to which the sum is equal or not.
    Right(bool),
    /// The `;` behind this right side.
    End(bool, i64),
}

/// What was read so far.
#[derive(Debug, Drop)]
pub struct Reader {
    /// The objective, where it is whole.
    pub objective: Option<Vec<OpbTerm>>,
    /// The constraints that are whole.
    pub rows: Vec<OpbRow>,
    /// The terms of the sum that was begun.
    pub terms: Vec<OpbTerm>,
    /// What may come next.
    pub stage: Stage,
}

/// Nothing was read.
pub(crate) fn start(alloc: Global) -> Reader
    ensures { plain_reader result ≡ start }
{
    Reader {
        objective: None,
        rows: Vec::new(alloc),
        terms: Vec::new(alloc),
        stage: Stage::Start,
    }
}

/// Whether there are no terms.
fn has_none(terms: &[OpbTerm]) -> bool
    ensures { result ≡ has_none terms.now }
{
    match terms {
        [] => true,
        [_, ..] => false,
    }
}

/// Whether a text may end here.
#[tactic(auto, unfolding(crate::specs::Reading::may_end))]
pub(crate) fn is_done(reader: &Reader) -> bool
    ensures { result ≡ is_done (plain_reader reader.now) }
{
    match reader.stage {
        Stage::Start => true,
        Stage::Term(Part::Goal) => false,
        Stage::Term(Part::Row) => has_none(&reader.terms),
        Stage::Literal(_, _) => false,
        Stage::Right(_) => false,
        Stage::End(_, _) => false,
    }
}

/// What was read, where it is whole.
pub(crate) fn content(reader: Reader) -> Opb
    ensures { plain_opb result ≡ content_of (plain_reader reader) }
{
    Opb {
        objective: reader.objective,
        rows: reader.rows,
    }
}

/// Takes the next word.
#[tactic(auto, unfolding(crate::specs::Reading::opb_step_at))]
pub(crate) fn take_word(alloc: Global, reader: &mut Reader, word: &[u8]) -> Result<(), Fault>
    ensures { Takes result (opb_step (plain_reader reader.old) word.now) (plain_reader reader.new) }
{
    match reader.stage {
        Stage::Start => take_first(reader, word),
        Stage::Term(Part::Goal) => take_goal_term(alloc, reader, word),
        Stage::Term(Part::Row) => take_row_term(reader, word),
        Stage::Literal(part, factor) => take_literal(reader, part, factor, word),
        Stage::Right(equal) => take_right(reader, equal, word),
        Stage::End(equal, right) => take_end(alloc, reader, equal, right, word),
    }
}

/// Takes the first word of all.
fn take_first(reader: &mut Reader, word: &[u8]) -> Result<(), Fault>
    ensures { Takes result (at_start (plain_reader reader.old) word.now) (plain_reader reader.new) }
{
    if is_goal(word) {
        reader.stage = Stage::Term(Part::Goal);
        return Ok(());
    }
    take_row_term(reader, word)
}

/// Takes a term's number, or the end of the objective.
fn take_goal_term(alloc: Global, reader: &mut Reader, word: &[u8]) -> Result<(), Fault>
    ensures { Takes result (at_goal_term (plain_reader reader.old) word.now) (plain_reader reader.new) }
{
    if let Some(factor) = number(word) {
        reader.stage = Stage::Literal(Part::Goal, factor);
        return Ok(());
    }
    if !is_end(word) {
        return Err(Fault::Wrong);
    }
    let terms = replace(&mut reader.terms, Vec::new(alloc));
    reader.objective = Some(terms);
    reader.stage = Stage::Term(Part::Row);
    Ok(())
}

/// Takes a term's number, or the sign between the sides of a constraint.
fn take_row_term(reader: &mut Reader, word: &[u8]) -> Result<(), Fault>
    ensures { Takes result (at_row_term (plain_reader reader.old) word.now) (plain_reader reader.new) }
{
    if let Some(factor) = number(word) {
        reader.stage = Stage::Literal(Part::Row, factor);
        return Ok(());
    }
    let Some(equal) = relation(word) else {
        return Err(Fault::Wrong);
    };
    reader.stage = Stage::Right(equal);
    Ok(())
}

/// Takes a term's literal.
fn take_literal(reader: &mut Reader, part: Part, factor: i64, word: &[u8]) -> Result<(), Fault>
    ensures { Takes result (at_literal part factor (plain_reader reader.old) word.now) (plain_reader reader.new) }
{
    let Some((negated, var)) = literal(word) else {
        return Err(Fault::Wrong);
    };
    reader.terms.push(OpbTerm {
        factor,
        negated,
        var,
    })?;
    reader.stage = Stage::Term(part);
    Ok(())
}

/// Takes the right side of a constraint.
fn take_right(reader: &mut Reader, equal: bool, word: &[u8]) -> Result<(), Fault>
    ensures { Takes result (at_right equal (plain_reader reader.old) word.now) (plain_reader reader.new) }
{
    let Some(right) = number(word) else {
        return Err(Fault::Wrong);
    };
    reader.stage = Stage::End(equal, right);
    Ok(())
}

/// Takes the end of a constraint.
fn take_end(
    alloc: Global,
    reader: &mut Reader,
    equal: bool,
    right: i64,
    word: &[u8],
) -> Result<(), Fault>
    ensures { Takes result (at_row_end equal right (plain_reader reader.old) word.now) (plain_reader reader.new) }
{
    if !is_end(word) {
        return Err(Fault::Wrong);
    }
    let terms = replace(&mut reader.terms, Vec::new(alloc));
    reader.rows.push(OpbRow {
        terms,
        equal,
        right,
    })?;
    reader.stage = Stage::Term(Part::Row);
    Ok(())
}
