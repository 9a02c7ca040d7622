//! Reads statements, models and parameter texts.

ghost use Rattle.std.specs.Prelude.{◌≡◌, bytes_eq, map};
ghost use Rattle.ep_parse_parts.specs.Cursors.{Gives};
ghost use Rattle.ep_parse_parts.specs.Readers.{looked_up, next_in};
ghost use Rattle.ep_base.specs.declared.operators.Sense.{Sense};
ghost use Rattle.ep_base.specs.declared.places.Place.{Place};
ghost use Rattle.ep_tree.specs.Statements.{objective};
ghost use Rattle.ep_tree.specs.Trees.{ExprTree};
ghost use Rattle.ep_parse_model.specs.TextReaders.{allowed_behind, allowed_statement_from, allows, bracket_names_from, branching_from, full, line_from, model_from, params_from, statement_behind, statement_words, statements_from};
ghost use Rattle.ep_tree.specs.Views.{model_tree, params_tree, statement_tree};

use crate::groups::{expressions, groups, placed_names};
use crate::lettings::letting;
use crate::openings::{Allowed, Opening};
use crate::parts::expression;
use ep_base::{Name, Place, Sense};
use ep_parse_parts::{Cursor, Stop};
use ep_tree::{Model, Params, Statement, StatementKind};
use std::alloc::Global;

/// A model.
#[tactic(auto, unfolding(crate::specs::TextReaders::model_from, ep_tree::specs::Views::model_tree))]
pub(crate) fn model(alloc: Global, cursor: &mut Cursor<'_>) -> Result<Model, Stop>
    ensures read { Gives model_tree result cursor.new (model_from full cursor.old) }
{
    language_line(cursor)?;
    let statements = statements(alloc, Allowed::All, cursor)?;
    Ok(Model { statements })
}

/// A parameter text.
#[tactic(auto, unfolding(crate::specs::TextReaders::params_from, ep_tree::specs::Views::params_tree))]
pub(crate) fn params(alloc: Global, cursor: &mut Cursor<'_>) -> Result<Params, Stop>
    ensures read { Gives params_tree result cursor.new (params_from full cursor.old) }
{
    if !cursor.is_at(b"language") {
        let statements = statements(alloc, Allowed::Lettings, cursor)?;
        return Ok(Params { statements });
    }
    language_line(cursor)?;
    let statements = statements(alloc, Allowed::Lettings, cursor)?;
    Ok(Params { statements })
}

/// The language line: `language ESSENCE' 1.0`.
#[tactic(auto, unfolding(crate::specs::TextReaders::line_from))]
fn language_line(cursor: &mut Cursor<'_>) -> Result<Place, Stop>
    ensures read { Gives (λ place. place) result cursor.new (line_from cursor.old) }
{
    cursor.word(b"language")?;
    cursor.word(b"ESSENCE'")?;
    cursor.number(1)?;
    cursor.word(b".")?;
    cursor.number(0)
}

/// Statements up to the end.
fn statements(
    alloc: Global,
    first: Allowed,
    cursor: &mut Cursor<'_>,
) -> Result<Vec<Statement>, Stop>
    ensures read { Gives (λ statements. map statement_tree statements.items) result cursor.new
        (statements_from full first cursor.old) }
{
    let mut allowed = first;
    let mut statements = Vec::new(alloc);
    loop {
        if cursor.is_empty() {
            return Ok(statements);
        }
        let statement = statement(alloc, allowed, cursor)?;
        allowed = allowed_behind(allowed, &statement);
        statements.push(statement)?;
    }
}

/// A statement that may come.
fn statement(alloc: Global, allowed: Allowed, cursor: &mut Cursor<'_>) -> Result<Statement, Stop>
    ensures read { Gives statement_tree result cursor.new (allowed_statement_from full allowed cursor.old) }
{
    let place = cursor.place();
    let Some(opening) = next_opening(cursor) else {
        return Err(Stop::Wrong);
    };
    if !allows(allowed, opening) {
        return Err(Stop::Wrong);
    }
    cursor.pass();
    statement_behind(alloc, place, opening, cursor)
}

/// What the next token begins.
fn next_opening(cursor: &Cursor<'_>) -> Option<Opening>
    ensures next { result ≡ next_in statement_words cursor.now }
{
    match cursor.word_next() {
        Some(word) => find_opening(word),
        None => None,
    }
}

/// What a word begins.
#[tactic(auto, unfolding(ep_parse_parts::specs::Readers::looked_up))]
fn find_opening(word: &[u8]) -> Option<Opening>
    ensures meant { result ≡ looked_up statement_words word.now }
{
    if is_same(b"given", word) {
        return Some(Opening::Given);
    }
    if is_same(b"find", word) {
        return Some(Opening::Find);
    }
    if is_same(b"letting", word) {
        return Some(Opening::Letting);
    }
    if is_same(b"where", word) {
        return Some(Opening::Where);
    }
    if is_same(b"such", word) {
        return Some(Opening::SuchThat);
    }
    if is_same(b"minimising", word) {
        return Some(Opening::Objective(Sense::Minimising));
    }
    if is_same(b"minimizing", word) {
        return Some(Opening::Objective(Sense::Minimising));
    }
    if is_same(b"maximising", word) {
        return Some(Opening::Objective(Sense::Maximising));
    }
    if is_same(b"maximizing", word) {
        return Some(Opening::Objective(Sense::Maximising));
    }
    if is_same(b"branching", word) {
        return Some(Opening::Branching);
    }
    if is_same(b"heuristic", word) {
        return Some(Opening::Heuristic);
    }
    None
}

/// Whether two words are the same.
fn is_same(word: &[u8], other: &[u8]) -> bool
    ensures same { result ≡ bytes_eq word.now other.now }
{
    word == other
}

/// Whether a statement may come.
fn allows(allowed: Allowed, opening: Opening) -> bool
    ensures may { result ≡ allows allowed opening }
{
    match allowed {
        Allowed::All => true,
        Allowed::NoObjective => match opening {
            Opening::Objective(_) => false,
            _ => true,
        },
        Allowed::Lettings => match opening {
            Opening::Letting => true,
            _ => false,
        },
    }
}

/// Which statements may come behind one.
#[tactic(auto, unfolding(ep_tree::specs::Views::statement_kind_tree))]
fn allowed_behind(allowed: Allowed, statement: &Statement) -> Allowed
    ensures may { result ≡ allowed_behind (statement_tree statement.now) allowed }
{
    match statement.kind {
        StatementKind::Objective(_, _) => allowed_behind_objective(allowed),
        StatementKind::Given(_) | StatementKind::Find(_) => allowed,
        StatementKind::Letting(_, _, _, _) | StatementKind::LettingDomain(_, _, _) => allowed,
        StatementKind::Where(_) | StatementKind::SuchThat(_) => allowed,
        StatementKind::Branching(_) | StatementKind::Heuristic(_) => allowed,
    }
}

/// Which statements may come behind an objective.
fn allowed_behind_objective(allowed: Allowed) -> Allowed
    ensures may { (place : Place) (sense : Sense) (e : ExprTree) →
        result ≡ allowed_behind (objective place sense e) allowed }
{
    match allowed {
        Allowed::All | Allowed::NoObjective => Allowed::NoObjective,
        Allowed::Lettings => Allowed::Lettings,
    }
}

/// A statement behind its first word.
#[tactic(auto, unfolding(crate::specs::TextReaders::statement_behind, ep_tree::specs::Views::statement_kind_tree))]
fn statement_behind(
    alloc: Global,
    place: Place,
    opening: Opening,
    cursor: &mut Cursor<'_>,
) -> Result<Statement, Stop>
    ensures read { Gives statement_tree result cursor.new
        (statement_behind full place opening cursor.old) }
{
    match opening {
        Opening::Given => {
            let groups = groups(alloc, cursor)?;
            Ok(Statement {
                place,
                kind: StatementKind::Given(groups),
            })
        }
        Opening::Find => {
            let groups = groups(alloc, cursor)?;
            Ok(Statement {
                place,
                kind: StatementKind::Find(groups),
            })
        }
        Opening::Letting => letting(alloc, place, cursor),
        Opening::Where => {
            let conditions = expressions(alloc, cursor)?;
            Ok(Statement {
                place,
                kind: StatementKind::Where(conditions),
            })
        }
        Opening::SuchThat => {
            cursor.word(b"that")?;
            let constraints = expressions(alloc, cursor)?;
            Ok(Statement {
                place,
                kind: StatementKind::SuchThat(constraints),
            })
        }
        Opening::Objective(sense) => {
            let aim = expression(alloc, cursor)?;
            Ok(Statement {
                place,
                kind: StatementKind::Objective(sense, aim),
            })
        }
        Opening::Branching => branching(alloc, place, cursor),
        Opening::Heuristic => {
            let text = cursor.name()?;
            let name = Name::new(alloc, text)?;
            Ok(Statement {
                place,
                kind: StatementKind::Heuristic(name),
            })
        }
    }
}

/// A `branching on` statement, behind its first word.
#[tactic(auto, unfolding(crate::specs::TextReaders::branching_from, ep_tree::specs::Views::statement_kind_tree))]
fn branching(alloc: Global, place: Place, cursor: &mut Cursor<'_>) -> Result<Statement, Stop>
    ensures read { Gives statement_tree result cursor.new (branching_from place cursor.old) }
{
    cursor.word(b"on")?;
    cursor.word(b"[")?;
    let names = bracket_names(alloc, cursor)?;
    cursor.word(b"]")?;
    Ok(Statement {
        place,
        kind: StatementKind::Branching(names),
    })
}

/// The names of a branching behind their bracket, or none.
#[tactic(auto, unfolding(crate::specs::TextReaders::bracket_names_from))]
fn bracket_names(alloc: Global, cursor: &mut Cursor<'_>) -> Result<Vec<(Name, Place)>, Stop>
    ensures read { Gives (λ names. names.items) result cursor.new (bracket_names_from cursor.old) }
{
    if cursor.is_at(b"]") {
        return Ok(Vec::new(alloc));
    }
    placed_names(alloc, cursor)
}
