//! Matrices that have a value only where some terms have numbers.
//!
//! It is enough that one scalar of a matrix asks for them: where it has no value, the matrix has none.

ghost use Rattle.std.specs.Prelude.{◌≡◌, ◌∷◌, [], ◌<◌, ℕ, ℤ, List, Option, Some, IfOk, length, map, option_map};
ghost use Rattle.std.specs.List.{All};
ghost use Rattle.ep_eval.specs.Helds.{seen_held};
ghost use Rattle.ep_eval.specs.Walking.{IsWalk, numbers_left};
ghost use Rattle.ep_ground.specs.Nodes.{GroundNode};
ghost use Rattle.ep_ground.specs.Terms.{term_value};
ghost use Rattle.ep_tree.specs.Solutions.{cell_count};
ghost use Rattle.ep_tree.specs.Views.{value_tree};
ghost use Rattle.ep_tree.specs.Values.{single};
ghost use Rattle.ep_unroll.specs.Meanings.{AreTerms, worth};
ghost use Rattle.ep_unroll.specs.PartLists.{HaveTerms, worths};
ghost use Rattle.ep_unroll.specs.Readings.{cells_value, each_from};
ghost use Rattle.ep_unroll.specs.Wholes.{AreCellsBehind, IsWholeOf};

use super::blocks::cells_over;
use super::choices::whole_term;
use super::growing::put;
use super::lefts::{copied, opened_value};
use super::unrolled::Unrolled;
use ep_base::{Memory, Runs};
use ep_eval::{Held, Walk, next_number, walk_of};
use ep_ground::{Arena, Node, Term};
use ep_numbers::listed;
use ep_tree::Value;
use std::alloc::Global;

/// A first part alone.
fn started<'a>(alloc: Global, first: Unrolled<'a>) -> Result<Vec<Unrolled<'a>>, Memory>
    ensures { IfOk result (λ parts. parts.items ≡ first.entry ∷ []) }
{
    let mut parts = Vec::new(alloc);
    parts.push(first)?;
    Ok(parts)
}

/// A first part, and others behind it.
fn copied_behind<'a>(
    alloc: Global,
    first: Unrolled<'a>,
    others: &[Unrolled<'a>],
) -> Result<Vec<Unrolled<'a>>, Memory>
    ensures worths { IfOk result (λ parts. (nodes : List GroundNode) → (numbers : List ℤ)
        → worths nodes numbers parts.items ≡ worth nodes numbers first.entry ∷ worths nodes numbers others.now) }
    ensures terms { IfOk result (λ parts. (count : ℕ) → AreTerms count first.entry → HaveTerms count others.now → HaveTerms count parts.items) }
{
    let mut parts = started(alloc, first)?;
    for other in others {
        let part = copied(alloc, other)?;
        parts.push(part)?;
    }
    Ok(parts)
}

/// A first part, and values behind it, each with its own parts apart.
fn opened_behind<'a>(
    alloc: Global,
    first: Unrolled<'a>,
    values: &[Value],
) -> Result<Vec<Unrolled<'a>>, Memory>
    ensures worths { IfOk result (λ parts. (nodes : List GroundNode) → (numbers : List ℤ)
        → worths nodes numbers parts.items ≡ worth nodes numbers first.entry ∷ map (λ v. Some (value_tree v)) values.now) }
    ensures terms { IfOk result (λ parts. (count : ℕ) → AreTerms count first.entry → HaveTerms count parts.items) }
{
    let mut parts = started(alloc, first)?;
    for value in values {
        let part = opened_value(alloc, value)?;
        parts.push(part)?;
    }
    Ok(parts)
}

/// A first part, and cells behind it: those of a part for each number that is left of a walk.
fn cells_from<'a>(
    alloc: Global,
    first: Unrolled<'a>,
    start: u64,
    later: Walk<'_>,
    inner: &'a [Runs],
) -> Result<Vec<Unrolled<'a>>, Memory>
    requires { IsWalk later }
    ensures worths { IfOk result (λ parts. (nodes : List GroundNode) → (numbers : List ℤ) → worths nodes numbers parts.items
        ≡ worth nodes numbers first.entry ∷ each_from (cells_value numbers inner.now) (cell_count inner.now) start (numbers_left later.entry)) }
    ensures terms { IfOk result (λ parts. (count : ℕ) → AreTerms count first.entry → HaveTerms count parts.items) }
{
    let each = cells_over(inner)?;
    let mut parts = started(alloc, first)?;
    let mut cell = start;
    let mut walk = later;
    while let Some((_number, behind)) = next_number(walk) {
        parts.push(Unrolled::Cells(cell, inner))?;
        let Some(more) = cell.checked_add(each) else {
            return Err(Memory);
        };
        cell = more;
        walk = behind;
    }
    Ok(parts)
}

/// A first part in place of that of a block, and the others of the block behind it. Of a block without parts, it ends as
/// want of memory.
fn cells_behind<'a>(
    alloc: Global,
    first: Unrolled<'a>,
    start: u64,
    own: &Runs,
    inner: &'a [Runs],
) -> Result<Vec<Unrolled<'a>>, Memory>
    ensures { IfOk result (λ parts. AreCellsBehind first.entry start own.now inner.now parts.items) }
{
    let each = cells_over(inner)?;
    let Some((_index, later)) = next_number(walk_of(own.runs())) else {
        return Err(Memory);
    };
    let Some(second) = start.checked_add(each) else {
        return Err(Memory);
    };
    cells_from(alloc, first, second, later, inner)
}

/// A term's number, where all these others have values too. A term without a node, which nothing unrolled has, ends as want
/// of memory.
fn term_guarded<'a>(
    arena: &mut Arena,
    term: Term,
    others: Vec<Term>,
) -> Result<Unrolled<'a>, Memory>
    requires { All (λ t. t < length arena.old) others.items }
    ensures { IfOk result (IsWholeOf arena.old arena.new others.items (λ numbers. option_map single (term_value arena.old numbers term))) }
{
    let count = arena.len();
    let node = u64::from(term.number());
    if node >= count {
        return Err(Memory);
    }
    let whole = whole_term(arena, term, others)?;
    Ok(Unrolled::Number(whole))
}

/// A number, where all these others have values too.
fn number_guarded<'a>(
    arena: &mut Arena,
    number: i64,
    others: Vec<Term>,
) -> Result<Unrolled<'a>, Memory>
    requires { All (λ t. t < length arena.old) others.items }
    ensures { IfOk result (IsWholeOf arena.old arena.new others.items (λ numbers. Some (single number))) }
{
    let term = put(arena, Node::Const(number))?;
    let whole = whole_term(arena, term, others)?;
    Ok(Unrolled::Number(whole))
}

/// A cell's number, where all these others have values too.
fn cell_guarded<'a>(arena: &mut Arena, cell: u64, others: Vec<Term>) -> Result<Unrolled<'a>, Memory>
    requires { All (λ t. t < length arena.old) others.items }
    ensures { IfOk result (IsWholeOf arena.old arena.new others.items (λ numbers. cells_value numbers [] cell)) }
{
    let term = put(arena, Node::Cell(cell))?;
    let whole = whole_term(arena, term, others)?;
    Ok(Unrolled::Number(whole))
}

/// A value, where all these others have values too. Of a matrix without scalars, it ends as want of memory.
fn value_guarded<'a>(
    alloc: Global,
    arena: &mut Arena,
    value: &Value,
    others: Vec<Term>,
) -> Result<Unrolled<'a>, Memory>
    requires { All (λ t. t < length arena.old) others.items }
    ensures { IfOk result (IsWholeOf arena.old arena.new others.items (λ numbers. Some (value_tree value.now))) }
{
    match value {
        Value::Number(number) => number_guarded(arena, *number, others),
        Value::Matrix(own, values) => {
            let Some((part, later)) = values.split_first() else {
                return Err(Memory);
            };
            let first = value_guarded(alloc, arena, part, others)?;
            let parts = opened_behind(alloc, first, later)?;
            let mut indices = Vec::new(alloc);
            indices.extend_from_slice(own)?;
            Ok(Unrolled::Matrix(indices, parts))
        }
    }
}

/// What was evaluated, where all these others have values too.
fn seen_guarded<'a>(
    alloc: Global,
    arena: &mut Arena,
    seen: &Option<Held<'_>>,
    others: Vec<Term>,
) -> Result<Unrolled<'a>, Memory>
    requires { All (λ t. t < length arena.old) others.items }
    ensures { IfOk result (IsWholeOf arena.old arena.new others.items (λ numbers. seen_held seen.now)) }
{
    match seen {
        Some(held) => match held {
            Held::Number(number) => number_guarded(arena, *number, others),
            Held::Lent(value) => value_guarded(alloc, arena, value, others),
            Held::Made(value) => value_guarded(alloc, arena, value, others),
        },
        None => Ok(Unrolled::Fixed(None)),
    }
}

/// The cells of a block, where all these others have values too.
fn cells_guarded<'a>(
    alloc: Global,
    arena: &mut Arena,
    start: u64,
    domains: &'a [Runs],
    others: Vec<Term>,
) -> Result<Unrolled<'a>, Memory>
    requires { All (λ t. t < length arena.old) others.items }
    ensures { IfOk result (IsWholeOf arena.old arena.new others.items (λ numbers. cells_value numbers domains.now start)) }
{
    match domains.split_first() {
        Some((own, inner)) => {
            let first = cells_guarded(alloc, arena, start, inner, others)?;
            let parts = cells_behind(alloc, first, start, own, inner)?;
            let indices = listed(alloc, own)?;
            Ok(Unrolled::Matrix(indices, parts))
        }
        None => cell_guarded(arena, start, others),
    }
}

/// What was unrolled, where all these others have values too. Of a matrix without scalars, it ends as want of memory.
pub fn guarded<'a>(
    alloc: Global,
    arena: &mut Arena,
    known: &Unrolled<'a>,
    others: Vec<Term>,
) -> Result<Unrolled<'a>, Memory>
    requires { All (λ t. t < length arena.old) others.items }
    ensures { IfOk result (λ x. AreTerms (length arena.old) known.now
        → IsWholeOf arena.old arena.new others.items (λ numbers. worth arena.old numbers known.now) x) }
{
    match known {
        Unrolled::Number(term) => term_guarded(arena, *term, others),
        Unrolled::Cells(start, domains) => cells_guarded(alloc, arena, *start, domains, others),
        Unrolled::Fixed(seen) => seen_guarded(alloc, arena, seen, others),
        Unrolled::Matrix(own, inner) => {
            let Some((part, later)) = inner.split_first() else {
                return Err(Memory);
            };
            let first = guarded(alloc, arena, part, others)?;
            let parts = copied_behind(alloc, first, later)?;
            let mut indices = Vec::new(alloc);
            indices.extend_from_slice(own)?;
            Ok(Unrolled::Matrix(indices, parts))
        }
    }
}
