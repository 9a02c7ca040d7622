//! What indices leave of what was unrolled, where no decision variable stands in them.

ghost use Rattle.std.specs.Prelude.{◌≡◌, ◌∷◌, ℕ, ℤ, List, Option, Some, IfOk, length, map};
ghost use Rattle.ep_eval.specs.Helds.{seen_held};
ghost use Rattle.ep_ground.specs.Nodes.{GroundNode};
ghost use Rattle.ep_tree.specs.Environments as names;
ghost use Rattle.ep_tree.specs.Trees.{ExprTree};
ghost use Rattle.ep_tree.specs.Values.{any_index, index_in, indices_in};
ghost use Rattle.ep_tree.specs.Views.{value_tree};
ghost use Rattle.ep_tree.specs.declared.syntax.Expr.{Expr as EachExpr};
ghost use Rattle.ep_unroll.specs.Lefts.{IsLeft, LeftMeans};
ghost use Rattle.ep_unroll.specs.Meanings.{AreTerms, Means, worth};
ghost use Rattle.ep_unroll.specs.PartLists.{HaveTerms};
ghost use Rattle.ep_unroll.specs.PartReads.{parts_worth};
ghost use Rattle.ep_unroll.specs.Picks.{AreSlotsOf, slot_index};
ghost use Rattle.ep_unroll.specs.Readings.{Numbering, cells_value};

use super::blocks::{Block, block_at};
use super::entries::part_with;
use super::needs::needed_terms;
use super::reads::{cells_opened, leaves_all};
use super::slots::Slot;
use super::unrolled::Unrolled;
use super::wholes::guarded;
use ep_base::Memory;
use ep_eval::Held;
use ep_ground::Arena;
use ep_tree::Value;
use std::alloc::Global;

/// A value with its parts apart. Linear in its scalars.
pub fn opened_value<'a>(alloc: Global, value: &Value) -> Result<Unrolled<'a>, Memory>
    ensures worth { IfOk result (λ x. (nodes : List GroundNode) → (numbers : List ℤ) → worth nodes numbers x ≡ Some (value_tree value.now)) }
    ensures terms { IfOk result (λ x. (count : ℕ) → AreTerms count x) }
{
    match value {
        Value::Number(number) => Ok(Unrolled::Fixed(Some(Held::Number(*number)))),
        Value::Matrix(own, parts) => {
            let mut indices = Vec::new(alloc);
            indices.extend_from_slice(own)?;
            let mut inner = Vec::new(alloc);
            for part in parts {
                let opened = opened_value(alloc, part)?;
                inner.push(opened)?;
            }
            Ok(Unrolled::Matrix(indices, inner))
        }
    }
}

/// What was evaluated, with its parts apart.
pub fn opened_seen<'a>(alloc: Global, seen: &Option<Held<'_>>) -> Result<Unrolled<'a>, Memory>
    ensures worth { IfOk result (λ x. (nodes : List GroundNode) → (numbers : List ℤ) → worth nodes numbers x ≡ seen_held seen.now) }
    ensures terms { IfOk result (λ x. (count : ℕ) → AreTerms count x) }
{
    match seen {
        Some(held) => match held {
            Held::Number(number) => Ok(Unrolled::Fixed(Some(Held::Number(*number)))),
            Held::Lent(value) => opened_value(alloc, value),
            Held::Made(value) => opened_value(alloc, value),
        },
        None => Ok(Unrolled::Fixed(None)),
    }
}

/// What was unrolled once more. Linear in its parts.
pub fn copied<'a>(alloc: Global, known: &Unrolled<'a>) -> Result<Unrolled<'a>, Memory>
    ensures worth { IfOk result (λ x. (nodes : List GroundNode) → (numbers : List ℤ) → worth nodes numbers x ≡ worth nodes numbers known.now) }
    ensures terms { IfOk result (λ x. (count : ℕ) → AreTerms count known.now → AreTerms count x) }
{
    match known {
        Unrolled::Number(term) => Ok(Unrolled::Number(*term)),
        Unrolled::Cells(first, domains) => Ok(Unrolled::Cells(*first, domains)),
        Unrolled::Fixed(seen) => opened_seen(alloc, seen),
        Unrolled::Matrix(own, parts) => {
            let mut indices = Vec::new(alloc);
            indices.extend_from_slice(own)?;
            let mut inner = Vec::new(alloc);
            for part in parts {
                let copy = copied(alloc, part)?;
                inner.push(copy)?;
            }
            Ok(Unrolled::Matrix(indices, inner))
        }
    }
}

/// What indices leave of what was unrolled. Linear in its parts.
#[cycle(leaving)]
pub fn left_of<'a>(
    alloc: Global,
    known: &Unrolled<'a>,
    indices: &[Option<i64>],
) -> Result<Unrolled<'a>, Memory>
    ensures worth { IfOk result (IsLeft (λ nodes numbers. worth nodes numbers known.now) (indices_in indices.now)) }
    ensures terms { IfOk result (λ x. (count : ℕ) → AreTerms count known.now → AreTerms count x) }
{
    match indices.split_first() {
        Some((index, rest)) => match known {
            // A number has no part.
            Unrolled::Number(_) => Ok(Unrolled::Fixed(None)),
            Unrolled::Cells(first, domains) => {
                let block = Block {
                    first: *first,
                    domains,
                };
                left_of_cells(alloc, block, *index, rest)
            }
            Unrolled::Fixed(seen) => left_of_seen(alloc, seen, *index, rest),
            Unrolled::Matrix(own, parts) => left_in(alloc, own, parts, *index, rest),
        },
        None => copied(alloc, known),
    }
}

/// The same of cells.
#[cycle(leaving)]
fn left_of_cells<'a>(
    alloc: Global,
    block: Block<'a>,
    index: Option<i64>,
    rest: &[Option<i64>],
) -> Result<Unrolled<'a>, Memory>
    ensures worth { IfOk result (IsLeft (λ nodes numbers. cells_value numbers block.entry.domains.now block.entry.first) (index_in index ∷ indices_in rest.now)) }
    ensures terms { IfOk result (λ x. (count : ℕ) → AreTerms count x) }
{
    match index {
        Some(stated) => {
            let part = block_at(block, stated)?;
            match part {
                Some(inner) => {
                    let cells = Unrolled::Cells(inner.first, inner.domains);
                    left_of(alloc, &cells, rest)
                }
                None => Ok(Unrolled::Fixed(None)),
            }
        }
        None => {
            if leaves_all(block, rest) {
                return Ok(Unrolled::Cells(block.first, block.domains));
            }
            let split = block.domains.split_first();
            match split {
                Some((own, inner)) => {
                    let whole = cells_opened(alloc, block.first, own, inner)?;
                    match &whole {
                        Unrolled::Matrix(indices, parts) => {
                            left_of_each(alloc, indices, parts, rest)
                        }
                        _ => Err(Memory),
                    }
                }
                // A number has no part.
                None => Ok(Unrolled::Fixed(None)),
            }
        }
    }
}

/// The same of what was evaluated. Of what has no value nothing is left; where it is a number, it ends as want of memory: a
/// number has no part.
#[cycle(leaving)]
fn left_of_seen<'a>(
    alloc: Global,
    seen: &Option<Held<'a>>,
    index: Option<i64>,
    rest: &[Option<i64>],
) -> Result<Unrolled<'a>, Memory>
    ensures worth { IfOk result (IsLeft (λ nodes numbers. seen_held seen.now) (index_in index ∷ indices_in rest.now)) }
    ensures terms { IfOk result (λ x. (count : ℕ) → AreTerms count x) }
{
    if seen.is_none() {
        return Ok(Unrolled::Fixed(None));
    }
    let known = opened_seen(alloc, seen)?;
    match &known {
        Unrolled::Matrix(own, parts) => left_in(alloc, own, parts, index, rest),
        _ => Err(Memory),
    }
}

/// The same of a matrix of these parts.
#[cycle(leaving)]
fn left_in<'a>(
    alloc: Global,
    own: &[i64],
    parts: &[Unrolled<'a>],
    index: Option<i64>,
    rest: &[Option<i64>],
) -> Result<Unrolled<'a>, Memory>
    ensures worth { IfOk result (IsLeft (λ nodes numbers. parts_worth own.now nodes numbers parts.now) (index_in index ∷ indices_in rest.now)) }
    ensures terms { IfOk result (λ x. (count : ℕ) → HaveTerms count parts.now → AreTerms count x) }
{
    match index {
        Some(stated) => left_at(alloc, own, parts, stated, rest),
        None => left_of_each(alloc, own, parts, rest),
    }
}

/// What indices leave of the part with an index.
#[cycle(leaving)]
fn left_at<'a>(
    alloc: Global,
    own: &[i64],
    parts: &[Unrolled<'a>],
    index: i64,
    rest: &[Option<i64>],
) -> Result<Unrolled<'a>, Memory>
    ensures worth { IfOk result (IsLeft (λ nodes numbers. parts_worth own.now nodes numbers parts.now) (index_in (Some index) ∷ indices_in rest.now)) }
    ensures terms { IfOk result (λ x. (count : ℕ) → HaveTerms count parts.now → AreTerms count x) }
{
    match part_with(own, parts, index) {
        Some(part) => left_of(alloc, part, rest),
        None => Ok(Unrolled::Fixed(None)),
    }
}

/// What indices leave of each part.
#[cycle(leaving)]
fn left_of_each<'a>(
    alloc: Global,
    own: &[i64],
    parts: &[Unrolled<'a>],
    rest: &[Option<i64>],
) -> Result<Unrolled<'a>, Memory>
    ensures worth { IfOk result (IsLeft (λ nodes numbers. parts_worth own.now nodes numbers parts.now) (any_index ∷ indices_in rest.now)) }
    ensures terms { IfOk result (λ x. (count : ℕ) → HaveTerms count parts.now → AreTerms count x) }
{
    let mut indices = Vec::new(alloc);
    indices.extend_from_slice(own)?;
    let mut lefts = Vec::new(alloc);
    for part in parts {
        let left = left_of(alloc, part, rest)?;
        lefts.push(left)?;
    }
    Ok(Unrolled::Matrix(indices, lefts))
}

/// The index in a place. Where a decision variable stands in it, it ends as want of memory.
fn decided_index(slot: Slot) -> Result<Option<i64>, Memory>
    ensures { IfOk result (λ index. (nodes : List GroundNode) → (numbers : List ℤ) → slot_index nodes numbers slot ≡ Some (index_in index)) }
{
    match slot {
        Slot::Every => Ok(None),
        Slot::At(index) => Ok(Some(index)),
        Slot::Open(_) => Err(Memory),
    }
}

/// The indices in places. Where a decision variable stands in one, it ends as want of memory.
fn decided_indices(alloc: Global, slots: &[Slot]) -> Result<Vec<Option<i64>>, Memory>
    ensures { IfOk result (λ indices. (nodes : List GroundNode) → (numbers : List ℤ) → map (slot_index nodes numbers) slots.now ≡ map Some (indices_in indices.items)) }
{
    let mut indices = Vec::new(alloc);
    for slot in slots {
        let index = decided_index(*slot)?;
        indices.push(index)?;
    }
    Ok(indices)
}

/// What a read leaves of what was unrolled. Where that may lack a value, what is left has none without it either; of what
/// has no scalars, it then ends as want of memory.
pub fn left_matrix<'a>(
    alloc: Global,
    arena: &mut Arena,
    count: u64,
    known: &Unrolled<'a>,
    slots: &[Slot],
) -> Result<Unrolled<'a>, Memory>
    requires { AreTerms (length arena.old) known.now }
    ensures { (n : Numbering) → (env : names.Env) → (nodes : List GroundNode) → (m : ExprTree) → (indices : List (Option EachExpr)) → n.count ≡ count
        → Means n env nodes arena.old m known.now → AreSlotsOf n env nodes arena.old indices slots.now → IfOk result (LeftMeans n env nodes arena.new m indices) }
{
    let others = needed_terms(alloc, arena, count, known)?;
    let indices = decided_indices(alloc, slots)?;
    let left = left_of(alloc, known, &indices)?;
    if others.len() == 0 {
        return Ok(left);
    }
    guarded(alloc, arena, &left, others)
}
