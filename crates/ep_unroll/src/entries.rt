//! The scalars among which a read of what was unrolled chooses.

ghost use Rattle.std.specs.Prelude.{◌≡◌, ◌∷◌, [], ℕ, ℤ, List, None, true, IfOk, length, option_map};
ghost use Rattle.ep_ground.specs.Nodes.{GroundNode};
ghost use Rattle.ep_tree.specs.Evaluation.{number_in};
ghost use Rattle.ep_tree.specs.Values.{single};
ghost use Rattle.ep_unroll.specs.Meanings.{AreTerms, worth};
ghost use Rattle.ep_unroll.specs.PartLists.{HaveTerms};
ghost use Rattle.ep_unroll.specs.Picks.{AreEntries};
ghost use Rattle.ep_unroll.specs.PartReads as defined;
ghost use Rattle.ep_unroll.specs.PartReads.{parts_worth};
ghost use Rattle.ep_unroll.specs.declared.slots.Slot.TheVariants as place;

use super::blocks::{Block, block_at, is_index};
use super::chosen_values::{ascend, part_seen};
use super::lefts::opened_seen;
use super::listing::push_all_behind;
use super::numbers::scalar_term;
use super::picks::{Entries, no_entries, one_entry, push_terms};
use super::reads::cells_opened;
use super::slots::Slot;
use super::unrolled::Unrolled;
use ep_base::Memory;
use ep_eval::{Held, number_of};
use ep_ground::Arena;
use std::alloc::Global;

/// The part with an index, if there is one. Linear in the parts.
pub fn part_with<'p, 'a>(
    own: &[i64],
    parts: &'p [Unrolled<'a>],
    index: i64,
) -> Option<&'p Unrolled<'a>>
    ensures { option_map (λ part. part.now) result ≡ defined.part_with own.now parts.now index }
{
    let count = parts.len();
    for (place, own_index) in own.iter().enumerate() {
        if place >= count {
            return None;
        }
        if is_index(index, *own_index) {
            return Some(&parts[place]);
        }
    }
    None
}

/// Whether nothing has a value.
fn is_nothing(known: &Unrolled<'_>) -> bool
    ensures { result ≡ true → (nodes : List GroundNode) → (numbers : List ℤ) → worth nodes numbers known.now ≡ None }
{
    match known {
        Unrolled::Fixed(seen) => match seen {
            Some(_) => false,
            None => true,
        },
        _ => false,
    }
}

/// Whether what was unrolled is a number, where it has a value.
fn is_scalar(known: &Unrolled<'_>) -> bool
    ensures { result ≡ true → (nodes : List GroundNode) → (numbers : List ℤ)
        → worth nodes numbers known.now ≡ option_map single (number_in (worth nodes numbers known.now)) }
{
    match known {
        Unrolled::Number(_) => true,
        Unrolled::Cells(_, domains) => match domains.split_first() {
            Some(_) => false,
            None => true,
        },
        Unrolled::Fixed(seen) => number_of(seen).is_some(),
        Unrolled::Matrix(_, _) => false,
    }
}

/// The entry of a number. Where indices are left out it ends as want of memory.
fn scalar_entry(alloc: Global, arena: &mut Arena, known: &Unrolled<'_>) -> Result<Entries, Memory>
    ensures { IfOk result (λ es. AreTerms (length arena.old) known.now
        → AreEntries arena.old arena.new [] (λ numbers. worth arena.old numbers known.now) es.keys.items es.terms.items) }
{
    if !is_scalar(known) {
        return Err(Memory);
    }
    let term = scalar_term(arena, known)?;
    one_entry(alloc, term)
}

/// One dimension of what was unrolled as parts, where it has any.
fn opened<'a>(alloc: Global, known: &Unrolled<'a>) -> Result<Unrolled<'a>, Memory>
    ensures worth { IfOk result (λ x. (nodes : List GroundNode) → (numbers : List ℤ) → worth nodes numbers x ≡ worth nodes numbers known.now) }
    ensures terms { IfOk result (λ x. (count : ℕ) → AreTerms count known.now → AreTerms count x) }
{
    match known {
        Unrolled::Number(term) => Ok(Unrolled::Number(*term)),
        Unrolled::Cells(first, domains) => match domains.split_first() {
            Some((own, inner)) => cells_opened(alloc, *first, own, inner),
            None => Ok(Unrolled::Cells(*first, domains)),
        },
        Unrolled::Fixed(seen) => opened_seen(alloc, seen),
        // Its parts stand apart already.
        Unrolled::Matrix(_, _) => Err(Memory),
    }
}

/// The entries of what was unrolled. Where `..` stands, or indices are left out, it ends as want of memory.
#[cycle(opening)]
pub fn known_entries(
    alloc: Global,
    arena: &mut Arena,
    known: &Unrolled<'_>,
    slots: &[Slot],
) -> Result<Entries, Memory>
    ensures { IfOk result (λ es. AreTerms (length arena.old) known.now
        → AreEntries arena.old arena.new slots.now (λ numbers. worth arena.old numbers known.now) es.keys.items es.terms.items) }
{
    if is_nothing(known) {
        return Ok(no_entries(alloc));
    }
    match slots.split_first() {
        Some((slot, rest)) => match slot {
            Slot::Every => Err(Memory),
            Slot::At(index) => entries_at(alloc, arena, known, *index, rest),
            Slot::Open(_) => entries_under(alloc, arena, known, rest),
        },
        None => scalar_entry(alloc, arena, known),
    }
}

/// The entries of the part with an index.
#[cycle(opening)]
fn entries_at(
    alloc: Global,
    arena: &mut Arena,
    known: &Unrolled<'_>,
    index: i64,
    rest: &[Slot],
) -> Result<Entries, Memory>
    ensures { IfOk result (λ es. AreTerms (length arena.old) known.now
        → AreEntries arena.old arena.new (place.At index ∷ rest.now) (λ numbers. worth arena.old numbers known.now) es.keys.items es.terms.items) }
{
    match known {
        Unrolled::Number(_) => Ok(no_entries(alloc)),
        Unrolled::Cells(first, domains) => {
            let block = Block {
                first: *first,
                domains,
            };
            let cells = block_at(block, index)?;
            match cells {
                Some(inner) => {
                    let part = Unrolled::Cells(inner.first, inner.domains);
                    known_entries(alloc, arena, &part, rest)
                }
                None => Ok(no_entries(alloc)),
            }
        }
        Unrolled::Fixed(seen) => {
            let value = part_seen(seen, index);
            match value {
                Some(own) => {
                    let part = Unrolled::Fixed(Some(Held::Lent(own)));
                    known_entries(alloc, arena, &part, rest)
                }
                None => Ok(no_entries(alloc)),
            }
        }
        Unrolled::Matrix(own, parts) => {
            let found = part_with(own, parts, index);
            match found {
                Some(part) => known_entries(alloc, arena, part, rest),
                None => Ok(no_entries(alloc)),
            }
        }
    }
}

/// The entries of the parts, where the first index has decision variables. Of a number it ends as want of memory: a number
/// has no part.
#[cycle(opening)]
fn entries_under(
    alloc: Global,
    arena: &mut Arena,
    known: &Unrolled<'_>,
    rest: &[Slot],
) -> Result<Entries, Memory>
    ensures { (t : ℕ) → IfOk result (λ es. AreTerms (length arena.old) known.now
        → AreEntries arena.old arena.new (place.Open t ∷ rest.now) (λ numbers. worth arena.old numbers known.now) es.keys.items es.terms.items) }
{
    match known {
        Unrolled::Matrix(own, parts) => entries_of_each(alloc, arena, own, parts, rest),
        _ => {
            let whole = opened(alloc, known)?;
            match &whole {
                Unrolled::Matrix(own, parts) => entries_of_each(alloc, arena, own, parts, rest),
                _ => Err(Memory),
            }
        }
    }
}

/// The entries of each part. Where indices don't ascend it ends as want of memory: those of matrices do.
#[cycle(opening)]
fn entries_of_each(
    alloc: Global,
    arena: &mut Arena,
    own: &[i64],
    parts: &[Unrolled<'_>],
    rest: &[Slot],
) -> Result<Entries, Memory>
    ensures { (t : ℕ) → IfOk result (λ es. HaveTerms (length arena.old) parts.now
        → AreEntries arena.old arena.new (place.Open t ∷ rest.now) (λ numbers. parts_worth own.now arena.old numbers parts.now) es.keys.items es.terms.items) }
{
    if !ascend(own) {
        return Err(Memory);
    }
    let count = parts.len();
    let mut keys = Vec::new(alloc);
    let mut terms = Vec::new(alloc);
    for (place, number) in own.iter().enumerate() {
        // A matrix has as many parts as indices.
        if place >= count {
            return Err(Memory);
        }
        let entries = known_entries(alloc, arena, &parts[place], rest)?;
        push_all_behind(alloc, &mut keys, *number, &entries.keys)?;
        push_terms(&mut terms, &entries.terms)?;
    }
    Ok(Entries { keys, terms })
}
