//! What has to have a value so that a matrix has one.

ghost use Rattle.std.specs.Prelude.{◌≡◌, ◌+◌, ◌<◌, ◌≤◌, true, ℤ, List, IfOk, is_some, length};
ghost use Rattle.std.specs.List.{All};
ghost use Rattle.ep_eval.specs.Helds.{seen_held};
ghost use Rattle.ep_ground.specs.Nodes.{GroundNode};
ghost use Rattle.ep_tree.specs.Evaluation.{number_in};
ghost use Rattle.ep_tree.specs.Solutions.{cell_count};
ghost use Rattle.ep_unroll.specs.Meanings.{AreTerms, worth};
ghost use Rattle.ep_unroll.specs.Needs.{AreNeeded, ArePartial, ArePartialScalars};
ghost use Rattle.ep_unroll.specs.PartLists.{HaveTerms};
ghost use Rattle.ep_unroll.specs.Readings.{cells_value};

use super::blocks::cells_over;
use super::flattening::flat_scalars;
use super::growing::put;
use super::numbers::scalar_term;
use super::totals::is_total;
use super::unrolled::Unrolled;
use ep_base::{Memory, Runs};
use ep_eval::{Held, number_of};
use ep_ground::{Arena, Node, Term};
use std::alloc::Global;

/// Those of some terms that may lack a value.
pub fn partial_terms(
    alloc: Global,
    arena: &Arena,
    count: u64,
    terms: &[Term],
) -> Result<Vec<Term>, Memory>
    requires { All (λ t. t < length arena.now) terms.now }
    ensures { IfOk result (λ us. ArePartial arena.now count terms.now us.items) }
{
    let mut partial = Vec::new(alloc);
    for term in terms {
        if is_total(arena, count, *term) {
            continue;
        }
        partial.push(*term)?;
    }
    Ok(partial)
}

/// Whether all cells over index domains are among so many cells, where the first of them has this number.
fn are_there(count: u64, first: u64, domains: &[Runs]) -> Result<bool, Memory>
    ensures { IfOk result (λ there. there ≡ true → first + cell_count domains.now ≤ count) }
{
    let over = cells_over(domains)?;
    let Some(end) = first.checked_add(over) else {
        return Err(Memory);
    };
    Ok(end <= count)
}

/// What cells need: nothing. Where they aren't among so many, it ends as want of memory: those of decision variables are.
fn cells_need(alloc: Global, count: u64, first: u64, domains: &[Runs]) -> Result<Vec<Term>, Memory>
    ensures { (nodes : List GroundNode) → IfOk result (λ us. AreNeeded nodes nodes count (λ numbers. cells_value numbers domains.now first) us.items) }
{
    let there = are_there(count, first, domains)?;
    if !there {
        return Err(Memory);
    }
    Ok(Vec::new(alloc))
}

/// What a value needs that was evaluated; where there is none, what has no value.
fn seen_needs(
    alloc: Global,
    arena: &mut Arena,
    count: u64,
    seen: &Option<Held<'_>>,
) -> Result<Vec<Term>, Memory>
    ensures { IfOk result (λ us. AreNeeded arena.old arena.new count (λ numbers. seen_held seen.now) us.items) }
{
    let mut terms = Vec::new(alloc);
    match seen {
        Some(_) => Ok(terms),
        None => {
            let none = put(arena, Node::Undefined)?;
            terms.push(none)?;
            Ok(terms)
        }
    }
}

/// Whether a scalar is a number without decision variables.
fn is_number(part: &Unrolled<'_>) -> bool
    ensures { result ≡ true → (nodes : List GroundNode) → (numbers : List ℤ) → is_some (number_in (worth nodes numbers part.now)) ≡ true }
{
    match part {
        Unrolled::Fixed(seen) => number_of(seen).is_some(),
        _ => false,
    }
}

/// Those of some scalars that may lack a value, as terms. A number costs no node.
fn partial_scalars(
    alloc: Global,
    arena: &mut Arena,
    count: u64,
    parts: &[Unrolled<'_>],
) -> Result<Vec<Term>, Memory>
    requires { HaveTerms (length arena.old) parts.now }
    ensures { IfOk result (λ us. ArePartialScalars arena.old arena.new count parts.now us.items) }
{
    let mut partial = Vec::new(alloc);
    for part in parts {
        if is_number(part) {
            continue;
        }
        let term = scalar_term(arena, part)?;
        if is_total(arena, count, term) {
            continue;
        }
        partial.push(term)?;
    }
    Ok(partial)
}

/// What a matrix needs that was unrolled: its scalars that may lack a value.
fn scalars_need(
    alloc: Global,
    arena: &mut Arena,
    count: u64,
    known: &Unrolled<'_>,
) -> Result<Vec<Term>, Memory>
    requires { AreTerms (length arena.old) known.now }
    ensures { IfOk result (λ us. AreNeeded arena.old arena.new count (λ numbers. worth arena.old numbers known.now) us.items) }
{
    let all = flat_scalars(alloc, known)?;
    partial_scalars(alloc, arena, count, &all)
}

/// The terms that have values exactly where what was unrolled has one.
pub fn needed_terms(
    alloc: Global,
    arena: &mut Arena,
    count: u64,
    known: &Unrolled<'_>,
) -> Result<Vec<Term>, Memory>
    requires { AreTerms (length arena.old) known.now }
    ensures { IfOk result (λ us. AreNeeded arena.old arena.new count (λ numbers. worth arena.old numbers known.now) us.items) }
{
    match known {
        Unrolled::Number(_) => scalars_need(alloc, arena, count, known),
        Unrolled::Cells(first, domains) => cells_need(alloc, count, *first, domains),
        Unrolled::Fixed(seen) => seen_needs(alloc, arena, count, seen),
        Unrolled::Matrix(_, _) => scalars_need(alloc, arena, count, known),
    }
}
