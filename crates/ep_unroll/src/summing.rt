//! Sums of what was unrolled. Its numbers are gathered in one, and cost no node each.

ghost use Rattle.std.specs.Prelude.{◌≡◌, ◌<◌, ◌+ℤ◌, ℤ, List, IfOk, IfSome, Some, length, map, option_map};
ghost use Rattle.ep_base.specs.Numbers.{sum_of};
ghost use Rattle.ep_base.specs.Reads.{all_there};
ghost use Rattle.ep_base.specs.declared.places.Place.{Place};
ghost use Rattle.ep_ground.specs.Nodes.{GroundNode};
ghost use Rattle.ep_tree.specs.Environments as names;
ghost use Rattle.ep_tree.specs.Evaluation.{number_in};
ghost use Rattle.ep_tree.specs.Trees.{ExprTree, folded};
ghost use Rattle.ep_tree.specs.declared.syntax.FoldOp.{FoldOp as EachFold};
ghost use Rattle.ep_unroll.specs.Meanings.{AreTerms, IsTermOf, Means, worth};
ghost use Rattle.ep_unroll.specs.Numbers.{HasNumber};
ghost use Rattle.ep_unroll.specs.PartLists.{HaveTerms};
ghost use Rattle.ep_unroll.specs.Readings.{Numbering};
ghost use Rattle.ep_unroll.specs.Summing.{AddsNumber};

use super::flattening::flat_scalars;
use super::growing::put;
use super::numbers::scalar_term;
use super::sums::added;
use super::unrolled::Unrolled;
use ep_base::Memory;
use ep_eval::number_of;
use ep_ground::{Arena, Node, Term};
use ep_numbers::is_far_word;
use std::alloc::Global;

/// The sum of two numbers, where it is near enough to 0 to stand in a node.
fn near_sum(one: i64, other: i64) -> Option<i64>
    ensures { IfSome result (λ sum. sum ≡ one +ℤ other) }
{
    let Some(sum) = one.checked_add(other) else {
        return None;
    };
    if is_far_word(sum) {
        return None;
    }
    Some(sum)
}

/// One number more. Where it takes the sum of the numbers too far from 0, that becomes a term.
fn add_number(
    arena: &mut Arena,
    terms: &mut Vec<Term>,
    constant: i64,
    number: i64,
) -> Result<i64, Memory>
    ensures { IfOk result (λ sum. AddsNumber arena.old arena.new terms.old.items terms.new.items constant sum (λ numbers. Some number)) }
{
    match near_sum(constant, number) {
        Some(sum) => Ok(sum),
        None => {
            let term = put(arena, Node::Const(constant))?;
            terms.push(term)?;
            Ok(number)
        }
    }
}

/// The same of a number that there may be.
fn add_known(
    arena: &mut Arena,
    terms: &mut Vec<Term>,
    constant: i64,
    number: Option<i64>,
) -> Result<i64, Memory>
    ensures { IfOk result (λ sum. AddsNumber arena.old arena.new terms.old.items terms.new.items constant sum (λ numbers. number)) }
{
    match number {
        Some(known) => add_number(arena, terms, constant, known),
        None => {
            let term = put(arena, Node::Undefined)?;
            terms.push(term)?;
            Ok(constant)
        }
    }
}

/// The same of a term.
fn add_term(
    arena: &mut Arena,
    terms: &mut Vec<Term>,
    constant: i64,
    part: &Unrolled<'_>,
) -> Result<i64, Memory>
    ensures { IfOk result (λ sum. AreTerms (length arena.old) part.now
        → AddsNumber arena.old arena.new terms.old.items terms.new.items constant sum (λ numbers. number_in (worth arena.old numbers part.now))) }
{
    let term = scalar_term(arena, part)?;
    terms.push(term)?;
    Ok(constant)
}

/// The same of a scalar that was unrolled.
fn add_scalar(
    arena: &mut Arena,
    terms: &mut Vec<Term>,
    constant: i64,
    part: &Unrolled<'_>,
) -> Result<i64, Memory>
    ensures { IfOk result (λ sum. AreTerms (length arena.old) part.now
        → AddsNumber arena.old arena.new terms.old.items terms.new.items constant sum (λ numbers. number_in (worth arena.old numbers part.now))) }
{
    match part {
        Unrolled::Fixed(seen) => add_known(arena, terms, constant, number_of(seen)),
        _ => add_term(arena, terms, constant, part),
    }
}

/// The sum of scalars that were unrolled.
fn total_of(alloc: Global, arena: &mut Arena, parts: &[Unrolled<'_>]) -> Result<Term, Memory>
    requires { HaveTerms (length arena.old) parts.now }
    ensures { IfOk result (HasNumber arena.old arena.new (λ numbers. option_map sum_of (all_there (map (λ x. number_in (worth arena.old numbers x)) parts.now)))) }
{
    let mut terms = Vec::new(alloc);
    let mut constant = 0;
    for part in parts {
        constant = add_scalar(arena, &mut terms, constant, part)?;
    }
    let weighed = added(alloc, &terms)?;
    put(arena, Node::Add(constant, weighed))
}

/// The sum of the scalars of what was unrolled.
pub fn sum_of_all(alloc: Global, arena: &mut Arena, known: &Unrolled<'_>) -> Result<Term, Memory>
    requires { AreTerms (length arena.old) known.now }
    ensures { (n : Numbering) → (cells : names.Env) → (nodes : List GroundNode) → (p : Place) → (e : ExprTree)
        → Means n cells nodes arena.old e known.now → IfOk result (IsTermOf n cells nodes arena.new (folded p EachFold.Sum e)) }
{
    let parts = flat_scalars(alloc, known)?;
    total_of(alloc, arena, &parts)
}
