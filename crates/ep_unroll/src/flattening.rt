//! Matrices as lists of their scalars. A number stays a number there, and costs no node.

ghost use Rattle.std.specs.Prelude.{◌≡◌, ◌∷◌, [], ℕ, ℤ, pos, List, IfOk, OnOk, Some, length, option_map};
ghost use Rattle.ep_base.specs.Reads.{all_there};
ghost use Rattle.ep_base.specs.Runs.{counting};
ghost use Rattle.ep_base.specs.declared.places.Place.{Place};
ghost use Rattle.ep_eval.specs.Helds.{seen_held};
ghost use Rattle.ep_ground.specs.Nodes.{GroundNode};
ghost use Rattle.ep_tree.specs.Environments as names;
ghost use Rattle.ep_tree.specs.Evaluation.{scalars_in};
ghost use Rattle.ep_tree.specs.Trees.{ExprTree, flatten};
ghost use Rattle.ep_tree.specs.Values.{all_defined, as_parts, matrix};
ghost use Rattle.ep_unroll.specs.Flats.{AddsParts};
ghost use Rattle.ep_unroll.specs.Meanings.{AreTerms, Means, worth};
ghost use Rattle.ep_unroll.specs.PartLists.{HaveTerms, worths};
ghost use Rattle.ep_unroll.specs.Readings.{Numbering};
ghost use Rattle.ep_unroll.specs.Scalars.{cells_from};

use super::blocks::cells_over;
use super::fixed_lists::seen_scalars;
use super::unrolled::Unrolled;
use ep_base::{Memory, Runs};
use ep_eval::Held;
use std::alloc::Global;

/// The index domains of one cell: none.
fn no_domains(domains: &[Runs]) -> &[Runs]
    ensures { result.now ≡ [] }
{
    match domains.split_first() {
        Some((_own, inner)) => no_domains(inner),
        None => domains,
    }
}

/// Puts numbers behind other scalars.
fn push_numbers(parts: &mut Vec<Unrolled<'_>>, list: &[i64]) -> Result<(), Memory>
    ensures { OnOk result (AddsParts parts.old.items parts.new.items [] (λ nodes numbers. Some list.now)) }
{
    for number in list {
        parts.push(Unrolled::Fixed(Some(Held::Number(*number))))?;
    }
    Ok(())
}

/// The same of the scalars of what was seen. Where there is no value, it is a scalar without one.
fn push_seen(
    alloc: Global,
    parts: &mut Vec<Unrolled<'_>>,
    seen: &Option<Held<'_>>,
) -> Result<(), Memory>
    ensures { OnOk result (AddsParts parts.old.items parts.new.items [] (λ nodes numbers. scalars_in (seen_held seen.now))) }
{
    let list = seen_scalars(alloc, seen)?;
    match list {
        Some(list) => push_numbers(parts, &list),
        None => {
            parts.push(Unrolled::Fixed(None))?;
            Ok(())
        }
    }
}

/// Puts so many cells behind other scalars, from one on.
fn push_cells<'a>(
    parts: &mut Vec<Unrolled<'a>>,
    first: u64,
    count: u64,
    none: &'a [Runs],
) -> Result<(), Memory>
    requires { none.now ≡ [] }
    ensures { OnOk result (AddsParts parts.old.items parts.new.items [] (λ nodes numbers. all_there (cells_from numbers first count))) }
{
    for passed in 0..count {
        let Some(cell) = first.checked_add(passed) else {
            return Err(Memory);
        };
        parts.push(Unrolled::Cells(cell, none))?;
    }
    Ok(())
}

/// Puts the scalars of what was unrolled behind others.
fn push_scalars<'a>(
    alloc: Global,
    parts: &mut Vec<Unrolled<'a>>,
    known: &Unrolled<'a>,
) -> Result<(), Memory>
    ensures { OnOk result (AddsParts parts.old.items parts.new.items (known.now ∷ []) (λ nodes numbers. scalars_in (worth nodes numbers known.now))) }
{
    match known {
        Unrolled::Number(term) => {
            parts.push(Unrolled::Number(*term))?;
            Ok(())
        }
        Unrolled::Cells(first, domains) => {
            let count = cells_over(domains)?;
            let none = no_domains(domains);
            push_cells(parts, *first, count, none)
        }
        Unrolled::Fixed(seen) => push_seen(alloc, parts, seen),
        Unrolled::Matrix(_, inner) => {
            for part in inner {
                push_scalars(alloc, parts, part)?;
            }
            Ok(())
        }
    }
}

/// The scalars of what was unrolled, row by row, each by itself. Linear in them.
pub fn flat_scalars<'a>(alloc: Global, known: &Unrolled<'a>) -> Result<Vec<Unrolled<'a>>, Memory>
    ensures { IfOk result (λ xs. AddsParts [] xs.items (known.now ∷ []) (λ nodes numbers. scalars_in (worth nodes numbers known.now))) }
{
    let mut parts = Vec::new(alloc);
    push_scalars(alloc, &mut parts, known)?;
    Ok(parts)
}

/// The numbers from 1 on, one for each of some parts.
fn places_of(alloc: Global, parts: &[Unrolled<'_>]) -> Result<Vec<i64>, Memory>
    ensures { IfOk result (λ places. places.items ≡ counting (pos 1) (length parts.now)) }
{
    let mut places = Vec::with_capacity(alloc, parts.len())?;
    for (i, _part) in parts.iter().enumerate() {
        places.push(i as i64 + 1)?;
    }
    Ok(places)
}

/// Parts as a matrix of one dimension, with indices from 1.
fn list_of<'a>(alloc: Global, parts: Vec<Unrolled<'a>>) -> Result<Unrolled<'a>, Memory>
    ensures value { IfOk result (λ x. (nodes : List GroundNode) → (numbers : List ℤ)
        → worth nodes numbers x ≡ option_map (λ vs. matrix (counting (pos 1) (length parts.entry.items)) (as_parts vs)) (all_defined (worths nodes numbers parts.entry.items))) }
    ensures terms { IfOk result (λ x. (count : ℕ) → HaveTerms count parts.entry.items → AreTerms count x) }
{
    let indices = places_of(alloc, &parts)?;
    Ok(Unrolled::Matrix(indices, parts))
}

/// `flatten` of what was unrolled and isn't used any more.
pub fn flattened<'a>(alloc: Global, known: Unrolled<'a>) -> Result<Unrolled<'a>, Memory>
    ensures { (n : Numbering) → (cells : names.Env) → (nodes new : List GroundNode) → (p : Place) → (e : ExprTree)
        → Means n cells nodes new e known.entry → IfOk result (Means n cells nodes new (flatten p e)) }
{
    let parts = flat_scalars(alloc, &known)?;
    list_of(alloc, parts)
}
