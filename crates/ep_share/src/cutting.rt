//! Sums cut into sums of two parts.

ghost use Rattle.std.specs.Prelude.{◌≡◌, ◌+◌, ◌-◌, ◌<◌, ◌≤◌, ◌^◌, ◌∷◌, [], pos, true, false, length, IfOk, IfSome};
ghost use Rattle.ep_ground.specs.NodeViews.{plain_node};
ghost use Rattle.ep_ground.specs.Nodes.{sum};
ghost use Rattle.ep_share.specs.Cutting as specs;
ghost use Rattle.ep_share.specs.Cutting.{AreFarBefore, ArePartsOf, AreTwoPlaces, CanBeTaken, IsMade, IsTaken, StandsForParts, addend_at, pair_of, told_reach};
ghost use Rattle.ep_share.specs.Standing.{IsSettled};

use crate::counting::{Counts, Tally};
use crate::making::{Making, take};
use crate::pairs::{Places, best_places, pair_node};
use ep_base::Memory;
use ep_ground::{Cell, Node, Term};
use std::alloc::Global;

/// The most parts of a sum that is cut.
pub const MOST_PARTS: usize = 8;

/// Whether a sum with these parts is cut.
pub fn is_small(parts: &[(i64, Term)]) -> bool
    ensures small { result ≡ true → length parts.now ≤ 8 }
    ensures large { result ≡ false → 8 < length parts.now }
{
    parts.len() <= MOST_PARTS
}

/// The parts of a sum with a term in place of the parts at two places.
fn with_pair(parts: Vec<(i64, Term)>, at: Places, term: Term) -> Vec<(i64, Term)>
    requires { AreTwoPlaces parts.items at }
    ensures { result.items ≡ specs.with_pair parts.items at term }
{
    let mut left = parts;
    left[at.first] = (1, term);
    left.remove(at.second);
    left
}

/// Takes in two parts of a sum as a sum of their own.
fn take_pair(
    alloc: Global,
    made: &mut Making,
    cells: &[Cell],
    parts: &[(i64, Term)],
    at: Places,
) -> Result<Term, Memory>
    requires made { IsMade cells.now made.old }
    requires room { length made.old.arena < 2 ^ 32 - 1 }
    requires places { AreTwoPlaces parts.now at }
    requires parts { ArePartsOf (length made.old.arena) parts.now }
    ensures { IfOk result (λ term.
        IsTaken cells.now made.old (pair_of (addend_at parts.now at.first) (addend_at parts.now at.second)) made.new term) }
{
    let pair = pair_node(alloc, parts[at.first], parts[at.second])?;
    let term = take(made, cells, pair)?;
    Ok(term)
}

/// The parts of a sum, of which no two have a near sum any more.
fn cut(
    alloc: Global,
    made: &mut Making,
    cells: &[Cell],
    counts: &mut Counts,
    tally: Tally,
    parts: Vec<(i64, Term)>,
) -> Result<Vec<(i64, Term)>, Memory>
    requires made { IsMade cells.now made.old }
    requires room { length made.old.arena + 8 < 2 ^ 32 - 1 }
    requires small { length parts.items ≤ 8 }
    requires parts { ArePartsOf (length made.old.arena) parts.items }
    ensures stands { IfOk result (λ left. StandsForParts cells.now made.old.arena parts.items made.new.arena left.items) }
    ensures made { IfOk result (λ left. IsMade cells.now made.new) }
    ensures far { IfOk result (λ left. AreFarBefore (told_reach made.new.spans.items) left.items (length left.items)) }
{
    let mut left = parts;
    let mut tally = tally;
    for _turn in 0..MOST_PARTS {
        let Some(at) = best_places(&made.spans, counts, &tally, &left) else {
            return Ok(left);
        };
        let term = take_pair(alloc, made, cells, &left, at)?;
        counts.note(&left, at);
        tally.join(at);
        left = with_pair(left, at, term);
    }
    Ok(left)
}

/// The term that is a sum alone, where it has one part and adds nothing.
fn lone(number: i64, parts: &[(i64, Term)]) -> Option<Term>
    ensures number { IfSome result (λ term. number ≡ pos 0) }
    ensures part { IfSome result (λ term. parts.now ≡ (pos 1, term) ∷ []) }
{
    match parts {
        [part] => {
            if number == 0 && part.0 == 1 {
                Some(part.1)
            } else {
                None
            }
        }
        _ => None,
    }
}

/// The term of a sum whose parts were cut.
fn sum_of(
    made: &mut Making,
    cells: &[Cell],
    number: i64,
    parts: Vec<(i64, Term)>,
) -> Result<Term, Memory>
    requires made { IsMade cells.now made.old }
    requires room { length made.old.arena < 2 ^ 32 - 1 }
    requires small { length parts.items ≤ 8 }
    requires parts { ArePartsOf (length made.old.arena) parts.items }
    requires far { AreFarBefore (told_reach made.old.spans.items) parts.items (length parts.items) }
    ensures { IfOk result (λ term. IsSettled cells.now 1 made.old (sum number parts.items) made.new term) }
{
    if let Some(term) = lone(number, &parts) {
        return Ok(term);
    }
    let term = take(made, cells, Node::Add(number, parts))?;
    Ok(term)
}

/// The term that stands for a sum.
fn settled_sum(
    alloc: Global,
    made: &mut Making,
    cells: &[Cell],
    counts: &mut Counts,
    tally: Tally,
    number: i64,
    parts: Vec<(i64, Term)>,
) -> Result<Term, Memory>
    requires made { IsMade cells.now made.old }
    requires room { length made.old.arena + 8 < 2 ^ 32 - 1 }
    requires node { CanBeTaken cells.now made.old (sum number parts.items) }
    ensures { IfOk result (λ term. IsSettled cells.now 8 made.old (sum number parts.items) made.new term) }
{
    if !is_small(&parts) {
        let term = take(made, cells, Node::Add(number, parts))?;
        return Ok(term);
    }
    let left = cut(alloc, made, cells, counts, tally, parts)?;
    let term = sum_of(made, cells, number, left)?;
    Ok(term)
}

/// The term that stands for a node over new terms.
pub fn settled(
    alloc: Global,
    made: &mut Making,
    cells: &[Cell],
    counts: &mut Counts,
    tally: Tally,
    node: Node,
) -> Result<Term, Memory>
    requires made { IsMade cells.now made.old }
    requires room { length made.old.arena + 8 < 2 ^ 32 - 1 }
    requires node { CanBeTaken cells.now made.old (plain_node node) }
    ensures { IfOk result (λ term. IsSettled cells.now 8 made.old (plain_node node) made.new term) }
{
    match node {
        Node::Add(number, parts) => {
            let term = settled_sum(alloc, made, cells, counts, tally, number, parts)?;
            Ok(term)
        }
        other => {
            let term = take(made, cells, other)?;
            Ok(term)
        }
    }
}
