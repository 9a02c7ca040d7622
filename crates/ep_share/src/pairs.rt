//! Pairs of parts of a sum.

ghost use Rattle.std.specs.Prelude.{◌≡◌, ◌⊎◌, ◌+◌, ◌<◌, true, length, None, Some, IfOk, IfSome};
ghost use Rattle.ep_ground.specs.NodeViews.{plain_node};
ghost use Rattle.ep_numbers.specs.Spans.{interval_of};
ghost use Rattle.ep_share.specs.Cutting as specs;
ghost use Rattle.ep_share.specs.Cutting.{AreFarBefore, ArePartsOf, ArePlacesOfNear, AreTwoPlaces, IsNearPair, pair_of, told_reach};

use crate::counting::{Counts, Tally};
use ep_base::Memory;
use ep_ground::{Node, Term};
use ep_numbers::{Span, added, near, scaled};
use std::alloc::Global;

/// Two places of parts in a sum, the earlier one first.
#[derive(Clone, Copy, Debug)]
pub struct Places {
    /// The earlier one.
    pub first: usize,
    /// The later one.
    pub second: usize,
}

/// Whether of two parts the first one stands first in a sum of both: the one of the later term, and of one term the one with
/// the greater coefficient.
#[tactic(auto, unfolding(crate::specs::Cutting::comes_first))]
fn comes_first(p: (i64, Term), q: (i64, Term)) -> bool
    ensures { result ≡ specs.comes_first p q }
{
    if p.1.number() == q.1.number() {
        return q.0 <= p.0;
    }
    q.1.number() < p.1.number()
}

/// Two parts alone as a sum, in order.
#[tactic(auto, unfolding(crate::specs::Cutting::pair_of))]
pub fn pair_node(alloc: Global, p: (i64, Term), q: (i64, Term)) -> Result<Node, Memory>
    ensures { IfOk result (λ node. plain_node node ≡ pair_of p q) }
{
    if comes_first(p, q) {
        return Ok(Node::Add(0, vec![in alloc; p, q]?));
    }
    Ok(Node::Add(0, vec![in alloc; q, p]?))
}

/// How far a term reaches, as a table tells it.
fn span_at(spans: &[Span], term: Term) -> Span
    requires { term < length spans.now }
    ensures { interval_of result ≡ told_reach spans.now term }
{
    spans[term.number() as usize]
}

/// Whether the stages compute with how far the sum of two parts reaches.
pub fn is_near_pair(spans: &[Span], p: (i64, Term), q: (i64, Term)) -> bool
    requires one { p.1 < length spans.now }
    requires other { q.1 < length spans.now }
    ensures sound { result ≡ true → IsNearPair (told_reach spans.now) p q }
    ensures complete { IsNearPair (told_reach spans.now) p q → result ≡ true }
{
    let one = scaled(p.0, span_at(spans, p.1));
    let other = scaled(q.0, span_at(spans, q.1));
    match added(one, other) {
        Some(sum) => near(sum).is_some(),
        None => false,
    }
}

/// How much is won where the parts at two places become one: the sums that they stand in together, and more where they are a term already.
fn gain(counts: &Counts, tally: &Tally, parts: &[(i64, Term)], at: Places) -> u8 {
    tally.together(at).saturating_add(counts.more(parts, at))
}

/// The two places by which more is won.
fn better(
    counts: &Counts,
    tally: &Tally,
    parts: &[(i64, Term)],
    best: Option<Places>,
    at: Places,
) -> Places
    ensures { (result ≡ at) ⊎ (best ≡ Some result) }
{
    match best {
        Some(so_far) => {
            if gain(counts, tally, parts, at) > gain(counts, tally, parts, so_far) {
                at
            } else {
                so_far
            }
        }
        None => at,
    }
}

/// Two parts of a sum with a near sum, the later one at this place; where there are several the two by which most is won,
/// and the best so far where none is better.
fn best_with(
    spans: &[Span],
    counts: &Counts,
    tally: &Tally,
    parts: &[(i64, Term)],
    second: usize,
    best: Option<Places>,
) -> Option<Places>
    requires second { second < length parts.now }
    requires parts { ArePartsOf (length spans.now) parts.now }
    requires places { IfSome best (AreTwoPlaces parts.now) }
    requires near { IfSome best (ArePlacesOfNear (told_reach spans.now) parts.now) }
    requires far { best ≡ None → AreFarBefore (told_reach spans.now) parts.now second }
    ensures places { IfSome result (AreTwoPlaces parts.now) }
    ensures near { IfSome result (ArePlacesOfNear (told_reach spans.now) parts.now) }
    ensures far { result ≡ None → AreFarBefore (told_reach spans.now) parts.now (second + 1) }
{
    let mut found = best;
    for first in 0..second {
        if is_near_pair(spans, parts[first], parts[second]) {
            found = Some(better(counts, tally, parts, found, Places { first, second }));
        }
    }
    found
}

/// Two parts of a sum with a near sum, those by which most is won. Quadratic in the parts.
pub fn best_places(
    spans: &[Span],
    counts: &Counts,
    tally: &Tally,
    parts: &[(i64, Term)],
) -> Option<Places>
    requires parts { ArePartsOf (length spans.now) parts.now }
    ensures places { IfSome result (AreTwoPlaces parts.now) }
    ensures near { IfSome result (ArePlacesOfNear (told_reach spans.now) parts.now) }
    ensures far { result ≡ None → AreFarBefore (told_reach spans.now) parts.now (length parts.now) }
{
    let mut best = None;
    for second in 0..parts.len() {
        best = best_with(spans, counts, tally, parts, second, best);
    }
    best
}
