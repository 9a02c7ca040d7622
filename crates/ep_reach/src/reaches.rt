//! The reaches of nodes: intervals in which their values lie, whatever numbers the cells have.

ghost use Rattle.std.specs.Prelude.{◌≡◌, ◌∷◌, [], true, fold, map, slice_index_or, IfSome, IsSome};
ghost use Rattle.std.specs.Int.{int_max, int_min};
ghost use Rattle.std.specs.List.{All};
ghost use Rattle.ep_base.specs.Intervals as defined;
ghost use Rattle.ep_base.specs.Intervals.{IsWithinReach, greatest_or_zero, highs, least_or_zero, lows};
ghost use Rattle.ep_base.specs.Reads.{IsWithinNumbers};
ghost use Rattle.ep_ground.specs.Bounds.{node_reach, reach_at};
ghost use Rattle.ep_ground.specs.NodeViews.{plain_node};
ghost use Rattle.ep_ground.specs.Nodes.{coefficients_of};
ghost use Rattle.ep_numbers.specs.Spans.{interval_of, intervals_of, wide_interval};
ghost use Rattle.ep_reach.specs.Reaching.{HasNearParts, IsToldAt};

use ep_base::Runs;
use ep_ground::{Cell, Node, Term};
use ep_numbers::{
    Extremes, Span, WideSpan, absolute, added, is_near, near, only, power, product, quotient,
    remainder, scaled, span_of_set, widened, with_one,
};

/// Whether the stages compute with each number of a set.
pub fn is_near_set(set: &Runs) -> bool
    ensures sound { result ≡ true → All IsWithinNumbers set.now }
    ensures complete { All IsWithinNumbers set.now → result ≡ true }
{
    near(widened(span_of_set(set))).is_some()
}

/// Whether the stages compute with the coefficients of these parts.
fn are_near(parts: &[(i64, Term)]) -> bool
    ensures sound { result ≡ true → All IsWithinNumbers (map (λ p. p.0) parts.now) }
    ensures complete { All IsWithinNumbers (map (λ p. p.0) parts.now) → result ≡ true }
{
    for part in parts {
        if !is_near(part.0) {
            return false;
        }
    }
    true
}

/// Whether the stages compute with the coefficients of a node.
#[tactic(auto, unfolding(ep_ground::specs::Nodes::coefficients_of))]
fn has_near_coefficients(node: &Node) -> bool
    ensures sound { result ≡ true → All IsWithinNumbers (coefficients_of (plain_node node.now)) }
    ensures complete { All IsWithinNumbers (coefficients_of (plain_node node.now)) → result ≡ true }
{
    match node {
        Node::Add(_, parts) => are_near(parts),
        _ => true,
    }
}

/// The reach of a node, where the stages compute with its ends and with the node's coefficients.
pub fn near_reach(spans: &[Span], cells: &[Cell], node: &Node) -> Option<Span>
    ensures reach { IfSome result (λ span.
        interval_of span ≡ node_reach cells.now (reach_at (intervals_of spans.now)) (plain_node node.now)) }
    ensures near { IfSome result (λ span. IsWithinReach (interval_of span)) }
    ensures coefficients { IfSome result (λ span. All IsWithinNumbers (coefficients_of (plain_node node.now))) }
    ensures told { IsToldAt cells.now (intervals_of spans.now) (plain_node node.now) → IsSome result }
{
    if !has_near_coefficients(node) {
        return None;
    }
    let Some(reach) = reach_of(spans, cells, node) else {
        return None;
    };
    near(reach)
}

/// The reach of a node, where words of 128 bits tell it.
#[tactic(auto, unfolding(ep_ground::specs::Bounds::node_reach))]
fn reach_of(spans: &[Span], cells: &[Cell], node: &Node) -> Option<WideSpan>
    ensures reach { IfSome result (λ wide.
        wide_interval wide ≡ node_reach cells.now (reach_at (intervals_of spans.now)) (plain_node node.now)) }
    ensures told { IsToldAt cells.now (intervals_of spans.now) (plain_node node.now) → IsSome result }
{
    match node {
        Node::Const(number) => Some(only(*number)),
        Node::Undefined => Some(only(0)),
        Node::Cell(cell) => Some(cell_reach(cells, *cell)),
        Node::Add(number, parts) => sum_of_terms(spans, *number, parts),
        Node::Mul(one, other) => Some(product_of_terms(spans, *one, *other)),
        Node::Div(one, _) => Some(quotient_of_terms(spans, *one)),
        Node::Mod(_, other) => Some(remainder_of_terms(spans, *other)),
        Node::Pow(part, exponent) => power_of_term(spans, *part, *exponent),
        Node::Abs(part) => Some(absolute_of_term(spans, *part)),
        Node::Min(parts) => Some(least_of_terms(spans, parts)),
        Node::Max(parts) => Some(greatest_of_terms(spans, parts)),
        Node::Pick(parts, _, _) => Some(hull_of_terms(spans, parts)),
        Node::Whole(part, _) => Some(whole_of_term(spans, *part)),
        Node::SafeDiv(one, _) => Some(quotient_of_terms(spans, *one)),
        Node::SafeMod(_, other) => Some(remainder_of_terms(spans, *other)),
        Node::SafePick(parts, _, _) => Some(hull_of_terms(spans, parts)),
        Node::Compare(_, _, _)
        | Node::Lex(_, _, _)
        | Node::Member(_, _)
        | Node::Not(_)
        | Node::And(_)
        | Node::Or(_)
        | Node::Iff(_, _)
        | Node::AllDiff(_)
        | Node::Gcc(_, _, _)
        | Node::AtLeast(_, _, _)
        | Node::AtMost(_, _, _)
        | Node::Table(_, _) => Some(WideSpan { low: 0, high: 1 }),
    }
}

/// The reach of a cell, and 0 alone where there is none.
fn cell_reach(cells: &[Cell], cell: u64) -> WideSpan
    ensures { wide_interval result ≡ defined.spanned (slice_index_or (map (λ one. one.values) cells.now) cell []) }
{
    let place = cell as usize;
    if place < cells.len() {
        return widened(span_of_set(&cells[place].values));
    }
    only(0)
}

/// The interval of a term, and that of 0 alone for one that has none.
#[tactic(auto, unfolding(ep_ground::specs::Bounds::reach_at))]
fn span_of_term(spans: &[Span], term: Term) -> Span
    ensures { interval_of result ≡ reach_at (intervals_of spans.now) term }
{
    let place = term.number() as usize;
    if place < spans.len() {
        spans[place]
    } else {
        Span { low: 0, high: 0 }
    }
}

/// The interval of a number and a sum of terms, each multiplied by its coefficient.
fn sum_of_terms(spans: &[Span], number: i64, parts: &[(i64, Term)]) -> Option<WideSpan>
    ensures sum { IfSome result (λ wide. wide_interval wide ≡ defined.sum_interval
        (defined.only number ∷ map (λ p. defined.scaled p.0 (reach_at (intervals_of spans.now) p.1)) parts.now)) }
    ensures told { HasNearParts (intervals_of spans.now) parts.now → IsSome result }
{
    let mut sum = only(number);
    for part in parts {
        let Some(more) = added(sum, scaled(part.0, span_of_term(spans, part.1))) else {
            return None;
        };
        sum = more;
    }
    Some(sum)
}

/// The interval of a product.
fn product_of_terms(spans: &[Span], one: Term, other: Term) -> WideSpan
    ensures { wide_interval result
        ≡ defined.product_interval (reach_at (intervals_of spans.now) one) (reach_at (intervals_of spans.now) other) }
{
    product(span_of_term(spans, one), span_of_term(spans, other))
}

/// The interval of a quotient, by that of what is divided.
fn quotient_of_terms(spans: &[Span], one: Term) -> WideSpan
    ensures { wide_interval result ≡ defined.quotient_interval (reach_at (intervals_of spans.now) one) }
{
    quotient(span_of_term(spans, one))
}

/// The interval of a remainder, by that of the divisor.
fn remainder_of_terms(spans: &[Span], other: Term) -> WideSpan
    ensures { wide_interval result ≡ defined.remainder_interval (reach_at (intervals_of spans.now) other) }
{
    remainder(span_of_term(spans, other))
}

/// The interval of a power.
fn power_of_term(spans: &[Span], part: Term, exponent: u64) -> Option<WideSpan>
    ensures same { IfSome result (λ wide. wide_interval wide
        ≡ defined.nth_power_interval (reach_at (intervals_of spans.now) part) exponent) }
    ensures told { IsWithinReach (defined.nth_power_interval (reach_at (intervals_of spans.now) part) exponent) → IsSome result }
{
    power(span_of_term(spans, part), exponent)
}

/// The interval of an absolute value.
fn absolute_of_term(spans: &[Span], part: Term) -> WideSpan
    ensures { wide_interval result ≡ defined.absolute_interval (reach_at (intervals_of spans.now) part) }
{
    absolute(span_of_term(spans, part))
}

/// The interval of a term, with wide ends.
fn whole_of_term(spans: &[Span], part: Term) -> WideSpan
    ensures { wide_interval result ≡ reach_at (intervals_of spans.now) part }
{
    widened(span_of_term(spans, part))
}

/// Those of an interval and of the intervals of terms.
fn extremes_from(spans: &[Span], first: Span, terms: &[Term]) -> Extremes
    ensures least_low { result.lows.low
        ≡ fold (λ a t. int_min a (reach_at (intervals_of spans.now) t).low) first.low terms.now }
    ensures greatest_low { result.lows.high
        ≡ fold (λ a t. int_max a (reach_at (intervals_of spans.now) t).low) first.low terms.now }
    ensures least_high { result.highs.low
        ≡ fold (λ a t. int_min a (reach_at (intervals_of spans.now) t).high) first.high terms.now }
    ensures greatest_high { result.highs.high
        ≡ fold (λ a t. int_max a (reach_at (intervals_of spans.now) t).high) first.high terms.now }
{
    let mut found = Extremes {
        lows: Span {
            low: first.low,
            high: first.low,
        },
        highs: Span {
            low: first.high,
            high: first.high,
        },
    };
    for term in terms {
        found = with_one(found, span_of_term(spans, *term));
    }
    found
}

/// Those of the intervals of terms, and 0 where there is none.
fn extremes_of(spans: &[Span], terms: &[Term]) -> Extremes
    ensures least_low { result.lows.low ≡ least_or_zero (lows (map (reach_at (intervals_of spans.now)) terms.now)) }
    ensures greatest_low { result.lows.high ≡ greatest_or_zero (lows (map (reach_at (intervals_of spans.now)) terms.now)) }
    ensures least_high { result.highs.low ≡ least_or_zero (highs (map (reach_at (intervals_of spans.now)) terms.now)) }
    ensures greatest_high { result.highs.high ≡ greatest_or_zero (highs (map (reach_at (intervals_of spans.now)) terms.now)) }
{
    match terms.split_first() {
        Some((first, rest)) => extremes_from(spans, span_of_term(spans, *first), rest),
        None => Extremes {
            lows: Span { low: 0, high: 0 },
            highs: Span { low: 0, high: 0 },
        },
    }
}

/// The interval of the least of some terms.
fn least_of_terms(spans: &[Span], parts: &[Term]) -> WideSpan
    ensures { wide_interval result ≡ defined.least_interval (map (reach_at (intervals_of spans.now)) parts.now) }
{
    let found = extremes_of(spans, parts);
    widened(Span {
        low: found.lows.low,
        high: found.highs.low,
    })
}

/// The interval of the greatest of some terms.
fn greatest_of_terms(spans: &[Span], parts: &[Term]) -> WideSpan
    ensures { wide_interval result ≡ defined.greatest_interval (map (reach_at (intervals_of spans.now)) parts.now) }
{
    let found = extremes_of(spans, parts);
    widened(Span {
        low: found.lows.high,
        high: found.highs.high,
    })
}

/// The interval of one of some terms.
fn hull_of_terms(spans: &[Span], parts: &[Term]) -> WideSpan
    ensures { wide_interval result ≡ defined.hull (map (reach_at (intervals_of spans.now)) parts.now) }
{
    let found = extremes_of(spans, parts);
    widened(Span {
        low: found.lows.low,
        high: found.highs.high,
    })
}
