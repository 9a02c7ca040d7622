//! The intervals in which the values of terms lie.

ghost use Rattle.std.specs.Prelude.{◌≡◌, ◌∷◌, fold, map};
ghost use Rattle.std.specs.Int.{int_max, int_min};
ghost use Rattle.ep_base.specs.Intervals as defined;
ghost use Rattle.ep_base.specs.Intervals.{greatest_or_zero, highs, least_or_zero, lows, only, sum_interval};
ghost use Rattle.ep_numbers.specs.Spans.{interval_of, intervals_of, wide_interval};
ghost use Rattle.ep_flatten.specs.Building.{CoversAlways, CoversFormAlways, HasSmall, is_truth_node, span_at};
ghost use Rattle.ep_flatten.specs.FormViews.{plain_form};
ghost use Rattle.ep_ground.specs.NodeViews.{plain_node};
ghost use Rattle.ep_ground.specs.Nodes as nodes;

use crate::forms::Form;
use crate::intervals::{clamped, power, widest};
use ep_base::Key;
use ep_ground::{Ground, Node, Term};
use ep_numbers::{
    Extremes, Span, WideSpan, absolute, added, is_far, product, quotient, remainder, scaled,
    span_of_set, widened, with_one,
};

/// An interval in which the value of a term lies that has this node and this form, where those of the
/// form's parts lie in theirs, and where it is no farther from 0 than the stages compute.
pub fn form_span(spans: &[Span], node: &Node, form: &Form) -> Span
    ensures { CoversFormAlways (intervals_of spans.now) (plain_node node.now) (plain_form form.now) (interval_of result) }
{
    match form {
        Form::Own => span_of(spans, node),
        Form::Sum(number, parts) => sum_span(spans, *number, parts),
        Form::Compare(_, _, _) => Span { low: 0, high: 1 },
    }
}

/// An interval in which the value of a node lies, where those of its parts lie in theirs, and where
/// it is no farther from 0 than the stages compute.
fn span_of(spans: &[Span], node: &Node) -> Span
    ensures { CoversAlways (intervals_of spans.now) (plain_node node.now) (interval_of result) }
{
    if is_truth(node) {
        return Span { low: 0, high: 1 };
    }
    match node {
        Node::Add(number, parts) => sum_span(spans, *number, parts),
        Node::Mul(one, other) => product_span(spans, *one, *other),
        Node::SafeDiv(one, other) => quotient_span(spans, *one, *other),
        Node::SafeMod(one, other) => remainder_span(spans, *one, *other),
        Node::Pow(part, exponent) => power_span(spans, *part, *exponent),
        Node::Abs(part) => absolute_span(spans, *part),
        Node::Min(parts) => least_span(spans, parts),
        Node::Max(parts) => greatest_span(spans, parts),
        Node::SafePick(parts, keys, indices) => pick_span(spans, parts, keys, indices),
        _ => clamped(widest()),
    }
}

/// The interval of a term, and that of 0 alone for one that has none.
fn span_of_term(spans: &[Span], term: Term) -> Span
    ensures { interval_of result ≡ span_at (intervals_of spans.now) term }
{
    let place = term.number() as usize;
    if place < spans.len() {
        spans[place]
    } else {
        Span { low: 0, high: 0 }
    }
}

/// The interval of a number and a sum of terms, each multiplied by its coefficient, as far as words
/// of 128 bits tell it.
fn sum_of_terms(spans: &[Span], number: i64, parts: &[(i64, Term)]) -> WideSpan
    ensures { HasSmall
        (sum_interval (only number ∷ map (λ p. defined.scaled p.0 (span_at (intervals_of spans.now) p.1)) parts.now))
        (wide_interval result) }
{
    let mut sum = widened(Span {
        low: number,
        high: number,
    });
    for part in parts {
        let Some(more) = added(sum, scaled(part.0, span_of_term(spans, part.1))) else {
            return widest();
        };
        sum = more;
    }
    sum
}

/// The interval of a number and a sum.
fn sum_span(spans: &[Span], number: i64, parts: &[(i64, Term)]) -> Span
    ensures { CoversAlways (intervals_of spans.now) (nodes.sum number parts.now) (interval_of result) }
{
    clamped(sum_of_terms(spans, number, parts))
}

/// The interval of a product.
fn product_span(spans: &[Span], one: Term, other: Term) -> Span
    ensures { CoversAlways (intervals_of spans.now) (nodes.product one other) (interval_of result) }
{
    clamped(product(span_of_term(spans, one), span_of_term(spans, other)))
}

/// The interval of a quotient.
fn quotient_span(spans: &[Span], one: Term, other: Term) -> Span
    ensures { CoversAlways (intervals_of spans.now) (nodes.safe_quotient one other) (interval_of result) }
{
    clamped(quotient(span_of_term(spans, one)))
}

/// The interval of a remainder.
fn remainder_span(spans: &[Span], one: Term, other: Term) -> Span
    ensures { CoversAlways (intervals_of spans.now) (nodes.safe_remainder one other) (interval_of result) }
{
    clamped(remainder(span_of_term(spans, other)))
}

/// The interval of a power.
fn power_span(spans: &[Span], part: Term, exponent: u64) -> Span
    ensures { CoversAlways (intervals_of spans.now) (nodes.power part exponent) (interval_of result) }
{
    match power(span_of_term(spans, part), exponent) {
        Some(whole) => clamped(whole),
        None => clamped(widest()),
    }
}

/// The interval of an absolute value.
fn absolute_span(spans: &[Span], part: Term) -> Span
    ensures { CoversAlways (intervals_of spans.now) (nodes.absolute part) (interval_of result) }
{
    clamped(absolute(span_of_term(spans, part)))
}

/// Those of an interval and of the intervals of terms.
fn extremes_from(spans: &[Span], first: Span, terms: &[Term]) -> Extremes
    ensures least_low { result.lows.low
        ≡ fold (λ a t. int_min a (span_at (intervals_of spans.now) t).low) first.low terms.now }
    ensures greatest_low { result.lows.high
        ≡ fold (λ a t. int_max a (span_at (intervals_of spans.now) t).low) first.low terms.now }
    ensures least_high { result.highs.low
        ≡ fold (λ a t. int_min a (span_at (intervals_of spans.now) t).high) first.high terms.now }
    ensures greatest_high { result.highs.high
        ≡ fold (λ a t. int_max a (span_at (intervals_of spans.now) t).high) first.high terms.now }
{
    let mut found = Extremes {
        lows: Span {
            low: first.low,
            high: first.low,
        },
        highs: Span {
            low: first.high,
            high: first.high,
        },
    };
    for term in terms {
        found = with_one(found, span_of_term(spans, *term));
    }
    found
}

/// Those of the intervals of terms, and 0 where there is none.
fn extremes_of(spans: &[Span], terms: &[Term]) -> Extremes
    ensures least_low { result.lows.low ≡ least_or_zero (lows (map (span_at (intervals_of spans.now)) terms.now)) }
    ensures greatest_low { result.lows.high ≡ greatest_or_zero (lows (map (span_at (intervals_of spans.now)) terms.now)) }
    ensures least_high { result.highs.low ≡ least_or_zero (highs (map (span_at (intervals_of spans.now)) terms.now)) }
    ensures greatest_high { result.highs.high ≡ greatest_or_zero (highs (map (span_at (intervals_of spans.now)) terms.now)) }
{
    match terms.split_first() {
        Some((first, rest)) => extremes_from(spans, span_of_term(spans, *first), rest),
        None => Extremes {
            lows: Span { low: 0, high: 0 },
            highs: Span { low: 0, high: 0 },
        },
    }
}

/// The interval of the least of some terms.
fn least_span(spans: &[Span], parts: &[Term]) -> Span
    ensures { CoversAlways (intervals_of spans.now) (nodes.least parts.now) (interval_of result) }
{
    let found = extremes_of(spans, parts);
    clamped(widened(Span {
        low: found.lows.low,
        high: found.highs.low,
    }))
}

/// The interval of the greatest of some terms.
fn greatest_span(spans: &[Span], parts: &[Term]) -> Span
    ensures { CoversAlways (intervals_of spans.now) (nodes.greatest parts.now) (interval_of result) }
{
    let found = extremes_of(spans, parts);
    clamped(widened(Span {
        low: found.lows.high,
        high: found.highs.high,
    }))
}

/// The interval of a term that is picked among some.
fn pick_span(spans: &[Span], parts: &[Term], keys: &[Key], indices: &[Term]) -> Span
    ensures { CoversAlways (intervals_of spans.now) (nodes.safe_pick parts.now keys.now indices.now) (interval_of result) }
{
    let found = extremes_of(spans, parts);
    clamped(widened(Span {
        low: found.lows.low,
        high: found.highs.high,
    }))
}

/// An interval for a ground's next term, by those of the terms before it. It only guides the choice of forms: nothing is
/// promised of it.
pub fn term_span(g: &Ground, spans: &[Span], node: &Node, form: &Form) -> Span {
    match node {
        Node::Const(number) => Span {
            low: *number,
            high: *number,
        },
        Node::Cell(cell) => {
            let place = *cell as usize;
            if place < g.cells.len() {
                return clamped(widened(span_of_set(&g.cells[place].values)));
            }
            Span { low: 0, high: 0 }
        }
        _ => form_span(spans, node, form),
    }
}

/// Whether a product of a number in an interval is too far from 0.
fn is_scaled_far(coefficient: i128, x: Span) -> bool {
    is_far(coefficient.saturating_mul(i128::from(x.low)))
        || is_far(coefficient.saturating_mul(i128::from(x.high)))
}

/// Whether a multiple of a number and a sum has a part that may be too far from 0, by intervals that only guide the choice of
/// forms.
pub fn is_taken_far(spans: &[Span], coefficient: i64, number: i64, parts: &[(i64, Term)]) -> bool {
    let factor = i128::from(coefficient);
    if is_far(factor * i128::from(number)) {
        return true;
    }
    for part in parts {
        if is_scaled_far(factor * i128::from(part.0), span_of_term(spans, part.1)) {
            return true;
        }
    }
    false
}

/// Whether a node is a truth value.
#[tactic(auto, unfolding(crate::specs::Building::is_truth_node))]
fn is_truth(node: &Node) -> bool
    ensures { result ≡ is_truth_node (plain_node node.now) }
{
    match node {
        Node::Compare(_, _, _)
        | Node::Lex(_, _, _)
        | Node::Member(_, _)
        | Node::Not(_)
        | Node::And(_)
        | Node::Or(_)
        | Node::Iff(_, _)
        | Node::AllDiff(_)
        | Node::Gcc(_, _, _)
        | Node::AtLeast(_, _, _)
        | Node::AtMost(_, _, _)
        | Node::Table(_, _) => true,
        Node::Const(_)
        | Node::Undefined
        | Node::Cell(_)
        | Node::Add(_, _)
        | Node::Mul(_, _)
        | Node::Div(_, _)
        | Node::Mod(_, _)
        | Node::Pow(_, _)
        | Node::Abs(_)
        | Node::Min(_)
        | Node::Max(_)
        | Node::Pick(_, _, _)
        | Node::Whole(_, _)
        | Node::SafeDiv(_, _)
        | Node::SafeMod(_, _)
        | Node::SafePick(_, _, _) => false,
    }
}
