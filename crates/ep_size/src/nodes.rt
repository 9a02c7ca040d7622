//! What a node that holds a decision variable adds to what its parts give: its weight, its reach and its spread.

ghost use Rattle.std.specs.Prelude.{◌≡◌, ◌≤◌, ℕ, Ok, if◌then◌else◌};
ghost use Rattle.ep_tree.specs.Environments as names;
ghost use Rattle.ep_tree.specs.Reach as defined;
ghost use Rattle.ep_tree.specs.Trees.{ExprTree};
ghost use Rattle.ep_tree.specs.declared.values.Mode.{Mode as EachMode};
ghost use Rattle.ep_size.specs.Extents.{plain_span};
ghost use Rattle.ep_size.specs.Finishing.{Added, Finishes, Gives, IsNumberNode};
ghost use Rattle.ep_numbers.specs.Spans.{interval_of, wide_interval};
ghost use Rattle.ep_size.specs.Totals.{MOST_TOLD, capped};

use super::errors::SizeError;
use super::extents::{Extent, Span, truth_span, wide_span};
use super::intervals::near;
use super::totals::{MOST_TOLD, told};
use ep_numbers::{Span as Ends, WideSpan, negated, product, widened};

/// Adds the weight of a node.
pub fn weigh(total: &mut u64, weight: u64)
    requires { weight ≤ MOST_TOLD }
    ensures { (own : ℕ) → weight ≡ capped own → Added total.old total.new own }
{
    *total = told(told(*total) + weight);
}

/// A number that takes all values between these ends.
#[tactic(auto, unfolding(ep_tree::specs::Reach::wide_span))]
pub fn wide(reach: WideSpan) -> Result<Span, SizeError>
    ensures { Gives result (defined.wide_span (wide_interval reach)) }
{
    match near(reach) {
        Ok(kept) => Ok(wide_span(kept)),
        Err(refused) => Err(refused),
    }
}

/// A number, unless it reaches too far.
pub fn kept_span(x: Span) -> Result<Span, SizeError>
    ensures { Gives result (plain_span x) }
{
    match near(widened(x.reach)) {
        Ok(reach) => Ok(Span {
            reach,
            spread: x.spread,
            decided: x.decided,
        }),
        Err(refused) => Err(refused),
    }
}

/// `-x`
#[tactic(auto, unfolding(ep_tree::specs::Reach::negated_span))]
pub fn negated_span(x: Span) -> Result<Span, SizeError>
    ensures { Gives result (defined.negated_span (plain_span x)) }
{
    match near(negated(x.reach)) {
        Ok(reach) => Ok(Span {
            reach,
            spread: x.spread,
            decided: x.decided,
        }),
        Err(refused) => Err(refused),
    }
}

/// What is known of a product with this reach: where one factor is free of decision variables its spread is that of the other.
#[tactic(auto, unfolding(ep_tree::specs::Reach::with_spread, ep_tree::specs::Reach::wide_span))]
fn spread_of(reach: Ends, x: Span, y: Span) -> Span
    ensures { plain_span result ≡ (if x.decided
        then (if y.decided then defined.wide_span (interval_of reach) else defined.with_spread x.spread (defined.wide_span (interval_of reach)))
        else defined.with_spread y.spread (defined.wide_span (interval_of reach))) }
{
    let whole = wide_span(reach);
    if !x.decided {
        return Span {
            reach,
            spread: y.spread,
            decided: true,
        };
    }
    if y.decided {
        return whole;
    }
    Span {
        reach,
        spread: x.spread,
        decided: true,
    }
}

/// `x * y`
#[tactic(auto, unfolding(ep_tree::specs::Reach::product_span, ep_tree::specs::Reach::with_spread, ep_tree::specs::Reach::wide_span))]
pub fn product_span(x: Span, y: Span) -> Result<Span, SizeError>
    ensures { Gives result (defined.product_span (plain_span x) (plain_span y)) }
{
    match near(product(x.reach, y.reach)) {
        Ok(reach) => Ok(spread_of(reach, x, y)),
        Err(refused) => Err(refused),
    }
}

/// A node whose own value is a truth value.
pub fn truth_node<'a>(total: &mut u64, weight: u64) -> Extent<'a>
    requires { weight ≤ MOST_TOLD }
    ensures { (mode : EachMode) → (env : names.Env) → (e : ExprTree) → (w : ℕ) → weight ≡ capped w
        → IsNumberNode mode env e w defined.truth_span → Finishes mode env e total.old total.new (Ok result) }
{
    weigh(total, weight);
    Extent::Number(truth_span())
}

/// A node whose own value is a number.
pub fn number_node<'a>(
    total: &mut u64,
    weight: u64,
    span: Result<Span, SizeError>,
) -> Result<Extent<'a>, SizeError>
    requires { weight ≤ MOST_TOLD }
    ensures { (mode : EachMode) → (env : names.Env) → (e : ExprTree) → (w : ℕ) → (s : defined.Span) → weight ≡ capped w
        → Gives span s → IsNumberNode mode env e w s → Finishes mode env e total.old total.new result }
{
    match span {
        Ok(own) => {
            weigh(total, weight);
            Ok(Extent::Number(own))
        }
        Err(refused) => Err(refused),
    }
}
