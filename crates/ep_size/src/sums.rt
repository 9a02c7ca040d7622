//! Sums of numbers of which the reaches and spreads are known, one after another.

ghost use Rattle.std.specs.Prelude.{◌≡◌, ◌+◌, ◌<◌, ◌≤◌, ◌^◌, ◌∷◌, ◌++◌, [], List, length, map};
ghost use Rattle.ep_base.specs.Intervals as defined_intervals;
ghost use Rattle.ep_tree.specs.Environments as names;
ghost use Rattle.ep_tree.specs.Measures as measures;
ghost use Rattle.ep_tree.specs.Reach as defined;
ghost use Rattle.ep_tree.specs.Trees.{ExprTree};
ghost use Rattle.ep_tree.specs.declared.values.Mode.{Mode as EachMode};
ghost use Rattle.ep_size.specs.Extents.{plain_span};
ghost use Rattle.ep_size.specs.Finishing.{Finishes, Gives, IsNumberNode};
ghost use Rattle.ep_numbers.specs.Spans.{wide_interval};
ghost use Rattle.ep_size.specs.Sums.{Sums};
ghost use Rattle.ep_size.specs.Totals.{MOST_TOLD, capped};

use super::errors::SizeError;
use super::extents::{Extent, Span};
use super::intervals::told_count;
use super::nodes::{number_node, wide};
use super::totals::{MOST_TOLD, told};
use ep_numbers::WideSpan;

/// What is known of a sum so far.
#[derive(Clone, Copy, Debug, PartialEq, Eq)]
pub struct Summed {
    low: i128,
    high: i128,
    spreads: u64,
    parts: u64,
}

/// A width, as far as it is told.
pub fn told_width(ends: WideSpan) -> u64
    ensures { result ≡ capped (defined_intervals.width (wide_interval ends)) }
{
    if ends.high < ends.low {
        return 0;
    }
    let behind = ends.high.saturating_sub(ends.low);
    if behind > 20_000_000 {
        return MOST_TOLD;
    }
    behind as u64 + 1
}

/// What a sum costs, as far as it is told.
fn told_cost(width: u64, spreads: u64, parts: u64) -> u64
    requires first { width ≤ MOST_TOLD }
    requires second { spreads ≤ MOST_TOLD }
    requires third { parts ≤ MOST_TOLD }
    ensures { result ≡ capped (defined_intervals.sum_cost width spreads parts) }
{
    let rows = width * spreads;
    let adders = 8 * (width + spreads) + 1024 * parts;
    told(rows.min(adders))
}

impl Summed {
    /// A sum of no number.
    pub fn new() -> Summed
        ensures { Sums result [] }
    {
        Summed {
            low: 0,
            high: 0,
            spreads: 0,
            parts: 0,
        }
    }

    /// The same with one number more.
    pub fn add(&mut self, span: Span)
        ensures { (spans : List defined.Span) → length spans + 1 < 2 ^ 64 → Sums self.old spans
            → Sums self.new (spans ++ plain_span span ∷ []) }
    {
        self.low = self.low.saturating_add(i128::from(span.reach.low));
        self.high = self.high.saturating_add(i128::from(span.reach.high));
        if span.decided {
            self.spreads = told(told(self.spreads) + told_count(span.spread));
            self.parts = told(told(self.parts) + 1);
        }
    }

    /// The same with the opposite of a number more.
    fn subtract(&mut self, span: Span)
        ensures { (spans : List defined.Span) → length spans + 1 < 2 ^ 64 → Sums self.old spans
            → Sums self.new (spans ++ defined.negated_span (plain_span span) ∷ []) }
    {
        self.low = self.low.saturating_sub(i128::from(span.reach.high));
        self.high = self.high.saturating_sub(i128::from(span.reach.low));
        if span.decided {
            self.spreads = told(told(self.spreads) + told_count(span.spread));
            self.parts = told(told(self.parts) + 1);
        }
    }

    /// The same with one term of a chain more, which is added or subtracted.
    pub fn add_signed(&mut self, plus: bool, span: Span)
        ensures { (spans : List defined.Span) → length spans + 1 < 2 ^ 64 → Sums self.old spans
            → Sums self.new (spans ++ defined.signed_span plus (plain_span span) ∷ []) }
    {
        if plus {
            self.add(span);
        } else {
            self.subtract(span);
        }
    }

    /// What is known of the whole sum.
    pub fn span(self) -> Result<Span, SizeError>
        ensures { (spans : List defined.Span) → Sums self spans → Gives result (defined.sum_span spans) }
    {
        wide(WideSpan {
            low: self.low,
            high: self.high,
        })
    }

    /// What the sum weighs, as far as it is told.
    pub fn weight(self) -> u64
        ensures told { result ≤ MOST_TOLD }
        ensures weight { (spans : List defined.Span) → Sums self spans → result ≡ capped (measures.sum_weight spans) }
    {
        let width = told_width(WideSpan {
            low: self.low,
            high: self.high,
        });
        told_cost(width, told(self.spreads), told(self.parts))
    }
}

/// A node whose own value is this sum.
pub fn summed_node<'a>(total: &mut u64, sum: Summed) -> Result<Extent<'a>, SizeError>
    ensures { (mode : EachMode) → (env : names.Env) → (e : ExprTree) → (spans : List defined.Span) → Sums sum spans
        → IsNumberNode mode env e (measures.sum_weight spans) (defined.sum_span spans)
        → Finishes mode env e total.old total.new result }
{
    number_node(total, sum.weight(), sum.span())
}

/// The sum of some numbers.
pub fn sum_all(spans: &[Span]) -> Summed
    ensures { Sums result (map plain_span spans.now) }
{
    let mut sum = Summed::new();
    for span in spans {
        sum.add(*span);
    }
    sum
}
