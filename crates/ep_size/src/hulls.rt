//! Reads that give a scalar: what is known of it by the scalars that are left, and what the read weighs.

ghost use Rattle.std.specs.Prelude.{◌≡◌, ◌≤◌, ◌∷◌, ◌++◌, [], List, length, replicate, sum_by, false, ℕ};
ghost use Rattle.std.specs.List.{list_any};
ghost use Rattle.ep_base.specs.Intervals as defined_intervals;
ghost use Rattle.ep_tree.specs.Measures as measures;
ghost use Rattle.ep_tree.specs.Reach as defined;
ghost use Rattle.ep_tree.specs.Reach.{MeasuredIndex, is_decided_index};
ghost use Rattle.ep_size.specs.Extents.{plain_span};
ghost use Rattle.ep_size.specs.Finishing.{Gives};
ghost use Rattle.ep_size.specs.Hulls.{Hulls};
ghost use Rattle.ep_numbers.specs.Spans.{interval_of};
ghost use Rattle.ep_size.specs.Totals.{MOST_TOLD, capped};

use super::errors::SizeError;
use super::extents::{Span, truth_span};
use super::intervals::{near, told_count};
use super::nodes::wide;
use super::totals::{product, told};
use ep_numbers::{Span as Ends, widened, width};
use ep_tree::Scalar;

/// What is known of one of some numbers: from the least to the greatest of them. With how many they are, as far as a weight
/// is told, and the first of them.
#[derive(Clone, Copy, Debug, PartialEq, Eq)]
pub struct Hulled {
    reach: Ends,
    count: u64,
    first: Span,
}

/// From the least to the greatest of the numbers between two ends, and between two others.
#[tactic(auto, unfolding(ep_base::specs::Intervals::hull, ep_base::specs::Intervals::least_or_zero, ep_base::specs::Intervals::greatest_or_zero, ep_base::specs::Numbers::least_of, ep_base::specs::Numbers::greatest_of))]
fn hull_of(x: Ends, y: Ends) -> Ends
    ensures { interval_of result ≡ defined_intervals.hull (interval_of x ∷ interval_of y ∷ []) }
{
    Ends {
        low: x.low.min(y.low),
        high: x.high.max(y.high),
    }
}

/// A number that is near enough to 0 to be kept.
fn kept(span: Span) -> Result<Span, SizeError>
    ensures { Gives result (plain_span span) }
{
    match near(widened(span.reach)) {
        Ok(_) => Ok(span),
        Err(refused) => Err(refused),
    }
}

impl Hulled {
    /// Of no number.
    pub fn new() -> Hulled
        ensures { Hulls result [] }
    {
        Hulled {
            reach: Ends { low: 0, high: 0 },
            count: 0,
            first: truth_span(),
        }
    }

    /// Of so many numbers that are alike, as far as that is told.
    pub fn repeated(span: Span, count: u64) -> Hulled
        ensures { (n : ℕ) → count ≡ capped n → Hulls result (replicate n (plain_span span)) }
    {
        if count == 0 {
            return Hulled::new();
        }
        Hulled {
            reach: span.reach,
            count,
            first: span,
        }
    }

    /// The same with one number more.
    pub fn add(&mut self, span: Span)
        ensures { (spans : List defined.Span) → Hulls self.old spans → Hulls self.new (spans ++ plain_span span ∷ []) }
    {
        if self.count == 0 {
            self.reach = span.reach;
            self.count = 1;
            self.first = span;
            return;
        }
        self.reach = hull_of(self.reach, span.reach);
        self.count = told(told(self.count) + 1);
    }

    /// How many they are, as far as that is told.
    pub fn count(self) -> u64
        ensures { (spans : List defined.Span) → Hulls self spans → result ≡ capped (length spans) }
    {
        self.count
    }

    /// What is known of one of them.
    fn one_of(self, scalar: Scalar) -> Result<Span, SizeError>
        ensures { (spans : List defined.Span) → Hulls self spans → Gives result (defined.read_span false scalar spans) }
    {
        match scalar {
            Scalar::Bool => Ok(truth_span()),
            Scalar::Int => wide(widened(self.reach)),
        }
    }

    /// What is known of a read of them, where it is told whether it gives a cell.
    pub fn span(self, of_cell: bool, scalar: Scalar) -> Result<Span, SizeError>
        ensures { (spans : List defined.Span) → Hulls self spans → Gives result (defined.read_span of_cell scalar spans) }
    {
        if !of_cell {
            return self.one_of(scalar);
        }
        if self.count == 1 {
            return kept(self.first);
        }
        self.one_of(scalar)
    }
}

/// What a read weighs that gives this, where so many numbers are left: whether a decision variable stands in one of its
/// indices, and the widths of its indices together, as far as they are told.
pub fn read_weight(is_decided: bool, widths: u64, whole: Span, left: u64) -> u64
    ensures told { result ≤ MOST_TOLD }
    ensures weight { (is : List MeasuredIndex) → (spans : List defined.Span) → is_decided ≡ list_any is_decided_index is
        → widths ≡ capped (sum_by measures.index_width is) → left ≡ capped (length spans)
        → result ≡ capped (measures.read_weight is (plain_span whole) spans) }
{
    if !is_decided {
        return 0;
    }
    let wide = told(told_count(width(whole.reach)) + told(widths));
    product(told(left), wide)
}
