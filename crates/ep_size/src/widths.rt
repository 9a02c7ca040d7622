//! How many some numbers are and how wide, and what weighs as much.

ghost use Rattle.std.specs.Prelude.{◌≡◌, ◌≤◌, ◌∷◌, ◌++◌, ◌*◌, ◌+◌, [], List, length, map, ℕ};
ghost use Rattle.ep_base.specs.Intervals as defined_intervals;
ghost use Rattle.ep_tree.specs.Measures as measures;
ghost use Rattle.ep_tree.specs.Reach as defined;
ghost use Rattle.ep_size.specs.Extents.{plain_span};
ghost use Rattle.ep_numbers.specs.Spans.{interval_of};
ghost use Rattle.ep_size.specs.Totals.{MOST_TOLD, capped};
ghost use Rattle.ep_size.specs.Widths.{Widens};

use super::extents::Span;
use super::intervals::told_count;
use super::totals::{product, told};
use ep_numbers::width;

/// How many some numbers are, and their widths together, as far as a weight is told.
#[derive(Clone, Copy, Debug, PartialEq, Eq)]
pub struct Widths {
    pub count: u64,
    pub widths: u64,
}

impl Widths {
    /// Of no number.
    pub fn new() -> Widths
        ensures { Widens result [] }
    {
        Widths {
            count: 0,
            widths: 0,
        }
    }

    /// The same with one number more.
    pub fn add(&mut self, span: Span)
        ensures { (spans : List defined.Span) → Widens self.old spans → Widens self.new (spans ++ plain_span span ∷ []) }
    {
        self.count = told(told(self.count) + 1);
        self.widths = told(told(self.widths) + told_count(width(span.reach)));
    }
}

/// How many some numbers are, and their widths together.
pub fn widths_of(spans: &[Span]) -> Widths
    ensures { Widens result (map plain_span spans.now) }
{
    let mut all = Widths::new();
    for span in spans {
        all.add(*span);
    }
    all
}

/// A product of two numbers, each as far as it is told.
fn capped_product(one: u64, other: u64) -> u64
    ensures told { result ≤ MOST_TOLD }
    ensures value { (a : ℕ) → (b : ℕ) → one ≡ capped a → other ≡ capped b → result ≡ capped (a * b) }
{
    product(told(one), told(other))
}

/// A sum of two numbers, each as far as it is told.
fn capped_sum(one: u64, other: u64) -> u64
    ensures told { result ≤ MOST_TOLD }
    ensures value { (a : ℕ) → (b : ℕ) → one ≡ capped a → other ≡ capped b → result ≡ capped (a + b) }
{
    told(told(one) + told(other))
}

/// The weight of a lexicographic comparison of two lists.
pub fn lex_weight(one: Widths, other: Widths) -> u64
    ensures told { result ≤ MOST_TOLD }
    ensures weight { (first : List defined.Span) → (second : List defined.Span) → Widens one first → Widens other second
        → result ≡ capped (measures.widths first + measures.widths second) }
{
    capped_sum(one.widths, other.widths)
}

/// The weight of whether a number stands in a matrix.
pub fn set_weight(number: Span, matrix: Widths) -> u64
    ensures told { result ≤ MOST_TOLD }
    ensures weight { (parts : List defined.Span) → Widens matrix parts
        → result ≡ capped (length parts * defined_intervals.width (interval_of number.reach) + measures.widths parts) }
{
    capped_sum(
        capped_product(matrix.count, told_count(width(number.reach))),
        matrix.widths,
    )
}

/// The weight of whether the numbers of a matrix are different.
pub fn different_weight(matrix: Widths) -> u64
    ensures told { result ≤ MOST_TOLD }
    ensures weight { (parts : List defined.Span) → Widens matrix parts → result ≡ capped (length parts * measures.widths parts) }
{
    capped_product(matrix.count, matrix.widths)
}

/// The weight of a `gcc`, `atleast` or `atmost`.
pub fn counting_weight(numbers: Widths, values: Widths, counts: Widths) -> u64
    ensures told { result ≤ MOST_TOLD }
    ensures weight { (xs : List defined.Span) → (vs : List defined.Span) → (cs : List defined.Span) → Widens numbers xs
        → Widens values vs → Widens counts cs → result ≡ capped (measures.counting_weight xs vs cs) }
{
    let places = capped_product(numbers.count, capped_sum(numbers.count, 1));
    let pairs = capped_product(values.count, places);
    capped_sum(pairs, capped_sum(numbers.widths, counts.widths))
}

/// The weight of a `table` with so many rows, as far as that is told.
pub fn table_weight(row: Widths, rows: u64) -> u64
    ensures told { result ≤ MOST_TOLD }
    ensures weight { (parts : List defined.Span) → (count : ℕ) → Widens row parts → rows ≡ capped count
        → result ≡ capped (count * length parts + measures.widths parts) }
{
    capped_sum(capped_product(rows, row.count), row.widths)
}
