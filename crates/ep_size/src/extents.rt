//! What is known of an expression's value: of a number, or of each scalar of a matrix.

ghost use Rattle.std.specs.Prelude.{◌≡◌, Some, None};
ghost use Rattle.ep_tree.specs.Reach as defined;
ghost use Rattle.ep_tree.specs.Values.{filled};
ghost use Rattle.ep_tree.specs.Views.{value_tree};
ghost use Rattle.ep_eval.specs.Helds.{held_value};
ghost use Rattle.ep_size.specs.Extents.{fixed_grid, grid_of, plain_span};
ghost use Rattle.ep_numbers.specs.Spans.{interval_of};

use ep_base::Runs;
use ep_eval::Held;
use ep_numbers::{Span as Ends, width};
use ep_tree::Value;

/// What is known of a number: the numbers that it may be, how many values it takes, and whether a decision variable
/// stands in it.
#[derive(Clone, Copy, Debug, PartialEq, Eq)]
pub struct Span {
    pub reach: Ends,
    pub spread: u128,
    pub decided: bool,
}

/// What is known of an expression's value. What is lent belongs to the environment and is never copied to be read.
#[derive(Drop)]
pub enum Extent<'a> {
    /// Of a number.
    Number(Span),
    /// Of the cells of a decision variable over index domains, all of which are alike.
    Cells(Span, &'a [Runs]),
    /// Of a value without decision variables: its numbers alone.
    Fixed(Held<'a>),
    /// Of a number without decision variables that has no value.
    Nothing,
    /// Of a matrix without decision variables that has no value: of no part.
    NoParts,
    /// Of the parts of a matrix, with their indices.
    Matrix(Vec<i64>, Vec<Extent<'a>>),
}

/// A number without a decision variable.
#[tactic(auto, unfolding(ep_tree::specs::Reach::fixed_span))]
pub fn fixed_number(number: i64) -> Span
    ensures { plain_span result ≡ defined.fixed_span (Some number) }
{
    Span {
        reach: Ends {
            low: number,
            high: number,
        },
        spread: 1,
        decided: false,
    }
}

/// A number without a decision variable that has no value.
#[tactic(auto, unfolding(ep_tree::specs::Reach::fixed_span))]
pub fn undefined_number() -> Span
    ensures { plain_span result ≡ defined.fixed_span None }
{
    fixed_number(0)
}

/// A truth value with a decision variable.
pub fn truth_span() -> Span
    ensures { plain_span result ≡ defined.truth_span }
{
    Span {
        reach: Ends { low: 0, high: 1 },
        spread: 2,
        decided: true,
    }
}

/// A number with a decision variable that takes all values between these ends.
#[tactic(auto, unfolding(ep_tree::specs::Reach::wide_span))]
pub fn wide_span(reach: Ends) -> Span
    ensures { plain_span result ≡ defined.wide_span (interval_of reach) }
{
    Span {
        reach,
        spread: width(reach),
        decided: true,
    }
}

/// What is known of the number of a value; of a matrix, that of an empty sum.
#[tactic(auto, unfolding(ep_tree::specs::Reach::span_of, ep_tree::specs::Values::map_grid, ep_tree::specs::Views::value_tree))]
fn value_span(value: &Value) -> Span
    ensures { plain_span result ≡ defined.span_of (fixed_grid (value_tree value.now)) }
{
    match value {
        Value::Number(number) => fixed_number(*number),
        Value::Matrix(_, _) => undefined_number(),
    }
}

/// The same of a value that is held.
#[tactic(auto, unfolding(ep_eval::specs::Helds::held_value, ep_tree::specs::Reach::span_of, ep_tree::specs::Values::map_grid))]
fn held_span(held: &Held) -> Span
    ensures { plain_span result ≡ defined.span_of (fixed_grid (held_value held.now)) }
{
    match held {
        Held::Number(number) => fixed_number(*number),
        Held::Lent(value) => value_span(value),
        Held::Made(value) => value_span(value),
    }
}

/// The same of the cells of a decision variable, of which there is one where it has no index domain.
fn cells_span(span: Span, indices: &[Runs]) -> Span
    ensures { plain_span result ≡ defined.span_of (filled (plain_span span) indices.now) }
{
    match indices.split_first() {
        Some(_) => undefined_number(),
        None => span,
    }
}

/// What is known of a number; of a matrix, that of an empty sum.
#[tactic(auto, unfolding(crate::specs::Extents::grid_of, ep_tree::specs::Reach::span_of, ep_tree::specs::Values::filled))]
pub fn number_span(extent: &Extent) -> Span
    ensures { plain_span result ≡ defined.span_of (grid_of extent.now) }
{
    match extent {
        Extent::Number(span) => *span,
        Extent::Cells(span, indices) => cells_span(*span, indices),
        Extent::Fixed(held) => held_span(held),
        Extent::Nothing => undefined_number(),
        Extent::NoParts => undefined_number(),
        Extent::Matrix(_, _) => undefined_number(),
    }
}
