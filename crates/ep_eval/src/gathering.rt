//! What the instances of a quantifier give, one after another.

ghost use Rattle.std.specs.Prelude.{◌≡◌, ◌+◌, ◌≤◌, ◌∷◌, [], ℕ};
ghost use Rattle.ep_eval.specs.Counting.{Gives};
ghost use Rattle.ep_eval.specs.Gathering.{IsSmall, none_at_all, nothing_yet, gathered_with_more, worth};
ghost use Rattle.ep_eval.specs.Helds.{seen_held};

use super::binaries::some_number;
use super::errors::EvalError;
use super::forms::{together, truth_value};
use super::held::{Held, number_of, truth_seen};
use super::totals::with_term;
use ep_tree::{Mode, QuantOp};

/// What some instances gave.
#[derive(Clone, Copy)]
pub enum Gathered {
    /// Whether all are true, or one is, where each is defined.
    Truths(bool, Option<bool>),
    /// Their total, where each is defined.
    Total(Option<i128>),
}

/// What is gathered before the first instance.
#[tactic(auto, unfolding(crate::specs::Gathering::nothing_yet))]
pub fn before_all(op: QuantOp) -> Gathered
    ensures { result ≡ nothing_yet op }
{
    match op {
        QuantOp::ForAll => Gathered::Truths(true, Some(true)),
        QuantOp::Exists => Gathered::Truths(false, Some(false)),
        QuantOp::Sum => Gathered::Total(Some(0)),
    }
}

/// What is gathered where the domain is undefined.
#[tactic(auto, unfolding(crate::specs::Gathering::none_at_all))]
pub fn without_domain(op: QuantOp) -> Gathered
    ensures { result ≡ none_at_all op }
{
    match op {
        QuantOp::ForAll => Gathered::Truths(true, None),
        QuantOp::Exists => Gathered::Truths(false, None),
        QuantOp::Sum => Gathered::Total(None),
    }
}

/// What is gathered with what an instance showed.
fn with_seen(gathered: Gathered, seen: &Option<Held>) -> Gathered
    ensures { (most : ℕ) → most ≤ 46116860184273879040000000 → IsSmall most gathered
        → (result ≡ gathered_with_more gathered (seen_held seen.now ∷ []))
        × IsSmall (most + 9223372036854775808) result }
{
    match gathered {
        Gathered::Truths(every, truth) => {
            Gathered::Truths(every, together(every, truth, truth_seen(seen)))
        }
        Gathered::Total(total) => Gathered::Total(with_term(total, true, number_of(seen))),
    }
}

/// What is gathered with an instance more.
pub fn with_instance(gathered: Gathered, seen: Option<Held>) -> Gathered
    ensures { (most : ℕ) → most ≤ 46116860184273879040000000 → IsSmall most gathered
        → (result ≡ gathered_with_more gathered (seen_held seen.entry ∷ []))
        × IsSmall (most + 9223372036854775808) result }
{
    with_seen(gathered, &seen)
}

/// The value of the quantifier.
#[tactic(auto, unfolding(crate::specs::Gathering::worth))]
pub fn gathered_value<'a>(mode: Mode, gathered: Gathered) -> Result<Option<Held<'a>>, EvalError>
    ensures { Gives result (worth mode gathered) }
{
    match gathered {
        Gathered::Truths(_, truth) => Ok(truth_value(mode, truth)),
        Gathered::Total(total) => some_number(total),
    }
}
