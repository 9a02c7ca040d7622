//! The values of forms by the values of their parts.

ghost use Rattle.std.specs.Prelude.{◌≡◌, Some, not, option_map};
ghost use Rattle.ep_base.specs.Numbers.{compare_holds};
ghost use Rattle.ep_base.specs.Options.{map_both};
ghost use Rattle.ep_tree.specs.Evaluation.{number_in, truth_in, truth_of};
ghost use Rattle.ep_eval.specs.Counting as both;
ghost use Rattle.ep_eval.specs.Helds.{seen_held};

use super::held::{Held, held_truth, number_of, truth_seen};
use ep_base::CompareOp;
use ep_tree::Mode;

/// A Boolean's value, where one of its parts may have none.
pub fn truth_value<'a>(mode: Mode, truth: Option<bool>) -> Option<Held<'a>>
    ensures { seen_held result ≡ truth_in mode truth }
{
    match truth {
        Some(truth) => held_truth(truth),
        None => match mode {
            Mode::Relational => held_truth(false),
            Mode::Strict => None,
        },
    }
}

/// `!x`
pub fn negation<'a>(mode: Mode, seen: &Option<Held>) -> Option<Held<'a>>
    ensures { seen_held result ≡ truth_in mode (option_map not (truth_of (seen_held seen.now))) }
{
    match truth_seen(seen) {
        Some(truth) => truth_value(mode, Some(!truth)),
        None => truth_value(mode, None),
    }
}

/// Whether a comparison of two numbers holds.
#[tactic(auto, unfolding(ep_base::specs::Numbers::compare_holds))]
pub fn holds(op: CompareOp, left: i64, right: i64) -> bool
    ensures { result ≡ compare_holds op left right }
{
    match op {
        CompareOp::Equal => left == right,
        CompareOp::NotEqual => left != right,
        CompareOp::Less => left < right,
        CompareOp::AtMost => left <= right,
        CompareOp::Greater => left > right,
        CompareOp::AtLeast => left >= right,
    }
}

/// `x = y` and its like
pub fn comparison<'a>(
    mode: Mode,
    op: CompareOp,
    first: &Option<Held>,
    second: &Option<Held>,
) -> Option<Held<'a>>
    ensures { seen_held result ≡ truth_in mode (map_both (compare_holds op)
        (number_in (seen_held first.now)) (number_in (seen_held second.now))) }
{
    match number_of(first) {
        Some(left) => match number_of(second) {
            Some(right) => truth_value(mode, Some(holds(op, left, right))),
            None => truth_value(mode, None),
        },
        None => truth_value(mode, None),
    }
}

/// Two truths together, where both are there.
#[tactic(auto, unfolding(crate::specs::Counting::together, ep_base::specs::Options::map_both))]
pub fn together(every: bool, one: Option<bool>, other: Option<bool>) -> Option<bool>
    ensures { result ≡ map_both (both.together every) one other }
{
    match one {
        Some(first) => match other {
            Some(second) => {
                if every {
                    return Some(first && second);
                }
                Some(first || second)
            }
            None => None,
        },
        None => None,
    }
}
