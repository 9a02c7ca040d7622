//! Parts of values, and the order of indices.

ghost use Rattle.std.specs.Prelude.{◌≡◌, ◌<ℤ◌, ℤ, Some, true, option_and_then, option_map};
ghost use Rattle.ep_base.specs.Runs.{IsAscending};
ghost use Rattle.ep_tree.specs.Values.{part_at};
ghost use Rattle.ep_tree.specs.Views.{value_tree, values_from};
ghost use Rattle.ep_eval.specs.Helds.{seen_held};
ghost use Rattle.ep_eval.specs.Reading.{part_under};

use super::blocks::is_index;
use ep_eval::Held;
use ep_tree::Value;

/// The part with an index, if there is one. Linear in the indices.
fn part_of<'v>(own: &[i64], parts: &'v [Value], index: i64) -> Option<&'v Value>
    ensures { option_map (λ part. value_tree part.now) result ≡ part_at own.now (values_from parts.now) index }
{
    let mut left = parts;
    for own_index in own {
        match left.split_first() {
            Some((part, rest)) => {
                if is_index(index, *own_index) {
                    return Some(part);
                }
                left = rest;
            }
            None => return None,
        }
    }
    None
}

/// The part of a value with an index, if there is one.
fn part_in(value: &Value, index: i64) -> Option<&Value>
    ensures { option_map (λ part. value_tree part.now) result ≡ part_under (value_tree value.now) index }
{
    match value {
        Value::Number(_) => None,
        Value::Matrix(own, parts) => part_of(own, parts, index),
    }
}

/// The part of what was evaluated with an index, if there is one.
pub fn part_seen<'v>(seen: &'v Option<Held<'_>>, index: i64) -> Option<&'v Value>
    ensures { option_map (λ part. value_tree part.now) result ≡ option_and_then (λ v. part_under v index) (seen_held seen.now) }
{
    match seen {
        Some(held) => match held {
            Held::Number(_) => None,
            Held::Lent(value) => part_in(value, index),
            Held::Made(value) => part_in(value, index),
        },
        None => None,
    }
}

/// Whether a number is greater than the last one, where there is one.
fn is_behind(last: Option<i64>, number: i64) -> bool
    ensures { result ≡ true → (before : ℤ) → last ≡ Some before → before <ℤ number }
{
    match last {
        Some(before) => {
            if before < number {
                return true;
            }
            false
        }
        None => true,
    }
}

/// Whether numbers ascend.
pub fn ascend(numbers: &[i64]) -> bool
    ensures { result ≡ true → IsAscending numbers.now }
{
    let mut last: Option<i64> = None;
    for number in numbers {
        if !is_behind(last, *number) {
            return false;
        }
        last = Some(*number);
    }
    true
}
