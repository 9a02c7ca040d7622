//! Values as the evaluator has them: a matrix of the environment is lent and never copied to be read.

ghost use Rattle.std.specs.Prelude.{◌≡◌, Some, option_map};
ghost use Rattle.ep_base.specs.Numbers.{is_one, of_bool};
ghost use Rattle.ep_tree.specs.Evaluation.{number_in, truth_of};
ghost use Rattle.ep_tree.specs.Values.{single};
ghost use Rattle.ep_tree.specs.Views.{value_tree};
ghost use Rattle.ep_eval.specs.Helds.{held_value, seen_held};

use ep_tree::Value;

/// A value: a number, a matrix of the environment, or one that was made.
#[derive(Drop)]
pub enum Held<'a> {
    /// A number.
    Number(i64),
    /// A value of the environment.
    Lent(&'a Value),
    /// A value that was made.
    Made(Value),
}

/// The number that a value is, if it is one.

fn plain_number(value: &Value) -> Option<i64>
    ensures { result ≡ number_in (Some (value_tree value.now)) }
{
    match value {
        Value::Number(number) => Some(*number),
        Value::Matrix(_, _) => None,
    }
}

/// The number that is held, if it is one.
fn held_number(held: &Held) -> Option<i64>
    ensures { result ≡ number_in (Some (held_value held.now)) }
{
    match held {
        Held::Number(number) => Some(*number),
        Held::Lent(value) => plain_number(value),
        Held::Made(value) => plain_number(value),
    }
}

/// The number that was seen, if it was one.
pub fn number_of(seen: &Option<Held>) -> Option<i64>
    ensures { result ≡ number_in (seen_held seen.now) }
{
    match seen {
        Some(held) => held_number(held),
        None => None,
    }
}

/// A truth value, as the number that stands for it.
pub fn held_truth<'a>(truth: bool) -> Option<Held<'a>>
    ensures { seen_held result ≡ Some (single (of_bool truth)) }
{
    if truth {
        return Some(Held::Number(1));
    }
    Some(Held::Number(0))
}

/// The truth of what was seen, if it was a number.
pub fn truth_seen(seen: &Option<Held>) -> Option<bool>
    ensures { result ≡ truth_of (seen_held seen.now) }
{
    match number_of(seen) {
        Some(number) => Some(number == 1),
        None => None,
    }
}
