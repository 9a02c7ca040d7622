//! Totals of terms.

ghost use Rattle.std.specs.Prelude.{◌≡◌, ◌+◌, ◌≤◌, ◌+ℤ◌, ℕ, Some, FitsSigned, option_map};
ghost use Rattle.std.specs.Int.{w128};
ghost use Rattle.ep_base.specs.Options.{map_both};
ghost use Rattle.ep_tree.specs.Evaluation as evaluation;
ghost use Rattle.ep_eval.specs.Counting.{IsWithin};

/// A number with its sign.
#[tactic(auto, unfolding(ep_tree::specs::Evaluation::signed))]
fn signed(plus: bool, number: i64) -> i128
    ensures { result ≡ evaluation.signed plus number }
{
    if plus {
        return i128::from(number);
    }
    -i128::from(number)
}

/// A sum and a number more, if that fits.
fn with_number(sum: i128, number: i128) -> Option<i128>
    ensures { FitsSigned w128 (sum +ℤ number) → result ≡ Some (sum +ℤ number) }
{
    sum.checked_add(number)
}

/// A total and a term more, which is added or subtracted, where both are there. It is exact for totals of as many terms as
/// may be met.
pub fn with_term(total: Option<i128>, plus: bool, term: Option<i64>) -> Option<i128>
    ensures { (most : ℕ) → most ≤ 46116860184273879040000000 → IsWithin most total
        → (result ≡ map_both ◌+ℤ◌ total (option_map (evaluation.signed plus) term))
        × IsWithin (most + 9223372036854775808) result }
{
    match total {
        Some(sum) => match term {
            Some(number) => with_number(sum, signed(plus, number)),
            None => None,
        },
        None => None,
    }
}
