//! The stream of numbers from which hints are drawn.

ghost use Rattle.std.specs.Prelude.{◌≡◌, ◌≤◌, ◌<◌};
ghost use Rattle.ep_gen.specs.Hints.{hint_of, next_number};

/// The number behind another one in the stream.
#[tactic(auto, unfolding(crate::specs::Hints::next_number))]
pub(crate) fn next_number(number: u64) -> u64
    requires small { number < 2147483648 }
    ensures next { result ≡ next_number number }
    ensures small { result < 2147483648 }
{
    (number * 1_103_515_245 + 12_345) % 2_147_483_648
}

/// The hint of the cell in a row and a column that takes a number of the stream. 0 stands for no hint.
#[tactic(auto, unfolding(crate::specs::Hints::hint_of))]
pub(crate) fn hint(order: u64, row: u64, column: u64, number: u64) -> i64
    requires some { 0 < order }
    requires order { order ≤ 20 }
    requires row { row ≤ 20 }
    requires column { column ≤ 20 }
    ensures { result ≡ hint_of order row column number }
{
    if number / 65_536 % 3 == 0 {
        ((row + column) % order + 1) as i64
    } else {
        0
    }
}
