//! What operations give, with numbers so small that nothing overflows.

use ep_base::{CompareOp, Key, LexOp};

/// The floor of a quotient.
fn floor(x: i64, y: i64) -> Option<i64> {
    let quotient = x.checked_div(y)?;
    let rest = x.checked_rem(y)?;
    if rest != 0 && (rest < 0) != (y < 0) {
        return quotient.checked_sub(1);
    }
    Some(quotient)
}

pub(crate) fn divided(x: i64, y: i64) -> Option<i64> {
    floor(x, y)
}

/// What the floor of the quotient leaves.
pub(crate) fn left(x: i64, y: i64) -> Option<i64> {
    x.checked_sub(y.checked_mul(floor(x, y)?)?)
}

pub(crate) fn power(x: i64, exponent: u64) -> Option<i64> {
    let mut power: i64 = 1;
    for _ in 0..exponent {
        power = power.checked_mul(x)?;
    }
    Some(power)
}

pub(crate) fn compares(x: i64, op: CompareOp, y: i64) -> bool {
    match op {
        CompareOp::Equal => x == y,
        CompareOp::NotEqual => x != y,
        CompareOp::Less => x < y,
        CompareOp::AtMost => x <= y,
        CompareOp::Greater => x > y,
        CompareOp::AtLeast => x >= y,
    }
}

/// How often a number stands there.
fn count(numbers: &[i64], wanted: i64) -> i64 {
    let mut count: i64 = 0;
    for number in numbers {
        if *number == wanted {
            count = count.saturating_add(1);
        }
    }
    count
}

/// Whether no number stands twice.
pub(crate) fn are_different(numbers: &[i64]) -> bool {
    numbers.iter().all(|number| count(numbers, *number) == 1)
}

/// Whether each value stands there so often, compared with its count.
pub(crate) fn are_counted(numbers: &[i64], values: &[i64], op: CompareOp, counts: &[i64]) -> bool {
    if values.len() != counts.len() {
        return false;
    }
    for (value, wanted) in values.iter().zip(counts) {
        if !compares(count(numbers, *value), op, *wanted) {
            return false;
        }
    }
    true
}

/// Whether the numbers are one of the rows, which are all as long.
pub(crate) fn is_row(numbers: &[i64], rows: &[Key]) -> bool {
    rows.iter().all(|row| row.numbers().len() == numbers.len())
        && rows.iter().any(|row| row.numbers() == numbers)
}

/// Whether the first list comes before the other.
fn is_before(xs: &[i64], ys: &[i64]) -> bool {
    for (x, y) in xs.iter().zip(ys) {
        if x != y {
            return x < y;
        }
    }
    xs.len() < ys.len()
}

pub(crate) fn are_in_order(op: LexOp, xs: &[i64], ys: &[i64]) -> bool {
    match op {
        LexOp::Less => is_before(xs, ys),
        LexOp::AtMost => xs == ys || is_before(xs, ys),
        LexOp::Greater => is_before(ys, xs),
        LexOp::AtLeast => xs == ys || is_before(ys, xs),
    }
}
