//! Whether a constraint holds, written from what each kind says, where what overflows is a number that no variable has.

use ep_base::{CompareOp, Key, LexOp};
use ep_flat::{Con, ConKind};
use std::alloc::{AllocError, Global};

/// The number of a variable.
fn at(values: &[i64], variable: u64) -> i64 {
    match values.get(variable as usize) {
        Some(value) => *value,
        None => 0,
    }
}

/// The numbers of variables.
fn all_at(alloc: Global, values: &[i64], variables: &[u64]) -> Result<Vec<i64>, AllocError> {
    let mut found = Vec::new(alloc);
    for variable in variables {
        found.push(at(values, *variable))?;
    }
    Ok(found)
}

fn sum(values: &[i64], parts: &[(i64, u64)]) -> i64 {
    let mut sum: i64 = 0;
    for (coefficient, variable) in parts {
        sum = sum.saturating_add(coefficient.saturating_mul(at(values, *variable)));
    }
    sum
}

fn compares(x: i64, op: CompareOp, y: i64) -> bool {
    match op {
        CompareOp::Equal => x == y,
        CompareOp::NotEqual => x != y,
        CompareOp::Less => x < y,
        CompareOp::AtMost => x <= y,
        CompareOp::Greater => x > y,
        CompareOp::AtLeast => x >= y,
    }
}

/// Whether a number may be left by a divisor: it is nearer to 0 than the divisor, on the same side.
fn may_be_left(rest: i64, divisor: i64) -> bool {
    if divisor > 0 {
        0 <= rest && rest < divisor
    } else {
        divisor < rest && rest <= 0
    }
}

fn is_quotient(told: i64, x: i64, y: i64) -> bool {
    if y == 0 {
        return told == 0;
    }
    may_be_left(x.saturating_sub(y.saturating_mul(told)), y)
}

fn is_remainder(told: i64, x: i64, y: i64) -> bool {
    if y == 0 {
        return told == 0;
    }
    may_be_left(told, y) && x.saturating_sub(told).checked_rem(y) == Some(0)
}

/// A power. Those of -1, 0 and 1 repeat, and those of other numbers overflow before the exponent is 64.
fn power(x: i64, exponent: u64) -> i64 {
    let times = if exponent < 64 {
        exponent
    } else {
        64 + exponent % 2
    };
    let mut power: i64 = 1;
    for _ in 0..times {
        power = power.saturating_mul(x);
    }
    power
}

/// The part that is read: at the first key that equals the indices, else the first part, else 0.
fn read(parts: &[i64], keys: &[Key], indices: &[i64]) -> i64 {
    let place = match keys.iter().position(|key| key.numbers() == indices) {
        Some(place) => place,
        None => 0,
    };
    match (parts.get(place), parts.first()) {
        (Some(part), _) | (None, Some(part)) => *part,
        (None, None) => 0,
    }
}

/// Whether no number stands twice.
fn are_different(numbers: &[i64]) -> bool {
    numbers.iter().all(|number| count(numbers, *number) == 1)
}

/// How often a number stands there.
fn count(numbers: &[i64], wanted: i64) -> i64 {
    let mut count: i64 = 0;
    for number in numbers {
        if *number == wanted {
            count = count.saturating_add(1);
        }
    }
    count
}

/// Whether each number stands there so often, compared with its count.
fn are_counted(numbers: &[i64], values: &[i64], op: CompareOp, counts: &[i64]) -> bool {
    if values.len() != counts.len() {
        return false;
    }
    for (value, wanted) in values.iter().zip(counts) {
        if !compares(count(numbers, *value), op, *wanted) {
            return false;
        }
    }
    true
}

/// Whether the numbers are one of the rows, which are all as long.
fn is_row(numbers: &[i64], rows: &[Key]) -> bool {
    rows.iter().all(|row| row.numbers().len() == numbers.len())
        && rows.iter().any(|row| row.numbers() == numbers)
}

/// Whether the first list comes before the other: the first difference decides, and a list comes before a longer one
/// that begins with it.
fn is_before(xs: &[i64], ys: &[i64]) -> bool {
    for (x, y) in xs.iter().zip(ys) {
        if x != y {
            return x < y;
        }
    }
    xs.len() < ys.len()
}

fn are_in_order(op: LexOp, xs: &[i64], ys: &[i64]) -> bool {
    match op {
        LexOp::Less => is_before(xs, ys),
        LexOp::AtMost => xs == ys || is_before(xs, ys),
        LexOp::Greater => is_before(ys, xs),
        LexOp::AtLeast => xs == ys || is_before(ys, xs),
    }
}

/// Whether a constraint of single variables holds.
fn holds_of_single(values: &[i64], kind: &ConKind) -> bool {
    match kind {
        ConKind::Clause(parts) => parts.iter().any(|part| (at(values, part.1) == 1) == part.0),
        ConKind::All(xs) => xs.iter().all(|x| at(values, *x) == 1),
        ConKind::Same(x, y) => (at(values, *x) == 1) == (at(values, *y) == 1),
        ConKind::Linear(parts, op, number) => compares(sum(values, parts), *op, *number),
        ConKind::Member(x, set) => set
            .runs()
            .iter()
            .any(|run| run.lo <= at(values, *x) && at(values, *x) <= run.hi),
        ConKind::Product(r, x, y) => at(values, *r)
            == at(values, *x).saturating_mul(at(values, *y)),
        ConKind::Quotient(r, x, y) => is_quotient(at(values, *r), at(values, *x), at(values, *y)),
        ConKind::Remainder(r, x, y) => is_remainder(at(values, *r), at(values, *x), at(values, *y)),
        ConKind::Power(r, x, exponent) => at(values, *r) == power(at(values, *x), *exponent),
        ConKind::Absolute(r, x) => {
            at(values, *r) >= 0
                && (at(values, *r) == at(values, *x)
                    || at(values, *r).saturating_add(at(values, *x)) == 0)
        }
        _ => false,
    }
}

/// Whether a constraint of lists holds.
fn holds_of_lists(alloc: Global, values: &[i64], kind: &ConKind) -> Result<bool, AllocError> {
    let holds = match kind {
        ConKind::Least(r, xs) => {
            let numbers = all_at(alloc, values, xs)?;
            let least = at(values, *r);
            numbers.contains(&least) && numbers.iter().all(|number| *number >= least)
        }
        ConKind::Greatest(r, xs) => {
            let numbers = all_at(alloc, values, xs)?;
            let greatest = at(values, *r);
            numbers.contains(&greatest) && numbers.iter().all(|number| *number <= greatest)
        }
        ConKind::Element(r, xs, keys, indices) => {
            let parts = all_at(alloc, values, xs)?;
            let indices = all_at(alloc, values, indices)?;
            at(values, *r) == read(&parts, keys, &indices)
        }
        ConKind::AllDiff(xs) => are_different(&all_at(alloc, values, xs)?),
        ConKind::Gcc(xs, numbers, counts) => {
            let parts = all_at(alloc, values, xs)?;
            let counts = all_at(alloc, values, counts)?;
            are_counted(&parts, numbers, CompareOp::Equal, &counts)
        }
        ConKind::AtLeast(xs, counts, numbers) => {
            let parts = all_at(alloc, values, xs)?;
            are_counted(&parts, numbers, CompareOp::AtLeast, counts)
        }
        ConKind::AtMost(xs, counts, numbers) => {
            let parts = all_at(alloc, values, xs)?;
            are_counted(&parts, numbers, CompareOp::AtMost, counts)
        }
        ConKind::Table(xs, rows) => is_row(&all_at(alloc, values, xs)?, rows),
        ConKind::Lex(op, xs, ys) => {
            let left = all_at(alloc, values, xs)?;
            let right = all_at(alloc, values, ys)?;
            are_in_order(*op, &left, &right)
        }
        single => holds_of_single(values, single),
    };
    Ok(holds)
}

/// Whether a constraint is as it has to be: it holds, or its variable is 1 where it does and else 0.
pub(crate) fn is_met(alloc: Global, values: &[i64], con: &Con) -> Result<bool, AllocError> {
    let holds = holds_of_lists(alloc, values, &con.kind)?;
    Ok(match con.truth {
        Some(truth) => at(values, truth) == i64::from(holds),
        None => holds,
    })
}
