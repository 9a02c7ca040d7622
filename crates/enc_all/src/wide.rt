//! Which sums are wide: so wide that binary adders cost less than partial sums with a literal for each number.

ghost use Rattle.std.specs.Prelude.{◌<◌, length};
ghost use Rattle.std.specs.List.{All};

use enc_var::Layout;
use ep_base::{CompareOp, Memory};
use ep_numbers::listed;
use std::alloc::Global;

/// A part of a sum.
#[derive(Drop)]
struct Part {
    /// What it can be worth.
    worths: Vec<i128>,
    /// The least of that.
    least: i128,
    /// The greatest of that.
    greatest: i128,
}

/// Between which numbers the parts of a sum lie that weren't met yet.
#[derive(Clone, Copy)]
struct Rest {
    /// The sum is no less than this.
    least: i128,
    /// The sum is no greater than this.
    greatest: i128,
}

/// A variable with a coefficient.
fn part_of(alloc: Global, layout: &Layout, coefficient: i64, var: u64) -> Result<Part, Memory>
    requires { var < length layout.now }
{
    let numbers = listed(alloc, layout.domain(var))?;
    let size = i128::from(coefficient);
    let mut worths = Vec::new(alloc);
    let mut least = i128::MAX;
    let mut greatest = i128::MIN;
    for number in &numbers {
        let worth = size.saturating_mul(i128::from(*number));
        least = least.min(worth);
        greatest = greatest.max(worth);
        worths.push(worth)?;
    }
    Ok(Part {
        worths,
        least,
        greatest,
    })
}

/// How far apart the least and the greatest worth of a part are.
fn span(part: &Part) -> i128 {
    part.greatest.saturating_sub(part.least)
}

/// The parts of a sum, that of the least span first.
fn parts_of(alloc: Global, layout: &Layout, parts: &[(i64, u64)]) -> Result<Vec<Part>, Memory>
    requires { All (λ part. part.1 < length layout.now) parts.now }
{
    let mut list = Vec::new(alloc);
    for part in parts {
        let one = part_of(alloc, layout, part.0, part.1)?;
        list.push(one)?;
    }
    list.sort_by_key(span)?;
    Ok(list)
}

/// Between which numbers a sum of parts lies.
fn rest_of(parts: &[Part]) -> Rest {
    let mut least: i128 = 0;
    let mut greatest: i128 = 0;
    for part in parts {
        least = least.saturating_add(part.least);
        greatest = greatest.saturating_add(part.greatest);
    }
    Rest { least, greatest }
}

/// A number, or where the rest can't bring it back to the number that the sum is compared with, the nearest such one.
fn clipped(sum: i128, rest: Rest, number: i128) -> i128 {
    let low = number.saturating_sub(rest.greatest).saturating_sub(1);
    let high = number.saturating_sub(rest.least).saturating_add(1);
    sum.max(low).min(high)
}

/// Adds the sums of a number and what a part can be worth to others.
fn push_sums(
    sums: &mut Vec<i128>,
    sum: i128,
    part: &Part,
    rest: Rest,
    number: i128,
) -> Result<(), Memory> {
    for worth in &part.worths {
        sums.push(clipped(sum.saturating_add(*worth), rest, number))?;
    }
    Ok(())
}

/// The different sums of numbers and what a part can be worth, as far as the rest leaves them apart.
fn joined(
    alloc: Global,
    sums: &[i128],
    part: &Part,
    rest: Rest,
    number: i128,
) -> Result<Vec<i128>, Memory> {
    let mut further = Vec::new(alloc);
    for sum in sums {
        push_sums(&mut further, *sum, part, rest, number)?;
    }
    further.sort_unstable();
    further.dedup();
    Ok(further)
}

/// How many clauses partial sums cost, part by part, or a number above `most`. Stops as soon as it is above that. The last
/// part needs no partial sum.
fn order_cost(
    alloc: Global,
    parts: &[Part],
    number: i64,
    ways: i128,
    most: i128,
) -> Result<i128, Memory> {
    let number = i128::from(number);
    let mut rest = rest_of(parts);
    let mut sums = vec![in alloc; 0i128]?;
    let mut cost: i128 = 0;
    for part in &parts[..parts.len().saturating_sub(1)] {
        let pairs = (sums.len() as i128).saturating_mul(part.worths.len() as i128);
        cost = cost.saturating_add(ways.saturating_mul(pairs));
        if cost > most {
            return Ok(cost);
        }
        rest.least = rest.least.saturating_sub(part.least);
        rest.greatest = rest.greatest.saturating_sub(part.greatest);
        sums = joined(alloc, &sums, part, rest, number)?;
    }
    Ok(cost)
}

/// In how many directions a partial sum is tied to its parts.
fn ways_of(truth: Option<u64>, op: CompareOp) -> i128 {
    match (truth, op) {
        (Some(_), _) => 2,
        (None, CompareOp::Equal) => 2,
        (None, CompareOp::NotEqual) => 2,
        (None, _) => 1,
    }
}

/// How much of a sum there is to be written down, in numbers that the sum and its parts have. A last part that spans as much
/// as all others together is what their sum is called, and doesn't count.
fn extent(parts: &[Part]) -> i128 {
    let mut span_of_all: i128 = 0;
    let mut extent: i128 = 1;
    for (place, part) in parts.iter().enumerate() {
        let one = span(part);
        if place + 1 < parts.len() || one < span_of_all {
            extent = extent.saturating_add(part.worths.len() as i128);
            span_of_all = span_of_all.saturating_add(one);
        }
    }
    extent.saturating_add(span_of_all)
}

/// How many clauses partial sums may cost, at most, so that they are taken for these parts, that of the least span first. Adders
/// propagate less, and pay only where partial sums cost many times what the numbers of the parts and of the sum do. The
/// factor was measured.
fn most_for(parts: &[Part]) -> i128 {
    let bits = extent(parts).saturating_mul(8);
    let fixed = (parts.len() as i128).saturating_mul(1024);
    bits.saturating_add(fixed).saturating_mul(8) / 3
}

/// Whether a sum is wide.
pub(crate) fn is_wide(
    alloc: Global,
    layout: &Layout,
    truth: Option<u64>,
    parts: &[(i64, u64)],
    op: CompareOp,
    number: i64,
) -> Result<bool, Memory>
    requires { All (λ part. part.1 < length layout.now) parts.now }
{
    if parts.len() < 3 {
        return Ok(false);
    }
    let list = parts_of(alloc, layout, parts)?;
    let most = most_for(&list);
    let cost = order_cost(alloc, &list, number, ways_of(truth, op), most)?;
    Ok(cost > most)
}
