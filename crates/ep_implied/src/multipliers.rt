//! How often each constraint is to be in a sum, so that the sum bounds the objective as far as can be found.
//!
//! Nothing is promised of these numbers: whatever they are, what is made of them follows. They are those of the relaxation in which
//! constraints may be broken at a price, sought by steps that get smaller.

use crate::bounding::WHOLE;
use crate::rounding::end_of;
use crate::sums::{at, zeros};
use ep_base::{CompareOp, Memory};
use ep_flat::{Con, ConKind, Flat};
use std::alloc::Global;

/// How many steps are tried at most, and how many terms they may look at together.
const MOST_STEPS: usize = 2000;

const MOST_LOOKS: usize = 5_000_000;

/// After so many steps that don't better the bound the steps are halved, and they end when they were halved so often.
const PATIENCE: u32 = 20;

const MOST_HALVINGS: u32 = 40;

/// Numbers of constraints, and the bound that they make of the objective, both `WHOLE` times what they are.
#[derive(Drop)]
struct Tried {
    times: Vec<i128>,
    bound: i128,
}

/// Which way a step goes: by how much each constraint is broken, and the sum of the squares of that.
#[derive(Drop)]
struct Way {
    broken: Vec<i128>,
    squares: i128,
}

fn copied(alloc: Global, numbers: &[i128]) -> Result<Vec<i128>, Memory> {
    let mut copy = Vec::new(alloc);
    for number in numbers {
        copy.push(*number)?;
    }
    Ok(copy)
}

fn add_to(numbers: &mut Vec<i128>, place: usize, more: i128) {
    if place < numbers.len() {
        numbers[place] = numbers[place].saturating_add(more);
    }
}

/// The coefficients of the variables in the sum; that of the objective counts nothing.
fn coefficients_of(
    alloc: Global,
    flat: &Flat,
    goal: u64,
    times: &[i128],
) -> Result<Vec<i128>, Memory> {
    let mut sums = zeros(alloc, flat.vars.len())?;
    for (many, con) in times.iter().zip(&flat.cons) {
        add_con(&mut sums, goal, *many, con);
    }
    Ok(sums)
}

fn add_con(sums: &mut Vec<i128>, goal: u64, many: i128, con: &Con) {
    if many == 0 {
        return;
    }
    if let ConKind::Linear(parts, _, _) = &con.kind {
        for part in parts {
            if part.1 != goal {
                add_to(
                    sums,
                    part.1 as usize,
                    many.saturating_mul(i128::from(part.0)),
                );
            }
        }
    }
}

/// The numbers of the variables at which the sum is least.
fn ends_of(alloc: Global, flat: &Flat, coefficients: &[i128]) -> Result<Vec<i128>, Memory> {
    let mut ends = Vec::new(alloc);
    for (domain, coefficient) in flat.vars.iter().zip(coefficients) {
        ends.push(end_of(domain, *coefficient))?;
    }
    Ok(ends)
}

/// By how much a constraint is broken, or how much it has to spare, with these numbers.
fn broken_by(con: &Con, goal: u64, numbers: &[i128]) -> i128 {
    match &con.kind {
        ConKind::Linear(parts, _, number) => {
            let mut sum = i128::from(*number).saturating_neg();
            for part in parts {
                if part.1 != goal {
                    let more = i128::from(part.0).saturating_mul(at(numbers, part.1 as usize));
                    sum = sum.saturating_add(more);
                }
            }
            sum
        }
        _ => 0,
    }
}

/// Whether so many times a constraint bounds a sum from above.
fn may_be(con: &Con, times: i128) -> bool {
    match &con.kind {
        ConKind::Linear(_, op, _) => match op {
            CompareOp::Equal => con.truth.is_none(),
            CompareOp::AtMost => con.truth.is_none() && times >= 0,
            CompareOp::AtLeast => con.truth.is_none() && times <= 0,
            _ => false,
        },
        _ => false,
    }
}

/// Whether a constraint is a sum of variables with a coefficient other than 0 among these.
fn is_told(con: &Con, counted: &[i128]) -> bool {
    match &con.kind {
        ConKind::Linear(parts, _, _) => {
            let mut all = con.truth.is_none();
            for part in parts {
                all = all && at(counted, part.1 as usize) != 0;
            }
            all
        }
        _ => false,
    }
}

/// For each constraint but the last whether it says something of variables alone that the objective counts, and so may bound it.
fn told_by(alloc: Global, flat: &Flat, counted: &[i128]) -> Result<Vec<bool>, Memory> {
    let mut told = Vec::new(alloc);
    for con in &flat.cons {
        told.push(is_told(con, counted))?;
    }
    let _last = told.pop();
    Ok(told)
}

/// The bound, and the way that betters it. Constraints that aren't told don't move.
fn looked_at(
    alloc: Global,
    flat: &Flat,
    goal: u64,
    told: &[bool],
    times: &[i128],
) -> Result<(i128, Way), Memory> {
    let coefficients = coefficients_of(alloc, flat, goal, times)?;
    let ends = ends_of(alloc, flat, &coefficients)?;
    let mut bound: i128 = 0;
    let mut squares: i128 = 0;
    let mut broken = Vec::new(alloc);
    for (place, con) in flat.cons.iter().enumerate() {
        let many = at(times, place);
        let may_move = place < told.len() && told[place];
        let mut step: i128 = 0;
        if may_move || many != 0 {
            let by = broken_by(con, goal, &ends);
            bound = bound.saturating_add(many.saturating_mul(by));
            if may_move && (many != 0 || may_be(con, by)) {
                step = by;
            }
        }
        squares = squares.saturating_add(step.saturating_mul(step));
        broken.push(step)?;
    }
    Ok((bound, Way { broken, squares }))
}

/// Numbers a step further. What isn't to move keeps its number.
fn further(
    alloc: Global,
    flat: &Flat,
    times: &[i128],
    way: &Way,
    length: i128,
) -> Result<Vec<i128>, Memory> {
    let mut next = Vec::new(alloc);
    for (place, con) in flat.cons.iter().enumerate() {
        let before = at(times, place);
        let broken = at(&way.broken, place);
        let step = length
            .saturating_mul(broken)
            .checked_div(way.squares)
            .unwrap_or(0);
        let after = before.saturating_add(step);
        if broken == 0 {
            next.push(before)?;
        } else if may_be(con, after) {
            next.push(after)?;
        } else {
            next.push(0)?;
        }
    }
    Ok(next)
}

/// How much a step looks at.
fn size_of(flat: &Flat, told: &[bool]) -> usize {
    let mut count = flat.vars.len().saturating_add(flat.cons.len());
    for (is, con) in told.iter().zip(&flat.cons) {
        if let ConKind::Linear(parts, _, _) = &con.kind {
            if *is {
                count = count.saturating_add(parts.len());
            }
        }
    }
    count
}

/// The best numbers that were found.
fn best_of(
    alloc: Global,
    flat: &Flat,
    goal: u64,
    told: &[bool],
    first: Vec<i128>,
) -> Result<Tried, Memory> {
    let (bound, _) = looked_at(alloc, flat, goal, told, &first)?;
    let mut times = copied(alloc, &first)?;
    let mut best = Tried {
        times: first,
        bound,
    };
    let mut waited: u32 = 0;
    let mut halvings: u32 = 0;
    let steps = MOST_STEPS.min(MOST_LOOKS.checked_div(size_of(flat, told)).unwrap_or(0));
    for _step in 0..steps {
        let (bound, way) = looked_at(alloc, flat, goal, told, &times)?;
        if bound > best.bound {
            best = Tried {
                times: copied(alloc, &times)?,
                bound,
            };
            waited = 0;
        } else {
            waited = waited.saturating_add(1);
        }
        if waited > PATIENCE {
            waited = 0;
            halvings = halvings.saturating_add(1);
            times = copied(alloc, &best.times)?;
        } else {
            let length = (best.bound.saturating_abs() / 14).saturating_add(WHOLE);
            let short = length.checked_shr(halvings).unwrap_or(0);
            if way.squares == 0 || short == 0 || halvings > MOST_HALVINGS {
                return Ok(best);
            }
            times = further(alloc, flat, &times, &way, short)?;
        }
    }
    Ok(best)
}

/// Whether a constraint says what the objective is, as a sum less the objective.
fn says_goal(con: &Con, goal: u64) -> bool {
    match &con.kind {
        ConKind::Linear(parts, op, _) => match parts.last() {
            Some(part) => con.truth.is_none() && *op == CompareOp::Equal && *part == (-1, goal),
            None => false,
        },
        _ => false,
    }
}

/// Whether the last constraint says what the objective is.
fn ends_in_goal(flat: &Flat, goal: u64) -> bool {
    match flat.cons.last() {
        Some(con) => says_goal(con, goal),
        None => false,
    }
}

/// For each constraint how often it is to be in the sum. None where no sum bounds the objective better than it is bounded without
/// the others.
pub(crate) fn multipliers_of(alloc: Global, flat: &Flat, goal: u64) -> Result<Vec<i128>, Memory> {
    if !ends_in_goal(flat, goal) {
        return Ok(Vec::new(alloc));
    }
    let last = flat.cons.len().saturating_sub(1);
    let mut first = zeros(alloc, flat.cons.len())?;
    add_to(&mut first, last, WHOLE);
    let counted = coefficients_of(alloc, flat, goal, &first)?;
    let told = told_by(alloc, flat, &counted)?;
    let (least, _) = looked_at(alloc, flat, goal, &told, &first)?;
    let best = best_of(alloc, flat, goal, &told, first)?;
    if best.bound <= least.saturating_add(WHOLE) {
        return Ok(Vec::new(alloc));
    }
    Ok(best.times)
}
