//! Which domain the variable of each operation has, and which sums stand in others by their parts.
//!
//! A row has the text of a term that is minimised, that of a clause, and what is said of the flat problem, with `#` between them.

use crate::grounds::ground_of;
use ep_base::{CompareOp, Runs};
use ep_defined::{MOST_NODES, remove_undefined};
use ep_flat::{CellMap, Con, ConKind, Flat};
use ep_flatten::flatten;
use ep_ground::Ground;
use ep_reach::{is_bounded, is_well_formed};
use std::alloc::{AllocError, Global};
use std::test::Fail;

/// The flat problem of a ground.
fn flat_of(alloc: Global, ground: Ground) -> Result<(Flat, CellMap), Fail> {
    if ground.arena.len() > MOST_NODES {
        return Err(Fail::new("a ground with too many nodes"));
    }
    if !is_well_formed(&ground) {
        return Err(Fail::new("a ground with unknown terms"));
    }
    if !is_bounded(alloc, &ground)? {
        return Err(Fail::new("a ground with great numbers"));
    }
    let defined = remove_undefined(alloc, ground)?;
    Ok(flatten(alloc, &defined)?)
}

/// Adds the least and the greatest number of a set.
fn push_ends(alloc: Global, said: &mut String, set: &Runs) -> Result<(), AllocError> {
    if let (Some(first), Some(last)) = (set.runs().first(), set.runs().last()) {
        let ends = format!(in alloc; "{}..{}", first.lo, last.hi)?;
        said.push_str(ends.as_str())?;
    }
    Ok(())
}

/// A comparison in signs.
fn sign(op: CompareOp) -> &'static str {
    match op {
        CompareOp::Equal => "=",
        CompareOp::AtMost => "<=",
        _ => "?",
    }
}

/// Adds a constraint: that of a sum with its coefficients and variables, any other one by a star.
fn push_con(alloc: Global, said: &mut String, con: &Con) -> Result<(), AllocError> {
    if let ConKind::Linear(parts, op, number) = &con.kind {
        for (coefficient, variable) in parts {
            let part = format!(in alloc; " {coefficient}*{variable}")?;
            said.push_str(part.as_str())?;
        }
        let rest = format!(in alloc; " {} {number}", sign(*op))?;
        return said.push_str(rest.as_str());
    }
    said.push_str(" *")
}

/// The domain of the variable that is minimised, if there is one, and the constraints.
fn said_of(alloc: Global, goal: &str, clause: &str) -> Result<String, Fail> {
    let (flat, map) = flat_of(alloc, ground_of(alloc, goal, clause)?)?;
    let mut said = String::new(alloc);
    if let Some((_, variable)) = map.objective {
        if let Some(set) = flat.vars.get(variable as usize) {
            push_ends(alloc, &mut said, set)?;
        }
    }
    for con in &flat.cons {
        push_con(alloc, &mut said, con)?;
    }
    Ok(said)
}

/// The first row of a table of which something else is said, with that.
fn first_wrong(alloc: Global, table: &str) -> Result<String, Fail> {
    for row in table.lines() {
        let (goal, rest) = row.split_once('#').unwrap_or((row, ""));
        let (clause, want) = rest.split_once('#').unwrap_or((rest, ""));
        let said = said_of(alloc, goal, clause)?;
        if said.as_str() != want {
            return Ok(format!(in alloc; "{row} BUT {}", said.as_str())?);
        }
    }
    Ok(String::new(alloc))
}

const OPERATIONS: &str = "\
xy*##-4..8 *
xy/##-4..4 *
xy%##-1..1 *
ys##0..4 *
xc##1..64 *
ya##0..2 *
x!##0..1 *";

const LISTS: &str = "\
xy-##6..21 -2*0 3*1 1*2 = 10
xym##-1..2 *
xyM##1..4 *";

/// Sums that are used once: in `7 * x + y <= x * 2 + 5` they stand by their parts, and `7 * x` and `x * 2 + 5` alone are sums of these.
const USED_ONCE: &str = "\
#7x*y+x2*p<# 5*0 1*1 <= 5
7x*##7..28 -7*0 1*2 = 0
x2*p##7..13 -2*0 1*2 = 5";

/// The first of these sums is minimised too, and so it has a variable.
const USED_TWICE: &str = "7x*y+#7x*y+x2*p<#6..30 -7*0 -1*1 1*2 = 0 1*2 -2*0 <= 5";

#[test]
fn grounds_have_their_constraints(rt: HostRuntime) -> Result<(), Fail> {
    for table in [OPERATIONS, LISTS, USED_ONCE, USED_TWICE] {
        let wrong = first_wrong(rt.alloc(), table)?;
        assert_eq!(rt; wrong.as_str(), "");
    }
    Ok(())
}

/// The numbers of the variable that is minimised.
fn numbers_of(alloc: Global, goal: &str) -> Result<String, Fail> {
    let (flat, map) = flat_of(alloc, ground_of(alloc, goal, "")?)?;
    let mut said = String::new(alloc);
    let Some((_, variable)) = map.objective else {
        return Ok(said);
    };
    let Some(set) = flat.vars.get(variable as usize) else {
        return Ok(said);
    };
    for run in set.runs() {
        for number in run.lo..=run.hi {
            let one = format!(in alloc; " {number}")?;
            said.push_str(one.as_str())?;
        }
    }
    Ok(said)
}

/// A term that is minimised, and the numbers of its variable.
const IMAGES: &str = "\
xc# 1 8 27 64
7x*# 7 14 21 28
xcy*# -64 -27 -8 -1 0 1 2 8 16 27 54 64 128
xc3/# 0 2 9 21
xc5%# 1 2 3 4
xcyM# 1 2 8 27 64
xcym# -1 0 1 2
xc3-# 3 17 55 129";

#[test]
fn operations_have_the_results_of_their_parts_alone(rt: HostRuntime) -> Result<(), Fail> {
    for row in IMAGES.lines() {
        let (goal, want) = row.split_once('#').unwrap_or((row, ""));
        let said = numbers_of(rt.alloc(), goal)?;
        assert_eq!(rt; said.as_str(), want);
    }
    Ok(())
}
