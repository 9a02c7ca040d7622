//! What the nodes of a ground are worth under a list of numbers for its cells, written from what each node says.

use crate::numbers::{
    are_counted, are_different, are_in_order, compares, divided, is_row, left, power,
};
use ep_base::{CompareOp, Key, Runs};
use ep_ground::{Arena, Node, Term};
use std::alloc::{AllocError, Global};

/// What is known of the nodes in front of one: a number, or none where a node has no value.
#[derive(Drop)]
pub(crate) struct Worths<'a> {
    pub(crate) cells: &'a [i64],
    pub(crate) known: Vec<Option<i64>>,
}

impl Worths<'_> {
    /// What a term is worth.
    pub(crate) fn of(&self, term: Term) -> Option<i64> {
        match self.known.get(term.number() as usize) {
            Some(worth) => *worth,
            None => None,
        }
    }

    /// What terms are worth, if each has a value.
    fn all(&self, alloc: Global, terms: &[Term]) -> Result<Option<Vec<i64>>, AllocError> {
        let mut numbers = Vec::new(alloc);
        for term in terms {
            match self.of(*term) {
                Some(number) => numbers.push(number)?,
                None => return Ok(None),
            }
        }
        Ok(Some(numbers))
    }
}

/// Whether a number is one of a set.
fn is_in(set: &Runs, number: i64) -> bool {
    set.runs()
        .iter()
        .any(|run| run.lo <= number && number <= run.hi)
}

fn sum(worths: &Worths, constant: i64, parts: &[(i64, Term)]) -> Option<i64> {
    let mut sum = constant;
    for (coefficient, term) in parts {
        sum = sum.checked_add(coefficient.checked_mul(worths.of(*term)?)?)?;
    }
    Some(sum)
}

/// The part at the place of the first key that equals the indices.
fn picked(indices: &[i64], keys: &[Key], parts: &[i64]) -> Option<i64> {
    let place = keys.iter().position(|key| key.numbers() == indices)?;
    Some(*parts.get(place)?)
}

/// What stands at the first place, else 0.
fn first(parts: &[i64]) -> i64 {
    match parts.first() {
        Some(part) => *part,
        None => 0,
    }
}

fn least(numbers: &[i64]) -> Option<i64> {
    let mut least = *numbers.first()?;
    for number in numbers {
        least = least.min(*number);
    }
    Some(least)
}

fn greatest(numbers: &[i64]) -> Option<i64> {
    let mut greatest = *numbers.first()?;
    for number in numbers {
        greatest = greatest.max(*number);
    }
    Some(greatest)
}

/// An operation on single terms.
fn of_operation(worths: &Worths, node: &Node) -> Option<i64> {
    match node {
        Node::Const(number) => Some(*number),
        Node::Cell(cell) => Some(*worths.cells.get(*cell as usize)?),
        Node::Add(constant, parts) => sum(worths, *constant, parts),
        Node::Mul(x, y) => worths.of(*x)?.checked_mul(worths.of(*y)?),
        Node::Div(x, y) => divided(worths.of(*x)?, worths.of(*y)?),
        Node::Mod(x, y) => left(worths.of(*x)?, worths.of(*y)?),
        Node::SafeDiv(x, y) => {
            let (x, y) = (worths.of(*x)?, worths.of(*y)?);
            Some(divided(x, y).unwrap_or(0))
        }
        Node::SafeMod(x, y) => {
            let (x, y) = (worths.of(*x)?, worths.of(*y)?);
            Some(left(x, y).unwrap_or(0))
        }
        Node::Pow(x, exponent) => power(worths.of(*x)?, *exponent),
        Node::Abs(x) => worths.of(*x)?.checked_abs(),
        _ => None,
    }
}

/// An operation on lists of terms that gives a number.
fn of_list(alloc: Global, worths: &Worths, node: &Node) -> Result<Option<i64>, AllocError> {
    let worth = match node {
        Node::Min(parts) => worths
            .all(alloc, parts)?
            .and_then(|numbers| least(&numbers)),
        Node::Max(parts) => worths
            .all(alloc, parts)?
            .and_then(|numbers| greatest(&numbers)),
        Node::Whole(x, others) => match worths.all(alloc, others)? {
            Some(_) => worths.of(*x),
            None => None,
        },
        Node::Pick(parts, keys, indices) => {
            match (worths.all(alloc, indices)?, worths.all(alloc, parts)?) {
                (Some(indices), Some(parts)) => picked(&indices, keys, &parts),
                _ => None,
            }
        }
        Node::SafePick(parts, keys, indices) => {
            match (worths.all(alloc, indices)?, worths.all(alloc, parts)?) {
                (Some(indices), Some(parts)) => {
                    Some(picked(&indices, keys, &parts).unwrap_or(first(&parts)))
                }
                _ => None,
            }
        }
        single => of_operation(worths, single),
    };
    Ok(worth)
}

fn is_one(worths: &Worths, term: Term) -> bool {
    worths.of(term) == Some(1)
}

/// A Boolean node, or none where the node isn't one or a part has no value.
fn of_truth(worths: &Worths, node: &Node) -> Option<bool> {
    match node {
        Node::Compare(op, x, y) => Some(compares(worths.of(*x)?, *op, worths.of(*y)?)),
        Node::Member(x, set) => Some(is_in(set, worths.of(*x)?)),
        Node::Not(x) => Some(!is_one(worths, *x)),
        Node::Iff(x, y) => Some(is_one(worths, *x) == is_one(worths, *y)),
        _ => None,
    }
}

/// A Boolean node over lists, or none where the node isn't one or a part has no value.
fn of_statement(alloc: Global, worths: &Worths, node: &Node) -> Result<Option<bool>, AllocError> {
    let truth = match node {
        Node::And(parts) => Some(parts.iter().all(|part| is_one(worths, *part))),
        Node::Or(parts) => Some(parts.iter().any(|part| is_one(worths, *part))),
        Node::AllDiff(parts) => worths
            .all(alloc, parts)?
            .map(|numbers| are_different(&numbers)),
        Node::Lex(op, xs, ys) => match (worths.all(alloc, xs)?, worths.all(alloc, ys)?) {
            (Some(xs), Some(ys)) => Some(are_in_order(*op, &xs, &ys)),
            _ => None,
        },
        Node::Gcc(parts, values, counts) => {
            match (worths.all(alloc, parts)?, worths.all(alloc, counts)?) {
                (Some(parts), Some(counts)) => {
                    Some(are_counted(&parts, values, CompareOp::Equal, &counts))
                }
                _ => None,
            }
        }
        Node::AtLeast(parts, counts, values) => worths.all(alloc, parts)?.map(|parts| are_counted(
            &parts,
            values,
            CompareOp::AtLeast,
            counts,
        )),
        Node::AtMost(parts, counts, values) => worths.all(alloc, parts)?.map(|parts| are_counted(
            &parts,
            values,
            CompareOp::AtMost,
            counts,
        )),
        Node::Table(parts, rows) => worths.all(alloc, parts)?.map(|parts| is_row(&parts, rows)),
        single => of_truth(worths, single),
    };
    Ok(truth)
}

/// Whether a node is a Boolean one.
fn is_truth(node: &Node) -> bool {
    match node {
        Node::Compare(_, _, _)
        | Node::Lex(_, _, _)
        | Node::Member(_, _)
        | Node::Not(_)
        | Node::And(_)
        | Node::Or(_)
        | Node::Iff(_, _)
        | Node::AllDiff(_)
        | Node::Gcc(_, _, _)
        | Node::AtLeast(_, _, _)
        | Node::AtMost(_, _, _)
        | Node::Table(_, _) => true,
        _ => false,
    }
}

/// What a node is worth: a Boolean one 1 where it holds, and else 0, also where a part has no value.
fn of_node(alloc: Global, worths: &Worths, node: &Node) -> Result<Option<i64>, AllocError> {
    if is_truth(node) {
        let holds = of_statement(alloc, worths, node)?;
        return Ok(Some(i64::from(holds == Some(true))));
    }
    of_list(alloc, worths, node)
}

/// What the nodes of an arena are worth, in order.
pub(crate) fn worths_of<'a>(
    alloc: Global,
    arena: &Arena,
    cells: &'a [i64],
) -> Result<Worths<'a>, AllocError> {
    let mut worths = Worths {
        cells,
        known: Vec::new(alloc),
    };
    for number in 0..arena.len() {
        let worth = of_node(alloc, &worths, arena.node(Term::new(number as u32)))?;
        worths.known.push(worth)?;
    }
    Ok(worths)
}
