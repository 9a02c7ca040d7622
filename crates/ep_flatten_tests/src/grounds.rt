//! Grounds of texts: terms with their operations behind their parts, over the cells `x` from 1 to 4 and `y` from -1 to 2.

use ep_base::{CompareOp, Key, Name, Run, Runs, Sense};
use ep_ground::{Arena, Cell, Ground, Node, Term};
use std::alloc::Global;
use std::test::Fail;

/// A cell with the numbers of a run.
fn cell(alloc: Global, name: &str, lo: i64, hi: i64) -> Result<Cell, Fail> {
    let runs = vec![in alloc; Run { lo, hi }]?;
    Ok(Cell {
        name: Name::new(alloc, name)?,
        indices: Key::new(Vec::new(alloc)),
        truth: false,
        values: Runs::new(alloc, runs)?,
    })
}

/// Adds an operation on two terms.
#[tactic(auto, unfolding(ep_ground::specs::Nodes::parts_of))]
fn add_two(arena: &mut Arena, letter: u8, x: Term, y: Term) -> Result<Term, Fail> {
    if u64::from(x.number()) >= arena.len() || u64::from(y.number()) >= arena.len() {
        return Err(Fail::new("a part that isn't there"));
    }
    match letter {
        b'*' => Ok(arena.intern(Node::Mul(x, y))?),
        b'/' => Ok(arena.intern(Node::SafeDiv(x, y))?),
        b'%' => Ok(arena.intern(Node::SafeMod(x, y))?),
        b'=' => Ok(arena.intern(Node::Iff(x, y))?),
        _ => Ok(arena.intern(Node::Compare(CompareOp::AtMost, x, y))?),
    }
}

/// Adds an operation on one term.
#[tactic(auto, unfolding(ep_ground::specs::Nodes::parts_of))]
fn add_one(arena: &mut Arena, letter: u8, x: Term) -> Result<Term, Fail> {
    if u64::from(x.number()) >= arena.len() {
        return Err(Fail::new("a part that isn't there"));
    }
    match letter {
        b's' => Ok(arena.intern(Node::Pow(x, 2))?),
        b'c' => Ok(arena.intern(Node::Pow(x, 3))?),
        b'a' => Ok(arena.intern(Node::Abs(x))?),
        _ => Ok(arena.intern(Node::Not(x))?),
    }
}

/// Adds the least or the greatest of two terms, or whether both or one of them is true.
#[tactic(auto, unfolding(ep_ground::specs::Nodes::parts_of))]
fn add_list(alloc: Global, arena: &mut Arena, letter: u8, x: Term, y: Term) -> Result<Term, Fail> {
    if u64::from(x.number()) >= arena.len() || u64::from(y.number()) >= arena.len() {
        return Err(Fail::new("a part that isn't there"));
    }
    let parts = vec![in alloc; x, y]?;
    match letter {
        b'm' => Ok(arena.intern(Node::Min(parts))?),
        b'&' => Ok(arena.intern(Node::And(parts))?),
        b'|' => Ok(arena.intern(Node::Or(parts))?),
        _ => Ok(arena.intern(Node::Max(parts))?),
    }
}

/// Adds a number and multiples of two terms.
#[tactic(auto, unfolding(ep_ground::specs::Nodes::parts_of))]
fn add_sum(
    alloc: Global,
    arena: &mut Arena,
    number: i64,
    one: (i64, Term),
    other: (i64, Term),
) -> Result<Term, Fail> {
    if u64::from(one.1.number()) >= arena.len() || u64::from(other.1.number()) >= arena.len() {
        return Err(Fail::new("a part that isn't there"));
    }
    let parts = vec![in alloc; one, other]?;
    Ok(arena.intern(Node::Add(number, parts))?)
}

/// Adds a number and a term.
#[tactic(auto, unfolding(ep_ground::specs::Nodes::parts_of))]
fn add_more(alloc: Global, arena: &mut Arena, number: i64, x: Term) -> Result<Term, Fail> {
    if u64::from(x.number()) >= arena.len() {
        return Err(Fail::new("a part that isn't there"));
    }
    let parts = vec![in alloc; (1, x)]?;
    Ok(arena.intern(Node::Add(number, parts))?)
}

/// Adds what has no parts: a cell, or a number.
#[tactic(auto, unfolding(ep_ground::specs::Nodes::parts_of))]
fn add_leaf(arena: &mut Arena, letter: u8) -> Result<Term, Fail> {
    match letter {
        b'x' => Ok(arena.intern(Node::Cell(0))?),
        b'y' => Ok(arena.intern(Node::Cell(1))?),
        _ => Ok(arena.intern(Node::Const(i64::from(letter.saturating_sub(b'0'))))?),
    }
}

/// The last term, and the first one where there is none.
fn last(terms: &mut Vec<Term>) -> Term {
    match terms.pop() {
        Some(term) => term,
        None => Term::new(0),
    }
}

/// Goes on by a letter: `+` is a sum, `-` is 10 and twice a term less three times another, and `p` adds 5.
fn add(alloc: Global, arena: &mut Arena, terms: &mut Vec<Term>, letter: u8) -> Result<(), Fail> {
    let term = if b"xy0123456789".contains(&letter) {
        add_leaf(arena, letter)?
    } else if letter == b'p' {
        add_more(alloc, arena, 5, last(terms))?
    } else if b"sca!".contains(&letter) {
        add_one(arena, letter, last(terms))?
    } else {
        let y = last(terms);
        let x = last(terms);
        match letter {
            b'+' => add_sum(alloc, arena, 0, (1, x), (1, y))?,
            b'-' => add_sum(alloc, arena, 10, (2, x), (-3, y))?,
            b'm' | b'M' | b'&' | b'|' => add_list(alloc, arena, letter, x, y)?,
            _ => add_two(arena, letter, x, y)?,
        }
    };
    terms.push(term)?;
    Ok(())
}

/// The ground of two texts: a term that is to be minimised, and a clause. An empty one is none.
pub(crate) fn ground_of(alloc: Global, goal: &str, clause: &str) -> Result<Ground, Fail> {
    let mut arena = Arena::new(alloc);
    let mut goals = Vec::new(alloc);
    for letter in goal.bytes() {
        add(alloc, &mut arena, &mut goals, letter)?;
    }
    let mut clauses = Vec::new(alloc);
    for letter in clause.bytes() {
        add(alloc, &mut arena, &mut clauses, letter)?;
    }
    let objective = goals.first().map(|goal| (Sense::Minimising, *goal));
    let cells = vec![in alloc; cell(alloc, "x", 1, 4)?, cell(alloc, "y", -1, 2)?]?;
    Ok(Ground {
        arena,
        cells,
        clauses,
        objective,
    })
}
