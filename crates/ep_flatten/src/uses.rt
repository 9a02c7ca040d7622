//! How often terms are used.

ghost use Rattle.std.specs.Prelude.{◌<◌, length};
ghost use Rattle.ep_ground.specs.GroundViews.{plain_ground};

use ep_base::{CompareOp, Memory};
use ep_ground::{Ground, Node, Term};
use std::alloc::Global;

/// The least weight with which a sum of two parts stands for itself: a variable for it costs as much as two one-sided uses.
const LEAST_WEIGHT: u8 = 3;

/// What is counted of each term, as far as 255 tells it.
#[derive(Drop)]
struct Tells {
    /// How often it is used.
    uses: Vec<u8>,
    /// In how many sums, once for each side from which they are bounded, and 255 where what uses it wants a variable.
    own: Vec<u8>,
    /// From how many sides it is bounded itself.
    sides: Vec<u8>,
}

/// For each term how often the ground names it and nodes that are needed do, as far as 255 tells it; of a sum of two parts 1 where it
/// is no gain that it stands for itself.
/// One pass from the last term to the first, since the parts of a node stand before it.
pub fn uses_of(alloc: Global, g: &Ground) -> Result<Vec<u8>, Memory> {
    let size = g.arena.len();
    let mut tells = Tells {
        uses: vec![in alloc; 0_u8; size as usize]?,
        own: vec![in alloc; 0_u8; size as usize]?,
        sides: vec![in alloc; 0_u8; size as usize]?,
    };
    count_all(&mut tells, &g.clauses);
    if let Some((_, goal)) = g.objective {
        count(&mut tells, goal);
    }
    for behind in 0..size {
        count_parts(&mut tells, g, Term::new((size - 1 - behind) as u32));
    }
    let Tells { uses, .. } = tells;
    Ok(uses)
}

/// How often a term is used, and 0 of one that isn't counted.
pub fn use_count(uses: &[u8], term: Term) -> u8 {
    let place = term.number() as usize;
    if place < uses.len() { uses[place] } else { 0 }
}

/// Adds to what is counted of a term.
fn add(counts: &mut Vec<u8>, term: Term, more: u8) {
    let place = term.number() as usize;
    if place < counts.len() {
        counts[place] = counts[place].saturating_add(more);
    }
}

/// Counts a use of a term that wants a variable.
fn count(tells: &mut Tells, term: Term) {
    add(&mut tells.uses, term, 1);
    add(&mut tells.own, term, 255);
    add(&mut tells.sides, term, 2);
}

/// Counts a use of each of these terms.
fn count_all(tells: &mut Tells, terms: &[Term]) {
    for term in terms {
        count(tells, *term);
    }
}

/// Counts a use in a comparison.
fn count_compared(tells: &mut Tells, op: CompareOp, term: Term) {
    let sides = match op {
        CompareOp::Equal | CompareOp::NotEqual => 2,
        _ => 1,
    };
    add(&mut tells.uses, term, 1);
    add(&mut tells.sides, term, sides);
}

/// Counts a use of each part of a sum, which is decided before.
fn count_weighed(tells: &mut Tells, term: Term, parts: &[(i64, Term)]) {
    let place = term.number() as usize;
    if parts.len() == 2 && place < tells.uses.len() {
        tells.uses[place] = if use_count(&tells.own, term) >= LEAST_WEIGHT {
            2
        } else {
            1
        };
    }
    let sides = if use_count(&tells.uses, term) > 1 {
        2
    } else {
        use_count(&tells.sides, term)
    };
    for part in parts {
        add(&mut tells.uses, part.1, 1);
        add(&mut tells.own, part.1, sides);
        add(&mut tells.sides, part.1, sides);
    }
}

/// Counts what a term uses, where it is used itself.
fn count_parts(tells: &mut Tells, g: &Ground, term: Term)
    requires { term < length (plain_ground g.now).nodes }
{
    if use_count(&tells.uses, term) > 0 {
        count_node(tells, term, g.arena.node(term));
    }
}

/// Counts what a node uses.
fn count_node(tells: &mut Tells, term: Term, node: &Node) {
    match node {
        Node::Const(_) | Node::Undefined | Node::Cell(_) => {}
        Node::Add(_, parts) => count_weighed(tells, term, parts),
        Node::Compare(op, one, other) => {
            count_compared(tells, *op, *one);
            count_compared(tells, *op, *other);
        }
        Node::Mul(one, other)
        | Node::Div(one, other)
        | Node::Mod(one, other)
        | Node::SafeDiv(one, other)
        | Node::SafeMod(one, other)
        | Node::Iff(one, other) => {
            count(tells, *one);
            count(tells, *other);
        }
        Node::Pow(part, _) | Node::Abs(part) | Node::Member(part, _) | Node::Not(part) => {
            count(tells, *part);
        }
        Node::Min(parts)
        | Node::Max(parts)
        | Node::And(parts)
        | Node::Or(parts)
        | Node::AllDiff(parts)
        | Node::AtLeast(parts, _, _)
        | Node::AtMost(parts, _, _)
        | Node::Table(parts, _) => count_all(tells, parts),
        Node::Whole(part, others) => {
            count(tells, *part);
            count_all(tells, others);
        }
        Node::Pick(parts, _, others)
        | Node::SafePick(parts, _, others)
        | Node::Lex(_, parts, others)
        | Node::Gcc(parts, _, others) => {
            count_all(tells, parts);
            count_all(tells, others);
        }
    }
}
