//! Nodes over the terms that stand for their parts.

ghost use Rattle.std.specs.Prelude.{◌≡◌, ◌<◌, length, map, IfOk};
ghost use Rattle.std.specs.List.{All};
ghost use Rattle.ep_ground.specs.NodeViews.{plain_node};
ghost use Rattle.ep_ground.specs.Nodes.{parts_of};
ghost use Rattle.ep_ground.specs.SameTrees as trees;
ghost use Rattle.ep_simplify.specs.Standing.{standing_at};

use ep_base::Memory;
use ep_ground::{Node, Term};
use ep_numbers::copy_keys;
use std::alloc::Global;

/// The term that stands for a term.
pub fn image(images: &[Term], term: Term) -> Term
    requires { term < length images.now }
    ensures { result ≡ standing_at images.now term }
{
    images[term.number() as usize]
}

/// The terms that stand for some terms.
pub fn all(alloc: Global, images: &[Term], terms: &[Term]) -> Result<Vec<Term>, Memory>
    requires { All (λ t. t < length images.now) terms.now }
    ensures { IfOk result (λ parts. parts.items ≡ map (standing_at images.now) terms.now) }
{
    let mut parts = Vec::new(alloc);
    for term in terms {
        parts.push(image(images, *term))?;
    }
    Ok(parts)
}

/// The parts of a sum, over the terms that stand for them.
fn weighed(
    alloc: Global,
    images: &[Term],
    parts: &[(i64, Term)],
) -> Result<Vec<(i64, Term)>, Memory>
    requires { All (λ t. t < length images.now) (map (λ p. p.1) parts.now) }
    ensures { IfOk result (λ made. made.items ≡ map (λ p. (p.0, standing_at images.now p.1)) parts.now) }
{
    let mut made = Vec::new(alloc);
    for part in parts {
        let (coefficient, term) = *part;
        made.push((coefficient, image(images, term)))?;
    }
    Ok(made)
}

/// The node over the terms that stand for its parts.
#[tactic(auto, using(ep_defined::proofs::Listing::first_below, ep_defined::proofs::Listing::second_below, ep_defined::proofs::Listing::rest_below, ep_defined::proofs::Listing::left_below, ep_defined::proofs::Listing::right_below), unfolding(ep_ground::specs::SameTrees::with_parts, ep_ground::specs::Nodes::parts_of))]
pub fn with_parts(alloc: Global, images: &[Term], node: &Node) -> Result<Node, Memory>
    requires { All (λ t. t < length images.now) (parts_of (plain_node node.now)) }
    ensures { IfOk result (λ made.
        plain_node made ≡ trees.with_parts (standing_at images.now) (plain_node node.now)) }
{
    match node {
        Node::Const(number) => Ok(Node::Const(*number)),
        Node::Undefined => Ok(Node::Undefined),
        Node::Cell(number) => Ok(Node::Cell(*number)),
        Node::Add(number, parts) => { Ok(Node::Add(*number, weighed(alloc, images, parts)?)) }
        Node::Mul(a, b) => Ok(Node::Mul(image(images, *a), image(images, *b))),
        Node::Div(a, b) => Ok(Node::Div(image(images, *a), image(images, *b))),
        Node::Mod(a, b) => Ok(Node::Mod(image(images, *a), image(images, *b))),
        Node::Pow(a, exponent) => Ok(Node::Pow(image(images, *a), *exponent)),
        Node::Abs(a) => Ok(Node::Abs(image(images, *a))),
        Node::Min(parts) => Ok(Node::Min(all(alloc, images, parts)?)),
        Node::Max(parts) => Ok(Node::Max(all(alloc, images, parts)?)),
        Node::Pick(parts, keys, indices) => {
            let first = all(alloc, images, parts)?;
            let copy = copy_keys(alloc, keys)?;
            let second = all(alloc, images, indices)?;
            Ok(Node::Pick(first, copy, second))
        }
        Node::Whole(a, parts) => { Ok(Node::Whole(image(images, *a), all(alloc, images, parts)?)) }
        Node::SafeDiv(a, b) => Ok(Node::SafeDiv(image(images, *a), image(images, *b))),
        Node::SafeMod(a, b) => Ok(Node::SafeMod(image(images, *a), image(images, *b))),
        Node::SafePick(parts, keys, indices) => {
            let first = all(alloc, images, parts)?;
            let copy = copy_keys(alloc, keys)?;
            let second = all(alloc, images, indices)?;
            Ok(Node::SafePick(first, copy, second))
        }
        Node::Compare(op, a, b) => Ok(Node::Compare(*op, image(images, *a), image(images, *b))),
        Node::Lex(op, front, back) => {
            let first = all(alloc, images, front)?;
            let second = all(alloc, images, back)?;
            Ok(Node::Lex(*op, first, second))
        }
        Node::Member(a, numbers) => Ok(Node::Member(image(images, *a), numbers.copy(alloc)?)),
        Node::Not(a) => Ok(Node::Not(image(images, *a))),
        Node::And(parts) => Ok(Node::And(all(alloc, images, parts)?)),
        Node::Or(parts) => Ok(Node::Or(all(alloc, images, parts)?)),
        Node::Iff(a, b) => Ok(Node::Iff(image(images, *a), image(images, *b))),
        Node::AllDiff(parts) => Ok(Node::AllDiff(all(alloc, images, parts)?)),
        Node::Gcc(parts, numbers, counts) => {
            let first = all(alloc, images, parts)?;
            let copy = Vec::from_slice(alloc, numbers.as_slice())?;
            let second = all(alloc, images, counts)?;
            Ok(Node::Gcc(first, copy, second))
        }
        Node::AtLeast(parts, counts, numbers) => {
            let first = all(alloc, images, parts)?;
            let counts = Vec::from_slice(alloc, counts.as_slice())?;
            let numbers = Vec::from_slice(alloc, numbers.as_slice())?;
            Ok(Node::AtLeast(first, counts, numbers))
        }
        Node::AtMost(parts, counts, numbers) => {
            let first = all(alloc, images, parts)?;
            let counts = Vec::from_slice(alloc, counts.as_slice())?;
            let numbers = Vec::from_slice(alloc, numbers.as_slice())?;
            Ok(Node::AtMost(first, counts, numbers))
        }
        Node::Table(parts, rows) => {
            let first = all(alloc, images, parts)?;
            let copy = copy_keys(alloc, rows)?;
            Ok(Node::Table(first, copy))
        }
    }
}
