//! Nodes over the terms that always have values.

ghost use Rattle.std.specs.Prelude.{◌≡◌, ◌<◌, ◌++◌, ◌∷◌, [], length, map, IfOk, OnOk};
ghost use Rattle.std.specs.List.{All};
ghost use Rattle.ep_defined.specs.Images.{guards_in, image_kind, over_totals, total_at};
ghost use Rattle.ep_defined.specs.declared.kinds.Kind.{Kind};
ghost use Rattle.ep_ground.specs.Nodes.{parts_of, safe_pick};
ghost use Rattle.ep_ground.specs.NodeViews.{plain_node};

use crate::images::{
    Image, add_guards, add_list_guards, add_one_guard, add_two_guards, add_weighted_guards,
    add_whole_guards, total, totals, weighted_totals,
};
use ep_base::{Key, Memory};
use ep_ground::{Node, Term};
use ep_numbers::copy_keys;
use std::alloc::Global;

/// The safe form of a node, over the terms that always have values.
#[tactic(auto, using(crate::proofs::Listing::first_below, crate::proofs::Listing::second_below, crate::proofs::Listing::rest_below, crate::proofs::Listing::left_below, crate::proofs::Listing::right_below), unfolding(ep_ground::specs::SameTrees::with_parts, crate::specs::Images::made_safe, ep_ground::specs::Nodes::parts_of))]
pub fn safe_node(alloc: Global, images: &[Image], node: &Node) -> Result<Node, Memory>
    requires { All (λ t. t < length images.now) (parts_of (plain_node node.now)) }
    ensures { IfOk result (λ safe.
        plain_node safe ≡ over_totals images.now (plain_node node.now)) }
{
    match node {
        Node::Const(number) => Ok(Node::Const(*number)),
        Node::Undefined => Ok(Node::Undefined),
        Node::Cell(number) => Ok(Node::Cell(*number)),
        Node::Add(number, parts) => {
            Ok(Node::Add(*number, weighted_totals(alloc, images, parts)?))
        }
        Node::Mul(a, b) => Ok(Node::Mul(total(images, *a), total(images, *b))),
        Node::Div(a, b) => Ok(Node::SafeDiv(total(images, *a), total(images, *b))),
        Node::Mod(a, b) => Ok(Node::SafeMod(total(images, *a), total(images, *b))),
        Node::Pow(a, exponent) => Ok(Node::Pow(total(images, *a), *exponent)),
        Node::Abs(a) => Ok(Node::Abs(total(images, *a))),
        Node::Min(parts) => Ok(Node::Min(totals(alloc, images, parts)?)),
        Node::Max(parts) => Ok(Node::Max(totals(alloc, images, parts)?)),
        Node::Pick(parts, keys, indices) => safe_pick(alloc, images, parts, keys, indices),
        Node::Whole(a, parts) => {
            Ok(Node::Whole(total(images, *a), totals(alloc, images, parts)?))
        }
        Node::SafeDiv(a, b) => Ok(Node::SafeDiv(total(images, *a), total(images, *b))),
        Node::SafeMod(a, b) => Ok(Node::SafeMod(total(images, *a), total(images, *b))),
        Node::SafePick(parts, keys, indices) => safe_pick(alloc, images, parts, keys, indices),
        _ => safe_truth(alloc, images, node),
    }
}

/// `safe_node` of a pick.
fn safe_pick(
    alloc: Global,
    images: &[Image],
    parts: &[Term],
    keys: &[Key],
    indices: &[Term],
) -> Result<Node, Memory>
    requires parts { All (λ t. t < length images.now) parts.now }
    requires indices { All (λ t. t < length images.now) indices.now }
    ensures { IfOk result (λ safe. plain_node safe
        ≡ safe_pick (map (total_at images.now) parts.now) keys.now (map (total_at images.now) indices.now)) }
{
    let totals_of_parts = totals(alloc, images, parts)?;
    let copy = copy_keys(alloc, keys)?;
    let totals_of_indices = totals(alloc, images, indices)?;
    Ok(Node::SafePick(totals_of_parts, copy, totals_of_indices))
}

/// `safe_node` of a truth value.
#[tactic(auto, using(crate::proofs::Listing::first_below, crate::proofs::Listing::second_below, crate::proofs::Listing::rest_below, crate::proofs::Listing::left_below, crate::proofs::Listing::right_below), unfolding(ep_ground::specs::SameTrees::with_parts, crate::specs::Images::made_safe, ep_ground::specs::Nodes::parts_of))]
fn safe_truth(alloc: Global, images: &[Image], node: &Node) -> Result<Node, Memory>
    requires parts { All (λ t. t < length images.now) (parts_of (plain_node node.now)) }
    requires kind { image_kind (plain_node node.now) ≡ Kind.Truth }
    ensures { IfOk result (λ safe.
        plain_node safe ≡ over_totals images.now (plain_node node.now)) }
{
    match node {
        Node::Compare(op, a, b) => Ok(Node::Compare(*op, total(images, *a), total(images, *b))),
        Node::Lex(op, front, back) => {
            let first = totals(alloc, images, front)?;
            let second = totals(alloc, images, back)?;
            Ok(Node::Lex(*op, first, second))
        }
        Node::Member(a, numbers) => Ok(Node::Member(total(images, *a), numbers.copy(alloc)?)),
        Node::Not(a) => Ok(Node::Not(total(images, *a))),
        Node::And(parts) => Ok(Node::And(totals(alloc, images, parts)?)),
        Node::Or(parts) => Ok(Node::Or(totals(alloc, images, parts)?)),
        Node::Iff(a, b) => Ok(Node::Iff(total(images, *a), total(images, *b))),
        Node::AllDiff(parts) => Ok(Node::AllDiff(totals(alloc, images, parts)?)),
        Node::Gcc(parts, numbers, counts) => {
            let first = totals(alloc, images, parts)?;
            let copy = Vec::from_slice(alloc, numbers.as_slice())?;
            let second = totals(alloc, images, counts)?;
            Ok(Node::Gcc(first, copy, second))
        }
        Node::AtLeast(parts, counts, numbers) => {
            let first = totals(alloc, images, parts)?;
            let counts = Vec::from_slice(alloc, counts.as_slice())?;
            let numbers = Vec::from_slice(alloc, numbers.as_slice())?;
            Ok(Node::AtLeast(first, counts, numbers))
        }
        Node::AtMost(parts, counts, numbers) => {
            let first = totals(alloc, images, parts)?;
            let counts = Vec::from_slice(alloc, counts.as_slice())?;
            let numbers = Vec::from_slice(alloc, numbers.as_slice())?;
            Ok(Node::AtMost(first, counts, numbers))
        }
        Node::Table(parts, rows) => {
            let first = totals(alloc, images, parts)?;
            let copy = copy_keys(alloc, rows)?;
            Ok(Node::Table(first, copy))
        }
        _ => unreachable!(),
    }
}

/// The guards of a node's parts.
#[tactic(auto, unfolding(ep_ground::specs::Nodes::parts_of))]
pub fn add_guards_of(guards: &mut Vec<Term>, images: &[Image], node: &Node) -> Result<(), Memory>
    requires { All (λ t. t < length images.now) (parts_of (plain_node node.now)) }
    ensures { OnOk result (guards.new.items
        ≡ guards.old.items ++ guards_in images.now (parts_of (plain_node node.now))) }
{
    match node {
        Node::Const(_) => Ok(()),
        Node::Undefined => Ok(()),
        Node::Cell(_) => Ok(()),
        Node::Add(_, parts) => add_weighted_guards(guards, images, parts),
        Node::Mul(a, b) => add_two_guards(guards, images, *a, *b),
        Node::Div(a, b) => add_two_guards(guards, images, *a, *b),
        Node::Mod(a, b) => add_two_guards(guards, images, *a, *b),
        Node::Pow(a, _) => add_one_guard(guards, images, *a),
        Node::Abs(a) => add_one_guard(guards, images, *a),
        Node::Min(parts) => add_guards(guards, images, parts),
        Node::Max(parts) => add_guards(guards, images, parts),
        Node::Pick(parts, _, indices) => add_list_guards(guards, images, parts, indices),
        Node::Whole(a, parts) => add_whole_guards(guards, images, *a, parts),
        Node::SafeDiv(a, b) => add_two_guards(guards, images, *a, *b),
        Node::SafeMod(a, b) => add_two_guards(guards, images, *a, *b),
        Node::SafePick(parts, _, indices) => add_list_guards(guards, images, parts, indices),
        Node::Compare(_, a, b) => add_two_guards(guards, images, *a, *b),
        Node::Lex(_, front, back) => add_list_guards(guards, images, front, back),
        Node::Member(a, _) => add_one_guard(guards, images, *a),
        Node::Not(a) => add_one_guard(guards, images, *a),
        Node::And(parts) => add_guards(guards, images, parts),
        Node::Or(parts) => add_guards(guards, images, parts),
        Node::Iff(a, b) => add_two_guards(guards, images, *a, *b),
        Node::AllDiff(parts) => add_guards(guards, images, parts),
        Node::Gcc(parts, _, counts) => add_list_guards(guards, images, parts, counts),
        Node::AtLeast(parts, _, _) => add_guards(guards, images, parts),
        Node::AtMost(parts, _, _) => add_guards(guards, images, parts),
        Node::Table(parts, _) => add_guards(guards, images, parts),
    }
}
