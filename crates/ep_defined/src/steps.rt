//! What stands for one term more.

ghost use Rattle.std.specs.Prelude.{◌≡◌, ◌<◌, ◌++◌, ◌==◌, ◌∷◌, [], ℕ, false, filter, length, map, take, IfOk, IfSome, OnOk, option_to_list};
ghost use Rattle.std.specs.List.{All};
ghost use Rattle.ep_base.specs.declared.operators.CompareOp.{CompareOp};
ghost use Rattle.ep_defined.specs.Growing.{Grows, HasRoom, IsNodeAt, IsSafeOver};
ghost use Rattle.ep_defined.specs.Images.{IsConjunction, IsDivisorTest, IsImage, IsKeyTest, IsNothingImage, StandsIn, guards_in, made_safe, image_kind, over_totals, total_at};
ghost use Rattle.ep_defined.specs.declared.kinds.Kind.{Kind};
ghost use Rattle.ep_ground.specs.Grounds.{StandsOver};
ghost use Rattle.ep_ground.specs.Nodes.{GroundNode, compare, is_partial, parts_of, table};
ghost use Rattle.ep_ground.specs.NodeViews.{plain_node};

use crate::images::{Image, total, totals};
use crate::kinds::{Kind, node_kind};
use crate::nodes::{add_guards_of, safe_node};
use ep_base::{CompareOp, Key, Memory};
use ep_ground::{Arena, InternError, Node, Term};
use std::alloc::Global;

/// The term of a node.
pub fn taken(arena: &mut Arena, node: Node) -> Result<Term, Memory>
    requires parts { All (λ part. part < length arena.old) (parts_of (plain_node node)) }
    requires room { HasRoom 1 arena.old }
    ensures term { IfOk result (λ term. IsNodeAt arena.new term (plain_node node)) }
    ensures grows { OnOk result ((asker : GroundNode)
        → ((cells : ℕ) → StandsOver cells asker → IsSafeOver cells (plain_node node))
        → Grows asker 1 arena.old arena.new) }
{
    match arena.intern(node) {
        Ok(term) => Ok(term),
        Err(InternError::Full) => unreachable!(),
        Err(InternError::Memory) => Err(Memory),
    }
}

/// A term that is 1 exactly where all of these are; none where there is none.
fn conjunction(arena: &mut Arena, guards: Vec<Term>) -> Result<Option<Term>, Memory>
    requires guards { All (λ g. g < length arena.old) guards.items }
    requires room { HasRoom 1 arena.old }
    ensures is { IfOk result (λ all. IsConjunction arena.new guards.items all) }
    ensures grows { OnOk result ((asker : GroundNode) → Grows asker 1 arena.old arena.new) }
{
    match guards.as_slice() {
        [] => Ok(None),
        [guard] => Ok(Some(*guard)),
        _ => Ok(Some(taken(arena, Node::And(guards))?)),
    }
}

/// The safe form of a node, in the arena.
fn total_of(alloc: Global, arena: &mut Arena, images: &[Image], node: &Node) -> Result<Term, Memory>
    requires parts { All (λ t. t < length images.now) (parts_of (plain_node node.now)) }
    requires stand { All (StandsIn arena.old) images.now }
    requires whole { is_partial (made_safe (plain_node node.now)) ≡ false }
    requires room { HasRoom 1 arena.old }
    ensures is { IfOk result (λ total.
        IsNodeAt arena.new total (over_totals images.now (plain_node node.now))) }
    ensures grows { OnOk result (Grows (plain_node node.now) 1 arena.old arena.new) }
{
    let safe = safe_node(alloc, images, node)?;
    let total = taken(arena, safe)?;
    Ok(total)
}

/// A list of this term, or of none.
fn only(alloc: Global, own: Option<Term>) -> Result<Vec<Term>, Memory>
    ensures { IfOk result (λ terms. terms.items ≡ option_to_list own) }
{
    let mut terms = Vec::new(alloc);
    if let Some(term) = own {
        terms.push(term)?;
    }
    Ok(terms)
}

/// A term that is 1 exactly where all parts of a node have a value and, where one is given, a
/// condition of the node's own holds.
fn guard_of(
    alloc: Global,
    arena: &mut Arena,
    images: &[Image],
    node: &Node,
    own: Option<Term>,
) -> Result<Option<Term>, Memory>
    requires parts { All (λ t. t < length images.now) (parts_of (plain_node node.now)) }
    requires stand { All (StandsIn arena.old) images.now }
    requires own { IfSome own (λ t. t < length arena.old) }
    requires room { HasRoom 1 arena.old }
    ensures is { IfOk result (λ all. IsConjunction arena.new
        (option_to_list own ++ guards_in images.now (parts_of (plain_node node.now))) all) }
    ensures grows { OnOk result ((asker : GroundNode) → Grows asker 1 arena.old arena.new) }
{
    let mut guards = only(alloc, own)?;
    add_guards_of(&mut guards, images, node)?;
    let all = conjunction(arena, guards)?;
    Ok(all)
}

/// What stands for a number that has a value where its parts have one and, where it is given, a
/// condition of its own holds.
fn number_image(
    alloc: Global,
    arena: &mut Arena,
    images: &[Image],
    node: &Node,
    own: Option<Term>,
) -> Result<Image, Memory>
    requires parts { All (λ t. t < length images.now) (parts_of (plain_node node.now)) }
    requires stand { All (StandsIn arena.old) images.now }
    requires own { IfSome own (λ t. t < length arena.old) }
    requires whole { is_partial (made_safe (plain_node node.now)) ≡ false }
    requires room { HasRoom 2 arena.old }
    ensures total { IfOk result (λ image.
        IsNodeAt arena.new image.total (over_totals images.now (plain_node node.now))) }
    ensures guard { IfOk result (λ image. IsConjunction arena.new
        (option_to_list own ++ guards_in images.now (parts_of (plain_node node.now))) image.guard) }
    ensures grows { OnOk result (Grows (plain_node node.now) 2 arena.old arena.new) }
{
    let total = total_of(alloc, arena, images, node)?;
    let guard = guard_of(alloc, arena, images, node, own)?;
    Ok(Image { total, guard })
}

/// What stands for a number that has a value wherever its parts have one.
fn plain_image(
    alloc: Global,
    arena: &mut Arena,
    nought: Term,
    images: &[Image],
    node: &Node,
) -> Result<Image, Memory>
    requires kind { image_kind (plain_node node.now) ≡ Kind.Number }
    requires parts { All (λ t. t < length images.now) (parts_of (plain_node node.now)) }
    requires stand { All (StandsIn arena.old) images.now }
    requires room { HasRoom 3 arena.old }
    ensures is { IfOk result (λ image.
        IsImage arena.new nought images.now (plain_node node.now) image) }
    ensures grows { OnOk result (Grows (plain_node node.now) 3 arena.old arena.new) }
{
    let _nought = nought;
    let image = number_image(alloc, arena, images, node, None)?;
    Ok(image)
}

/// What stands for a truth value.
fn truth_image(
    alloc: Global,
    arena: &mut Arena,
    nought: Term,
    images: &[Image],
    node: &Node,
) -> Result<Image, Memory>
    requires kind { image_kind (plain_node node.now) ≡ Kind.Truth }
    requires parts { All (λ t. t < length images.now) (parts_of (plain_node node.now)) }
    requires stand { All (StandsIn arena.old) images.now }
    requires room { HasRoom 3 arena.old }
    ensures is { IfOk result (λ image.
        IsImage arena.new nought images.now (plain_node node.now) image) }
    ensures grows { OnOk result (Grows (plain_node node.now) 3 arena.old arena.new) }
{
    let _nought = nought;
    let plain = total_of(alloc, arena, images, node)?;
    let mut guards = Vec::new(alloc);
    add_guards_of(&mut guards, images, node)?;
    guards.push(plain)?;
    let all = conjunction(arena, guards)?;
    match all {
        Some(total) => Ok(Image { total, guard: None }),
        None => unreachable!(),
    }
}

/// What stands for the first part of a node, where all the others have a value too.
fn whole_image(
    alloc: Global,
    arena: &mut Arena,
    nought: Term,
    images: &[Image],
    node: &Node,
) -> Result<Image, Memory>
    requires kind { image_kind (plain_node node.now) ≡ Kind.Whole }
    requires parts { All (λ t. t < length images.now) (parts_of (plain_node node.now)) }
    requires stand { All (StandsIn arena.old) images.now }
    requires room { HasRoom 3 arena.old }
    ensures is { IfOk result (λ image.
        IsImage arena.new nought images.now (plain_node node.now) image) }
    ensures grows { OnOk result (Grows (plain_node node.now) 3 arena.old arena.new) }
{
    let _nought = nought;
    let Node::Whole(first, _) = node else {
        unreachable!()
    };
    let total = total(images, *first);
    let guard = guard_of(alloc, arena, images, node, None)?;
    Ok(Image { total, guard })
}

/// A term that is 1 exactly where a term isn't the other.
fn unequal(arena: &mut Arena, term: Term, nought: Term) -> Result<Term, Memory>
    requires term { term < length arena.old }
    requires nought { nought < length arena.old }
    requires room { HasRoom 1 arena.old }
    ensures is { IfOk result (λ own.
        IsNodeAt arena.new own (compare CompareOp.NotEqual term nought)) }
    ensures grows { OnOk result ((asker : GroundNode) → Grows asker 1 arena.old arena.new) }
{
    let own = taken(arena, Node::Compare(CompareOp::NotEqual, term, nought))?;
    Ok(own)
}

/// A term that is 1 exactly where the divisor of a node isn't 0.
fn divisor_test(
    arena: &mut Arena,
    nought: Term,
    images: &[Image],
    node: &Node,
) -> Result<Term, Memory>
    requires parts { All (λ t. t < length images.now) (parts_of (plain_node node.now)) }
    requires stand { All (StandsIn arena.old) images.now }
    requires nought { nought < length arena.old }
    requires room { HasRoom 1 arena.old }
    requires kind { image_kind (plain_node node.now) ≡ Kind.Division }
    ensures is { IfOk result (λ own.
        IsDivisorTest arena.new nought images.now (plain_node node.now) own) }
    ensures grows { OnOk result ((asker : GroundNode) → Grows asker 1 arena.old arena.new) }
{
    match node {
        Node::Div(_, divisor) => {
            let own = unequal(arena, total(images, *divisor), nought)?;
            Ok(own)
        }
        Node::Mod(_, divisor) => {
            let own = unequal(arena, total(images, *divisor), nought)?;
            Ok(own)
        }
        _ => unreachable!(),
    }
}

/// The first so many keys, or all.
fn first_keys(keys: &[Key], count: usize) -> &[Key]
    ensures { result.now ≡ take count keys.now }
{
    &keys[..count.min(keys.len())]
}

/// Adds a key where it has so many numbers.
fn add_key(alloc: Global, rows: &mut Vec<Key>, key: &Key, width: usize) -> Result<(), Memory>
    ensures { OnOk result (rows.new.items
        ≡ rows.old.items ++ filter (λ key. length key == width) (key.now ∷ [])) }
{
    if key.numbers().len() == width {
        rows.push(key.copy(alloc)?)?;
    }
    Ok(())
}

/// Those keys that have so many numbers.
fn keys_of_length(alloc: Global, keys: &[Key], width: usize) -> Result<Vec<Key>, Memory>
    ensures { IfOk result (λ rows.
        rows.items ≡ filter (λ key. length key == width) keys.now) }
{
    let mut rows = Vec::new(alloc);
    for key in keys {
        add_key(alloc, &mut rows, key, width)?;
    }
    Ok(rows)
}

/// A term that is 1 exactly where some indices are one of the keys of so many parts.
fn table_of(
    alloc: Global,
    arena: &mut Arena,
    images: &[Image],
    keys: &[Key],
    count: usize,
    indices: &[Term],
) -> Result<Term, Memory>
    requires indices { All (λ t. t < length images.now) indices.now }
    requires stand { All (StandsIn arena.old) images.now }
    requires room { HasRoom 1 arena.old }
    ensures is { IfOk result (λ own. IsNodeAt arena.new own (table (map (total_at images.now) indices.now)
        (filter (λ key. length key == length indices.now) (take count keys.now)))) }
    ensures grows { OnOk result ((asker : GroundNode) → Grows asker 1 arena.old arena.new) }
{
    let rows = keys_of_length(alloc, first_keys(keys, count), indices.len())?;
    let columns = totals(alloc, images, indices)?;
    let own = taken(arena, Node::Table(columns, rows))?;
    Ok(own)
}

/// A term that is 1 exactly where the indices of a node are one of its keys.
fn key_test(alloc: Global, arena: &mut Arena, images: &[Image], node: &Node) -> Result<Term, Memory>
    requires parts { All (λ t. t < length images.now) (parts_of (plain_node node.now)) }
    requires stand { All (StandsIn arena.old) images.now }
    requires room { HasRoom 1 arena.old }
    requires kind { image_kind (plain_node node.now) ≡ Kind.Pick }
    ensures is { IfOk result (λ own. IsKeyTest arena.new images.now (plain_node node.now) own) }
    ensures grows { OnOk result ((asker : GroundNode) → Grows asker 1 arena.old arena.new) }
{
    match node {
        Node::Pick(parts, keys, indices) => {
            let own = table_of(alloc, arena, images, keys, parts.len(), indices)?;
            Ok(own)
        }
        _ => unreachable!(),
    }
}

/// What stands for a quotient or a remainder.
fn division_image(
    alloc: Global,
    arena: &mut Arena,
    nought: Term,
    images: &[Image],
    node: &Node,
) -> Result<Image, Memory>
    requires kind { image_kind (plain_node node.now) ≡ Kind.Division }
    requires parts { All (λ t. t < length images.now) (parts_of (plain_node node.now)) }
    requires stand { All (StandsIn arena.old) images.now }
    requires nought { nought < length arena.old }
    requires room { HasRoom 3 arena.old }
    ensures is { IfOk result (λ image.
        IsImage arena.new nought images.now (plain_node node.now) image) }
    ensures grows { OnOk result (Grows (plain_node node.now) 3 arena.old arena.new) }
{
    let own = divisor_test(arena, nought, images, node)?;
    let image = number_image(alloc, arena, images, node, Some(own))?;
    Ok(image)
}

/// What stands for a pick.
fn pick_image(
    alloc: Global,
    arena: &mut Arena,
    nought: Term,
    images: &[Image],
    node: &Node,
) -> Result<Image, Memory>
    requires kind { image_kind (plain_node node.now) ≡ Kind.Pick }
    requires parts { All (λ t. t < length images.now) (parts_of (plain_node node.now)) }
    requires stand { All (StandsIn arena.old) images.now }
    requires room { HasRoom 3 arena.old }
    ensures is { IfOk result (λ image.
        IsImage arena.new nought images.now (plain_node node.now) image) }
    ensures grows { OnOk result (Grows (plain_node node.now) 3 arena.old arena.new) }
{
    let _nought = nought;
    let own = key_test(alloc, arena, images, node)?;
    let image = number_image(alloc, arena, images, node, Some(own))?;
    Ok(image)
}

/// What stands for a node, over what stands for its parts.
pub fn node_image(
    alloc: Global,
    arena: &mut Arena,
    nought: Term,
    images: &[Image],
    node: &Node,
) -> Result<Image, Memory>
    requires parts { All (λ t. t < length images.now) (parts_of (plain_node node.now)) }
    requires stand { All (StandsIn arena.old) images.now }
    requires nought { nought < length arena.old }
    requires room { HasRoom 3 arena.old }
    ensures is { IfOk result (λ image.
        IsImage arena.new nought images.now (plain_node node.now) image) }
    ensures grows { OnOk result (Grows (plain_node node.now) 3 arena.old arena.new) }
{
    match node_kind(node) {
        Kind::Number => plain_image(alloc, arena, nought, images, node),
        Kind::Truth => truth_image(alloc, arena, nought, images, node),
        Kind::Nothing => Ok(nothing_image(nought)),
        Kind::Division => division_image(alloc, arena, nought, images, node),
        Kind::Pick => pick_image(alloc, arena, nought, images, node),
        Kind::Whole => whole_image(alloc, arena, nought, images, node),
    }
}

/// What stands for a node that has no value.
fn nothing_image(nought: Term) -> Image
    ensures { IsNothingImage nought result }
{
    Image {
        total: nought,
        guard: Some(nought),
    }
}
