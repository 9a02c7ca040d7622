//! Grounds whose sums share what they have in common.

ghost use Rattle.std.specs.Prelude.{◌≡◌, ◌*◌, ◌≤◌, ℕ, [], true, false, length, IfOk};
ghost use Rattle.std.specs.List.{All};
ghost use Rattle.ep_ground.specs.Bounds.{IsBounded};
ghost use Rattle.ep_ground.specs.Grounds.{AsksForAdditions, HasNoPartialNode, IsWellFormed, KeepsSolutions};
ghost use Rattle.ep_ground.specs.GroundViews.{plain_ground};
ghost use Rattle.ep_ground.specs.NodeViews.{plain_node};
ghost use Rattle.ep_reach.specs.Reaching.{HasFewParts};
ghost use Rattle.ep_share.specs.Cutting.{IsMade};
ghost use Rattle.ep_share.specs.Sharing.{AreShared};
ghost use Rattle.ep_share.specs.Standing.{Stand};

use crate::counting::{Counts, Tally, counts_of, tally_of};
use crate::cutting::{is_small, settled};
use crate::making::Making;
use ep_base::Memory;
use ep_ground::{Arena, Ground, Node, Term};
use ep_simplify::{new_ground, with_parts};
use std::alloc::Global;

/// The most nodes of a ground whose sums are shared.
pub const MOST_NODES: u64 = 400_000_008;

/// The most parts of a sum whose reach words of 128 bits tell.
const MOST_TOLD: usize = 4_294_967_296;

/// No new nodes yet.
fn nothing(alloc: Global) -> Making
    ensures arena { result.arena ≡ [] }
    ensures spans { result.spans.items ≡ [] }
{
    Making {
        arena: Arena::new(alloc),
        spans: Vec::new(alloc),
    }
}

/// Whether a sum has so few parts that its reach is told.
#[tactic(auto, unfolding(ep_ground::specs::Nodes::coefficients_of))]
fn has_few_parts(node: &Node) -> bool
    ensures sound { result ≡ true → HasFewParts (plain_node node.now) }
    ensures complete { HasFewParts (plain_node node.now) → result ≡ true }
{
    match node {
        Node::Add(_, parts) => parts.len() <= MOST_TOLD,
        _ => true,
    }
}

/// Whether each sum has so few parts.
fn have_few_parts(arena: &Arena) -> bool
    ensures sound { result ≡ true → All HasFewParts arena.now }
    ensures complete { All HasFewParts arena.now → result ≡ true }
{
    for term in 0..arena.len() {
        if !has_few_parts(arena.node(Term::new(term as u32))) {
            return false;
        }
    }
    true
}

/// A tally of a node's parts, where it is a sum that is cut.
fn tally_for(alloc: Global, counts: &Counts, node: &Node) -> Result<Tally, Memory> {
    match node {
        Node::Add(_, parts) => {
            if is_small(parts) {
                return tally_of(alloc, counts, parts);
            }
            tally_of(alloc, counts, &[])
        }
        _ => tally_of(alloc, counts, &[]),
    }
}

/// What stands for each term of a ground, in order.
fn images_of(
    alloc: Global,
    made: &mut Making,
    counts: &mut Counts,
    g: &Ground,
) -> Result<Vec<Term>, Memory>
    requires nodes { length (plain_ground g.now).nodes ≤ MOST_NODES }
    requires well_formed { IsWellFormed (plain_ground g.now) }
    requires no_partial { HasNoPartialNode (plain_ground g.now) }
    requires few { All HasFewParts g.now.arena }
    requires made { IsMade g.now.cells.items made.old }
    requires none { made.old.arena ≡ [] }
    ensures stand { IfOk result (λ images. Stand g.now.cells.items g.now.arena made.new.arena images.items) }
    ensures many { IfOk result (λ images. length images.items ≡ length g.now.arena) }
    ensures made { IfOk result (λ images. IsMade g.now.cells.items made.new) }
{
    let mut images = Vec::new(alloc);
    for t in 0..g.arena.len() {
        let old = g.arena.node(Term::new(t as u32));
        let tally = tally_for(alloc, counts, old)?;
        let node = with_parts(alloc, &images, old)?;
        let image = settled(alloc, made, &g.cells, counts, tally, node)?;
        images.push(image)?;
    }
    Ok(images)
}

/// A ground that keeps the same values of the cells, with the same numbers of the objective, in which no two parts stand together
/// in two different sums of eight parts at most, as long as the stages compute with their sum.
///
/// Each such sum is cut into sums of two parts, those first that stand together in most sums, or are a term already. One pass, linear in the nodes and
/// their parts. A ground with a sum of over 2^32 parts is given back as it is.
pub fn share(alloc: Global, g: Ground) -> Result<Ground, Memory>
    requires nodes { length (plain_ground g).nodes ≤ MOST_NODES }
    requires well_formed { IsWellFormed (plain_ground g) }
    requires no_partial { HasNoPartialNode (plain_ground g) }
    requires bounded { IsBounded (plain_ground g) }
    ensures keeps { IfOk result (λ new. KeepsSolutions (plain_ground g) (plain_ground new)) }
    ensures no_partial { IfOk result (λ new. HasNoPartialNode (plain_ground new)) }
    ensures well_formed { IfOk result (λ new. IsWellFormed (plain_ground new)) }
    ensures bounded { IfOk result (λ new. IsBounded (plain_ground new)) }
    ensures nodes { IfOk result (λ new. length (plain_ground new).nodes ≤ 8 * length (plain_ground g).nodes) }
    ensures additions { IfOk result (λ new. (more fewer : ℕ)
        → AsksForAdditions (plain_ground g) more → AsksForAdditions (plain_ground new) fewer → fewer ≤ more) }
    ensures shared { IfOk result (λ new. All HasFewParts (plain_ground g).nodes → AreShared (plain_ground new)) }
{
    if !have_few_parts(&g.arena) {
        return Ok(g);
    }
    let mut counts = counts_of(alloc, &g)?;
    let mut made = nothing(alloc);
    let images = images_of(alloc, &mut made, &mut counts, &g)?;
    let Making { arena, .. } = made;
    let new = new_ground(alloc, g, arena, &images)?;
    Ok(new)
}
