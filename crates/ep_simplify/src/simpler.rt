//! The simplification of grounds.

ghost use Rattle.std.specs.Prelude.{◌≡◌, ◌<◌, ◌≤◌, ℕ, [], true, length, IfOk, option_map, option_to_list};
ghost use Rattle.std.specs.List.{All};
ghost use Rattle.ep_ground.specs.Bounds.{IsBounded};
ghost use Rattle.ep_ground.specs.Grounds.{AsksForAdditions, HasNoPartialNode, IsWellFormed, KeepsSolutions, named_terms};
ghost use Rattle.ep_ground.specs.GroundViews.{plain_ground};
ghost use Rattle.ep_reach.specs.Reaching.{IsNearThroughout};
ghost use Rattle.ep_simplify.specs.Decided.{AreFolded, AreUntold, IsOpen};
ghost use Rattle.ep_simplify.specs.Settling.{AreNear, IsNews};
ghost use Rattle.ep_simplify.specs.Standing.{IsSimplified, Stand, goal_image};

use crate::copying::{all, image, with_parts};
use crate::news::News;
use crate::settling::settled;
use ep_base::{Memory, Sense};
use ep_ground::{Arena, Ground, Term};
use std::alloc::Global;

/// The most nodes of a ground that is simplified.
pub const MOST_NODES: u64 = 400_000_008;

/// No new nodes yet.
fn no_news(alloc: Global) -> News
    ensures arena { result.arena ≡ [] }
    ensures spans { result.spans.items ≡ [] }
    ensures near { result.near ≡ true }
{
    News {
        arena: Arena::new(alloc),
        spans: Vec::new(alloc),
        near: true,
    }
}

/// What stands for each term of a ground, in order.
fn images_of(alloc: Global, news: &mut News, g: &Ground) -> Result<Vec<Term>, Memory>
    requires well_formed { IsWellFormed (plain_ground g.now) }
    requires no_partial { HasNoPartialNode (plain_ground g.now) }
    requires news { IsNews g.now.cells.items news.old }
    requires none { news.old.arena ≡ [] }
    requires near { news.old.near ≡ true }
    ensures stand { IfOk result (λ images. Stand g.now.cells.items g.now.arena news.new.arena images.items) }
    ensures many { IfOk result (λ images. length images.items ≡ length g.now.arena) }
    ensures news { IfOk result (λ images. IsNews g.now.cells.items news.new) }
    ensures near { IfOk result (λ images. IsNearThroughout (plain_ground g.now) → AreNear news.new) }
{
    let mut images = Vec::new(alloc);
    for t in 0..g.arena.len() {
        let old = g.arena.node(Term::new(t as u32));
        let node = with_parts(alloc, &images, old)?;
        let image = settled(alloc, news, &g.cells, node)?;
        images.push(image)?;
    }
    Ok(images)
}

/// The objective over the term that stands for its own.
#[tactic(auto, unfolding(crate::specs::Standing::goal_image))]
fn objective_of(images: &[Term], objective: Option<(Sense, Term)>) -> Option<(Sense, Term)>
    requires { All (λ t. t < length images.now) (option_to_list (option_map (λ goal. goal.1) objective)) }
    ensures { result ≡ goal_image images.now objective }
{
    match objective {
        Some((sense, term)) => Some((sense, image(images, term))),
        None => None,
    }
}

/// The ground with what stands for clauses and objective of another.
pub fn new_ground(alloc: Global, g: Ground, arena: Arena, images: &[Term]) -> Result<Ground, Memory>
    requires { All (λ t. t < length images.now) (named_terms (plain_ground g)) }
    ensures nodes { IfOk result (λ new. new.arena ≡ arena) }
    ensures simplified { IfOk result (λ new. IsSimplified (plain_ground g) (plain_ground new) images.now) }
{
    let clauses = all(alloc, images, &g.clauses)?;
    let objective = objective_of(images, g.objective);
    Ok(Ground {
        arena,
        cells: g.cells,
        clauses,
        objective,
    })
}

/// A ground that keeps the same values of the cells, with the same numbers of the objective, and of which numbers alone among
/// the parts of a node decide nothing more. Where all nodes of the ground given are near, their intervals decide nothing more either:
/// one that isn't, also one that nothing leads to, ends deciding by intervals. One pass, linear in the nodes and their parts.
pub fn simplify(alloc: Global, g: Ground) -> Result<Ground, Memory>
    requires nodes { length (plain_ground g).nodes ≤ MOST_NODES }
    requires well_formed { IsWellFormed (plain_ground g) }
    requires no_partial { HasNoPartialNode (plain_ground g) }
    ensures keeps { IfOk result (λ new. KeepsSolutions (plain_ground g) (plain_ground new)) }
    ensures no_partial { IfOk result (λ new. HasNoPartialNode (plain_ground new)) }
    ensures well_formed { IfOk result (λ new. IsWellFormed (plain_ground new)) }
    ensures bounded { IfOk result (λ new. IsBounded (plain_ground g) → IsBounded (plain_ground new)) }
    ensures nodes { IfOk result (λ new. length (plain_ground new).nodes ≤ length (plain_ground g).nodes) }
    ensures additions { IfOk result (λ new. (more fewer : ℕ)
        → AsksForAdditions (plain_ground g) more → AsksForAdditions (plain_ground new) fewer → fewer ≤ more) }
    ensures undecided { IfOk result (λ new. All (IsOpen (plain_ground new).nodes) (plain_ground new).nodes) }
    ensures untold { IfOk result (λ new. IsNearThroughout (plain_ground g) → AreUntold (plain_ground new)) }
    ensures folded { IfOk result (λ new. IsNearThroughout (plain_ground g) → AreFolded (plain_ground new)) }
{
    let mut news = no_news(alloc);
    let images = images_of(alloc, &mut news, &g)?;
    let News { arena, .. } = news;
    let new = new_ground(alloc, g, arena, &images)?;
    Ok(new)
}
