//! The removal of undefinedness.

ghost use Rattle.std.specs.Prelude.{◌≡◌, ◌+◌, ◌*◌, ◌<◌, ◌≤◌, ℕ, [], List, length, IfOk};
ghost use Rattle.std.specs.List.{All};
ghost use Rattle.ep_defined.specs.Translations.{IsRemoved, Translates};
ghost use Rattle.ep_ground.specs.Bounds.{IsBounded};
ghost use Rattle.ep_ground.specs.Grounds.{HasNoPartialNode, IsWellFormed, KeepsSolutions, named_terms};
ghost use Rattle.ep_ground.specs.GroundViews.{plain_ground};
ghost use Rattle.ep_ground.specs.Nodes.{GroundNode};
ghost use Rattle.ep_ground.specs.declared.cells.Cell.{Cell};

use crate::all::images_of;
use crate::clauses::{clauses_of, objective_of};
use crate::images::Image;
use crate::steps::taken;
use ep_base::Memory;
use ep_ground::{Arena, Ground, Node, Term};
use std::alloc::Global;

/// The most nodes that a ground may have.
pub const MOST_NODES: u64 = 100_000_000;

/// Takes 0 into an arena without nodes, where nothing stands for any term yet.
fn start(arena: &mut Arena) -> Result<Term, Memory>
    requires { arena.old ≡ [] }
    ensures { IfOk result (λ nought. (cells : List Cell) → (olds : List GroundNode)
        → Translates cells olds arena.new nought []) }
{
    let nought = taken(arena, Node::Const(0))?;
    Ok(nought)
}

/// The ground with what stands for clauses and objective of another.
fn new_ground(alloc: Global, g: Ground, arena: Arena, images: &[Image]) -> Result<Ground, Memory>
    requires { All (λ t. t < length images.now) (named_terms (plain_ground g)) }
    ensures nodes { IfOk result (λ new. new.arena ≡ arena) }
    ensures removed { IfOk result (λ new.
        IsRemoved (plain_ground g) (plain_ground new) images.now) }
{
    let clauses = clauses_of(alloc, images, &g)?;
    let objective = objective_of(images, g.objective);
    Ok(Ground {
        arena,
        cells: g.cells,
        clauses,
        objective,
    })
}

/// A ground that keeps the same values of the cells, with the same numbers of the objective, and has
/// no node that may lack a value.
pub fn remove_undefined(alloc: Global, g: Ground) -> Result<Ground, Memory>
    requires nodes { length (plain_ground g).nodes ≤ MOST_NODES }
    requires well_formed { IsWellFormed (plain_ground g) }
    ensures keeps { IfOk result (λ new. KeepsSolutions (plain_ground g) (plain_ground new)) }
    ensures no_partial { IfOk result (λ new. HasNoPartialNode (plain_ground new)) }
    ensures well_formed { IfOk result (λ new. IsWellFormed (plain_ground new)) }
    ensures bounded { IfOk result (λ new.
        IsBounded (plain_ground g) → IsBounded (plain_ground new)) }
    ensures nodes { IfOk result (λ new.
        length (plain_ground new).nodes ≤ 4 * length (plain_ground g).nodes + 8) }
{
    let mut arena = Arena::new(alloc);
    let nought = start(&mut arena)?;
    let images = images_of(alloc, &mut arena, nought, &g)?;
    let new = new_ground(alloc, g, arena, &images)?;
    Ok(new)
}
