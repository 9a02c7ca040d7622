//! What a ground has to fulfil for the stages behind, asked of each node once it stands.

ghost use Rattle.std.specs.Prelude.{◌≡◌, ◌<◌, true, length, option_map, option_to_list, IfOk};
ghost use Rattle.std.specs.List.{All};
ghost use Rattle.ep_base.specs.Reads.{IsWithinNumbers};
ghost use Rattle.ep_ground.specs.Bounds.{IsBounded};
ghost use Rattle.ep_ground.specs.GroundViews.{plain_ground};
ghost use Rattle.ep_ground.specs.Grounds.{IsWellFormed, StandsOver};
ghost use Rattle.ep_ground.specs.NodeViews.{plain_node};
ghost use Rattle.ep_reach.specs.Reaching.{IsNearThroughout};

use super::reaches::{is_near_set, near_reach};
use ep_base::{Memory, Sense};
use ep_ground::{Arena, Cell, Ground, Node, Term};
use std::alloc::Global;

/// Whether these are terms of an arena with so many nodes.
fn are_terms(terms: &[Term], nodes: u64) -> bool
    ensures sound { result ≡ true → All (λ t. t < nodes) terms.now }
    ensures complete { All (λ t. t < nodes) terms.now → result ≡ true }
{
    for term in terms {
        if u64::from(term.number()) >= nodes {
            return false;
        }
    }
    true
}

/// Whether an objective's term is one of an arena with so many nodes.
fn is_goal(objective: &Option<(Sense, Term)>, nodes: u64) -> bool
    ensures sound { result ≡ true → All (λ t. t < nodes) (option_to_list (option_map (λ goal. goal.1) objective.now)) }
    ensures complete { All (λ t. t < nodes) (option_to_list (option_map (λ goal. goal.1) objective.now)) → result ≡ true }
{
    match objective {
        Some((_, goal)) => u64::from(goal.number()) < nodes,
        None => true,
    }
}

/// Whether a node can stand in a ground with so many cells.
#[tactic(auto, unfolding(ep_ground::specs::Grounds::StandsOver))]
fn stands_over(cells: u64, node: &Node) -> bool
    ensures sound { result ≡ true → StandsOver cells (plain_node node.now) }
    ensures complete { StandsOver cells (plain_node node.now) → result ≡ true }
{
    match node {
        Node::Cell(cell) => *cell < cells,
        Node::Min(parts) => !parts.is_empty(),
        Node::Max(parts) => !parts.is_empty(),
        _ => true,
    }
}

/// Whether each node of an arena can stand in a ground with so many cells.
fn all_stand_over(cells: u64, arena: &Arena) -> bool
    ensures sound { result ≡ true → All (StandsOver cells) arena.now }
    ensures complete { All (StandsOver cells) arena.now → result ≡ true }
{
    for term in 0..arena.len() {
        if !stands_over(cells, arena.node(Term::new(term as u32))) {
            return false;
        }
    }
    true
}

/// Whether the terms of a ground are terms, its cells cells, and no least or greatest part one of none. Linear in the nodes.
pub fn is_well_formed(ground: &Ground) -> bool
    ensures sound { result ≡ true → IsWellFormed (plain_ground ground.now) }
    ensures complete { IsWellFormed (plain_ground ground.now) → result ≡ true }
{
    let nodes = ground.arena.len();
    let clauses = are_terms(&ground.clauses, nodes);
    let objective = is_goal(&ground.objective, nodes);
    let stand = all_stand_over(ground.cells.len() as u64, &ground.arena);
    if !clauses || !objective {
        return false;
    }
    stand
}

/// Whether the stages compute with each value of some cells.
fn are_near_cells(cells: &[Cell]) -> bool
    ensures sound { result ≡ true → All (λ one. All IsWithinNumbers one.values) cells.now }
    ensures complete { All (λ one. All IsWithinNumbers one.values) cells.now → result ≡ true }
{
    for cell in cells {
        if !is_near_set(&cell.values) {
            return false;
        }
    }
    true
}

/// Whether no term reaches farther than the stages compute with. Linear in the nodes and their parts.
///
/// All nodes are asked, also those that no clause leads to.
pub fn is_bounded(alloc: Global, ground: &Ground) -> Result<bool, Memory>
    ensures sound { IfOk result (λ bounded. bounded ≡ true → IsBounded (plain_ground ground.now)) }
    ensures complete { IfOk result (λ bounded. IsNearThroughout (plain_ground ground.now) → bounded ≡ true) }
{
    if !are_near_cells(&ground.cells) {
        return Ok(false);
    }
    let mut spans = Vec::new(alloc);
    for term in 0..ground.arena.len() {
        let node = ground.arena.node(Term::new(term as u32));
        let Some(span) = near_reach(&spans, &ground.cells, node) else {
            return Ok(false);
        };
        spans.push(span)?;
    }
    Ok(true)
}
