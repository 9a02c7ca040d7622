//! The nodes of the new ground, and how far they reach.

ghost use Rattle.std.specs.Prelude.{◌≡◌, ◌-◌, ◌<◌, ◌^◌, length, pos, slice_index_or, IfOk};
ghost use Rattle.ep_base.specs.Intervals.{IsWithinReach};
ghost use Rattle.ep_base.specs.Reads.{IsWithinNumbers};
ghost use Rattle.ep_ground.specs.NodeViews.{plain_node};
ghost use Rattle.ep_ground.specs.declared.cells.Cell.{Cell};
ghost use Rattle.ep_numbers.specs.Spans.{interval_of};
ghost use Rattle.ep_numbers.specs.declared.spans.Span.{Span};
ghost use Rattle.ep_share.specs.Cutting.{CanBeTaken, IsCut, IsMade, IsReachOver, IsTaken, told_reach};

use ep_base::Memory;
use ep_ground::{Arena, Cell, Node, Term};
use ep_numbers::Span;
use ep_reach::near_reach;
use ep_simplify::interned;

/// The new nodes so far, with an interval for each.
#[derive(Drop)]
pub struct Making {
    /// The nodes.
    pub arena: Arena,
    /// How far each reaches; without a meaning where a term leads to one that reaches too far.
    pub spans: Vec<Span>,
}

/// How far a node reaches, and 0 alone where that is too far.
fn span_of(spans: &[Span], cells: &[Cell], node: &Node) -> Span
    ensures { IsReachOver cells.now spans.now (plain_node node.now) (interval_of result) }
{
    match near_reach(spans, cells, node) {
        Some(span) => span,
        None => Span { low: 0, high: 0 },
    }
}

/// Takes in a node.
pub fn take(made: &mut Making, cells: &[Cell], node: Node) -> Result<Term, Memory>
    requires made { IsMade cells.now made.old }
    requires room { length made.old.arena < 2 ^ 32 - 1 }
    requires node { CanBeTaken cells.now made.old (plain_node node) }
    requires cut { IsCut (told_reach made.old.spans.items) (plain_node node) }
    ensures { IfOk result (λ term. IsTaken cells.now made.old (plain_node node) made.new term) }
{
    let before = made.arena.len();
    let span = span_of(&made.spans, cells, &node);
    let term = interned(&mut made.arena, node)?;
    if made.arena.len() == before {
        return Ok(term);
    }
    made.spans.push(span)?;
    Ok(term)
}
