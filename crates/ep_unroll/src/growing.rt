//! Nodes that are taken into the arena.

ghost use Rattle.std.specs.Prelude.{◌<◌, IfOk, length};
ghost use Rattle.std.specs.List.{All};
ghost use Rattle.ep_ground.specs.Nodes.{parts_of};
ghost use Rattle.ep_ground.specs.NodeViews.{plain_node};
ghost use Rattle.ep_unroll.specs.Growing.{Puts};

use ep_base::Memory;
use ep_ground::{Arena, Node, Term};

/// The term of a node, an old one where the node is there.
pub fn put(arena: &mut Arena, node: Node) -> Result<Term, Memory>
    requires { All (λ part. part < length arena.old) (parts_of (plain_node node)) }
    ensures { IfOk result (Puts arena.old arena.new (plain_node node)) }
{
    let taken = arena.intern(node);
    let _count = arena.len();
    match taken {
        Ok(term) => Ok(term),
        Err(_) => Err(Memory),
    }
}
