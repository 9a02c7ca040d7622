//! Terms of an arena.

use ep_base::CompareOp;
use ep_ground::{Arena, Node};
use std::test::Fail;

#[test]
#[tactic(auto, unfolding(ep_ground::specs::Nodes::parts_of))]
fn an_equal_node_is_the_same_term(rt: HostRuntime) -> Result<(), Fail> {
    let mut arena = Arena::new(rt.alloc());
    let three = arena.intern(Node::Const(3))?;
    let cell = arena.intern(Node::Cell(0))?;
    let less = arena.intern(Node::Compare(CompareOp::Less, three, cell))?;
    let again = arena.intern(Node::Const(3))?;
    assert_eq!(rt; (three.number(), cell.number()), (0, 1));
    assert_eq!(rt; (less.number(), again.number()), (2, 0));
    assert_eq!(rt; arena.len(), 3);
    Ok(())
}
