//! Which kinds of node are truth values with a constraint on their parts.

ghost use Rattle.std.specs.Prelude.{◌≡◌};
ghost use Rattle.ep_flatten.specs.Tops as tops;
ghost use Rattle.ep_ground.specs.NodeViews.{plain_node};

use ep_ground::Node;

/// Whether a node is a truth value for which there is a kind of constraint on its parts, other than
/// that all of them are true.
#[tactic(auto, unfolding(crate::specs::Tops::is_test))]
pub fn is_test(node: &Node) -> bool
    ensures { result ≡ tops.is_test (plain_node node.now) }
{
    match node {
        Node::Compare(_, _, _)
        | Node::Lex(_, _, _)
        | Node::Member(_, _)
        | Node::Not(_)
        | Node::Or(_)
        | Node::Iff(_, _)
        | Node::AllDiff(_)
        | Node::Gcc(_, _, _)
        | Node::AtLeast(_, _, _)
        | Node::AtMost(_, _, _)
        | Node::Table(_, _) => true,
        _ => false,
    }
}

/// Whether a node says that all of its parts are true.
#[tactic(auto, unfolding(crate::specs::Tops::is_all))]
pub fn is_all(node: &Node) -> bool
    ensures { result ≡ tops.is_all (plain_node node.now) }
{
    match node {
        Node::And(_) => true,
        _ => false,
    }
}
