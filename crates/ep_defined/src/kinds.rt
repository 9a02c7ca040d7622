//! The kinds of nodes, by where they have a value.

ghost use Rattle.std.specs.Prelude.{◌≡◌};
ghost use Rattle.ep_defined.specs.Images.{image_kind};
ghost use Rattle.ep_ground.specs.NodeViews.{plain_node};

use ep_ground::Node;

/// Where a node has a value.
#[derive(Clone, Copy, Debug)]
pub enum Kind {
    /// Where its parts have one.
    Number,
    /// Everywhere: it is a truth value.
    Truth,
    /// Nowhere.
    Nothing,
    /// Where its parts have one and the divisor isn't 0.
    Division,
    /// Where its parts have one and the indices are a key.
    Pick,
    /// Where its parts have one, and then it is the first of them.
    Whole,
}

/// The kind of a node.
#[tactic(auto, unfolding(crate::specs::Images::image_kind))]
pub fn node_kind(node: &Node) -> Kind
    ensures { result ≡ image_kind (plain_node node.now) }
{
    match node {
        Node::Const(_) => Kind::Number,
        Node::Undefined => Kind::Nothing,
        Node::Cell(_) => Kind::Number,
        Node::Add(_, _) => Kind::Number,
        Node::Mul(_, _) => Kind::Number,
        Node::Div(_, _) => Kind::Division,
        Node::Mod(_, _) => Kind::Division,
        Node::Pow(_, _) => Kind::Number,
        Node::Abs(_) => Kind::Number,
        Node::Min(_) => Kind::Number,
        Node::Max(_) => Kind::Number,
        Node::Pick(_, _, _) => Kind::Pick,
        Node::Whole(_, _) => Kind::Whole,
        Node::SafeDiv(_, _) => Kind::Number,
        Node::SafeMod(_, _) => Kind::Number,
        Node::SafePick(_, _, _) => Kind::Number,
        Node::Compare(_, _, _) => Kind::Truth,
        Node::Lex(_, _, _) => Kind::Truth,
        Node::Member(_, _) => Kind::Truth,
        Node::Not(_) => Kind::Truth,
        Node::And(_) => Kind::Truth,
        Node::Or(_) => Kind::Truth,
        Node::Iff(_, _) => Kind::Truth,
        Node::AllDiff(_) => Kind::Truth,
        Node::Gcc(_, _, _) => Kind::Truth,
        Node::AtLeast(_, _, _) => Kind::Truth,
        Node::AtMost(_, _, _) => Kind::Truth,
        Node::Table(_, _) => Kind::Truth,
    }
}
