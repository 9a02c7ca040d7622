//! The numbers that the elements of a domain may be.

ghost use Rattle.std.specs.Prelude.{◌≡◌};
ghost use Rattle.ep_tree.specs.Domains.{set_has};
ghost use Rattle.ep_instance_parts.specs.Elements.{element_passes};

use ep_base::Runs;
use ep_tree::SetOp;

/// The numbers that the elements of a domain may be, of which an open domain doesn't list them all:
/// runs in which an open end is the least or the greatest number, and operations on such.
#[derive(Drop)]
pub enum Elements {
    Within(Runs),
    Joined(SetOp, Box<Elements>, Box<Elements>),
}

#[tactic(auto, unfolding(ep_tree::specs::Domains::set_has))]
fn joins(op: SetOp, one: bool, other: bool) -> bool
    ensures { result ≡ set_has op one other }
{
    match op {
        SetOp::Union => one || other,
        SetOp::Intersect => one && other,
        SetOp::Minus => one && !other,
    }
}

/// Whether an element may be this number.
#[tactic(auto, unfolding(crate::specs::Elements::element_passes))]
pub fn passes(elements: &Elements, number: i64) -> bool
    ensures { result ≡ element_passes elements.now number }
{
    match elements {
        Elements::Within(numbers) => numbers.has(number),
        Elements::Joined(op, one, other) => joins(*op, passes(one, number), passes(other, number)),
    }
}
