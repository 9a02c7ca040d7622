//! Powers.

ghost use Rattle.std.specs.Prelude.{◌≡◌, ◌<◌, true, ℤ, List, None, Some, IfOk, IfSome, length};
ghost use Rattle.ep_base.specs.declared.places.Place.{Place};
ghost use Rattle.ep_ground.specs.Nodes.{GroundNode};
ghost use Rattle.ep_ground.specs.Terms.{term_value};
ghost use Rattle.ep_tree.specs.Environments as names;
ghost use Rattle.ep_tree.specs.Trees.{ExprTree, binary};
ghost use Rattle.ep_tree.specs.declared.syntax.BinaryOp.{BinaryOp as EachOp};
ghost use Rattle.ep_unroll.specs.Meanings.{IsNumberOf, IsTermOf};
ghost use Rattle.ep_unroll.specs.Powers.{IsPower};
ghost use Rattle.ep_unroll.specs.Readings.{Numbering};

use super::growing::put;
use ep_base::Memory;
use ep_ground::{Arena, Node, Term};

/// The number that a term always has, where its node says so.
fn constant_at(arena: &Arena, term: Term) -> Option<i64>
    requires { term < length arena.now }
    ensures { IfSome result (λ k. (numbers : List ℤ) → term_value arena.now numbers term ≡ Some k) }
{
    let _size = arena.len();
    match arena.node(term) {
        Node::Const(number) => Some(*number),
        _ => None,
    }
}

/// Whether a term never has a value, as its node says.
fn is_undefined(arena: &Arena, term: Term) -> bool
    requires { term < length arena.now }
    ensures { result ≡ true → (numbers : List ℤ) → term_value arena.now numbers term ≡ None }
{
    let _size = arena.len();
    match arena.node(term) {
        Node::Undefined => true,
        _ => false,
    }
}

/// A term multiplied by itself, so often in all; what has no value where that is less than 0.
fn power_of(arena: &mut Arena, base: Term, exponent: i64) -> Result<Term, Memory>
    requires { base < length arena.old }
    ensures { IfOk result (IsPower arena.old arena.new base exponent) }
{
    if exponent < 0 {
        return put(arena, Node::Undefined);
    }
    put(arena, Node::Pow(base, exponent as u64))
}

/// `base ** exponent`, where the exponent is a number. Where it isn't, it ends as want of memory: no decision variable may
/// stand in it.
pub fn power_term(arena: &mut Arena, base: Term, exponent: Term) -> Result<Term, Memory>
    requires base { base < length arena.old }
    requires exponent { exponent < length arena.old }
    ensures { (n : Numbering) → (cells : names.Env) → (nodes : List GroundNode) → (p : Place) → (e : ExprTree) → (f : ExprTree)
        → IsNumberOf n cells nodes arena.old e base → IsNumberOf n cells nodes arena.old f exponent
        → IfOk result (IsTermOf n cells nodes arena.new (binary p EachOp.Pow e f)) }
{
    if is_undefined(arena, exponent) {
        return put(arena, Node::Undefined);
    }
    match constant_at(arena, exponent) {
        Some(number) => power_of(arena, base, number),
        None => Err(Memory),
    }
}
