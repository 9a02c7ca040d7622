//! Sums of terms.

ghost use Rattle.std.specs.Prelude.{◌≡◌, ◌<◌, ◌∷◌, [], List, IfOk, Some, length, map, pos};
ghost use Rattle.std.specs.List.{All};
ghost use Rattle.ep_base.specs.declared.places.Place.{Place};
ghost use Rattle.ep_ground.specs.Nodes.{GroundNode};
ghost use Rattle.ep_tree.specs.Environments as names;
ghost use Rattle.ep_tree.specs.Trees.{Terms, chain};
ghost use Rattle.ep_unroll.specs.Meanings.{IsTermOf};
ghost use Rattle.ep_unroll.specs.Readings.{Numbering};
ghost use Rattle.ep_unroll.specs.Signed.{AreSigned, sign_number};

use super::growing::put;
use ep_base::Memory;
use ep_ground::{Arena, Node, Term};
use std::alloc::Global;

/// The coefficient of a term that is added, or taken away.
#[tactic(auto, unfolding(crate::specs::Signed::sign_number))]
pub fn sign_of(plus: bool) -> i64
    ensures { result ≡ sign_number plus }
{
    if plus {
        return 1;
    }
    -1
}

/// A chain of sums of these parts.
pub fn chain_term(arena: &mut Arena, parts: Vec<(i64, Term)>) -> Result<Term, Memory>
    requires { All (λ part. part.1 < length arena.old) parts.items }
    ensures { (n : Numbering) → (cells : names.Env) → (nodes : List GroundNode) → (p : Place) → (terms : Terms)
        → AreSigned n cells nodes arena.old terms parts.items
        → IfOk result (IsTermOf n cells nodes arena.new (chain p terms)) }
{
    put(arena, Node::Add(0, parts))
}

/// Terms that are added.
pub fn added(alloc: Global, terms: &[Term]) -> Result<Vec<(i64, Term)>, Memory>
    ensures { IfOk result (λ parts. parts.items ≡ map (λ t. (pos 1, t)) terms.now) }
{
    let mut parts = Vec::new(alloc);
    for term in terms {
        parts.push((1, *term))?;
    }
    Ok(parts)
}
