//! Membership in domains.

ghost use Rattle.std.specs.Prelude.{◌≡◌, ◌<◌, List, IfOk, length};
ghost use Rattle.ep_base.specs.declared.places.Place.{Place};
ghost use Rattle.ep_ground.specs.Nodes.{GroundNode};
ghost use Rattle.ep_tree.specs.Environments as names;
ghost use Rattle.ep_tree.specs.Evaluation.{domain_values};
ghost use Rattle.ep_tree.specs.Trees.{DomainTree, ExprTree, in_domain};
ghost use Rattle.ep_eval.specs.Scopes.{mode_in};
ghost use Rattle.ep_unroll.specs.Meanings.{IsNumberOf, IsTermOf};
ghost use Rattle.ep_unroll.specs.Readings.{Numbering, Reading};

use super::truths::{judged, needed_part, no_truth};
use ep_base::{Memory, Runs};
use ep_eval::Scope;
use ep_ground::{Arena, Node, Term};

/// Whether a part is one of the numbers of a domain, which may be undefined.
pub fn member_term(
    scope: Scope<'_, '_>,
    arena: &mut Arena,
    count: u64,
    part: Term,
    numbers: Option<Runs>,
) -> Result<Term, Memory>
    requires { part < length arena.old }
    ensures { (n : Numbering) → (cells : names.Env) → (nodes : List GroundNode) → (p : Place) → (e : ExprTree) → (d : DomainTree)
        → n.mode ≡ mode_in scope.entry → n.count ≡ count
        → ((r : Reading n cells) → domain_values n.mode r.values d ≡ numbers)
        → IsNumberOf n cells nodes arena.old e part
        → IfOk result (IsTermOf n cells nodes arena.new (in_domain p e d)) }
{
    match numbers {
        Some(set) => {
            let needed = needed_part(scope, arena, count, part)?;
            judged(arena, Node::Member(part, set), needed)
        }
        None => no_truth(scope, arena),
    }
}
