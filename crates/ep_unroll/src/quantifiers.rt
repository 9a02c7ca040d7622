//! Quantifiers by the terms of their instances.

ghost use Rattle.std.specs.Prelude.{◌≡◌, ◌<◌, ◌∷◌, ℤ, pos, List, None, IfOk, Some, length, map};
ghost use Rattle.std.specs.List.{All};
ghost use Rattle.ep_base.specs.declared.names.Name.{Name as EachName};
ghost use Rattle.ep_base.specs.declared.places.Place.{Place};
ghost use Rattle.ep_ground.specs.Nodes.{GroundNode, sum};
ghost use Rattle.ep_tree.specs.Environments as names;
ghost use Rattle.ep_tree.specs.Evaluation.{domain_values};
ghost use Rattle.ep_tree.specs.Views.{domain_tree};
ghost use Rattle.ep_eval.specs.Scopes.{mode_in};
ghost use Rattle.ep_forms.specs.Forms.{quantified_tree};
ghost use Rattle.ep_forms.specs.declared.forms.Quantifier.{Quantifier as EachQuantifier};
ghost use Rattle.ep_unroll.specs.Growing.{Puts};
ghost use Rattle.ep_unroll.specs.Meanings.{AreInstancesOf, IsTermOf};
ghost use Rattle.ep_unroll.specs.Readings.{Numbering, Reading};

use super::growing::put;
use super::sums::added;
use super::truths::{judged, needed_parts, no_truth};
use ep_base::Memory;
use ep_eval::Scope;
use ep_ground::{Arena, Node, Term};
use ep_tree::QuantOp;
use std::alloc::Global;

/// The sum of terms.
pub fn sum_term(alloc: Global, arena: &mut Arena, terms: Vec<Term>) -> Result<Term, Memory>
    requires { All (λ t. t < length arena.old) terms.items }
    ensures { IfOk result (Puts arena.old arena.new (sum (pos 0) (map (λ t. (pos 1, t)) terms.items))) }
{
    let parts = added(alloc, &terms)?;
    put(arena, Node::Add(0, parts))
}

/// The term of a quantifier with these instances.
pub fn finish_quantifier(
    scope: Scope<'_, '_>,
    arena: &mut Arena,
    count: u64,
    op: QuantOp,
    terms: Vec<Term>,
) -> Result<Term, Memory>
    requires { All (λ t. t < length arena.old) terms.items }
    ensures { (n : Numbering) → (cells : names.Env) → (nodes : List GroundNode) → (p : Place) → (q : EachQuantifier)
        → (name : EachName) → (rest : List EachName) → (ns : List ℤ) → q.op ≡ op
        → n.mode ≡ mode_in scope.entry → n.count ≡ count
        → ((r : Reading n cells) → domain_values n.mode r.values (domain_tree q.domain.now) ≡ Some ns)
        → AreInstancesOf n cells nodes arena.old p q name rest ns terms.items
        → IfOk result (IsTermOf n cells nodes arena.new (quantified_tree p q (name ∷ rest))) }
{
    match op {
        QuantOp::ForAll => {
            let needed = needed_parts(scope, arena, count, &terms)?;
            judged(arena, Node::And(terms), needed)
        }
        QuantOp::Exists => {
            let needed = needed_parts(scope, arena, count, &terms)?;
            judged(arena, Node::Or(terms), needed)
        }
        QuantOp::Sum => sum_term(scope.alloc, arena, terms),
    }
}

/// The term of a quantifier over a domain that is undefined.
pub fn without_domain(scope: Scope<'_, '_>, arena: &mut Arena, op: QuantOp) -> Result<Term, Memory>
    ensures { (n : Numbering) → (cells : names.Env) → (p : Place) → (q : EachQuantifier)
        → (name : EachName) → (rest : List EachName) → q.op ≡ op
        → n.mode ≡ mode_in scope.entry
        → ((r : Reading n cells) → domain_values n.mode r.values (domain_tree q.domain.now) ≡ None)
        → IfOk result (IsTermOf n cells arena.old arena.new (quantified_tree p q (name ∷ rest))) }
{
    match op {
        QuantOp::ForAll => no_truth(scope, arena),
        QuantOp::Exists => no_truth(scope, arena),
        QuantOp::Sum => put(arena, Node::Undefined),
    }
}
