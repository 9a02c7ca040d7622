//! Membership in the sets of matrices' scalars.

ghost use Rattle.std.specs.Prelude.{◌≡◌, ◌<◌, ℤ, List, IfOk, length, option_map};
ghost use Rattle.std.specs.List.{All};
ghost use Rattle.ep_base.specs.Numbers.{has_number};
ghost use Rattle.ep_base.specs.declared.places.Place.{Place};
ghost use Rattle.ep_ground.specs.Nodes.{GroundNode};
ghost use Rattle.ep_tree.specs.Environments as names;
ghost use Rattle.ep_tree.specs.Evaluation.{evaluate, scalars_in};
ghost use Rattle.ep_tree.specs.Trees.{ExprTree, in_set};
ghost use Rattle.ep_eval.specs.Scopes.{mode_in};
ghost use Rattle.ep_unroll.specs.Meanings.{IsNumberOf, IsTermOf};
ghost use Rattle.ep_unroll.specs.Readings.{Numbering, Reading};
ghost use Rattle.ep_unroll.specs.Scalars.{AreScalarsOf};
ghost use Rattle.ep_unroll.specs.Sets.{AreEqualities};

use super::choices::whole_term;
use super::growing::put;
use super::needs::partial_terms;
use super::truths::{judged, needed_beside, needed_part, no_truth};
use ep_base::{CompareOp, Memory, Run, Runs};
use ep_eval::Scope;
use ep_ground::{Arena, Node, Term};
use std::alloc::Global;

/// The set of some numbers.
fn set_of(alloc: Global, numbers: &[i64]) -> Result<Runs, Memory>
    ensures { IfOk result (λ set. (x : ℤ) → has_number set x ≡ has_number numbers.now x) }
{
    let mut parts = Vec::new(alloc);
    for number in numbers {
        parts.push(Run {
            lo: *number,
            hi: *number,
        })?;
    }
    Runs::new(alloc, parts)
}

/// Whether a part is one of some numbers, which may lack a value.
pub fn listed_member(
    scope: Scope<'_, '_>,
    arena: &mut Arena,
    count: u64,
    part: Term,
    numbers: Option<Vec<i64>>,
) -> Result<Term, Memory>
    requires { part < length arena.old }
    ensures { (n : Numbering) → (cells : names.Env) → (nodes : List GroundNode) → (p : Place) → (e : ExprTree) → (f : ExprTree)
        → n.mode ≡ mode_in scope.entry → n.count ≡ count
        → ((r : Reading n cells) → scalars_in (evaluate n.mode r.values f) ≡ option_map (λ v. v.items) numbers)
        → IsNumberOf n cells nodes arena.old e part
        → IfOk result (IsTermOf n cells nodes arena.new (in_set p e f)) }
{
    match numbers {
        Some(own) => {
            let set = set_of(scope.alloc, &own)?;
            let needed = needed_part(scope, arena, count, part)?;
            judged(arena, Node::Member(part, set), needed)
        }
        None => no_truth(scope, arena),
    }
}

/// Whether a part is equal to each of some terms.
fn equalities(
    alloc: Global,
    arena: &mut Arena,
    part: Term,
    terms: &[Term],
) -> Result<Vec<Term>, Memory>
    requires part { part < length arena.old }
    requires terms { All (λ t. t < length arena.old) terms.now }
    ensures { IfOk result (λ us. AreEqualities arena.old arena.new part terms.now us.items) }
{
    let mut tests = Vec::new(alloc);
    for term in terms {
        let test = put(arena, Node::Compare(CompareOp::Equal, part, *term))?;
        tests.push(test)?;
    }
    Ok(tests)
}

/// Whether a part is one of the scalars that these terms have.
pub fn chosen_member(
    scope: Scope<'_, '_>,
    arena: &mut Arena,
    count: u64,
    part: Term,
    terms: &[Term],
) -> Result<Term, Memory>
    requires part { part < length arena.old }
    requires terms { All (λ t. t < length arena.old) terms.now }
    ensures { (n : Numbering) → (cells : names.Env) → (nodes : List GroundNode) → (p : Place) → (e : ExprTree) → (f : ExprTree)
        → n.mode ≡ mode_in scope.entry → n.count ≡ count → IsNumberOf n cells nodes arena.old e part → AreScalarsOf n cells nodes arena.old f terms.now
        → IfOk result (IsTermOf n cells nodes arena.new (in_set p e f)) }
{
    let needed = needed_beside(scope, arena, count, part, terms)?;
    let partial = partial_terms(scope.alloc, arena, count, terms)?;
    let whole = whole_term(arena, part, partial)?;
    let tests = equalities(scope.alloc, arena, whole, terms)?;
    judged(arena, Node::Or(tests), needed)
}
