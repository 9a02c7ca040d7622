//! Forms of the scalars of a matrix.

ghost use Rattle.std.specs.Prelude.{◌≡◌, ◌<◌, ℤ, List, IfOk, length, map, option_and_then};
ghost use Rattle.std.specs.List.{All};
ghost use Rattle.ep_base.specs.Numbers.{greatest_of, least_of};
ghost use Rattle.ep_base.specs.Reads.{all_there};
ghost use Rattle.ep_base.specs.declared.places.Place.{Place};
ghost use Rattle.ep_eval.specs.Scopes.{mode_in};
ghost use Rattle.ep_ground.specs.Nodes.{GroundNode};
ghost use Rattle.ep_ground.specs.Terms.{term_value};
ghost use Rattle.ep_tree.specs.Environments as names;
ghost use Rattle.ep_tree.specs.Trees.{ExprTree, all_different, folded};
ghost use Rattle.ep_unroll.specs.Meanings.{AreTerms, IsTermOf, Means};
ghost use Rattle.ep_unroll.specs.Numbers.{HasNumber};
ghost use Rattle.ep_unroll.specs.Readings.{Numbering};
ghost use Rattle.ep_unroll.specs.Scalars.{AreScalarsOf};

use super::choices::is_none;
use super::growing::put;
use super::products::product_of_all;
use super::scalars::scalar_terms;
use super::summing::sum_of_all;
use super::truths::{judged, needed_parts};
use super::unrolled::Unrolled;
use ep_base::Memory;
use ep_eval::Scope;
use ep_ground::{Arena, Node, Term};
use ep_tree::FoldOp;

/// The least of terms; of none there is no number.
fn least_of_all(arena: &mut Arena, terms: Vec<Term>) -> Result<Term, Memory>
    requires { All (λ t. t < length arena.old) terms.items }
    ensures { IfOk result (HasNumber arena.old arena.new (λ numbers. option_and_then least_of (all_there (map (term_value arena.old numbers) terms.items)))) }
{
    if is_none(&terms) {
        return put(arena, Node::Undefined);
    }
    put(arena, Node::Min(terms))
}

/// The greatest of terms; of none there is no number.
fn greatest_of_all(arena: &mut Arena, terms: Vec<Term>) -> Result<Term, Memory>
    requires { All (λ t. t < length arena.old) terms.items }
    ensures { IfOk result (HasNumber arena.old arena.new (λ numbers. option_and_then greatest_of (all_there (map (term_value arena.old numbers) terms.items)))) }
{
    if is_none(&terms) {
        return put(arena, Node::Undefined);
    }
    put(arena, Node::Max(terms))
}

/// The scalars of what was unrolled folded into one number.
fn fold_of(
    scope: Scope<'_, '_>,
    arena: &mut Arena,
    count: u64,
    op: FoldOp,
    known: &Unrolled<'_>,
) -> Result<Term, Memory>
    requires { AreTerms (length arena.old) known.now }
    ensures { (n : Numbering) → (cells : names.Env) → (nodes : List GroundNode) → (p : Place) → (e : ExprTree)
        → n.mode ≡ mode_in scope.entry → n.count ≡ count → Means n cells nodes arena.old e known.now → IfOk result (IsTermOf n cells nodes arena.new (folded p op e)) }
{
    match op {
        FoldOp::Sum => sum_of_all(scope.alloc, arena, known),
        FoldOp::Product => {
            let terms = scalar_terms(scope.alloc, arena, known)?;
            product_of_all(arena, terms)
        }
        FoldOp::And => {
            let terms = scalar_terms(scope.alloc, arena, known)?;
            let needed = needed_parts(scope, arena, count, &terms)?;
            judged(arena, Node::And(terms), needed)
        }
        FoldOp::Or => {
            let terms = scalar_terms(scope.alloc, arena, known)?;
            let needed = needed_parts(scope, arena, count, &terms)?;
            judged(arena, Node::Or(terms), needed)
        }
        FoldOp::Min => {
            let terms = scalar_terms(scope.alloc, arena, known)?;
            least_of_all(arena, terms)
        }
        FoldOp::Max => {
            let terms = scalar_terms(scope.alloc, arena, known)?;
            greatest_of_all(arena, terms)
        }
    }
}

/// The same of what isn't used any more.
pub fn folded_term(
    scope: Scope<'_, '_>,
    arena: &mut Arena,
    count: u64,
    op: FoldOp,
    known: Unrolled<'_>,
) -> Result<Term, Memory>
    requires { AreTerms (length arena.old) known }
    ensures { (n : Numbering) → (cells : names.Env) → (nodes : List GroundNode) → (p : Place) → (e : ExprTree)
        → n.mode ≡ mode_in scope.entry → n.count ≡ count → Means n cells nodes arena.old e known.entry → IfOk result (IsTermOf n cells nodes arena.new (folded p op e)) }
{
    fold_of(scope, arena, count, op, &known)
}

/// Whether the scalars of a matrix that these terms have are all different.
pub fn different_term(
    scope: Scope<'_, '_>,
    arena: &mut Arena,
    count: u64,
    terms: Vec<Term>,
) -> Result<Term, Memory>
    requires { All (λ t. t < length arena.old) terms.items }
    ensures { (n : Numbering) → (cells : names.Env) → (nodes : List GroundNode) → (p : Place) → (e : ExprTree)
        → n.mode ≡ mode_in scope.entry → n.count ≡ count
        → AreScalarsOf n cells nodes arena.old e terms.items → IfOk result (IsTermOf n cells nodes arena.new (all_different p e)) }
{
    let needed = needed_parts(scope, arena, count, &terms)?;
    judged(arena, Node::AllDiff(terms), needed)
}
