//! What is known of an expression in brackets.

ghost use Rattle.std.specs.Prelude.{◌≡◌, true, false};
ghost use Rattle.ep_base.specs.declared.places.Place.{Place};
ghost use Rattle.ep_tree.specs.Environments as names;
ghost use Rattle.ep_tree.specs.Reach as defined;
ghost use Rattle.ep_tree.specs.Reach.{decisions_in, holds_decision};
ghost use Rattle.ep_tree.specs.Trees.{ExprTree, group};
ghost use Rattle.ep_tree.specs.Values.{single};
ghost use Rattle.ep_tree.specs.Views.{expr_tree};
ghost use Rattle.ep_tree.specs.declared.values.Mode.{Mode as EachMode};
ghost use Rattle.ep_eval.specs.Scopes.{env_in};
ghost use Rattle.ep_size.specs.Extents.{IsKnownExtent};
ghost use Rattle.ep_size.specs.Finishing.{Finishes, IsLightNode};

use super::errors::SizeError;
use super::extents::Extent;
use super::nodes::{kept_span, number_node, truth_node};
use ep_eval::{Scope, type_within};
use ep_tree::{Expr, ValueType};

/// A node that weighs nothing and of which this is known.
fn light_node<'a>(total: &mut u64, known: Extent<'a>) -> Result<Extent<'a>, SizeError>
    ensures { (mode : EachMode) → (env : names.Env) → (e : ExprTree) → IsLightNode mode env e known.entry
        → Finishes mode env e total.old total.new result }
{
    match known {
        Extent::Number(span) => number_node(total, 0, kept_span(span)),
        Extent::Cells(span, indices) => match indices.split_first() {
            Some(_) => Ok(Extent::Cells(span, indices)),
            None => number_node(total, 0, kept_span(span)),
        },
        Extent::Fixed(held) => Ok(Extent::Fixed(held)),
        Extent::Nothing => Ok(Extent::Nothing),
        Extent::NoParts => Ok(Extent::NoParts),
        Extent::Matrix(indices, parts) => Ok(Extent::Matrix(indices, parts)),
    }
}

/// Whether brackets around an expression of this type are a truth value, or else what is in them.
#[tactic(auto, unfolding(ep_tree::specs::Reach::group_extent))]
fn is_truth(ty: ValueType) -> bool
    ensures truth { result ≡ true → (x : defined.Extent) → defined.group_extent ty x ≡ single defined.truth_span }
    ensures other { result ≡ false → (x : defined.Extent) → defined.group_extent ty x ≡ x }
{
    match ty {
        ValueType::Bool => true,
        ValueType::Int => false,
        ValueType::Matrix { .. } => false,
        ValueType::Empty => false,
    }
}

/// Brackets around an expression, of which this is known.
pub fn group_node<'a>(
    scope: Scope<'_, 'a>,
    total: &mut u64,
    part: &Expr,
    known: Extent<'a>,
) -> Result<Extent<'a>, SizeError>
    ensures { (mode : EachMode) → (p : Place) → holds_decision (decisions_in (env_in scope.entry)) (group p (expr_tree part.now)) ≡ true
        → IsKnownExtent mode (env_in scope.entry) (expr_tree part.now) known.entry
        → Finishes mode (env_in scope.entry) (group p (expr_tree part.now)) total.old total.new result }
{
    match type_within(scope, part) {
        Ok(ty) => {
            if is_truth(ty) {
                return Ok(truth_node(total, 0));
            }
            light_node(total, known)
        }
        Err(_) => Err(SizeError::Memory),
    }
}
