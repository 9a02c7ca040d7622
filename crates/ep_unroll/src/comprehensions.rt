//! The parts of a comprehension but for the walk through its generators.

ghost use Rattle.std.specs.Prelude.{◌≡◌, ◌++◌, ◌&&◌, ◌∷◌, [], List, Some, IfOk, option_map};
ghost use Rattle.ep_base.specs.Options.{map_both};
ghost use Rattle.ep_base.specs.declared.places.Place.{Place};
ghost use Rattle.ep_eval.specs.Generating.{generated_values};
ghost use Rattle.ep_forms.specs.Forms.{index_at};
ghost use Rattle.ep_eval.specs.Scopes.{env_in, mode_in};
ghost use Rattle.ep_ground.specs.Nodes.{GroundNode};
ghost use Rattle.ep_tree.specs.Evaluation.{all_true, evaluate, truth_of, values_of};
ghost use Rattle.ep_tree.specs.Trees.{ExprTree, ExprTrees, Generators, comprehension};
ghost use Rattle.ep_tree.specs.Views.{expr_tree, expr_trees};
ghost use Rattle.ep_unroll.specs.Meanings.{Means};
ghost use Rattle.ep_unroll.specs.PartLists.{ListsTerms, parts_in};
ghost use Rattle.ep_unroll.specs.Readings.{Numbering, Reading};

use super::fixed::{fixed_value, is_fixed};
use super::literals::made_matrix;
use super::unrolled::Unrolled;
use ep_base::Memory;
use ep_eval::{Scope, number_of};
use ep_tree::{Domain, Expr};

/// Whether two things hold, where each is known.
#[tactic(auto, unfolding(ep_base::specs::Options::map_both))]
fn both_hold(one: Option<bool>, other: Option<bool>) -> Option<bool>
    ensures { result ≡ map_both ◌&&◌ one other }
{
    let Some(first) = one else {
        return None;
    };
    let Some(second) = other else {
        return None;
    };
    Some(first && second)
}

/// Whether a condition is true, where it has a value. No decision variable may stand in it.
fn condition_holds(scope: Scope<'_, '_>, condition: &Expr) -> Result<Option<bool>, Memory>
    ensures { IfOk result (λ truth. (n : Numbering) → (r : Reading n (env_in scope.entry))
        → truth_of (evaluate (mode_in scope.entry) r.values (expr_tree condition.now)) ≡ truth) }
{
    if !is_fixed(scope, condition) {
        return Err(Memory);
    }
    let seen = fixed_value(scope, condition)?;
    match number_of(&seen) {
        Some(number) => Ok(Some(number == 1)),
        None => Ok(None),
    }
}

/// Whether all conditions are true, where each has a value.
pub fn conditions_hold(scope: Scope<'_, '_>, conditions: &[Expr]) -> Result<Option<bool>, Memory>
    ensures { IfOk result (λ truth. (n : Numbering) → (r : Reading n (env_in scope.entry))
        → all_true (values_of (mode_in scope.entry) r.values (expr_trees conditions.now)) ≡ truth) }
{
    match conditions.split_first() {
        Some((first, later)) => {
            let others = conditions_hold(scope, later)?;
            let own = condition_holds(scope, first)?;
            Ok(both_hold(own, others))
        }
        None => Ok(Some(true)),
    }
}

/// Parts, where there are any, and one more.
pub fn with_one_more<'a>(
    parts: Option<Vec<Unrolled<'a>>>,
    part: Unrolled<'a>,
) -> Result<Option<Vec<Unrolled<'a>>>, Memory>
    ensures { IfOk result (λ more. parts_in more ≡ option_map (λ all. all ++ part.entry ∷ []) (parts_in parts.entry)) }
{
    let Some(mut own) = parts else {
        return Ok(None);
    };
    own.push(part)?;
    Ok(Some(own))
}

/// The comprehension with these parts; nothing where there are none.
pub fn comprehension_matrix<'a>(
    scope: Scope<'_, 'a>,
    domain: &Option<Box<Domain>>,
    parts: Option<Vec<Unrolled<'a>>>,
) -> Result<Unrolled<'a>, Memory>
    ensures { (n : Numbering) → (old nodes : List GroundNode) → (p : Place) → (e : ExprTree) → (gens : Generators) → (conditions : ExprTrees)
        → n.mode ≡ mode_in scope.entry → ListsTerms n (env_in scope.entry) old nodes (Some []) (parts_in parts.entry) (λ env. generated_values n.mode e conditions gens env)
        → IfOk result (Means n (env_in scope.entry) old nodes (comprehension p e gens conditions (index_at domain.now))) }
{
    match parts {
        Some(own) => made_matrix(scope, domain, own),
        None => Ok(Unrolled::Fixed(None)),
    }
}
