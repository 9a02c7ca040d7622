//! What is known of the instances of a quantifier, one after another, and of the quantifier by them.

ghost use Rattle.std.specs.Prelude.{◌≡◌, ◌<◌, ◌^◌, ◌∷◌, ◌++◌, [], List, Option, length, true, unwrap_or};
ghost use Rattle.ep_tree.specs.Environments as names;
ghost use Rattle.ep_tree.specs.Measures as measures;
ghost use Rattle.ep_tree.specs.Reach as defined;
ghost use Rattle.ep_tree.specs.Reach.{decisions_in, extent, holds_decision};
ghost use Rattle.ep_tree.specs.Trees.{ExprTree};
ghost use Rattle.ep_tree.specs.Values.{single};
ghost use Rattle.ep_tree.specs.declared.values.Mode.{Mode as EachMode};
ghost use Rattle.ep_size.specs.Extents.{IsKnownExtent, grid_of};
ghost use Rattle.ep_size.specs.Finishing.{Finishes, IsNumberNode};
ghost use Rattle.ep_size.specs.Quantified.{HasInstances};

use super::errors::SizeError;
use super::extents::{Extent, number_span};
use super::nodes::{number_node, truth_node};
use super::sums::Summed;
use super::totals::told;
use ep_tree::QuantOp;

/// What is known of the instances of a quantifier so far: their sum, and how many they are, as far as that is told.
#[derive(Clone, Copy, Debug, PartialEq, Eq)]
pub struct Instances {
    pub sum: Summed,
    pub count: u64,
}

/// What is known of no instance.
pub fn no_instances() -> Instances
    ensures { HasInstances result [] }
{
    Instances {
        sum: Summed::new(),
        count: 0,
    }
}

/// What is known of some instances and one more.
pub fn with_instance(before: Instances, instance: Extent<'_>) -> Instances
    ensures { (spans : List defined.Span) → length spans < 2 ^ 62 → HasInstances before spans
        → HasInstances result (spans ++ defined.span_of (grid_of instance.entry) ∷ []) }
{
    let mut sum = before.sum;
    sum.add(number_span(&instance));
    Instances {
        sum,
        count: told(told(before.count) + 1),
    }
}

/// A quantifier without names, by what is known of its body.
pub fn bare_quantifier<'a>(body: Extent<'_>) -> Extent<'a>
    ensures { (mode : EachMode) → (env : names.Env) → (e : ExprTree) → (f : ExprTree) → IsKnownExtent mode env f body.entry
        → extent mode env e ≡ single (defined.span_of (extent mode env f)) → holds_decision (decisions_in env) e ≡ true
        → IsKnownExtent mode env e result }
{
    Extent::Number(number_span(&body))
}

/// A quantifier of which these instances are known.
#[tactic(auto, unfolding(ep_tree::specs::Measures::quantified_weight, ep_tree::specs::Reach::quantified_span))]
pub fn finish_quantifier<'a>(
    total: &mut u64,
    op: QuantOp,
    instances: Instances,
) -> Result<Extent<'a>, SizeError>
    ensures { (mode : EachMode) → (env : names.Env) → (e : ExprTree) → (known : Option (List defined.Span))
        → HasInstances instances (unwrap_or known [])
        → IsNumberNode mode env e (measures.quantified_weight op (unwrap_or known [])) (defined.quantified_span op known)
        → Finishes mode env e total.old total.new result }
{
    match op {
        QuantOp::ForAll => Ok(truth_node(total, told(told(instances.count) + 1))),
        QuantOp::Exists => Ok(truth_node(total, told(told(instances.count) + 1))),
        QuantOp::Sum => number_node(total, instances.sum.weight(), instances.sum.span()),
    }
}
