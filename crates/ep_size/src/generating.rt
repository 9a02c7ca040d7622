//! The parts of a comprehension but for the walk through its generators.

ghost use Rattle.std.specs.Prelude.{◌≡◌, ◌++◌, ◌∷◌, [], IfOk, false, unwrap_or};
ghost use Rattle.ep_tree.specs.Evaluation.{all_true, evaluate, truth_of, values_of};
ghost use Rattle.ep_tree.specs.Measures as measures;
ghost use Rattle.ep_tree.specs.Views.{expr_tree, expr_trees};
ghost use Rattle.ep_eval.specs.Helds.{seen_held};
ghost use Rattle.ep_eval.specs.Scopes.{env_in, mode_in};
ghost use Rattle.ep_size.specs.Meters.{Told};

use super::extents::Extent;
use super::standing::{Hidden, are_both, standing_in};
use super::totals::Totals;
use ep_base::Memory;
use ep_eval::{Held, Scope, number_of, value_of};
use ep_tree::Expr;
use ep_tree_laws::limits_are_of_values;

/// Whether what is lent is true.
fn is_one(seen: &Option<Held>) -> bool
    ensures { result ≡ unwrap_or (truth_of (seen_held seen.now)) false }
{
    match number_of(seen) {
        Some(number) => number == 1,
        None => false,
    }
}

/// Whether what was seen is true.
fn is_true(seen: Option<Held>) -> bool
    ensures { result ≡ unwrap_or (truth_of (seen_held seen.entry)) false }
{
    is_one(&seen)
}

/// The value of an expression in which no decision variable stands. Of another one it isn't told.
fn fixed_value<'a>(
    scope: Scope<'_, 'a>,
    totals: &mut Totals,
    e: &Expr,
) -> Result<Option<Held<'a>>, Memory>
    ensures { IfOk result (λ seen. Told (mode_in scope.entry) totals.old totals.new
        (measures.met (mode_in scope.entry) (env_in scope.entry) (expr_tree e.now))
        (evaluate (mode_in scope.entry) (env_in scope.entry) (expr_tree e.now) ≡ seen_held seen)) }
{
    let own = standing_in(scope, &Hidden::Nothing, e);
    if own.free {
        limits_are_of_values();
        let seen = value_of(scope, &mut totals.meter, e)?;
        return Ok(seen);
    }
    Err(Memory)
}

/// Whether all of some conditions are true, in which no decision variable stands. All are evaluated.
pub fn all_true(
    scope: Scope<'_, '_>,
    totals: &mut Totals,
    conditions: &[Expr],
) -> Result<bool, Memory>
    ensures { IfOk result (λ holds. Told (mode_in scope.entry) totals.old totals.new
        (measures.met_all (mode_in scope.entry) (env_in scope.entry) (expr_trees conditions.now))
        (holds ≡ unwrap_or (all_true (values_of (mode_in scope.entry) (env_in scope.entry) (expr_trees conditions.now))) false)) }
{
    let mut holds = true;
    for condition in conditions {
        let seen = fixed_value(scope, totals, condition)?;
        holds = are_both(holds, is_true(seen));
    }
    Ok(holds)
}

/// What is known of some parts and of one more.
pub fn with_extent<'a>(front: Vec<Extent<'a>>, one: Extent<'a>) -> Result<Vec<Extent<'a>>, Memory>
    ensures { IfOk result (λ more. more.items ≡ front.entry.items ++ one.entry ∷ []) }
{
    let mut more = front;
    more.push(one)?;
    Ok(more)
}
