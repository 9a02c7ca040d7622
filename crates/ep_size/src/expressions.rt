//! The measures of expressions.

ghost use Rattle.std.specs.Prelude.{IfOk, map, option_map, option_to_list};
ghost use Rattle.ep_tree.specs.Binding.{met_in};
ghost use Rattle.ep_tree.specs.Measures.{met};
ghost use Rattle.ep_tree.specs.Views.{expr_tree};
ghost use Rattle.ep_eval.specs.Known.{env_of};
ghost use Rattle.ep_size.specs.Meters.{Told};

use super::extending::extent_of;
use super::totals::Totals;
use ep_base::Memory;
use ep_eval::{Around, Env, Scope, is_over};
use ep_tree::{Expr, Objective};
use std::alloc::Global;

/// Measures an expression behind what was measured before.
pub fn measure_one(alloc: Global, env: &Env, totals: &mut Totals, e: &Expr) -> Result<(), Memory>
    ensures { IfOk result (λ _. Told env.now.mode totals.old totals.new
        (met env.now.mode (env_of env.now) (expr_tree e.now)) (Unit {0})) }
{
    if is_over(&totals.meter) {
        return Ok(());
    }
    let scope = Scope {
        alloc,
        env,
        around: &Around::Nothing,
    };
    let _known = extent_of(scope, totals, e)?;
    Ok(())
}

/// Measures expressions one after another.
pub fn measure_all(
    alloc: Global,
    env: &Env,
    totals: &mut Totals,
    clauses: &[Expr],
) -> Result<(), Memory>
    ensures { IfOk result (λ _. Told env.now.mode totals.old totals.new
        (met_in env.now.mode (env_of env.now) (map expr_tree clauses.now)) (Unit {0})) }
{
    for clause in clauses {
        measure_one(alloc, env, totals, clause)?;
    }
    Ok(())
}

/// Measures the objective, where one is stated.
pub fn measure_goal(
    alloc: Global,
    env: &Env,
    totals: &mut Totals,
    objective: Option<&Objective>,
) -> Result<(), Memory>
    ensures { IfOk result (λ _. Told env.now.mode totals.old totals.new
        (met_in env.now.mode (env_of env.now) (option_to_list (option_map (λ o. expr_tree o.now.e) objective.entry))) (Unit {0})) }
{
    match objective {
        Some(objective) => {
            measure_one(alloc, env, totals, &objective.e)?;
            Ok(())
        }
        None => Ok(()),
    }
}
