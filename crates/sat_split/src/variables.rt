//! The variables by which a formula is divided.

ghost use Rattle.std.specs.Prelude.{◌≡◌, ◌<◌, ◌≤◌, ◌∷◌, ◌++◌, [], List, All, AllPairs, IfOk, IfSome, length};
ghost use Rattle.cnf_core.specs.Literal.{Literal, IsVariable};
ghost use Rattle.sat_split.specs.Cubes.{AreCubeVariables};
ghost use Rattle.sat_split.specs.Found.{IsLeastAbove, least_with_one};

use cnf_core::{ClauseList, Formula, Lit};
use ep_base::Memory;
use std::alloc::Global;

// The lesser of a variable and the least one so far, where it is over the number.
fn lesser(above: u64, so_far: Option<u64>, var: u64) -> Option<u64>
    ensures low { var ≤ above → result ≡ so_far }
    ensures high { above < var → result ≡ least_with_one so_far var }
{
    if var <= above {
        return so_far;
    }
    match so_far {
        Some(least) => Some(least.min(var)),
        None => Some(var),
    }
}

// The least variable over a number in clauses and in one more.
fn least_with(above: u64, so_far: Option<u64>, clause: &[Lit]) -> Option<u64>
    ensures { (clauses : List (List Literal)) → IsLeastAbove above clauses so_far
        → IsLeastAbove above (clauses ++ clause.now ∷ []) result }
{
    let mut least = so_far;
    for lit in clause {
        least = lesser(above, least, lit.var());
    }
    least
}

// The least variable over a number that stands in the clauses.
fn least_above(above: u64, clauses: &ClauseList) -> Option<u64>
    ensures { IsLeastAbove above clauses.now result }
{
    let mut least = None;
    for place in 0..clauses.len() {
        least = least_with(above, least, clauses.clause(place));
    }
    least
}

/// The lowest variables that stand in the clauses of a formula: so many, or all where there are fewer.
///
/// Costs a pass over the formula for each of them.
pub fn cube_variables(alloc: Global, formula: &Formula, most: u64) -> Result<Vec<u64>, Memory>
    ensures are { IfOk result (λ vars. AreCubeVariables most formula.now.clauses vars.items) }
    ensures variables { IfOk result (λ vars. All IsVariable vars.items) }
{
    let clauses = formula.clauses();
    let mut vars = Vec::new(alloc);
    let mut above = 0;
    for _place in 0..most {
        let Some(var) = least_above(above, clauses) else {
            return Ok(vars);
        };
        vars.push(var)?;
        above = var;
    }
    Ok(vars)
}
