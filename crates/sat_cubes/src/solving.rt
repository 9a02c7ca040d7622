//! Solves one cube.

ghost use Rattle.std.specs.Prelude.{IfOk, IfSome, IsSome};
ghost use Rattle.sat_split.specs.Cubes as cubes;
ghost use Rattle.sat_join.specs.Joins.{Divides};
ghost use Rattle.sat_cubes.specs.Solving.{AreValues, IsSolved};

use cnf_core::{Formula, Log};
use ep_base::Memory;
use sat_search::{Outcome, SolveError, Solver};
use sat_split::{cube_literals, cube_log};
use std::alloc::Global;

/// What came of one cube.
#[derive(Debug, Drop)]
pub enum Solved {
    /// Values of the formula's variables that satisfy it, in the cube.
    Sat(Vec<bool>),
    /// The log of a cube that is refuted.
    Unsat(Log),
    /// The log of a cube whose budget is spent.
    Spent(Log),
}

/// A cube that isn't refuted.
#[derive(Debug, Drop)]
pub enum OpenCube {
    /// Values of the formula's variables that satisfy it, in the cube.
    Sat(Vec<bool>),
    /// The log of a cube whose budget is spent.
    Spent(Log),
}

// The values of the variables from 1 on.
fn values_of(alloc: Global, solver: &Solver, vars: u64) -> Result<Vec<bool>, Memory>
    requires { IsSome solver.now.kept }
    ensures { IfOk result (λ values. IfSome solver.now.kept (λ trues. AreValues trues vars values.items)) }
{
    let mut values = Vec::new(alloc);
    for place in 0..vars {
        values.push(solver.value(place + 1))?;
    }
    Ok(values)
}

/// Solves one cube.
pub fn solve_cube(
    alloc: Global,
    formula: &Formula,
    vars: &[u64],
    cube: u64,
    budget: u64,
) -> Result<Solved, Memory>
    requires { Divides formula.now.clauses vars.now }
    ensures { IfOk result (λ solved. IsSolved formula.now (cubes.cube_literals cube vars.now) budget solved) }
{
    // What each formula keeps of its clauses, `clauses` promises of this one too.
    let _clauses = formula.clauses();
    let literals = cube_literals(alloc, cube, vars)?;
    let mut log = cube_log(alloc, formula, &literals)?;
    let mut solver = Solver::new(alloc, &log)?;
    let outcome = match solver.solve(budget, &mut log) {
        Ok(outcome) => outcome,
        Err(SolveError::Broken) => unreachable!(),
        Err(SolveError::Memory) => return Err(Memory),
    };
    match outcome {
        Outcome::Sat => Ok(Solved::Sat(values_of(alloc, &solver, formula.vars())?)),
        Outcome::Unsat => Ok(Solved::Unsat(log)),
        Outcome::Spent => Ok(Solved::Spent(log)),
    }
}
