//! The flat problem that stands for a pseudo-Boolean problem.

ghost use Rattle.std.specs.Prelude.{◌≡◌, ◌<◌, ◌<ℤ◌, ◌≤◌, ◌++◌, ◌∷◌, [], ℕ, List, Some, length, ◌+◌, ◌-ℤ◌, unsigned_abs, map, IfOk, All};
ghost use Rattle.std.specs.List.{AllPairs};
ghost use Rattle.ep_base.specs.declared.operators.CompareOp.{CompareOp};
ghost use Rattle.ep_flat.specs.FlatViews.{plain_con, plain_flat};
ghost use Rattle.opb_text.specs.Contents.{OpbConstraint};
ghost use Rattle.opb_text.specs.Views.{plain_opb, plain_row};
ghost use Rattle.opb_text.specs.Weights.{IsProblemWithinReach, factors_reach, row_reach, most_reach};
ghost use Rattle.opb_text.specs.Flats.{StandsFor, truth_domains, truth_numbers};
ghost use Rattle.opb_text.specs.Sums.{AreConsOf, AreNamed, AreNamedRows, GoesOnWith, IsConOf, IsGoalCon, IsSpan, compared};

use crate::content::{Opb, OpbRow, OpbTerm};
use crate::sums::{greatest, least, push_part, sum_of};
use crate::variables::opb_vars;
use ep_base::{CompareOp, Memory, Run, Runs};
use ep_flat::{Con, ConKind, Flat};
use std::alloc::Global;

/// The run from one number to another.
fn run_of(lo: i64, hi: i64) -> Run
    ensures low { result.lo ≡ lo }
    ensures high { result.hi ≡ hi }
{
    Run { lo, hi }
}

/// The numbers from one to another.
fn span(alloc: Global, lo: i64, hi: i64) -> Result<Runs, Memory>
    ensures has { IfOk result (IsSpan lo hi) }
    ensures ascending { IfOk result (λ set. AllPairs ◌<ℤ◌ set) }
{
    let mut runs = Vec::new(alloc);
    runs.push(run_of(lo, hi))?;
    Runs::new(alloc, runs)
}

/// The domain of a variable that is true or false.
fn truth_domain(alloc: Global) -> Result<Runs, Memory>
    ensures { IfOk result (λ set. set ≡ truth_numbers) }
{
    span(alloc, 0, 1)
}

/// The domains of variables, each of which is true or false.
fn truth_domains(alloc: Global, vars: &[u64]) -> Result<Vec<Runs>, Memory>
    ensures { IfOk result (λ domains. domains.items ≡ truth_domains vars.now) }
{
    let mut domains = Vec::new(alloc);
    for var in vars {
        let _var = *var;
        domains.push(truth_domain(alloc)?)?;
    }
    Ok(domains)
}

/// What is left of a number.
fn less(whole: i64, part: i64) -> i64
    requires { unsigned_abs whole + unsigned_abs part ≤ most_reach }
    ensures { result ≡ whole -ℤ part }
{
    whole - part
}

/// How the two sides of a constraint are compared.
fn comparison(equal: bool) -> CompareOp
    ensures { result ≡ compared equal }
{
    if equal {
        CompareOp::Equal
    } else {
        CompareOp::AtLeast
    }
}

/// The flat constraint that holds exactly where a constraint does.
fn row_con(alloc: Global, vars: &[u64], row: &OpbRow) -> Result<Con, Memory>
    requires ascending { AllPairs ◌<◌ vars.now }
    requires named { AreNamed vars.now row.now.terms.items }
    requires small { row_reach (plain_row row.now) ≤ most_reach }
    ensures { IfOk result (λ con. IsConOf vars.now (plain_row row.now) (plain_con con)) }
{
    let sum = sum_of(alloc, vars, &row.terms)?;
    let number = less(row.right, sum.constant);
    Ok(Con {
        truth: None,
        kind: ConKind::Linear(sum.parts, comparison(row.equal), number),
    })
}

/// The flat constraints that hold exactly where constraints do, in order.
fn row_cons(alloc: Global, vars: &[u64], rows: &[OpbRow]) -> Result<Vec<Con>, Memory>
    requires ascending { AllPairs ◌<◌ vars.now }
    requires named { AreNamedRows vars.now (map plain_row rows.now) }
    requires small { All (λ row. row_reach row ≤ most_reach) (map plain_row rows.now) }
    ensures { IfOk result (λ cons. AreConsOf vars.now (map plain_row rows.now) (map plain_con cons.items)) }
{
    let mut cons = Vec::new(alloc);
    for row in rows {
        let con = row_con(alloc, vars, row)?;
        cons.push(con)?;
    }
    Ok(cons)
}

/// The flat constraint that holds exactly where the variable behind these has the value of terms.
fn goal_con(alloc: Global, vars: &[u64], terms: &[OpbTerm]) -> Result<Con, Memory>
    requires ascending { AllPairs ◌<◌ vars.now }
    requires named { AreNamed vars.now terms.now }
    requires small { factors_reach terms.now ≤ most_reach }
    ensures { IfOk result (λ con. IsGoalCon vars.now terms.now (plain_con con)) }
{
    let sum = sum_of(alloc, vars, terms)?;
    let number = less(0, sum.constant);
    let mut parts = sum.parts;
    push_part(&mut parts, -1, vars.len() as u64)?;
    Ok(Con {
        truth: None,
        kind: ConKind::Linear(parts, CompareOp::Equal, number),
    })
}

/// Adds a variable that has the value of the objective, and gives its number.
fn add_goal(alloc: Global, vars: &[u64], terms: &[OpbTerm], flat: &mut Flat) -> Result<u64, Memory>
    requires ascending { AllPairs ◌<◌ vars.now }
    requires named { AreNamed vars.now terms.now }
    requires small { factors_reach terms.now ≤ most_reach }
    requires vars { length flat.old.vars.items ≡ length vars.now }
    ensures { IfOk result (λ goal. (goal ≡ length vars.now)
        × GoesOnWith vars.now terms.now (plain_flat flat.old) (plain_flat flat.new)) }
{
    let domain = span(alloc, least(terms), greatest(terms))?;
    let con = goal_con(alloc, vars, terms)?;
    flat.vars.push(domain)?;
    flat.cons.push(con)?;
    Ok(vars.len() as u64)
}

/// The flat problem that stands for a problem, and the flat variable that has the value of its objective, where one is
/// stated. Terms of one variable are joined. Costs a sort of each constraint's terms.
pub fn flat_of(alloc: Global, opb: &Opb) -> Result<(Flat, Option<u64>), Memory>
    requires { IsProblemWithinReach (plain_opb opb.now) }
    ensures { IfOk result (λ made. StandsFor (plain_opb opb.now) (plain_flat made.0) made.1) }
{
    let vars = opb_vars(alloc, opb)?;
    let domains = truth_domains(alloc, &vars)?;
    let cons = row_cons(alloc, &vars, &opb.rows)?;
    let mut flat = Flat {
        vars: domains,
        cons,
    };
    match &opb.objective {
        Some(terms) => {
            let goal = add_goal(alloc, &vars, terms, &mut flat)?;
            Ok((flat, Some(goal)))
        }
        None => Ok((flat, None)),
    }
}
