//! A solution that is found, and the given which blocks it.

ghost use Rattle.std.specs.Prelude.{◌≡◌, ◌<◌, false, length, IfOk, OnErr};
ghost use Rattle.std.specs.List.{All};
ghost use Rattle.cnf_core.specs.Events.{clauses_of, nonempty_steps};
ghost use Rattle.ep_answer.specs.AnswerViews.{plain_problem};
ghost use Rattle.ep_answer.specs.Searches.{AreNumbers, HasCells, IsBlocked, OtherNumbers, kept_values};
ghost use Rattle.sat_search.specs.Logs.{IsSound};

use crate::decoding::read_back;
use crate::problem::Problem;
use crate::refusals::refusal;
use cnf_core::{Clause, Log};
use enc_var::{Known, Layout};
use ep_base::Memory;
use std::alloc::Global;

/// The clause which says that variables have other numbers than these. A variable that can have no other number stands in it
/// with no literal.
fn other_numbers(
    alloc: Global,
    layout: &Layout,
    vars: &[u64],
    cells: &[i64],
) -> Result<Clause, Memory>
    requires there { All (λ x. x < length layout.now) vars.now }
    requires numbers { AreNumbers layout.now vars.now cells.now }
    requires long { length cells.now ≡ length vars.now }
    ensures { IfOk result (OtherNumbers layout.now vars.now cells.now) }
{
    let mut lits = Vec::new(alloc);
    for place in 0..vars.len() {
        if let Known::Is(lit) = layout.eq(vars[place], cells[place]) {
            lits.push(lit.negated())?;
        }
    }
    Clause::new(alloc, lits)
}

/// The numbers of the cells in the solution that the solver keeps. A given is added which blocks it.
pub fn block(alloc: Global, p: &mut Problem, log: &mut Log) -> Result<Vec<i64>, Memory>
    requires { HasCells (plain_problem p.old) log.old }
    ensures blocked { IfOk result (λ cells. IsBlocked (plain_problem p.old) (kept_values p.old.solver) log.old log.new cells.items) }
    ensures err { OnErr result (log.new ≡ log.old) }
    ensures sound { IsSound log.new.events }
    ensures steps { nonempty_steps log.new.events ≡ nonempty_steps log.old.events }
    ensures problem { plain_problem p.new ≡ record (plain_problem p.old) { solver = p.new.solver } }
    ensures clauses { p.new.solver.broken ≡ false → p.new.solver.clauses ≡ clauses_of log.new.events }
    ensures whole { IfOk result (λ cells. p.new.solver.broken ≡ false) }
{
    let vars = p.map.cells.as_slice();
    let cells = read_back(alloc, &p.layout, &p.solver, vars)?;
    let clause = other_numbers(alloc, &p.layout, vars, cells.as_slice())?;
    match p.solver.add_given(clause, log) {
        Ok(()) => Ok(cells),
        Err(error) => Err(refusal(error)),
    }
}
