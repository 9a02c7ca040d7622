//! A formula and its cells as a problem for the solver.

ghost use Rattle.std.specs.Prelude.{◌≡◌, [], true, map, All, IfOk, OnOk};
ghost use Rattle.cnf_core.specs.Events.{given, is_given};
ghost use Rattle.ep_answer.specs.AnswerViews.{plain_problem};
ghost use Rattle.ep_flat.specs.Flats.{StandForCells};
ghost use Rattle.ep_flat.specs.FlatViews.{plain_map};
ghost use Rattle.ep_solve.specs.Formulas.{IsFormulaFor, Poses};
ghost use Rattle.ep_solve.specs.Right.{empty_log};
ghost use Rattle.ep_tree.specs.Binding.{Instance as InstanceValue};
ghost use Rattle.ep_tree.specs.declared.values.Mode.{Mode};
ghost use Rattle.ep_unroll.specs.Cells.{instance_cells};
ghost use Rattle.sat_search.specs.Logs.{IsSound};

use cnf_core::{Formula, Log};
use ep_answer::Problem;
use ep_base::Memory;
use ep_formula::Encoded;
use sat_search::Solver;
use std::alloc::Global;

/// Moves the clauses of a formula into an empty log, as its givens.
fn give_all(alloc: Global, log: &mut Log, formula: Formula) -> Result<(), Memory>
    requires { log.old ≡ empty_log }
    ensures all { OnOk result (log.new ≡ record { events = map given formula.clauses; notes = []; base = 0 }) }
    ensures givens { All (λ e. is_given e ≡ true) log.new.events }
{
    *log = Log::of_givens(alloc, formula.into_clauses())?;
    Ok(())
}

/// A problem in which the formula's clauses stand in the solver. They come into the log as its givens,
/// with the notes of the cells. It poses whatever instance the formula stands for.
pub fn posed(alloc: Global, encoded: Encoded, log: &mut Log) -> Result<Problem, Memory>
    requires empty { log.old ≡ empty_log }
    requires maps { StandForCells (map (λ one. one.values) encoded.cells.items)
        (map (λ e. e.domain) encoded.layout) (plain_map encoded.map).cells }
    ensures poses { IfOk result (λ problem. (mode : Mode) (i : InstanceValue)
        → IsFormulaFor mode i encoded.layout (plain_map encoded.map) encoded.formula
        → encoded.cells.items ≡ instance_cells i → Poses mode i (plain_problem problem) log.new) }
    ensures sound { IsSound log.new.events }
{
    give_all(alloc, log, encoded.formula)?;
    let notes = encoded.layout.notes(alloc, &encoded.cells, &encoded.map)?;
    let base = log.events().len() as u64;
    log.mark(notes, base);
    let solver = Solver::new(alloc, log)?;
    Ok(Problem {
        layout: encoded.layout,
        cells: encoded.cells,
        map: encoded.map,
        solver,
    })
}
