//! The search for one solution.

ghost use Rattle.std.specs.Prelude.{◌≡◌, ◌≤◌, ◌<◌, ℕ, All, length, map, IfOk};
ghost use Rattle.cnf_core.specs.Formula.{Cnf};
ghost use Rattle.ep_answer.specs.AnswerViews.{plain_answer};
ghost use Rattle.ep_flat.specs.Flats.{MapsCells};
ghost use Rattle.ep_flat.specs.FlatViews.{plain_map};
ghost use Rattle.sat_cubes.specs.Answers.{ComesOfCubes};
ghost use Rattle.ep_cubes.specs.Divided.{AnswersByCubes, IsFoundBy};

use crate::reading::read_values;
use cnf_core::{Formula, Log};
use enc_var::Layout;
use ep_answer::CellAnswer;
use ep_base::Memory;
use ep_flat::CellMap;
use ep_ground::Cell;
use sat_cubes::{Cubed, OpenCubeGate, solve_cubes};
use std::alloc::Global;
use std::thread::Threads;

/// What came of the cubes, as an answer over numbers of the cells, with its log.
fn answer_of(
    alloc: Global,
    layout: &Layout,
    cell_map: &CellMap,
    cubed: Cubed,
) -> Result<(CellAnswer, Log), Memory>
    requires { All (λ x. x < length layout.now) (plain_map cell_map.now).cells }
    ensures { IfOk result (λ found. (f : Cnf) (most budget : ℕ) → ComesOfCubes f most budget cubed
        → IsFoundBy layout.now (plain_map cell_map.now) f most budget found.1.events (plain_answer found.0)) }
{
    match cubed {
        Cubed::Sat { values, log, .. } => {
            let cells = read_values(alloc, layout, &values, cell_map.cells.as_slice())?;
            Ok((CellAnswer::Solution(cells), log))
        }
        Cubed::Unsat { log } => Ok((CellAnswer::NoSolution, log)),
        Cubed::Spent { log, .. } => Ok((CellAnswer::Unknown(None), log)),
    }
}

/// One solution of a formula whose assignments give cells numbers, by cubes over its lowest variables, at most so many of these, that are
/// solved side by side, each within the budget. The log has the notes of the cells, and the formula's clauses as its base.
pub fn find_in_cubes<R: Threads + Sync>(
    rt: &R,
    alloc: Global,
    layout: &Layout,
    cells: &[Cell],
    cell_map: &CellMap,
    formula: &Formula,
    cubes: u64,
    budget: u64,
) -> Result<(CellAnswer, Log), Memory>
    requires cubes { cubes ≤ 6 }
    requires maps { MapsCells (map (λ one. one.values) cells.now) (map (λ e. e.domain) layout.now) (plain_map cell_map.now) }
    ensures { IfOk result (λ found.
        AnswersByCubes layout.now cells.now (plain_map cell_map.now) formula.now cubes budget found.1 (plain_answer found.0)) }
{
    let cubed = solve_cubes(rt, alloc, formula, cubes, budget, &OpenCubeGate)?;
    let notes = layout.notes(alloc, cells, cell_map)?;
    let (answer, log) = answer_of(alloc, layout, cell_map, cubed)?;
    let mut marked = log;
    marked.mark(notes, formula.clauses().len() as u64);
    Ok((answer, marked))
}
