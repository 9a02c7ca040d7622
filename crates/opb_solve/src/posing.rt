//! A problem as clauses for the solver.

ghost use Rattle.std.specs.Prelude.{◌≡◌, [], true, length, map, take, All, IfOk, OnOk};
ghost use Rattle.cnf_core.specs.Events.{given, is_given};
ghost use Rattle.ep_answer.specs.AnswerViews.{plain_problem};
ghost use Rattle.ep_flat.specs.FlatViews.{plain_flat, plain_map};
ghost use Rattle.ep_flat.specs.Flats.{IsSoundFlat};
ghost use Rattle.ep_implied.specs.Follows.{MeansTheSame};
ghost use Rattle.opb_solve.specs.Meant.{AreCellsOf, IsCellOf, IsMapTo, PosesOpb};
ghost use Rattle.opb_text.specs.Flats.{StandsFor, truth_domains, truth_numbers};
ghost use Rattle.opb_text.specs.Views.{plain_opb};
ghost use Rattle.opb_text.specs.Weights.{AreVariablesOf, IsProblemWithinReach};
ghost use Rattle.sat_search.specs.Logs.{IsSound};
ghost use Rattle.sat_text.specs.Writing.{IsReadableNote};

use cnf_core::{Formula, Log};
use enc_all::encode;
use ep_answer::Problem;
use ep_base::{Key, Memory, Name, Runs, Sense};
use ep_flat::{CellMap, Flat};
use ep_ground::Cell;
use ep_implied::add_bound;
use opb_text::{Opb, flat_of};
use sat_search::Solver;
use std::alloc::Global;

/// A problem in which the clauses of a pseudo-Boolean problem stand in the solver. They come into the log as its givens, with
/// two notes for each variable.
pub fn posed(alloc: Global, opb: &Opb, vars: &[u64], log: &mut Log) -> Result<Problem, Memory>
    requires within { IsProblemWithinReach (plain_opb opb.now) }
    requires vars { AreVariablesOf (plain_opb opb.now) vars.now }
    requires empty { log.old ≡ record { events = []; notes = []; base = 0 } }
    ensures poses { IfOk result (λ problem. PosesOpb (plain_opb opb.now) vars.now (plain_problem problem) log.new) }
    ensures readable { IfOk result (λ problem. All IsReadableNote log.new.notes) }
    ensures sound { IsSound log.new.events }
{
    let (flat, goal) = bounded_flat_of(alloc, opb)?;
    let (formula, layout) = encode(alloc, &flat)?;
    give_all(alloc, log, formula)?;
    let cells = cells_of(alloc, vars, &flat.vars)?;
    let map = map_to(alloc, vars.len() as u64, goal)?;
    let notes = layout.notes(alloc, &cells, &map)?;
    let base = log.events().len() as u64;
    log.mark(notes, base);
    let solver = Solver::new(alloc, log)?;
    Ok(Problem {
        layout,
        cells,
        map,
        solver,
    })
}

/// The flat problem that stands for a problem, with a constraint more which bounds its objective, where one is stated.
fn bounded_flat_of(alloc: Global, opb: &Opb) -> Result<(Flat, Option<u64>), Memory>
    requires { IsProblemWithinReach (plain_opb opb.now) }
    ensures { IfOk result (λ made. StandsFor (plain_opb opb.now) (plain_flat made.0) made.1) }
{
    let (plain, goal) = flat_of(alloc, opb)?;
    let mut flat = plain;
    bound(alloc, &mut flat, goal)?;
    Ok((flat, goal))
}

/// Adds a constraint which bounds the objective, where one is stated.
fn bound(alloc: Global, flat: &mut Flat, goal: Option<u64>) -> Result<(), Memory>
    requires { IsSoundFlat (plain_flat flat.old) }
    ensures same { OnOk result (MeansTheSame (plain_flat flat.old) (plain_flat flat.new)) }
    ensures sound { OnOk result (IsSoundFlat (plain_flat flat.new)) }
{
    match goal {
        Some(var) => add_bound(alloc, flat, var),
        None => Ok(()),
    }
}

/// Moves the clauses of a formula into an empty log, as its givens.
fn give_all(alloc: Global, log: &mut Log, formula: Formula) -> Result<(), Memory>
    requires { log.old ≡ record { events = []; notes = []; base = 0 } }
    ensures all { OnOk result (log.new ≡ record { events = map given formula.clauses; notes = []; base = 0 }) }
    ensures givens { All (λ e. is_given e ≡ true) log.new.events }
{
    *log = Log::of_givens(alloc, formula.into_clauses())?;
    Ok(())
}

/// The cells of variables, with the domains of the flat variables that come first.
fn cells_of(alloc: Global, vars: &[u64], domains: &[Runs]) -> Result<Vec<Cell>, Memory>
    requires { take (length vars.now) domains.now ≡ truth_domains vars.now }
    ensures { IfOk result (λ cells. AreCellsOf vars.now cells.items) }
{
    let mut cells = Vec::new(alloc);
    for (k, var) in vars.iter().enumerate() {
        let values = domains[k].copy(alloc)?;
        cells.push(cell_of(alloc, *var, values)?)?;
    }
    Ok(cells)
}

/// The cell of a variable.
fn cell_of(alloc: Global, var: u64, values: Runs) -> Result<Cell, Memory>
    requires { values ≡ truth_numbers }
    ensures { IfOk result (λ cell. IsCellOf var cell) }
{
    let text = format!(in alloc; "x{var}")?;
    let name = Name::new(alloc, text.as_str())?;
    Ok(Cell {
        name,
        indices: Key::new(Vec::new(alloc)),
        truth: true,
        values,
    })
}

/// The map which says that the first so many flat variables stand for the cells, and that this one is to be as small as can
/// be.
fn map_to(alloc: Global, count: u64, goal: Option<u64>) -> Result<CellMap, Memory>
    ensures { IfOk result (λ m. IsMapTo count goal (plain_map m)) }
{
    let mut cells = Vec::new(alloc);
    for place in 0..count {
        cells.push(place)?;
    }
    Ok(CellMap {
        cells,
        objective: goal.map(|var| (Sense::Minimising, var)),
    })
}
