//! Solves cubes in waves, side by side, until one isn't refuted.

ghost use Rattle.std.specs.Prelude.{◌≡◌, ℕ, ◌+◌, ◌^◌, ◌<◌, ◌≤◌, List, Result, Ok, IfOk, OnOk, IfSome, IfNone, length, slice_index_or};
ghost use Rattle.cnf_core.specs.Literal.{Literal};
ghost use Rattle.cnf_core.specs.Formula.{Cnf};
ghost use Rattle.sat_split.specs.Cubes.{cube_literals};
ghost use Rattle.sat_join.specs.Joins.{Divides};
ghost use Rattle.sat_cubes.specs.Answers.{AnswersCubes, AreRefutedWithin, ComesOfCubes};
ghost use Rattle.sat_cubes.specs.Solving.{AreRefuted, AreSolved, IsOpenCube, IsOpen, IsSoFar, IsSolved};

use crate::cubed::Cubed;
use crate::gate::CubeGate;
use crate::solving::{OpenCube, Solved, solve_cube};
use cnf_core::{Formula, Log};
use ep_base::Memory;
use sat_join::{close, join_cube};
use sat_split::{cube_variables, given_log};
use std::alloc::Global;
use std::thread;
use std::thread::Threads;

/// The least number of cubes that are begun together.
const LEAST_AT_ONCE: usize = 2;

// How many cubes are begun together: as many as there are processors.
fn at_once<R: Threads>(rt: &R) -> usize
    ensures { 2 ≤ result }
{
    match thread::available_parallelism(rt) {
        Ok(count) => count.get().max(LEAST_AT_ONCE),
        Err(_) => LEAST_AT_ONCE,
    }
}

// How many cubes so many variables make.
fn cubes_over(vars: usize) -> usize
    requires { vars ≤ 6 }
    ensures { result ≡ 2 ^ vars }
{
    1 << vars
}

// Solves so many cubes from one on, each in a thread of its own where one can be started.
fn solve_wave<R: Threads + Sync, G: CubeGate>(
    rt: &R,
    alloc: Global,
    formula: &Formula,
    vars: &[u64],
    first: usize,
    count: usize,
    budget: u64,
    gate: &G,
) -> Result<Vec<Result<Solved, Memory>>, Memory>
    requires divides { Divides formula.now.clauses vars.now }
    requires room { first + count < 2 ^ 64 }
    ensures count { IfOk result (λ wave. length wave.items ≡ count) }
    ensures solved { IfOk result (λ wave. AreSolved formula.now vars.now first budget wave.items) }
{
    let solve = |place: usize| -> Result<Solved, Memory>
        requires { (first + place < 2 ^ 64) × Divides formula.now.clauses vars.now }
        ensures { IfOk result (λ solved. IsSolved formula.entry.now (cube_literals (first + place) vars.entry.now) budget solved) }
    {
        let cube = (first + place) as u64;
        gate.enter(cube);
        let solved = solve_cube(alloc, formula, vars, cube, budget);
        gate.leave(cube);
        solved
    };
    Ok(thread::map_indices(rt, alloc, count, &solve)?)
}

// The log of a cube that is refuted.
fn log_of(solved: &Solved) -> Option<&Log>
    ensures some { IfSome result (λ log. solved.now ≡ Solved.Unsat log.now) }
    ensures none { IfNone result (IsOpen solved.now) }
{
    match solved {
        Solved::Unsat(log) => Some(log),
        Solved::Sat(_) => None,
        Solved::Spent(_) => None,
    }
}

// The same of a cube that was solved, unless memory was wanting.
fn refuted_log(solved: &Result<Solved, Memory>) -> Option<&Log>
    ensures some { IfSome result (λ log. solved.now ≡ Ok (Solved.Unsat log.now)) }
    ensures none { IfNone result (IfOk solved.now IsOpen) }
{
    match solved {
        Ok(one) => log_of(one),
        Err(_) => None,
    }
}

// A cube that isn't refuted.
fn left_of(solved: Solved) -> OpenCube
    requires { IsOpen solved }
    ensures { (f : Cnf) (literals : List Literal) (budget : ℕ) → IsSolved f literals budget solved → IsOpenCube f literals budget result }
{
    match solved {
        Solved::Sat(values) => OpenCube::Sat(values),
        Solved::Spent(log) => OpenCube::Spent(log),
        Solved::Unsat(_) => unreachable!(),
    }
}

// Joins the cubes of a wave up to the first that isn't refuted, and answers how many these are.
fn join_refuted(
    alloc: Global,
    formula: &Formula,
    vars: &[u64],
    wave: &[Result<Solved, Memory>],
    joined: &mut Log,
    ends: &mut Vec<u64>,
) -> Result<usize, Memory>
    requires so_far { IsSoFar formula.now vars.now ends.old.items joined.old }
    requires room { length ends.old.items + length wave.now ≤ 2 ^ length vars.now }
    requires refuted { AreRefuted formula.now vars.now (length ends.old.items) wave.now }
    ensures so_far { OnOk result (IsSoFar formula.now vars.now ends.new.items joined.new) }
    ensures count { IfOk result (λ count. length ends.new.items ≡ length ends.old.items + count) }
    ensures within { IfOk result (λ count. count ≤ length wave.now) }
    ensures refuted_within { (budget : ℕ) → AreSolved formula.now vars.now (length ends.old.items) budget wave.now
        → AreRefutedWithin formula.now.clauses vars.now (length ends.old.items) budget
        → OnOk result (AreRefutedWithin formula.now.clauses vars.now (length ends.new.items) budget) }
    ensures next { IfOk result (λ count. (d : Result Solved Memory) → count < length wave.now → IfOk (slice_index_or wave.now count d) IsOpen) }
{
    for (index, solved) in wave.iter().enumerate() {
        let Some(log) = refuted_log(solved) else {
            return Ok(index);
        };
        join_cube(alloc, formula, vars, log, joined, ends)?;
    }
    Ok(wave.len())
}

// Solves the next cubes, and joins them up to the first that isn't refuted, which it answers.
fn go_on<R: Threads + Sync, G: CubeGate>(
    rt: &R,
    alloc: Global,
    formula: &Formula,
    vars: &[u64],
    count: usize,
    budget: u64,
    gate: &G,
    joined: &mut Log,
    ends: &mut Vec<u64>,
) -> Result<Option<OpenCube>, Memory>
    requires so_far { IsSoFar formula.now vars.now ends.old.items joined.old }
    requires room { length ends.old.items + count ≤ 2 ^ length vars.now }
    requires fits { 2 ^ length vars.now < 2 ^ 64 }
    requires refuted_within { AreRefutedWithin formula.now.clauses vars.now (length ends.old.items) budget }
    ensures so_far { OnOk result (IsSoFar formula.now vars.now ends.new.items joined.new) }
    ensures refuted_within { OnOk result (AreRefutedWithin formula.now.clauses vars.now (length ends.new.items) budget) }
    ensures left { IfOk result (λ left. IfSome left (λ one. (length ends.new.items < 2 ^ length vars.now)
        × IsOpenCube formula.now (cube_literals (length ends.new.items) vars.now) budget one)) }
    ensures all { IfOk result (λ left. IfNone left (length ends.new.items ≡ length ends.old.items + count)) }
{
    let mut wave = solve_wave(rt, alloc, formula, vars, ends.len(), count, budget, gate)?;
    let joins = join_refuted(alloc, formula, vars, &wave, joined, ends)?;
    if joins >= wave.len() {
        return Ok(None);
    }
    let open = wave.swap_remove(joins)?;
    Ok(Some(left_of(open)))
}

// What comes of all cubes, where those below one are refuted and joined, and it isn't.
fn ended(left: OpenCube, cube: u64, joined: Log) -> Cubed
    ensures { (f : Cnf) (vars ends : List ℕ) (budget : ℕ) → IsSoFar f vars ends joined → AreRefutedWithin f.clauses vars (length ends) budget
        → cube ≡ length ends → length ends < 2 ^ length vars → IsOpenCube f (cube_literals (length ends) vars) budget left → AnswersCubes f budget vars result }
{
    match left {
        OpenCube::Sat(values) => Cubed::Sat {
            cube,
            values,
            log: joined,
        },
        OpenCube::Spent(log) => Cubed::Spent { cube, log },
    }
}

/// Solves the cubes of a formula over its lowest variables, at most so many of these, each cube within the budget and with a log of
/// its own.
///
/// Cubes are begun in waves of ascending numbers, each of as many cubes as there are processors and of two at least. No wave begins after
/// one in which a cube wasn't refuted, and each cube that is begun is solved to its end. Where a thread can't be started, the caller
/// does the work.
pub fn solve_cubes<R: Threads + Sync, G: CubeGate>(
    rt: &R,
    alloc: Global,
    formula: &Formula,
    cubes: u64,
    budget: u64,
    gate: &G,
) -> Result<Cubed, Memory>
    requires { cubes ≤ 6 }
    ensures { IfOk result (λ cubed. ComesOfCubes formula.now cubes budget cubed) }
{
    // What each formula keeps of its clauses, `clauses` promises of this one too.
    let _clauses = formula.clauses();
    let vars = cube_variables(alloc, formula, cubes)?;
    let total = cubes_over(vars.len());
    let width = at_once(rt);
    let mut joined = given_log(alloc, formula)?;
    let mut ends = Vec::new(alloc);
    'waves: while ends.len() < total {
        let count = width.min(total - ends.len());
        let left = go_on(
            rt,
            alloc,
            formula,
            &vars,
            count,
            budget,
            gate,
            &mut joined,
            &mut ends,
        )?;
        if let Some(one) = left {
            return Ok(ended(one, ends.len() as u64, joined));
        }
    }
    close(alloc, formula, &vars, ends, &mut joined)?;
    Ok(Cubed::Unsat { log: joined })
}
