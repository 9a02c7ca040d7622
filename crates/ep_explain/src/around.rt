//! Clauses that are settled by assignments around those that settle others.

ghost use Rattle.std.specs.Prelude.{◌≡◌, [], true, IfOk};
ghost use Rattle.ep_explain.specs.Narrowing.{AreLeft, IsNarrowed, IsPlaced, left_numbers};
ghost use Rattle.ep_ground.specs.Grounds.{AreCellValues};
ghost use Rattle.ep_instance_parts.specs.Instances.{instance_mode, plain_instance};
ghost use Rattle.ep_tree.specs.Closed.{IsClosed};
ghost use Rattle.ep_tree.specs.Solutions.{instance_limits};
ghost use Rattle.ep_tree.specs.Views.{assigned};
ghost use Rattle.ep_unroll.specs.Cells.{instance_cells};

use crate::left::{Left, Narrowed, judged, numbers_but, numbers_of};
use ep_answer::CellAnswer;
use ep_base::Memory;
use ep_ground::Cell;
use ep_instance::Judgement;
use ep_instance_parts::Instance;
use ep_print::Answer;
use ep_solve::{cells_stand_for_values, read_back};
use ep_tree::{Assignment, Value};
use std::alloc::Global;

/// How many clauses are looked at around one assignment, about.
const MOST_LOOKED_AT: usize = 100_000;

/// Another number of the cell at a place.
#[derive(Clone, Copy)]
struct Change {
    place: usize,
    number: i64,
}

/// Settles clauses by assignments around those that settle others, as long as new ones are settled: each
/// such assignment has another number in one cell. What was looked around is kept by the clause's number.
pub fn settle_around(
    alloc: Global,
    instance: &Instance,
    cells: &[Cell],
    narrowed: Narrowed,
    done: &mut Vec<u64>,
) -> Result<Narrowed, Memory>
    requires closed { IsClosed (plain_instance instance.now) }
    requires within { instance_limits (instance_mode instance.now) (plain_instance instance.now) ≡ [] }
    requires cells { cells.now ≡ instance_cells (plain_instance instance.now) }
    requires narrowed { IsNarrowed (instance_mode instance.now) (plain_instance instance.now) narrowed }
    ensures { IfOk result (λ after. IsNarrowed (instance_mode instance.now) (plain_instance instance.now) after) }
{
    let mut left = narrowed.left;
    let count = left.len();
    for _turn in 0..count {
        let Some(numbers) = next_numbers(alloc, &left, done)? else {
            break;
        };
        left = settle_near(alloc, instance, cells, left, &numbers)?;
    }
    Ok(Narrowed {
        left,
        seen: narrowed.seen,
    })
}

/// The numbers of an assignment that settles a clause around which it wasn't looked yet.
fn next_numbers(
    alloc: Global,
    left: &[Left],
    done: &mut Vec<u64>,
) -> Result<Option<Vec<i64>>, Memory> {
    for one in left {
        let Some(a) = &one.without else {
            continue;
        };
        if done.contains(&one.clause) {
            continue;
        }
        done.push(one.clause)?;
        return Ok(Some(numbers_in(alloc, a)?));
    }
    Ok(None)
}

/// The numbers of an assignment, row by row.
fn numbers_in(alloc: Global, a: &Assignment) -> Result<Vec<i64>, Memory> {
    let mut numbers = Vec::new(alloc);
    for entry in &a.entries {
        push_numbers(&entry.value, &mut numbers)?;
    }
    Ok(numbers)
}

/// The numbers of a value, row by row.
fn push_numbers(value: &Value, numbers: &mut Vec<i64>) -> Result<(), Memory> {
    match value {
        Value::Number(number) => numbers.push(*number)?,
        Value::Matrix(_, parts) => {
            for part in parts {
                push_numbers(part, numbers)?;
            }
        }
    }
    Ok(())
}

/// Settles clauses by assignments in which one of these numbers is another one.
fn settle_near(
    alloc: Global,
    instance: &Instance,
    cells: &[Cell],
    left: Vec<Left>,
    numbers: &[i64],
) -> Result<Vec<Left>, Memory>
    requires closed { IsClosed (plain_instance instance.now) }
    requires within { instance_limits (instance_mode instance.now) (plain_instance instance.now) ≡ [] }
    requires cells { cells.now ≡ instance_cells (plain_instance instance.now) }
    requires left { AreLeft (instance_mode instance.now) (plain_instance instance.now) left.items }
    ensures left { IfOk result (λ after. AreLeft (instance_mode instance.now) (plain_instance instance.now) after.items) }
    ensures same { IfOk result (λ after. left_numbers after.items ≡ left_numbers left.items) }
{
    let mut left = left;
    let most = MOST_LOOKED_AT / left.len().max(1);
    let changes = changes_of(alloc, cells, numbers, most)?;
    for change in &changes {
        let changed = with_change(alloc, numbers, *change)?;
        if !are_cell_values(cells, &changed) {
            continue;
        }
        let a = assignment_with(alloc, instance, changed)?;
        left = settle_by(alloc, instance, left, a)?;
    }
    Ok(left)
}

/// Other numbers of each cell, from the nearest on, and so many altogether.
fn changes_of(
    alloc: Global,
    cells: &[Cell],
    numbers: &[i64],
    most: usize,
) -> Result<Vec<Change>, Memory> {
    let farthest = most / cells.len().max(1) / 2 + 1;
    let mut changes = Vec::new(alloc);
    for (place, (cell, number)) in cells.iter().zip(numbers).enumerate() {
        let mut below = *number;
        let mut above = *number;
        for _step in 0..farthest {
            below = below.saturating_sub(1);
            push_change(&mut changes, cell, place, below, most)?;
            above = above.saturating_add(1);
            push_change(&mut changes, cell, place, above, most)?;
        }
    }
    Ok(changes)
}

/// Adds a number of a cell, where it is one of its values and not so many are there yet.
fn push_change(
    changes: &mut Vec<Change>,
    cell: &Cell,
    place: usize,
    number: i64,
    most: usize,
) -> Result<(), Memory> {
    if changes.len() < most && cell.values.has(number) {
        changes.push(Change { place, number })?;
    }
    Ok(())
}

/// Numbers with a change.
fn with_change(alloc: Global, numbers: &[i64], change: Change) -> Result<Vec<i64>, Memory> {
    let mut changed = Vec::from_slice(alloc, numbers)?;
    if change.place < changed.len() {
        changed[change.place] = change.number;
    }
    Ok(changed)
}

/// Whether each cell has one of its values.
fn are_cell_values(cells: &[Cell], numbers: &[i64]) -> bool
    ensures { result ≡ true → AreCellValues cells.now numbers.now }
{
    if cells.len() != numbers.len() {
        return false;
    }
    for place in 0..cells.len() {
        if !cells[place].values.has(numbers[place]) {
            return false;
        }
    }
    true
}

/// The assignment with these numbers of the cells.
fn assignment_with(
    alloc: Global,
    instance: &Instance,
    numbers: Vec<i64>,
) -> Result<Assignment, Memory>
    requires closed { IsClosed (plain_instance instance.now) }
    requires values { AreCellValues (instance_cells (plain_instance instance.now)) numbers.items }
    ensures { IfOk result (λ a. IsPlaced (plain_instance instance.now) (assigned a)) }
{
    cells_stand_for_values();
    let answer = read_back(alloc, instance.finds(), 0, CellAnswer::Solution(numbers))?;
    match answer {
        Answer::Solution(a) => Ok(a),
        Answer::Optimum(_, _) => unreachable!(),
        Answer::NoSolution => unreachable!(),
        Answer::Unknown { .. } => unreachable!(),
    }
}

/// Settles the clause that an assignment alone violates, unless it is settled.
fn settle_by(
    alloc: Global,
    instance: &Instance,
    mut left: Vec<Left>,
    a: Assignment,
) -> Result<Vec<Left>, Memory>
    requires closed { IsClosed (plain_instance instance.now) }
    requires within { instance_limits (instance_mode instance.now) (plain_instance instance.now) ≡ [] }
    requires left { AreLeft (instance_mode instance.now) (plain_instance instance.now) left.items }
    requires placed { IsPlaced (plain_instance instance.now) (assigned a) }
    ensures left { IfOk result (λ after. AreLeft (instance_mode instance.now) (plain_instance instance.now) after.items) }
    ensures same { IfOk result (λ after. left_numbers after.items ≡ left_numbers left.items) }
{
    let all = numbers_of(alloc, &left)?;
    let first = judged(alloc, instance, &all, &a)?;
    let place = place_of(&first);
    if place >= left.len() || left[place].without.is_some() {
        return Ok(left);
    }
    let others = numbers_but(alloc, &left, left[place].clause)?;
    let rest = judged(alloc, instance, &others, &a)?;
    match rest {
        Judgement::Solution { .. } => {
            left[place].without = Some(a);
            Ok(left)
        }
        Judgement::Violated(_) => Ok(left),
        Judgement::ObjectiveUndefined => Ok(left),
    }
}

/// The place of the first clause that is violated, or one behind all places.
fn place_of(judgement: &Judgement) -> usize {
    match judgement {
        Judgement::Violated(number) => number.saturating_sub(1) as usize,
        Judgement::Solution { .. } => usize::MAX,
        Judgement::ObjectiveUndefined => usize::MAX,
    }
}
