//! Which lists of numbers for its cells the ground of a model keeps, as it was unrolled and without undefinedness.

ghost use Rattle.std.specs.Prelude.{◌<◌, IfOk, length};
ghost use Rattle.ep_ground.specs.Grounds.{IsWellFormed};
ghost use Rattle.ep_ground.specs.GroundViews.{plain_ground};

use crate::instances::instance_of;
use crate::lists::{Said, grounded};
use ep_base::Runs;
use ep_defined::{MOST_NODES, remove_undefined};
use ep_ground::{Arena, Cell, Ground, Node, Term};
use ep_size::measure;
use ep_tree::Mode;
use ep_unroll::unroll;
use std::alloc::Global;
use std::test::Fail;

/// The ground of a model as it was unrolled.
fn ground_of(alloc: Global, mode: Mode, model: &str) -> Result<Ground, Fail>
    ensures { IfOk result (λ g. IsWellFormed (plain_ground g)) }
{
    let instance = instance_of(alloc, mode, model)?;
    let _measures = measure(alloc, &instance)?;
    Ok(unroll(alloc, &instance)?)
}

/// A ground without undefinedness.
fn defined(alloc: Global, ground: Ground) -> Result<Ground, Fail>
    requires { IsWellFormed (plain_ground ground) }
{
    if ground.arena.len() > MOST_NODES {
        return Err(Fail::new("a ground with too many nodes"));
    }
    Ok(remove_undefined(alloc, ground)?)
}

/// The lists that go on from one with each number of a set.
fn push_longer(
    alloc: Global,
    list: &[i64],
    numbers: &Runs,
    longer: &mut Vec<Vec<i64>>,
) -> Result<(), Fail> {
    for run in numbers.runs() {
        for number in run.lo..=run.hi {
            let mut more = Vec::from_slice(alloc, list)?;
            more.push(number)?;
            longer.push(more)?;
        }
    }
    Ok(())
}

/// All lists of numbers for some cells.
fn all_numbers(alloc: Global, cells: &[Cell]) -> Result<Vec<Vec<i64>>, Fail> {
    let mut lists = Vec::new(alloc);
    lists.push(Vec::new(alloc))?;
    for cell in cells {
        let mut longer = Vec::new(alloc);
        for list in &lists {
            push_longer(alloc, list, &cell.values, &mut longer)?;
        }
        lists = longer;
    }
    Ok(lists)
}

/// Adds a word to a text, behind this where it isn't the first.
fn push_word(text: &mut String, between: &str, word: &str) -> Result<(), Fail> {
    if !text.is_empty() {
        text.push_str(between)?;
    }
    text.push_str(word)?;
    Ok(())
}

/// A list as a text, with the objective's number behind it where one is stated.
fn list_text(alloc: Global, list: &[i64], objective: Option<i64>) -> Result<String, Fail> {
    let mut text = String::new(alloc);
    for number in list {
        push_word(&mut text, " ", format!(in alloc; "{number}")?.as_str())?;
    }
    if let Some(number) = objective {
        push_word(&mut text, " = ", format!(in alloc; "{number}")?.as_str())?;
    }
    Ok(text)
}

/// The lists that a ground keeps.
fn kept(alloc: Global, ground: &Ground) -> Result<String, Fail> {
    let mut text = String::new(alloc);
    for list in &all_numbers(alloc, &ground.cells)? {
        if let Said::Holds(objective) = grounded(alloc, ground, list)? {
            let word = list_text(alloc, list, objective)?;
            push_word(&mut text, ", ", word.as_str())?;
        }
    }
    Ok(text)
}

/// What a model's ground keeps in a mode, unless it is this, before and behind the removal of undefinedness.
fn other_than(
    alloc: Global,
    mode: Mode,
    model: &str,
    wanted: &str,
) -> Result<Option<String>, Fail> {
    let ground = ground_of(alloc, mode, model)?;
    let before = kept(alloc, &ground)?;
    let behind = kept(alloc, &defined(alloc, ground)?)?;
    if before.as_str() == wanted && behind.as_str() == wanted {
        return Ok(None);
    }
    Ok(Some(format!(in alloc; "{model}: {} and {}", before.as_str(), behind.as_str())?))
}

/// What a row is wrong in: a model, and the lists that are kept in the relational and in the strict mode.
fn wrong_in(alloc: Global, row: &str) -> Result<Option<String>, Fail> {
    let (model, lists) = row.split_once('#').unwrap_or((row, ""));
    let (relational, strict) = lists.split_once('#').unwrap_or((lists, ""));
    match other_than(alloc, Mode::Relational, model, relational)? {
        Some(wrong) => Ok(Some(wrong)),
        None => other_than(alloc, Mode::Strict, model, strict),
    }
}

/// Models in which something may lack a value.
const KEPT: &str = "\
find x : int(0..0) such that !(10/x > 2)#0#
find m : matrix indexed by [int(1..2)] of bool find i : int(3..3) such that !m[1], !m[2], toInt(m[i]) = 0#0 0 3#
find x : int(0..1) such that (x = 0) \\/ (1/x = 1), !(1/x = 1)#0#
find x : int(0..2) such that (x = 0) \\/ (10 / x >= 10)#0, 1#1
find x : int(1..2) such that forAll i : int(1..0) . 1/0 = x#1, 2#1, 2
find x : int(0..2) such that 4 / x = 2 \\/ !(4 / x in int(2..4))#0, 2#2
find x : int(0..3) minimising 6 / x#1 = 6, 2 = 3, 3 = 2#1 = 6, 2 = 3, 3 = 2
find x : int(0..0) minimising 6 / x##
find i : int(1..3) such that [5, 6, 7][i] > 6#3#3
find i : int(0..3) such that !([5, 6, 7][i] = 6)#0, 1, 3#1, 3
find m : matrix indexed by [int(1..2)] of int(0..1) find x : int(0..1) such that !(sum([m, [1 / x, 1]][1, ..]) < 2)#0 0 0, 0 1 0, 1 0 0, 1 1 0, 1 1 1#1 1 1";

#[test]
fn grounds_keep_their_lists(rt: HostRuntime) -> Result<(), Fail> {
    for row in KEPT.lines() {
        assert_eq!(rt; wrong_in(rt.alloc(), row)?, None);
    }
    Ok(())
}

/// Whether a term is there and is the cell of a number.
fn is_cell(arena: &Arena, term: Term, number: u64) -> bool {
    if u64::from(term.number()) >= arena.len() {
        return false;
    }
    match arena.node(term) {
        Node::Cell(own) => *own == number,
        _ => false,
    }
}

/// Whether a node is the product of the first two cells.
fn is_product(arena: &Arena, term: Term) -> bool
    requires { term < length arena.now }
{
    match arena.node(term) {
        Node::Mul(x, y) => is_cell(arena, *x, 0) && is_cell(arena, *y, 1),
        _ => false,
    }
}

#[test]
fn a_product_of_all_instances_has_one_node(rt: HostRuntime) -> Result<(), Fail> {
    let model = "find x, y : int(0..9) such that forAll i : int(1..1000) . x*y >= i - 1000";
    let ground = ground_of(rt.alloc(), Mode::Relational, model)?;
    let arena = &ground.arena;
    let mut products = 0u64;
    for number in 0..arena.len() {
        if is_product(arena, Term::new(number as u32)) {
            products = products.saturating_add(1);
        }
    }
    assert_eq!(rt; products, 1);
    Ok(())
}
