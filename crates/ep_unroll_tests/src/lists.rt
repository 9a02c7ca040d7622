//! All lists of numbers for the decision variables of an instance, and what is said under each.

ghost use Rattle.std.specs.Prelude.{◌≡◌, []};
ghost use Rattle.ep_tree.specs.Closed.{IsClosed};
ghost use Rattle.ep_tree.specs.Solutions.{Fits, Found, instance_limits};
ghost use Rattle.ep_tree.specs.Views.{assigned};
ghost use Rattle.ep_instance_parts.specs.Instances.{plain_instance, instance_mode};

use crate::worths::worths_of;
use ep_ground::Ground;
use ep_instance::{
    Find, Instance, Judgement, Shaped, is_solution, no_limit_is_passed, read_assignment,
};
use ep_parse_model::parse_params;
use ep_tree::Assignment;
use ep_types::check_params;
use std::alloc::Global;
use std::test::Fail;

/// Numbers of the first cells, and a solution text that gives their decision variables these numbers.
#[derive(Drop)]
pub(crate) struct List {
    pub(crate) cells: Vec<i64>,
    pub(crate) text: String,
}

/// A number as a text; 0 and 1 as truth values where the variable has no other numbers.
fn number_text(alloc: Global, number: i64, truth: bool) -> Result<String, Fail> {
    if truth {
        let word = if number == 1 { "true" } else { "false" };
        return Ok(String::from_str(alloc, word)?);
    }
    Ok(format!(in alloc; "{number}")?)
}

/// The lists that go on from one with each number of a single decision variable.
fn push_longer(
    alloc: Global,
    list: &List,
    find: &Find,
    longer: &mut Vec<List>,
) -> Result<(), Fail> {
    let runs = find.values.runs();
    let truth = runs.iter().all(|run| run.lo >= 0 && run.hi <= 1);
    let name = find.name.text();
    for run in runs {
        for number in run.lo..=run.hi {
            let mut cells = list.cells.clone()?;
            cells.push(number)?;
            let said = number_text(alloc, number, truth)?;
            let text = format!(in alloc; "{}letting {name} be {said}\n", list.text.as_str())?;
            longer.push(List { cells, text })?;
        }
    }
    Ok(())
}

/// All lists of an instance whose decision variables are single numbers.
pub(crate) fn all_lists(alloc: Global, instance: &Instance) -> Result<Vec<List>, Fail> {
    let mut lists = Vec::new(alloc);
    lists.push(List {
        cells: Vec::new(alloc),
        text: String::new(alloc),
    })?;
    for find in instance.finds() {
        let mut longer = Vec::new(alloc);
        for list in &lists {
            push_longer(alloc, list, find, &mut longer)?;
        }
        lists = longer;
    }
    Ok(lists)
}

/// What is said of a list of numbers.
#[derive(Clone, Copy, Debug, PartialEq, Eq)]
pub(crate) enum Said {
    /// The clause of this number isn't true, and each before it is.
    Violated(u64),
    /// All clauses are true, and an objective that is stated has no value.
    NoValue,
    /// All clauses are true, and an objective that is stated has this number.
    Holds(Option<i64>),
    /// It gives the decision variables no values.
    NoAssignment,
}

/// How direct evaluation judges an assignment.
fn judged(alloc: Global, instance: &Instance, assignment: &Assignment) -> Result<Said, Fail>
    requires closed { IsClosed (plain_instance instance.now) }
    requires within { instance_limits (instance_mode instance.now) (plain_instance instance.now) ≡ [] }
    requires fits { (found : Found) × Fits (plain_instance instance.now) (assigned assignment.now) found }
{
    no_limit_is_passed();
    let said = match is_solution(alloc, instance, assignment)? {
        Judgement::Solution { objective } => Said::Holds(objective),
        Judgement::Violated(number) => Said::Violated(number),
        Judgement::ObjectiveUndefined => Said::NoValue,
    };
    Ok(said)
}

/// What direct evaluation says.
pub(crate) fn evaluated(alloc: Global, instance: &Instance, text: &str) -> Result<Said, Fail>
    requires closed { IsClosed (plain_instance instance.now) }
    requires within { instance_limits (instance_mode instance.now) (plain_instance instance.now) ≡ [] }
{
    let params = parse_params(alloc, text.as_bytes())?;
    let typed = check_params(alloc, params)?;
    match read_assignment(alloc, instance, typed) {
        Ok(Shaped::Fits(assignment)) => judged(alloc, instance, &assignment),
        _ => Ok(Said::NoAssignment),
    }
}

/// What the ground says.
pub(crate) fn grounded(alloc: Global, ground: &Ground, cells: &[i64]) -> Result<Said, Fail> {
    let worths = worths_of(alloc, &ground.arena, cells)?;
    let mut number: u64 = 0;
    for clause in &ground.clauses {
        number = number.saturating_add(1);
        if worths.of(*clause) != Some(1) {
            return Ok(Said::Violated(number));
        }
    }
    let Some((_, objective)) = &ground.objective else {
        return Ok(Said::Holds(None));
    };
    match worths.of(*objective) {
        Some(number) => Ok(Said::Holds(Some(number))),
        None => Ok(Said::NoValue),
    }
}
