//! Assignments that are read from solution texts.

ghost use Rattle.std.specs.Prelude.{◌≡◌, IfOk, Ok, map, option_map, option_to_list};
ghost use Rattle.ep_tree.specs.Binding as defined;
ghost use Rattle.ep_tree.specs.Closed.{IsClosed};
ghost use Rattle.ep_tree.specs.SolutionTexts as texts;
ghost use Rattle.ep_tree.specs.SolutionTexts.{letting_names, read_solution};
ghost use Rattle.ep_tree.specs.Views.{named_value, statement_tree};
ghost use Rattle.ep_types.specs.Texts.{typed_params_tree};
ghost use Rattle.ep_eval.specs.Known.{env_of};
ghost use Rattle.ep_instance_parts.specs.Instances.{find_of, plain_instance, instance_mode};
ghost use Rattle.ep_instance.specs.Judgements.{FitsIfShaped, ShapeAnswers};
ghost use Rattle.ep_instance.specs.Shaping as shaping;
ghost use Rattle.ep_instance.specs.Shaping.{GivesEntries, GivesOneOf};

use super::judging::Shaped;
use super::lettings::bind_params;
use super::values::fitted_find;
use ep_base::{Memory, Name};
use ep_eval::Env;
use ep_instance_parts::{BindError, Find, Instance, Source};
use ep_tree::{Assignment, Entry, Statement, StatementKind};
use ep_types::TypedParams;
use std::alloc::Global;

/// The value that lettings give a decision variable, where one fits.
fn fitting_letting(alloc: Global, known: &Env, find: &Find) -> Result<Option<Entry>, Memory>
    ensures { IfOk result (λ entry. option_map named_value entry
        ≡ texts.fitting_letting (env_of known.now) (find_of find.now)) }
{
    let Some(entry) = known.entry(&find.name) else {
        return Ok(None);
    };
    let fit = fitted_find(alloc, find, entry.ty, &entry.value)?;
    let Some(value) = fit else {
        return Ok(None);
    };
    let name = Name::new(alloc, find.name.text())?;
    let ty = find.ty;
    Ok(Some(Entry { name, ty, value }))
}

/// The values that lettings give decision variables, or the first one without a letting that fits.
fn entries_of(alloc: Global, known: &Env, finds: &[Find]) -> Result<Shaped, Memory>
    ensures { IfOk result (GivesEntries (env_of known.now) (map find_of finds.now)) }
{
    let mut entries = Vec::new(alloc);
    for find in finds {
        let fitting = fitting_letting(alloc, known, find)?;
        let Some(entry) = fitting else {
            let name = Name::new(alloc, find.name.text())?;
            return Ok(Shaped::WrongShape(name));
        };
        entries.push(entry)?;
    }
    Ok(Shaped::Fits(Assignment { entries }))
}

/// Whether a name is that of a decision variable. Linear in the decision variables.
fn is_find(finds: &[Find], name: &Name) -> bool
    ensures { result ≡ texts.is_find (map find_of finds.now) name.now }
{
    for find in finds {
        if find.name == *name {
            return true;
        }
    }
    false
}

/// The name that a statement gives a value or a domain.
#[tactic(auto, unfolding(crate::specs::Shaping::letting_name, ep_tree::specs::Views::statement_kind_tree))]
fn letting_name(statement: &Statement) -> Option<&Name>
    ensures { option_map (λ n. n.now) result ≡ shaping.letting_name (statement_tree statement.now) }
{
    match &statement.kind {
        StatementKind::Letting(name, _, _, _) => Some(name),
        StatementKind::LettingDomain(name, _, _) => Some(name),
        StatementKind::Given(_) => None,
        StatementKind::Find(_) => None,
        StatementKind::Where(_) => None,
        StatementKind::SuchThat(_) => None,
        StatementKind::Objective(_, _) => None,
        StatementKind::Branching(_) => None,
        StatementKind::Heuristic(_) => None,
    }
}

/// The name that a statement gives a value or a domain, where it is that of no decision variable.
fn strange_name<'a>(finds: &[Find], statement: &'a Statement) -> Option<&'a Name>
    ensures { option_to_list (option_map (λ n. n.now) result) ≡ texts.strangers (map find_of finds.now)
        (option_to_list (shaping.letting_name (statement_tree statement.now))) }
{
    let Some(name) = letting_name(statement) else {
        return None;
    };
    if is_find(finds, name) {
        return None;
    }
    Some(name)
}

/// The first letting that is no decision variable, if there is one.
fn stranger(alloc: Global, finds: &[Find], statements: &[Statement]) -> Result<Option<Name>, Memory>
    ensures { IfOk result (GivesOneOf (texts.strangers (map find_of finds.now)
        (letting_names (map statement_tree statements.now)))) }
{
    for statement in statements {
        let Some(name) = strange_name(finds, statement) else {
            continue;
        };
        let stranger = Name::new(alloc, name.text())?;
        return Ok(Some(stranger));
    }
    Ok(None)
}

/// What the lettings of a solution text give decision variables.
fn shaped_by(
    alloc: Global,
    known: &Env,
    finds: &[Find],
    statements: &[Statement],
) -> Result<Shaped, Memory>
    ensures shape { IfOk result (λ s. ShapeAnswers (Ok s)
        (Ok (texts.shaped_by (map find_of finds.now) (env_of known.now) (map statement_tree statements.now)))) }
    ensures fits { IfOk result (λ s. (i : defined.Instance) → i.finds ≡ map find_of finds.now → IsClosed i → FitsIfShaped i s) }
{
    let shaped = entries_of(alloc, known, finds)?;
    let stranger = stranger(alloc, finds, statements)?;
    match stranger {
        Some(name) => Ok(Shaped::WrongShape(name)),
        None => Ok(shaped),
    }
}

/// The assignment that the lettings of a solution text give an instance.
pub fn read_assignment(
    alloc: Global,
    instance: &Instance,
    params: TypedParams,
) -> Result<Shaped, BindError>
    requires closed { IsClosed (plain_instance instance.now) }
    ensures answer { ShapeAnswers result
        (read_solution (instance_mode instance.now) (plain_instance instance.now) (typed_params_tree params)) }
    ensures fits { IfOk result (FitsIfShaped (plain_instance instance.now)) }
{
    let params = params.into_params();
    let mode = instance.env().mode();
    let known = bind_params(alloc, Source::Solution, mode, &params.statements)?;
    let finds = instance.finds();
    let shaped = shaped_by(alloc, &known, finds, &params.statements)?;
    Ok(shaped)
}
