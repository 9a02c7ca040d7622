//! Texts of rows, and what is said of them.

ghost use Rattle.std.specs.Prelude.{◌≡◌, []};
ghost use Rattle.ep_tree.specs.Closed.{IsClosed};
ghost use Rattle.ep_tree.specs.Solutions.{Fits, Found, instance_limits};
ghost use Rattle.ep_tree.specs.Views.{assigned};
ghost use Rattle.ep_instance_parts.specs.Instances.{plain_instance, instance_mode};

use ep_base::Limit;
use ep_instance::{
    BindError, Instance, Judgement, Shaped, Source, bind, is_solution, no_limit_is_passed,
    read_assignment,
};
use ep_parse_model::{parse_model, parse_params};
use ep_size::{SizeError, measure};
use ep_tree::{Assignment, Mode};
use ep_types::{Typed, TypedParams, check_model, check_params};
use std::alloc::{AllocError, Global};
use std::test::Fail;

/// A row is cut behind its first part.
pub(crate) fn cut(row: &str) -> (&str, &str) {
    row.split_once('#').unwrap_or((row, ""))
}

/// A model behind its first line. It has to be well formed.
pub(crate) fn model_of(alloc: Global, front: &str, text: &str) -> Result<Typed, Fail> {
    let mut whole = String::from_str(alloc, "language ESSENCE' 1.0\n")?;
    whole.push_str(front)?;
    whole.push_str(text)?;
    let model = parse_model(alloc, whole.as_bytes())?;
    Ok(check_model(alloc, model)?)
}

/// Parameters or a solution text. They have to be well formed.
pub(crate) fn params_of(alloc: Global, text: &str) -> Result<TypedParams, Fail> {
    let params = parse_params(alloc, text.as_bytes())?;
    Ok(check_params(alloc, params)?)
}

/// The word of a limit.
pub(crate) fn limit_word(limit: Limit) -> &'static str {
    match limit {
        Limit::Size => "L4",
        Limit::Reach => "L5",
        Limit::Weight => "L6",
    }
}

/// The word of a text.
fn source_word(source: Source) -> &'static str {
    match source {
        Source::Model => "model",
        Source::Params => "params",
        Source::Solution => "solution",
    }
}

/// What is said of a text that isn't bound.
pub(crate) fn refusal(alloc: Global, refused: &BindError) -> Result<String, Fail> {
    match refused {
        BindError::Missing(name) => {
            let name = name.text();
            Ok(format!(in alloc; "F8 {name}")?)
        }
        BindError::Outside(name) => {
            let name = name.text();
            Ok(format!(in alloc; "F9 {name}")?)
        }
        BindError::Undefined(source, place) => {
            let word = source_word(*source);
            Ok(format!(in alloc; "F10 {word} {}:{}", place.line, place.column)?)
        }
        BindError::WhereFalse(number) => Ok(format!(in alloc; "F11 {number}")?),
        BindError::Limit(limit) => Ok(String::from_str(alloc, limit_word(*limit))?),
        BindError::Memory => Ok(String::from_str(alloc, "memory")?),
    }
}

/// What is said of an instance that isn't measured.
pub(crate) fn size_refusal(alloc: Global, refused: SizeError) -> Result<String, AllocError> {
    match refused {
        SizeError::Limit(limit) => String::from_str(alloc, limit_word(limit)),
        SizeError::Memory => String::from_str(alloc, "memory"),
    }
}

/// What is said of an assignment.
fn judgement_text(alloc: Global, judgement: Judgement) -> Result<String, Fail> {
    match judgement {
        Judgement::Solution { objective: None } => Ok(String::from_str(alloc, "solution")?),
        Judgement::Solution {
            objective: Some(number),
        } => Ok(format!(in alloc; "solution {number}")?),
        Judgement::Violated(number) => Ok(format!(in alloc; "violated {number}")?),
        Judgement::ObjectiveUndefined => Ok(String::from_str(alloc, "objective undefined")?),
    }
}

/// How an assignment that fits is judged.
fn judged(alloc: Global, instance: &Instance, assignment: &Assignment) -> Result<String, Fail>
    requires closed { IsClosed (plain_instance instance.now) }
    requires within { instance_limits (instance_mode instance.now) (plain_instance instance.now) ≡ [] }
    requires fits { (found : Found) × Fits (plain_instance instance.now) (assigned assignment.now) found }
{
    no_limit_is_passed();
    let judgement = is_solution(alloc, instance, assignment)?;
    judgement_text(alloc, judgement)
}

/// How a solution text is judged.
fn judged_text(alloc: Global, instance: &Instance, solution: TypedParams) -> Result<String, Fail>
    requires closed { IsClosed (plain_instance instance.now) }
    requires within { instance_limits (instance_mode instance.now) (plain_instance instance.now) ≡ [] }
{
    match read_assignment(alloc, instance, solution) {
        Ok(Shaped::Fits(assignment)) => judged(alloc, instance, &assignment),
        Ok(Shaped::WrongShape(name)) => {
            let name = name.text();
            Ok(format!(in alloc; "wrong shape {name}")?)
        }
        Err(refused) => refusal(alloc, &refused),
    }
}

/// What is said of a model, its parameters and a solution text, in a mode.
pub(crate) fn said(
    alloc: Global,
    mode: Mode,
    model: &str,
    params: &str,
    solution: &str,
) -> Result<String, Fail> {
    let model = model_of(alloc, "", model)?;
    let params = params_of(alloc, params)?;
    let solution = params_of(alloc, solution)?;
    match bind(alloc, model, params, mode) {
        Ok(instance) => match measure(alloc, &instance) {
            Ok(_) => judged_text(alloc, &instance, solution),
            Err(refused) => Ok(size_refusal(alloc, refused)?),
        },
        Err(refused) => refusal(alloc, &refused),
    }
}

/// How great the instance of a model and its parameters is in a mode: its size and its weight.
pub(crate) fn measures(
    alloc: Global,
    mode: Mode,
    front: &str,
    model: &str,
    params: &str,
) -> Result<Result<(u64, u64), String>, Fail> {
    let model = model_of(alloc, front, model)?;
    let params = params_of(alloc, params)?;
    match bind(alloc, model, params, mode) {
        Ok(instance) => match measure(alloc, &instance) {
            Ok(measures) => Ok(Ok((measures.size, measures.weight))),
            Err(refused) => Ok(Err(size_refusal(alloc, refused)?)),
        },
        Err(refused) => Ok(Err(refusal(alloc, &refused)?)),
    }
}
