//! What is wrong in the texts of a run and in its instance.

ghost use Rattle.std.specs.Prelude.{◌≡◌, [], IfOk};
ghost use Rattle.std.specs.List.{All};
ghost use Rattle.ep_base.specs.Reads.{IsWithinNumbers};
ghost use Rattle.ep_tree.specs.Closed.{IsClosed};
ghost use Rattle.ep_tree.specs.Faults.{params_faults, text_faults};
ghost use Rattle.ep_tree.specs.Solutions.{instance_limits};
ghost use Rattle.ep_tree.specs.Views.{model_tree, params_tree};
ghost use Rattle.ep_types.specs.Texts.{typed_params_tree, typed_tree};
ghost use Rattle.ep_instance_parts.specs.Instances.{plain_instance, instance_mode};
ghost use Rattle.ep_print.specs.declared.refusals.TextFile.{TextFile as TextFileValue};
ghost use Rattle.ep_driver.specs.Outcomes.{bind_refusals, bound_outcome, fault_refusals, instance_of};
ghost use Rattle.ep_driver.specs.Steps.{Passes, Tells};

use super::errors::{bind_stop, static_stop};
use ep_files::Stop;
use ep_instance::{Instance, bind};
use ep_print::{Refusal, TextFile};
use ep_size::{SizeError, measure};
use ep_tree::{Mode, Model, Params};
use ep_types::{Typed, TypedParams, check_model, check_params};
use std::alloc::Global;

/// The model, if no fault of types or categories stands in it.
pub fn checked_model(alloc: Global, model: Model) -> Result<Typed, Stop>
    ensures same { IfOk result (λ typed. typed_tree typed ≡ model_tree model) }
    ensures passes { Passes
        (fault_refusals TextFileValue.Model (text_faults (model_tree model))) result }
{
    match check_model(alloc, model) {
        Ok(typed) => Ok(typed),
        Err(error) => Err(static_stop(TextFile::Model, error)),
    }
}

/// A parameter text or a solution text, if no such fault stands in it.
pub fn checked_params(alloc: Global, file: TextFile, params: Params) -> Result<TypedParams, Stop>
    ensures same { IfOk result (λ typed. typed_params_tree typed ≡ params_tree params) }
    ensures passes { Passes (fault_refusals file (params_faults (params_tree params))) result }
{
    match check_params(alloc, params) {
        Ok(typed) => Ok(typed),
        Err(error) => Err(static_stop(file, error)),
    }
}

/// The instance of a model and its parameters in a mode of undefinedness, if it is within the limits.
pub fn instance_of(
    alloc: Global,
    mode: Mode,
    model: Typed,
    params: TypedParams,
) -> Result<Instance, Stop>
    ensures tells { Tells plain_instance
        (instance_of mode (typed_tree model) (typed_params_tree params)) result }
    ensures mode { IfOk result (λ i. instance_mode i ≡ mode) }
    ensures closed { IfOk result (λ i. IsClosed (plain_instance i)) }
    ensures numbers { IfOk result (λ i. All (λ f. All IsWithinNumbers f.values) (plain_instance i).finds) }
    ensures within { IfOk result (λ i. instance_limits (instance_mode i) (plain_instance i) ≡ []) }
{
    let instance = bound(alloc, mode, model, params)?;
    check_limits(alloc, &instance)?;
    Ok(instance)
}

/// The instance of a model and its parameters.
fn bound(alloc: Global, mode: Mode, model: Typed, params: TypedParams) -> Result<Instance, Stop>
    ensures tells { Tells plain_instance
        (bound_outcome mode (typed_tree model) (typed_params_tree params)) result }
    ensures mode { IfOk result (λ i. instance_mode i ≡ mode) }
    ensures closed { IfOk result (λ i. IsClosed (plain_instance i)) }
    ensures numbers { IfOk result (λ i. All (λ f. All IsWithinNumbers f.values) (plain_instance i).finds) }
{
    match bind(alloc, model, params, mode) {
        Ok(instance) => Ok(instance),
        Err(error) => Err(bind_stop(error)),
    }
}

/// Passes an instance that is within the limits of its measures.
fn check_limits(alloc: Global, instance: &Instance) -> Result<(), Stop>
    requires closed { IsClosed (plain_instance instance.now) }
    ensures { Passes
        (bind_refusals (instance_limits (instance_mode instance.now) (plain_instance instance.now))) result }
{
    match measure(alloc, instance) {
        Ok(_) => Ok(()),
        Err(SizeError::Limit(limit)) => Err(Stop::Refused(Refusal::Over(limit))),
        Err(SizeError::Memory) => Err(Stop::Memory),
    }
}
