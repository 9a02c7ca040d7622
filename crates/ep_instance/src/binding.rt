//! The instance that a model and its parameters make together.

ghost use Rattle.std.specs.Prelude.{◌≡◌, All, IfOk};
ghost use Rattle.ep_base.specs.Reads.{IsWithinNumbers};
ghost use Rattle.ep_tree.specs.Binding as defined;
ghost use Rattle.ep_tree.specs.Closed.{IsClosed};
ghost use Rattle.ep_types.specs.Texts.{typed_params_tree, typed_tree};
ghost use Rattle.ep_instance_parts.specs.Instances.{plain_instance, instance_mode};
ghost use Rattle.ep_instance_parts.specs.Refusals.{BindsTo};

use super::lettings::bind_params;
use super::statements::bind_statements;
use ep_instance_parts::{BindError, Instance, Source};
use ep_tree::Mode;
use ep_types::{Typed, TypedParams};
use std::alloc::Global;

/// The instance of a model under its parameters. The lettings of the parameters are evaluated in
/// their order, and then the statements of the model in theirs; the first one at which something
/// stands is answered.
pub fn bind(
    alloc: Global,
    typed: Typed,
    params: TypedParams,
    mode: Mode,
) -> Result<Instance, BindError>
    ensures answer { BindsTo plain_instance result (defined.bind mode (typed_tree typed) (typed_params_tree params)) }
    ensures mode { IfOk result (λ i. instance_mode i ≡ mode) }
    ensures closed { IfOk result (λ i. IsClosed (plain_instance i)) }
    ensures numbers { IfOk result (λ i. All (λ f. All IsWithinNumbers f.values) (plain_instance i).finds) }
{
    let params = params.into_params();
    let known = bind_params(alloc, Source::Params, mode, &params.statements)?;
    let model = typed.into_model();
    bind_statements(alloc, &known, mode, model.statements)
}
