//! Whole texts: whether they are well formed.

ghost use Rattle.std.specs.Prelude.{◌≡◌, [], IfOk, OnOk, IfErr};
ghost use Rattle.ep_tree.specs.Faults.{lettings_of, params_faults, text_faults};
ghost use Rattle.ep_tree.specs.Views.{model_tree, params_tree};
ghost use Rattle.ep_types_rules.specs.Named.{IsAmongFaults};
ghost use Rattle.ep_types.specs.First.{IsFirst};
ghost use Rattle.ep_types.specs.Texts.{typed_params_tree, typed_tree};

use crate::statements::{check_lettings, check_statements};
use crate::typed::{Typed, TypedParams};
use ep_tree::{Model, Params};
use ep_types_rules::StaticError;
use std::alloc::Global;

/// Checks a model. It is well formed where no fault stands in it; otherwise the first that is met is
/// named. A text is met from left to right, but parts before their node, and yet an open domain before
/// its bounds; what a statement declares after its domain and its value; and of a comprehension the
/// domain of its indices, its generators and its conditions before its expression.
///
/// The domain of a quantifier or generator with several names is read again behind a name that stood for
/// something else before, and once for all names that didn't. Only where such names stand in one another's
/// domains is something read as often as a product of their numbers. A reading is linear in what it reads,
/// but that a name is sought among those of the quantifiers and generators around it.
pub fn check_model(alloc: Global, model: Model) -> Result<Typed, StaticError>
    ensures same { IfOk result (λ typed. typed_tree typed ≡ model_tree model) }
    ensures faultless { OnOk result (text_faults (model_tree model) ≡ []) }
    ensures named { IfErr result (IsAmongFaults (text_faults (model_tree model))) }
    ensures first { IfErr result (IsFirst (model_tree model)) }
{
    check_statements(alloc, &model.statements)?;
    Ok(Typed::new(model))
}

/// Checks a parameter text or a solution text, of which the lettings alone count. Otherwise as
/// `check_model`.
pub fn check_params(alloc: Global, params: Params) -> Result<TypedParams, StaticError>
    ensures same { IfOk result (λ typed. typed_params_tree typed ≡ params_tree params) }
    ensures faultless { OnOk result (params_faults (params_tree params) ≡ []) }
    ensures named { IfErr result (IsAmongFaults (params_faults (params_tree params))) }
    ensures first { IfErr result (IsFirst (lettings_of (params_tree params))) }
{
    check_lettings(alloc, &params.statements)?;
    Ok(TypedParams::new(params))
}
