//! Names bound to values that are fitted into domains.

ghost use Rattle.std.specs.Prelude.{◌≡◌, [], ◌∷◌, Ok};
ghost use Rattle.ep_tree.specs.Binding.{missing_parameter, outside_domain};
ghost use Rattle.ep_tree.specs.Binding as defined;
ghost use Rattle.ep_tree.specs.Environments.{has_value, shape_type};
ghost use Rattle.ep_tree.specs.Names.{put};
ghost use Rattle.ep_tree.specs.TypedValues.{IsOf};
ghost use Rattle.ep_tree.specs.Types as types;
ghost use Rattle.ep_tree.specs.Views.{value_tree};
ghost use Rattle.ep_eval.specs.Known.{env_of};
ghost use Rattle.ep_instance_parts.specs.Reading.{IsShape, IsTypedShape};
ghost use Rattle.ep_instance_parts.specs.Refusals.{BindsTo, IsOneOf};
ghost use Rattle.ep_instance_parts.specs.Steps.{fitted_said};

use super::errors::BindError;
use super::fitting::fit;
use super::shapes::Shape;
use ep_base::{Memory, Name, Runs};
use ep_eval::Env;
use ep_tree::{Entry, Scalar, Value, ValueType};
use std::alloc::Global;

/// The scalar of a type.
#[tactic(auto, unfolding(ep_tree::specs::Types::scalar_of))]
pub fn scalar_of(ty: ValueType) -> Scalar
    ensures { result ≡ types.scalar_of ty }
{
    match ty {
        ValueType::Bool => Scalar::Bool,
        ValueType::Int => Scalar::Int,
        ValueType::Matrix { dims: _, of } => of,
        ValueType::Empty => Scalar::Bool,
    }
}

/// The type of what has index domains and a scalar.
pub fn type_of_shape(scalar: Scalar, indices: &[Runs]) -> ValueType
    ensures { result ≡ shape_type scalar indices.now }
{
    if !indices.is_empty() {
        return ValueType::Matrix {
            dims: indices.len() as u64,
            of: scalar,
        };
    }
    match scalar {
        Scalar::Bool => ValueType::Bool,
        Scalar::Int => ValueType::Int,
    }
}

/// The refusal of a value that doesn't fit the domain of its name.
fn outside(alloc: Global, name: &Name) -> BindError
    ensures { IsOneOf result (outside_domain name.now ∷ []) }
{
    match Name::new(alloc, name.text()) {
        Ok(name) => BindError::Outside(name),
        Err(Memory) => BindError::Memory,
    }
}

/// The refusal of a name without a parameter.
pub fn missing(alloc: Global, name: &Name) -> BindError
    ensures { IsOneOf result (missing_parameter name.now ∷ []) }
{
    match Name::new(alloc, name.text()) {
        Ok(name) => BindError::Missing(name),
        Err(Memory) => BindError::Memory,
    }
}

/// A name stands for a value of a type, in place of what it stood for.
pub fn put_value(
    alloc: Global,
    env: &mut Env,
    name: &Name,
    ty: ValueType,
    value: Value,
) -> Result<(), BindError>
    requires typed { IsOf ty (value_tree value) }
    ensures mode { env.new.mode ≡ env.old.mode }
    ensures known { BindsTo (λ _. env_of env.new) result
        (Ok (put name.now (has_value ty (value_tree value)) (env_of env.old))) }
{
    let name = Name::new(alloc, name.text())?;
    env.set(Entry { name, ty, value })?;
    Ok(())
}

/// A name stands for a value that is fitted into a domain.
pub fn bind_fitted(
    alloc: Global,
    env: &mut Env,
    name: &Name,
    shape: &Shape,
    own: ValueType,
    value: &Value,
) -> Result<(), BindError>
    requires typed { IsTypedShape shape.now }
    ensures mode { env.new.mode ≡ env.old.mode }
    ensures known { (bound : defined.Shape) → IsShape bound shape.now → BindsTo (λ _. env_of env.new) result
        (fitted_said bound name.now own (value_tree value.now) (env_of env.old)) }
{
    let wanted = shape.scalar;
    let fitted = fit(
        alloc,
        value,
        scalar_of(own),
        wanted,
        &shape.elements,
        &shape.indices,
    )?;
    let Some(fitted) = fitted else {
        return Err(outside(alloc, name));
    };
    let ty = type_of_shape(wanted, &shape.indices);
    put_value(alloc, env, name, ty, fitted)
}
