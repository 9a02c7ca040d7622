//! The rules of types that speak of types alone.
#![tactic(auto)]

ghost use Rattle.std.specs.Prelude.{◌≡◌, ◌∷◌, [], if◌then◌else◌};
ghost use Rattle.std.specs.List.{list_all};
ghost use Rattle.ep_tree.specs.Types as types;
ghost use Rattle.ep_tree.specs.declared.values.Scalar.{Scalar as EachScalar};

use ep_tree::{Scalar, ValueType};

/// Whether a type is integer, which Boolean is too.
#[tactic(auto, unfolding(ep_tree::specs::Types::is_integer))]
pub fn is_integer(ty: ValueType) -> bool
    ensures { result ≡ types.is_integer ty }
{
    match ty {
        ValueType::Bool | ValueType::Int => true,
        ValueType::Matrix { .. } | ValueType::Empty => false,
    }
}

/// Whether a type is Boolean.
#[tactic(auto, unfolding(ep_tree::specs::Types::is_boolean))]
pub fn is_boolean(ty: ValueType) -> bool
    ensures { result ≡ types.is_boolean ty }
{
    match ty {
        ValueType::Bool => true,
        ValueType::Int | ValueType::Matrix { .. } | ValueType::Empty => false,
    }
}

/// Whether a type is that of a matrix.
#[tactic(auto, unfolding(ep_tree::specs::Types::is_matrix))]
pub fn is_matrix(ty: ValueType) -> bool
    ensures { result ≡ types.is_matrix ty }
{
    !is_integer(ty)
}

/// Whether a type is that of a matrix of Booleans; the list without parts is of every matrix type.
#[tactic(auto, unfolding(ep_tree::specs::Types::is_matrix_of_bool, ep_tree::specs::Types::is_bool_scalar))]
pub fn is_matrix_of_bool(ty: ValueType) -> bool
    ensures { result ≡ types.is_matrix_of_bool ty }
{
    match ty {
        ValueType::Matrix {
            of: Scalar::Bool,
            ..
        }
        | ValueType::Empty => true,
        _ => false,
    }
}

/// Whether a type is that of a matrix of so many dimensions.
#[tactic(auto, unfolding(ep_tree::specs::Types::has_dimensions))]
pub fn has_dimensions(count: u64, ty: ValueType) -> bool
    ensures { result ≡ types.has_dimensions count ty }
{
    match ty {
        ValueType::Matrix { dims, .. } => dims == count,
        ValueType::Empty => true,
        ValueType::Bool | ValueType::Int => false,
    }
}

/// The type of a number of this scalar.
#[tactic(auto, unfolding(ep_tree::specs::Types::of_scalar))]
pub fn of_scalar(scalar: Scalar) -> ValueType
    ensures { result ≡ types.of_scalar scalar }
{
    match scalar {
        Scalar::Bool => ValueType::Bool,
        Scalar::Int => ValueType::Int,
    }
}

/// The scalar of two together: Bool only where both are.
#[tactic(auto, unfolding(ep_tree::specs::Types::both_scalars))]
pub fn both_scalars(one: Scalar, other: Scalar) -> Scalar
    ensures { result ≡ types.both_scalars one other }
{
    match one {
        Scalar::Bool => other,
        Scalar::Int => Scalar::Int,
    }
}

/// Bool where all are.
pub fn bool_if(all: bool) -> Scalar
    ensures { result ≡ (if all then EachScalar.Bool else EachScalar.Int) }
{
    if all { Scalar::Bool } else { Scalar::Int }
}

/// What is left of a matrix: its scalar where no dimension is left.
pub fn left_type(dims: u64, of: Scalar) -> ValueType
    ensures { result ≡ types.left_type dims of }
{
    if dims == 0 {
        return of_scalar(of);
    }
    ValueType::Matrix { dims, of }
}

/// Whether all types are integer.
pub fn all_integer(parts: &[ValueType]) -> bool
    ensures { result ≡ list_all types.is_integer parts.now }
{
    parts.iter().all(|ty| is_integer(*ty))
}

/// Whether all types are Boolean.
pub fn all_boolean(parts: &[ValueType]) -> bool
    ensures { result ≡ list_all types.is_boolean parts.now }
{
    parts.iter().all(|ty| is_boolean(*ty))
}

/// Whether all types are those of matrices.
pub fn all_matrix(parts: &[ValueType]) -> bool
    ensures { result ≡ list_all types.is_matrix parts.now }
{
    parts.iter().all(|ty| is_matrix(*ty))
}

/// Whether all types are those of matrices of Booleans.
pub fn all_matrix_of_bool(parts: &[ValueType]) -> bool
    ensures { result ≡ list_all types.is_matrix_of_bool parts.now }
{
    parts.iter().all(|ty| is_matrix_of_bool(*ty))
}

/// Whether all types are those of matrices of so many dimensions.
pub fn all_have_dimensions(count: u64, parts: &[ValueType]) -> bool
    ensures { result ≡ list_all (types.has_dimensions count) parts.now }
{
    parts.iter().all(|ty| has_dimensions(count, *ty))
}

/// The dimensions of a matrix.
#[tactic(auto, unfolding(ep_tree::specs::Types::stated_dimensions))]
fn dimensions(ty: ValueType) -> Option<u64>
    ensures { result ≡ types.stated_dimensions (ty ∷ []) }
{
    match ty {
        ValueType::Matrix { dims, .. } => Some(dims),
        ValueType::Bool => None,
        ValueType::Int => None,
        ValueType::Empty => None,
    }
}

/// The dimensions that the first matrix among some types states.
pub fn stated_dimensions(parts: &[ValueType]) -> Option<u64>
    ensures { result ≡ types.stated_dimensions parts.now }
{
    for part in parts {
        match dimensions(*part) {
            Some(dims) => return Some(dims),
            None => {}
        }
    }
    None
}
