//! The types of forms by those of their parts.

ghost use Rattle.std.specs.Prelude.{◌≡◌, ℕ, Bool, suc, Some, ◌++◌, ◌+◌, ◌-◌, ◌&&◌, ◌∷◌, [], IfOk, length, option_map};
ghost use Rattle.ep_base.specs.Options.{map_both};
ghost use Rattle.ep_tree.specs.Types as types;
ghost use Rattle.ep_tree.specs.Types.{slice_count, type_from};
ghost use Rattle.ep_tree.specs.Views.{indices_of};
ghost use Rattle.ep_tree.specs.declared.values.ValueType.{ValueType as EachType};
ghost use Rattle.ep_eval.specs.Judging.{flattened, fold_part, fold_type, join_part, join_type, list_of, matrix_over, name_scalar, passes, quantified_part, type_of_quantifier, read_of, set_of_both, type_if};
ghost use Rattle.ep_eval.specs.declared.rules.Wanted.{Wanted};

use ep_base::Memory;
use ep_tree::{BinaryOp, Expr, FoldOp, QuantOp, Scalar, ValueType};
use ep_types_rules::{
    all_boolean, all_have_dimensions, all_integer, all_matrix, all_matrix_of_bool, bool_if,
    both_scalars, count_slices, has_dimensions, is_boolean, is_integer, is_matrix,
    is_matrix_of_bool, left_type, of_scalar, stated_dimensions,
};
use std::alloc::AllocError;

/// Which types a part may have.
#[derive(Clone, Copy)]
pub enum Wanted {
    /// Integer, which Boolean is too.
    Integer,
    /// Boolean.
    Boolean,
    /// A matrix.
    Matrix,
    /// A matrix of Booleans.
    Booleans,
    /// A matrix of one dimension.
    List,
    /// A matrix of two dimensions.
    Rows,
}

/// Whether a type is one that is wanted.
#[tactic(auto, unfolding(crate::specs::Judging::passes))]
fn passes(wanted: Wanted, ty: ValueType) -> bool
    ensures { result ≡ passes wanted ty }
{
    match wanted {
        Wanted::Integer => is_integer(ty),
        Wanted::Boolean => is_boolean(ty),
        Wanted::Matrix => is_matrix(ty),
        Wanted::Booleans => is_matrix_of_bool(ty),
        Wanted::List => has_dimensions(1, ty),
        Wanted::Rows => has_dimensions(2, ty),
    }
}

/// Whether a type, where there is one, is one that is wanted.
pub fn passing(wanted: Wanted, ty: Option<ValueType>) -> Option<bool>
    ensures { result ≡ option_map (passes wanted) ty }
{
    match ty {
        Some(ty) => Some(passes(wanted, ty)),
        None => None,
    }
}

/// Whether two conditions hold, where both are told.
#[tactic(auto, unfolding(ep_base::specs::Options::map_both))]
pub fn both(one: Option<bool>, other: Option<bool>) -> Option<bool>
    ensures { result ≡ map_both (λ a b. a && b) one other }
{
    let Some(first) = one else {
        return None;
    };
    let Some(second) = other else {
        return None;
    };
    Some(first && second)
}

/// A type, where a condition is told and holds.
#[tactic(auto, unfolding(crate::specs::Judging::type_if))]
pub fn type_if(ty: ValueType, holds: Option<bool>) -> Option<ValueType>
    ensures { result ≡ type_if ty holds }
{
    let Some(told) = holds else {
        return None;
    };
    if told {
        return Some(ty);
    }
    None
}

/// The type of a read of a matrix of so many dimensions.
fn read_matrix(dims: u64, of: Scalar, integer: bool, stated: u64, slices: u64) -> Option<ValueType>
    ensures { result ≡ read_of (Some (EachType.Matrix dims of)) (Some integer) stated slices }
{
    if stated > dims {
        return None;
    }
    let others = dims - stated;
    if slices > others {
        return None;
    }
    type_if(left_type(others, of), Some(integer))
}

/// The type of a read of what is of this type.
#[tactic(auto, unfolding(crate::specs::Judging::read_of))]
fn read_told(ty: ValueType, integer: bool, stated: u64, slices: u64) -> Option<ValueType>
    ensures { result ≡ read_of (Some ty) (Some integer) stated slices }
{
    match ty {
        ValueType::Matrix { dims, of } => read_matrix(dims, of, integer, stated, slices),
        ValueType::Bool => None,
        ValueType::Int => None,
        ValueType::Empty => None,
    }
}

/// The type of a read, where the matrix and all stated indices have one.
#[tactic(auto, using(crate::proofs::JudgingForms::read_none), unfolding(crate::specs::Judging::read_of))]
fn read_type(
    ty: Option<ValueType>,
    integer: Option<bool>,
    stated: u64,
    slices: u64,
) -> Option<ValueType>
    ensures { result ≡ read_of ty integer stated slices }
{
    let Some(own) = ty else {
        return None;
    };
    let Some(told) = integer else {
        return None;
    };
    read_told(own, told, stated, slices)
}

/// The type of a read by some indices.
pub fn read_by(
    ty: Option<ValueType>,
    integer: Option<bool>,
    indices: &[Option<Expr>],
) -> Option<ValueType>
    ensures { result ≡ read_of ty integer (length indices.now - slice_count (indices_of indices.now))
        (slice_count (indices_of indices.now)) }
{
    let slices = count_slices(indices);
    read_type(ty, integer, indices.len() as u64 - slices, slices)
}

/// What the parts of an operator have to be.
#[tactic(auto, unfolding(crate::specs::Judging::join_part))]
pub fn join_part(op: BinaryOp) -> Wanted
    ensures { result ≡ join_part op }
{
    match op {
        BinaryOp::Implies | BinaryOp::Iff => Wanted::Boolean,
        _ => Wanted::Integer,
    }
}

/// The type of what an operator gives.
#[tactic(auto, unfolding(crate::specs::Judging::join_type))]
pub fn join_type(op: BinaryOp) -> ValueType
    ensures { result ≡ join_type op }
{
    match op {
        BinaryOp::Implies | BinaryOp::Iff => ValueType::Bool,
        _ => ValueType::Int,
    }
}

/// What a matrix that is folded has to be.
#[tactic(auto, unfolding(crate::specs::Judging::fold_part))]
pub fn fold_part(op: FoldOp) -> Wanted
    ensures { result ≡ fold_part op }
{
    match op {
        FoldOp::And | FoldOp::Or => Wanted::Booleans,
        _ => Wanted::Matrix,
    }
}

/// The type of a matrix folded.
#[tactic(auto, unfolding(crate::specs::Judging::fold_type))]
pub fn fold_type(op: FoldOp) -> ValueType
    ensures { result ≡ fold_type op }
{
    match op {
        FoldOp::And | FoldOp::Or => ValueType::Bool,
        _ => ValueType::Int,
    }
}

/// The type of the list of a matrix's parts.
#[tactic(auto, unfolding(crate::specs::Judging::flattened))]
pub fn flattened(ty: Option<ValueType>) -> Option<ValueType>
    ensures { result ≡ flattened ty }
{
    let Some(whole) = ty else {
        return None;
    };
    let list = ValueType::Matrix {
        dims: 1,
        of: whole.scalar(),
    };
    type_if(list, Some(is_matrix(whole)))
}

/// The type of a set operation's values.
#[tactic(auto, unfolding(crate::specs::Judging::set_of_both))]
pub fn set_of_both(one: Option<ValueType>, other: Option<ValueType>) -> Option<ValueType>
    ensures { result ≡ set_of_both one other }
{
    let Some(first) = one else {
        return None;
    };
    let Some(second) = other else {
        return None;
    };
    let of = both_scalars(first.scalar(), second.scalar());
    type_if(of_scalar(of), Some(is_integer(first) && is_integer(second)))
}

/// The dimensions and the scalar of the elements of a matrix domain.
#[tactic(auto, unfolding(crate::specs::Judging::matrix_over))]
fn element_shape(ty: ValueType) -> (u64, Scalar)
    ensures { (scalar : Bool) → (more : ℕ)
        → type_if (EachType.Matrix (result.0 + suc more) result.1) (Some scalar) ≡ matrix_over (Some ty) (Some scalar) (suc more) }
{
    match ty {
        ValueType::Matrix { dims, of } => (dims, of),
        ValueType::Bool => (0, Scalar::Bool),
        ValueType::Int => (0, Scalar::Int),
        ValueType::Empty => (0, Scalar::Bool),
    }
}

/// The type of a matrix domain with so many index domains.
#[tactic(auto, using(crate::proofs::DomainTypes::matrix_none, crate::proofs::DomainTypes::matrix_of_none, crate::proofs::DomainTypes::matrix_of_some), unfolding(crate::specs::Judging::matrix_over))]
pub fn matrix_over(
    element: Option<ValueType>,
    scalar: Option<bool>,
    count: usize,
) -> Result<Option<ValueType>, Memory>
    ensures { IfOk result (λ ty. ty ≡ matrix_over element scalar count) }
{
    let Some(own) = element else {
        return Ok(None);
    };
    let Some(told) = scalar else {
        return Ok(None);
    };
    if count == 0 {
        return Ok(None);
    }
    let (inner, of) = element_shape(own);
    match inner.checked_add(count as u64) {
        Some(dims) => Ok(type_if(ValueType::Matrix { dims, of }, Some(told))),
        None => Err(Memory),
    }
}

/// The type of a list of matrices, of which the first that says so has so many dimensions.
#[tactic(auto, unfolding(ep_tree::specs::Types::list_of_matrices, ep_tree::specs::Types::type_from))]
fn list_of_matrices(parts: &[ValueType], stated: Option<u64>) -> Result<Option<ValueType>, Memory>
    ensures { IfOk result (λ ty. ty ≡ type_from (types.list_of_matrices parts.now stated)) }
{
    match stated {
        None => Ok(Some(ValueType::Matrix {
            dims: 2,
            of: Scalar::Bool,
        })),
        Some(dims) => match dims.checked_add(1) {
            None => Err(Memory),
            Some(more) => {
                let of = bool_if(all_matrix_of_bool(parts));
                let list = ValueType::Matrix { dims: more, of };
                Ok(type_if(list, Some(all_have_dimensions(dims, parts))))
            }
        },
    }
}

/// The type of a list with parts of these types.
fn list_type(parts: &[ValueType]) -> Result<Option<ValueType>, Memory>
    ensures { IfOk result (λ ty. ty ≡ type_from (types.list_type parts.now)) }
{
    if parts.is_empty() {
        return Ok(Some(ValueType::Empty));
    }
    if all_integer(parts) {
        return Ok(Some(ValueType::Matrix {
            dims: 1,
            of: bool_if(all_boolean(parts)),
        }));
    }
    if !all_matrix(parts) {
        return Ok(None);
    }
    list_of_matrices(parts, stated_dimensions(parts))
}

/// The type of a list with parts of these types, where its index domain is scalar.
#[tactic(auto, unfolding(crate::specs::Judging::list_of))]
pub fn list_of(
    parts: &Option<Vec<ValueType>>,
    scalar: Option<bool>,
) -> Result<Option<ValueType>, Memory>
    ensures { IfOk result (λ ty. ty ≡ list_of (option_map (λ v. v.items) parts.now) scalar) }
{
    let Some(own) = parts else {
        return Ok(None);
    };
    let Some(told) = scalar else {
        return Ok(None);
    };
    if !told {
        return Ok(None);
    }
    let ty = list_type(own)?;
    Ok(ty)
}

/// Types and one more, where all are there.
#[tactic(auto, unfolding(ep_base::specs::Options::map_both))]
pub fn with_type(
    types: Option<Vec<ValueType>>,
    ty: Option<ValueType>,
) -> Result<Option<Vec<ValueType>>, AllocError>
    ensures { IfOk result (λ more. option_map (λ v. v.items) more
        ≡ map_both (λ all one. all ++ one ∷ []) (option_map (λ v. v.items) types) ty) }
{
    let Some(mut all) = types else {
        return Ok(None);
    };
    let Some(one) = ty else {
        return Ok(None);
    };
    all.push(one)?;
    Ok(Some(all))
}

/// What the body of a quantifier has to be.
#[tactic(auto, unfolding(crate::specs::Judging::quantified_part))]
pub fn quantified_part(op: QuantOp) -> Wanted
    ensures { result ≡ quantified_part op }
{
    match op {
        QuantOp::ForAll | QuantOp::Exists => Wanted::Boolean,
        QuantOp::Sum => Wanted::Integer,
    }
}

/// The type of a quantifier.
#[tactic(auto, unfolding(crate::specs::Judging::type_of_quantifier))]
pub fn quantified_type(op: QuantOp) -> ValueType
    ensures { result ≡ type_of_quantifier op }
{
    match op {
        QuantOp::ForAll | QuantOp::Exists => ValueType::Bool,
        QuantOp::Sum => ValueType::Int,
    }
}

/// The scalar of a quantified name, where the values of its domain are scalars.
#[tactic(auto, unfolding(crate::specs::Judging::name_scalar))]
pub fn name_scalar(ty: Option<ValueType>) -> Option<Scalar>
    ensures { result ≡ name_scalar ty }
{
    let Some(own) = ty else {
        return None;
    };
    match own {
        ValueType::Bool => Some(Scalar::Bool),
        ValueType::Int => Some(Scalar::Int),
        ValueType::Matrix { .. } => None,
        ValueType::Empty => None,
    }
}
