//! The types of nodes by those of their parts.

ghost use Rattle.std.specs.Prelude.{◌≡◌, ◌&&◌, ◌||◌, ◌+◌, ◌-◌, ◌≤◌, ◌∷◌, [], length, nat_le, nat_lt, not};
ghost use Rattle.std.specs.List.{list_all};
ghost use Rattle.ep_tree.specs.Faults.{entry_count, has_open_range, is_power, leaves_matrix, open_domain};
ghost use Rattle.ep_tree.specs.Types as types;
ghost use Rattle.ep_tree.specs.Types.{typed};
ghost use Rattle.ep_tree.specs.Trees.{Ranges, span_and};
ghost use Rattle.ep_tree.specs.Views.{end_of, indices_of, ranges_of, with_range};
ghost use Rattle.ep_tree.specs.declared.values.Scalar.{Scalar};
ghost use Rattle.ep_tree.specs.declared.values.ValueType.{ValueType};
ghost use Rattle.ep_types_rules.specs.Concluding.{SaysOfCheck, conclude, quantified_over, unless_fault};

use crate::errors::StaticError;
use crate::types::{
    all_boolean, all_have_dimensions, all_integer, all_matrix, all_matrix_of_bool, bool_if,
    both_scalars, has_dimensions, is_boolean, is_integer, is_matrix, is_matrix_of_bool, left_type,
    of_scalar, stated_dimensions,
};
use ep_base::Place;
use ep_tree::{BinaryOp, Expr, FoldOp, QuantOp, Range, Scalar, ValueType};

/// A type where a condition holds; else the node is ill typed.
#[tactic(auto, using(crate::proofs::Said::ill_typed_says), unfolding(ep_tree::specs::Types::gives))]
pub fn gives(place: Place, ty: ValueType, holds: bool) -> Result<ValueType, StaticError>
    ensures { SaysOfCheck (λ t. t) result (conclude place (types.gives ty holds)) }
{
    if holds {
        Ok(ty)
    } else {
        Err(StaticError::IllTyped(place))
    }
}

/// Whether an operator is `**`.
#[tactic(auto, unfolding(ep_tree::specs::Faults::is_power))]
pub fn is_power(op: BinaryOp) -> bool
    ensures { result ≡ is_power op }
{
    match op {
        BinaryOp::Pow => true,
        _ => false,
    }
}

/// Two parts with an operator between them.
#[tactic(auto, unfolding(ep_tree::specs::Types::binary_type))]
pub fn binary(
    place: Place,
    op: BinaryOp,
    one: ValueType,
    other: ValueType,
) -> Result<ValueType, StaticError>
    ensures { SaysOfCheck (λ t. t) result (conclude place (types.binary_type op one other)) }
{
    match op {
        BinaryOp::Implies | BinaryOp::Iff => {
            gives(place, ValueType::Bool, is_boolean(one) && is_boolean(other))
        }
        _ => gives(place, ValueType::Int, is_integer(one) && is_integer(other)),
    }
}

/// Whether two types are integer.
pub fn are_integer(one: ValueType, other: ValueType) -> bool
    ensures { result ≡ (types.is_integer one && types.is_integer other) }
{
    is_integer(one) && is_integer(other)
}

/// A Boolean node of two integers.
pub fn both_integer(
    place: Place,
    one: ValueType,
    other: ValueType,
) -> Result<ValueType, StaticError>
    ensures { SaysOfCheck (λ t. t) result
        (conclude place (types.gives ValueType.Bool (types.is_integer one && types.is_integer other))) }
{
    gives(place, ValueType::Bool, is_integer(one) && is_integer(other))
}

/// Whether two types are those of lists.
#[tactic(auto, unfolding(ep_tree::specs::Types::are_lists))]
pub fn are_lists(one: ValueType, other: ValueType) -> bool
    ensures { result ≡ types.are_lists one other }
{
    has_dimensions(1, one) && has_dimensions(1, other)
}

/// A matrix folded into a number.
#[tactic(auto, unfolding(ep_tree::specs::Types::folded_type))]
pub fn folded(place: Place, op: FoldOp, ty: ValueType) -> Result<ValueType, StaticError>
    ensures { SaysOfCheck (λ t. t) result (conclude place (types.folded_type op ty)) }
{
    match op {
        FoldOp::And | FoldOp::Or => gives(place, ValueType::Bool, is_matrix_of_bool(ty)),
        _ => gives(place, ValueType::Int, is_matrix(ty)),
    }
}

/// `gcc`, `atleast` and `atmost`.
pub fn counting(
    place: Place,
    one: ValueType,
    other: ValueType,
    third: ValueType,
) -> Result<ValueType, StaticError>
    ensures { SaysOfCheck (λ t. t) result (conclude place
        (types.gives ValueType.Bool (types.is_matrix one && types.are_lists other third))) }
{
    gives(
        place,
        ValueType::Bool,
        is_matrix(one) && are_lists(other, third),
    )
}

/// A quantifier over domains that are scalar or aren't.
#[tactic(auto, using(crate::proofs::Said::ill_typed_says), unfolding(ep_tree::specs::Types::quantified_type))]
pub fn quantified(
    place: Place,
    op: QuantOp,
    scalar: bool,
    ty: ValueType,
) -> Result<ValueType, StaticError>
    ensures { SaysOfCheck (λ t. t) result
        (conclude place (quantified_over scalar (types.quantified_type op [] ty))) }
{
    if !scalar {
        return Err(StaticError::IllTyped(place));
    }
    match op {
        QuantOp::Sum => gives(place, ValueType::Int, is_integer(ty)),
        QuantOp::ForAll | QuantOp::Exists => gives(place, ValueType::Bool, is_boolean(ty)),
    }
}

/// A set operation on two domains.
pub fn set(place: Place, one: ValueType, other: ValueType) -> Result<ValueType, StaticError>
    ensures { SaysOfCheck (λ t. t) result (conclude place
        (types.gives (types.of_scalar (types.both_scalars (types.scalar_of one) (types.scalar_of other)))
        (types.is_integer one && types.is_integer other))) }
{
    let of = both_scalars(one.scalar(), other.scalar());
    gives(place, of_scalar(of), is_integer(one) && is_integer(other))
}

/// A list, where the domain of its indices is scalar or isn't.
pub fn list(place: Place, parts: &[ValueType], scalar: bool) -> Result<ValueType, StaticError>
    ensures { SaysOfCheck (λ t. t) result
        (conclude place (quantified_over scalar (types.list_type parts.now))) }
{
    if !scalar {
        return Err(StaticError::IllTyped(place));
    }
    if parts.is_empty() {
        return Ok(ValueType::Empty);
    }
    if all_integer(parts) {
        return Ok(ValueType::Matrix {
            dims: 1,
            of: bool_if(all_boolean(parts)),
        });
    }
    if !all_matrix(parts) {
        return Err(StaticError::IllTyped(place));
    }
    list_of_matrices(place, parts, stated_dimensions(parts))
}

/// A list of matrices, of which the first that says so has so many dimensions.
#[tactic(auto, using(crate::proofs::Said::memory_says), unfolding(ep_tree::specs::Types::list_of_matrices))]
fn list_of_matrices(
    place: Place,
    parts: &[ValueType],
    stated: Option<u64>,
) -> Result<ValueType, StaticError>
    ensures { SaysOfCheck (λ t. t) result (conclude place (types.list_of_matrices parts.now stated)) }
{
    match stated {
        None => Ok(ValueType::Matrix {
            dims: 2,
            of: Scalar::Bool,
        }),
        Some(dims) => match dims.checked_add(1) {
            None => Err(StaticError::Memory),
            Some(more) => {
                let of = bool_if(all_matrix_of_bool(parts));
                gives(
                    place,
                    ValueType::Matrix { dims: more, of },
                    all_have_dimensions(dims, parts),
                )
            }
        },
    }
}

/// A read of a matrix by indices of these types and so many `..`.
#[tactic(auto, using(crate::proofs::Said::ill_typed_says), unfolding(ep_tree::specs::Types::read_type))]
pub fn read(
    place: Place,
    ty: ValueType,
    indices: &[ValueType],
    slices: u64,
) -> Result<ValueType, StaticError>
    ensures { SaysOfCheck (λ t. t) result (conclude place (types.read_type ty indices.now slices)) }
{
    match ty {
        ValueType::Matrix { dims, of } => read_matrix(place, dims, of, indices, slices),
        ValueType::Bool => Err(StaticError::IllTyped(place)),
        ValueType::Int => Err(StaticError::IllTyped(place)),
        ValueType::Empty => Err(StaticError::IllTyped(place)),
    }
}

/// A read of a matrix of so many dimensions.
fn read_matrix(
    place: Place,
    dims: u64,
    of: Scalar,
    indices: &[ValueType],
    slices: u64,
) -> Result<ValueType, StaticError>
    ensures { SaysOfCheck (λ t. t) result (conclude place (types.gives
        (types.left_type (dims - length indices.now) of)
        (list_all types.is_integer indices.now && nat_le (length indices.now + slices) dims))) }
{
    let stated = indices.len() as u64;
    if stated > dims {
        return Err(StaticError::IllTyped(place));
    }
    let others = dims - stated;
    if slices > others {
        return Err(StaticError::IllTyped(place));
    }
    gives(place, left_type(others, of), all_integer(indices))
}

/// Whether domains of these types may be the index domains of a matrix.
#[tactic(auto, unfolding(ep_tree::specs::Types::can_index))]
fn can_index(indices: &[ValueType]) -> bool
    ensures { result ≡ types.can_index indices.now }
{
    if indices.is_empty() {
        return false;
    }
    all_integer(indices)
}

/// A matrix domain with index domains of these types.
#[tactic(auto, unfolding(ep_tree::specs::Types::matrix_type, ep_tree::specs::Types::scalar_of))]
pub fn matrix(
    place: Place,
    indices: &[ValueType],
    element: ValueType,
) -> Result<ValueType, StaticError>
    ensures { SaysOfCheck (λ t. t) result (conclude place (types.matrix_type indices.now element)) }
{
    match element {
        ValueType::Matrix { dims, of } => matrix_of(place, indices, dims, of),
        ValueType::Bool => matrix_of(place, indices, 0, Scalar::Bool),
        ValueType::Int => matrix_of(place, indices, 0, Scalar::Int),
        ValueType::Empty => matrix_of(place, indices, 0, Scalar::Bool),
    }
}

/// A matrix domain whose elements have so many dimensions.
fn matrix_of(
    place: Place,
    indices: &[ValueType],
    inner: u64,
    of: Scalar,
) -> Result<ValueType, StaticError>
    ensures { SaysOfCheck (λ t. t) result (conclude place (types.gives
        (ValueType.Matrix (length indices.now + inner) of) (types.can_index indices.now))) }
{
    let own = indices.len() as u64;
    match own.checked_add(inner) {
        None => Err(StaticError::Memory),
        Some(dims) => gives(place, ValueType::Matrix { dims, of }, can_index(indices)),
    }
}

/// One for `..`, and else nothing.
#[tactic(auto, unfolding(ep_tree::specs::Types::slice_count, ep_tree::specs::Views::indices_of))]
fn count_one(index: &Option<Expr>) -> u64
    ensures count { result ≡ types.slice_count (indices_of (index.now ∷ [])) }
    ensures within { result ≤ 1 }
{
    match index {
        None => 1,
        Some(_) => 0,
    }
}

/// How many indices of a read are `..`.
pub fn count_slices(indices: &[Option<Expr>]) -> u64
    ensures count { result ≡ types.slice_count (indices_of indices.now) }
    ensures within { result ≤ length indices.now }
{
    let mut count = 0;
    for index in indices {
        let one = count_one(index);
        count += one;
    }
    count
}

/// Whether so many entries, of which so many are `..`, leave some of so many dimensions.
fn leaves_some(entries: u64, slices: u64, dims: u64) -> bool
    requires { slices ≤ entries }
    ensures { result ≡ (nat_le entries dims && nat_lt entries (dims + slices)) }
{
    if entries > dims {
        return false;
    }
    entries - slices < dims
}

/// Whether a read with these entries would leave a matrix.
#[tactic(auto, using(crate::proofs::RuleSteps::entries), unfolding(ep_tree::specs::Faults::leaves_matrix))]
pub fn leaves_matrix(ty: ValueType, indices: &[Option<Expr>]) -> bool
    ensures { result ≡ leaves_matrix (typed ty) (entry_count (indices_of indices.now))
        (types.slice_count (indices_of indices.now)) }
{
    match ty {
        ValueType::Matrix { dims, .. } => {
            leaves_some(indices.len() as u64, count_slices(indices), dims)
        }
        ValueType::Bool => false,
        ValueType::Int => false,
        ValueType::Empty => false,
    }
}

/// Whether a range has an end that is left out.
fn is_open(range: &Range) -> bool
    ensures { (rs : Ranges) → has_open_range (with_range range.now rs)
        ≡ (result || has_open_range rs) }
{
    match range {
        Range::One(_) => false,
        Range::Span(low, high) => lacks_end(low, high),
    }
}

/// Whether an end is left out.
fn lacks_end(low: &Option<Expr>, high: &Option<Expr>) -> bool
    ensures { (rs : Ranges) → has_open_range (span_and (end_of low.now) (end_of high.now) rs)
        ≡ (result || has_open_range rs) }
{
    !both(low.is_some(), high.is_some())
}

/// Whether one of some ranges has an end that is left out.
pub fn has_open_range(ranges: &[Range]) -> bool
    ensures { result ≡ has_open_range (ranges_of ranges.now) }
{
    for range in ranges {
        if is_open(range) {
            return true;
        }
    }
    false
}

/// A comprehension over domains that are scalar or aren't, with conditions of these types.
pub fn comprehension(
    place: Place,
    index: bool,
    scalar: bool,
    conditions: &[ValueType],
    ty: ValueType,
) -> Result<ValueType, StaticError>
    ensures { SaysOfCheck (λ t. t) result (conclude place (quantified_over
        (index && scalar && list_all types.is_boolean conditions.now) (types.list_type (ty ∷ [])))) }
{
    let holds = both(both(index, scalar), all_boolean(conditions));
    list(place, &[ty], holds)
}

/// Whether both hold.
pub fn both(one: bool, other: bool) -> bool
    ensures { result ≡ (one && other) }
{
    one && other
}

/// The list of all parts of a matrix.
#[tactic(auto, unfolding(ep_tree::specs::Types::gives))]
pub fn flattened(place: Place, ty: ValueType) -> Result<ValueType, StaticError>
    ensures { SaysOfCheck (λ t. t) result (conclude place
        (types.gives (ValueType.Matrix 1 (types.scalar_of ty)) (types.is_matrix ty))) }
{
    let of = ty.scalar();
    gives(place, ValueType::Matrix { dims: 1, of }, is_matrix(ty))
}

/// Whether a decision variable's name may stand in the indices of a read of this type.
pub fn may_decide_indices(decisions: bool, ty: ValueType, indices: &[Option<Expr>]) -> bool
    ensures { result ≡ (decisions && not (leaves_matrix (typed ty) (entry_count (indices_of indices.now))
        (types.slice_count (indices_of indices.now)))) }
{
    both(decisions, !leaves_matrix(ty, indices))
}

/// Whether these ranges may stand where open ones may or may not.
pub fn may_have_ranges(may_open: bool, ranges: &[Range]) -> bool
    ensures { result ≡ (may_open || not (has_open_range (ranges_of ranges.now))) }
{
    may_open || !has_open_range(ranges)
}

/// A range may be open, or none is; else the domain is at fault.
#[tactic(auto, using(crate::proofs::Said::open_domain_says))]
pub fn check_open(place: Place, holds: bool) -> Result<(), StaticError>
    ensures { SaysOfCheck (λ _. tt) result (unless_fault holds (open_domain place)) }
{
    if holds {
        return Ok(());
    }
    Err(StaticError::OpenDomain(place))
}
