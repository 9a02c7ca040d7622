//! Reads of cells of decision variables that leave cells.

ghost use Rattle.std.specs.Prelude.{◌≡◌, ◌∷◌, [], List, ℕ, ℤ, IfErr, IfOk, IfSome, Some, false, map, true};
ghost use Rattle.std.specs.List.{list_all, list_any};
ghost use Rattle.ep_base.specs.declared.places.Place.{Place};
ghost use Rattle.ep_tree.specs.Environments as names;
ghost use Rattle.ep_tree.specs.Evaluation.{type_in};
ghost use Rattle.ep_tree.specs.Measures.{number_reach};
ghost use Rattle.ep_tree.specs.Reach.{MeasuredIndex, decisions_in, holds_decision, is_decided_index, measured_list, no_extent, plain_index, slice_extent};
ghost use Rattle.ep_tree.specs.Trees.{ExprTree, Indices, read};
ghost use Rattle.ep_tree.specs.Types.{is_matrix};
ghost use Rattle.ep_tree.specs.Values.{Index, all_defined, any_index, filled, read_value};
ghost use Rattle.ep_tree.specs.declared.values.Mode.{Mode as EachMode};
ghost use Rattle.ep_size.specs.Extents.{IsKnownExtent, grid_of, plain_span};
ghost use Rattle.ep_size.specs.Finishing.{Finishes};
ghost use Rattle.ep_size.specs.Indices.{measured_of};
ghost use Rattle.ep_size.specs.Lists.{TellsExtent};
ghost use Rattle.ep_size.specs.Slices.{IsPart, LeavesDomains, is_told, names_one};
ghost use Rattle.ep_size.specs.declared.errors.SizeError.TheVariants as error;

use super::errors::SizeError;
use super::extents::{Extent, Span};
use super::parted::parts_apart;
use super::reading::{Indexed, one_decided};
use super::remaining::keeps_all;
use ep_base::Runs;
use ep_eval::{next_number, walk_of};
use ep_tree::ValueType;
use std::alloc::Global;

/// Whether each index is `..`, and there are no more than domains.
fn keeps_each(indices: &[Indexed], domains: &[Runs]) -> bool
    ensures { result ≡ true → LeavesDomains (map measured_of indices.now) domains.now domains.now }
{
    match indices.split_first() {
        Some((index, rest)) => match domains.split_first() {
            Some((_, inner)) => match index {
                Indexed::Every => keeps_each(rest, inner),
                _ => false,
            },
            None => false,
        },
        None => true,
    }
}

/// The first of some index domains, where none is left behind it.
fn first_alone<'a>(domains: &'a [Runs], left: &[Runs]) -> Option<&'a [Runs]>
    ensures { (domain : List ℤ) → (inner : List (List ℤ)) → domains.now ≡ domain ∷ inner → IfSome result (λ l. l.now ≡ domain ∷ left.now) }
{
    match left.split_first() {
        Some(_) => None,
        None => {
            if domains.len() == 0 {
                return None;
            }
            Some(&domains[..1])
        }
    }
}

/// The index domains that an index leaves, by those that others leave of the domains behind.
fn domains_with<'a>(
    index: Indexed,
    domain: &Runs,
    domains: &'a [Runs],
    left: Option<&'a [Runs]>,
) -> Option<&'a [Runs]>
    ensures { (inner : List (List ℤ)) → (is : List MeasuredIndex) → domains.now ≡ domain.now ∷ inner
        → IfSome left.entry (λ l. LeavesDomains is inner l.now) → IfSome result (λ l. LeavesDomains (measured_of index ∷ is) (domain.now ∷ inner) l.now) }
{
    match index {
        Indexed::Stated(number) => match number {
            Some(stated) => {
                if domain.has(stated) {
                    return left;
                }
                None
            }
            None => None,
        },
        Indexed::Every => match left {
            Some(behind) => first_alone(domains, behind),
            None => None,
        },
        Indexed::Decided(_) => None,
    }
}

/// The index domains that are left, where these stand one after another: the last of them, or a single one.
fn domains_left<'a>(indices: &[Indexed], domains: &'a [Runs]) -> Option<&'a [Runs]>
    ensures { IfSome result (λ left. LeavesDomains (map measured_of indices.now) domains.now left.now) }
{
    if keeps_each(indices, domains) {
        return Some(domains);
    }
    match indices.split_first() {
        Some((index, rest)) => match domains.split_first() {
            Some((domain, inner)) => {
                let left = domains_left(rest, inner);
                domains_with(*index, domain, domains, left)
            }
            None => None,
        },
        None => None,
    }
}

/// Whether a type is that of a matrix.
#[tactic(auto, unfolding(ep_tree::specs::Types::is_matrix, ep_tree::specs::Types::is_integer))]
fn is_matrix_type(ty: ValueType) -> bool
    ensures { result ≡ is_matrix ty }
{
    match ty {
        ValueType::Bool => false,
        ValueType::Int => false,
        ValueType::Matrix { .. } => true,
        ValueType::Empty => true,
    }
}

/// Whether each index without a decision variable has a value.
#[tactic(auto, unfolding(crate::specs::Slices::is_told, crate::specs::Indices::measured_of))]
fn is_told(index: Indexed) -> bool
    ensures { result ≡ is_told (measured_of index) }
{
    match index {
        Indexed::Stated(number) => number.is_some(),
        Indexed::Every => true,
        Indexed::Decided(_) => false,
    }
}

/// Whether each of some indices has a value, and none a decision variable.
pub fn are_told(indices: &[Indexed]) -> bool
    ensures { result ≡ list_all is_told (map measured_of indices.now) }
{
    match indices.split_first() {
        Some((index, rest)) => {
            if !is_told(*index) {
                return false;
            }
            are_told(rest)
        }
        None => true,
    }
}

/// Whether an index is a value of an index domain.
#[tactic(auto, unfolding(crate::specs::Slices::names_one, crate::specs::Indices::measured_of))]
fn names_one(index: Indexed, domain: &Runs) -> bool
    ensures { result ≡ names_one (measured_of index) domain.now }
{
    match index {
        Indexed::Stated(number) => match number {
            Some(stated) => domain.has(stated),
            None => false,
        },
        Indexed::Every => false,
        Indexed::Decided(_) => false,
    }
}

/// What indices leave of cells over index domains that don't stand one after another, if that has a value: its parts one by
/// one. Linear in the parts.
#[cycle(parting)]
pub fn cells_part<'a>(
    alloc: Global,
    span: Span,
    domains: &'a [Runs],
    indices: &[Indexed],
) -> Result<Option<Extent<'a>>, SizeError>
    ensures read { IfOk result (λ part. (js : List Index) → all_defined (map plain_index (map measured_of indices.now)) ≡ Some js
        → IsPart part (read_value js (filled (plain_span span) domains.now))) }
    ensures memory { IfErr result (λ e. e ≡ error.Memory) }
{
    if keeps_each(indices, domains) {
        return Ok(Some(Extent::Cells(span, domains)));
    }
    match indices.split_first() {
        Some((index, rest)) => match domains.split_first() {
            Some((domain, inner)) => {
                if keeps_all(*index) {
                    return cells_each(alloc, span, domain, inner, rest);
                }
                if names_one(*index, domain) {
                    return cells_part(alloc, span, inner, rest);
                }
                Ok(None)
            }
            None => Err(SizeError::Memory),
        },
        None => Err(SizeError::Memory),
    }
}

/// The same for each value of an index domain.
#[cycle(parting)]
fn cells_each<'a>(
    alloc: Global,
    span: Span,
    domain: &Runs,
    inner: &'a [Runs],
    rest: &[Indexed],
) -> Result<Option<Extent<'a>>, SizeError>
    ensures read { IfOk result (λ part. (js : List Index) → all_defined (map plain_index (map measured_of rest.now)) ≡ Some js
        → IsPart part (read_value (any_index ∷ js) (filled (plain_span span) (domain.now ∷ inner.now)))) }
    ensures memory { IfErr result (λ e. e ≡ error.Memory) }
{
    let mut numbers = Vec::new(alloc);
    let mut parts = Vec::new(alloc);
    let mut walk = walk_of(domain.runs());
    while let Some((number, behind)) = next_number(walk) {
        let part = cells_part(alloc, span, inner, rest)?;
        match part {
            Some(known) => parts.push(known)?,
            None => return Ok(None),
        }
        numbers.push(number)?;
        walk = behind;
    }
    Ok(Some(Extent::Matrix(numbers, parts)))
}

/// A matrix without parts.
pub fn no_parts<'a>(alloc: Global) -> Extent<'a>
    ensures { TellsExtent result no_extent }
{
    Extent::Matrix(Vec::new(alloc), Vec::new(alloc))
}

/// What is known of a matrix by its parts.
fn by_parts(known: Extent<'_>) -> Result<Extent<'_>, SizeError>
    ensures same { IfOk result (λ x. x ≡ known.entry) }
    ensures none { IfOk result (λ x. number_reach (grid_of x) ≡ []) }
    ensures memory { IfErr result (λ e. e ≡ error.Memory) }
{
    match known {
        Extent::Matrix(indices, parts) => Ok(Extent::Matrix(indices, parts)),
        _ => Err(SizeError::Memory),
    }
}

/// What indices leave of cells over index domains that don't stand one after another; no part where that has no value.
fn cells_apart<'a>(
    alloc: Global,
    span: Span,
    domains: &'a [Runs],
    indices: &[Indexed],
) -> Result<Extent<'a>, SizeError>
    ensures listed { IfOk result (λ x. list_any is_decided_index (map measured_of indices.now) ≡ false
        → TellsExtent x (slice_extent (map measured_of indices.now) (filled (plain_span span) domains.now))) }
    ensures none { IfOk result (λ x. number_reach (grid_of x) ≡ []) }
    ensures memory { IfErr result (λ e. e ≡ error.Memory) }
{
    if !are_told(indices) {
        return Ok(no_parts(alloc));
    }
    let part = cells_part(alloc, span, domains, indices)?;
    match part {
        Some(known) => by_parts(known),
        None => Ok(no_parts(alloc)),
    }
}

/// A read of a matrix of which this is known, by indices that leave a matrix.
pub fn slice_node<'a>(
    alloc: Global,
    known: &Extent<'a>,
    ty: ValueType,
    indices: &[Indexed],
) -> Result<Extent<'a>, SizeError>
    ensures { (mode : EachMode) → (env : names.Env) → (p : Place) → (m : ExprTree) → (is : Indices) → (t : ℕ)
        → holds_decision (decisions_in env) (read p m is) ≡ true
        → IsKnownExtent mode env m known.now
        → map measured_of indices.now ≡ measured_list mode env is
        → ty ≡ type_in env (read p m is)
        → Finishes mode env (read p m is) t t result }
{
    let of_matrix = is_matrix_type(ty);
    let decided = one_decided(indices);
    if !of_matrix || decided {
        return Err(SizeError::Memory);
    }
    match known {
        Extent::Cells(span, domains) => match domains_left(indices, domains) {
            Some(left) => match left.split_first() {
                Some(_) => Ok(Extent::Cells(*span, left)),
                None => Err(SizeError::Memory),
            },
            None => cells_apart(alloc, *span, domains, indices),
        },
        Extent::Matrix(_, _) => parts_apart(alloc, known, indices),
        _ => Err(SizeError::Memory),
    }
}
