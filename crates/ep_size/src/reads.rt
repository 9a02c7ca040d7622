//! Reads of matrices.

ghost use Rattle.std.specs.Prelude.{◌≡◌, ◌&&◌, not, IfErr, IfOk, IfSome, flat_map, map, true};
ghost use Rattle.ep_base.specs.declared.places.Place.{Place};
ghost use Rattle.ep_tree.specs.Environments as names;
ghost use Rattle.ep_tree.specs.Evaluation.{type_in};
ghost use Rattle.ep_tree.specs.Reach as defined;
ghost use Rattle.ep_tree.specs.Reach.{decisions_in, holds_decision, is_decision_name, measured_list, parts_left};
ghost use Rattle.ep_tree.specs.Trees.{ExprTree, Indices, read};
ghost use Rattle.ep_tree.specs.Types.{of_scalar};
ghost use Rattle.ep_tree.specs.Values.{filled, scalars_of, single};
ghost use Rattle.ep_tree.specs.declared.values.Mode.{Mode as EachMode};
ghost use Rattle.ep_eval.specs.Helds.{held_value};
ghost use Rattle.ep_size.specs.Extents.{IsKnownExtent, fixed_grid, grid_of, plain_span};
ghost use Rattle.ep_size.specs.Finishing.{Finishes};
ghost use Rattle.ep_size.specs.Hulls.{Hulls};
ghost use Rattle.ep_size.specs.Indices.{measured_of};
ghost use Rattle.ep_size.specs.declared.errors.SizeError.TheVariants as error;

use super::errors::SizeError;
use super::extents::{Extent, Span, fixed_number, undefined_number};
use super::hulls::{Hulled, read_weight};
use super::nodes::number_node;
use super::picked::known_left;
use super::reading::{Indexed, cells_left, index_widths, one_decided};
use super::remaining::value_left;
use super::slices::slice_node;
use ep_base::Runs;
use ep_eval::Held;
use ep_tree::{Scalar, ValueType};
use std::alloc::Global;

/// What indices leave of a number: nothing, where there is one.
fn number_left(span: Span, indices: &[Indexed]) -> Hulled
    ensures { Hulls result (flat_map scalars_of (parts_left (map measured_of indices.now) (single (plain_span span)))) }
{
    match indices.split_first() {
        Some(_) => Hulled::new(),
        None => Hulled::repeated(span, 1),
    }
}

/// The cells that indices leave of those of a decision variable.
fn some_cells(span: Span, domains: &[Runs], indices: &[Indexed]) -> Hulled
    ensures { Hulls result (flat_map scalars_of (parts_left (map measured_of indices.now) (filled (plain_span span) domains.now))) }
{
    Hulled::repeated(span, cells_left(indices, domains))
}

/// The numbers that indices leave of a value that is held.
fn held_left(alloc: Global, held: &Held, indices: &[Indexed]) -> Result<Hulled, SizeError>
    ensures left { IfOk result (λ left. Hulls left (flat_map scalars_of (parts_left (map measured_of indices.now) (fixed_grid (held_value held.now))))) }
    ensures memory { IfErr result (λ e. e ≡ error.Memory) }
{
    match held {
        Held::Number(number) => Ok(number_left(fixed_number(*number), indices)),
        Held::Lent(value) => value_left(alloc, value, indices),
        Held::Made(value) => value_left(alloc, value, indices),
    }
}

/// The scalars that indices leave of a value of which this is known.
fn left_of(alloc: Global, known: &Extent, indices: &[Indexed]) -> Result<Hulled, SizeError>
    ensures left { IfOk result (λ left. Hulls left (flat_map scalars_of (parts_left (map measured_of indices.now) (grid_of known.now)))) }
    ensures memory { IfErr result (λ e. e ≡ error.Memory) }
{
    match known {
        Extent::Number(span) => Ok(number_left(*span, indices)),
        Extent::Cells(span, domains) => Ok(some_cells(*span, domains, indices)),
        Extent::Nothing => Ok(number_left(undefined_number(), indices)),
        Extent::NoParts => Ok(Hulled::new()),
        Extent::Fixed(held) => held_left(alloc, held, indices),
        Extent::Matrix(_, _) => known_left(alloc, known, indices),
    }
}

/// Whether a read of a decision variable's name, or of something else, gives a cell.
fn gives_cell(of_name: bool, decided: bool) -> bool
    ensures { result ≡ (of_name && not decided) }
{
    of_name && !decided
}

/// A read that gives a scalar, by the scalars that are left.
fn scalar_node<'a>(
    total: &mut u64,
    scalar: Scalar,
    of_name: bool,
    left: Hulled,
    indices: &[Indexed],
) -> Result<Extent<'a>, SizeError>
    ensures { (mode : EachMode) → (env : names.Env) → (p : Place) → (m : ExprTree) → (is : Indices)
        → holds_decision (decisions_in env) (read p m is) ≡ true
        → map measured_of indices.now ≡ measured_list mode env is
        → of_scalar scalar ≡ type_in env (read p m is)
        → of_name ≡ is_decision_name env m
        → Hulls left (flat_map scalars_of (parts_left (map measured_of indices.now) (defined.extent mode env m)))
        → Finishes mode env (read p m is) total.old total.new result }
{
    let decided = one_decided(indices);
    let of_cell = gives_cell(of_name, decided);
    match left.span(of_cell, scalar) {
        Ok(own) => {
            let weight = read_weight(decided, index_widths(indices), own, left.count());
            number_node(total, weight, Ok(own))
        }
        Err(refused) => Err(refused),
    }
}

/// The scalar of a type that is one.
#[tactic(auto, unfolding(ep_tree::specs::Types::of_scalar))]
fn scalar_in(ty: ValueType) -> Option<Scalar>
    ensures { IfSome result (λ s. of_scalar s ≡ ty) }
{
    match ty {
        ValueType::Bool => Some(Scalar::Bool),
        ValueType::Int => Some(Scalar::Int),
        ValueType::Matrix { .. } => None,
        ValueType::Empty => None,
    }
}

/// A read of a matrix of which this is known, by these indices.
pub fn read_node<'a>(
    alloc: Global,
    total: &mut u64,
    ty: ValueType,
    of_name: bool,
    known: &Extent<'a>,
    indices: &[Indexed],
) -> Result<Extent<'a>, SizeError>
    ensures { (mode : EachMode) → (env : names.Env) → (p : Place) → (m : ExprTree) → (is : Indices)
        → holds_decision (decisions_in env) (read p m is) ≡ true
        → IsKnownExtent mode env m known.now
        → map measured_of indices.now ≡ measured_list mode env is
        → ty ≡ type_in env (read p m is)
        → of_name ≡ is_decision_name env m
        → Finishes mode env (read p m is) total.old total.new result }
{
    match scalar_in(ty) {
        Some(scalar) => match left_of(alloc, known, indices) {
            Ok(left) => scalar_node(total, scalar, of_name, left, indices),
            Err(_) => Err(SizeError::Memory),
        },
        None => slice_node(alloc, known, ty, indices),
    }
}
