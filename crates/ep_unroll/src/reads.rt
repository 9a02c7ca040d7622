//! Reads of decision variables at indices in which no decision variable stands.

ghost use Rattle.std.specs.Prelude.{◌≡◌, ◌∷◌, ℕ, ℤ, true, false, List, Option, Some, IfOk, map, option_map};
ghost use Rattle.std.specs.List.{All};
ghost use Rattle.ep_base.specs.declared.places.Place.{Place};
ghost use Rattle.ep_ground.specs.Nodes.{GroundNode};
ghost use Rattle.ep_tree.specs.Evaluation.{index_list, read_result};
ghost use Rattle.ep_tree.specs.Reach.{decisions_in};
ghost use Rattle.ep_tree.specs.Trees.{named, read};
ghost use Rattle.ep_tree.specs.Values.{ValueTree, any_index, index_in, indices_in, read_value};
ghost use Rattle.ep_tree.specs.Views.{expr_tree, indices_of};
ghost use Rattle.ep_tree.specs.declared.values.Mode.{Mode as EachMode};
ghost use Rattle.ep_tree.specs.declared.values.ValueType.{ValueType as EachType};
ghost use Rattle.ep_eval.specs.Helds.{seen_held};
ghost use Rattle.ep_eval.specs.Scopes.{env_in, mode_in};
ghost use Rattle.ep_unroll.specs.Blocks.{IsWorth, one_index};
ghost use Rattle.ep_unroll.specs.Firsts.{numbering_of};
ghost use Rattle.ep_unroll.specs.Kinds.{IsName};
ghost use Rattle.ep_unroll.specs.Meanings.{AreTerms, Means, worth};
ghost use Rattle.ep_unroll.specs.Picks.{IsFreeIndex};
ghost use Rattle.ep_unroll.specs.Readings.{Numbering, Reading, cells_value};

use super::blocks::{Block, cells_over};
use super::firsts::CellTable;
use super::fixed::fixed_value;
use super::lefts::left_of;
use super::named::block_named;
use super::unrolled::Unrolled;
use ep_base::{Memory, Name, Runs};
use ep_eval::{Held, Scope, next_number, number_of, type_within, walk_of};
use ep_tree::{Expr, Kind, Mode, ValueType};
use std::alloc::Global;

/// The number of an index in which no decision variable stands, or `..`; nothing where it has no number.
fn fixed_index(scope: Scope<'_, '_>, index: &Option<Expr>) -> Result<Option<Option<i64>>, Memory>
    requires { IsFreeIndex (decisions_in (env_in scope)) index.now }
    ensures { IfOk result (λ found. (n : Numbering) → (r : Reading n (env_in scope.entry))
        → one_index (mode_in scope.entry) r.values index.now ≡ option_map index_in found) }
{
    match index {
        Some(stated) => {
            let seen = fixed_value(scope, stated)?;
            match number_of(&seen) {
                Some(number) => Ok(Some(Some(number))),
                None => Ok(None),
            }
        }
        None => Ok(Some(None)),
    }
}

/// The numbers of indices; nothing where one has none.
fn fixed_indices(
    scope: Scope<'_, '_>,
    indices: &[Option<Expr>],
) -> Result<Option<Vec<Option<i64>>>, Memory>
    requires { All (IsFreeIndex (decisions_in (env_in scope))) indices.now }
    ensures { IfOk result (λ found. (n : Numbering) → (r : Reading n (env_in scope.entry))
        → index_list (mode_in scope.entry) r.values (indices_of indices.now) ≡ option_map (λ v. indices_in v.items) found) }
{
    let mut numbers = Vec::new(scope.alloc);
    for index in indices {
        let one = fixed_index(scope, index)?;
        match one {
            Some(number) => numbers.push(number)?,
            None => return Ok(None),
        }
    }
    Ok(Some(numbers))
}

/// Whether each of some indices is `..`.
fn are_every(indices: &[Option<i64>]) -> bool
    ensures { result ≡ true → indices_in indices.now ≡ map (λ i. any_index) indices.now }
{
    match indices.split_first() {
        Some((index, rest)) => match index {
            Some(_) => false,
            None => are_every(rest),
        },
        None => true,
    }
}

/// Whether indices are `..` alone, and leave a block as it is.
pub fn leaves_all(block: Block<'_>, rest: &[Option<i64>]) -> bool
    ensures { result ≡ true → (numbers : List ℤ) → (v : ValueTree) → cells_value numbers block.entry.domains.now block.entry.first ≡ Some v
        → read_value (any_index ∷ indices_in rest.now) v ≡ Some v }
{
    let count = rest.len();
    let dims = block.domains.len();
    if count >= dims {
        return false;
    }
    are_every(rest)
}

/// Cells over index domains as the parts of a matrix: one part for each number of the first index domain.
pub fn cells_opened<'a>(
    alloc: Global,
    first: u64,
    own: &Runs,
    inner: &'a [Runs],
) -> Result<Unrolled<'a>, Memory>
    ensures worth { IfOk result (λ x. (nodes : List GroundNode) → (numbers : List ℤ) → worth nodes numbers x ≡ cells_value numbers (own.now ∷ inner.now) first) }
    ensures terms { IfOk result (λ x. (count : ℕ) → AreTerms count x) }
{
    let each = cells_over(inner)?;
    let mut indices = Vec::new(alloc);
    let mut parts = Vec::new(alloc);
    let mut cell = first;
    let mut walk = walk_of(own.runs());
    while let Some((number, behind)) = next_number(walk) {
        indices.push(number)?;
        parts.push(Unrolled::Cells(cell, inner))?;
        let Some(more) = cell.checked_add(each) else {
            return Err(Memory);
        };
        cell = more;
        walk = behind;
    }
    Ok(Unrolled::Matrix(indices, parts))
}

/// Whether a type is that of truth values.
fn is_truth(ty: ValueType) -> bool
    ensures truth { result ≡ true → ty ≡ EachType.Bool }
    ensures other { result ≡ false → (mode : EachMode) → (o : Option ValueTree) → read_result mode ty o ≡ o }
{
    match ty {
        ValueType::Bool => true,
        ValueType::Int => false,
        ValueType::Matrix { .. } => false,
        ValueType::Empty => false,
    }
}

/// Whether a read that finds nothing is false: one of a truth value in the relational mode.
pub fn is_judged(scope: Scope<'_, '_>, ty: ValueType) -> bool
    ensures truth { result ≡ true → ty ≡ EachType.Bool }
    ensures mode { result ≡ true → mode_in scope.entry ≡ EachMode.Relational }
    ensures other { result ≡ false → (o : Option ValueTree) → read_result (mode_in scope.entry) ty o ≡ o }
{
    match scope.env.mode() {
        Mode::Relational => is_truth(ty),
        Mode::Strict => false,
    }
}

/// Whether a type is that of matrices.
pub fn is_matrix(ty: ValueType) -> bool
    ensures { result ≡ true → (mode : EachMode) → (o : Option ValueTree) → read_result mode ty o ≡ o }
{
    match ty {
        ValueType::Bool => false,
        ValueType::Int => false,
        ValueType::Matrix { .. } => true,
        ValueType::Empty => true,
    }
}

/// A truth value that was read, false where there is none.
fn or_false<'a>(seen: Option<Held<'a>>) -> Option<Held<'a>>
    ensures { seen_held result ≡ read_result EachMode.Relational EachType.Bool (seen_held seen.entry) }
{
    match seen {
        Some(held) => Some(held),
        None => Some(Held::Number(0)),
    }
}

/// What was read, which may be false where there is nothing.
pub fn finish_read<'a>(
    scope: Scope<'_, 'a>,
    ty: ValueType,
    known: Unrolled<'a>,
) -> Result<Unrolled<'a>, Memory>
    ensures worth { (nodes : List GroundNode) → (numbers : List ℤ) → (o : Option ValueTree) → IsWorth nodes numbers known.entry o
        → IfOk result (λ x. worth nodes numbers x ≡ read_result (mode_in scope.entry) ty o) }
    ensures terms { (count : ℕ) → AreTerms count known.entry → IfOk result (AreTerms count) }
{
    if !is_judged(scope, ty) {
        return Ok(known);
    }
    match known {
        Unrolled::Cells(first, domains) => Ok(Unrolled::Cells(first, domains)),
        Unrolled::Fixed(seen) => Ok(Unrolled::Fixed(or_false(seen))),
        // A truth value is no matrix.
        Unrolled::Number(_) | Unrolled::Matrix(_, _) => Err(Memory),
    }
}

/// A read of a decision variable at indices in which none stands.
pub fn read_named<'a>(
    scope: Scope<'_, 'a>,
    table: &CellTable,
    e: &Expr,
    name: &Name,
    indices: &[Option<Expr>],
) -> Result<Unrolled<'a>, Memory>
    requires { All (IsFreeIndex (decisions_in (env_in scope))) indices.now }
    ensures { (nodes : List GroundNode) → (p q : Place) → expr_tree e.now ≡ read p (named q name.now) (indices_of indices.now)
        → IfOk result (Means (numbering_of (mode_in scope.entry) table.now) (env_in scope.entry) nodes nodes (expr_tree e.now)) }
{
    let block = block_named(scope, table, name)?;
    let ty = type_within(scope, e)?;
    let numbers = fixed_indices(scope, indices)?;
    match numbers {
        Some(numbers) => {
            let cells = Unrolled::Cells(block.first, block.domains);
            let left = left_of(scope.alloc, &cells, &numbers)?;
            finish_read(scope, ty, left)
        }
        None => finish_read(scope, ty, Unrolled::Fixed(None)),
    }
}

/// A read of a name at indices in which no decision variable stands.
pub fn read_of<'a>(
    scope: Scope<'_, 'a>,
    table: &CellTable,
    e: &Expr,
    matrix: &Expr,
    indices: &[Option<Expr>],
) -> Result<Unrolled<'a>, Memory>
    requires name { IsName matrix.now.kind }
    requires indices { All (IsFreeIndex (decisions_in (env_in scope))) indices.now }
    ensures { (nodes : List GroundNode) → (p : Place) → expr_tree e.now ≡ read p (expr_tree matrix.now) (indices_of indices.now)
        → IfOk result (Means (numbering_of (mode_in scope.entry) table.now) (env_in scope.entry) nodes nodes (expr_tree e.now)) }
{
    match &matrix.kind {
        Kind::Named(name) => read_named(scope, table, e, name, indices),
        _ => unreachable!(),
    }
}
