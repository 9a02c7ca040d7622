//! The term of a number.

ghost use Rattle.std.specs.Prelude.{List, IfOk, length};
ghost use Rattle.ep_ground.specs.Nodes.{GroundNode};
ghost use Rattle.ep_tree.specs.Environments as names;
ghost use Rattle.ep_tree.specs.Evaluation.{number_in};
ghost use Rattle.ep_tree.specs.Trees.{ExprTree};
ghost use Rattle.ep_unroll.specs.Meanings.{AreTerms, IsNumberOf, Means, worth};
ghost use Rattle.ep_unroll.specs.Numbers.{HasNumber};
ghost use Rattle.ep_unroll.specs.Readings.{Numbering, cells_value};

use super::growing::put;
use super::unrolled::Unrolled;
use ep_base::{Memory, Runs};
use ep_eval::number_of;
use ep_ground::{Arena, Node, Term};

/// The term of a number, or of what has no value.
fn number_or_undefined(arena: &mut Arena, number: Option<i64>) -> Result<Term, Memory>
    ensures { IfOk result (HasNumber arena.old arena.new (λ numbers. number)) }
{
    match number {
        Some(number) => put(arena, Node::Const(number)),
        None => put(arena, Node::Undefined),
    }
}

/// The term of a cell; of some cells, what has no value.
fn cell_term(arena: &mut Arena, first: u64, indices: &[Runs]) -> Result<Term, Memory>
    ensures { IfOk result (HasNumber arena.old arena.new (λ numbers. number_in (cells_value numbers indices.now first))) }
{
    match indices.split_first() {
        Some(_) => put(arena, Node::Undefined),
        None => put(arena, Node::Cell(first)),
    }
}

/// The term of the number that was unrolled; of a matrix, what has no value.
pub fn scalar_term(arena: &mut Arena, known: &Unrolled) -> Result<Term, Memory>
    ensures { IfOk result (λ t. AreTerms (length arena.old) known.now
        → HasNumber arena.old arena.new (λ numbers. number_in (worth arena.old numbers known.now)) t) }
{
    match known {
        Unrolled::Number(term) => Ok(*term),
        Unrolled::Cells(first, indices) => cell_term(arena, *first, indices),
        Unrolled::Fixed(seen) => number_or_undefined(arena, number_of(seen)),
        Unrolled::Matrix(_, _) => number_or_undefined(arena, None),
    }
}

/// The same of what an expression was unrolled to.
pub fn number_term(arena: &mut Arena, known: &Unrolled) -> Result<Term, Memory>
    ensures { (n : Numbering) → (cells : names.Env) → (nodes : List GroundNode) → (e : ExprTree)
        → Means n cells nodes arena.old e known.now → IfOk result (IsNumberOf n cells nodes arena.new e) }
{
    scalar_term(arena, known)
}

/// The same of what isn't used any more.
pub fn taken_term(arena: &mut Arena, known: Unrolled<'_>) -> Result<Term, Memory>
    ensures { (n : Numbering) → (cells : names.Env) → (nodes : List GroundNode) → (e : ExprTree)
        → Means n cells nodes arena.old e known.entry → IfOk result (IsNumberOf n cells nodes arena.new e) }
{
    number_term(arena, &known)
}
