//! The nodes of forms whose parts are numbers.

ghost use Rattle.std.specs.Prelude.{◌≡◌, ◌<◌, ◌≤◌, ℤ, true, List, [], ◌∷◌, pos, negsuc, IfOk, IsSome, length};
ghost use Rattle.std.specs.List.{All};
ghost use Rattle.ep_base.specs.declared.places.Place.{Place};
ghost use Rattle.ep_ground.specs.Nodes.{GroundNode, absolute as node_absolute, sum};
ghost use Rattle.ep_ground.specs.Terms.{term_value};
ghost use Rattle.ep_eval.specs.Scopes.{mode_in};
ghost use Rattle.ep_tree.specs.declared.values.Mode.{Mode as EachMode};
ghost use Rattle.ep_tree.specs.Environments as names;
ghost use Rattle.ep_tree.specs.Trees.{ExprTree, ExprTrees, binary, negation as tree_negation};
ghost use Rattle.ep_forms.specs.Forms.{truths_node};
ghost use Rattle.ep_tree.specs.declared.syntax.BinaryOp.{BinaryOp as EachOp};
ghost use Rattle.ep_unroll.specs.Growing.{Puts};
ghost use Rattle.ep_unroll.specs.Meanings.{AreNumbersOf, IsNumberOf, IsTermOf};
ghost use Rattle.ep_unroll.specs.Readings.{Numbering};
ghost use Rattle.ep_unroll.specs.Truths.{IsComparison};

use super::growing::put;
use super::powers::power_term;
use super::totals::is_total;
use super::truths::{judged, needed_pair, needed_part, needed_parts, pair};
use ep_base::{CompareOp, Memory};
use ep_eval::Scope;
use ep_ground::{Arena, Node, Term};
use ep_tree::{BinaryOp, Mode};
use std::alloc::Global;

/// One part with its coefficient.
fn weighed(alloc: Global, coefficient: i64, part: Term) -> Result<Vec<(i64, Term)>, Memory>
    ensures { IfOk result (λ parts. parts.items ≡ (coefficient, part) ∷ []) }
{
    let mut parts = Vec::new(alloc);
    parts.push((coefficient, part))?;
    Ok(parts)
}

/// `-x`
pub fn negated(alloc: Global, arena: &mut Arena, part: Term) -> Result<Term, Memory>
    requires { part < length arena.old }
    ensures { IfOk result (Puts arena.old arena.new (sum (pos 0) ((negsuc 0, part) ∷ []))) }
{
    let parts = weighed(alloc, -1, part)?;
    put(arena, Node::Add(0, parts))
}

/// `!x`
pub fn negation(
    scope: Scope<'_, '_>,
    arena: &mut Arena,
    count: u64,
    part: Term,
) -> Result<Term, Memory>
    requires { part < length arena.old }
    ensures { (n : Numbering) → (cells : names.Env) → (nodes : List GroundNode) → (p : Place) → (e : ExprTree)
        → n.mode ≡ mode_in scope.entry → n.count ≡ count → IsNumberOf n cells nodes arena.old e part
        → IfOk result (IsTermOf n cells nodes arena.new (tree_negation p e)) }
{
    let needed = needed_part(scope, arena, count, part)?;
    judged(arena, Node::Not(part), needed)
}

/// `|x|`
pub fn magnitude(arena: &mut Arena, part: Term) -> Result<Term, Memory>
    requires { part < length arena.old }
    ensures { IfOk result (Puts arena.old arena.new (node_absolute part)) }
{
    put(arena, Node::Abs(part))
}

/// Whether two terms have values whatever numbers the cells have.
fn are_both_total(arena: &Arena, count: u64, one: Term, other: Term) -> bool
    requires one { one < length arena.now }
    requires other { other < length arena.now }
    ensures { result ≡ true → (numbers : List ℤ) → count ≤ length numbers
        → IsSome (term_value arena.now numbers one) × IsSome (term_value arena.now numbers other) }
{
    is_total(arena, count, one) && is_total(arena, count, other)
}

/// Whether `->` can be a disjunction of two parts: they have values, or what lacks a part has none in this mode.
fn can_imply(scope: Scope<'_, '_>, arena: &Arena, count: u64, one: Term, other: Term) -> bool
    requires one { one < length arena.now }
    requires other { other < length arena.now }
    ensures { result ≡ true → mode_in scope.entry ≡ EachMode.Relational → (numbers : List ℤ) → count ≤ length numbers
        → IsSome (term_value arena.now numbers one) × IsSome (term_value arena.now numbers other) }
{
    match scope.env.mode() {
        Mode::Relational => are_both_total(arena, count, one, other),
        Mode::Strict => true,
    }
}

/// `one -> other` of two numbers, which have values in the relational mode.
fn implication(
    scope: Scope<'_, '_>,
    arena: &mut Arena,
    count: u64,
    one: Term,
    other: Term,
) -> Result<Term, Memory>
    requires one { one < length arena.old }
    requires other { other < length arena.old }
    ensures { (n : Numbering) → (cells : names.Env) → (nodes : List GroundNode) → (p : Place) → (e : ExprTree) → (f : ExprTree)
        → n.mode ≡ mode_in scope.entry → n.count ≡ count → IsNumberOf n cells nodes arena.old e one → IsNumberOf n cells nodes arena.old f other
        → IfOk result (IsTermOf n cells nodes arena.new (binary p EachOp.Implies e f)) }
{
    if !can_imply(scope, arena, count, one, other) {
        return Err(Memory);
    }
    let needed = needed_pair(scope, arena, count, one, other)?;
    let no = put(arena, Node::Not(one))?;
    let parts = pair(scope.alloc, no, other)?;
    judged(arena, Node::Or(parts), needed)
}

/// A comparison of two numbers.
pub fn comparison(
    scope: Scope<'_, '_>,
    arena: &mut Arena,
    count: u64,
    op: CompareOp,
    one: Term,
    other: Term,
) -> Result<Term, Memory>
    requires one { one < length arena.old }
    requires other { other < length arena.old }
    ensures { IfOk result (IsComparison (mode_in scope.entry) count arena.old arena.new op one other) }
{
    let needed = needed_pair(scope, arena, count, one, other)?;
    judged(arena, Node::Compare(op, one, other), needed)
}

/// Two numbers with an operator between them.
pub fn finish_binary(
    scope: Scope<'_, '_>,
    arena: &mut Arena,
    count: u64,
    op: BinaryOp,
    one: Term,
    other: Term,
) -> Result<Term, Memory>
    requires one { one < length arena.old }
    requires other { other < length arena.old }
    ensures { (n : Numbering) → (cells : names.Env) → (nodes : List GroundNode) → (p : Place) → (e : ExprTree) → (f : ExprTree)
        → n.mode ≡ mode_in scope.entry → n.count ≡ count → IsNumberOf n cells nodes arena.old e one → IsNumberOf n cells nodes arena.old f other
        → IfOk result (IsTermOf n cells nodes arena.new (binary p op e f)) }
{
    match op {
        BinaryOp::Mul => put(arena, Node::Mul(one, other)),
        BinaryOp::Div => put(arena, Node::Div(one, other)),
        BinaryOp::Mod => put(arena, Node::Mod(one, other)),
        BinaryOp::Pow => power_term(arena, one, other),
        BinaryOp::Min => {
            let parts = pair(scope.alloc, one, other)?;
            put(arena, Node::Min(parts))
        }
        BinaryOp::Max => {
            let parts = pair(scope.alloc, one, other)?;
            put(arena, Node::Max(parts))
        }
        BinaryOp::Implies => implication(scope, arena, count, one, other),
        BinaryOp::Iff => comparison(scope, arena, count, CompareOp::Equal, one, other),
    }
}

/// A chain of connectives of these parts.
pub fn finish_all(
    scope: Scope<'_, '_>,
    arena: &mut Arena,
    count: u64,
    every: bool,
    parts: Vec<Term>,
) -> Result<Term, Memory>
    requires { All (λ part. part < length arena.old) parts.items }
    ensures { (n : Numbering) → (cells : names.Env) → (nodes : List GroundNode) → (p : Place) → (es : ExprTrees)
        → n.mode ≡ mode_in scope.entry → n.count ≡ count → AreNumbersOf n cells nodes arena.old es parts.items
        → IfOk result (IsTermOf n cells nodes arena.new (truths_node p every es)) }
{
    let needed = needed_parts(scope, arena, count, &parts)?;
    if every {
        judged(arena, Node::And(parts), needed)
    } else {
        judged(arena, Node::Or(parts), needed)
    }
}
