//! The terms of truth values in both modes. In the relational mode such a term is false where a part has no value; in the
//! strict mode it has no value there.

ghost use Rattle.std.specs.Prelude.{◌≡◌, ◌<◌, ◌++◌, ◌∷◌, [], IfOk, length};
ghost use Rattle.std.specs.List.{All};
ghost use Rattle.ep_ground.specs.Nodes.{parts_of};
ghost use Rattle.ep_ground.specs.NodeViews.{plain_node};
ghost use Rattle.ep_eval.specs.Scopes.{mode_in};
ghost use Rattle.ep_tree.specs.Evaluation.{number_in, undefined_truth};
ghost use Rattle.ep_unroll.specs.Needs.{ArePartial};
ghost use Rattle.ep_unroll.specs.Numbers.{HasNumber};
ghost use Rattle.ep_unroll.specs.Truths.{IsJudged, needed_in};

use super::choices::whole_term;
use super::growing::put;
use super::needs::partial_terms;
use super::picks::push_terms;
use ep_base::Memory;
use ep_eval::Scope;
use ep_ground::{Arena, Node, Term};
use ep_tree::Mode;
use std::alloc::Global;

/// One part.
fn single(alloc: Global, part: Term) -> Result<Vec<Term>, Memory>
    ensures { IfOk result (λ parts. parts.items ≡ part ∷ []) }
{
    let mut parts = Vec::new(alloc);
    parts.push(part)?;
    Ok(parts)
}

/// Two parts.
pub fn pair(alloc: Global, one: Term, other: Term) -> Result<Vec<Term>, Memory>
    ensures { IfOk result (λ parts. parts.items ≡ one ∷ other ∷ []) }
{
    let mut parts = Vec::new(alloc);
    parts.push(one)?;
    parts.push(other)?;
    Ok(parts)
}

/// The parts of two lists.
fn joined(alloc: Global, parts: &[Term], others: &[Term]) -> Result<Vec<Term>, Memory>
    ensures { IfOk result (λ all. all.items ≡ parts.now ++ others.now) }
{
    let mut all = Vec::new(alloc);
    push_terms(&mut all, parts)?;
    push_terms(&mut all, others)?;
    Ok(all)
}

/// Those of some parts that may lack a value and that a truth value needs.
pub fn needed_parts(
    scope: Scope<'_, '_>,
    arena: &Arena,
    count: u64,
    parts: &[Term],
) -> Result<Vec<Term>, Memory>
    requires { All (λ t. t < length arena.now) parts.now }
    ensures { IfOk result (λ us. ArePartial arena.now count (needed_in (mode_in scope.entry) parts.now) us.items) }
{
    match scope.env.mode() {
        Mode::Relational => Ok(Vec::new(scope.alloc)),
        Mode::Strict => partial_terms(scope.alloc, arena, count, parts),
    }
}

/// The same of one part.
pub fn needed_part(
    scope: Scope<'_, '_>,
    arena: &Arena,
    count: u64,
    part: Term,
) -> Result<Vec<Term>, Memory>
    requires { part < length arena.now }
    ensures { IfOk result (λ us. ArePartial arena.now count (needed_in (mode_in scope.entry) (part ∷ [])) us.items) }
{
    match scope.env.mode() {
        Mode::Relational => Ok(Vec::new(scope.alloc)),
        Mode::Strict => {
            let parts = single(scope.alloc, part)?;
            partial_terms(scope.alloc, arena, count, &parts)
        }
    }
}

/// The same of two parts.
pub fn needed_pair(
    scope: Scope<'_, '_>,
    arena: &Arena,
    count: u64,
    one: Term,
    other: Term,
) -> Result<Vec<Term>, Memory>
    requires one { one < length arena.now }
    requires other { other < length arena.now }
    ensures { IfOk result (λ us. ArePartial arena.now count (needed_in (mode_in scope.entry) (one ∷ other ∷ [])) us.items) }
{
    match scope.env.mode() {
        Mode::Relational => Ok(Vec::new(scope.alloc)),
        Mode::Strict => {
            let parts = pair(scope.alloc, one, other)?;
            partial_terms(scope.alloc, arena, count, &parts)
        }
    }
}

/// The same of the parts of two lists.
pub fn needed_lists(
    scope: Scope<'_, '_>,
    arena: &Arena,
    count: u64,
    parts: &[Term],
    others: &[Term],
) -> Result<Vec<Term>, Memory>
    requires one { All (λ t. t < length arena.now) parts.now }
    requires other { All (λ t. t < length arena.now) others.now }
    ensures { IfOk result (λ us. ArePartial arena.now count (needed_in (mode_in scope.entry) (parts.now ++ others.now)) us.items) }
{
    match scope.env.mode() {
        Mode::Relational => Ok(Vec::new(scope.alloc)),
        Mode::Strict => {
            let all = joined(scope.alloc, parts, others)?;
            partial_terms(scope.alloc, arena, count, &all)
        }
    }
}

/// The same of a part and of those of a list.
pub fn needed_beside(
    scope: Scope<'_, '_>,
    arena: &Arena,
    count: u64,
    part: Term,
    others: &[Term],
) -> Result<Vec<Term>, Memory>
    requires one { part < length arena.now }
    requires other { All (λ t. t < length arena.now) others.now }
    ensures { IfOk result (λ us. ArePartial arena.now count (needed_in (mode_in scope.entry) (part ∷ others.now)) us.items) }
{
    match scope.env.mode() {
        Mode::Relational => Ok(Vec::new(scope.alloc)),
        Mode::Strict => {
            let mut all = single(scope.alloc, part)?;
            push_terms(&mut all, others)?;
            partial_terms(scope.alloc, arena, count, &all)
        }
    }
}

/// The term of a node, where these others have values too.
pub fn judged(arena: &mut Arena, node: Node, others: Vec<Term>) -> Result<Term, Memory>
    requires node { All (λ part. part < length arena.old) (parts_of (plain_node node)) }
    requires others { All (λ t. t < length arena.old) others.items }
    ensures { IfOk result (IsJudged arena.old arena.new (plain_node node) others.items) }
{
    let term = put(arena, node)?;
    whole_term(arena, term, others)
}

/// The term of a truth value without its parts: false in the relational mode, and without a value in the strict mode.
pub fn no_truth(scope: Scope<'_, '_>, arena: &mut Arena) -> Result<Term, Memory>
    ensures { IfOk result (HasNumber arena.old arena.new (λ numbers. number_in (undefined_truth (mode_in scope.entry)))) }
{
    match scope.env.mode() {
        Mode::Relational => put(arena, Node::Const(0)),
        Mode::Strict => put(arena, Node::Undefined),
    }
}
