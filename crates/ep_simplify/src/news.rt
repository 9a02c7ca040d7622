//! The nodes of the new ground, and how far they reach.

ghost use Rattle.std.specs.Prelude.{◌≡◌, ◌-◌, ◌<◌, ◌^◌, true, false, length, List, None, slice_index_or, IfOk, IfSome, IsSome, OnOk};
ghost use Rattle.std.specs.List.{All};
ghost use Rattle.ep_base.specs.Intervals.{IsWithinReach};
ghost use Rattle.ep_base.specs.Reads.{IsWithinNumbers};
ghost use Rattle.ep_defined.specs.Growing.{IsNodeAt, IsSafeOver};
ghost use Rattle.ep_ground.specs.ArenaSteps.{Interned};
ghost use Rattle.ep_ground.specs.Bounds.{node_reach, term_reach};
ghost use Rattle.ep_ground.specs.Nodes.{coefficients_of, parts_of};
ghost use Rattle.ep_ground.specs.NodeViews.{plain_node};
ghost use Rattle.ep_ground.specs.declared.cells.Cell.{Cell};
ghost use Rattle.ep_numbers.specs.Spans.{interval_of};
ghost use Rattle.ep_simplify.specs.Decided.{IsOfTruths, IsOpen, constant_of, lone_number};
ghost use Rattle.ep_simplify.specs.Settling.{AreNear, IsNearOver, IsNews, IsNoted, IsTaken, IsUntold};

use ep_base::Memory;
use ep_ground::{Arena, Cell, InternError, Node, Term};
use ep_numbers::Span;
use ep_reach::near_reach;

/// The new nodes so far, with an interval for each as long as the stages compute with all of them.
#[derive(Drop)]
pub struct News {
    /// The nodes.
    pub arena: Arena,
    /// How far each reaches, while all are near.
    pub spans: Vec<Span>,
    /// Whether all reaches are near so far.
    pub near: bool,
}

/// The reach of a node over the new terms, where it is near and all of theirs are.
pub fn reach_in(news: &News, cells: &[Cell], node: &Node) -> Option<Span>
    ensures near { IfSome result (λ span. news.now.near ≡ true) }
    ensures reach { IfSome result (λ span. IsNews cells.now news.now
        → interval_of span ≡ node_reach cells.now (term_reach news.now.arena cells.now) (plain_node node.now)) }
    ensures within { IfSome result (λ span. IsWithinReach (interval_of span)) }
    ensures coefficients { IfSome result (λ span. All IsWithinNumbers (coefficients_of (plain_node node.now))) }
    ensures told { IsNews cells.now news.now → AreNear news.now
        → IsNearOver cells.now news.now.arena (plain_node node.now) → IsSome result }
{
    if !news.near {
        return None;
    }
    near_reach(&news.spans, cells, node)
}

/// The interval of a term, where there is one.
fn span_at(spans: &[Span], term: Term) -> Option<Span>
    ensures there { IfSome result (λ span. (term < length spans.now) × (span ≡ slice_index_or spans.now term span)) }
    ensures told { result ≡ None → term < length spans.now → ⊥ }
{
    let place = term.number() as usize;
    if place >= spans.len() {
        return None;
    }
    Some(spans[place])
}

/// The reach of a new term, where it is known.
pub fn span_in(news: &News, term: Term) -> Option<Span>
    ensures reach { IfSome result (λ span. (cells : List Cell) → IsNews cells news.now
        → interval_of span ≡ term_reach news.now.arena cells term) }
    ensures told { result ≡ None → term < length news.now.arena → news.now.near ≡ true
        → (cells : List Cell) → IsNews cells news.now → ⊥ }
{
    if !news.near {
        return None;
    }
    span_at(&news.spans, term)
}

/// Keeps the reach of a new node.
fn note(news: &mut News, reach: Option<Span>) -> Result<(), Memory>
    ensures { OnOk result (IsNoted reach news.old news.new) }
{
    let Some(span) = reach else {
        news.near = false;
        return Ok(());
    };
    news.spans.push(span)?;
    Ok(())
}

/// The term of a node.
pub fn interned(arena: &mut Arena, node: Node) -> Result<Term, Memory>
    requires room { length arena.old < 2 ^ 32 - 1 }
    requires parts { All (λ part. part < length arena.old) (parts_of (plain_node node)) }
    ensures term { IfOk result (λ term. IsNodeAt arena.new term (plain_node node)) }
    ensures arena { OnOk result (Interned arena.old (plain_node node) arena.new) }
{
    match arena.intern(node) {
        Ok(term) => Ok(term),
        Err(InternError::Memory) => Err(Memory),
        Err(InternError::Full) => unreachable!(),
    }
}

/// Takes in a node about which its parts leave everything open.
pub fn take(news: &mut News, cells: &[Cell], node: Node) -> Result<Term, Memory>
    requires news { IsNews cells.now news.old }
    requires room { length news.old.arena < 2 ^ 32 - 1 }
    requires parts { All (λ part. part < length news.old.arena) (parts_of (plain_node node)) }
    requires safe { IsSafeOver (length cells.now) (plain_node node) }
    requires undecided { IsOpen news.old.arena (plain_node node) }
    requires untold { AreNear news.old → IsNearOver cells.now news.old.arena (plain_node node)
        → IsUntold cells.now news.old.arena (plain_node node) }
    ensures { IfOk result (λ term. IsTaken cells.now news.old (plain_node node) news.new term) }
{
    let before = news.arena.len();
    let reach = reach_in(news, cells, &node);
    let term = interned(&mut news.arena, node)?;
    if news.arena.len() == before {
        return Ok(term);
    }
    note(news, reach)?;
    Ok(term)
}

/// The number that a node is alone.
#[tactic(auto, unfolding(crate::specs::Decided::constant_of))]
fn constant_in(node: &Node) -> Option<i64>
    ensures { result ≡ constant_of (plain_node node.now) }
{
    match node {
        Node::Const(number) => Some(*number),
        _ => None,
    }
}

/// The number that a new term is, where it is one alone.
pub fn number_in(news: &News, term: Term) -> Option<i64>
    requires { term < length news.now.arena }
    ensures { result ≡ lone_number news.now.arena term }
{
    constant_in(news.arena.node(term))
}

/// Whether an interval has no number but 0 and 1.
fn is_within_truths(span: Span) -> bool
    ensures sound { result ≡ true → IsOfTruths (interval_of span) }
    ensures complete { IsOfTruths (interval_of span) → result ≡ true }
{
    if span.low < 0 {
        return false;
    }
    if span.high < 0 {
        return false;
    }
    span.low <= 1 && span.high <= 1
}

/// Whether intervals tell that a new term has no value but 0 and 1.
pub fn is_truth(news: &News, term: Term) -> bool
    ensures sound { result ≡ true → (cells : List Cell) → IsNews cells news.now
        → IsOfTruths (term_reach news.now.arena cells term) }
    ensures complete { result ≡ false → term < length news.now.arena → news.now.near ≡ true
        → (cells : List Cell) → IsNews cells news.now → IsOfTruths (term_reach news.now.arena cells term) → ⊥ }
{
    match span_in(news, term) {
        Some(span) => is_within_truths(span),
        None => false,
    }
}
