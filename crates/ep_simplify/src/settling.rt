//! The term that stands for a node over new terms: the node's own, or that of what the node comes to.

ghost use Rattle.std.specs.Prelude.{◌≡◌, ◌≢◌, ◌-◌, ◌<◌, ◌^◌, ◌∷◌, [], Bool, true, false, ℤ, length, List, None, is_some, option_and_then, position, slice_get, IfOk, IfSome};
ghost use Rattle.std.specs.List.{All, Any};
ghost use Rattle.ep_base.specs.Numbers.{of_bool, same_numbers};
ghost use Rattle.ep_defined.specs.Growing.{IsNodeAt, IsSafeOver};
ghost use Rattle.ep_base.specs.Intervals.{only};
ghost use Rattle.ep_ground.specs.Bounds.{node_reach, term_reach};
ghost use Rattle.ep_ground.specs.Nodes.{all_of, any_of, compare, constant, greatest, least, member, negation, parts_of, safe_pick, same_truth};
ghost use Rattle.ep_ground.specs.NodeViews.{plain_node};
ghost use Rattle.ep_ground.specs.declared.cells.Cell.{Cell};
ghost use Rattle.ep_simplify.specs.Decided.{Decides, DecidesMember, IsNumber, lone_number};
ghost use Rattle.ep_simplify.specs.Settling as specs;
ghost use Rattle.ep_simplify.specs.Settling.{AlwaysSays, AreNear, AreNumbers, IsBeside, IsWhatIsLeft, IsNearOver, IsNews, IsSettled, IsTaken, IsTruthNumber, Picks, ReachesMore, negated_of};

use crate::news::{News, is_truth, number_in, reach_in, span_in, take};
use crate::truths::{decided, holds, is_member, is_said};
use ep_base::{CompareOp, Key, Memory, Runs};
use ep_ground::{Cell, Node, Term};
use std::alloc::Global;

/// The term of a number.
fn number(news: &mut News, cells: &[Cell], number: i64) -> Result<Term, Memory>
    requires news { IsNews cells.now news.old }
    requires room { length news.old.arena < 2 ^ 32 - 1 }
    ensures { IfOk result (λ term. IsTaken cells.now news.old (constant number) news.new term) }
{
    let alone = take(news, cells, Node::Const(number))?;
    Ok(alone)
}

/// The term of a truth value.
fn truth(news: &mut News, cells: &[Cell], known: bool) -> Result<Term, Memory>
    requires news { IsNews cells.now news.old }
    requires room { length news.old.arena < 2 ^ 32 - 1 }
    ensures { IfOk result (λ term. IsTaken cells.now news.old (constant (of_bool known)) news.new term) }
{
    if known {
        let alone = number(news, cells, 1)?;
        return Ok(alone);
    }
    let alone = number(news, cells, 0)?;
    Ok(alone)
}

/// Whether a comparison of two numbers alone holds.
fn compared_by_numbers(news: &News, op: CompareOp, a: Term, b: Term) -> Option<bool>
    requires a { a < length news.now.arena }
    requires b { b < length news.now.arena }
    ensures says { IfSome result (λ known. (cells : List Cell) → IsNews cells news.now
        → AlwaysSays cells news.now.arena (compare op a b) known) }
    ensures undecided { result ≡ None → IsNumber news.now.arena a → IsNumber news.now.arena b → ⊥ }
{
    let Some(x) = number_in(news, a) else {
        return None;
    };
    let Some(y) = number_in(news, b) else {
        return None;
    };
    Some(holds(op, x, y))
}

/// Whether intervals tell that a comparison holds, or that it doesn't.
fn compared_by_spans(news: &News, op: CompareOp, a: Term, b: Term) -> Option<bool>
    requires a { a < length news.now.arena }
    requires b { b < length news.now.arena }
    ensures says { IfSome result (λ known. (cells : List Cell) → IsNews cells news.now
        → AlwaysSays cells news.now.arena (compare op a b) known) }
    ensures untold { result ≡ None → news.now.near ≡ true → (cells : List Cell) → IsNews cells news.now → (known : Bool)
        → Decides op (term_reach news.now.arena cells a) (term_reach news.now.arena cells b) known → ⊥ }
{
    let Some(x) = span_in(news, a) else {
        return None;
    };
    let Some(y) = span_in(news, b) else {
        return None;
    };
    decided(op, x, y)
}

/// Whether a comparison holds whatever numbers the cells have, or doesn't.
fn compared(news: &News, op: CompareOp, a: Term, b: Term) -> Option<bool>
    requires a { a < length news.now.arena }
    requires b { b < length news.now.arena }
    ensures says { IfSome result (λ known. (cells : List Cell) → IsNews cells news.now
        → AlwaysSays cells news.now.arena (compare op a b) known) }
    ensures undecided { result ≡ None → (a ≢ b) × (IsNumber news.now.arena a → IsNumber news.now.arena b → ⊥) }
    ensures untold { result ≡ None → news.now.near ≡ true → (cells : List Cell) → IsNews cells news.now → (known : Bool)
        → Decides op (term_reach news.now.arena cells a) (term_reach news.now.arena cells b) known → ⊥ }
{
    if a.number() == b.number() {
        return Some(holds(op, 0, 0));
    }
    if let Some(known) = compared_by_numbers(news, op, a, b) {
        return Some(known);
    }
    compared_by_spans(news, op, a, b)
}

/// The term that stands for a comparison.
fn comparison(
    news: &mut News,
    cells: &[Cell],
    op: CompareOp,
    a: Term,
    b: Term,
) -> Result<Term, Memory>
    requires news { IsNews cells.now news.old }
    requires room { length news.old.arena < 2 ^ 32 - 1 }
    requires parts { All (λ t. t < length news.old.arena) (a ∷ b ∷ []) }
    ensures { IfOk result (λ term. IsSettled cells.now news.old (compare op a b) news.new term) }
{
    match compared(news, op, a, b) {
        Some(known) => {
            let outcome = truth(news, cells, known)?;
            Ok(outcome)
        }
        None => {
            let own = take(news, cells, Node::Compare(op, a, b))?;
            Ok(own)
        }
    }
}

/// Whether intervals tell that a term is one of some numbers, or that it isn't.
fn membered_by_span(news: &News, a: Term, numbers: &Runs) -> Option<bool>
    requires { a < length news.now.arena }
    ensures says { IfSome result (λ known. (cells : List Cell) → IsNews cells news.now
        → AlwaysSays cells news.now.arena (member a numbers.now) known) }
    ensures untold { result ≡ None → news.now.near ≡ true → (cells : List Cell) → IsNews cells news.now → (known : Bool)
        → DecidesMember (term_reach news.now.arena cells a) numbers.now known → ⊥ }
{
    let Some(span) = span_in(news, a) else {
        return None;
    };
    is_member(numbers, span)
}

/// Whether a term is one of some numbers whatever numbers the cells have, or isn't.
fn membered(news: &News, a: Term, numbers: &Runs) -> Option<bool>
    requires { a < length news.now.arena }
    ensures says { IfSome result (λ known. (cells : List Cell) → IsNews cells news.now
        → AlwaysSays cells news.now.arena (member a numbers.now) known) }
    ensures undecided { result ≡ None → IsNumber news.now.arena a → ⊥ }
    ensures untold { result ≡ None → news.now.near ≡ true → (cells : List Cell) → IsNews cells news.now → (known : Bool)
        → DecidesMember (term_reach news.now.arena cells a) numbers.now known → ⊥ }
{
    if let Some(number) = number_in(news, a) {
        return Some(numbers.has(number));
    }
    membered_by_span(news, a, numbers)
}

/// The term that stands for a membership.
fn membership(news: &mut News, cells: &[Cell], a: Term, numbers: Runs) -> Result<Term, Memory>
    requires news { IsNews cells.now news.old }
    requires room { length news.old.arena < 2 ^ 32 - 1 }
    requires parts { All (λ t. t < length news.old.arena) (a ∷ []) }
    ensures { IfOk result (λ term. IsSettled cells.now news.old (member a numbers) news.new term) }
{
    match membered(news, a, &numbers) {
        Some(known) => {
            let outcome = truth(news, cells, known)?;
            Ok(outcome)
        }
        None => {
            let own = take(news, cells, Node::Member(a, numbers))?;
            Ok(own)
        }
    }
}

/// What a negated term is, where that tells what its negation is.
#[derive(Drop)]
pub enum Negated {
    /// A number.
    Number(i64),
    /// A comparison.
    Compare(CompareOp, Term, Term),
    /// A negation.
    Not(Term),
    /// Something else.
    Other,
}

/// What a node is whose negation is asked for.
#[tactic(auto, unfolding(crate::specs::Settling::negated_of))]
fn negated_form(node: &Node) -> Negated
    ensures { result ≡ negated_of (plain_node node.now) }
{
    match node {
        Node::Const(x) => Negated::Number(*x),
        Node::Compare(op, x, y) => Negated::Compare(*op, *x, *y),
        Node::Not(x) => Negated::Not(*x),
        _ => Negated::Other,
    }
}

/// The term that stands for the negation of a negation.
fn double_negation(news: &mut News, cells: &[Cell], a: Term, inner: Term) -> Result<Term, Memory>
    requires news { IsNews cells.now news.old }
    requires room { length news.old.arena < 2 ^ 32 - 1 }
    requires parts { All (λ t. t < length news.old.arena) (a ∷ []) }
    requires inner { IsNodeAt news.old.arena a (negation inner) }
    ensures { IfOk result (λ term. IsSettled cells.now news.old (negation a) news.new term) }
{
    if is_truth(news, inner) {
        return Ok(inner);
    }
    let own = take(news, cells, Node::Not(a))?;
    Ok(own)
}

/// The term that stands for a negation.
fn negation_of(news: &mut News, cells: &[Cell], a: Term) -> Result<Term, Memory>
    requires news { IsNews cells.now news.old }
    requires room { length news.old.arena < 2 ^ 32 - 1 }
    requires parts { All (λ t. t < length news.old.arena) (a ∷ []) }
    ensures { IfOk result (λ term. IsSettled cells.now news.old (negation a) news.new term) }
{
    match negated_form(news.arena.node(a)) {
        Negated::Number(x) => {
            let outcome = truth(news, cells, is_said(x, false))?;
            Ok(outcome)
        }
        Negated::Compare(op, x, y) => {
            let contrary = take(news, cells, Node::Compare(op.contrary(), x, y))?;
            Ok(contrary)
        }
        Negated::Not(inner) => {
            let inner_term = double_negation(news, cells, a, inner)?;
            Ok(inner_term)
        }
        Negated::Other => {
            let own = take(news, cells, Node::Not(a))?;
            Ok(own)
        }
    }
}

/// Whether a term is a number alone that is true, or one that isn't, as is asked.
fn is_said_by(news: &News, term: Term, asked: bool) -> bool
    requires { term < length news.now.arena }
    ensures said { result ≡ true → IsTruthNumber news.now.arena asked term }
    ensures unsaid { result ≡ false → IsTruthNumber news.now.arena asked term → ⊥ }
{
    match number_in(news, term) {
        Some(number) => is_said(number, asked),
        None => false,
    }
}

/// Whether one of some terms is a number alone that is true, or one that isn't, as is asked.
fn has_said(news: &News, parts: &[Term], asked: bool) -> bool
    requires { All (λ t. t < length news.now.arena) parts.now }
    ensures found { result ≡ true → Any (IsTruthNumber news.now.arena asked) parts.now }
    ensures none { result ≡ false → All (λ t. IsTruthNumber news.now.arena asked t → ⊥) parts.now }
{
    for part in parts {
        if is_said_by(news, *part, asked) {
            return true;
        }
    }
    false
}

/// Whether a term is a number alone.
fn is_number(news: &News, term: Term) -> bool
    requires { term < length news.now.arena }
    ensures { result ≡ is_some (lone_number news.now.arena term) }
{
    number_in(news, term).is_some()
}

/// Those of some terms that are no numbers alone.
fn open_parts(alloc: Global, news: &News, parts: &[Term]) -> Result<Vec<Term>, Memory>
    requires { All (λ t. t < length news.now.arena) parts.now }
    ensures { IfOk result (λ left. left.items ≡ specs.open_parts news.now.arena parts.now) }
{
    let mut rest = Vec::new(alloc);
    for part in parts {
        if is_number(news, *part) {
            continue;
        }
        rest.push(*part)?;
    }
    Ok(rest)
}

/// What is left of some terms once numbers are left out.
#[derive(Drop)]
pub enum Left {
    /// Nothing.
    Nothing,
    /// One term that is a truth value.
    Truth(Term),
    /// Neither of these.
    More,
}

/// What is left where these terms are.
fn left_of(news: &News, parts: &[Term]) -> Left
    requires { All (λ t. t < length news.now.arena) parts.now }
    ensures { (cells : List Cell) → IsNews cells news.now → IsWhatIsLeft cells news.now parts.now result }
{
    match parts {
        [] => Left::Nothing,
        [part] => {
            if is_truth(news, *part) {
                return Left::Truth(*part);
            }
            Left::More
        }
        _ => Left::More,
    }
}

/// The term that stands for an "and".
fn conjunction(
    alloc: Global,
    news: &mut News,
    cells: &[Cell],
    parts: Vec<Term>,
) -> Result<Term, Memory>
    requires news { IsNews cells.now news.old }
    requires room { length news.old.arena < 2 ^ 32 - 1 }
    requires parts { All (λ t. t < length news.old.arena) parts.items }
    ensures { IfOk result (λ term. IsSettled cells.now news.old (all_of parts.items) news.new term) }
{
    if has_said(news, &parts, false) {
        let outcome = truth(news, cells, false)?;
        return Ok(outcome);
    }
    let rest = open_parts(alloc, news, &parts)?;
    match left_of(news, &rest) {
        Left::Nothing => {
            let outcome = truth(news, cells, true)?;
            Ok(outcome)
        }
        Left::Truth(part) => Ok(part),
        Left::More => {
            let own = take(news, cells, Node::And(rest))?;
            Ok(own)
        }
    }
}

/// The term that stands for an "or".
fn disjunction(
    alloc: Global,
    news: &mut News,
    cells: &[Cell],
    parts: Vec<Term>,
) -> Result<Term, Memory>
    requires news { IsNews cells.now news.old }
    requires room { length news.old.arena < 2 ^ 32 - 1 }
    requires parts { All (λ t. t < length news.old.arena) parts.items }
    ensures { IfOk result (λ term. IsSettled cells.now news.old (any_of parts.items) news.new term) }
{
    if has_said(news, &parts, true) {
        let outcome = truth(news, cells, true)?;
        return Ok(outcome);
    }
    let rest = open_parts(alloc, news, &parts)?;
    match left_of(news, &rest) {
        Left::Nothing => {
            let outcome = truth(news, cells, false)?;
            Ok(outcome)
        }
        Left::Truth(part) => Ok(part),
        Left::More => {
            let own = take(news, cells, Node::Or(rest))?;
            Ok(own)
        }
    }
}

/// Whether two terms have one truth value whatever numbers the cells have, or don't.
fn equivalent(news: &News, a: Term, b: Term) -> Option<bool>
    requires a { a < length news.now.arena }
    requires b { b < length news.now.arena }
    ensures says { IfSome result (λ known. (cells : List Cell) → IsNews cells news.now
        → AlwaysSays cells news.now.arena (same_truth a b) known) }
    ensures undecided { result ≡ None → (a ≢ b) × (IsNumber news.now.arena a → IsNumber news.now.arena b → ⊥) }
{
    if a.number() == b.number() {
        return Some(true);
    }
    let Some(x) = number_in(news, a) else {
        return None;
    };
    let Some(y) = number_in(news, b) else {
        return None;
    };
    Some(is_said(y, is_said(x, true)))
}

/// The term that stands for an "if and only if" of a number alone and another term.
fn beside(
    news: &mut News,
    cells: &[Cell],
    a: Term,
    b: Term,
    known: i64,
    other: Term,
) -> Result<Term, Memory>
    requires news { IsNews cells.now news.old }
    requires room { length news.old.arena < 2 ^ 32 - 1 }
    requires parts { All (λ t. t < length news.old.arena) (a ∷ b ∷ []) }
    requires undecided { (a ≢ b) × (IsNumber news.old.arena a → IsNumber news.old.arena b → ⊥) }
    requires beside { IsBeside news.old.arena a b known other }
    ensures { IfOk result (λ term. IsSettled cells.now news.old (same_truth a b) news.new term) }
{
    if is_said(known, false) {
        let opposite = negation_of(news, cells, other)?;
        return Ok(opposite);
    }
    if is_truth(news, other) {
        return Ok(other);
    }
    let own = take(news, cells, Node::Iff(a, b))?;
    Ok(own)
}

/// The term that stands for an "if and only if" that isn't decided.
fn open_equivalence(news: &mut News, cells: &[Cell], a: Term, b: Term) -> Result<Term, Memory>
    requires news { IsNews cells.now news.old }
    requires room { length news.old.arena < 2 ^ 32 - 1 }
    requires parts { All (λ t. t < length news.old.arena) (a ∷ b ∷ []) }
    requires undecided { (a ≢ b) × (IsNumber news.old.arena a → IsNumber news.old.arena b → ⊥) }
    ensures { IfOk result (λ term. IsSettled cells.now news.old (same_truth a b) news.new term) }
{
    if let Some(known) = number_in(news, a) {
        let other_term = beside(news, cells, a, b, known, b)?;
        return Ok(other_term);
    }
    if let Some(known) = number_in(news, b) {
        let other_term = beside(news, cells, a, b, known, a)?;
        return Ok(other_term);
    }
    let own = take(news, cells, Node::Iff(a, b))?;
    Ok(own)
}

/// The term that stands for an "if and only if".
fn equivalence(news: &mut News, cells: &[Cell], a: Term, b: Term) -> Result<Term, Memory>
    requires news { IsNews cells.now news.old }
    requires room { length news.old.arena < 2 ^ 32 - 1 }
    requires parts { All (λ t. t < length news.old.arena) (a ∷ b ∷ []) }
    ensures { IfOk result (λ term. IsSettled cells.now news.old (same_truth a b) news.new term) }
{
    match equivalent(news, a, b) {
        Some(known) => {
            let outcome = truth(news, cells, known)?;
            Ok(outcome)
        }
        None => {
            let undecided_term = open_equivalence(news, cells, a, b)?;
            Ok(undecided_term)
        }
    }
}

/// The one term, where there is no other.
fn lone_part(parts: &[Term]) -> Option<Term>
    ensures one { IfSome result (λ part. parts.now ≡ part ∷ []) }
    ensures none { result ≡ None → length parts.now ≢ 1 }
{
    match parts {
        [part] => Some(*part),
        _ => None,
    }
}

/// The term that stands for the least of some terms.
fn least_part(news: &mut News, cells: &[Cell], parts: Vec<Term>) -> Result<Term, Memory>
    requires news { IsNews cells.now news.old }
    requires room { length news.old.arena < 2 ^ 32 - 1 }
    requires parts { All (λ t. t < length news.old.arena) parts.items }
    requires safe { IsSafeOver (length cells.now) (least parts.items) }
    requires untold { ReachesMore cells.now news.old (least parts.items) }
    ensures { IfOk result (λ term. IsSettled cells.now news.old (least parts.items) news.new term) }
{
    if let Some(part) = lone_part(&parts) {
        return Ok(part);
    }
    let own = take(news, cells, Node::Min(parts))?;
    Ok(own)
}

/// The term that stands for the greatest of some terms.
fn greatest_part(news: &mut News, cells: &[Cell], parts: Vec<Term>) -> Result<Term, Memory>
    requires news { IsNews cells.now news.old }
    requires room { length news.old.arena < 2 ^ 32 - 1 }
    requires parts { All (λ t. t < length news.old.arena) parts.items }
    requires safe { IsSafeOver (length cells.now) (greatest parts.items) }
    requires untold { ReachesMore cells.now news.old (greatest parts.items) }
    ensures { IfOk result (λ term. IsSettled cells.now news.old (greatest parts.items) news.new term) }
{
    if let Some(part) = lone_part(&parts) {
        return Ok(part);
    }
    let own = take(news, cells, Node::Max(parts))?;
    Ok(own)
}

/// The numbers that some terms are alone, where each is one.
fn numbers_in(alloc: Global, news: &News, terms: &[Term]) -> Result<Option<Vec<i64>>, Memory>
    requires { All (λ t. t < length news.now.arena) terms.now }
    ensures found { IfOk result (λ found. IfSome found (λ numbers. AreNumbers news.now.arena terms.now numbers.items)) }
    ensures none { IfOk result (λ found. found ≡ None → All (IsNumber news.now.arena) terms.now → ⊥) }
{
    let mut numbers = Vec::new(alloc);
    for term in terms {
        let Some(number) = number_in(news, *term) else {
            return Ok(None);
        };
        numbers.push(number)?;
    }
    Ok(Some(numbers))
}

/// Whether a key has these numbers.
fn has_numbers(key: &Key, numbers: &[i64]) -> bool
    ensures { result ≡ same_numbers key.now numbers.now }
{
    key.numbers() == numbers
}

/// The place of the first key that has these numbers.
fn place_of(keys: &[Key], numbers: &[i64]) -> Option<usize>
    ensures { result ≡ position (λ key. same_numbers key numbers.now) keys.now }
{
    keys.iter().position(|key| has_numbers(key, numbers))
}

/// The part at a place.
fn part_of(parts: &[Term], place: usize) -> Option<Term>
    ensures { result ≡ slice_get parts.now place }
{
    parts.get(place).copied()
}

/// The part at the place of the first key that has these numbers.
fn part_at(parts: &[Term], keys: &[Key], numbers: &[i64]) -> Option<Term>
    ensures { result ≡ option_and_then (slice_get parts.now) (position (λ key. same_numbers key numbers.now) keys.now) }
{
    match place_of(keys, numbers) {
        Some(place) => part_of(parts, place),
        None => None,
    }
}

/// The part that is picked where the indices are these numbers; there is none where there are no parts.
fn picked_part(parts: &[Term], keys: &[Key], numbers: &[i64]) -> Option<Term>
    ensures picks { IfSome result (λ part. Picks parts.now keys.now numbers.now part) }
    ensures none { result ≡ None → parts.now ≡ [] }
{
    if let Some(part) = part_at(parts, keys, numbers) {
        return Some(part);
    }
    part_of(parts, 0)
}

/// The term that stands for a pick whose indices are these numbers.
fn read_part(
    news: &mut News,
    cells: &[Cell],
    parts: Vec<Term>,
    keys: Vec<Key>,
    indices: &[Term],
    numbers: &[i64],
) -> Result<Term, Memory>
    requires news { IsNews cells.now news.old }
    requires room { length news.old.arena < 2 ^ 32 - 1 }
    requires parts { All (λ t. t < length news.old.arena) parts.items }
    requires indices { All (λ t. t < length news.old.arena) indices.now }
    requires numbers { AreNumbers news.old.arena indices.now numbers.now }
    ensures { IfOk result (λ term. IsSettled cells.now news.old (safe_pick parts.items keys.items indices.now) news.new term) }
{
    if let Some(part) = picked_part(&parts, &keys, numbers) {
        return Ok(part);
    }
    let nothing = number(news, cells, 0)?;
    Ok(nothing)
}

/// The term that stands for a pick.
fn pick(
    alloc: Global,
    news: &mut News,
    cells: &[Cell],
    parts: Vec<Term>,
    keys: Vec<Key>,
    indices: Vec<Term>,
) -> Result<Term, Memory>
    requires news { IsNews cells.now news.old }
    requires room { length news.old.arena < 2 ^ 32 - 1 }
    requires parts { All (λ t. t < length news.old.arena) parts.items }
    requires indices { All (λ t. t < length news.old.arena) indices.items }
    requires untold { ReachesMore cells.now news.old (safe_pick parts.items keys.items indices.items) }
    ensures { IfOk result (λ term. IsSettled cells.now news.old (safe_pick parts.items keys.items indices.items) news.new term) }
{
    let found = numbers_in(alloc, news, &indices)?;
    match found {
        Some(numbers) => {
            let part = read_part(news, cells, parts, keys, &indices, &numbers)?;
            Ok(part)
        }
        None => {
            let own = take(news, cells, Node::SafePick(parts, keys, indices))?;
            Ok(own)
        }
    }
}

/// The number that a node is whatever numbers the cells have, where its reach tells it.
fn number_of(news: &News, cells: &[Cell], node: &Node) -> Option<i64>
    ensures says { IfSome result (λ number. IsNews cells.now news.now
        → node_reach cells.now (term_reach news.now.arena cells.now) (plain_node node.now) ≡ only number) }
    ensures untold { result ≡ None → IsNews cells.now news.now → AreNear news.now
        → IsNearOver cells.now news.now.arena (plain_node node.now)
        → (n : ℤ) → node_reach cells.now (term_reach news.now.arena cells.now) (plain_node node.now) ≡ only n → ⊥ }
{
    let Some(span) = reach_in(news, cells, node) else {
        return None;
    };
    if span.low == span.high {
        return Some(span.low);
    }
    None
}

/// The term that stands for a node whose reach doesn't tell it.
fn judged(alloc: Global, news: &mut News, cells: &[Cell], node: Node) -> Result<Term, Memory>
    requires news { IsNews cells.now news.old }
    requires room { length news.old.arena < 2 ^ 32 - 1 }
    requires parts { All (λ t. t < length news.old.arena) (parts_of (plain_node node)) }
    requires safe { IsSafeOver (length cells.now) (plain_node node) }
    requires untold { ReachesMore cells.now news.old (plain_node node) }
    ensures { IfOk result (λ term. IsSettled cells.now news.old (plain_node node) news.new term) }
{
    match node {
        Node::Min(parts) => {
            let term = least_part(news, cells, parts)?;
            Ok(term)
        }
        Node::Max(parts) => {
            let term = greatest_part(news, cells, parts)?;
            Ok(term)
        }
        Node::SafePick(parts, keys, indices) => {
            let part = pick(alloc, news, cells, parts, keys, indices)?;
            Ok(part)
        }
        Node::Compare(op, a, b) => {
            let term = comparison(news, cells, op, a, b)?;
            Ok(term)
        }
        Node::Member(a, numbers) => {
            let term = membership(news, cells, a, numbers)?;
            Ok(term)
        }
        Node::Not(a) => {
            let opposite = negation_of(news, cells, a)?;
            Ok(opposite)
        }
        Node::And(parts) => {
            let term = conjunction(alloc, news, cells, parts)?;
            Ok(term)
        }
        Node::Or(parts) => {
            let term = disjunction(alloc, news, cells, parts)?;
            Ok(term)
        }
        Node::Iff(a, b) => {
            let term = equivalence(news, cells, a, b)?;
            Ok(term)
        }
        other => {
            let own = take(news, cells, other)?;
            Ok(own)
        }
    }
}

/// The term that stands for a node over new terms.
pub fn settled(alloc: Global, news: &mut News, cells: &[Cell], node: Node) -> Result<Term, Memory>
    requires news { IsNews cells.now news.old }
    requires room { length news.old.arena < 2 ^ 32 - 1 }
    requires parts { All (λ t. t < length news.old.arena) (parts_of (plain_node node)) }
    requires safe { IsSafeOver (length cells.now) (plain_node node) }
    ensures { IfOk result (λ term. IsSettled cells.now news.old (plain_node node) news.new term) }
{
    if let Some(known) = number_of(news, cells, &node) {
        let alone = number(news, cells, known)?;
        return Ok(alone);
    }
    let own = judged(alloc, news, cells, node)?;
    Ok(own)
}
