//! Terms that have values whatever numbers the cells have.

ghost use Rattle.std.specs.Prelude.{◌≡◌, ◌≢◌, ◌<◌, ◌≤◌, true, ℕ, IsSome, List, Option, Some, ℤ, pos, length};
ghost use Rattle.std.specs.List.{All};
ghost use Rattle.ep_ground.specs.Nodes.{parts_of};
ghost use Rattle.ep_ground.specs.NodeViews.{plain_node};
ghost use Rattle.ep_ground.specs.Terms.{node_value, term_value};

use ep_ground::{Arena, Node, Term};

/// How many nodes deep a number is looked through.
const MOST_DEPTH: u64 = 8;

/// Whether a node has a value whatever numbers the cells and its parts have.
fn is_total_node(node: &Node, count: u64) -> bool
    ensures { result ≡ true → (numbers : List ℤ) → (value : ℕ → Option ℤ) → count ≤ length numbers → IsSome (node_value numbers value (plain_node node.now)) }
{
    match node {
        Node::Const(_) => true,
        Node::Cell(cell) => *cell < count,
        Node::Compare(_, _, _) => true,
        Node::Member(_, _) => true,
        Node::Not(_) => true,
        Node::And(_) => true,
        Node::Or(_) => true,
        Node::Iff(_, _) => true,
        Node::AllDiff(_) => true,
        Node::Lex(_, _, _) => true,
        Node::Gcc(_, _, _) => true,
        Node::AtLeast(_, _, _) => true,
        Node::AtMost(_, _, _) => true,
        Node::Table(_, _) => true,
        _ => false,
    }
}

/// Whether a term is a number other than 0.
fn is_divisor(arena: &Arena, term: Term) -> bool
    requires { term < length arena.now }
    ensures { result ≡ true → (k : ℤ) × (k ≢ pos 0) × ((numbers : List ℤ) → term_value arena.now numbers term ≡ Some k) }
{
    let _size = arena.len();
    match arena.node(term) {
        Node::Const(number) => *number != 0,
        _ => false,
    }
}

/// Whether terms have values, as their nodes so many deep tell.
#[cycle(telling)]
fn are_total_to(arena: &Arena, count: u64, terms: &[Term], depth: u64) -> bool
    requires { All (λ t. t < length arena.now) terms.now }
    ensures { result ≡ true → (numbers : List ℤ) → count ≤ length numbers → All (λ t. IsSome (term_value arena.now numbers t)) terms.now }
{
    for term in terms {
        if !is_total_to(arena, count, *term, depth) {
            return false;
        }
    }
    true
}

/// The same of a sum's parts.
#[cycle(telling)]
fn are_weighed_total_to(arena: &Arena, count: u64, parts: &[(i64, Term)], depth: u64) -> bool
    requires { All (λ part. part.1 < length arena.now) parts.now }
    ensures { result ≡ true → (numbers : List ℤ) → count ≤ length numbers → All (λ part. IsSome (term_value arena.now numbers part.1)) parts.now }
{
    for part in parts {
        if !is_total_to(arena, count, part.1, depth) {
            return false;
        }
    }
    true
}

/// Whether a node has a value, by its parts so many nodes deep.
#[cycle(telling)]
fn is_whole_to(arena: &Arena, count: u64, node: &Node, depth: u64) -> bool
    requires { All (λ part. part < length arena.now) (parts_of (plain_node node.now)) }
    ensures { result ≡ true → (numbers : List ℤ) → count ≤ length numbers → IsSome (node_value numbers (term_value arena.now numbers) (plain_node node.now)) }
{
    match node {
        Node::Add(_, parts) => are_weighed_total_to(arena, count, parts, depth),
        Node::Mul(a, b) => is_total_to(arena, count, *a, depth)
            && is_total_to(arena, count, *b, depth),
        Node::Div(a, b) => is_divisor(arena, *b) && is_total_to(arena, count, *a, depth),
        Node::Mod(a, b) => is_divisor(arena, *b) && is_total_to(arena, count, *a, depth),
        Node::Pow(a, _) => is_total_to(arena, count, *a, depth),
        Node::Abs(a) => is_total_to(arena, count, *a, depth),
        Node::Min(parts) => parts.len() > 0 && are_total_to(arena, count, parts, depth),
        Node::Max(parts) => parts.len() > 0 && are_total_to(arena, count, parts, depth),
        _ => false,
    }
}

/// Whether a term has a value, as its nodes so many deep tell.
#[cycle(telling)]
fn is_total_to(arena: &Arena, count: u64, term: Term, depth: u64) -> bool
    requires { term < length arena.now }
    ensures { result ≡ true → (numbers : List ℤ) → count ≤ length numbers → IsSome (term_value arena.now numbers term) }
{
    let _size = arena.len();
    let node = arena.node(term);
    if is_total_node(node, count) {
        return true;
    }
    if depth == 0 {
        return false;
    }
    is_whole_to(arena, count, node, depth - 1)
}

/// Whether a term has a value whatever numbers the cells have. Looked through are sums, products and the like, some nodes
/// deep, so that the cost is bounded by the text of what the term was made of.
pub fn is_total(arena: &Arena, count: u64, term: Term) -> bool
    requires { term < length arena.now }
    ensures { result ≡ true → (numbers : List ℤ) → count ≤ length numbers → IsSome (term_value arena.now numbers term) }
{
    is_total_to(arena, count, term, MOST_DEPTH)
}
