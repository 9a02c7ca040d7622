//! Forms whose parts are lists.

ghost use Rattle.std.specs.Prelude.{◌≡◌, ◌<◌, ◌==◌, List, IfOk, length, option_map};
ghost use Rattle.std.specs.List.{All, list_all};
ghost use Rattle.ep_base.specs.declared.places.Place.{Place};
ghost use Rattle.ep_eval.specs.Scopes.{mode_in};
ghost use Rattle.ep_ground.specs.Nodes.{GroundNode};
ghost use Rattle.ep_tree.specs.Environments as names;
ghost use Rattle.ep_tree.specs.Evaluation.{evaluate, rows_in, scalars_in};
ghost use Rattle.ep_tree.specs.Trees.{ExprTree, at_least, at_most, gcc, lex, table};
ghost use Rattle.ep_unroll.specs.Meanings.{IsTermOf};
ghost use Rattle.ep_unroll.specs.Readings.{Numbering, Reading};
ghost use Rattle.ep_unroll.specs.Scalars.{AreScalarsOf};

use super::truths::{judged, needed_lists, needed_parts, no_truth};
use ep_base::{Key, LexOp, Memory};
use ep_eval::Scope;
use ep_ground::{Arena, Node, Term};

/// A lexicographic comparison of lists whose scalars have these terms.
pub fn lex_term(
    scope: Scope<'_, '_>,
    arena: &mut Arena,
    count: u64,
    op: LexOp,
    terms: Vec<Term>,
    others: Vec<Term>,
) -> Result<Term, Memory>
    requires one { All (λ t. t < length arena.old) terms.items }
    requires other { All (λ t. t < length arena.old) others.items }
    ensures { (n : Numbering) → (cells : names.Env) → (nodes : List GroundNode) → (p : Place) → (e : ExprTree) → (f : ExprTree)
        → n.mode ≡ mode_in scope.entry → n.count ≡ count
        → AreScalarsOf n cells nodes arena.old e terms.items → AreScalarsOf n cells nodes arena.old f others.items
        → IfOk result (IsTermOf n cells nodes arena.new (lex p op e f)) }
{
    let needed = needed_lists(scope, arena, count, &terms, &others)?;
    judged(arena, Node::Lex(op, terms, others), needed)
}

/// Whether rows are all so long.
fn are_long(rows: &[Key], count: usize) -> bool
    ensures { result ≡ list_all (λ row. length row == count) rows.now }
{
    for row in rows {
        let own = row.numbers().len();
        if own != count {
            return false;
        }
    }
    true
}

/// Whether a list whose scalars have these terms is one of some rows, which may lack a value.
pub fn table_term(
    scope: Scope<'_, '_>,
    arena: &mut Arena,
    count: u64,
    terms: Vec<Term>,
    rows: Option<Vec<Key>>,
) -> Result<Term, Memory>
    requires { All (λ t. t < length arena.old) terms.items }
    ensures { (n : Numbering) → (cells : names.Env) → (nodes : List GroundNode) → (p : Place) → (e : ExprTree) → (f : ExprTree)
        → n.mode ≡ mode_in scope.entry → n.count ≡ count
        → AreScalarsOf n cells nodes arena.old e terms.items
        → ((r : Reading n cells) → rows_in (evaluate n.mode r.values f) ≡ option_map (λ v. v.items) rows)
        → IfOk result (IsTermOf n cells nodes arena.new (table p e f)) }
{
    match rows {
        Some(own) => {
            let long = terms.len();
            if !are_long(&own, long) {
                return no_truth(scope, arena);
            }
            let needed = needed_parts(scope, arena, count, &terms)?;
            judged(arena, Node::Table(terms, own), needed)
        }
        None => no_truth(scope, arena),
    }
}

/// Whether some numbers stand in a list as often as counts say. The numbers may lack a value.
pub fn counts_term(
    scope: Scope<'_, '_>,
    arena: &mut Arena,
    count: u64,
    terms: Vec<Term>,
    values: Option<Vec<i64>>,
    counts: Vec<Term>,
) -> Result<Term, Memory>
    requires one { All (λ t. t < length arena.old) terms.items }
    requires other { All (λ t. t < length arena.old) counts.items }
    ensures { (n : Numbering) → (cells : names.Env) → (nodes : List GroundNode) → (p : Place) → (e : ExprTree) → (f : ExprTree) → (g : ExprTree)
        → n.mode ≡ mode_in scope.entry → n.count ≡ count
        → AreScalarsOf n cells nodes arena.old e terms.items
        → ((r : Reading n cells) → scalars_in (evaluate n.mode r.values f) ≡ option_map (λ v. v.items) values)
        → AreScalarsOf n cells nodes arena.old g counts.items
        → IfOk result (IsTermOf n cells nodes arena.new (gcc p e f g)) }
{
    match values {
        Some(own) => {
            let many = own.len();
            let told = counts.len();
            if many != told {
                return no_truth(scope, arena);
            }
            let needed = needed_lists(scope, arena, count, &terms, &counts)?;
            judged(arena, Node::Gcc(terms, own, counts), needed)
        }
        None => no_truth(scope, arena),
    }
}

/// Whether some numbers stand in a list at least as often as other numbers say. Either may lack a value.
pub fn at_least_term(
    scope: Scope<'_, '_>,
    arena: &mut Arena,
    count: u64,
    terms: Vec<Term>,
    counts: Option<Vec<i64>>,
    values: Option<Vec<i64>>,
) -> Result<Term, Memory>
    requires { All (λ t. t < length arena.old) terms.items }
    ensures { (n : Numbering) → (cells : names.Env) → (nodes : List GroundNode) → (p : Place) → (e : ExprTree) → (f : ExprTree) → (g : ExprTree)
        → n.mode ≡ mode_in scope.entry → n.count ≡ count
        → AreScalarsOf n cells nodes arena.old e terms.items
        → ((r : Reading n cells) → scalars_in (evaluate n.mode r.values f) ≡ option_map (λ v. v.items) counts)
        → ((r : Reading n cells) → scalars_in (evaluate n.mode r.values g) ≡ option_map (λ v. v.items) values)
        → IfOk result (IsTermOf n cells nodes arena.new (at_least p e f g)) }
{
    let Some(bounds) = counts else {
        return no_truth(scope, arena);
    };
    match values {
        Some(own) => {
            let many = own.len();
            let told = bounds.len();
            if many != told {
                return no_truth(scope, arena);
            }
            let needed = needed_parts(scope, arena, count, &terms)?;
            judged(arena, Node::AtLeast(terms, bounds, own), needed)
        }
        None => no_truth(scope, arena),
    }
}

/// The same with "at most".
pub fn at_most_term(
    scope: Scope<'_, '_>,
    arena: &mut Arena,
    count: u64,
    terms: Vec<Term>,
    counts: Option<Vec<i64>>,
    values: Option<Vec<i64>>,
) -> Result<Term, Memory>
    requires { All (λ t. t < length arena.old) terms.items }
    ensures { (n : Numbering) → (cells : names.Env) → (nodes : List GroundNode) → (p : Place) → (e : ExprTree) → (f : ExprTree) → (g : ExprTree)
        → n.mode ≡ mode_in scope.entry → n.count ≡ count
        → AreScalarsOf n cells nodes arena.old e terms.items
        → ((r : Reading n cells) → scalars_in (evaluate n.mode r.values f) ≡ option_map (λ v. v.items) counts)
        → ((r : Reading n cells) → scalars_in (evaluate n.mode r.values g) ≡ option_map (λ v. v.items) values)
        → IfOk result (IsTermOf n cells nodes arena.new (at_most p e f g)) }
{
    let Some(bounds) = counts else {
        return no_truth(scope, arena);
    };
    match values {
        Some(own) => {
            let many = own.len();
            let told = bounds.len();
            if many != told {
                return no_truth(scope, arena);
            }
            let needed = needed_parts(scope, arena, count, &terms)?;
            judged(arena, Node::AtMost(terms, bounds, own), needed)
        }
        None => no_truth(scope, arena),
    }
}
