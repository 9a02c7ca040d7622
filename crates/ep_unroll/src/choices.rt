//! Reads of what was unrolled: a term has the number that is found among the scalars of a matrix.

ghost use Rattle.std.specs.Prelude.{◌≡◌, ◌<◌, ◌≤◌, ℕ, ◌++◌, ◌∷◌, [], true, false, ℤ, List, None, Option, Some, IfOk, IfSome, IsSome, OnOk, length, map, option_map};
ghost use Rattle.std.specs.List.{All};
ghost use Rattle.ep_base.specs.declared.places.Place.{Place};
ghost use Rattle.ep_ground.specs.Nodes.{GroundNode, all_of, pick};
ghost use Rattle.ep_ground.specs.Terms.{term_value};
ghost use Rattle.ep_tree.specs.Trees.{ExprTree, read};
ghost use Rattle.ep_tree.specs.Values.{all_defined};
ghost use Rattle.ep_tree.specs.Views.{expr_tree, indices_of};
ghost use Rattle.ep_tree.specs.declared.syntax.Expr.{Expr as EachExpr};
ghost use Rattle.ep_eval.specs.Scopes.{env_in, mode_in};
ghost use Rattle.ep_unroll.specs.Blocks.{one_index};
ghost use Rattle.ep_unroll.specs.Firsts.{numbering_of};
ghost use Rattle.ep_unroll.specs.Growing.{Grows, Puts};
ghost use Rattle.ep_unroll.specs.Meanings.{AreTerms, Means};
ghost use Rattle.ep_unroll.specs.PartReads.{CanBeSafe, IsAlone, IsChosen, IsFound, IsTruth, IsWhole};
ghost use Rattle.ep_unroll.specs.Picks.{AreKnown, AreSlotsOf, IsSlot, SlotsMean};
ghost use Rattle.ep_unroll.specs.Readings.{Numbering, Reading};

use super::entries::known_entries;
use super::firsts::CellTable;
use super::growing::put;
use super::lefts::left_matrix;
use super::needs::needed_terms;
use super::picks::{Entries, one_entry, push_terms};
use super::reads::{finish_read, is_judged, is_matrix};
use super::slots::{Slot, open_terms};
use super::totals::is_total;
use super::unrolled::Unrolled;
use ep_base::{Key, Memory};
use ep_eval::{Scope, type_within};
use ep_ground::{Arena, Node, Term};
use ep_tree::Expr;
use std::alloc::Global;

/// Whether terms have values whatever numbers the cells have.
fn are_total(arena: &Arena, count: u64, terms: &[Term]) -> bool
    requires { All (λ t. t < length arena.now) terms.now }
    ensures { result ≡ true → (numbers : List ℤ) → count ≤ length numbers → All (λ t. IsSome (term_value arena.now numbers t)) terms.now }
{
    for term in terms {
        if !is_total(arena, count, *term) {
            return false;
        }
    }
    true
}

/// Whether there is no term.
pub fn is_none(terms: &[Term]) -> bool
    ensures none { result ≡ true → terms.now ≡ [] }
    ensures some { result ≡ false → 0 < length terms.now }
{
    match terms.split_first() {
        Some(_) => false,
        None => true,
    }
}

/// The first term, where it is the only one and is found without an index.
fn alone(entries: &Entries) -> Option<Term>
    ensures { IfSome result (IsAlone entries.now.keys.items entries.now.terms.items) }
{
    let Some((key, _)) = entries.keys.split_first() else {
        return None;
    };
    let Some((term, others)) = entries.terms.split_first() else {
        return None;
    };
    if key.numbers().len() > 0 || !is_none(others) {
        return None;
    }
    Some(*term)
}

/// The term that is found without an index; what has no value where there is none.
fn only_term(arena: &mut Arena, entries: &Entries) -> Result<Term, Memory>
    requires { All (λ t. t < length arena.old) entries.now.terms.items }
    ensures { IfOk result (IsFound arena.old arena.new entries.now.keys.items entries.now.terms.items []) }
{
    if is_none(&entries.terms) {
        return put(arena, Node::Undefined);
    }
    match alone(entries) {
        Some(term) => Ok(term),
        // What is found without an index is found once.
        None => Err(Memory),
    }
}

/// The term that chooses a number.
fn pick_term(arena: &mut Arena, entries: Entries, indices: Vec<Term>) -> Result<Term, Memory>
    requires terms { All (λ t. t < length arena.old) entries.terms.items }
    requires indices { All (λ t. t < length arena.old) indices.items }
    ensures { IfOk result (Puts arena.old arena.new (pick entries.terms.items entries.keys.items indices.items)) }
{
    put(arena, Node::Pick(entries.terms, entries.keys, indices))
}

/// The term of the number that is found under the numbers of other terms.
fn found_term(arena: &mut Arena, entries: Entries, indices: Vec<Term>) -> Result<Term, Memory>
    requires terms { All (λ t. t < length arena.old) entries.terms.items }
    requires indices { All (λ t. t < length arena.old) indices.items }
    ensures { IfOk result (IsFound arena.old arena.new entries.keys.items entries.terms.items indices.items) }
{
    if is_none(&indices) {
        return only_term(arena, &entries);
    }
    pick_term(arena, entries, indices)
}

/// A term's number, where all these others have values too.
pub fn whole_term(arena: &mut Arena, term: Term, others: Vec<Term>) -> Result<Term, Memory>
    requires term { term < length arena.old }
    requires others { All (λ t. t < length arena.old) others.items }
    ensures { IfOk result (IsWhole arena.old arena.new others.items term) }
{
    if is_none(&others) {
        return Ok(term);
    }
    put(arena, Node::Whole(term, others))
}

/// The same of the number that is found under the numbers of other terms.
fn chosen_number(
    arena: &mut Arena,
    entries: Entries,
    indices: Vec<Term>,
    others: Vec<Term>,
) -> Result<Term, Memory>
    requires terms { All (λ t. t < length arena.old) entries.terms.items }
    requires indices { All (λ t. t < length arena.old) indices.items }
    requires others { All (λ t. t < length arena.old) others.items }
    ensures { IfOk result (IsChosen arena.old arena.new entries.keys.items entries.terms.items indices.items others.items) }
{
    let term = found_term(arena, entries, indices)?;
    whole_term(arena, term, others)
}

/// Adds keys.
fn push_keys(alloc: Global, keys: &mut Vec<Key>, others: &[Key]) -> Result<(), Memory>
    ensures { OnOk result (keys.new.items ≡ keys.old.items ++ others.now) }
{
    for other in others {
        keys.push(other.copy(alloc)?)?;
    }
    Ok(())
}

/// Whether a term is 1: the truth that it has, and false where it has no value.
fn truth_of(alloc: Global, arena: &mut Arena, term: Term) -> Result<Term, Memory>
    requires { term < length arena.old }
    ensures { IfOk result (Puts arena.old arena.new (all_of (term ∷ []))) }
{
    let mut parts = Vec::new(alloc);
    parts.push(term)?;
    put(arena, Node::And(parts))
}

/// Whether entries and indices have values whatever numbers the cells have, and nothing else has to.
fn can_be_safe(
    arena: &Arena,
    count: u64,
    entries: &Entries,
    indices: &[Term],
    others: &[Term],
) -> bool
    requires terms { All (λ t. t < length arena.now) entries.now.terms.items }
    requires indices { All (λ t. t < length arena.now) indices.now }
    ensures { result ≡ true → CanBeSafe arena.now count entries.now.terms.items indices.now others.now }
{
    if is_none(indices) {
        return false;
    }
    if !is_none(others) {
        return false;
    }
    if !are_total(arena, count, &entries.terms) {
        return false;
    }
    are_total(arena, count, indices)
}

/// Whether 1 is found under the numbers of other terms, where all have values: 0 stands where nothing is found.
fn safe_truth(
    alloc: Global,
    arena: &mut Arena,
    entries: &Entries,
    indices: Vec<Term>,
) -> Result<Term, Memory>
    requires terms { All (λ t. t < length arena.old) entries.now.terms.items }
    requires indices { All (λ t. t < length arena.old) indices.items }
    ensures { (count : ℕ) → CanBeSafe arena.old count entries.now.terms.items indices.items []
        → IfOk result (IsTruth arena.old arena.new count entries.now.keys.items entries.now.terms.items indices.items []) }
{
    let none = put(arena, Node::Const(0))?;
    let mut all = one_entry(alloc, none)?;
    push_keys(alloc, &mut all.keys, &entries.keys)?;
    push_terms(&mut all.terms, &entries.terms)?;
    let term = put(arena, Node::SafePick(all.terms, all.keys, indices))?;
    truth_of(alloc, arena, term)
}

/// Whether 1 is found under the numbers of other terms; false where nothing is found, or something has no value.
fn chosen_truth(
    alloc: Global,
    arena: &mut Arena,
    count: u64,
    entries: Entries,
    indices: Vec<Term>,
    others: Vec<Term>,
) -> Result<Term, Memory>
    requires terms { All (λ t. t < length arena.old) entries.terms.items }
    requires indices { All (λ t. t < length arena.old) indices.items }
    requires others { All (λ t. t < length arena.old) others.items }
    ensures { IfOk result (IsTruth arena.old arena.new count entries.keys.items entries.terms.items indices.items others.items) }
{
    if can_be_safe(arena, count, &entries, &indices, &others) {
        return safe_truth(alloc, arena, &entries, indices);
    }
    let term = chosen_number(arena, entries, indices, others)?;
    truth_of(alloc, arena, term)
}

/// A read, of what was unrolled, with these indices.
fn chosen<'a>(
    scope: Scope<'_, 'a>,
    table: &CellTable,
    arena: &mut Arena,
    e: &Expr,
    known: &Unrolled<'a>,
    slots: &[Slot],
) -> Result<Unrolled<'a>, Memory>
    requires known { AreTerms (length arena.old) known.now }
    requires slots { All (IsSlot (length arena.old)) slots.now }
    ensures { (nodes : List GroundNode) → (p : Place) → (m : ExprTree) → (indices : List (Option EachExpr)) → expr_tree e.now ≡ read p m (indices_of indices)
        → Means (numbering_of (mode_in scope.entry) table.now) (env_in scope.entry) nodes arena.old m known.now
        → AreSlotsOf (numbering_of (mode_in scope.entry) table.now) (env_in scope.entry) nodes arena.old indices slots.now
        → IfOk result (Means (numbering_of (mode_in scope.entry) table.now) (env_in scope.entry) nodes arena.new (expr_tree e.now)) }
{
    let ty = type_within(scope, e)?;
    if is_matrix(ty) {
        return left_matrix(scope.alloc, arena, table.count, known, slots);
    }
    let others = needed_terms(scope.alloc, arena, table.count, known)?;
    let entries = known_entries(scope.alloc, arena, known, slots)?;
    let indices = open_terms(scope.alloc, slots)?;
    if is_judged(scope, ty) {
        let term = chosen_truth(scope.alloc, arena, table.count, entries, indices, others)?;
        return Ok(Unrolled::Number(term));
    }
    let term = chosen_number(arena, entries, indices, others)?;
    Ok(Unrolled::Number(term))
}

/// A read in which an index has no number.
fn read_without<'a>(scope: Scope<'_, 'a>, e: &Expr) -> Result<Unrolled<'a>, Memory>
    ensures { (n : Numbering) → (nodes : List GroundNode) → (mid : List GroundNode) → (p : Place) → (m : ExprTree) → (indices : List (Option EachExpr))
        → n.mode ≡ mode_in scope.entry → expr_tree e.now ≡ read p m (indices_of indices) → Grows nodes mid
        → ((r : Reading n (env_in scope.entry)) → all_defined (map (one_index n.mode r.values) indices) ≡ None)
        → IfOk result (Means n (env_in scope.entry) nodes mid (expr_tree e.now)) }
{
    let ty = type_within(scope, e)?;
    finish_read(scope, ty, Unrolled::Fixed(None))
}

/// A read, of what was unrolled, by what stands in the places of its indices.
pub fn read_with<'a>(
    scope: Scope<'_, 'a>,
    table: &CellTable,
    arena: &mut Arena,
    e: &Expr,
    known: Unrolled<'a>,
    slots: Option<Vec<Slot>>,
) -> Result<Unrolled<'a>, Memory>
    requires known { AreTerms (length arena.old) known }
    requires slots { AreKnown (length arena.old) (option_map (λ v. v.items) slots) }
    ensures { (nodes : List GroundNode) → (p : Place) → (m : ExprTree) → (indices : List (Option EachExpr)) → expr_tree e.now ≡ read p m (indices_of indices)
        → Means (numbering_of (mode_in scope.entry) table.now) (env_in scope.entry) nodes arena.old m known.entry
        → SlotsMean (numbering_of (mode_in scope.entry) table.now) (env_in scope.entry) nodes arena.old indices (option_map (λ v. v.items) slots)
        → IfOk result (Means (numbering_of (mode_in scope.entry) table.now) (env_in scope.entry) nodes arena.new (expr_tree e.now)) }
{
    match slots {
        Some(slots) => chosen(scope, table, arena, e, &known, &slots),
        None => read_without(scope, e),
    }
}
