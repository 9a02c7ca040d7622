//! Long sums: two terms after another give way to one, until three are left.

ghost use Rattle.std.specs.Prelude.{◌≡◌, ◌<◌, ◌≤◌, ◌+◌, ◌∷◌, length, map, IfOk, IsTrue, MatchOption, OnOk};
ghost use Rattle.std.specs.List.{All};
ghost use Rattle.std.specs.List.Sorted.{IsPermutation};
ghost use Rattle.enc_atoms.specs.Atoms.{Adds};
ghost use Rattle.enc_linear.specs.Bounds.{HasBounds};
ghost use Rattle.enc_linear.specs.Folding.{GiveWay};
ghost use Rattle.enc_linear.specs.Terms.{IsTermOf};
ghost use Rattle.enc_var.specs.Layouts.{IsLayoutOf};
ghost use Rattle.ep_base.specs.Numbers.{compare_holds};
ghost use Rattle.ep_base.specs.Reads.{weighted_sum};
ghost use Rattle.ep_flat.specs.Cons.{is_as_said, number_at};

use crate::bounds::{Bounds, added, bounds_of_sum, without};
use crate::comparison::Comparison;
use crate::joining::joined;
use crate::linear::{add_said, terms_of};
use crate::terms::Term;
use cnf_core::Formula;
use enc_var::Layout;
use ep_base::{CompareOp, Memory};
use std::alloc::Global;
use std::collections::VecDeque;

/// So many steps may two terms have between them to be joined before wider ones are, whatever they are worth.
const MOST_PAIRS: usize = 4;

/// The terms that are left of a sum.
#[derive(Drop)]
struct Sum {
    /// The terms.
    terms: VecDeque<Term>,
    /// Between which numbers lies what they come to.
    bounds: Bounds,
}

/// Between how many numbers lies what a term is worth.
fn span(term: &Term) -> i128 {
    term.bounds.greatest.saturating_sub(term.bounds.least)
}

/// The terms in order, that of the least span first.
fn in_order(terms: VecDeque<Term>) -> Result<VecDeque<Term>, Memory>
    ensures { IfOk result (λ sorted. IsPermutation terms.items sorted.items) }
{
    let mut list = terms.into_vec();
    list.sort_by_key(span)?;
    Ok(VecDeque::from_vec(list))
}

/// The term that two give way to, which were taken out of the terms of a sum. The bounds are those of all the terms,
/// before and after.
fn join(
    alloc: Global,
    layout: &mut Layout,
    f: &mut Formula,
    sum: &mut Sum,
    first: &Term,
    second: &Term,
    c: Comparison,
) -> Result<Term, Memory>
    requires from_new { IsTrue f.old.from_new }
    requires is_layout { IsLayoutOf layout.old f.old }
    requires truth { MatchOption c.truth (length layout.old ≡ length layout.old) (λ t. t < length layout.old) }
    requires first { IsTermOf layout.old f.old first.now }
    requires second { IsTermOf layout.old f.old second.now }
    requires terms { All (IsTermOf layout.old f.old) sum.old.terms.items }
    requires bounds { HasBounds sum.old.bounds (first.now ∷ second.now ∷ sum.old.terms.items) }
    ensures terms { OnOk result (sum.new.terms.items ≡ sum.old.terms.items) }
    ensures bounds { IfOk result (λ whole. HasBounds sum.new.bounds (whole ∷ sum.old.terms.items)) }
    ensures gives_way { IfOk result (λ whole. GiveWay c layout.old f.old (first.now ∷ second.now ∷ sum.old.terms.items)
        layout.new f.new (whole ∷ sum.old.terms.items)) }
{
    let others = without(sum.bounds, first.bounds)?;
    let rest = without(others, second.bounds)?;
    let whole = joined(alloc, layout, f, first, second, rest, c)?;
    sum.bounds = added(rest, whole.bounds)?;
    Ok(whole)
}

/// Lets the first two terms give way to one.
fn join_front(
    alloc: Global,
    layout: &mut Layout,
    f: &mut Formula,
    sum: &mut Sum,
    c: Comparison,
) -> Result<(), Memory>
    requires from_new { IsTrue f.old.from_new }
    requires is_layout { IsLayoutOf layout.old f.old }
    requires truth { MatchOption c.truth (length layout.old ≡ length layout.old) (λ t. t < length layout.old) }
    requires terms { All (IsTermOf layout.old f.old) sum.old.terms.items }
    requires bounds { HasBounds sum.old.bounds sum.old.terms.items }
    ensures length { OnOk result (length sum.new.terms.items + 1 ≡ length sum.old.terms.items) }
    ensures bounds { OnOk result (HasBounds sum.new.bounds sum.new.terms.items) }
    ensures gives_way { OnOk result
        (GiveWay c layout.old f.old sum.old.terms.items layout.new f.new sum.new.terms.items) }
{
    let Some(first) = sum.terms.pop_front() else {
        return Err(Memory);
    };
    let Some(second) = sum.terms.pop_front() else {
        return Err(Memory);
    };
    let whole = join(alloc, layout, f, sum, &first, &second, c)?;
    sum.terms.push_front(whole)?;
    Ok(())
}

/// Lets the last two terms give way to one.
fn join_back(
    alloc: Global,
    layout: &mut Layout,
    f: &mut Formula,
    sum: &mut Sum,
    c: Comparison,
) -> Result<(), Memory>
    requires from_new { IsTrue f.old.from_new }
    requires is_layout { IsLayoutOf layout.old f.old }
    requires truth { MatchOption c.truth (length layout.old ≡ length layout.old) (λ t. t < length layout.old) }
    requires terms { All (IsTermOf layout.old f.old) sum.old.terms.items }
    requires bounds { HasBounds sum.old.bounds sum.old.terms.items }
    ensures length { OnOk result (length sum.new.terms.items + 1 ≡ length sum.old.terms.items) }
    ensures bounds { OnOk result (HasBounds sum.new.bounds sum.new.terms.items) }
    ensures gives_way { OnOk result
        (GiveWay c layout.old f.old sum.old.terms.items layout.new f.new sum.new.terms.items) }
{
    let Some(first) = sum.terms.pop_back() else {
        return Err(Memory);
    };
    let Some(second) = sum.terms.pop_back() else {
        return Err(Memory);
    };
    let whole = join(alloc, layout, f, sum, &first, &second, c)?;
    sum.terms.push_back(whole)?;
    Ok(())
}

/// How many pairs of steps two neighbours have; many where there are no two.
fn pairs(terms: &VecDeque<Term>, place: usize, next: usize) -> usize {
    match (terms.get(place), terms.get(next)) {
        (Some(one), Some(other)) => one.steps.len().saturating_mul(other.steps.len()),
        _ => usize::MAX,
    }
}

/// By how much a term's worth changes from each step to the next; none where that isn't one number.
fn gap(term: &Term) -> Option<u128> {
    let [first, second, ..] = term.steps.as_slice() else {
        return None;
    };
    let gap = second.worth.abs_diff(first.worth);
    for next in 1..term.steps.len() {
        if term.steps[next].worth.abs_diff(term.steps[next - 1].worth) != gap {
            return None;
        }
    }
    Some(gap)
}

/// Whether the first two terms are as wide as each other and come by the same steps, evenly, so that their sums are few, or
/// have few steps.
fn are_alike(terms: &VecDeque<Term>) -> bool {
    match (terms.get(0), terms.get(1)) {
        (Some(one), Some(other)) => {
            let same = span(one) == span(other) && gap(one).is_some() && gap(one) == gap(other);
            same || pairs(terms, 0, 1) <= MOST_PAIRS
        }
        _ => false,
    }
}

/// Lets the first two terms give way to one, where they are alike and more than three terms are left.
fn join_alike(
    alloc: Global,
    layout: &mut Layout,
    f: &mut Formula,
    sum: &mut Sum,
    c: Comparison,
) -> Result<(), Memory>
    requires from_new { IsTrue f.old.from_new }
    requires is_layout { IsLayoutOf layout.old f.old }
    requires truth { MatchOption c.truth (length layout.old ≡ length layout.old) (λ t. t < length layout.old) }
    requires terms { All (IsTermOf layout.old f.old) sum.old.terms.items }
    requires bounds { HasBounds sum.old.bounds sum.old.terms.items }
    ensures length { OnOk result (length sum.new.terms.items ≤ length sum.old.terms.items) }
    ensures bounds { OnOk result (HasBounds sum.new.bounds sum.new.terms.items) }
    ensures gives_way { OnOk result
        (GiveWay c layout.old f.old sum.old.terms.items layout.new f.new sum.new.terms.items) }
{
    if sum.terms.len() <= 3 {
        return Ok(());
    }
    if !are_alike(&sum.terms) {
        return Ok(());
    }
    join_front(alloc, layout, f, sum, c)
}

/// Puts the first term behind the others.
fn turn(terms: &mut VecDeque<Term>)
    ensures { IsPermutation terms.old.items terms.new.items }
{
    if terms.len() == 0 {
        return;
    }
    terms.rotate_left(1);
}

/// Goes round the terms once, and joins neighbours that are alike.
fn group_round(
    alloc: Global,
    layout: &mut Layout,
    f: &mut Formula,
    sum: &mut Sum,
    c: Comparison,
) -> Result<(), Memory>
    requires from_new { IsTrue f.old.from_new }
    requires is_layout { IsLayoutOf layout.old f.old }
    requires truth { MatchOption c.truth (length layout.old ≡ length layout.old) (λ t. t < length layout.old) }
    requires terms { All (IsTermOf layout.old f.old) sum.old.terms.items }
    requires bounds { HasBounds sum.old.bounds sum.old.terms.items }
    ensures length { OnOk result (length sum.new.terms.items ≤ length sum.old.terms.items) }
    ensures bounds { OnOk result (HasBounds sum.new.bounds sum.new.terms.items) }
    ensures gives_way { OnOk result
        (GiveWay c layout.old f.old sum.old.terms.items layout.new f.new sum.new.terms.items) }
{
    for _turn in 0..sum.terms.len() {
        join_alike(alloc, layout, f, sum, c)?;
        turn(&mut sum.terms);
    }
    Ok(())
}

/// Joins terms that are alike, two and two, so that equal ones are counted by a balanced tree.
fn group(
    alloc: Global,
    layout: &mut Layout,
    f: &mut Formula,
    sum: &mut Sum,
    c: Comparison,
) -> Result<(), Memory>
    requires from_new { IsTrue f.old.from_new }
    requires is_layout { IsLayoutOf layout.old f.old }
    requires truth { MatchOption c.truth (length layout.old ≡ length layout.old) (λ t. t < length layout.old) }
    requires terms { All (IsTermOf layout.old f.old) sum.old.terms.items }
    requires bounds { HasBounds sum.old.bounds sum.old.terms.items }
    ensures bounds { OnOk result (HasBounds sum.new.bounds sum.new.terms.items) }
    ensures gives_way { OnOk result
        (GiveWay c layout.old f.old sum.old.terms.items layout.new f.new sum.new.terms.items) }
{
    let mut before = usize::MAX;
    'rounds: while sum.terms.len() < before {
        before = sum.terms.len();
        group_round(alloc, layout, f, sum, c)?;
    }
    Ok(())
}

/// Lets the two terms at that end give way to one which have fewer pairs of steps.
fn join_end(
    alloc: Global,
    layout: &mut Layout,
    f: &mut Formula,
    sum: &mut Sum,
    c: Comparison,
) -> Result<(), Memory>
    requires from_new { IsTrue f.old.from_new }
    requires is_layout { IsLayoutOf layout.old f.old }
    requires truth { MatchOption c.truth (length layout.old ≡ length layout.old) (λ t. t < length layout.old) }
    requires terms { All (IsTermOf layout.old f.old) sum.old.terms.items }
    requires bounds { HasBounds sum.old.bounds sum.old.terms.items }
    ensures length { OnOk result (length sum.new.terms.items + 1 ≡ length sum.old.terms.items) }
    ensures bounds { OnOk result (HasBounds sum.new.bounds sum.new.terms.items) }
    ensures gives_way { OnOk result
        (GiveWay c layout.old f.old sum.old.terms.items layout.new f.new sum.new.terms.items) }
{
    let last = sum.terms.len().saturating_sub(1);
    if pairs(&sum.terms, 0, 1) <= pairs(&sum.terms, last, last.saturating_sub(1)) {
        return join_front(alloc, layout, f, sum, c);
    }
    join_back(alloc, layout, f, sum, c)
}

/// Joins terms at either end until three terms are left.
fn fold(
    alloc: Global,
    layout: &mut Layout,
    f: &mut Formula,
    sum: &mut Sum,
    c: Comparison,
) -> Result<(), Memory>
    requires from_new { IsTrue f.old.from_new }
    requires is_layout { IsLayoutOf layout.old f.old }
    requires truth { MatchOption c.truth (length layout.old ≡ length layout.old) (λ t. t < length layout.old) }
    requires terms { All (IsTermOf layout.old f.old) sum.old.terms.items }
    requires bounds { HasBounds sum.old.bounds sum.old.terms.items }
    ensures { OnOk result
        (GiveWay c layout.old f.old sum.old.terms.items layout.new f.new sum.new.terms.items) }
{
    'ends: while 3 < sum.terms.len() {
        join_end(alloc, layout, f, sum, c)?;
    }
    Ok(())
}

/// Few terms that others give way to.
fn folded(
    alloc: Global,
    layout: &mut Layout,
    f: &mut Formula,
    terms: Vec<Term>,
    c: Comparison,
) -> Result<Vec<Term>, Memory>
    requires from_new { IsTrue f.old.from_new }
    requires is_layout { IsLayoutOf layout.old f.old }
    requires truth { MatchOption c.truth (length layout.old ≡ length layout.old) (λ t. t < length layout.old) }
    requires terms { All (IsTermOf layout.old f.old) terms.items }
    ensures { IfOk result (λ few. GiveWay c layout.old f.old terms.items layout.new f.new few.items) }
{
    let bounds = bounds_of_sum(&terms)?;
    let terms = in_order(VecDeque::from_vec(terms))?;
    let mut sum = Sum { terms, bounds };
    group(alloc, layout, f, &mut sum, c)?;
    let Sum { terms, bounds } = sum;
    let terms = in_order(terms)?;
    let mut sum = Sum { terms, bounds };
    fold(alloc, layout, f, &mut sum, c)?;
    let mut few = sum.terms.into_vec();
    few.sort_by_key(|term| term.steps.len())?;
    Ok(few)
}

/// Adds that a sum compares so with a number, or that the variable of its truth says whether it does.
pub(crate) fn add_linear(
    alloc: Global,
    layout: &mut Layout,
    f: &mut Formula,
    truth: Option<u64>,
    parts: &[(i64, u64)],
    op: CompareOp,
    number: i64,
) -> Result<(), Memory>
    requires from_new { IsTrue f.old.from_new }
    requires is_layout { IsLayoutOf layout.old f.old }
    requires truth { MatchOption truth (length layout.old ≡ length layout.old) (λ t. t < length layout.old) }
    requires parts { All (λ part. part.1 < length layout.old) parts.now }
    ensures { OnOk result (Adds layout.old f.old layout.new f.new (λ values. IsTrue (is_as_said values truth
        (compare_holds op (weighted_sum (map (λ part. (part.0, number_at values part.1)) parts.now)) number)))) }
{
    let terms = terms_of(alloc, layout, parts)?;
    let c = Comparison { truth, op, number };
    let few = folded(alloc, layout, f, terms, c)?;
    add_said(alloc, layout, f, c.truth, &few, c.op, c.number)
}
