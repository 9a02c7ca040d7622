//! Lexicographic orders. A chain of variables goes along both lists: the one at a place is 1 where the numbers before that
//! place are the same, so there the numbers have to be in order.

ghost use Rattle.std.specs.Prelude.{◌≡◌, ◌<◌, ◌≤◌, ◌+◌, ◌⊎◌, ◌≤ℤ◌, ◌↔◌, pos, ℕ, true, length, IsTrue, OnOk, Some, slice_index_or};
ghost use Rattle.ep_base.specs.Numbers.{lex_holds};
ghost use Rattle.ep_flat.specs.Cons.{is_as_said, numbers_of_vars, number_at};
ghost use Rattle.enc_atoms.specs.Atoms.{Adds};
ghost use Rattle.enc_atoms.specs.Steps.{AreAtomsOf, AreOf, HasTruth, IsReady, Unless};
ghost use Rattle.enc_table.specs.Orders.{EndsBadly, EndsWell, IsChain, IsNext, IsStep, is_before};

use crate::tables::add_is;
use cnf_core::Formula;
use enc_atoms::{Atom, add_clause, add_decided, add_guarded, new_truths};
use enc_var::Layout;
use ep_base::{LexOp, Memory};
use ep_numbers::listed;
use std::alloc::Global;

/// Adds that one variable is at most a number where another is, where no atom of the guard holds.
fn add_bound(
    alloc: Global,
    layout: &Layout,
    f: &mut Formula,
    guard: &[Atom],
    x: u64,
    y: u64,
    number: i64,
) -> Result<(), Memory>
    requires ready { IsReady layout.now f.old }
    requires guard { AreAtomsOf layout.now guard.now }
    requires x { x < length layout.now }
    requires y { y < length layout.now }
    ensures { OnOk result (Adds layout.now f.old layout.now f.new (Unless guard.now
        (λ values. number_at values y ≤ℤ number → number_at values x ≤ℤ number))) }
{
    let atoms = [Atom::above(y, number), Atom::at_most(x, number)];
    add_guarded(alloc, layout, f, guard, &atoms)
}

/// Adds that one variable is at most another, where no atom of the guard holds.
fn add_at_most(
    alloc: Global,
    layout: &Layout,
    f: &mut Formula,
    guard: &[Atom],
    x: u64,
    y: u64,
) -> Result<(), Memory>
    requires ready { IsReady layout.now f.old }
    requires guard { AreAtomsOf layout.now guard.now }
    requires x { x < length layout.now }
    requires y { y < length layout.now }
    ensures { OnOk result (Adds layout.now f.old layout.now f.new (Unless guard.now
        (λ values. number_at values x ≤ℤ number_at values y))) }
{
    let numbers = listed(alloc, layout.domain(y))?;
    for number in &numbers {
        add_bound(alloc, layout, f, guard, x, y, *number)?;
    }
    Ok(())
}

/// Adds that a variable is 1 where one variable is a number and another is at most it, where no atom of the guard holds.
fn add_next(
    alloc: Global,
    layout: &Layout,
    f: &mut Formula,
    guard: &[Atom],
    x: u64,
    y: u64,
    next: u64,
    number: i64,
) -> Result<(), Memory>
    requires ready { IsReady layout.now f.old }
    requires guard { AreAtomsOf layout.now guard.now }
    requires x { x < length layout.now }
    requires y { y < length layout.now }
    requires next { next < length layout.now }
    ensures { OnOk result (Adds layout.now f.old layout.now f.new
        (Unless guard.now (IsNext x y next number))) }
{
    let atoms = [
        Atom::is_not(x, number),
        Atom::above(y, number),
        Atom::is(next, 1),
    ];
    add_guarded(alloc, layout, f, guard, &atoms)
}

/// Adds that a variable is 1 where the second of two others is at most the first, where no atom of the guard holds.
fn add_nexts(
    alloc: Global,
    layout: &Layout,
    f: &mut Formula,
    guard: &[Atom],
    x: u64,
    y: u64,
    next: u64,
) -> Result<(), Memory>
    requires ready { IsReady layout.now f.old }
    requires guard { AreAtomsOf layout.now guard.now }
    requires x { x < length layout.now }
    requires y { y < length layout.now }
    requires next { next < length layout.now }
    ensures { OnOk result (Adds layout.now f.old layout.now f.new (Unless guard.now
        (λ values. number_at values y ≤ℤ number_at values x → number_at values next ≡ pos 1))) }
{
    let numbers = listed(alloc, layout.domain(x))?;
    for number in &numbers {
        add_next(alloc, layout, f, guard, x, y, next, *number)?;
    }
    Ok(())
}

/// Adds that where a link of the chain is 1, the two variables at its place are in order, and where they are the same the
/// next link is 1.
fn add_step(
    alloc: Global,
    layout: &Layout,
    f: &mut Formula,
    link: u64,
    x: u64,
    y: u64,
    next: u64,
) -> Result<(), Memory>
    requires ready { IsReady layout.now f.old }
    requires link { link < length layout.now }
    requires x { x < length layout.now }
    requires y { y < length layout.now }
    requires next { next < length layout.now }
    ensures { OnOk result (Adds layout.now f.old layout.now f.new (IsStep link x y next)) }
{
    let guard = [Atom::is_not(link, 1)];
    add_at_most(alloc, layout, f, &guard, x, y)?;
    add_nexts(alloc, layout, f, &guard, x, y, next)
}

/// Adds the steps of a chain along the first so many variables of two lists.
fn add_steps(
    alloc: Global,
    layout: &Layout,
    f: &mut Formula,
    links: &[u64],
    xs: &[u64],
    ys: &[u64],
    count: usize,
) -> Result<(), Memory>
    requires ready { IsReady layout.now f.old }
    requires many { length links.now ≡ count + 1 }
    requires first { count ≤ length xs.now }
    requires second { count ≤ length ys.now }
    requires links { AreOf layout.now links.now }
    requires xs { AreOf layout.now xs.now }
    requires ys { AreOf layout.now ys.now }
    ensures { OnOk result (Adds layout.now f.old layout.now f.new (λ values. (k : ℕ) → k < count
        → IsStep (slice_index_or links.now k 0) (slice_index_or xs.now k 0) (slice_index_or ys.now k 0)
        (slice_index_or links.now (k + 1) 0) values)) }
{
    for k in 0..count {
        add_step(alloc, layout, f, links[k], xs[k], ys[k], links[k + 1])?;
    }
    Ok(())
}

/// Whether lists of these lengths that are the same as far as both go are out of order.
fn ends_badly(strict: bool, first: usize, second: usize) -> bool
    ensures { IsTrue result ↔ EndsBadly strict first second }
{
    if second < first {
        return true;
    }
    strict && first == second
}

/// Adds that a variable isn't 1.
fn add_broken(alloc: Global, layout: &Layout, f: &mut Formula, link: u64) -> Result<(), Memory>
    requires ready { IsReady layout.now f.old }
    requires there { link < length layout.now }
    ensures { OnOk result (Adds layout.now f.old layout.now f.new
        (λ values. number_at values link ≡ pos 1 → ⊥)) }
{
    let atoms = [Atom::is_not(link, 1)];
    add_clause(alloc, layout, f, &atoms)
}

/// Adds that the last link isn't 1 where lists of these lengths, the same as far as both go, are out of order.
fn add_end(
    alloc: Global,
    layout: &Layout,
    f: &mut Formula,
    strict: bool,
    first: usize,
    second: usize,
    last: u64,
) -> Result<(), Memory>
    requires ready { IsReady layout.now f.old }
    requires last { last < length layout.now }
    ensures { OnOk result (Adds layout.now f.old layout.now f.new (EndsWell strict first second last)) }
{
    if ends_badly(strict, first, second) {
        return add_broken(alloc, layout, f, last);
    }
    Ok(())
}

/// How far two lists both go.
fn common(xs: &[u64], ys: &[u64]) -> usize
    ensures first { result ≤ length xs.now }
    ensures second { result ≤ length ys.now }
    ensures ends { (length xs.now ≤ result) ⊎ (length ys.now ≤ result) }
{
    if xs.len() < ys.len() {
        return xs.len();
    }
    ys.len()
}

/// Adds that variables are the links of a chain along two lists, as far as both go, whose first link is 1 where no atom of
/// the guard holds.
fn add_chain(
    alloc: Global,
    layout: &Layout,
    f: &mut Formula,
    guard: &[Atom],
    strict: bool,
    xs: &[u64],
    ys: &[u64],
    links: &[u64],
    count: usize,
) -> Result<(), Memory>
    requires ready { IsReady layout.now f.old }
    requires guard { AreAtomsOf layout.now guard.now }
    requires many { length links.now ≡ count + 1 }
    requires first { count ≤ length xs.now }
    requires second { count ≤ length ys.now }
    requires links { AreOf layout.now links.now }
    requires xs { AreOf layout.now xs.now }
    requires ys { AreOf layout.now ys.now }
    ensures { OnOk result (Adds layout.now f.old layout.now f.new
        (IsChain guard.now strict xs.now ys.now links.now count)) }
{
    add_is(alloc, layout, f, guard, links[0], 1)?;
    add_steps(alloc, layout, f, links, xs, ys, count)?;
    add_end(alloc, layout, f, strict, xs.len(), ys.len(), links[count])
}

/// Adds that the first list of variables comes before the second, or, if that is enough, that they are the same, where no
/// atom of the guard holds. Costs about eight literals for each number of a variable as far as both lists go.
fn add_before(
    alloc: Global,
    layout: &mut Layout,
    f: &mut Formula,
    guard: &[Atom],
    strict: bool,
    xs: &[u64],
    ys: &[u64],
) -> Result<(), Memory>
    requires ready { IsReady layout.old f.old }
    requires guard { AreAtomsOf layout.old guard.now }
    requires xs { AreOf layout.old xs.now }
    requires ys { AreOf layout.old ys.now }
    ensures { OnOk result (Adds layout.old f.old layout.new f.new (Unless guard.now
        (λ values. is_before strict (numbers_of_vars values xs.now) (numbers_of_vars values ys.now) ≡ true))) }
{
    let count = common(xs, ys);
    let links = new_truths(alloc, layout, f, count + 1)?;
    add_chain(alloc, layout, f, guard, strict, xs, ys, &links, count)
}

/// Adds that a variable is 1 exactly where the first list comes before the second, and else 0. Where it doesn't, the second
/// comes before the first, or, if that isn't enough to be before, they are the same.
fn encode_truth(
    alloc: Global,
    layout: &mut Layout,
    f: &mut Formula,
    truth: u64,
    strict: bool,
    xs: &[u64],
    ys: &[u64],
) -> Result<(), Memory>
    requires ready { IsReady layout.old f.old }
    requires truth { truth < length layout.old }
    requires xs { AreOf layout.old xs.now }
    requires ys { AreOf layout.old ys.now }
    ensures { OnOk result (Adds layout.old f.old layout.new f.new (λ values. IsTrue (is_as_said values (Some truth)
        (is_before strict (numbers_of_vars values xs.now) (numbers_of_vars values ys.now))))) }
{
    let on = [Atom::is_not(truth, 1)];
    let off = [Atom::is_not(truth, 0)];
    add_decided(alloc, layout, f, truth)?;
    add_before(alloc, layout, f, &on, strict, xs, ys)?;
    add_before(alloc, layout, f, &off, !strict, ys, xs)
}

/// Adds that the first list comes before the second, or that the variable of its truth is 1 exactly where it does, and
/// else 0.
fn encode_before(
    alloc: Global,
    layout: &mut Layout,
    f: &mut Formula,
    truth: Option<u64>,
    strict: bool,
    xs: &[u64],
    ys: &[u64],
) -> Result<(), Memory>
    requires ready { IsReady layout.old f.old }
    requires truth { HasTruth layout.old truth }
    requires xs { AreOf layout.old xs.now }
    requires ys { AreOf layout.old ys.now }
    ensures { OnOk result (Adds layout.old f.old layout.new f.new (λ values. IsTrue (is_as_said values truth
        (is_before strict (numbers_of_vars values xs.now) (numbers_of_vars values ys.now))))) }
{
    match truth {
        None => add_before(alloc, layout, f, &[], strict, xs, ys),
        Some(truth) => encode_truth(alloc, layout, f, truth, strict, xs, ys),
    }
}

/// Adds that two lists of variables compare so, or that the variable of its truth is 1 exactly where they do, and else 0.
pub(crate) fn encode_lex(
    alloc: Global,
    layout: &mut Layout,
    f: &mut Formula,
    truth: Option<u64>,
    op: LexOp,
    xs: &[u64],
    ys: &[u64],
) -> Result<(), Memory>
    requires ready { IsReady layout.old f.old }
    requires truth { HasTruth layout.old truth }
    requires xs { AreOf layout.old xs.now }
    requires ys { AreOf layout.old ys.now }
    ensures { OnOk result (Adds layout.old f.old layout.new f.new (λ values. IsTrue (is_as_said values truth
        (lex_holds op (numbers_of_vars values xs.now) (numbers_of_vars values ys.now))))) }
{
    match op {
        LexOp::Less => encode_before(alloc, layout, f, truth, true, xs, ys),
        LexOp::AtMost => encode_before(alloc, layout, f, truth, false, xs, ys),
        LexOp::Greater => encode_before(alloc, layout, f, truth, true, ys, xs),
        LexOp::AtLeast => encode_before(alloc, layout, f, truth, false, ys, xs),
    }
}
