//! Comparisons of sums with numbers, as clauses.

ghost use Rattle.std.specs.Prelude.{◌≡◌, ◌≢◌, ◌<◌, ◌≤ℤ◌, neg_ℤ, ℤ, List, length, IsTrue, OnOk};
ghost use Rattle.std.specs.List.{All};
ghost use Rattle.enc_atoms.specs.Atoms.{Adds};
ghost use Rattle.enc_linear.specs.Guards.{Unless};
ghost use Rattle.enc_linear.specs.Terms.{IsTermOf, total};
ghost use Rattle.enc_var.specs.Layouts.{IsLayoutOf};
ghost use Rattle.ep_base.specs.Numbers.{compare_holds};

use crate::apart::{add_none_apart, add_one_apart, add_three_apart, add_two_apart};
use crate::sums::{add_none, add_one, add_three, add_two};
use crate::terms::Term;
use cnf_core::Formula;
use enc_atoms::Atom;
use enc_var::Layout;
use ep_base::{CompareOp, Memory};
use std::alloc::Global;

/// Adds that a sum of at most three terms is at most `most`, unless a guard holds.
fn add_at_most(
    alloc: Global,
    layout: &Layout,
    f: &mut Formula,
    guards: &[Atom],
    terms: &[Term],
    most: i128,
) -> Result<(), Memory>
    requires from_new { IsTrue f.old.from_new }
    requires is_layout { IsLayoutOf layout.now f.old }
    requires guards { All (λ atom. atom.var < length layout.now) guards.now }
    requires terms { All (IsTermOf layout.now f.old) terms.now }
    ensures { OnOk result (Adds layout.now f.old layout.now f.new
        (Unless guards.now (λ values. total values terms.now ≤ℤ most))) }
{
    match terms {
        [] => add_none(alloc, layout, f, guards, most),
        [one] => add_one(alloc, layout, f, guards, one, most),
        [one, two] => add_two(alloc, layout, f, guards, one, two, most),
        [one, two, three] => add_three(alloc, layout, f, guards, one, two, three, most),
        _ => Err(Memory),
    }
}

/// Adds that a sum of at most three terms isn't a number, unless a guard holds.
fn add_other(
    alloc: Global,
    layout: &Layout,
    f: &mut Formula,
    guards: &[Atom],
    terms: &[Term],
    number: i128,
) -> Result<(), Memory>
    requires from_new { IsTrue f.old.from_new }
    requires is_layout { IsLayoutOf layout.now f.old }
    requires guards { All (λ atom. atom.var < length layout.now) guards.now }
    requires terms { All (IsTermOf layout.now f.old) terms.now }
    ensures { OnOk result (Adds layout.now f.old layout.now f.new
        (Unless guards.now (λ values. total values terms.now ≢ number))) }
{
    match terms {
        [] => add_none_apart(alloc, layout, f, guards, number),
        [one] => add_one_apart(alloc, layout, f, guards, one, number),
        [one, two] => add_two_apart(alloc, layout, f, guards, one, two, number),
        [one, two, three] => { add_three_apart(alloc, layout, f, guards, one, two, three, number) }
        _ => Err(Memory),
    }
}

/// Adds that a sum of at most three terms is a number, unless a guard holds.
fn add_equal(
    alloc: Global,
    layout: &Layout,
    f: &mut Formula,
    guards: &[Atom],
    terms: &[Term],
    mirrors: &[Term],
    number: i64,
) -> Result<(), Memory>
    requires from_new { IsTrue f.old.from_new }
    requires is_layout { IsLayoutOf layout.now f.old }
    requires guards { All (λ atom. atom.var < length layout.now) guards.now }
    requires terms { All (IsTermOf layout.now f.old) terms.now }
    requires mirrors { All (IsTermOf layout.now f.old) mirrors.now }
    requires opposite { (values : List ℤ) → total values mirrors.now ≡ neg_ℤ (total values terms.now) }
    ensures { OnOk result (Adds layout.now f.old layout.now f.new
        (Unless guards.now (λ values. IsTrue (compare_holds CompareOp.Equal (total values terms.now) number)))) }
{
    let most = i128::from(number);
    add_at_most(alloc, layout, f, guards, terms, most)?;
    add_at_most(alloc, layout, f, guards, mirrors, -most)
}

/// Adds that a sum of at most three terms compares so with a number, unless a guard holds.
pub(crate) fn add_compared(
    alloc: Global,
    layout: &Layout,
    f: &mut Formula,
    guards: &[Atom],
    terms: &[Term],
    mirrors: &[Term],
    op: CompareOp,
    number: i64,
) -> Result<(), Memory>
    requires from_new { IsTrue f.old.from_new }
    requires is_layout { IsLayoutOf layout.now f.old }
    requires guards { All (λ atom. atom.var < length layout.now) guards.now }
    requires terms { All (IsTermOf layout.now f.old) terms.now }
    requires mirrors { All (IsTermOf layout.now f.old) mirrors.now }
    requires opposite { (values : List ℤ) → total values mirrors.now ≡ neg_ℤ (total values terms.now) }
    ensures { OnOk result (Adds layout.now f.old layout.now f.new
        (Unless guards.now (λ values. IsTrue (compare_holds op (total values terms.now) number)))) }
{
    let most = i128::from(number);
    match op {
        CompareOp::AtMost => add_at_most(alloc, layout, f, guards, terms, most),
        CompareOp::Less => add_at_most(alloc, layout, f, guards, terms, most - 1),
        CompareOp::AtLeast => add_at_most(alloc, layout, f, guards, mirrors, -most),
        CompareOp::Greater => add_at_most(alloc, layout, f, guards, mirrors, -most - 1),
        CompareOp::Equal => add_equal(alloc, layout, f, guards, terms, mirrors, number),
        CompareOp::NotEqual => add_other(alloc, layout, f, guards, terms, most),
    }
}
