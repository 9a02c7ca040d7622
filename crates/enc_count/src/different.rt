//! Variables with different numbers.

ghost use Rattle.std.specs.Prelude.{◌≡◌, ◌<◌, ◌++◌, ℕ, false, map, length, IsTrue, IfOk, OnOk, Some, slice_index_or};
ghost use Rattle.std.specs.List.{All};
ghost use Rattle.ep_base.specs.Numbers.{are_different, has_number};
ghost use Rattle.ep_flat.specs.Cons.{is_as_said, numbers_of_vars, number_at};
ghost use Rattle.enc_atoms.specs.Atoms.{Adds};
ghost use Rattle.enc_count.specs.Different.{AreEqual, AreWithin, Covers, Differ, HasDomains, all_pairs};
ghost use Rattle.enc_atoms.specs.Steps.{AreAtomsOf, AreOf, HasTruth, IsReady, Unless};
ghost use Rattle.enc_var.specs.Layouts.{literals_at};

use cnf_core::Formula;
use enc_atoms::{Atom, add_decided, add_guarded, add_implied, add_not_both, all_are, new_truths};
use enc_var::Layout;
use ep_base::{Memory, Run, Runs};
use ep_numbers::listed;
use std::alloc::Global;

/// Adds the pairs of a variable with others.
fn push_pairs(pairs: &mut Vec<(u64, u64)>, var: u64, others: &[u64]) -> Result<(), Memory>
    ensures { OnOk result (pairs.new.items ≡ pairs.old.items ++ map (λ y. (var, y)) others.now) }
{
    for other in others {
        pairs.push((var, *other))?;
    }
    Ok(())
}

/// All pairs of variables, the one that stands earlier first.
fn pairs_of(alloc: Global, vars: &[u64]) -> Result<Vec<(u64, u64)>, Memory>
    ensures { IfOk result (λ pairs. pairs.items ≡ all_pairs vars.now) }
{
    let mut pairs = Vec::new(alloc);
    for i in 0..vars.len() {
        push_pairs(&mut pairs, vars[i], &vars[i + 1..])?;
    }
    Ok(pairs)
}

/// Adds that two variables differ, where no atom of the guard holds.
fn add_apart(
    alloc: Global,
    layout: &Layout,
    f: &mut Formula,
    guard: &[Atom],
    one: u64,
    other: u64,
) -> Result<(), Memory>
    requires ready { IsReady layout.now f.old }
    requires guard { AreAtomsOf layout.now guard.now }
    requires one { one < length layout.now }
    requires other { other < length layout.now }
    ensures { OnOk result (Adds layout.now f.old layout.now f.new (Unless guard.now (Differ (one, other)))) }
{
    let numbers = listed(alloc, layout.domain(one))?;
    for number in &numbers {
        add_not_both(alloc, layout, f, guard, (one, *number), (other, *number))?;
    }
    Ok(())
}

/// Adds that the variables of each pair differ, where no atom of the guard holds.
fn add_pairs(
    alloc: Global,
    layout: &Layout,
    f: &mut Formula,
    guard: &[Atom],
    pairs: &[(u64, u64)],
) -> Result<(), Memory>
    requires ready { IsReady layout.now f.old }
    requires guard { AreAtomsOf layout.now guard.now }
    requires within { AreWithin layout.now pairs.now }
    ensures { OnOk result (Adds layout.now f.old layout.now f.new
        (Unless guard.now (λ values. All (λ pair. Differ pair values) pairs.now))) }
{
    for pair in pairs {
        add_apart(alloc, layout, f, guard, pair.0, pair.1)?;
    }
    Ok(())
}

/// The numbers that some of the variables can have.
fn numbers_of(alloc: Global, layout: &Layout, vars: &[u64]) -> Result<Runs, Memory>
    requires { AreOf layout.now vars.now }
    ensures { IfOk result (λ numbers. HasDomains layout.now vars.now numbers) }
{
    let mut parts = Vec::new(alloc);
    for var in vars {
        let runs: &[Run] = layout.domain(*var).runs();
        parts.extend_from_slice(runs)?;
    }
    Runs::new(alloc, parts)
}

/// Adds that one of the variables is the number, where no atom of the guard holds.
fn add_taken(
    alloc: Global,
    layout: &Layout,
    f: &mut Formula,
    guard: &[Atom],
    vars: &[u64],
    number: i64,
) -> Result<(), Memory>
    requires ready { IsReady layout.now f.old }
    requires guard { AreAtomsOf layout.now guard.now }
    requires within { AreOf layout.now vars.now }
    ensures { OnOk result (Adds layout.now f.old layout.now f.new
        (Unless guard.now (λ values. IsTrue (has_number (numbers_of_vars values vars.now) number)))) }
{
    let atoms = all_are(alloc, vars, number)?;
    add_guarded(alloc, layout, f, guard, &atoms)
}

/// Adds for each number that one of the variables is it, where no atom of the guard holds.
fn add_each_taken(
    alloc: Global,
    layout: &Layout,
    f: &mut Formula,
    guard: &[Atom],
    vars: &[u64],
    numbers: &[i64],
) -> Result<(), Memory>
    requires ready { IsReady layout.now f.old }
    requires guard { AreAtomsOf layout.now guard.now }
    requires within { AreOf layout.now vars.now }
    ensures { OnOk result (Adds layout.now f.old layout.now f.new (Unless guard.now
        (λ values. All (λ number. IsTrue (has_number (numbers_of_vars values vars.now) number)) numbers.now))) }
{
    for number in numbers {
        add_taken(alloc, layout, f, guard, vars, *number)?;
    }
    Ok(())
}

/// Adds what follows for different variables that can only be these numbers: they aren't more than the numbers, and where
/// they are as many each number is taken. It prunes much.
fn add_covering(
    alloc: Global,
    layout: &Layout,
    f: &mut Formula,
    guard: &[Atom],
    vars: &[u64],
    numbers: &[i64],
) -> Result<(), Memory>
    requires ready { IsReady layout.now f.old }
    requires guard { AreAtomsOf layout.now guard.now }
    requires within { AreOf layout.now vars.now }
    ensures { OnOk result (Adds layout.now f.old layout.now f.new
        (Unless guard.now (Covers vars.now numbers.now))) }
{
    if numbers.len() < vars.len() {
        return add_guarded(alloc, layout, f, guard, &[]);
    }
    if numbers.len() == vars.len() {
        return add_each_taken(alloc, layout, f, guard, vars, numbers);
    }
    Ok(())
}

/// Adds that all variables differ, where no atom of the guard holds: pair by pair, and number by number where there are as
/// many as variables.
fn add_different(
    alloc: Global,
    layout: &Layout,
    f: &mut Formula,
    guard: &[Atom],
    vars: &[u64],
) -> Result<(), Memory>
    requires ready { IsReady layout.now f.old }
    requires guard { AreAtomsOf layout.now guard.now }
    requires within { AreOf layout.now vars.now }
    ensures { OnOk result (Adds layout.now f.old layout.now f.new
        (Unless guard.now (λ values. IsTrue (are_different (numbers_of_vars values vars.now))))) }
{
    let pairs = pairs_of(alloc, vars)?;
    let numbers = numbers_of(alloc, layout, vars)?;
    let numbers = listed(alloc, &numbers)?;
    add_pairs(alloc, layout, f, guard, &pairs)?;
    add_covering(alloc, layout, f, guard, vars, &numbers)
}

/// Adds that two variables have one number where a variable is 1.
fn add_equal(
    alloc: Global,
    layout: &Layout,
    f: &mut Formula,
    truth: u64,
    one: u64,
    other: u64,
) -> Result<(), Memory>
    requires ready { IsReady layout.now f.old }
    requires truth { truth < length layout.now }
    requires one { one < length layout.now }
    requires other { other < length layout.now }
    ensures { OnOk result (Adds layout.now f.old layout.now f.new (AreEqual truth (one, other))) }
{
    let guard = [Atom::is_not(truth, 1)];
    let numbers = listed(alloc, layout.domain(one))?;
    for number in &numbers {
        add_implied(alloc, layout, f, &guard, (one, *number), (other, *number))?;
    }
    Ok(())
}

/// Adds for each pair that its variables have one number where its own variable is 1.
fn add_equals(
    alloc: Global,
    layout: &Layout,
    f: &mut Formula,
    truths: &[u64],
    pairs: &[(u64, u64)],
) -> Result<(), Memory>
    requires ready { IsReady layout.now f.old }
    requires many { length truths.now ≡ length pairs.now }
    requires truths { AreOf layout.now truths.now }
    requires within { AreWithin layout.now pairs.now }
    ensures { OnOk result (Adds layout.now f.old layout.now f.new (λ values. (k : ℕ) → k < length pairs.now
        → AreEqual (slice_index_or truths.now k 0) (slice_index_or pairs.now k (0, 0)) values)) }
{
    for k in 0..pairs.len() {
        let pair = pairs[k];
        add_equal(alloc, layout, f, truths[k], pair.0, pair.1)?;
    }
    Ok(())
}

/// Adds that two of the variables have one number, where no atom of the guard holds.
fn add_some_equal(
    alloc: Global,
    layout: &mut Layout,
    f: &mut Formula,
    guard: &[Atom],
    vars: &[u64],
) -> Result<(), Memory>
    requires ready { IsReady layout.old f.old }
    requires guard { AreAtomsOf layout.old guard.now }
    requires within { AreOf layout.old vars.now }
    ensures { OnOk result (Adds layout.old f.old layout.new f.new
        (Unless guard.now (λ values. are_different (numbers_of_vars values vars.now) ≡ false))) }
{
    let pairs = pairs_of(alloc, vars)?;
    let truths = new_truths(alloc, layout, f, pairs.len())?;
    add_equals(alloc, layout, f, &truths, &pairs)?;
    let atoms = all_are(alloc, &truths, 1)?;
    add_guarded(alloc, layout, f, guard, &atoms)
}

/// Adds that a variable is 1 exactly where all variables differ, and else 0.
fn encode_truth(
    alloc: Global,
    layout: &mut Layout,
    f: &mut Formula,
    truth: u64,
    vars: &[u64],
) -> Result<(), Memory>
    requires ready { IsReady layout.old f.old }
    requires truth { truth < length layout.old }
    requires within { AreOf layout.old vars.now }
    ensures { OnOk result (Adds layout.old f.old layout.new f.new
        (λ values. IsTrue (is_as_said values (Some truth) (are_different (numbers_of_vars values vars.now))))) }
{
    let on = [Atom::is_not(truth, 1)];
    let off = [Atom::is_not(truth, 0)];
    add_decided(alloc, layout, f, truth)?;
    add_different(alloc, layout, f, &on, vars)?;
    add_some_equal(alloc, layout, f, &off, vars)
}

/// Adds that all variables differ, or that the variable of its truth is 1 exactly where they do, and else 0.
pub(crate) fn encode_different(
    alloc: Global,
    layout: &mut Layout,
    f: &mut Formula,
    truth: Option<u64>,
    vars: &[u64],
) -> Result<(), Memory>
    requires ready { IsReady layout.old f.old }
    requires truth { HasTruth layout.old truth }
    requires within { AreOf layout.old vars.now }
    ensures { OnOk result (Adds layout.old f.old layout.new f.new
        (λ values. IsTrue (is_as_said values truth (are_different (numbers_of_vars values vars.now))))) }
{
    match truth {
        None => add_different(alloc, layout, f, &[], vars),
        Some(truth) => encode_truth(alloc, layout, f, truth, vars),
    }
}
