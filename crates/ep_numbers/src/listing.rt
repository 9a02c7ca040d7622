//! Sets of numbers as lists, and how many numbers sets and runs have.

ghost use Rattle.std.specs.Prelude.{◌≡◌, ◌==◌, ◌≤◌, ◌≤ℤ◌, ◌++◌, length, IfOk, OnOk};
ghost use Rattle.ep_base.specs.Runs.{IsAscending, numbers_in};

use ep_base::{Memory, Run, Runs};
use std::alloc::{AllocError, Global};

/// How many numbers a run has.
pub fn run_length(run: Run) -> u128
    requires { run.lo ≤ℤ run.hi }
    ensures length { result ≡ length (numbers_in run) }
    ensures small { result ≤ 18446744073709551616 }
{
    (i128::from(run.hi) - i128::from(run.lo) + 1) as u128
}

/// How many numbers a set has. Linear in its runs.
pub fn set_length(set: &Runs) -> u128
    ensures { result ≡ length set.now }
{
    let mut total: u128 = 0;
    for run in set.runs() {
        total += run_length(*run);
    }
    total
}

/// Whether a set has so many numbers. Linear in its runs.
pub fn has_count(set: &Runs, count: usize) -> bool
    ensures { result ≡ (length set.now == count) }
{
    set_length(set) == count as u128
}

/// Adds the numbers of a run.
fn push_run(numbers: &mut Vec<i64>, run: Run) -> Result<(), AllocError>
    requires { run.lo ≤ℤ run.hi }
    ensures { OnOk result (numbers.new.items ≡ numbers.old.items ++ numbers_in run) }
{
    let mut number = run.lo;
    while number < run.hi {
        numbers.push(number)?;
        number += 1;
    }
    numbers.push(run.hi)?;
    Ok(())
}

/// The numbers in ascending order.
pub fn listed(alloc: Global, numbers: &Runs) -> Result<Vec<i64>, Memory>
    ensures { IfOk result (λ list. list.items ≡ numbers.now) }
{
    let mut list = Vec::new(alloc);
    for run in numbers.runs() {
        push_run(&mut list, *run)?;
    }
    Ok(list)
}

/// A set's numbers ascend.
pub fn runs_ascend(numbers: &Runs)
    ensures { IsAscending numbers.now }
{
    let _runs = numbers.runs();
}
