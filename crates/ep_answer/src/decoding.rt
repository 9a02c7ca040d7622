//! The numbers that a solver's values give variables.

ghost use Rattle.std.specs.Prelude.{◌≡◌, ◌<◌, ◌≤ℤ◌, ◌<ℤ◌, length, IfOk, IsSome};
ghost use Rattle.std.specs.List.{All};
ghost use Rattle.ep_base.specs.Runs.{AreApart, numbers};
ghost use Rattle.ep_flat.specs.Cons.{number_at, numbers_of_vars};
ghost use Rattle.enc_var.specs.Decoding.{Means, known_holds};
ghost use Rattle.enc_var.specs.Layouts.{decoded_values, literals_at};
ghost use Rattle.ep_answer.specs.Problems.{AllMean};
ghost use Rattle.ep_answer.specs.Searches.{AreWithin, kept_values};

use enc_var::{Known, Layout};
use ep_base::{Memory, Run};
use sat_search::Solver;
use std::alloc::Global;

/// The run from the least of the numbers to the greatest.
pub fn hull(runs: &[Run]) -> Run
    requires { AreApart runs.now }
    ensures { AreWithin (numbers runs.now) result }
{
    if runs.is_empty() {
        return Run { lo: 0, hi: 0 };
    }
    Run {
        lo: runs[0].lo,
        hi: runs[runs.len() - 1].hi,
    }
}

/// A number between two, less than the greater one.
fn middle(low: i64, high: i64) -> i64
    requires { low <ℤ high }
    ensures at_least { low ≤ℤ result }
    ensures below { result <ℤ high }
{
    if low < 0 && high >= 0 {
        // The difference of the two may be too far.
        return -1;
    }
    low + (high - low) / 2
}

/// Whether what is known is so.
fn holds(solver: &Solver, known: Known) -> bool
    requires { IsSome solver.now.kept }
    ensures { result ≡ known_holds (kept_values solver.now) known }
{
    match known {
        Known::True => true,
        Known::False => false,
        Known::Is(lit) => solver.value(lit.var()) == lit.positive(),
    }
}

/// The number of a variable, by binary search over "it is at most".
pub fn number_of(layout: &Layout, solver: &Solver, var: u64) -> i64
    requires kept { IsSome solver.now.kept }
    requires there { var < length layout.now }
    requires meaning { Means (kept_values solver.now) (literals_at layout.now var) }
    ensures { result ≡ number_at (decoded_values layout.now (kept_values solver.now)) var }
{
    let within = hull(layout.domain(var).runs());
    let mut low = within.lo;
    let mut high = within.hi;
    while low < high {
        let number = middle(low, high);
        if holds(solver, layout.le(var, number)) {
            high = number;
        } else {
            low = number + 1;
        }
    }
    low
}

/// The numbers of variables, as those that stand for cells, in the solution that the solver keeps.
pub fn read_back(
    alloc: Global,
    layout: &Layout,
    solver: &Solver,
    vars: &[u64],
) -> Result<Vec<i64>, Memory>
    requires kept { IsSome solver.now.kept }
    requires there { All (λ x. x < length layout.now) vars.now }
    requires meaning { AllMean (kept_values solver.now) layout.now vars.now }
    ensures { IfOk result (λ found.
        found.items ≡ numbers_of_vars (decoded_values layout.now (kept_values solver.now)) vars.now) }
{
    let mut found = Vec::new(alloc);
    for var in vars {
        found.push(number_of(layout, solver, *var))?;
    }
    Ok(found)
}
