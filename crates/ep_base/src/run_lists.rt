//! Sets of whole numbers, kept as runs.

ghost use Rattle.std.specs.Prelude.{◌≡◌, ◌↔◌, ◌⊎◌, ◌++◌, ◌∷◌, [], ℕ, ℤ, pos, ◌+ℤ◌, ◌≤ℤ◌, ◌<ℤ◌, length, IsTrue, IfOk, IfSome, OnOk, MatchOption, option_map, slice_get};
ghost use Rattle.std.specs.List.{All, AllAdjacentBelow, Any, Contains};
ghost use Rattle.ep_base.specs.Runs.{AreApart, IsAscending, IsIn, numbers};

use crate::Memory;
use std::alloc::{AllocError, Global};
use std::hash::{Hash, Hasher};
use std::marker::Model;

/// The whole numbers from `lo` to `hi`; none where `hi` is less than `lo`.
#[derive(Clone, Copy, Debug, PartialEq, Eq, PartialOrd, Ord)]
pub struct Run {
    /// The least number.
    pub lo: i64,
    /// The greatest number.
    pub hi: i64,
}

/// A set of whole numbers. Contracts see the list of its numbers in ascending order.
#[derive(Debug, Drop)]
pub struct Runs {
    runs: Vec<Run>,
}

impl Model for Runs {
    ghost use Rattle.std.specs.Prelude.{ℤ, List};
    ghost use Rattle.ep_base.specs.Runs.{AreApart, numbers};

    ghost Value = { List ℤ };

    ghost view = { λ set. numbers set.runs.items };

    ghost invariant = { λ set. AreApart set.runs.items };
}

impl Runs {
    /// The numbers of all the parts. Costs a sort of the parts.
    pub fn new(alloc: Global, parts: Vec<Run>) -> Result<Runs, Memory>
        ensures numbers { IfOk result (λ set.
            (number : ℤ) → Contains set number ↔ Any (IsIn number) parts.items) }
        ensures ascending { IfOk result IsAscending }
    {
        let mut sorted = parts;
        sorted.sort_unstable();
        let runs = join_sorted(alloc, &sorted)?;
        Ok(Runs { runs })
    }

    /// The runs, in ascending order.
    pub fn runs(&self) -> &[Run]
        ensures numbers { numbers result.now ≡ self.now }
        ensures apart { AreApart result.now }
    {
        &self.runs
    }

    /// Whether the number is in the set, by binary search.
    pub fn has(&self, number: i64) -> bool
        ensures { IsTrue result ↔ Contains self.now number }
    {
        some_has(&self.runs, number)
    }

    /// The same set once more.
    pub fn copy(&self, alloc: Global) -> Result<Runs, Memory>
        ensures { IfOk result (λ set. set ≡ self.now) }
    {
        let runs = Vec::from_slice(alloc, self.runs.as_slice())?;
        Ok(Runs { runs })
    }
}

impl PartialEq for Runs {
    ghost use Rattle.std.proofs.Common.{rules};
    ghost use Rattle.std.specs.Cmp.Lexicographic.{pointwise};
    ghost use Rattle.std.specs.Cmp.Rules.{comparing};
    ghost use Rattle.std.specs.Ordering.{int_eq};

    ghost eq = { pointwise int_eq };

    ghost laws = { Prim.search (comparing, rules) };

    fn eq(&self, other: &Runs) -> bool {
        self.runs.as_slice() == other.runs.as_slice()
    }
}

impl Eq for Runs {
    ghost use Rattle.std.proofs.Common.{rules};
    ghost use Rattle.std.specs.Cmp.Rules.{comparing};

    ghost laws = { Prim.search (comparing, rules) };
}

impl Hash for Runs {
    ghost use Rattle.std.proofs.Common.{rules};
    ghost use Rattle.std.specs.Cmp.Rules.{hashing};
    ghost use Rattle.std.specs.Hash as fed;
    ghost use Rattle.std.specs.Prelude.{slice_get};

    ghost hash_input = { λ numbers. fed.option fed.i64 (slice_get numbers 0) };

    ghost respects_eq = { Prim.search (hashing, rules) };

    /// Feeds the least number alone.
    fn hash<H: Hasher>(&self, state: &mut H) {
        first_start(&self.runs).hash(state);
    }
}

/// The number with which the first run starts.
fn first_start(runs: &[Run]) -> Option<i64>
    ensures { result ≡ option_map (λ run. run.lo) (slice_get runs.now 0) }
{
    runs.first().map(|run| run.lo)
}

/// Whether the number is in one of the runs, by binary search.
fn some_has(runs: &[Run], number: i64) -> bool
    requires { AreApart runs.now }
    ensures { IsTrue result ↔ Any (IsIn number) runs.now }
{
    let mut low = 0;
    let mut high = runs.len();
    while low < high {
        let middle = low + (high - low) / 2;
        let run = runs[middle];
        if number < run.lo {
            high = middle;
        } else if run.hi < number {
            low = middle + 1;
        } else {
            return true;
        }
    }
    false
}

/// The runs of the numbers of parts that are sorted by their starts.
fn join_sorted(alloc: Global, parts: &[Run]) -> Result<Vec<Run>, AllocError>
    requires { AllAdjacentBelow (λ part next. part.lo ≤ℤ next.lo) parts.now (length parts.now) }
    ensures apart { IfOk result (λ runs. AreApart runs.items) }
    ensures numbers { IfOk result (λ runs.
        (number : ℤ) → Any (IsIn number) runs.items ↔ Any (IsIn number) parts.now) }
{
    let mut runs = Vec::new(alloc);
    for part in parts {
        if part.lo <= part.hi {
            add_run(&mut runs, *part)?;
        }
    }
    Ok(runs)
}

/// Adds a part that starts no earlier than any of the runs.
fn add_run(runs: &mut Vec<Run>, part: Run) -> Result<(), AllocError>
    requires apart { AreApart runs.old.items }
    requires filled { part.lo ≤ℤ part.hi }
    requires behind { All (λ run. run.lo ≤ℤ part.lo) runs.old.items }
    ensures apart { OnOk result (AreApart runs.new.items) }
    ensures numbers { OnOk result ((number : ℤ) →
        Any (IsIn number) runs.new.items ↔ Any (IsIn number) (runs.old.items ++ part ∷ [])) }
    ensures behind { OnOk result (All (λ run. run.lo ≤ℤ part.lo) runs.new.items) }
{
    let Some(last) = runs.pop() else {
        runs.push(part)?;
        return Ok(());
    };
    match joined(last, part) {
        Some(both) => runs.push(both)?,
        None => {
            runs.push(last)?;
            runs.push(part)?;
        }
    }
    Ok(())
}

/// The run of the numbers of both, where no number lies between them.
fn joined(last: Run, part: Run) -> Option<Run>
    requires last_filled { last.lo ≤ℤ last.hi }
    requires part_filled { part.lo ≤ℤ part.hi }
    requires behind { last.lo ≤ℤ part.lo }
    ensures apart { MatchOption result ((last.hi +ℤ pos 1) <ℤ part.lo)
        (λ both. (both.lo ≡ last.lo) × (both.lo ≤ℤ both.hi)) }
    ensures numbers { IfSome result (λ both.
        (number : ℤ) → IsIn number both ↔ (IsIn number last ⊎ IsIn number part)) }
{
    if last.hi < part.lo && last.hi + 1 < part.lo {
        return None;
    }
    Some(Run {
        lo: last.lo,
        hi: last.hi.max(part.hi),
    })
}
