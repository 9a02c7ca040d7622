//! What numbers and intervals decide of truth values.

ghost use Rattle.std.specs.Prelude.{◌≡◌, Bool, true, false, not, ℤ, ◌≤ℤ◌, None, IfSome, option_map};
ghost use Rattle.std.specs.List.{All, Any};
ghost use Rattle.ep_base.specs.Intervals.{LiesIn};
ghost use Rattle.ep_base.specs.Numbers.{compare_holds, is_one};
ghost use Rattle.ep_base.specs.Reads.{same_bool};
ghost use Rattle.ep_base.specs.Runs.{AreApart, IsIn};
ghost use Rattle.ep_base.specs.declared.operators.CompareOp.{CompareOp};
ghost use Rattle.ep_numbers.specs.Spans.{interval_of};
ghost use Rattle.ep_simplify.specs.Decided.{Decides, DecidesMember, IsNotEmpty, LacksAll};

use ep_base::{CompareOp, Run, Runs};
use ep_numbers::Span;

/// Whether a comparison of two numbers holds.
#[tactic(auto, unfolding(ep_base::specs::Numbers::compare_holds))]
pub fn holds(op: CompareOp, x: i64, y: i64) -> bool
    ensures { result ≡ compare_holds op x y }
{
    match op {
        CompareOp::Equal => x == y,
        CompareOp::NotEqual => x != y,
        CompareOp::Less => x < y,
        CompareOp::AtMost => x <= y,
        CompareOp::Greater => y < x,
        CompareOp::AtLeast => y <= x,
    }
}

/// Whether each number of one interval is less than each of the other, or none is.
fn less(x: Span, y: Span) -> Option<bool>
    ensures says { IfSome result (λ known. Decides CompareOp.Less (interval_of x) (interval_of y) known) }
    ensures undecided { result ≡ None → IsNotEmpty (interval_of x) → IsNotEmpty (interval_of y)
        → (known : Bool) → Decides CompareOp.Less (interval_of x) (interval_of y) known → ⊥ }
{
    if x.high < y.low {
        return Some(true);
    }
    if y.high <= x.low {
        return Some(false);
    }
    None
}

/// Whether each number of one interval is each of the other, or none is.
fn equal(x: Span, y: Span) -> Option<bool>
    ensures says { IfSome result (λ known. Decides CompareOp.Equal (interval_of x) (interval_of y) known) }
    ensures undecided { result ≡ None → IsNotEmpty (interval_of x) → IsNotEmpty (interval_of y)
        → (known : Bool) → Decides CompareOp.Equal (interval_of x) (interval_of y) known → ⊥ }
{
    if x.high < y.low {
        return Some(false);
    }
    if y.high < x.low {
        return Some(false);
    }
    if y.low < x.high {
        return None;
    }
    if x.low < y.high {
        return None;
    }
    Some(true)
}

/// The other truth value.
fn contrary(known: Option<bool>) -> Option<bool>
    ensures { result ≡ option_map not known }
{
    match known {
        Some(holds) => Some(!holds),
        None => None,
    }
}

/// Whether a comparison holds for all numbers of two intervals, or for none; nothing where it depends on the numbers.
pub fn decided(op: CompareOp, x: Span, y: Span) -> Option<bool>
    ensures says { IfSome result (λ known. Decides op (interval_of x) (interval_of y) known) }
    ensures undecided { result ≡ None → IsNotEmpty (interval_of x) → IsNotEmpty (interval_of y)
        → (known : Bool) → Decides op (interval_of x) (interval_of y) known → ⊥ }
{
    match op {
        CompareOp::Equal => equal(x, y),
        CompareOp::NotEqual => contrary(equal(x, y)),
        CompareOp::Less => less(x, y),
        CompareOp::AtMost => contrary(less(y, x)),
        CompareOp::Greater => less(y, x),
        CompareOp::AtLeast => contrary(less(x, y)),
    }
}

/// Whether a run has all numbers of an interval.
fn covers(run: Run, x: Span) -> bool
    ensures sound { result ≡ true → (n : ℤ) → LiesIn n (interval_of x) → IsIn n run }
    ensures complete { result ≡ false → run.lo ≤ℤ x.low → x.high ≤ℤ run.hi → ⊥ }
{
    if x.low < run.lo {
        return false;
    }
    if run.hi < x.high {
        return false;
    }
    true
}

/// Whether one of some runs has all numbers of an interval.
fn is_covered(runs: &[Run], x: Span) -> bool
    ensures sound { result ≡ true → (n : ℤ) → LiesIn n (interval_of x) → Any (IsIn n) runs.now }
    ensures complete { result ≡ false → AreApart runs.now → IsNotEmpty (interval_of x)
        → ((n : ℤ) → LiesIn n (interval_of x) → Any (IsIn n) runs.now) → ⊥ }
{
    for run in runs {
        if covers(*run, x) {
            return true;
        }
    }
    false
}

/// Whether a run has a number of an interval.
fn meets(run: Run, x: Span) -> bool
    ensures apart { result ≡ false → LacksAll (interval_of x) run }
    ensures meets { result ≡ true → run.lo ≤ℤ run.hi → IsNotEmpty (interval_of x) → LacksAll (interval_of x) run → ⊥ }
{
    if run.hi < x.low {
        return false;
    }
    if x.high < run.lo {
        return false;
    }
    true
}

/// Whether no run has a number of an interval.
fn is_apart(runs: &[Run], x: Span) -> bool
    ensures sound { result ≡ true → All (LacksAll (interval_of x)) runs.now }
    ensures complete { result ≡ false → All (λ run. run.lo ≤ℤ run.hi) runs.now → IsNotEmpty (interval_of x)
        → All (LacksAll (interval_of x)) runs.now → ⊥ }
{
    for run in runs {
        if meets(*run, x) {
            return false;
        }
    }
    true
}

/// Whether a set has each number of an interval, or none; nothing where it has some alone.
pub fn is_member(numbers: &Runs, x: Span) -> Option<bool>
    ensures says { IfSome result (DecidesMember (interval_of x) numbers.now) }
    ensures undecided { result ≡ None → IsNotEmpty (interval_of x)
        → (known : Bool) → DecidesMember (interval_of x) numbers.now known → ⊥ }
{
    let runs = numbers.runs();
    if is_covered(runs, x) {
        return Some(true);
    }
    if is_apart(runs, x) {
        return Some(false);
    }
    None
}

/// Whether a number is true, or isn't, as is asked.
#[tactic(auto, unfolding(ep_base::specs::Numbers::is_one, ep_base::specs::Reads::same_bool))]
pub fn is_said(number: i64, asked: bool) -> bool
    ensures { result ≡ same_bool asked (is_one number) }
{
    if asked {
        return number == 1;
    }
    number != 1
}
