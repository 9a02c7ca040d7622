//! Puts index domains out, run by run.

ghost use Rattle.std.specs.Prelude.{◌≡◌, ◌≤◌, ◌++◌, ◌∷◌, ◌+ℤ◌, pos, codes, map, length, OnOk, false};
ghost use Rattle.std.specs.Ordering.{int_eq};
ghost use Rattle.ep_print.specs.Putting.{between_if, continued};
ghost use Rattle.ep_print.specs.Values.{index_domain_text, run_text, runs_of};

use crate::numbers::push_whole;
use std::alloc::AllocError;

/// The index domain of some indices.
pub(crate) fn push_index_domain(text: &mut Vec<u8>, indices: &[i64]) -> Result<(), AllocError>
    ensures { OnOk result (text.new.items ≡ text.old.items ++ index_domain_text indices.now) }
{
    if indices.is_empty() {
        text.extend_from_slice(b"int(1..0)")?;
        return Ok(());
    }
    text.extend_from_slice(b"int(")?;
    push_runs(text, indices)?;
    text.extend_from_slice(b")")?;
    Ok(())
}

/// The runs of some indices with commas between them.
fn push_runs(text: &mut Vec<u8>, indices: &[i64]) -> Result<(), AllocError>
    ensures { OnOk result (text.new.items
        ≡ text.old.items ++ continued (codes ", ") false (map run_text (runs_of indices.now))) }
{
    let mut rest = indices;
    let mut started = false;
    while let [first, others @ ..] = rest {
        let (last, after) = first_run(*first, others);
        push_text_between(text, started, b", ")?;
        push_run(text, *first, last)?;
        started = true;
        rest = after;
    }
    Ok(())
}

/// The last number of the run that a number begins, and the numbers behind the run.
fn first_run(first: i64, others: &[i64]) -> (i64, &[i64])
    ensures run { runs_of (first ∷ others.now)
        ≡ record { first = first; last = result.0 } ∷ runs_of result.1.now }
    ensures fewer { length result.1.now ≤ length others.now }
{
    let mut last = first;
    for (i, next) in others.iter().enumerate() {
        if !follows(last, *next) {
            return (last, &others[i..]);
        }
        last = *next;
    }
    (last, &[])
}

/// Whether a number is one more than another.
fn follows(last: i64, next: i64) -> bool
    ensures { result ≡ int_eq (last +ℤ pos 1) next }
{
    last < i64::MAX && last + 1 == next
}

/// A run.
#[tactic(auto, unfolding(crate::specs::Values::run_text))]
fn push_run(text: &mut Vec<u8>, first: i64, last: i64) -> Result<(), AllocError>
    ensures { OnOk result (text.new.items
        ≡ text.old.items ++ run_text (record { first = first; last = last })) }
{
    push_whole(text, first)?;
    if first != last {
        text.extend_from_slice(b"..")?;
        push_whole(text, last)?;
    }
    Ok(())
}

/// Bytes where something stands before them.
#[tactic(auto, unfolding(crate::specs::Putting::between_if))]
pub(crate) fn push_text_between(
    text: &mut Vec<u8>,
    started: bool,
    bytes: &[u8],
) -> Result<(), AllocError>
    ensures { OnOk result (text.new.items ≡ text.old.items ++ between_if started bytes.now) }
{
    if started {
        text.extend_from_slice(bytes)?;
    }
    Ok(())
}
