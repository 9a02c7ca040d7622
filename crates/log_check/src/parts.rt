//! Goes over consecutive lines of a proof.

ghost use Rattle.std.specs.Prelude.{◌≡◌, ◌+◌, ◌<◌, ◌^◌, ℕ, List, Ok, IfOk, length, nat_lt};
ghost use Rattle.sat_proof.specs.Lines.{plain_line, row_lines};
ghost use Rattle.log_check.specs.Verdict.{Live};
ghost use Rattle.log_check.specs.Kept.{KeepsLive, is_accepted};
ghost use Rattle.log_check.specs.Parts.{FindsBad, first_found};

use crate::calendar::Calendar;
use crate::reading::is_shown;
use crate::signs::Signs;
use ep_base::Memory;
use sat_proof::{Line, Proof, Row};
use std::alloc::Global;

/// Whether a line is valid where all before it are.
fn is_valid(
    calendar: &Calendar,
    signs: &mut Signs,
    index: usize,
    line: Line,
) -> Result<bool, Memory>
    ensures { IfOk result (λ valid. (live : List Live) → KeepsLive calendar.now.lives index live →
        valid ≡ is_accepted (nat_lt index calendar.now.ordered) live (plain_line line.entry)) }
{
    match line {
        Line::Add { clause, hints, .. } => {
            if index < calendar.ordered {
                is_shown(&calendar.lives, index, signs, clause, hints)
            } else {
                Ok(false)
            }
        }
        Line::Delete { .. } => Ok(true),
    }
}

/// What each worker reads.
#[derive(Drop)]
pub(crate) struct Work<'a> {
    /// Which clauses are live at each line.
    pub(crate) calendar: Calendar<'a>,
    /// The lines.
    pub(crate) proof: &'a Proof,
    /// How many places the signs get.
    pub(crate) places: usize,
}

/// The number of the first line of a part that isn't valid, where the proof has so many lines before
/// the part and all of them are valid.
pub(crate) fn first_bad(
    alloc: Global,
    work: &Work,
    start: usize,
    part: &[Row],
) -> Result<Option<u64>, Memory>
    requires { start + length part.now < 2 ^ 64 }
    ensures { IfOk result (λ bad. FindsBad work.now.calendar start (row_lines work.now.proof.now part.now) bad) }
{
    let mut signs = Signs::new(alloc, work.places)?;
    for (offset, row) in part.iter().enumerate() {
        let line = work.proof.line(row);
        if !is_valid(&work.calendar, &mut signs, start + offset, line)? {
            return Ok(Some((start + offset) as u64 + 1));
        }
    }
    Ok(None)
}

/// The first bad line of all, where these were found in parts that stand in order.
pub(crate) fn least(found: &[Result<Option<u64>, Memory>]) -> Result<Option<u64>, Memory>
    ensures { IfOk result (λ bad. Ok bad ≡ first_found found.now) }
{
    for part in found {
        match part {
            Ok(bad) => {
                if bad.is_some() {
                    return Ok(*bad);
                }
            }
            Err(refused) => return Err(*refused),
        }
    }
    Ok(None)
}
