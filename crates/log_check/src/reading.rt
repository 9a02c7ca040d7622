//! Reads the hints of one step: unit propagation along the clauses that they name.

ghost use Rattle.std.specs.Prelude.{◌≡◌, List, IfOk, false, map, option_copied};
ghost use Rattle.cnf_core.specs.Literal.{Literal, negation};
ghost use Rattle.cnf_core.specs.Reading.{not_false, has_contradiction, reading_succeeds, is_shown_by};
ghost use Rattle.log_check.specs.Verdict.{Live, hinted_clause, hinted_clauses};
ghost use Rattle.log_check.specs.Kept.{KeepsTrues, KeepsLive, remaining_of};

use crate::calendar::Lives;
use crate::signs::Signs;
use cnf_core::Lit;
use ep_base::Memory;

/// The literals of a clause that aren't false.
#[derive(Clone, Copy)]
pub enum Remaining {
    /// Each literal is false.
    Nothing,
    /// All but this one are.
    One(Lit),
    /// At least two aren't.
    More,
}

fn what_remains(signs: &Signs, clause: &[Lit]) -> Remaining
    ensures { (trues : List Literal) → KeepsTrues signs.now trues →
        result ≡ remaining_of (not_false trues clause.now) }
{
    let mut found = Remaining::Nothing;
    for lit in clause {
        if !signs.is_false(lit) {
            match found {
                Remaining::Nothing => found = Remaining::One(*lit),
                Remaining::One(_) | Remaining::More => return Remaining::More,
            }
        }
    }
    found
}

/// Makes the negations of a clause's literals true and no others, or answers that two of them
/// contradict each other.
fn set_negations(signs: &mut Signs, clause: &[Lit]) -> Result<bool, Memory>
    ensures { IfOk result (λ contradict. (contradict ≡ has_contradiction (map negation clause.now))
        × (contradict ≡ false → KeepsTrues signs.new (map negation clause.now))) }
{
    signs.clear();
    for lit in clause {
        if !signs.set_true(lit.negated())? {
            return Ok(true);
        }
    }
    Ok(false)
}

fn hinted<'a>(lives: &Lives<'a>, index: usize, hint: &i64) -> Option<&'a [Lit]>
    ensures { (numbered : List Live) → KeepsLive lives.now index numbered →
        option_copied result ≡ hinted_clause numbered hint.now }
{
    let id = u64::try_from(*hint).ok()?;
    lives.clause_at(index, id)
}

fn reads(lives: &Lives, index: usize, signs: &mut Signs, hints: &[i64]) -> Result<bool, Memory>
    ensures { IfOk result (λ yes. (trues : List Literal) (numbered : List Live) →
        KeepsTrues signs.old trues → KeepsLive lives.now index numbered →
        yes ≡ reading_succeeds trues (hinted_clauses numbered hints.now)) }
{
    for hint in hints {
        let Some(clause) = hinted(lives, index, hint) else {
            return Ok(false);
        };
        match what_remains(signs, clause) {
            Remaining::Nothing => return Ok(true),
            Remaining::One(lit) => {
                let _is_true = signs.set_true(lit)?;
            }
            Remaining::More => {}
        }
    }
    Ok(false)
}

/// Whether the clauses that are live at a line and that the hints name show the clause. What was true
/// before doesn't count.
pub(crate) fn is_shown(
    lives: &Lives,
    index: usize,
    signs: &mut Signs,
    clause: &[Lit],
    hints: &[i64],
) -> Result<bool, Memory>
    ensures { IfOk result (λ yes. (numbered : List Live) → KeepsLive lives.now index numbered →
        yes ≡ is_shown_by clause.now (hinted_clauses numbered hints.now)) }
{
    if set_negations(signs, clause)? {
        Ok(true)
    } else {
        reads(lives, index, signs, hints)
    }
}
