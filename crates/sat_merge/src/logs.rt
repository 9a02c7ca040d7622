//! Proofs as logs.

ghost use Rattle.std.specs.Prelude.{◌≡◌, ◌<◌, [], false, IfOk, IfSome, IfNone, length, slice_index_or};
ghost use Rattle.std.specs.List.{list_any};
ghost use Rattle.log_check.specs.Verdict.{is_empty_clause, verdict_of};
ghost use Rattle.log_check.specs.declared.Verdict.TheVariants.{Verified};
ghost use Rattle.sat_split.specs.Cubes.{all_given};
ghost use Rattle.sat_merge.specs.Proofs.{IsProved, first_ids};
ghost use Rattle.sat_proof.specs.Lines.{proof_lines};

use crate::places::places_of;
use cnf_core::{Clause, ClauseList, Formula, Log};
use ep_base::Memory;
use sat_proof::{Line, Proof};
use std::alloc::Global;

/// The ids of so many clauses, which are counted from 1.
fn ids_of(alloc: Global, count: usize) -> Result<Vec<u64>, Memory>
    ensures { IfOk result (λ ids. ids.items ≡ first_ids count) }
{
    let mut ids = Vec::new(alloc);
    for place in 0..count {
        ids.push(place as u64 + 1)?;
    }
    Ok(ids)
}

/// The place of the first clause that has no literal.
fn empty_place(clauses: &ClauseList) -> Option<u64>
    ensures some { IfSome result (λ place. (place < length clauses.now) × (slice_index_or clauses.now place [] ≡ [])) }
    ensures none { IfNone result (list_any is_empty_clause clauses.now ≡ false) }
{
    for place in 0..clauses.len() {
        if clauses.clause(place).is_empty() {
            return Some(place as u64);
        }
    }
    None
}

/// A log of a formula's clauses with the steps of a proof that is verified, the last of which is empty. Lines that delete are left out,
/// and so is what stands behind the first empty clause.
///
/// Costs the literals and hints of the lines, each hint with a binary search.
pub fn log_of_proof(
    alloc: Global,
    formula: &Formula,
    begun: Log,
    proof: &Proof,
) -> Result<Log, Memory>
    requires begun { begun ≡ record { events = all_given formula.now.clauses; notes = []; base = 0 } }
    requires verified { verdict_of formula.now.clauses (proof_lines proof.now) ≡ Verified }
    ensures { IfOk result (λ log. IsProved formula.now.clauses log.events) }
{
    let clauses = formula.clauses();
    let mut log = begun;
    let mut ids = ids_of(alloc, clauses.len())?;
    let rows = proof.rows();
    for row in rows {
        let Line::Add { id, clause, hints } = proof.line(row) else {
            continue;
        };
        let places = places_of(alloc, &ids, hints)?;
        let literals = Vec::from_slice(alloc, clause)?;
        log.step(Clause::new(alloc, literals)?, places)?;
        if clause.is_empty() {
            return Ok(log);
        }
        ids.push(id)?;
    }
    let Some(place) = empty_place(clauses) else {
        unreachable!()
    };
    let mut hints = Vec::new(alloc);
    hints.push(place)?;
    log.step(Clause::new(alloc, Vec::new(alloc))?, hints)?;
    Ok(log)
}
