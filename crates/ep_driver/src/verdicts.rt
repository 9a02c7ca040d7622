//! Says whether a proof shows that a formula has no satisfying assignment.

ghost use Rattle.std.specs.Prelude.{◌≡◌, IfOk};
ghost use Rattle.ep_solve.specs.Right.{empty_log};
ghost use Rattle.ep_driver.specs.Answers.{Settles, verdict_status};
ghost use Rattle.ep_driver.specs.Outcomes.{to_check};
ghost use Rattle.ep_driver.specs.Steps.{IsJudgedEnd};
ghost use Rattle.ep_files.specs.Reads.{formula_clauses};
ghost use Rattle.sat_proof.specs.Lines.{proof_lines};
ghost use Rattle.log_check.specs.Verdict.{verdict_of};

use super::replies::Reply;
use cnf_core::Formula;
use ep_base::Memory;
use ep_files::Status;
use ep_said::verdict_text;
use log_check::{OpenGate, Verdict, check_log, check_log_parallel};
use sat_proof::Proof;
use std::alloc::Global;
use std::thread::Threads;

/// What is said of a proof of a formula, which is checked by so many workers.
pub fn checked_reply<R: Threads + Sync>(
    rt: &R,
    alloc: Global,
    formula: &Formula,
    proof: &Proof,
    workers: u64,
) -> Result<Reply, Memory>
    ensures answers { IfOk result (λ reply.
        Settles (to_check (formula_clauses formula.now) (proof_lines proof.now)) reply.status reply.text.items empty_log) }
    ensures ends { IfOk result (λ reply. IsJudgedEnd reply.status empty_log) }
{
    let verdict = verdict_by(rt, alloc, formula, proof, workers)?;
    let text = verdict_text(alloc, verdict)?;
    Ok(Reply {
        status: verdict_status(verdict),
        text,
    })
}

/// The verdict on a proof, by so many workers: by one where the number isn't from 2 to 64.
fn verdict_by<R: Threads + Sync>(
    rt: &R,
    alloc: Global,
    formula: &Formula,
    proof: &Proof,
    workers: u64,
) -> Result<Verdict, Memory>
    ensures { IfOk result (λ verdict. verdict ≡ verdict_of (formula_clauses formula.now) (proof_lines proof.now)) }
{
    if 2 <= workers && workers <= 64 {
        check_log_parallel(rt, alloc, formula, proof, workers, &OpenGate)
    } else {
        check_log(alloc, formula, proof)
    }
}

/// How a run ends that checks a proof.
#[tactic(auto, unfolding(crate::specs::Answers::verdict_status))]
fn verdict_status(verdict: Verdict) -> Status
    ensures { result ≡ verdict_status verdict }
{
    match verdict {
        Verdict::Verified => Status::Answered,
        Verdict::BadStep(_) | Verdict::NoEmptyClause => Status::Refuted,
    }
}
