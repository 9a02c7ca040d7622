//! Joins the proof of a cube.

ghost use Rattle.std.specs.Prelude.{◌≡◌, ℕ, ◌+◌, ◌^◌, ◌<◌, List, [], IfOk, OnOk, Err, length};
ghost use Rattle.log_check.specs.Verdict.{verdict_of};
ghost use Rattle.log_check.specs.declared.Verdict.TheVariants as verdicts;
ghost use Rattle.sat_join.specs.Joins.{Divides, RefutesCubes};
ghost use Rattle.sat_merge.specs.Proofs.{cube_clauses};
ghost use Rattle.sat_proof.specs.Lines.{proof_lines};

use crate::formulas::formula_of;
use crate::logs::log_of_proof;
use cnf_core::{Formula, Log};
use ep_base::Memory;
use log_check::{Verdict, check_log};
use sat_join::join_cube;
use sat_proof::Proof;
use sat_split::{cube_literals, cube_log, given_log};
use std::alloc::Global;
use std::error::Error;
use std::fmt;

/// Why a proof wasn't joined.
#[derive(Clone, Copy, Debug, PartialEq, Eq)]
pub enum JoinError {
    /// An allocation was refused.
    Memory,
    /// The line of this number, counted from 1, isn't valid.
    Bad(u64),
    /// Each line is valid, and none has the empty clause, nor has the formula.
    Open,
}

impl fmt::Display for JoinError {
    fn fmt<W: fmt::Write>(&self, f: &mut fmt::Formatter<W>) -> fmt::Result {
        match self {
            JoinError::Memory => write!(f, "memory"),
            JoinError::Bad(line) => write!(f, "line {line} isn't valid"),
            JoinError::Open => write!(f, "the empty clause isn't reached"),
        }
    }
}

impl Error for JoinError {}

impl From<Memory> for JoinError {
    ghost use Rattle.std.specs.Prelude.{◌≡◌};
    ghost use Rattle.sat_merge.specs.declared.joining.JoinError.TheVariants as errors;

    ghost from_gives = { λ _ e. e ≡ errors.Memory };

    fn from(_refused: Memory) -> JoinError {
        JoinError::Memory
    }
}

/// A log of a formula's clauses, to which no cube is joined yet.
pub fn begin(alloc: Global, formula: &Formula) -> Result<Log, Memory>
    ensures joint { IfOk result (λ log. (vars : List ℕ) → RefutesCubes formula.now.clauses vars [] log.events) }
    ensures notes { IfOk result (λ log. log.notes ≡ []) }
    ensures base { IfOk result (λ log. log.base ≡ 0) }
{
    // What each formula keeps of its clauses, `clauses` promises of this one too.
    let _clauses = formula.clauses();
    let log = given_log(alloc, formula)?;
    Ok(log)
}

/// Joins the proof of the next cube, by whatever solver, to those of the cubes below, and keeps the place of an event each of whose
/// literals is false in it. The proof is one of the formula with the cube's literals behind its clauses, each as a clause of its own, and
/// is checked first. Its steps needn't be new, so those of the joined log may not be either.
///
/// Costs a check of the proof, the literals and hints of its lines, and a look at each event of the joined log.
pub fn join_proof(
    alloc: Global,
    formula: &Formula,
    vars: &[u64],
    proof: &Proof,
    joined: &mut Log,
    ends: &mut Vec<u64>,
) -> Result<(), JoinError>
    requires divides { Divides formula.now.clauses vars.now }
    requires is_cube { length ends.old.items < 2 ^ length vars.now }
    requires joint { RefutesCubes formula.now.clauses vars.now ends.old.items joined.old.events }
    ensures joint { OnOk result (RefutesCubes formula.now.clauses vars.now ends.new.items joined.new.events) }
    ensures count { OnOk result (length ends.new.items ≡ length ends.old.items + 1) }
    ensures verified { OnOk result (verdict_of (cube_clauses formula.now.clauses vars.now (length ends.old.items))
        (proof_lines proof.now) ≡ verdicts.Verified) }
    // A proof that isn't joined changes nothing. After want of memory nothing is said of what is joined: the caller drops it.
    ensures bad { (line : ℕ) → result ≡ Err (JoinError.Bad line)
        → (verdict_of (cube_clauses formula.now.clauses vars.now (length ends.old.items)) (proof_lines proof.now)
        ≡ verdicts.BadStep line) × (joined.new ≡ joined.old) × (ends.new ≡ ends.old) }
    ensures open { result ≡ Err JoinError.Open
        → (verdict_of (cube_clauses formula.now.clauses vars.now (length ends.old.items)) (proof_lines proof.now)
        ≡ verdicts.NoEmptyClause) × (joined.new ≡ joined.old) × (ends.new ≡ ends.old) }
    ensures notes { OnOk result (joined.new.notes ≡ joined.old.notes) }
    ensures base { OnOk result (joined.new.base ≡ joined.old.base) }
{
    let _clauses = formula.clauses();
    let literals = cube_literals(alloc, ends.len() as u64, vars)?;
    let begun = cube_log(alloc, formula, &literals)?;
    let own = formula_of(alloc, formula.vars(), &begun)?;
    match check_log(alloc, &own, proof)? {
        Verdict::Verified => {
            let log = log_of_proof(alloc, &own, begun, proof)?;
            join_cube(alloc, formula, vars, &log, joined, ends)?;
            Ok(())
        }
        Verdict::BadStep(line) => Err(JoinError::Bad(line)),
        Verdict::NoEmptyClause => Err(JoinError::Open),
    }
}
