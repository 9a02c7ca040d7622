//! The top call.

ghost use Rattle.std.specs.Prelude.{◌≡◌, ◌≢◌, ◌⊎◌, ◌≤◌, ℕ, List, [], None, Some, Ok, Err, Contains, IfSome, IsSomeAnd, Option, codes};
ghost use Rattle.ep_base.specs.Outside.{Rose, TookPart, with_more};
ghost use Rattle.ep_tree.specs.declared.values.Mode.{Mode};
ghost use Rattle.ep_print.specs.Refusals.{refusal_text};
ghost use Rattle.ep_print.specs.declared.refusals.Refusal.{Refusal};
ghost use Rattle.ep_solve.specs.Right.{IsSpent, empty_log};
ghost use Rattle.sat_search.specs.Logs.{EndsWithEmptyStep, IsSound};
ghost use Rattle.cnf_core.specs.Events.{givens};
ghost use Rattle.cnf_core.specs.LogLines.{log_lines};
ghost use Rattle.cnf_core.specs.Steps.{IsValidLog, NonEmptyStepsAreNew};
ghost use Rattle.log_check.specs.Verdict.{first_bad, verdict_of};
ghost use Rattle.log_check.specs.declared.Verdict.TheVariants.{Verified};
ghost use Rattle.ep_driver.specs.Answers.{Settles};
ghost use Rattle.ep_driver.specs.Budgets.{IsBelowPower, MeetsConflict, before_steps};
ghost use Rattle.ep_driver.specs.Commands.{AreNoCommand, IsJudgement, Want};
ghost use Rattle.ep_driver.specs.Outcomes.{Task};
ghost use Rattle.ep_outputs.specs.Outputs.{AreWritten, IsFormulaText, IsStepsText, for_texts};
ghost use Rattle.ep_driver.specs.Outputs.{HasOutput, HoldsText, SameButOutput};
ghost use Rattle.ep_driver.specs.Promised.{IsPromised};
ghost use Rattle.ep_driver.specs.Puts.{IsDeviceLine, MayBePut, TookFirst, TookOnWant};
ghost use Rattle.ep_driver.specs.Searches.{AskForCubes, IsSearchFor};
ghost use Rattle.ep_driver.specs.Shown.{Ask, Refuses, Show, comes_to_generate};
ghost use Rattle.ep_files.specs.Status.{HasReply, status_of};
ghost use Rattle.ep_files.specs.declared.status.Status.{Status as StatusValue};
ghost use Rattle.ep_driver.specs.declared.wanted.Outputs.{Outputs};
ghost use Rattle.ep_driver.specs.declared.wanted.Request.{Request};
ghost use Rattle.ep_driver.specs.declared.wanted.Wanted.{Wanted};

use super::replies::reply_to;
use cnf_core::{Log, new_steps_are_few, no_step_is_effective_after_a_conflict};
use ep_base::{Files, PutError, Sink, Word, put_all};
use ep_files::Status;
use ep_parse_model::texts_have_one_answer;
use ep_words::one_job_for_words;
use log_check::valid_logs_are_accepted;
use opb_solve::opb_texts_come_to_one_thing;
use sat_text::{cnf_texts_have_one_meaning, log_texts_have_one_meaning};
use std::alloc::Global;
use std::thread::Threads;

/// Does what the words ask for, and says how it ended. What the solver was given and the steps that it made stand in the log
/// then. The formula, these steps and the answer are written into the files that the words name for them, in this order, before
/// the answer is put out.
pub fn run<R: Threads + Sync, F: Files, K: Sink>(
    rt: &R,
    alloc: Global,
    words: &[Word],
    files: &mut F,
    out: &mut K,
    log: &mut Log,
) -> Status
    requires empty { log.old ≡ empty_log }
    // The promise: where the files tell what they hold, what was put out with an answer, or with the best that was found until the
    // conflicts were spent, is the text of what is true of the texts that the words name. It leaves open what a verdict on a proof
    // and the texts of a number are. All that follows says more.
    ensures promised { (result ≡ StatusValue.Answered) ⊎ (result ≡ StatusValue.Unknown) →
        IfSome (F.held files.old) (λ held. (wanted : Wanted) × (text : List ℕ)
        × Want words.now wanted × IsPromised held wanted result text
        × (K.taken out.new ≡ with_more text (K.taken out.old))) }
    // An answer is right for the task that the words and the held files show: an optimum or a solution, that there is none, or
    // that the conflicts were spent, with the best solution so far; a list of solutions, and whether these are all; clauses that
    // explain why there is no solution; a judgement of a solution text; an answer to a pseudo-Boolean problem; the verdict on a
    // proof of a formula; the summary of a number's texts. Its text was put out, and nothing else, and the files that the words name
    // for output are written. The log shows the answer of a search; where the conflicts were spent on an explanation, that of its
    // last attempt.
    ensures answered { HasReply result →
        IfSome (F.held files.old) (λ held. (task : Task) × (text : List ℕ)
        × Ask words.now held task × Settles task result text log.new
        × (K.taken out.new ≡ with_more text (K.taken out.old))
        × HasOutput words.now text log.new (F.held files.old) (F.held files.new)) }
    // Of the texts of a number this is so whatever the files are, told or not.
    ensures generated { HasReply result →
        (number conflicts : ℕ) (eprime param : Option (List ℕ))
        → Want words.now (Wanted.Generate number conflicts eprime param)
        → (task : Task) × (text : List ℕ) × comes_to_generate number conflicts (Ok task)
        × Settles task result text log.new × (K.taken out.new ≡ with_more text (K.taken out.old))
        × AreWritten log.new text (for_texts number eprime param) (F.held files.old) (F.held files.new) }
    ensures unknown { result ≡ StatusValue.Unknown →
        (wanted : Wanted) × (conflicts : ℕ) × Want words.now wanted × IsSearchFor wanted conflicts
        × IsSpent conflicts log.new.events }
    // Then the conflicts were fewer than 3 to the number of variables of what was given, and unit propagation on what was given
    // before the first step meets no conflict.
    ensures few { result ≡ StatusValue.Unknown →
        (wanted : Wanted) (conflicts : ℕ) → Want words.now wanted → IsSearchFor wanted conflicts
        → IsBelowPower conflicts log.new.events }
    ensures unforced { result ≡ StatusValue.Unknown → ¬ MeetsConflict (before_steps log.new.events) }
    ensures refuted { result ≡ StatusValue.Refuted →
        (wanted : Wanted) × Want words.now wanted × IsJudgement wanted }

    // A fault or a limit is one that the words and the held files show. Its line was put out, and
    // nothing else.
    ensures refused { (result ≡ StatusValue.Usage) ⊎ (result ≡ StatusValue.Text)
        ⊎ (result ≡ StatusValue.Limit) →
        IfSome (F.held files.old) (λ held. (line : List ℕ) × Refuses words.now held result line
        × (K.taken out.new ≡ with_more line (K.taken out.old))) }
    ensures usage { result ≡ StatusValue.Usage → AreNoCommand words.now }
    ensures usage_line { result ≡ StatusValue.Usage →
        K.taken out.new ≡ with_more (refusal_text Refusal.Usage) (K.taken out.old) }

    // A failure is one that a device counted in this call, or a file that has to be read isn't held.
    ensures device { result ≡ StatusValue.Device →
        Rose (F.faults files.old) (F.faults files.new) ⊎ Rose (K.faults out.old) (K.faults out.new)
        ⊎ IsSomeAnd (F.held files.old) (λ held.
        (line : List ℕ) × Refuses words.now held StatusValue.Device line) }
    ensures not_held { result ≡ StatusValue.Device →
        ¬ Rose (F.faults files.old) (F.faults files.new) →
        ¬ Rose (K.faults out.old) (K.faults out.new) →
        IfSome (F.held files.old) (λ held. (line : List ℕ)
        × Refuses words.now held StatusValue.Device line
        × (K.taken out.new ≡ with_more line (K.taken out.old))) }

    // Then the line of a file that can't be read or written was put out, and nothing else, and nothing is logged where it can't
    // be read; or the sink failed, and took of one text that may be put out a part that isn't the whole.
    ensures failed { result ≡ StatusValue.Device →
        ((text : List ℕ) × IsDeviceLine words.now (F.held files.old) (F.held files.new)
        (Rose (F.faults files.old) (F.faults files.new)) log.new text
        × (K.taken out.new ≡ with_more text (K.taken out.old)))
        ⊎ (Rose (K.faults out.old) (K.faults out.new) × (text : List ℕ)
        × MayBePut words.now (F.held files.old) (F.held files.new)
        (Rose (F.faults files.old) (F.faults files.new)) log.new text
        × TookPart text (K.taken out.old) (K.taken out.new)) }

    // Where memory was wanting, the sink took no more than its line, or a part of one text that may be put out.
    ensures wanting { result ≡ StatusValue.Memory →
        TookOnWant words.now (F.held files.old) (F.held files.new)
        (Rose (F.faults files.old) (F.faults files.new)) log.new (K.taken out.old) (K.taken out.new) }

    // Where no device failed, a refusal that stands comes, and else the answer, want of memory aside.
    ensures refuses { ¬ Rose (F.faults files.old) (F.faults files.new) →
        ¬ Rose (K.faults out.old) (K.faults out.new) →
        IfSome (F.held files.old) (λ held. (refusals : List Refusal) →
        Show words.now held (Err refusals) → (result ≡ StatusValue.Memory)
        ⊎ ((refusal : Refusal) × Contains refusals refusal × (result ≡ status_of refusal))) }
    ensures answers { ¬ Rose (F.faults files.old) (F.faults files.new) →
        ¬ Rose (K.faults out.old) (K.faults out.new) →
        IfSome (F.held files.old) (λ held. (task : Task) → Ask words.now held task →
        (result ≡ StatusValue.Memory) ⊎ HasReply result) }
    ensures usage_refused { AreNoCommand words.now → ¬ Rose (K.faults out.old) (K.faults out.new) →
        (result ≡ StatusValue.Usage) ⊎ (result ≡ StatusValue.Memory) }

    // Each step of the log is valid, and each with a literal new, however the run ends. Each with a literal is effective too, but
    // where the words ask for cubes, whose joined steps can be less, and the conflicts weren't spent.
    ensures valid { IsValidLog log.new.events }
    ensures new { NonEmptyStepsAreNew log.new.events }
    ensures sound { (¬ AskForCubes words.now) ⊎ (result ≡ StatusValue.Unknown) → IsSound log.new.events }
    // Nothing is logged with a refusal or a judgement, nor where a refusal stands, nor where the words ask for a judgement, however
    // that ends.
    ensures unlogged { (result ≡ StatusValue.Refuted) ⊎ ((result ≡ StatusValue.Usage)
        ⊎ ((result ≡ StatusValue.Text) ⊎ (result ≡ StatusValue.Limit))) → log.new ≡ empty_log }
    ensures refused_unlogged { IfSome (F.held files.old) (λ held.
        (refusals : List Refusal) → Show words.now held (Err refusals) → log.new ≡ empty_log) }
    ensures judged_unlogged { (wanted : Wanted) → Want words.now wanted → IsJudgement wanted
        → log.new ≡ empty_log }

    // Where the words name a file for the formula, and no other output by its name, the formula's text stands there then; and
    // likewise the text of the steps.
    ensures formula_file { HasReply result →
        (model : List ℕ) (params : Option (List ℕ)) (mode : Mode) (request : Request) (outputs : Outputs)
        → Want words.now (Wanted.Search model params mode request outputs) → (name : List ℕ)
        → outputs.formula ≡ Some name → outputs.log ≢ Some name → outputs.solution ≢ Some name
        → HoldsText (F.held files.new) name (IsFormulaText log.new) }
    ensures log_file { HasReply result →
        (model : List ℕ) (params : Option (List ℕ)) (mode : Mode) (request : Request) (outputs : Outputs)
        → Want words.now (Wanted.Search model params mode request outputs) → (name : List ℕ)
        → outputs.log ≡ Some name → outputs.solution ≢ Some name
        → HoldsText (F.held files.new) name (IsStepsText log.new) }

    // No line of these steps is bad over what was given to the solver, however the run ends. Where the last step is the empty one,
    // as with an optimum, without a solution, or with a list that is complete, they are verified.
    ensures accepted { first_bad (givens log.new.events) [] (log_lines log.new.events) ≡ None }
    ensures verified { EndsWithEmptyStep log.new.events →
        verdict_of (givens log.new.events) (log_lines log.new.events) ≡ Verified }

    // Every file but those that the words name for output stays as it was, and these too where a refusal
    // stands, and with a refusal or a judgement. No count of faults falls.
    ensures others { SameButOutput words.now (F.held files.old) (F.held files.new) }
    ensures refused_unwritten { IfSome (F.held files.old) (λ held. (refusals : List Refusal) →
        Show words.now held (Err refusals) → F.held files.new ≡ F.held files.old) }
    ensures unwritten { (result ≡ StatusValue.Refuted) ⊎ ((result ≡ StatusValue.Usage)
        ⊎ ((result ≡ StatusValue.Text) ⊎ (result ≡ StatusValue.Limit)))
        → F.held files.new ≡ F.held files.old }
    ensures files_faults { F.faults files.old ≤ F.faults files.new }
    ensures out_faults { K.faults out.old ≤ K.faults out.new }
{
    one_job_for_words();
    texts_have_one_answer();
    cnf_texts_have_one_meaning();
    log_texts_have_one_meaning();
    opb_texts_come_to_one_thing();
    new_steps_are_few();
    no_step_is_effective_after_a_conflict();
    valid_logs_are_accepted();
    let Ok(reply) = reply_to(rt, alloc, words, files, log) else {
        put_memory(out);
        return Status::Memory;
    };
    match put_all(out, &reply.text) {
        Ok(()) => reply.status,
        Err(PutError::Failed) => Status::Device,
        Err(PutError::Memory) => Status::Memory,
    }
}

/// Puts out the line that says that memory is wanting, or what the sink takes of it.
fn put_memory<K: Sink>(out: &mut K)
    ensures taken { TookFirst (codes "memory\n") (K.taken out.old) (K.taken out.new) }
    ensures faults { K.faults out.old ≤ K.faults out.new }
{
    let _ = put_all(out, b"memory\n");
}
