//! Does what is wanted of a run.

ghost use Rattle.std.specs.Prelude.{◌≡◌, ◌≤◌, ◌⊎◌, ◌++◌, ◌∷◌, [], option_to_list, All, IfOk};
ghost use Rattle.ep_base.specs.Outside.{Rose};
ghost use Rattle.ep_tree.specs.Texts.{IsSpellable};
ghost use Rattle.ep_tree.specs.Views.{model_tree, params_tree};
ghost use Rattle.sat_text.specs.Writing.{IsReadableNote};
ghost use Rattle.ep_driver.specs.Commands.{files_of};
ghost use Rattle.ep_driver.specs.Outcomes.{search_outcome, verify_outcome};
ghost use Rattle.ep_driver.specs.Searches.{CanBeWanted, HasFewCubes, HasSoundSteps, LogsInstance, NotesMayBeWritten};
ghost use Rattle.ep_driver.specs.Shown.{ComesTo, comes_to_check, comes_to_judge, comes_to_search, comes_to_verify};
ghost use Rattle.ep_solve.specs.Right.{empty_log};
ghost use Rattle.ep_driver.specs.Steps.{AnswersTexts, EndsAs, EndsBy, IsJudgedEnd, IsSearchedFor, TellsReply, TellsTask};
ghost use Rattle.ep_files.specs.Reads.{formula_clauses};

use super::answering::searched_reply;
use super::checking::{checked_model, checked_params, instance_of};
use super::generating::generate;
use super::judging::judged_reply;
use super::opb::opb_file_reply;
use super::replies::Reply;
use super::verdicts::checked_reply;
use super::wanted::{Request, Wanted};
use cnf_core::{Formula, Log};
use ep_base::{Files, Word};
use ep_files::{Stop, read_formula, read_model, read_named_params, read_params, read_proof};
use ep_print::TextFile;
use ep_solve_laws::notes_can_be_read;
use ep_tree::{Mode, Model, Params};
use std::alloc::Global;
use std::thread::Threads;

/// Does what is wanted. The formula and the solver's steps stand in the log then, where it was needed.
pub fn do_wanted<R: Threads + Sync, F: Files>(
    rt: &R,
    alloc: Global,
    files: &mut F,
    wanted: &Wanted,
    log: &mut Log,
) -> Result<Reply, Stop>
    requires empty { log.old ≡ empty_log }
    requires possible { CanBeWanted wanted.now }
    ensures tells { TellsTask (files_of wanted.now) (ComesTo wanted.now) (F.held files.old)
        (Rose (F.faults files.old) (F.faults files.new)) log.new result }
    ensures generated { IfOk result (λ reply. AnswersTexts wanted.now reply log.new) }
    ensures ends { EndsAs wanted.now log.new result }
    ensures readable { IfOk result (λ reply. NotesMayBeWritten wanted.now → All IsReadableNote log.new.notes) }
    ensures held { F.held files.new ≡ F.held files.old }
    ensures faults { F.faults files.old ≤ F.faults files.new }
{
    match wanted {
        Wanted::Search {
            model,
            params,
            mode,
            request,
            ..
        } => {
            let model = read_model(alloc, files, model)?;
            search_model(rt, alloc, files, model, params, *mode, *request, log)
        }
        Wanted::Opb { opb, conflicts } => opb_file_reply(alloc, files, opb, *conflicts, log),
        Wanted::Verify {
            model,
            params,
            mode,
            solution,
        } => {
            let model = read_model(alloc, files, model)?;
            verify_model(alloc, files, model, params, *mode, solution)
        }
        Wanted::Check {
            formula,
            proof,
            workers,
        } => {
            let formula = read_formula(alloc, files, formula)?;
            check_proof(rt, alloc, files, formula, proof, *workers)
        }
        Wanted::Generate {
            number,
            conflicts,
            ..
        } => generate(rt, alloc, *number, *conflicts, log),
    }
}

/// Searches in a model, once its parameters are read.
fn search_model<R: Threads + Sync, F: Files>(
    rt: &R,
    alloc: Global,
    files: &mut F,
    model: Model,
    params: &Option<Word>,
    mode: Mode,
    request: Request,
    log: &mut Log,
) -> Result<Reply, Stop>
    requires spelled { IsSpellable (model_tree model) }
    requires empty { log.old ≡ empty_log }
    requires few { HasFewCubes request }
    ensures tells { TellsTask (option_to_list params.now) (comes_to_search mode request params.now (model_tree model))
        (F.held files.old) (Rose (F.faults files.old) (F.faults files.new)) log.new result }
    ensures ends { EndsBy (HasSoundSteps request log.new.events) (λ status. IsSearchedFor request status log.new) log.new result }
    ensures readable { IfOk result (λ reply. LogsInstance request → All IsReadableNote log.new.notes) }
    ensures held { F.held files.new ≡ F.held files.old }
    ensures faults { F.faults files.old ≤ F.faults files.new }
{
    let params = read_named_params(alloc, files, params)?;
    search_texts(rt, alloc, model, params, mode, request, log)
}

/// Verifies a solution text of a model, once its parameters are read.
fn verify_model<F: Files>(
    alloc: Global,
    files: &mut F,
    model: Model,
    params: &Option<Word>,
    mode: Mode,
    solution: &Word,
) -> Result<Reply, Stop>
    ensures tells { TellsTask (option_to_list params.now ++ solution.now ∷ [])
        (comes_to_verify mode params.now solution.now (model_tree model))
        (F.held files.old) (Rose (F.faults files.old) (F.faults files.new)) empty_log result }
    ensures status { IfOk result (λ reply. IsJudgedEnd reply.status empty_log) }
    ensures held { F.held files.new ≡ F.held files.old }
    ensures faults { F.faults files.old ≤ F.faults files.new }
{
    let params = read_named_params(alloc, files, params)?;
    verify_solution(alloc, files, model, params, mode, solution)
}

/// Verifies a solution text, once it is read.
fn verify_solution<F: Files>(
    alloc: Global,
    files: &mut F,
    model: Model,
    params: Params,
    mode: Mode,
    solution: &Word,
) -> Result<Reply, Stop>
    ensures tells { TellsTask (solution.now ∷ [])
        (comes_to_judge mode solution.now (model_tree model) (params_tree params))
        (F.held files.old) (Rose (F.faults files.old) (F.faults files.new)) empty_log result }
    ensures status { IfOk result (λ reply. IsJudgedEnd reply.status empty_log) }
    ensures held { F.held files.new ≡ F.held files.old }
    ensures faults { F.faults files.old ≤ F.faults files.new }
{
    let solution = read_params(alloc, files, TextFile::Solution, solution)?;
    verify_texts(alloc, model, params, mode, solution)
}

/// Checks a proof of a formula, once it is read.
fn check_proof<R: Threads + Sync, F: Files>(
    rt: &R,
    alloc: Global,
    files: &mut F,
    formula: Formula,
    proof: &Word,
    workers: u64,
) -> Result<Reply, Stop>
    ensures tells { TellsTask (proof.now ∷ []) (comes_to_check proof.now (formula_clauses formula))
        (F.held files.old) (Rose (F.faults files.old) (F.faults files.new)) empty_log result }
    ensures status { IfOk result (λ reply. IsJudgedEnd reply.status empty_log) }
    ensures held { F.held files.new ≡ F.held files.old }
    ensures faults { F.faults files.old ≤ F.faults files.new }
{
    let proof = read_proof(alloc, files, proof)?;
    let reply = checked_reply(rt, alloc, &formula, &proof, workers)?;
    Ok(reply)
}

/// Searches in a model under its parameters.
pub fn search_texts<R: Threads + Sync>(
    rt: &R,
    alloc: Global,
    model: Model,
    params: Params,
    mode: Mode,
    request: Request,
    log: &mut Log,
) -> Result<Reply, Stop>
    requires spelled { IsSpellable (model_tree model) }
    requires empty { log.old ≡ empty_log }
    requires few { HasFewCubes request }
    ensures tells { TellsReply (search_outcome mode request (model_tree model) (params_tree params)) log.new result }
    ensures ends { EndsBy (HasSoundSteps request log.new.events) (λ status. IsSearchedFor request status log.new) log.new result }
    ensures readable { IfOk result (λ reply. LogsInstance request → All IsReadableNote log.new.notes) }
{
    notes_can_be_read();
    let model = checked_model(alloc, model)?;
    let params = checked_params(alloc, TextFile::Params, params)?;
    let instance = instance_of(alloc, mode, model, params)?;
    let reply = searched_reply(rt, alloc, &instance, request, log)?;
    Ok(reply)
}

/// Verifies a solution text of a model under its parameters.
fn verify_texts(
    alloc: Global,
    model: Model,
    params: Params,
    mode: Mode,
    solution: Params,
) -> Result<Reply, Stop>
    ensures tells { TellsReply
        (verify_outcome mode (model_tree model) (params_tree params) (params_tree solution)) empty_log result }
{
    let model = checked_model(alloc, model)?;
    let params = checked_params(alloc, TextFile::Params, params)?;
    let solution = checked_params(alloc, TextFile::Solution, solution)?;
    let instance = instance_of(alloc, mode, model, params)?;
    judged_reply(alloc, &instance, solution)
}
