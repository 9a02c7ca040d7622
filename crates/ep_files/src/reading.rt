//! Reads the files of a run.

ghost use Rattle.std.specs.Prelude.{◌≡◌, ◌<◌, ◌≤◌, ◌^◌, [], IfOk};
ghost use Rattle.ep_base.specs.Outside.{Rose};
ghost use Rattle.ep_tree.specs.Texts.{IsSpellable};
ghost use Rattle.ep_tree.specs.Views.{model_tree, params_tree};
ghost use Rattle.ep_print.specs.declared.refusals.TextFile.{TextFile as TextFileValue};
ghost use Rattle.ep_files.specs.Readings.{HasParams, IsFormulaReadAs, IsProofReadAs, IsTextReadAs};
ghost use Rattle.ep_files.specs.Reads.{TellsBytes, TellsParams, TellsRead, TellsText, IsUnreadStop, formula_clauses};
ghost use Rattle.sat_proof.specs.Lines.{proof_lines};

use super::errors::{cnf_stop, log_stop, text_stop};
use super::stops::Stop;
use cnf_core::Formula;
use ep_base::{FileError, Files, Memory, Word};
use ep_parse_model::{parse_model, parse_params};
use ep_print::{Refusal, TextFile};
use ep_tree::{Model, Params};
use sat_proof::Proof;
use sat_text::{read_cnf, read_log};
use std::alloc::Global;

/// A text of the language has at most so many bytes.
const MOST_BYTES: u64 = 16_777_216;

/// A text of a formula or of a proof has at most so many bytes.
const MOST_CLAUSE_BYTES: u64 = 1_073_741_824;

/// Reads the model.
pub fn read_model<F: Files>(alloc: Global, files: &mut F, name: &Word) -> Result<Model, Stop>
    ensures tells { TellsRead model_tree (IsTextReadAs TextFileValue.Model) (F.held files.old) name.now
        (Rose (F.faults files.old) (F.faults files.new)) result }
    ensures spelled { IfOk result (λ model. IsSpellable (model_tree model)) }
    ensures held { F.held files.new ≡ F.held files.old }
    ensures faults { F.faults files.old ≤ F.faults files.new }
{
    let text = read_bytes(alloc, files, name, MOST_BYTES)?;
    model_in(alloc, &text)
}

/// Reads a parameter text or a solution text.
pub fn read_params<F: Files>(
    alloc: Global,
    files: &mut F,
    file: TextFile,
    name: &Word,
) -> Result<Params, Stop>
    requires { HasParams file }
    ensures tells { TellsRead params_tree (IsTextReadAs file) (F.held files.old) name.now
        (Rose (F.faults files.old) (F.faults files.new)) result }
    ensures held { F.held files.new ≡ F.held files.old }
    ensures faults { F.faults files.old ≤ F.faults files.new }
{
    let text = read_bytes(alloc, files, name, MOST_BYTES)?;
    params_in(alloc, file, &text)
}

/// Reads the parameters, if a file is named that has them.
pub fn read_named_params<F: Files>(
    alloc: Global,
    files: &mut F,
    name: &Option<Word>,
) -> Result<Params, Stop>
    ensures tells { TellsParams (F.held files.old) name.now
        (Rose (F.faults files.old) (F.faults files.new)) result }
    ensures held { F.held files.new ≡ F.held files.old }
    ensures faults { F.faults files.old ≤ F.faults files.new }
{
    match name {
        Some(name) => read_params(alloc, files, TextFile::Params, name),
        None => Ok(no_params(alloc)),
    }
}

/// No parameters.
#[tactic(auto, unfolding(ep_tree::specs::Views::params_tree))]
fn no_params(alloc: Global) -> Params
    ensures { params_tree result ≡ [] }
{
    Params {
        statements: Vec::new(alloc),
    }
}

/// Reads the formula of a file.
pub fn read_formula<F: Files>(alloc: Global, files: &mut F, name: &Word) -> Result<Formula, Stop>
    ensures tells { TellsRead formula_clauses IsFormulaReadAs (F.held files.old) name.now
        (Rose (F.faults files.old) (F.faults files.new)) result }
    ensures held { F.held files.new ≡ F.held files.old }
    ensures faults { F.faults files.old ≤ F.faults files.new }
{
    let text = read_bytes(alloc, files, name, MOST_CLAUSE_BYTES)?;
    formula_in(alloc, &text)
}

/// Reads the proof of a file.
pub fn read_proof<F: Files>(alloc: Global, files: &mut F, name: &Word) -> Result<Proof, Stop>
    ensures tells { TellsRead proof_lines IsProofReadAs (F.held files.old) name.now
        (Rose (F.faults files.old) (F.faults files.new)) result }
    ensures held { F.held files.new ≡ F.held files.old }
    ensures faults { F.faults files.old ≤ F.faults files.new }
{
    let text = read_bytes(alloc, files, name, MOST_CLAUSE_BYTES)?;
    proof_in(alloc, &text)
}

/// Reads a file, one byte more at most than a text of its kind may have, so that a text that has more is told by its length.
pub fn read_bytes<F: Files>(
    alloc: Global,
    files: &mut F,
    name: &Word,
    most: u64,
) -> Result<Vec<u8>, Stop>
    requires { most < 2 ^ 63 }
    ensures tells { TellsBytes (λ bytes. bytes.items) most (F.held files.old) name.now
        (Rose (F.faults files.old) (F.faults files.new)) result }
    ensures held { F.held files.new ≡ F.held files.old }
    ensures faults { F.faults files.old ≤ F.faults files.new }
{
    match files.read(alloc, name.text(), most + 1) {
        Ok(Some(bytes)) => Ok(bytes),
        Ok(None) => Err(unread(alloc, name)),
        Err(FileError::Failed) => Err(unread(alloc, name)),
        Err(FileError::Memory) => Err(Stop::Memory),
    }
}

/// A file can't be read.
fn unread(alloc: Global, name: &Word) -> Stop
    ensures { IsUnreadStop name.now result }
{
    match Word::new(alloc, name.text()) {
        Ok(word) => Stop::Refused(Refusal::CannotRead(word)),
        Err(Memory) => Stop::Memory,
    }
}

/// The model that a text is.
pub fn model_in(alloc: Global, text: &[u8]) -> Result<Model, Stop>
    ensures tells { TellsText model_tree (IsTextReadAs TextFileValue.Model) text.now result }
    ensures spelled { IfOk result (λ model. IsSpellable (model_tree model)) }
{
    match parse_model(alloc, text) {
        Ok(model) => Ok(model),
        Err(error) => Err(text_stop(TextFile::Model, error)),
    }
}

/// The parameter text or the solution text that a text is.
pub fn params_in(alloc: Global, file: TextFile, text: &[u8]) -> Result<Params, Stop>
    requires { HasParams file }
    ensures { TellsText params_tree (IsTextReadAs file) text.now result }
{
    match parse_params(alloc, text) {
        Ok(params) => Ok(params),
        Err(error) => Err(text_stop(file, error)),
    }
}

/// The formula that a text is.
fn formula_in(alloc: Global, text: &[u8]) -> Result<Formula, Stop>
    ensures { TellsText formula_clauses IsFormulaReadAs text.now result }
{
    match read_cnf(alloc, text) {
        Ok(file) => Ok(file.formula),
        Err(error) => Err(cnf_stop(error)),
    }
}

/// The proof that a text is.
fn proof_in(alloc: Global, text: &[u8]) -> Result<Proof, Stop>
    ensures { TellsText proof_lines IsProofReadAs text.now result }
{
    match read_log(alloc, text) {
        Ok(proof) => Ok(proof),
        Err(error) => Err(log_stop(error)),
    }
}
