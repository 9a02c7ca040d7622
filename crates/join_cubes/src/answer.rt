//! The joined proof that the words of a command line ask for.

ghost use Rattle.std.specs.Prelude.{◌≡◌, ◌+◌, ◌^◌, ◌<◌, ◌≤◌, Some, IfOk, OnOk, length};
ghost use Rattle.ep_base.specs.Outside.{Held, ReadGives};
ghost use Rattle.join_cubes.specs.Texts.{HasFormula, IsProofText, IsShortFormulaText, ProvesFirst};
ghost use Rattle.join_cubes.specs.declared.answer.TheConstants.{MOST_VARIABLES};
ghost use Rattle.sat_join.specs.Joins.{Divides, IsLogOfClauses, RefutesCubes};
ghost use Rattle.sat_search.specs.Logs.{EndsWithEmptyStep};

use crate::refusal::{Refusal, Source};
use cnf_core::{Formula, Log};
use ep_base::{Files, Word};
use sat_join::close;
use sat_merge::{begin, join_proof};
use sat_proof::Proof;
use sat_split::cube_variables;
use sat_text::{MOST_BYTES, read_cnf, read_log, write_log};
use std::alloc::Global;

/// The most bytes that the text of a formula or of a proof may have.
const MOST_TEXT_BYTES: u64 = MOST_BYTES as u64;

/// The most variables by which a formula may be divided.
const MOST_VARIABLES: usize = 16;

/// How many cubes so many variables make.
fn cubes_over(vars: usize) -> usize
    requires { vars ≤ MOST_VARIABLES }
    ensures { result ≡ 2 ^ vars }
{
    1 << vars
}

/// The fewest variables that make so many cubes, or the most that there may be where these make fewer.
fn variables_for(cubes: usize) -> usize
    ensures { result ≤ MOST_VARIABLES }
{
    for vars in 0..MOST_VARIABLES {
        if cubes_over(vars) >= cubes {
            return vars;
        }
    }
    MOST_VARIABLES
}

/// The text of a file, or one byte more of it than a text may have.
fn text_of<F: Files>(
    alloc: Global,
    files: &mut F,
    source: Source,
    name: &str,
    most: u64,
) -> Result<Vec<u8>, Refusal>
    requires { most < 2 ^ 63 }
    ensures { IfOk result (λ text. ReadGives (F.held files.old) name.now (most + 1) (Some text.items)) }
{
    match files.read(alloc, name, most + 1) {
        Ok(Some(text)) => Ok(text),
        Ok(None) => Err(Refusal::Unread(source)),
        Err(error) => Err(Refusal::of_file(source, error)),
    }
}

/// The formula of a file.
fn read_formula<F: Files>(alloc: Global, files: &mut F, name: &str) -> Result<Formula, Refusal>
    ensures { IfOk result (λ formula. (held : Held) → F.held files.old ≡ Some held
        → HasFormula held name.now formula.clauses) }
{
    let text = text_of(alloc, files, Source::Formula, name, MOST_TEXT_BYTES)?;
    formula_in(alloc, &text)
}

/// The formula that a text spells.
fn formula_in(alloc: Global, text: &[u8]) -> Result<Formula, Refusal>
    ensures { IfOk result (λ formula. IsShortFormulaText text.now formula.clauses) }
{
    match read_cnf(alloc, text) {
        Ok(content) => Ok(content.formula),
        Err(error) => Err(Refusal::of_formula(error)),
    }
}

/// The proof of a cube.
fn read_proof<F: Files>(
    alloc: Global,
    files: &mut F,
    cube: u64,
    name: &str,
) -> Result<Proof, Refusal> {
    let text = text_of(alloc, files, Source::Proof(cube), name, MOST_TEXT_BYTES)?;
    match read_log(alloc, &text) {
        Ok(proof) => Ok(proof),
        Err(error) => Err(Refusal::of_proof(cube, error)),
    }
}

/// Joins the proof of the next cube, which a file has.
fn join_file<F: Files>(
    alloc: Global,
    files: &mut F,
    formula: &Formula,
    vars: &[u64],
    name: &str,
    joined: &mut Log,
    ends: &mut Vec<u64>,
) -> Result<(), Refusal>
    requires divides { Divides formula.now.clauses vars.now }
    requires is_cube { length ends.old.items < 2 ^ length vars.now }
    requires joint { RefutesCubes formula.now.clauses vars.now ends.old.items joined.old.events }
    ensures joint { OnOk result (RefutesCubes formula.now.clauses vars.now ends.new.items joined.new.events) }
    ensures count { OnOk result (length ends.new.items ≡ length ends.old.items + 1) }
{
    let cube = ends.len() as u64;
    let proof = read_proof(alloc, files, cube, name)?;
    match join_proof(alloc, formula, vars, &proof, joined, ends) {
        Ok(()) => Ok(()),
        Err(error) => Err(Refusal::of_joining(cube, error)),
    }
}

/// Joins the proofs of all cubes over these variables, which are read one after another.
fn join_all<F: Files>(
    alloc: Global,
    files: &mut F,
    formula: &Formula,
    vars: &[u64],
    names: &[Word],
) -> Result<Log, Refusal>
    requires divides { Divides formula.now.clauses vars.now }
    requires count { length names.now ≡ 2 ^ length vars.now }
    ensures joined { IfOk result (λ log. IsLogOfClauses formula.now.clauses log.events) }
    ensures ends { IfOk result (λ log. EndsWithEmptyStep log.events) }
{
    let mut joined = begin(alloc, formula)?;
    let mut ends = Vec::new(alloc);
    for name in names {
        join_file(
            alloc,
            files,
            formula,
            vars,
            name.text(),
            &mut joined,
            &mut ends,
        )?;
    }
    close(alloc, formula, vars, ends, &mut joined)?;
    Ok(joined)
}

/// The text of the proof that comes of joining those of all cubes over the lowest variables.
fn proof_text<F: Files>(
    alloc: Global,
    files: &mut F,
    formula: &Formula,
    names: &[Word],
) -> Result<Vec<u8>, Refusal>
    ensures { IfOk result (λ text. IsProofText formula.now.clauses text.items) }
{
    let vars = cube_variables(alloc, formula, variables_for(names.len()) as u64)?;
    let cubes = cubes_over(vars.len());
    if cubes != names.len() {
        return Err(Refusal::Cubes(cubes as u64));
    }
    let joined = join_all(alloc, files, formula, &vars, names)?;
    let text = write_log(alloc, &joined)?;
    Ok(text)
}

/// The text of a proof of the formula of the first file, which comes of joining those of its cubes, which the other files have.
///
/// # Errors
///
/// Each [`Refusal`].
pub fn joined_text<F: Files>(
    alloc: Global,
    words: &[Word],
    files: &mut F,
) -> Result<Vec<u8>, Refusal>
    ensures { IfOk result (λ text. (held : Held) → F.held files.old ≡ Some held
        → ProvesFirst held words.now text.items) }
{
    let Some((name, proofs)) = words.split_first() else {
        return Err(Refusal::Usage);
    };
    let formula = read_formula(alloc, files, name.text())?;
    proof_text(alloc, files, &formula, proofs)
}
