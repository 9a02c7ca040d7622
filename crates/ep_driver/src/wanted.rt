//! What the words of a command want of a run.

ghost use Rattle.std.specs.Prelude.{◌≡◌};
ghost use Rattle.ep_driver.specs.Commands.{one_within, wanted_of};
ghost use Rattle.ep_driver.specs.Steps.{TellsWanted};

use ep_base::Word;
use ep_files::Stop;
use ep_print::Refusal;
use ep_tree::Mode;
use ep_words::{Job, WordsError, read_words};
use std::alloc::Global;

/// What a run is wanted to do, with which files, and in which mode of undefinedness.
#[derive(Debug, Drop)]
pub enum Wanted {
    /// To search for solutions of a model, and to write what answers into files where they are named.
    Search {
        model: Word,
        params: Option<Word>,
        mode: Mode,
        request: Request,
        outputs: Outputs,
    },
    /// To solve a pseudo-Boolean problem within so many conflicts.
    Opb {
        opb: Word,
        conflicts: u64,
    },
    /// To say whether a solution text is a solution of a model.
    Verify {
        model: Word,
        params: Option<Word>,
        mode: Mode,
        solution: Word,
    },
    /// To say whether a proof shows that a formula has no satisfying assignment.
    /// The check is done by so many workers.
    Check {
        formula: Word,
        proof: Word,
        workers: u64,
    },
    /// To solve the texts of a number within so many conflicts, to sum up what was found, and to write the texts into files where
    /// they are named.
    Generate {
        number: u64,
        conflicts: u64,
        eprime: Option<Word>,
        param: Option<Word>,
    },
}

/// The files into which a search writes, where they are named.
#[derive(Debug, Drop)]
pub struct Outputs {
    /// The formula, with what was added to it.
    pub formula: Option<Word>,
    /// The steps of the log.
    pub log: Option<Word>,
    /// The answer.
    pub solution: Option<Word>,
}

/// What is searched for, and within how many conflicts.
#[derive(Clone, Copy, Debug)]
pub enum Request {
    /// A solution, and the best one where an objective is stated.
    One { conflicts: u64 },
    /// A solution, by cubes over at most so many variables, each within so many conflicts; where an objective is stated, as the one above.
    Divided { cubes: u64, conflicts: u64 },
    /// At most so many solutions.
    Many { most: u64, conflicts: u64 },
    /// Which clauses have no solution together, each attempt within so many conflicts.
    Explained { conflicts: u64 },
    /// A solution of the texts of a number, of which a summary is given.
    Generated { number: u64, conflicts: u64 },
}

/// What the words want of a run.
pub fn read_wanted(alloc: Global, words: &[Word]) -> Result<Wanted, Stop>
    ensures { TellsWanted words.now result }
{
    match read_words(alloc, words) {
        Ok(job) => Ok(wanted_of(job)),
        Err(WordsError::Usage) => Err(Stop::Refused(Refusal::Usage)),
        Err(WordsError::Memory) => Err(Stop::Memory),
    }
}

/// What a job wants of a run.
#[tactic(auto, unfolding(crate::specs::Commands::wanted_of))]
fn wanted_of(job: Job) -> Wanted
    ensures { result ≡ wanted_of job }
{
    match job {
        Job::Solve {
            in_eprime,
            in_param,
            conflicts,
            out_solution,
            out_cnf,
            out_log,
            undefined,
            cubes,
        } => Wanted::Search {
            model: in_eprime,
            params: in_param,
            mode: undefined,
            request: one_within(conflicts, cubes),
            outputs: Outputs {
                formula: out_cnf,
                log: out_log,
                solution: out_solution,
            },
        },
        Job::Enumerate {
            in_eprime,
            in_param,
            solutions,
            conflicts,
            out_solution,
            out_cnf,
            out_log,
            undefined,
        } => Wanted::Search {
            model: in_eprime,
            params: in_param,
            mode: undefined,
            request: Request::Many {
                most: solutions,
                conflicts,
            },
            outputs: Outputs {
                formula: out_cnf,
                log: out_log,
                solution: out_solution,
            },
        },
        Job::Explain {
            in_eprime,
            in_param,
            conflicts,
            undefined,
        } => Wanted::Search {
            model: in_eprime,
            params: in_param,
            mode: undefined,
            request: Request::Explained { conflicts },
            outputs: Outputs {
                formula: None,
                log: None,
                solution: None,
            },
        },
        Job::Opb { in_opb, conflicts } => Wanted::Opb {
            opb: in_opb,
            conflicts,
        },
        Job::Verify {
            in_eprime,
            in_solution,
            in_param,
            undefined,
        } => Wanted::Verify {
            model: in_eprime,
            params: in_param,
            mode: undefined,
            solution: in_solution,
        },
        Job::Check {
            in_cnf,
            in_log,
            workers,
        } => Wanted::Check {
            formula: in_cnf,
            proof: in_log,
            workers,
        },
        Job::Generate {
            number,
            conflicts,
            out_eprime,
            out_param,
        } => Wanted::Generate {
            number,
            conflicts,
            eprime: out_eprime,
            param: out_param,
        },
    }
}

/// A request for one solution, by cubes where it is said over how many variables.
#[tactic(auto, unfolding(crate::specs::Commands::one_within))]
fn one_within(conflicts: u64, cubes: Option<u64>) -> Request
    ensures { result ≡ one_within conflicts cubes }
{
    match cubes {
        Some(cubes) => Request::Divided { cubes, conflicts },
        None => Request::One { conflicts },
    }
}
