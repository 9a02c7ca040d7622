//! What a command asks for.

use ep_base::Word;
use ep_tree::Mode;

/// What a command asks for. A field holds the value of the option of its name.
#[derive(Debug, Drop)]
pub enum Job {
    /// To solve a model, by cubes of its formula over so many variables where their number is set.
    Solve {
        in_eprime: Word,
        in_param: Option<Word>,
        conflicts: u64,
        out_solution: Option<Word>,
        out_cnf: Option<Word>,
        out_log: Option<Word>,
        undefined: Mode,
        cubes: Option<u64>,
    },
    /// To list the solutions of a model, at most so many.
    Enumerate {
        in_eprime: Word,
        in_param: Option<Word>,
        solutions: u64,
        conflicts: u64,
        out_solution: Option<Word>,
        out_cnf: Option<Word>,
        out_log: Option<Word>,
        undefined: Mode,
    },
    /// To explain why a model has no solution.
    Explain {
        in_eprime: Word,
        in_param: Option<Word>,
        conflicts: u64,
        undefined: Mode,
    },
    /// To solve a linear pseudo-Boolean problem.
    Opb {
        in_opb: Word,
        conflicts: u64,
    },
    /// To say whether a solution text is a solution.
    Verify {
        in_eprime: Word,
        in_solution: Word,
        in_param: Option<Word>,
        undefined: Mode,
    },
    /// To check a proof of a formula.
    Check {
        in_cnf: Word,
        in_log: Word,
        workers: u64,
    },
    /// To make the texts of a number, and to solve them.
    Generate {
        number: u64,
        conflicts: u64,
        out_eprime: Option<Word>,
        out_param: Option<Word>,
    },
}
