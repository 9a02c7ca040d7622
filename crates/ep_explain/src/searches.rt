//! Attempts by clauses and the solver.

ghost use Rattle.std.specs.Prelude.{◌≡◌, false};
ghost use Rattle.ep_explain.specs.Tried.{ShowsSome};
ghost use Rattle.ep_solve.specs.Right.{empty_log};

use crate::tries::{Tried, Tries};
use cnf_core::Log;
use ep_base::Memory;
use ep_instance_parts::Instance;
use ep_print::Answer;
use ep_solve::solve;
use std::alloc::Global;

/// Attempts by clauses and the solver, each with so many conflicts; the log is that of the last one.
#[derive(Drop)]
pub struct Searches {
    conflicts: u64,
    log: Log,
    spent: bool,
}

impl Searches {
    /// Attempts with so many conflicts each, of which none was made yet.
    pub fn new(alloc: Global, conflicts: u64) -> Searches
        ensures budget { result.conflicts ≡ conflicts }
        ensures empty { result.log ≡ empty_log }
        ensures fresh { result.spent ≡ false }
    {
        Searches {
            conflicts,
            log: Log::new(alloc),
            spent: false,
        }
    }

    /// The log of the last attempt.
    pub fn into_log(self) -> Log
        ensures { result ≡ self.log }
    {
        self.log
    }
}

impl Tries for Searches {
    ghost budget = { λ searches. searches.conflicts };

    ghost log = { λ searches. searches.log };

    ghost spent = { λ searches. searches.spent };

    ghost shown = { λ searches mode i. ShowsSome mode i searches.conflicts searches.log };

    fn attempt(&mut self, alloc: Global, instance: &Instance) -> Result<Tried, Memory> {
        self.log = Log::new(alloc);
        self.spent = false;
        let answer = solve(alloc, instance, self.conflicts, &mut self.log)?;
        match answer {
            Answer::Solution(a) => Ok(Tried::Found(a)),
            Answer::NoSolution => Ok(Tried::Empty),
            // Where there is no objective, there is no incumbent.
            Answer::Unknown { .. } => {
                self.spent = true;
                Ok(Tried::Spent)
            }
            Answer::Optimum(_, _) => unreachable!(),
        }
    }
}
