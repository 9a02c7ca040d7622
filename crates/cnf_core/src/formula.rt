//! Formulas: clauses over variables that are numbered from 1.

ghost use Rattle.std.specs.Prelude.{◌≡◌, ◌+◌, ◌≤◌, All, ◌++◌, [], ◌∷◌, IsTrue, true, false, IfOk, OnOk, OnErr};
ghost use Rattle.cnf_core.specs.Literal.{VariablesUpTo, IsVariable, IsClause, IsOrdered};
ghost use Rattle.cnf_core.specs.Formula.{NamesItsVariables};

use crate::clause::Clause;
use crate::lists::ClauseList;
use crate::lit::{Lit, MOST_VARIABLE};
use ep_base::Memory;
use std::alloc::Global;
use std::marker::Model;

/// What is kept for a variable of a formula that grows. By its size memory ends before the numbers
/// of variables do.
type Mark = [u64; 2];

const MARK: Mark = [0; 2];

/// Clauses over the variables from 1 up to a number.
#[derive(Debug, Drop)]
pub struct Formula {
    vars: u64,
    marks: Vec<Mark>,
    clauses: ClauseList,
    from_new: bool,
}

impl Model for Formula {
    ghost use Rattle.cnf_core.specs.Formula.{Cnf};

    ghost Value = { Cnf };

    ghost use Rattle.cnf_core.specs.FormulaInside.{cnf_of, IsFormula};

    ghost view = { cnf_of };

    ghost invariant = { IsFormula };
}

impl Formula {
    /// A formula without variables and clauses, which can be given both.
    pub fn new(alloc: Global) -> Formula
        ensures { result ≡ record { vars = 0; clauses = []; from_new = true } }
    {
        Formula {
            vars: 0,
            marks: Vec::new(alloc),
            clauses: ClauseList::new(alloc),
            from_new: true,
        }
    }

    /// A formula with this many variables and no clause, for clauses that are read.
    pub fn with_vars(alloc: Global, vars: u64) -> Formula
        requires { vars ≤ MOST_VARIABLE }
        ensures { result ≡ record { vars = vars; clauses = []; from_new = false } }
    {
        Formula {
            vars,
            marks: Vec::new(alloc),
            clauses: ClauseList::new(alloc),
            from_new: false,
        }
    }

    /// Adds a variable, and answers its number. After want of memory the formula is unchanged.
    pub fn fresh(&mut self) -> Result<u64, Memory>
        requires { IsTrue self.old.from_new }
        ensures number { IfOk result (λ var. var ≡ self.old.vars + 1) }
        ensures in_range { IfOk result (λ var. IsVariable var) }
        ensures ok { OnOk result (self.new ≡ record self.old { vars = self.old.vars + 1 }) }
        ensures err { OnErr result (self.new ≡ self.old) }
    {
        self.marks.push(MARK)?;
        let var = self.marks.as_slice().len() as u64;
        self.vars = var;
        Ok(var)
    }

    /// Adds a clause at the end. After want of memory the formula is unchanged.
    pub fn add(&mut self, clause: Clause) -> Result<(), Memory>
        requires { VariablesUpTo self.old.vars clause }
        ensures ok { OnOk result
            (self.new ≡ record self.old { clauses = self.old.clauses ++ clause ∷ [] }) }
        ensures err { OnErr result (self.new ≡ self.old) }
    {
        self.add_ordered(clause.lits())
    }

    /// Adds the clause of these literals at the end, which are in order. After want of memory the
    /// formula is unchanged.
    pub fn add_ordered(&mut self, clause: &[Lit]) -> Result<(), Memory>
        requires ordered { IsOrdered clause.now }
        requires names { VariablesUpTo self.old.vars clause.now }
        ensures ok { OnOk result
            (self.new ≡ record self.old { clauses = self.old.clauses ++ clause.now ∷ [] }) }
        ensures err { OnErr result (self.new ≡ self.old) }
    {
        for lit in clause {
            prove!(lit.var() <= MOST_VARIABLE);
        }
        self.clauses.push(clause)?;
        Ok(())
    }

    /// How many variables there are.
    pub fn vars(&self) -> u64
        ensures value { result ≡ self.now.vars }
        ensures in_range { result ≤ MOST_VARIABLE }
    {
        self.vars
    }

    /// The clauses, in the order in which they were added.
    pub fn clauses(&self) -> &ClauseList
        ensures value { result.now ≡ self.now.clauses }
        ensures clauses { All IsClause self.now.clauses }
        ensures names { NamesItsVariables self.now }
    {
        &self.clauses
    }

    /// The clauses alone, in the order in which they were added. Moves them.
    pub fn into_clauses(self) -> ClauseList
        ensures value { result ≡ self.clauses }
        ensures clauses { All IsClause result }
    {
        self.clauses
    }
}
