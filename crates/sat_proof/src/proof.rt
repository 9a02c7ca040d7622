//! The lines of a log text, with ids and deletions.

ghost use Rattle.std.specs.Prelude.{◌≡◌, [], ◌∷◌, ◌++◌, OnOk, OnErr};
ghost use Rattle.cnf_core.specs.Lines.{add, delete};
ghost use Rattle.cnf_core.specs.Literal.{IsClause};
ghost use Rattle.sat_proof.specs.Lines.{plain_line, proof_lines, row_line};

use crate::part::part;
use cnf_core::Lit;
use ep_base::Memory;
use std::alloc::Global;
use std::marker::Model;

/// A line of a proof.
#[derive(Clone, Copy, Debug)]
pub enum Line<'a> {
    /// A clause that follows from the clauses with these ids.
    Add {
        /// The id that the clause has from then on.
        id: u64,
        /// The literals of the clause.
        clause: &'a [Lit],
        /// The ids of the clauses that show it, in order.
        hints: &'a [i64],
    },
    /// The clauses with these ids are gone from then on.
    Delete {
        /// The ids.
        ids: &'a [u64],
    },
}

/// Where a line lies in the lists of its proof, from a place up to another one.
#[derive(Clone, Copy, Debug)]
pub enum Row {
    /// A line that adds a clause.
    Add {
        /// The id of the clause.
        id: u64,
        /// Where its literals begin.
        from: usize,
        /// Where its literals end.
        until: usize,
        /// Where its hints begin.
        first: usize,
        /// Where its hints end.
        last: usize,
    },
    /// A line that deletes.
    Delete {
        /// Where its ids begin.
        from: usize,
        /// Where its ids end.
        until: usize,
    },
}

/// The lines of a log text. All literals lie in one list, all hints in another, and all ids that are
/// deleted in a third.
#[derive(Debug, Drop)]
pub struct Proof {
    rows: Vec<Row>,
    literals: Vec<Lit>,
    hints: Vec<i64>,
    ids: Vec<u64>,
}

impl Model for Proof {
    ghost use Rattle.sat_proof.specs.Lines.{FlatProof, flat_proof, HasParts};

    ghost Value = { FlatProof };

    ghost view = { flat_proof };

    ghost invariant = { HasParts };
}

impl Proof {
    /// A proof without lines.
    pub fn new(alloc: Global) -> Proof
        ensures { proof_lines result ≡ [] }
    {
        Proof {
            rows: Vec::new(alloc),
            literals: Vec::new(alloc),
            hints: Vec::new(alloc),
            ids: Vec::new(alloc),
        }
    }

    /// The rows of the lines, in order.
    pub fn rows(&self) -> &[Row]
        ensures { result.now ≡ self.now.rows }
    {
        self.rows.as_slice()
    }

    /// The line of a row.
    pub fn line(&self, row: &Row) -> Line<'_>
        ensures { plain_line result ≡ row_line self.now row.now }
    {
        match row {
            Row::Add {
                id,
                from,
                until,
                first,
                last,
            } => Line::Add {
                id: *id,
                clause: part(self.literals.as_slice(), *from, *until),
                hints: part(self.hints.as_slice(), *first, *last),
            },
            Row::Delete { from, until } => Line::Delete {
                ids: part(self.ids.as_slice(), *from, *until),
            },
        }
    }

    /// Appends a line that adds the clause of these literals, which are in order ([`crate::put_in_order`]). After
    /// want of memory the lines are as they were.
    pub fn add(&mut self, id: u64, clause: &[Lit], hints: &[i64]) -> Result<(), Memory>
        requires { IsClause clause.now }
        ensures ok { OnOk result (proof_lines self.new ≡ proof_lines self.old ++ add id clause.now hints.now ∷ []) }
        ensures err { OnErr result (proof_lines self.new ≡ proof_lines self.old) }
    {
        let from = self.literals.len();
        let first = self.hints.len();
        self.literals.extend_from_slice(clause)?;
        self.hints.extend_from_slice(hints)?;
        let until = self.literals.len();
        let last = self.hints.len();
        self.rows.push(Row::Add {
            id,
            from,
            until,
            first,
            last,
        })?;
        Ok(())
    }

    /// Appends a line that deletes ids. After want of memory the lines are as they were.
    pub fn delete(&mut self, ids: &[u64]) -> Result<(), Memory>
        ensures ok { OnOk result (proof_lines self.new ≡ proof_lines self.old ++ delete ids.now ∷ []) }
        ensures err { OnErr result (proof_lines self.new ≡ proof_lines self.old) }
    {
        let from = self.ids.len();
        self.ids.extend_from_slice(ids)?;
        let until = self.ids.len();
        self.rows.push(Row::Delete { from, until })?;
        Ok(())
    }
}
