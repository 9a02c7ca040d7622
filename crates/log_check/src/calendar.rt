//! The lines of a proof at which clauses are live.

ghost use Rattle.std.specs.Prelude.{◌≡◌, ◌+◌, ◌<◌, ◌^◌, ℕ, nat_eq, if◌then◌else◌, None, Some, OnOk, IfOk, option_copied, length, []};
ghost use Rattle.std.specs.HashMap.{get};
ghost use Rattle.sat_proof.specs.Lines.{proof_lines};
ghost use Rattle.log_check.specs.Lives.{EndsThose, clause_at, ended, life_of};
ghost use Rattle.log_check.specs.Parts.{TellsFirst, TellsLives};

use cnf_core::{ClauseList, Lit};
use ep_base::Memory;
use sat_proof::{Line, Proof};
use std::alloc::Global;
use std::collections::HashMap;

/// A clause, and the lines at which it is live, counted from 0: from one on, up to another.
#[derive(Clone, Copy)]
pub struct Life<'a> {
    clause: &'a [Lit],
    from: usize,
    until: usize,
}

/// The lives of clauses by their ids. Small ids have a place of their own, and others are in a map.
#[derive(Drop)]
pub struct Lives<'a> {
    small: Vec<Option<Life<'a>>>,
    large: HashMap<u64, Life<'a>>,
}

impl<'a> Lives<'a> {
    /// No clause has an id, and so many ids have a place.
    fn new(alloc: Global, places: usize) -> Result<Lives<'a>, Memory>
        ensures { IfOk result (λ lives. (id : ℕ) → life_of lives id ≡ None) }
    {
        let small = vec![in alloc; None; places]?;
        let large = HashMap::new(alloc);
        Ok(Lives { small, large })
    }

    #[inline(always)]
    fn life(&self, id: u64) -> Option<Life<'a>>
        ensures { result ≡ life_of self.now id }
    {
        let place = id as usize;
        if place < self.small.len() {
            self.small[place]
        } else {
            self.large_life(id)
        }
    }

    /// The life under an id that the map has. It stands apart, so that what each hint asks is short enough to be written out in its place.
    #[inline(never)]
    fn large_life(&self, id: u64) -> Option<Life<'a>>
        ensures { result ≡ get nat_eq self.now.large id }
    {
        self.large.get(&id).copied()
    }

    fn put(&mut self, id: u64, life: Life<'a>) -> Result<(), Memory>
        ensures { OnOk result ((q : ℕ) → life_of self.new q
            ≡ (if nat_eq id q then Some life.entry else life_of self.old q)) }
    {
        let place = id as usize;
        if place < self.small.len() {
            self.small[place] = Some(life);
        } else {
            self.large.insert(id, life)?;
        }
        Ok(())
    }

    /// The clause that is live under an id at a line.
    #[inline(always)]
    pub(crate) fn clause_at(&self, line: usize, id: u64) -> Option<&'a [Lit]>
        ensures { option_copied result ≡ clause_at (life_of self.now id) line }
    {
        let life = self.life(id)?;
        if life.from <= line && line < life.until {
            Some(life.clause)
        } else {
            None
        }
    }

    /// The clause with this id, where it is still live at a line, isn't behind it.
    fn end(&mut self, id: u64, line: usize) -> Result<(), Memory>
        requires { line + 1 < 2 ^ 64 }
        ensures { OnOk result ((q : ℕ) → life_of self.new q
            ≡ (if nat_eq id q then ended line (life_of self.old id) else life_of self.old q)) }
    {
        match self.life(id) {
            Some(life) => {
                let until = life.until.min(line + 1);
                self.put(id, Life { until, ..life })
            }
            None => Ok(()),
        }
    }

    /// The same for several ids.
    fn end_all(&mut self, ids: &[u64], line: usize) -> Result<(), Memory>
        requires { line + 1 < 2 ^ 64 }
        ensures { OnOk result (EndsThose ids.now line self.old self.new) }
    {
        for id in ids {
            self.end(*id, line)?;
        }
        Ok(())
    }
}

/// The lives of the clauses of a formula and of those that the lines of a proof add, up to the first
/// line whose id isn't greater than those before.
#[derive(Drop)]
pub struct Calendar<'a> {
    pub(crate) lives: Lives<'a>,
    /// How many lines stand before that one, or in all.
    pub(crate) ordered: usize,
}

/// The id of the last line that adds. Where ids rise it is the greatest.
fn last_id(proof: &Proof) -> usize {
    for row in proof.rows().iter().rev() {
        if let Line::Add { id, .. } = proof.line(row) {
            return id as usize;
        }
    }
    0
}

/// How many ids get a place of their own: those up to the last, where it isn't far above the number
/// of clauses.
fn places(clauses: usize, proof: &Proof) -> usize {
    let greatest = clauses.max(last_id(proof));
    let most = clauses.saturating_add(proof.rows().len()).saturating_mul(4);
    greatest.min(most).saturating_add(1)
}

/// The lives of a formula's clauses, which have the ids from 1 on, up to the end of so many lines.
fn lives_of_formula<'a>(
    alloc: Global,
    clauses: &'a ClauseList,
    places: usize,
    until: usize,
) -> Result<Lives<'a>, Memory>
    ensures { IfOk result (λ lives. TellsFirst lives (length clauses.now) until clauses.now []) }
{
    let mut lives = Lives::new(alloc, places)?;
    for index in 0..clauses.len() {
        let life = Life {
            clause: clauses.clause(index),
            from: 0,
            until,
        };
        lives.put(index as u64 + 1, life)?;
    }
    Ok(lives)
}

impl<'a> Calendar<'a> {
    /// Reads the lines in order, and notes from which to which each clause is live.
    ///
    /// Costs the clauses, the lines and the ids that are deleted.
    pub(crate) fn new(
        alloc: Global,
        clauses: &'a ClauseList,
        proof: &'a Proof,
    ) -> Result<Calendar<'a>, Memory>
        ensures { IfOk result (λ c. TellsLives c clauses.now (proof_lines proof.now)) }
    {
        let rows = proof.rows();
        let until = rows.len();
        let given = clauses.len();
        let mut lives = lives_of_formula(alloc, clauses, places(given, proof), until)?;
        let mut newest = given as u64;
        for (index, row) in rows.iter().enumerate() {
            match proof.line(row) {
                Line::Add { id, clause, .. } => {
                    if id <= newest {
                        let ordered = index;
                        return Ok(Calendar { lives, ordered });
                    }
                    let life = Life {
                        clause,
                        from: index + 1,
                        until,
                    };
                    lives.put(id, life)?;
                    newest = id;
                }
                Line::Delete { ids } => lives.end_all(ids, index)?,
            }
        }
        let ordered = until;
        Ok(Calendar { lives, ordered })
    }
}
