//! Clauses that lie one behind the other in one list.

ghost use Rattle.std.specs.Prelude.{◌≡◌, ◌<◌, ◌++◌, ◌∷◌, [], length, slice_index, slice_index_or, OnOk, OnErr};
ghost use Rattle.cnf_core.specs.Literal.{IsClause};
ghost use Rattle.cnf_core.specs.Pieces.{part_of, start_of};

use crate::lit::Lit;
use ep_base::Memory;
use std::alloc::Global;
use std::marker::Model;

/// Clauses in order. All their literals lie in one list: a clause costs no allocation, and reading
/// one no more than its literals, which lie beside those of its neighbours.
#[derive(Debug, Drop)]
pub struct ClauseList {
    literals: Vec<Lit>,
    ends: Vec<usize>,
}

impl Model for ClauseList {
    ghost use Rattle.std.specs.Prelude.{List};
    ghost use Rattle.cnf_core.specs.Literal.{Literal};

    ghost Value = { List (List Literal) };

    ghost use Rattle.cnf_core.specs.ClauseListInside.{clauses_in, AreClauses};

    ghost view = { clauses_in };

    ghost invariant = { AreClauses };
}

/// The part of a list from a place up to another one, or nothing where it has none.
#[inline(always)]
fn part(list: &[Lit], from: usize, until: usize) -> &[Lit]
    ensures { result.now ≡ part_of list.now from until }
{
    list.get(from..until).unwrap_or(&[])
}

/// Where the list of this number begins.
#[inline(always)]
pub(crate) fn start(ends: &[usize], place: usize) -> usize
    requires { place < length ends.now }
    ensures { result ≡ start_of 0 ends.now place }
{
    if place == 0 { 0 } else { ends[place - 1] }
}

/// The part that ends at the place of this number, and begins where the one before ends.
#[inline(always)]
fn piece<'a>(literals: &'a [Lit], ends: &[usize], number: usize) -> &'a [Lit]
    requires { number < length ends.now }
    ensures { result.now ≡ part_of literals.now (start_of 0 ends.now number) (slice_index ends.now number) }
{
    part(literals, start(ends, number), ends[number])
}

impl ClauseList {
    /// No clause.
    pub fn new(alloc: Global) -> ClauseList
        ensures { result ≡ [] }
    {
        ClauseList {
            literals: Vec::new(alloc),
            ends: Vec::new(alloc),
        }
    }

    /// How many clauses there are.
    pub fn len(&self) -> usize
        ensures { result ≡ length self.now }
    {
        self.ends.len()
    }

    /// The literals of a clause in order. Clauses are counted from 0.
    #[inline(always)]
    pub fn clause(&self, place: usize) -> &[Lit]
        requires { place < length self.now }
        ensures value { result.now ≡ slice_index_or self.now place [] }
        ensures clause { IsClause result.now }
    {
        let literals = self.literals.as_slice();
        let ends = self.ends.as_slice();
        piece(literals, ends, place)
    }

    /// Appends a clause. After want of memory the clauses are as they were.
    pub fn push(&mut self, clause: &[Lit]) -> Result<(), Memory>
        requires { IsClause clause.now }
        ensures ok { OnOk result (self.new ≡ self.old ++ clause.now ∷ []) }
        ensures err { OnErr result (self.new ≡ self.old) }
    {
        self.ends.reserve(1)?;
        self.literals.extend_from_slice(clause)?;
        let end = self.literals.len();
        self.ends.push_reserved(end);
        Ok(())
    }
}
