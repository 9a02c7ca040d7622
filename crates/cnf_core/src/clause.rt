//! Clauses: distinct literals in order.

ghost use Rattle.std.specs.Prelude.{◌≡◌, ℕ, ◌≤◌, All, IfOk};
ghost use Rattle.cnf_core.specs.Literal.{IsClause, IsOrdered, IsVariable, HaveSameLiterals, VariablesUpTo};

use crate::lit::{Lit, MOST_VARIABLE};
use ep_base::Memory;
use std::alloc::Global;
use std::marker::Model;
use std::sync::ArcSlice;

/// Distinct literals, ordered by variable, the positive one first. Some literal of a clause has to
/// be true.
#[derive(Clone, Debug, Drop)]
pub struct Clause {
    lits: ArcSlice<Lit>,
}

impl Model for Clause {
    ghost use Rattle.std.specs.Prelude.{List};
    ghost use Rattle.std.specs.Arc.{arc_slice_items};
    ghost use Rattle.cnf_core.specs.Literal.{Literal, IsClause};

    ghost Value = { List Literal };

    ghost view = { λ a. arc_slice_items a.lits };

    ghost invariant = { λ a. IsClause (arc_slice_items a.lits) };
}

/// The list itself, or a copy of its size where it has room to spare.
fn without_spare_room(alloc: Global, lits: Vec<Lit>) -> Result<Vec<Lit>, Memory>
    ensures { IfOk result (λ exact. exact.items ≡ lits.items) }
{
    if lits.capacity() > lits.len() {
        return Ok(Vec::from_slice(alloc, lits.as_slice())?);
    }
    Ok(lits)
}

impl Clause {
    /// The clause of these literals. One that stands several times is taken once.
    ///
    /// Costs a sort, an allocation for what is shared, and one of the clause's size where the list has room
    /// to spare.
    pub fn new(alloc: Global, lits: Vec<Lit>) -> Result<Clause, Memory>
        ensures ordered { IfOk result (λ clause. IsOrdered clause) }
        ensures clause { IfOk result (λ clause. IsClause clause) }
        ensures same { IfOk result (λ clause. HaveSameLiterals clause lits.items) }
    {
        let mut lits = lits;
        lits.sort_unstable();
        lits.dedup();
        for lit in &lits {
            prove!(lit.var() <= MOST_VARIABLE);
        }
        let lits = ArcSlice::from_vec(without_spare_room(alloc, lits)?)?;
        Ok(Clause { lits })
    }

    /// The clause of these literals, which are in order. Costs two allocations.
    pub fn from_ordered(alloc: Global, lits: &[Lit]) -> Result<Clause, Memory>
        requires { IsClause lits.now }
        ensures { IfOk result (λ clause. clause ≡ lits.now) }
    {
        let copied = Vec::from_slice(alloc, lits)?;
        let shared = ArcSlice::from_vec(copied)?;
        Ok(Clause { lits: shared })
    }

    /// The same clause once more; both share their literals.
    pub fn copied(&self) -> Result<Clause, Memory>
        ensures { IfOk result (λ copy. copy ≡ self.now) }
    {
        Ok(self.clone()?)
    }

    /// The literals in order.
    pub fn lits(&self) -> &[Lit]
        ensures value { result.now ≡ self.now }
        ensures ordered { IsOrdered result.now }
        ensures variables { All (λ l. IsVariable l.var) result.now }
    {
        self.lits.as_slice()
    }

    /// The greatest variable that the clause names, or 0 where it has no literal.
    pub fn greatest_variable(&self) -> u64
        ensures none_above { VariablesUpTo result self.now }
        ensures least { (most : ℕ) → VariablesUpTo most self.now → result ≤ most }
    {
        match self.lits.last() {
            Some(last) => last.var(),
            None => 0,
        }
    }
}
