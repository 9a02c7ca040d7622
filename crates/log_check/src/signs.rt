//! The literals that are true while the hints of a line are read.

ghost use Rattle.std.specs.Prelude.{◌≡◌, ℕ, [], false, nat_eq, if◌then◌else◌, true, OnOk, OnErr, IfOk};
ghost use Rattle.std.specs.HashSet.{contains};
ghost use Rattle.cnf_core.specs.Literal.{negation, code_of, is_among};
ghost use Rattle.log_check.specs.Table.{has};
ghost use Rattle.log_check.specs.Kept.{MakesTrue};

use cnf_core::{Formula, Lit};
use ep_base::Memory;
use std::alloc::Global;
use std::collections::HashSet;
use std::marker::Model;

/// Numbers. Small ones have a place of their own, and others are in a set.
#[derive(Drop)]
pub struct Table {
    small: Vec<bool>,
    large: HashSet<u64>,
}

impl Table {
    /// A table without numbers, with this many places.
    fn new(alloc: Global, places: usize) -> Result<Table, Memory>
        ensures { IfOk result (λ table. (n : ℕ) → has table n ≡ false) }
    {
        let small = vec![in alloc; false; places]?;
        let large = HashSet::new(alloc);
        Ok(Table { small, large })
    }

    #[inline(always)]
    fn has(&self, number: u64) -> bool
        ensures { result ≡ has self.now number }
    {
        let place = number as usize;
        if place < self.small.len() {
            self.small[place]
        } else {
            self.large_has(number)
        }
    }

    /// Whether the set has it. It stands apart, so that what each literal asks is short enough to be written out in its place.
    #[inline(never)]
    fn large_has(&self, number: u64) -> bool
        ensures { result ≡ contains nat_eq self.now.large number }
    {
        self.large.contains(&number)
    }

    #[inline(always)]
    fn put(&mut self, number: u64) -> Result<(), Memory>
        ensures ok { OnOk result
            ((n : ℕ) → has self.new n ≡ (if nat_eq number n then true else has self.old n)) }
        ensures err { OnErr result ((n : ℕ) → has self.new n ≡ has self.old n) }
    {
        let place = number as usize;
        if place < self.small.len() {
            self.small[place] = true;
        } else {
            self.large.insert(number)?;
        }
        Ok(())
    }

    #[inline(always)]
    fn take_out(&mut self, number: u64)
        ensures { (n : ℕ) → has self.new n ≡ (if nat_eq number n then false else has self.old n) }
    {
        let place = number as usize;
        if place < self.small.len() {
            self.small[place] = false;
        } else {
            self.large.remove(&number);
        }
    }
}

/// The number that a table keeps for a literal.
#[inline(always)]
fn code(lit: &Lit) -> u64
    ensures { result ≡ code_of lit.now }
{
    2 * lit.var() + if lit.positive() { 0 } else { 1 }
}

/// Literals that are true, none together with its negation, in the order in which they became so, and
/// a table of those that are false.
#[derive(Drop)]
pub struct Signs {
    trues: Vec<Lit>,
    falses: Table,
}

impl Model for Signs {
    ghost use Rattle.std.specs.Prelude.{List};
    ghost use Rattle.cnf_core.specs.Literal.{Literal};

    ghost Value = { List Literal };

    ghost use Rattle.log_check.specs.SignsInside.{HasFalses};

    ghost view = { λ s. s.trues.items };

    ghost invariant = { HasFalses };
}

impl Signs {
    /// No literal is true. The table has this many places.
    pub(crate) fn new(alloc: Global, places: usize) -> Result<Signs, Memory>
        ensures { IfOk result (λ signs. signs ≡ []) }
    {
        let falses = Table::new(alloc, places)?;
        Ok(Signs {
            trues: Vec::new(alloc),
            falses,
        })
    }

    #[inline(always)]
    pub(crate) fn is_false(&self, lit: &Lit) -> bool
        ensures { result ≡ is_among self.now (negation lit.now) }
    {
        self.falses.has(code(lit))
    }

    /// Makes a literal true, unless its negation is, and answers whether it is true now.
    #[inline(always)]
    pub(crate) fn set_true(&mut self, lit: Lit) -> Result<bool, Memory>
        ensures { IfOk result (λ done. MakesTrue self.old self.new lit done) }
    {
        if self.is_false(&lit) {
            return Ok(false);
        }
        let negated = lit.negated();
        if !self.is_false(&negated) {
            self.trues.reserve(1)?;
            self.falses.put(code(&negated))?;
            self.trues.push_reserved(lit);
        }
        Ok(true)
    }

    /// Makes no literal true.
    pub(crate) fn clear(&mut self)
        ensures { self.new ≡ [] }
    {
        while let Some(lit) = self.trues.pop() {
            self.falses.take_out(code(&lit.negated()));
        }
    }
}

/// How many places the signs over a formula get: two for each variable, where it has no more of these
/// than literals.
pub(crate) fn places(f: &Formula) -> usize {
    let mut literals = 0usize;
    let clauses = f.clauses();
    for place in 0..clauses.len() {
        literals = literals.saturating_add(clauses.clause(place).len());
    }
    literals
        .min(f.vars() as usize)
        .saturating_add(1)
        .saturating_mul(2)
}
