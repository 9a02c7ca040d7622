//! The literals of one variable.

ghost use Rattle.std.specs.Prelude.{◌≡◌, ◌≤◌, ◌<◌, ◌+◌, ◌-◌, ◌*◌, [], ◌∷◌, length, IsTrue, IfOk, OnOk};
ghost use Rattle.cnf_core.specs.Literal.{IsVariable};
ghost use Rattle.cnf_core.specs.declared.lit.TheConstants.{MOST_VARIABLE};
ghost use Rattle.ep_base.specs.Runs.{IsAscending};
ghost use Rattle.enc_var.specs.Decoding.{eq_of, le_of, literal_of_note, place_literal as place_literal_of, values_below, values_up_to, yes};
ghost use Rattle.enc_var.specs.Ties.{AreMet, Grows};
ghost use Rattle.std.specs.List.{Contains};

use crate::clauses::add_literals;
use crate::known::Known;
use cnf_core::{Formula, Lit};
use ep_base::{Memory, Runs};
use ep_numbers::listed;
use std::alloc::Global;
use std::marker::Model;

/// A variable's values, and where its literals begin.
///
/// With the values d0 < d1 < .. < dn it has one literal for each "it is at least di" with i from 1 on,
/// and behind these one for each "it is di" that isn't the first or the last.
#[derive(Drop)]
pub struct Variable {
    domain: Runs,
    values: Vec<i64>,
    first: u64,
}

impl Model for Variable {
    ghost use Rattle.enc_var.specs.Decoding.{VariableLiterals};

    ghost Value = { VariableLiterals };

    ghost use Rattle.enc_var.specs.VariableInside.{IsVariableInside, literals_of};

    ghost view = { literals_of };

    ghost invariant = { IsVariableInside };
}

impl Variable {
    /// A variable with this domain, whose literals are new variables of the formula, with their
    /// clauses.
    pub(crate) fn new(alloc: Global, f: &mut Formula, domain: &Runs) -> Result<Variable, Memory>
        requires { IsTrue f.old.from_new }
        ensures variable { IfOk result (λ variable.
            variable ≡ record { domain = domain.now; first = f.old.vars + 1 }) }
        ensures grows { OnOk result (Grows f.old f.new (1 + (2 * length domain.now - 4))
            (AreMet (f.old.vars + 1) (length domain.now))) }
        ensures fixed { OnOk result
            (length domain.now ≡ 1 → Contains f.new.clauses (yes (f.old.vars + 1) ∷ [])) }
        ensures ascending { OnOk result (IsAscending domain.now) }
    {
        let values = listed(alloc, domain)?;
        let domain = domain.copy(alloc)?;
        let first = f.fresh()?;
        let count = values.as_slice().len() as u64;
        add_literals(alloc, f, first, count)?;
        let _most = f.vars();
        Ok(Variable {
            domain,
            values,
            first,
        })
    }

    /// What is known of "it is at most `v`", by binary search.
    pub fn le(&self, v: i64) -> Known
        ensures { result ≡ le_of self.now v }
    {
        let count = count_up_to(&self.values, v);
        if count == 0 {
            Known::False
        } else if self.values.len() <= count {
            Known::True
        } else {
            Known::Is(Lit::new(self.first + (count as u64 - 1), false))
        }
    }

    /// What is known of "it is `v`", by binary search.
    pub fn eq(&self, v: i64) -> Known
        ensures { result ≡ eq_of self.now v }
    {
        if !self.domain.has(v) {
            Known::False
        } else if self.values.len() <= 1 {
            Known::True
        } else {
            Known::Is(self.note(v))
        }
    }

    /// The literal that says that it is `v`, one of its values.
    pub fn note(&self, v: i64) -> Lit
        requires { Contains self.now.domain v }
        ensures { result ≡ literal_of_note self.now v }
    {
        let place = count_below(&self.values, v) as u64;
        place_literal(self.first, self.values.len() as u64, place)
    }

    /// The values that it may have, in ascending order.
    pub(crate) fn values(&self) -> &[i64]
        ensures { result.now ≡ self.now.domain }
    {
        &self.values
    }

    /// The set of the values that it may have.
    pub fn domain(&self) -> &Runs
        ensures { result.now ≡ self.now.domain }
    {
        &self.domain
    }
}

/// The literal of the value at this place, where there are so many and this is the first variable.
#[tactic(auto, using(crate::proofs::Choices::place_single, crate::proofs::Choices::place_first, crate::proofs::Choices::place_last, crate::proofs::Choices::place_inner))]
fn place_literal(first: u64, count: u64, place: u64) -> Lit
    requires first { IsVariable first }
    requires room { first + 2 * count ≤ MOST_VARIABLE + 4 }
    requires place { place < count }
    ensures { result ≡ place_literal_of first count place }
{
    if count <= 1 {
        Lit::new(first, true)
    } else if place == 0 {
        Lit::new(first, false)
    } else if count <= place + 1 {
        Lit::new(first + (place - 1), true)
    } else {
        Lit::new(first + (count - 1) + (place - 1), true)
    }
}

/// How many of some ascending values are at most `v`, by binary search.
fn count_up_to(values: &[i64], v: i64) -> usize
    requires { IsAscending values.now }
    ensures count { result ≡ values_up_to values.now v }
    ensures bound { result ≤ length values.now }
{
    values.partition_point(|w| *w <= v)
}

/// How many of some ascending values are below `v`, by binary search.
fn count_below(values: &[i64], v: i64) -> usize
    requires { IsAscending values.now }
    ensures count { result ≡ values_below values.now v }
    ensures bound { result ≤ length values.now }
{
    values.partition_point(|w| *w < v)
}
