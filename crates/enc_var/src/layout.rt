//! Layouts: the literals of many variables.

ghost use Rattle.std.specs.Prelude.{◌≡◌, ◌+◌, ◌<◌, ◌++◌, ◌∷◌, [], length, map, IsTrue, IfOk, OnOk};
ghost use Rattle.cnf_core.specs.Events.{plain_note};
ghost use Rattle.ep_flat.specs.Flats.{StandForCells};
ghost use Rattle.ep_flat.specs.FlatViews.{plain_map};
ghost use Rattle.enc_var.specs.Decoding.{eq_of, le_of};
ghost use Rattle.enc_var.specs.Layouts.{HasFreeChoice, GoesOn, IsLayoutOf, literals_at};
ghost use Rattle.enc_var.specs.Notes.{cell_notes};

use crate::known::Known;
use crate::notes::notes_of_cells;
use crate::variables::Variable;
use cnf_core::{CellNote, Formula};
use ep_base::{Memory, Runs};
use ep_flat::CellMap;
use ep_ground::Cell;
use std::alloc::Global;
use std::marker::Model;

/// The literals of variables, which are numbered from 0. Contracts see the list of their entries.
#[derive(Drop)]
pub struct Layout {
    variables: Vec<Variable>,
}

impl Model for Layout {
    ghost use Rattle.std.specs.Prelude.{List};
    ghost use Rattle.enc_var.specs.Decoding.{VariableLiterals};

    ghost Value = { List VariableLiterals };

    ghost view = { λ layout. layout.variables.items };
}

impl Layout {
    /// A layout without a variable.
    pub fn new(alloc: Global) -> Layout
        ensures { result ≡ [] }
    {
        Layout {
            variables: Vec::new(alloc),
        }
    }

    /// Adds a variable with this domain, and answers its number. After want of memory nothing is
    /// promised of layout and formula.
    pub fn new_var(&mut self, alloc: Global, f: &mut Formula, domain: &Runs) -> Result<u64, Memory>
        requires from_new { IsTrue f.old.from_new }
        requires is_layout { IsLayoutOf self.old f.old }
        ensures number { IfOk result (λ var. var ≡ length self.old) }
        ensures entry { OnOk result
            (self.new ≡ self.old ++ record { domain = domain.now; first = f.old.vars + 1 } ∷ []) }
        ensures goes_on { OnOk result (GoesOn self.old f.old self.new f.new) }
        ensures choice { OnOk result (HasFreeChoice f.old
            (record { domain = domain.now; first = f.old.vars + 1 }) f.new) }
    {
        let number = self.variables.as_slice().len() as u64;
        // What each clause of a formula keeps, the continued assignments rest on.
        let _clauses = f.clauses();
        let variable = Variable::new(alloc, f, domain)?;
        let _most = f.vars();
        self.variables.push(variable)?;
        Ok(number)
    }

    /// What is known of "the variable is at most `v`", by binary search.
    pub fn le(&self, var: u64, v: i64) -> Known
        requires { var < length self.now }
        ensures { result ≡ le_of (literals_at self.now var) v }
    {
        let variable = &self.variables[var as usize];
        variable.le(v)
    }

    /// What is known of "the variable is `v`", by binary search.
    pub fn eq(&self, var: u64, v: i64) -> Known
        requires { var < length self.now }
        ensures { result ≡ eq_of (literals_at self.now var) v }
    {
        let variable = &self.variables[var as usize];
        variable.eq(v)
    }

    /// The notes of cells: for each cell in order, and each of its values ascending, the literal that
    /// says that the cell has the value.
    pub fn notes(
        &self,
        alloc: Global,
        cells: &[Cell],
        cell_map: &CellMap,
    ) -> Result<Vec<CellNote>, Memory>
        requires { StandForCells (map (λ one. one.values) cells.now)
            (map (λ e. e.domain) self.now) (plain_map cell_map.now).cells }
        ensures { IfOk result (λ notes. map plain_note notes.items
            ≡ cell_notes self.now cells.now (plain_map cell_map.now).cells) }
    {
        let notes = notes_of_cells(alloc, &self.variables, cells, &cell_map.cells)?;
        Ok(notes)
    }

    /// The domain of a variable.
    pub fn domain(&self, var: u64) -> &Runs
        requires { var < length self.now }
        ensures { result.now ≡ (literals_at self.now var).domain }
    {
        let variable = &self.variables[var as usize];
        variable.domain()
    }
}
