//! Rows of tables.

ghost use Rattle.std.specs.Prelude.{◌≡◌, ◌<◌, ◌==◌, pos, ℕ, [], true, false, length, IsTrue, IfOk, OnOk, Some, unwrap_or, slice_index_or};
ghost use Rattle.std.specs.List.{All, list_all, list_any};
ghost use Rattle.std.specs.Ordering.{int_eq};
ghost use Rattle.ep_base.specs.Numbers.{has_number, is_row_of, same_numbers};
ghost use Rattle.ep_flat.specs.Cons.{is_as_said, numbers_of_vars, number_at};
ghost use Rattle.enc_atoms.specs.Atoms.{Adds};
ghost use Rattle.enc_atoms.specs.Steps.{AreAtomsOf, AreOf, HasTruth, IsReady, Unless};
ghost use Rattle.enc_table.specs.Rows.{AllFit, IsRow, IsRowWhere, IsSupported, others_of, truths_having};

use cnf_core::Formula;
use enc_atoms::{Atom, add_decided, add_guarded, add_never, all_are, new_truths};
use enc_var::Layout;
use ep_base::{Key, Memory};
use ep_numbers::listed;
use std::alloc::Global;

/// Whether each row has so many numbers.
fn all_fit(rows: &[Key], count: usize) -> bool
    ensures { result ≡ list_all (λ row. length row == count) rows.now }
{
    for row in rows {
        if row.numbers().len() != count {
            return false;
        }
    }
    true
}

/// Adds that a variable is a number, where no atom of the guard holds.
pub(crate) fn add_is(
    alloc: Global,
    layout: &Layout,
    f: &mut Formula,
    guard: &[Atom],
    var: u64,
    number: i64,
) -> Result<(), Memory>
    requires ready { IsReady layout.now f.old }
    requires guard { AreAtomsOf layout.now guard.now }
    requires there { var < length layout.now }
    ensures { OnOk result (Adds layout.now f.old layout.now f.new
        (Unless guard.now (λ values. number_at values var ≡ number))) }
{
    let atoms = [Atom::is(var, number)];
    add_guarded(alloc, layout, f, guard, &atoms)
}

/// Adds that the variables are the row, where no atom of the guard holds.
fn add_row(
    alloc: Global,
    layout: &Layout,
    f: &mut Formula,
    guard: &[Atom],
    vars: &[u64],
    row: &[i64],
) -> Result<(), Memory>
    requires ready { IsReady layout.now f.old }
    requires guard { AreAtomsOf layout.now guard.now }
    requires within { AreOf layout.now vars.now }
    requires fits { length row.now ≡ length vars.now }
    ensures { OnOk result (Adds layout.now f.old layout.now f.new (Unless guard.now (IsRow vars.now row.now))) }
{
    for k in 0..row.len() {
        add_is(alloc, layout, f, guard, vars[k], row[k])?;
    }
    Ok(())
}

/// Adds for each row that the variables are it where its own variable is 1.
fn add_rows(
    alloc: Global,
    layout: &Layout,
    f: &mut Formula,
    truths: &[u64],
    vars: &[u64],
    rows: &[Key],
) -> Result<(), Memory>
    requires ready { IsReady layout.now f.old }
    requires many { length truths.now ≡ length rows.now }
    requires truths { AreOf layout.now truths.now }
    requires within { AreOf layout.now vars.now }
    requires fit { AllFit rows.now (length vars.now) }
    ensures { OnOk result (Adds layout.now f.old layout.now f.new (λ values. (k : ℕ) → k < length rows.now
        → IsRowWhere (slice_index_or truths.now k 0) vars.now (slice_index_or rows.now k []) values)) }
{
    for k in 0..rows.len() {
        let guard = [Atom::is_not(truths[k], 1)];
        let row = rows[k].numbers();
        add_row(alloc, layout, f, &guard, vars, row)?;
    }
    Ok(())
}

/// Whether a row has the number at a place.
fn stands_at(row: &[i64], place: usize, number: i64) -> bool
    requires { place < length row.now }
    ensures { result ≡ int_eq (slice_index_or row.now place (pos 0)) number }
{
    row[place] == number
}

/// The variables of the rows that have the number at a place.
fn having(
    alloc: Global,
    truths: &[u64],
    rows: &[Key],
    count: usize,
    place: usize,
    number: i64,
) -> Result<Vec<u64>, Memory>
    requires many { length truths.now ≡ length rows.now }
    requires fit { AllFit rows.now count }
    requires place { place < count }
    ensures { IfOk result (λ chosen. chosen.items ≡ truths_having truths.now rows.now place number) }
{
    let mut chosen = Vec::new(alloc);
    for k in 0..rows.len() {
        let row = rows[k].numbers();
        if !stands_at(row, place, number) {
            continue;
        }
        chosen.push(truths[k])?;
    }
    Ok(chosen)
}

/// Adds that one of some variables is 1 where another one is the number, where no atom of the guard holds.
fn add_one_where(
    alloc: Global,
    layout: &Layout,
    f: &mut Formula,
    guard: &[Atom],
    chosen: &[u64],
    var: u64,
    number: i64,
) -> Result<(), Memory>
    requires ready { IsReady layout.now f.old }
    requires guard { AreAtomsOf layout.now guard.now }
    requires chosen { AreOf layout.now chosen.now }
    requires there { var < length layout.now }
    ensures { OnOk result (Adds layout.now f.old layout.now f.new (Unless guard.now (λ values.
        number_at values var ≡ number → IsTrue (has_number (numbers_of_vars values chosen.now) (pos 1))))) }
{
    let mut closed = Vec::from_slice(alloc, guard)?;
    closed.push(Atom::is_not(var, number))?;
    let atoms = all_are(alloc, chosen, 1)?;
    add_guarded(alloc, layout, f, &closed, &atoms)
}

/// Adds that one of the rows that have the variable's number at its place is chosen where it is the number, where no atom of
/// the guard holds.
fn add_support(
    alloc: Global,
    layout: &Layout,
    f: &mut Formula,
    guard: &[Atom],
    truths: &[u64],
    vars: &[u64],
    rows: &[Key],
    place: usize,
    number: i64,
) -> Result<(), Memory>
    requires ready { IsReady layout.now f.old }
    requires guard { AreAtomsOf layout.now guard.now }
    requires many { length truths.now ≡ length rows.now }
    requires truths { AreOf layout.now truths.now }
    requires within { AreOf layout.now vars.now }
    requires fit { AllFit rows.now (length vars.now) }
    requires place { place < length vars.now }
    ensures { OnOk result (Adds layout.now f.old layout.now f.new (Unless guard.now (λ values.
        number_at values (slice_index_or vars.now place 0) ≡ number
        → IsTrue (has_number (numbers_of_vars values (truths_having truths.now rows.now place number)) (pos 1))))) }
{
    let chosen = having(alloc, truths, rows, vars.len(), place, number)?;
    add_one_where(alloc, layout, f, guard, &chosen, vars[place], number)
}

/// Adds for each number of the variable at a place that one of the rows that have it is chosen where the variable is it,
/// where no atom of the guard holds.
fn add_supports(
    alloc: Global,
    layout: &Layout,
    f: &mut Formula,
    guard: &[Atom],
    truths: &[u64],
    vars: &[u64],
    rows: &[Key],
    place: usize,
) -> Result<(), Memory>
    requires ready { IsReady layout.now f.old }
    requires guard { AreAtomsOf layout.now guard.now }
    requires many { length truths.now ≡ length rows.now }
    requires truths { AreOf layout.now truths.now }
    requires within { AreOf layout.now vars.now }
    requires fit { AllFit rows.now (length vars.now) }
    requires place { place < length vars.now }
    ensures { OnOk result (Adds layout.now f.old layout.now f.new (Unless guard.now
        (IsSupported truths.now rows.now place (slice_index_or vars.now place 0)))) }
{
    let numbers = listed(alloc, layout.domain(vars[place]))?;
    for number in &numbers {
        add_support(alloc, layout, f, guard, truths, vars, rows, place, *number)?;
    }
    Ok(())
}

/// Adds what follows for a table's rows: each variable's number is that of a chosen row, where no atom of the guard holds.
/// It prunes much. Costs a walk through the rows for each number of a variable.
fn add_all_supports(
    alloc: Global,
    layout: &Layout,
    f: &mut Formula,
    guard: &[Atom],
    truths: &[u64],
    vars: &[u64],
    rows: &[Key],
) -> Result<(), Memory>
    requires ready { IsReady layout.now f.old }
    requires guard { AreAtomsOf layout.now guard.now }
    requires many { length truths.now ≡ length rows.now }
    requires truths { AreOf layout.now truths.now }
    requires within { AreOf layout.now vars.now }
    requires fit { AllFit rows.now (length vars.now) }
    ensures { OnOk result (Adds layout.now f.old layout.now f.new (λ values. (k : ℕ) → k < length vars.now
        → Unless guard.now (IsSupported truths.now rows.now k (slice_index_or vars.now k 0)) values)) }
{
    for place in 0..vars.len() {
        add_supports(alloc, layout, f, guard, truths, vars, rows, place)?;
    }
    Ok(())
}

/// Adds that the variables are one of the rows, where no atom of the guard holds.
fn add_some_row(
    alloc: Global,
    layout: &mut Layout,
    f: &mut Formula,
    guard: &[Atom],
    vars: &[u64],
    rows: &[Key],
) -> Result<(), Memory>
    requires ready { IsReady layout.old f.old }
    requires guard { AreAtomsOf layout.old guard.now }
    requires within { AreOf layout.old vars.now }
    requires fit { AllFit rows.now (length vars.now) }
    ensures { OnOk result (Adds layout.old f.old layout.new f.new (Unless guard.now
        (λ values. list_any (λ row. same_numbers row (numbers_of_vars values vars.now)) rows.now ≡ true))) }
{
    let truths = new_truths(alloc, layout, f, rows.len())?;
    add_rows(alloc, layout, f, &truths, vars, rows)?;
    add_all_supports(alloc, layout, f, guard, &truths, vars, rows)?;
    let atoms = all_are(alloc, &truths, 1)?;
    add_guarded(alloc, layout, f, guard, &atoms)
}

/// For each variable "it isn't the row's number".
fn others_than(alloc: Global, vars: &[u64], row: &[i64]) -> Result<Vec<Atom>, Memory>
    requires { length row.now ≡ length vars.now }
    ensures { IfOk result (λ atoms. atoms.items ≡ others_of vars.now row.now) }
{
    let mut atoms = Vec::new(alloc);
    for k in 0..row.len() {
        atoms.push(Atom::is_not(vars[k], row[k]))?;
    }
    Ok(atoms)
}

/// Adds that the variables aren't the row, where no atom of the guard holds.
fn add_other_row(
    alloc: Global,
    layout: &Layout,
    f: &mut Formula,
    guard: &[Atom],
    vars: &[u64],
    row: &[i64],
) -> Result<(), Memory>
    requires ready { IsReady layout.now f.old }
    requires guard { AreAtomsOf layout.now guard.now }
    requires within { AreOf layout.now vars.now }
    requires fits { length row.now ≡ length vars.now }
    ensures { OnOk result (Adds layout.now f.old layout.now f.new
        (Unless guard.now (λ values. same_numbers row.now (numbers_of_vars values vars.now) ≡ false))) }
{
    let atoms = others_than(alloc, vars, row)?;
    add_guarded(alloc, layout, f, guard, &atoms)
}

/// Adds that the variables are none of the rows, where no atom of the guard holds.
fn add_no_row(
    alloc: Global,
    layout: &Layout,
    f: &mut Formula,
    guard: &[Atom],
    vars: &[u64],
    rows: &[Key],
) -> Result<(), Memory>
    requires ready { IsReady layout.now f.old }
    requires guard { AreAtomsOf layout.now guard.now }
    requires within { AreOf layout.now vars.now }
    requires fit { AllFit rows.now (length vars.now) }
    ensures { OnOk result (Adds layout.now f.old layout.now f.new (Unless guard.now
        (λ values. list_any (λ row. same_numbers row (numbers_of_vars values vars.now)) rows.now ≡ false))) }
{
    for k in 0..rows.len() {
        let row = rows[k].numbers();
        add_other_row(alloc, layout, f, guard, vars, row)?;
    }
    Ok(())
}

/// Adds that a variable is 1 exactly where the variables are one of the rows, and else 0.
fn encode_truth(
    alloc: Global,
    layout: &mut Layout,
    f: &mut Formula,
    truth: u64,
    vars: &[u64],
    rows: &[Key],
) -> Result<(), Memory>
    requires ready { IsReady layout.old f.old }
    requires truth { truth < length layout.old }
    requires within { AreOf layout.old vars.now }
    requires fit { AllFit rows.now (length vars.now) }
    ensures { OnOk result (Adds layout.old f.old layout.new f.new (λ values. IsTrue (is_as_said values (Some truth)
        (list_any (λ row. same_numbers row (numbers_of_vars values vars.now)) rows.now)))) }
{
    let on = [Atom::is_not(truth, 1)];
    let off = [Atom::is_not(truth, 0)];
    add_decided(alloc, layout, f, truth)?;
    add_no_row(alloc, layout, f, &off, vars, rows)?;
    add_some_row(alloc, layout, f, &on, vars, rows)
}

/// Adds that the variables are one of the rows, or that the variable of its truth is 1 exactly where they are, and else 0.
fn encode_rows(
    alloc: Global,
    layout: &mut Layout,
    f: &mut Formula,
    truth: Option<u64>,
    vars: &[u64],
    rows: &[Key],
) -> Result<(), Memory>
    requires ready { IsReady layout.old f.old }
    requires truth { HasTruth layout.old truth }
    requires within { AreOf layout.old vars.now }
    requires fit { AllFit rows.now (length vars.now) }
    ensures { OnOk result (Adds layout.old f.old layout.new f.new (λ values. IsTrue (is_as_said values truth
        (list_any (λ row. same_numbers row (numbers_of_vars values vars.now)) rows.now)))) }
{
    match truth {
        None => add_some_row(alloc, layout, f, &[], vars, rows),
        Some(truth) => encode_truth(alloc, layout, f, truth, vars, rows),
    }
}

/// Adds a table. One with a row that has too few or too many numbers never holds.
pub(crate) fn encode_table(
    alloc: Global,
    layout: &mut Layout,
    f: &mut Formula,
    truth: Option<u64>,
    vars: &[u64],
    rows: &[Key],
) -> Result<(), Memory>
    requires ready { IsReady layout.old f.old }
    requires truth { HasTruth layout.old truth }
    requires within { AreOf layout.old vars.now }
    ensures { OnOk result (Adds layout.old f.old layout.new f.new (λ values. IsTrue (is_as_said values truth
        (unwrap_or (is_row_of rows.now (numbers_of_vars values vars.now)) false)))) }
{
    if all_fit(rows, vars.len()) {
        encode_rows(alloc, layout, f, truth, vars, rows)
    } else {
        add_never(alloc, layout, f, truth)
    }
}
