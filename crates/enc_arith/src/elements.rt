//! Parts of a list by their keys.

ghost use Rattle.std.specs.Prelude.{◌≡◌, ◌<◌, [], length, map, IsTrue, IfOk, MatchOption, None, OnOk, option_map, option_to_list};
ghost use Rattle.std.specs.List.{All};
ghost use Rattle.std.specs.Ordering.{int_eq};
ghost use Rattle.ep_flat.specs.Cons.{number_at};
ghost use Rattle.enc_atoms.specs.Atoms.{Adds};
ghost use Rattle.enc_arith.specs.Elements.{IsInRun, element_value, number_of_first, part_of, rest_after, rests_after, with_parts as with_parts_of};
ghost use Rattle.enc_arith.specs.Entries.{HaveParts, plain_entry};
ghost use Rattle.enc_arith.specs.Saying.{IsReady, IsTarget, NamesIn, or_is_not, says};

use crate::functions::Function;
use crate::runs::{add_function, or_outside};
use crate::targets::Target;
use crate::telling::add_number;
use cnf_core::Formula;
use enc_atoms::Atom;
use enc_var::Layout;
use ep_base::{Key, Memory};
use ep_numbers::{listed, runs_ascend};
use std::alloc::{AllocError, Global};

/// What is left of a key, and the variable of its part.
#[derive(Clone, Copy)]
pub(crate) struct Entry<'a> {
    /// The numbers of the key that are left.
    pub key: &'a [i64],
    /// The variable of the part.
    pub part: u64,
}

/// Keys with the variables of their parts, as far as there are both.
pub(crate) fn with_parts<'a>(
    alloc: Global,
    keys: &'a [Key],
    parts: &[u64],
) -> Result<Vec<Entry<'a>>, AllocError>
    ensures { IfOk result (λ entries. map plain_entry entries.items ≡ with_parts_of keys.now parts.now) }
{
    let mut entries = Vec::new(alloc);
    for (place, key) in keys.iter().enumerate() {
        if place >= parts.len() {
            continue;
        }
        entries.push(Entry {
            key: key.numbers(),
            part: parts[place],
        })?;
    }
    Ok(entries)
}

/// What is left of a key that begins with the number.
fn rest_of<'a>(one: Entry<'a>, number: i64) -> Option<Entry<'a>>
    ensures { option_to_list (option_map plain_entry result) ≡ rest_after number (plain_entry one.entry) }
{
    let [first, key @ ..] = one.key else {
        return None;
    };
    if *first == number {
        return Some(Entry {
            key,
            part: one.part,
        });
    }
    None
}

/// What is left of the keys that begin with the number.
fn rests<'a>(
    alloc: Global,
    entries: &[Entry<'a>],
    number: i64,
) -> Result<Vec<Entry<'a>>, AllocError>
    ensures { IfOk result (λ left. map plain_entry left.items ≡ rests_after number (map plain_entry entries.now)) }
{
    let mut left = Vec::new(alloc);
    for one in entries {
        if let Some(rest) = rest_of(*one, number) {
            left.push(rest)?;
        }
    }
    Ok(left)
}

/// The part of the first key of which nothing is left.
fn whole(entries: &[Entry]) -> Option<u64>
    ensures { result ≡ part_of (map plain_entry entries.now) [] }
{
    for one in entries {
        if one.key.is_empty() {
            return Some(one.part);
        }
    }
    None
}

/// Adds clauses which say that the result is the number of the variable, or 0 where there is none.
fn add_other(
    alloc: Global,
    layout: &Layout,
    f: &mut Formula,
    when: &[Atom],
    target: Target,
    other: Option<u64>,
) -> Result<(), Memory>
    requires ready { IsReady layout.now f.old }
    requires names { NamesIn layout.now when.now }
    requires there { IsTarget layout.now target.truth target.result }
    requires other { MatchOption other (Unit {0}) (λ x. x < length layout.now) }
    ensures { OnOk result (Adds layout.now f.old layout.now f.new
        (λ values. IsTrue (says values when.now target.truth
        (int_eq (number_at values target.result) (number_of_first values None other))))) }
{
    match other {
        Some(x) => add_function(alloc, layout, f, when, target, Function::Same, x)?,
        None => add_number(alloc, layout, f, when, target, 0)?,
    }
    Ok(())
}

/// Adds clauses which say that the result is the number of the first variable that is there, and else 0.
fn add_part(
    alloc: Global,
    layout: &Layout,
    f: &mut Formula,
    when: &[Atom],
    target: Target,
    part: Option<u64>,
    other: Option<u64>,
) -> Result<(), Memory>
    requires ready { IsReady layout.now f.old }
    requires names { NamesIn layout.now when.now }
    requires there { IsTarget layout.now target.truth target.result }
    requires part { MatchOption part (Unit {0}) (λ x. x < length layout.now) }
    requires other { MatchOption other (Unit {0}) (λ x. x < length layout.now) }
    ensures { OnOk result (Adds layout.now f.old layout.now f.new
        (λ values. IsTrue (says values when.now target.truth
        (int_eq (number_at values target.result) (number_of_first values part other))))) }
{
    match part {
        Some(x) => add_function(alloc, layout, f, when, target, Function::Same, x)?,
        None => add_other(alloc, layout, f, when, target, other)?,
    }
    Ok(())
}

/// Adds clauses which say that where the index is in a run, above the one number and at most the other, the result is the
/// number of the variable, or 0 where there is none. Where there is no last number there is no run.
fn add_run(
    alloc: Global,
    layout: &Layout,
    f: &mut Formula,
    when: &[Atom],
    target: Target,
    other: Option<u64>,
    index: u64,
    above: Option<i64>,
    last: Option<i64>,
) -> Result<(), Memory>
    requires ready { IsReady layout.now f.old }
    requires names { NamesIn layout.now when.now }
    requires there { IsTarget layout.now target.truth target.result }
    requires other { MatchOption other (Unit {0}) (λ x. x < length layout.now) }
    requires index { index < length layout.now }
    ensures { OnOk result (Adds layout.now f.old layout.now f.new
        (λ values. IsInRun above last (number_at values index) → IsTrue (says values when.now target.truth
        (int_eq (number_at values target.result) (number_of_first values None other))))) }
{
    let Some(last) = last else {
        return Ok(());
    };
    let atoms = or_outside(alloc, when, index, above, last)?;
    add_other(alloc, layout, f, atoms.as_slice(), target, other)?;
    Ok(())
}

/// Adds clauses which say that the result is the part whose key the indices are, or else the other part, or 0. Keys are
/// read number by number, so that where no key is left one clause stands for all further indices, and for each run of
/// numbers with which no key begins there is one as well.
pub(crate) fn add_element(
    alloc: Global,
    layout: &Layout,
    f: &mut Formula,
    when: &[Atom],
    target: Target,
    entries: &[Entry],
    other: Option<u64>,
    indices: &[u64],
) -> Result<(), Memory>
    requires ready { IsReady layout.now f.old }
    requires names { NamesIn layout.now when.now }
    requires there { IsTarget layout.now target.truth target.result }
    requires parts { HaveParts (length layout.now) (map plain_entry entries.now) }
    requires other { MatchOption other (Unit {0}) (λ x. x < length layout.now) }
    requires indices { All (λ x. x < length layout.now) indices.now }
    ensures { OnOk result (Adds layout.now f.old layout.now f.new
        (λ values. IsTrue (says values when.now target.truth
        (int_eq (number_at values target.result)
        (element_value values (map plain_entry entries.now) other indices.now))))) }
{
    let [index, later @ ..] = indices else {
        let part = whole(entries);
        add_part(alloc, layout, f, when, target, part, other)?;
        return Ok(());
    };
    if entries.is_empty() {
        add_other(alloc, layout, f, when, target, other)?;
        return Ok(());
    }
    let domain = layout.domain(*index);
    runs_ascend(domain);
    let numbers = listed(alloc, domain)?;
    let mut above = None;
    let mut last = None;
    for number in numbers.as_slice() {
        let left = rests(alloc, entries, *number)?;
        if left.is_empty() {
            last = Some(*number);
            continue;
        }
        add_run(alloc, layout, f, when, target, other, *index, above, last)?;
        let mut atoms = Vec::from_slice(alloc, when)?;
        atoms.push(Atom::is_not(*index, *number))?;
        add_element(
            alloc,
            layout,
            f,
            atoms.as_slice(),
            target,
            left.as_slice(),
            other,
            later,
        )?;
        above = Some(*number);
        last = None;
    }
    add_run(alloc, layout, f, when, target, other, *index, above, last)?;
    Ok(())
}
