//! Numbers of cells as values of the decision variables.

ghost use Rattle.std.specs.Prelude.{◌≡◌, drop, map, IfOk, OnOk};
ghost use Rattle.ep_base.specs.Reads.{first_or_zero};
ghost use Rattle.ep_instance_parts.specs.Instances.{find_of};
ghost use Rattle.ep_tree.specs.Views.{assigned, value_tree};
ghost use Rattle.ep_solve.specs.Reading.{assignment_from, value_from};

use ep_base::{Memory, Name, Runs};
use ep_instance_parts::Find;
use ep_numbers::listed;
use ep_tree::{Assignment, Entry, Value};
use std::alloc::Global;

/// The assignment in which the cells have these numbers. Linear in the cells.
pub fn assignment_from(alloc: Global, finds: &[Find], numbers: &[i64]) -> Result<Assignment, Memory>
    ensures { IfOk result (λ a. assigned a ≡ assignment_from (map find_of finds.now) numbers.now) }
{
    let mut place = 0;
    let mut entries = Vec::new(alloc);
    for find in finds {
        let value = value_from(alloc, &find.indices, numbers, &mut place)?;
        let name = Name::new(alloc, find.name.text())?;
        entries.push(Entry {
            name,
            ty: find.ty,
            value,
        })?;
    }
    Ok(Assignment { entries })
}

/// The value over index domains whose cells have the numbers from a place on, which moves behind them.
fn value_from(
    alloc: Global,
    indices: &[Runs],
    numbers: &[i64],
    place: &mut usize,
) -> Result<Value, Memory>
    ensures value { IfOk result (λ value.
        value_tree value ≡ (value_from indices.now (drop place.old numbers.now)).0) }
    ensures left { OnOk result
        (drop place.new numbers.now ≡ (value_from indices.now (drop place.old numbers.now)).1) }
{
    let Some((first, inner)) = indices.split_first() else {
        return Ok(Value::Number(next_number(numbers, place)));
    };
    let indices = listed(alloc, first)?;
    let mut parts = Vec::new(alloc);
    for count in 0..indices.len() {
        let _count = count;
        let part = value_from(alloc, inner, numbers, place)?;
        parts.push(part)?;
    }
    Ok(Value::Matrix(indices, parts))
}

/// The number at a place, which moves behind it, or 0 where there is none.
fn next_number(numbers: &[i64], place: &mut usize) -> i64
    ensures value { result ≡ first_or_zero (drop place.old numbers.now) }
    ensures left { drop place.new numbers.now ≡ drop 1 (drop place.old numbers.now) }
{
    if *place >= numbers.len() {
        return 0;
    }
    let number = numbers[*place];
    *place += 1;
    number
}
