//! The values of the table.

ghost use Rattle.std.specs.Prelude.{◌≡◌, IfOk};
ghost use Rattle.ep_tree.specs.TypedValues.{IsOf};
ghost use Rattle.ep_tree.specs.Views.{value_tree};
ghost use Rattle.ep_tree.specs.declared.values.Scalar.{Scalar};
ghost use Rattle.ep_tree.specs.declared.values.ValueType.{ValueType};

use ep_base::{Memory, Name};
use ep_print::{Listing, ListingEnd, print_listing, print_value};
use ep_tree::{Assignment, Entry, Scalar, Value, ValueType};
use std::alloc::Global;

/// The text of a value of the table. From the fourth one on it stands in a list of one solution.
pub(crate) fn text(alloc: Global, number: usize) -> Result<Vec<u8>, Memory> {
    match number {
        0 => print_value(alloc, &ValueType::Int, &Value::Number(-7)),
        1 => print_value(alloc, &ValueType::Bool, &Value::Number(1)),
        2 => print_value(alloc, &matrix(1, Scalar::Bool), &falses(alloc)?),
        3 => print_value(alloc, &matrix(1, Scalar::Bool), &empty(alloc)?),
        4 => listed(alloc, matrix(2, Scalar::Int), nested(alloc)?),
        5 => listed(alloc, matrix(2, Scalar::Bool), columns(alloc)?),
        6 => listed(alloc, matrix(1, Scalar::Int), gaps(alloc)?),
        _ => listed(alloc, matrix(1, Scalar::Int), extremes(alloc)?),
    }
}

/// A type of matrices.
fn matrix(dims: u64, of: Scalar) -> ValueType
    ensures { result ≡ ValueType.Matrix dims of }
{
    ValueType::Matrix { dims, of }
}

/// The text of a list of one solution, which gives a name this value.
fn listed(alloc: Global, ty: ValueType, value: Value) -> Result<Vec<u8>, Memory> {
    let name = Name::new(alloc, "m")?;
    let mut entries = Vec::new(alloc);
    entries.push(Entry { name, ty, value })?;
    let mut found = Vec::new(alloc);
    found.push(Assignment { entries })?;
    let end = ListingEnd::Complete;
    print_listing(alloc, &Listing { found, end })
}

/// A row of numbers with these indices.
fn row(alloc: Global, indices: &[i64], numbers: &[i64]) -> Result<Value, Memory> {
    let mut parts = Vec::new(alloc);
    for number in numbers {
        parts.push(Value::Number(*number))?;
    }
    Ok(Value::Matrix(indices.to_vec(alloc)?, parts))
}

/// A row whose indices have gaps and stand twice.
fn gaps(alloc: Global) -> Result<Value, Memory> {
    row(alloc, &[2, 1, 2, 3, 3], &[1, 2, 3, 4, 5])
}

/// A row of the least number with the greatest index.
fn extremes(alloc: Global) -> Result<Value, Memory> {
    row(alloc, &[i64::MAX], &[i64::MIN])
}

/// The text of a row of the numbers from 1 on, in a list of one solution.
pub(crate) fn counting(alloc: Global, most: i64) -> Result<Vec<u8>, Memory> {
    let mut numbers = Vec::new(alloc);
    for number in 1..most {
        numbers.push(number)?;
    }
    numbers.push(most)?;
    let row = row(alloc, &numbers, &numbers)?;
    listed(alloc, matrix(1, Scalar::Int), row)
}

/// Two falses.
pub(crate) fn falses(alloc: Global) -> Result<Value, Memory>
    ensures { IfOk result (λ value. IsOf (ValueType.Matrix 1 Scalar.Bool) (value_tree value)) }
{
    let mut parts = Vec::new(alloc);
    parts.push(Value::Number(0))?;
    parts.push(Value::Number(0))?;
    Ok(Value::Matrix(Vec::from_slice(alloc, &[1, 2])?, parts))
}

/// Two of which both are true, and a false.
pub(crate) fn taken(alloc: Global) -> Result<Value, Memory>
    ensures { IfOk result (λ value. IsOf (ValueType.Matrix 1 Scalar.Bool) (value_tree value)) }
{
    let mut parts = Vec::new(alloc);
    parts.push(Value::Number(1))?;
    parts.push(Value::Number(1))?;
    parts.push(Value::Number(0))?;
    Ok(Value::Matrix(Vec::from_slice(alloc, &[1, 2, 3])?, parts))
}

/// A row without parts.
pub(crate) fn empty(alloc: Global) -> Result<Value, Memory>
    ensures { IfOk result (λ value. IsOf (ValueType.Matrix 1 Scalar.Bool) (value_tree value)) }
{
    Ok(Value::Matrix(Vec::new(alloc), Vec::new(alloc)))
}

/// Rows of which one has no parts, with gaps between their indices.
fn nested(alloc: Global) -> Result<Value, Memory> {
    let mut rows = Vec::new(alloc);
    rows.push(row(alloc, &[-1, 0, 5], &[4, -5, 6])?)?;
    rows.push(row(alloc, &[], &[])?)?;
    Ok(Value::Matrix([1, 3].to_vec(alloc)?, rows))
}

/// Booleans in rows of one part each.
fn columns(alloc: Global) -> Result<Value, Memory> {
    let mut rows = Vec::new(alloc);
    rows.push(row(alloc, &[0], &[1])?)?;
    rows.push(row(alloc, &[0], &[0])?)?;
    Ok(Value::Matrix([-3, -2].to_vec(alloc)?, rows))
}
