//! The answers of the table.

ghost use Rattle.std.specs.Prelude.{IfOk};
ghost use Rattle.ep_tree.specs.TypedValues.{IsOf};
ghost use Rattle.ep_tree.specs.Views.{assigned, value_tree};
ghost use Rattle.ep_tree.specs.declared.values.Scalar.{Scalar};
ghost use Rattle.ep_tree.specs.declared.values.ValueType.{ValueType};
ghost use Rattle.ep_print.specs.Answers.{AreTyped};

use crate::values::{empty, falses, taken};
use ep_base::{Memory, Name};
use ep_print::{Answer, print_answer};
use ep_tree::{Assignment, Entry, Scalar, Value, ValueType};
use std::alloc::Global;

/// The text of an answer of the table.
#[tactic(auto, unfolding(ep_print::specs::Answers::answer_tree, ep_print::specs::Answers::unknown_tree))]
pub(crate) fn text(alloc: Global, number: usize) -> Result<Vec<u8>, Memory> {
    match number {
        0 => print_answer(alloc, &Answer::NoSolution),
        1 => print_answer(alloc, &Answer::Solution(gives(alloc, "m", empty(alloc)?)?)),
        2 => print_answer(
            alloc,
            &Answer::Optimum(9, gives(alloc, "take", taken(alloc)?)?),
        ),
        3 => {
            let spent = Answer::Unknown {
                conflicts: 10,
                incumbent: None,
            };
            print_answer(alloc, &spent)
        }
        4 => {
            let incumbent = Some((7, gives(alloc, "m", empty(alloc)?)?));
            let spent = Answer::Unknown {
                conflicts: 10,
                incumbent,
            };
            print_answer(alloc, &spent)
        }
        _ => print_answer(alloc, &Answer::Solution(row_and_number(alloc)?)),
    }
}

/// A name with a row of Booleans.
fn gives(alloc: Global, name: &str, value: Value) -> Result<Assignment, Memory>
    requires typed { IsOf (ValueType.Matrix 1 Scalar.Bool) (value_tree value) }
    ensures { IfOk result (λ found. AreTyped (assigned found)) }
{
    let ty = ValueType::Matrix {
        dims: 1,
        of: Scalar::Bool,
    };
    let name = Name::new(alloc, name)?;
    let mut entries = Vec::new(alloc);
    entries.push(Entry { name, ty, value })?;
    Ok(Assignment { entries })
}

/// A row of Booleans and a number, each with its name.
fn row_and_number(alloc: Global) -> Result<Assignment, Memory>
    ensures { IfOk result (λ found. AreTyped (assigned found)) }
{
    let ty = ValueType::Matrix {
        dims: 1,
        of: Scalar::Bool,
    };
    let row = Entry {
        name: Name::new(alloc, "m")?,
        ty,
        value: falses(alloc)?,
    };
    let number = Entry {
        name: Name::new(alloc, "i")?,
        ty: ValueType::Int,
        value: Value::Number(3),
    };
    let mut entries = Vec::new(alloc);
    entries.push(row)?;
    entries.push(number)?;
    Ok(Assignment { entries })
}
