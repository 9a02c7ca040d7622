//! The lines of answers.

ghost use Rattle.std.specs.Prelude.{◌≡◌, ◌++◌, decimal, IfOk, OnOk};
ghost use Rattle.std.specs.List.{flat_map};
ghost use Rattle.opb_answer.specs.Answers.{plain_found};
ghost use Rattle.opb_answer.specs.Lines.{answer_lines, value_word, values_line};

use crate::answers::{OpbAnswer, OpbValue};
use ep_base::Memory;
use itoa::Buffer;
use std::alloc::{AllocError, Global};

/// The lines of an answer. Linear in its values.
pub fn print_opb_answer(alloc: Global, answer: &OpbAnswer) -> Result<Vec<u8>, Memory>
    ensures { IfOk result (λ text. text.items ≡ answer_lines (plain_found answer.now)) }
{
    let mut text = Vec::new(alloc);
    push_answer(&mut text, answer)?;
    Ok(text)
}

/// The lines of an answer.
#[tactic(auto, unfolding(crate::specs::Lines::answer_lines))]
fn push_answer(text: &mut Vec<u8>, answer: &OpbAnswer) -> Result<(), AllocError>
    ensures { OnOk result (text.new.items ≡ text.old.items ++ answer_lines (plain_found answer.now)) }
{
    match answer {
        OpbAnswer::Solution(values) => push_solution(text, b"s SATISFIABLE\n", values),
        OpbAnswer::Optimum(values) => push_solution(text, b"s OPTIMUM FOUND\n", values),
        OpbAnswer::NoSolution => text.extend_from_slice(b"s UNSATISFIABLE\n"),
        OpbAnswer::Unknown(None) => text.extend_from_slice(b"s UNKNOWN\n"),
        OpbAnswer::Unknown(Some(values)) => push_solution(text, b"s SATISFIABLE\n", values),
    }
}

/// A line, and that of values.
fn push_solution(text: &mut Vec<u8>, line: &[u8], values: &[OpbValue]) -> Result<(), AllocError>
    ensures { OnOk result (text.new.items ≡ text.old.items ++ (line.now ++ values_line values.now)) }
{
    text.extend_from_slice(line)?;
    text.extend_from_slice(b"v")?;
    push_values(text, values)?;
    text.extend_from_slice(b"\n")?;
    Ok(())
}

/// A word for each value.
fn push_values(text: &mut Vec<u8>, values: &[OpbValue]) -> Result<(), AllocError>
    ensures { OnOk result (text.new.items ≡ text.old.items ++ flat_map value_word values.now) }
{
    for value in values {
        push_value(text, *value)?;
    }
    Ok(())
}

/// The word of a value.
fn push_value(text: &mut Vec<u8>, value: OpbValue) -> Result<(), AllocError>
    ensures { OnOk result (text.new.items ≡ text.old.items ++ value_word value) }
{
    if value.holds {
        text.extend_from_slice(b" x")?;
    } else {
        text.extend_from_slice(b" -x")?;
    }
    push_natural(text, value.var)
}

/// A number.
fn push_natural(text: &mut Vec<u8>, number: u64) -> Result<(), AllocError>
    ensures { OnOk result (text.new.items ≡ text.old.items ++ decimal number) }
{
    let mut digits = Buffer::new();
    text.extend_from_slice(digits.format(number).as_bytes())
}
