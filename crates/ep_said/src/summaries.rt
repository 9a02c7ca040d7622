//! The summary of what the texts of a number came to.

ghost use Rattle.std.specs.Prelude.{◌≡◌, ◌++◌, codes, IfOk, OnOk};
ghost use Rattle.std.specs.Fmt.{decimal, signed_decimal};
ghost use Rattle.ep_print.specs.Answers.{answer_tree, unknown_text};
ghost use Rattle.ep_gen.specs.Hints.{order_of};
ghost use Rattle.ep_said.specs.Summaries.{found_line, summary_text};

use ep_gen::order;
use ep_print::Answer;
use itoa::Buffer;
use std::alloc::{AllocError, Global};

/// The number, the order of its square, and what was found.
#[tactic(auto, unfolding(crate::specs::Summaries::summary_text))]
pub fn summary_text(alloc: Global, number: u64, answer: &Answer) -> Result<Vec<u8>, AllocError>
    ensures text { IfOk result (λ text. text.items ≡ summary_text number (answer_tree answer.now)) }
{
    let mut text = Vec::from_slice(alloc, b"$ generated ")?;
    push_number(&mut text, number)?;
    text.extend_from_slice(b"\n$ order ")?;
    push_number(&mut text, order(number))?;
    text.extend_from_slice(b"\n")?;
    push_found(&mut text, answer)?;
    Ok(text)
}

/// The line that says what was found.
#[tactic(auto, unfolding(crate::specs::Summaries::found_line, ep_print::specs::Answers::answer_tree, ep_print::specs::Answers::unknown_tree))]
fn push_found(text: &mut Vec<u8>, answer: &Answer) -> Result<(), AllocError>
    ensures { OnOk result (text.new.items ≡ text.old.items ++ found_line (answer_tree answer.now)) }
{
    match answer {
        Answer::Solution(_) => text.extend_from_slice(b"$ solution\n"),
        Answer::Optimum(goal, _) => push_optimum(text, *goal),
        Answer::NoSolution => text.extend_from_slice(b"$ no solution\n"),
        Answer::Unknown {
            conflicts,
            incumbent: None,
        } => push_unknown(text, *conflicts),
        Answer::Unknown {
            conflicts,
            incumbent: Some(_),
        } => push_unknown(text, *conflicts),
    }
}

/// The line of a best solution.
fn push_optimum(text: &mut Vec<u8>, goal: i64) -> Result<(), AllocError>
    ensures { OnOk result (text.new.items
        ≡ text.old.items ++ (codes "$ optimum " ++ (signed_decimal goal ++ codes "\n"))) }
{
    let mut digits = Buffer::new();
    text.extend_from_slice(b"$ optimum ")?;
    text.extend_from_slice(digits.format(goal).as_bytes())?;
    text.extend_from_slice(b"\n")?;
    Ok(())
}

/// The line of a budget that was spent.
fn push_unknown(text: &mut Vec<u8>, conflicts: u64) -> Result<(), AllocError>
    ensures { OnOk result (text.new.items ≡ text.old.items ++ unknown_text conflicts) }
{
    push_around(text, b"$ unknown ", conflicts, b" conflicts\n")
}

/// A number with words before and behind it.
fn push_around(
    text: &mut Vec<u8>,
    before: &[u8],
    number: u64,
    behind: &[u8],
) -> Result<(), AllocError>
    ensures { OnOk result (text.new.items
        ≡ text.old.items ++ (before.now ++ (decimal number ++ behind.now))) }
{
    text.extend_from_slice(before)?;
    push_number(text, number)?;
    text.extend_from_slice(behind)?;
    Ok(())
}

/// A number in decimal digits.
fn push_number(text: &mut Vec<u8>, number: u64) -> Result<(), AllocError>
    ensures { OnOk result (text.new.items ≡ text.old.items ++ decimal number) }
{
    let mut digits = Buffer::new();
    text.extend_from_slice(digits.format(number).as_bytes())?;
    Ok(())
}
