//! What a search for a solution may answer.

ghost use Rattle.std.specs.Prelude.{◌≡◌, ◌++◌, codes, map, IfOk, OnOk};
ghost use Rattle.std.specs.Fmt.{signed_decimal};
ghost use Rattle.ep_tree.specs.Views.{assigned, named_value};
ghost use Rattle.ep_print.specs.Answers.{HasTypedValues, answer_text, answer_tree, language_line, letting_text, letting_texts, unknown_text};

use crate::numbers::{push_natural, push_whole};
use crate::values::push_value;
use ep_base::Memory;
use ep_tree::{Assignment, Entry};
use std::alloc::{AllocError, Global};

/// The line with which models and answers begin.
pub(crate) const LANGUAGE_LINE: &[u8] = b"language ESSENCE' 1.0\n";

/// The answer of a search.
#[derive(Drop)]
pub enum Answer {
    /// A solution of an instance without an objective.
    Solution(Assignment),
    /// A solution that is as good as can be, with its objective.
    Optimum(i64, Assignment),
    /// There is no solution.
    NoSolution,
    /// The budget was spent, perhaps with a solution and its objective at hand.
    Unknown {
        conflicts: u64,
        incumbent: Option<(i64, Assignment)>,
    },
}

/// The text of an answer.
pub fn print_answer(alloc: Global, answer: &Answer) -> Result<Vec<u8>, Memory>
    requires typed { HasTypedValues (answer_tree answer.now) }
    ensures text { IfOk result (λ text. text.items ≡ answer_text (answer_tree answer.now)) }
{
    let mut text = Vec::from_slice(alloc, LANGUAGE_LINE)?;
    push_answer(&mut text, answer)?;
    Ok(text)
}

/// What an answer says behind the language line.
#[tactic(auto, unfolding(crate::specs::Answers::answer_text, crate::specs::Answers::answer_tree, crate::specs::Answers::unknown_tree))]
fn push_answer(text: &mut Vec<u8>, answer: &Answer) -> Result<(), AllocError>
    requires begun { text.old.items ≡ language_line }
    ensures { OnOk result (text.new.items ≡ answer_text (answer_tree answer.now)) }
{
    match answer {
        Answer::Solution(found) => push_found(text, b"$ solution\n", found),
        Answer::Optimum(goal, found) => push_goal(text, b"$ optimum ", *goal, found),
        Answer::NoSolution => text.extend_from_slice(b"$ no solution\n"),
        Answer::Unknown {
            conflicts,
            incumbent: None,
        } => push_unknown(text, *conflicts),
        Answer::Unknown {
            conflicts,
            incumbent: Some((goal, found)),
        } => push_incumbent(text, *conflicts, *goal, found),
    }
}

/// Words and values.
pub(crate) fn push_found(
    text: &mut Vec<u8>,
    words: &[u8],
    found: &Assignment,
) -> Result<(), AllocError>
    ensures { OnOk result (text.new.items
        ≡ text.old.items ++ (words.now ++ letting_texts (assigned found.now))) }
{
    text.extend_from_slice(words)?;
    push_lettings(text, &found.entries)?;
    Ok(())
}

/// Words, an objective and values.
fn push_goal(
    text: &mut Vec<u8>,
    words: &[u8],
    goal: i64,
    found: &Assignment,
) -> Result<(), AllocError>
    ensures { OnOk result (text.new.items ≡ text.old.items
        ++ (words.now ++ (signed_decimal goal ++ (codes "\n" ++ letting_texts (assigned found.now))))) }
{
    text.extend_from_slice(words)?;
    push_whole(text, goal)?;
    push_found(text, b"\n", found)?;
    Ok(())
}

/// That the budget was spent, with a solution at hand.
fn push_incumbent(
    text: &mut Vec<u8>,
    conflicts: u64,
    goal: i64,
    found: &Assignment,
) -> Result<(), AllocError>
    ensures { OnOk result (text.new.items ≡ text.old.items
        ++ (unknown_text conflicts ++ (codes "$ incumbent " ++ (signed_decimal goal
        ++ (codes "\n" ++ letting_texts (assigned found.now)))))) }
{
    push_unknown(text, conflicts)?;
    push_goal(text, b"$ incumbent ", goal, found)?;
    Ok(())
}

/// That the budget was spent.
#[tactic(auto, unfolding(crate::specs::Answers::unknown_text))]
pub(crate) fn push_unknown(text: &mut Vec<u8>, conflicts: u64) -> Result<(), AllocError>
    ensures { OnOk result (text.new.items ≡ text.old.items ++ unknown_text conflicts) }
{
    text.extend_from_slice(b"$ unknown ")?;
    push_natural(text, conflicts)?;
    text.extend_from_slice(b" conflicts\n")?;
    Ok(())
}

/// A line for each value.
pub(crate) fn push_lettings(text: &mut Vec<u8>, entries: &[Entry]) -> Result<(), AllocError>
    ensures { OnOk result (text.new.items
        ≡ text.old.items ++ letting_texts (map named_value entries.now)) }
{
    for entry in entries {
        push_letting(text, entry)?;
    }
    Ok(())
}

/// The line that gives a name its value.
#[tactic(auto, unfolding(crate::specs::Answers::letting_text))]
fn push_letting(text: &mut Vec<u8>, entry: &Entry) -> Result<(), AllocError>
    ensures { OnOk result (text.new.items ≡ text.old.items ++ letting_text (named_value entry.now)) }
{
    text.extend_from_slice(b"letting ")?;
    text.extend_from_slice(entry.name.text().as_bytes())?;
    text.extend_from_slice(b" be ")?;
    push_value(text, entry.ty, &entry.value)?;
    text.extend_from_slice(b"\n")?;
    Ok(())
}
