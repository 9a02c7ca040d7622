//! Explanations as texts.

ghost use Rattle.std.specs.Prelude.{◌≡◌, ◌++◌, IfOk, OnOk, map};
ghost use Rattle.std.specs.Fmt.{decimal};
ghost use Rattle.std.specs.List.{All, flat_map};
ghost use Rattle.ep_explain.specs.Tried.{named_clause};
ghost use Rattle.ep_explain_text.specs.ExplanationTexts.{HasTypedParts, core_text, explanation_text, without_text};
ghost use Rattle.ep_print.specs.Answers.{AreTyped, letting_text, letting_texts};
ghost use Rattle.ep_tree.specs.TypedValues.{IsOf};
ghost use Rattle.ep_tree.specs.Views.{named_value, value_tree};

use ep_base::Memory;
use ep_explain::{Dropped, Explained};
use ep_print::{Answer, print_answer, print_value};
use ep_tree::Entry;
use std::alloc::Global;

/// The line with which each text begins.
const LANGUAGE_LINE: &[u8] = b"language ESSENCE' 1.0\n";

/// The text of what is explained, where an attempt may spend so many conflicts. Linear in what it names.
#[tactic(auto, unfolding(crate::specs::ExplanationTexts::HasTypedParts, crate::specs::ExplanationTexts::explanation_text, ep_print::specs::Answers::answer_tree, ep_print::specs::Answers::unknown_tree))]
pub fn print_explanation(alloc: Global, said: Explained, conflicts: u64) -> Result<Vec<u8>, Memory>
    requires typed { HasTypedParts said }
    ensures text { IfOk result (λ text. text.items ≡ explanation_text conflicts said) }
{
    match said {
        Explained::Satisfiable(a) => print_answer(alloc, &Answer::Solution(a)),
        Explained::Core(named) => core_text(alloc, &named),
        Explained::Spent(_) => print_answer(
            alloc,
            &Answer::Unknown {
                conflicts,
                incumbent: None,
            },
        ),
    }
}

/// The clauses that explain.
fn core_text(alloc: Global, named: &[Dropped]) -> Result<Vec<u8>, Memory>
    requires { All (λ one. AreTyped one.1) (map named_clause named.now) }
    ensures { IfOk result (λ text. text.items ≡ core_text (map named_clause named.now)) }
{
    let mut text = Vec::from_slice(alloc, LANGUAGE_LINE)?;
    text.extend_from_slice(b"$ explanation ")?;
    push_number(&mut text, named.len() as u64)?;
    text.extend_from_slice(b"\n")?;
    push_named(alloc, &mut text, named)?;
    Ok(text)
}

/// Each of these clauses with what makes the others true.
fn push_named(alloc: Global, text: &mut Vec<u8>, named: &[Dropped]) -> Result<(), Memory>
    requires { All (λ one. AreTyped one.1) (map named_clause named.now) }
    ensures { OnOk result (text.new.items
        ≡ text.old.items ++ flat_map without_text (map named_clause named.now)) }
{
    for one in named {
        push_without(alloc, text, one)?;
    }
    Ok(())
}

/// A clause with what makes the others true.
#[tactic(auto, unfolding(crate::specs::ExplanationTexts::without_text))]
fn push_without(alloc: Global, text: &mut Vec<u8>, one: &Dropped) -> Result<(), Memory>
    requires { AreTyped (map named_value one.now.without.entries.items) }
    ensures { OnOk result (text.new.items ≡ text.old.items ++ without_text (named_clause one.now)) }
{
    text.extend_from_slice(b"$ without ")?;
    push_number(text, one.clause)?;
    text.extend_from_slice(b"\n")?;
    push_lettings(alloc, text, &one.without.entries)?;
    Ok(())
}

/// A line for each value.
fn push_lettings(alloc: Global, text: &mut Vec<u8>, entries: &[Entry]) -> Result<(), Memory>
    requires { AreTyped (map named_value entries.now) }
    ensures { OnOk result (text.new.items
        ≡ text.old.items ++ letting_texts (map named_value entries.now)) }
{
    for entry in entries {
        push_letting(alloc, text, entry)?;
    }
    Ok(())
}

/// The line that gives a name its value.
#[tactic(auto, unfolding(ep_print::specs::Answers::letting_text))]
fn push_letting(alloc: Global, text: &mut Vec<u8>, entry: &Entry) -> Result<(), Memory>
    requires { IsOf entry.now.ty (value_tree entry.now.value) }
    ensures { OnOk result (text.new.items ≡ text.old.items ++ letting_text (named_value entry.now)) }
{
    let value = print_value(alloc, &entry.ty, &entry.value)?;
    text.extend_from_slice(b"letting ")?;
    text.extend_from_slice(entry.name.text().as_bytes())?;
    text.extend_from_slice(b" be ")?;
    text.extend_from_slice(&value)?;
    text.extend_from_slice(b"\n")?;
    Ok(())
}

/// A number.
fn push_number(text: &mut Vec<u8>, number: u64) -> Result<(), Memory>
    ensures { OnOk result (text.new.items ≡ text.old.items ++ decimal number) }
{
    let mut buffer = itoa::Buffer::new();
    text.extend_from_slice(buffer.format(number).as_bytes())?;
    Ok(())
}
