//! Puts words out, with a space behind each.

ghost use Rattle.std.specs.Prelude.{◌≡◌, ◌++◌, ◌∷◌, [], ◌-◌, codes, map, length, take, OnOk};
ghost use Rattle.std.specs.Fmt.{signed_decimal};
ghost use Rattle.ep_print.specs.Putting.{between_if, words_spaced};
ghost use Rattle.ep_print.specs.Words.{name_words, words_of_placed};

use ep_base::{Name, Place};
use itoa::Buffer;
use std::alloc::AllocError;

/// A word.
#[tactic(auto, unfolding(crate::specs::Putting::words_spaced))]
pub(crate) fn push_word(text: &mut Vec<u8>, word: &str) -> Result<(), AllocError>
    ensures { OnOk result (text.new.items ≡ text.old.items ++ words_spaced (word.now ∷ [])) }
{
    text.extend_from_slice(word.as_bytes())?;
    text.push(b' ')?;
    Ok(())
}

/// Words, one after another.
pub(crate) fn push_words(text: &mut Vec<u8>, words: &[&str]) -> Result<(), AllocError>
    ensures { OnOk result (text.new.items
        ≡ text.old.items ++ words_spaced (map (λ word. word.now) words.now)) }
{
    for word in words {
        push_word(text, word)?;
    }
    Ok(())
}

/// A word where something stands before it.
#[tactic(auto, unfolding(crate::specs::Putting::words_spaced, crate::specs::Putting::between_if))]
pub(crate) fn push_between(text: &mut Vec<u8>, started: bool, word: &str) -> Result<(), AllocError>
    ensures { OnOk result (text.new.items
        ≡ text.old.items ++ words_spaced (between_if started (word.now ∷ []))) }
{
    if started {
        return push_word(text, word);
    }
    Ok(())
}

/// A whole number.
pub(crate) fn push_number(text: &mut Vec<u8>, number: i64) -> Result<(), AllocError>
    ensures { OnOk result (text.new.items ≡ text.old.items ++ words_spaced (signed_decimal number ∷ [])) }
{
    let mut digits = Buffer::new();
    push_word(text, digits.format(number))
}

/// Names with commas between them.
pub(crate) fn push_names(text: &mut Vec<u8>, names: &[Name]) -> Result<(), AllocError>
    ensures { OnOk result (text.new.items ≡ text.old.items ++ words_spaced (name_words names.now)) }
{
    let mut started = false;
    for name in names {
        push_between(text, started, ",")?;
        push_word(text, name.text())?;
        started = true;
    }
    Ok(())
}

/// Names with commas between them, without their places.
pub(crate) fn push_placed(text: &mut Vec<u8>, names: &[(Name, Place)]) -> Result<(), AllocError>
    ensures { OnOk result (text.new.items ≡ text.old.items ++ words_spaced (words_of_placed names.now)) }
{
    let mut started = false;
    for (name, _) in names {
        push_between(text, started, ",")?;
        push_word(text, name.text())?;
        started = true;
    }
    Ok(())
}

/// Ends a line: a line end takes the place of the space behind the last word.
pub(crate) fn end_line(text: &mut Vec<u8>) -> Result<(), AllocError>
    ensures { OnOk result (text.new.items
        ≡ take (length text.old.items - 1) text.old.items ++ codes "\n") }
{
    text.truncate(text.len().saturating_sub(1));
    text.push(b'\n')?;
    Ok(())
}
