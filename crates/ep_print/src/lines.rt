//! Puts the lines of refusals out.

ghost use Rattle.std.specs.Prelude.{◌≡◌, ◌++◌, codes, decimal, IfOk, OnOk};
ghost use Rattle.ep_print.specs.Refusals.{file_word, limit_word, place_text, refusal_text, refusal_words};

use crate::numbers::push_natural;
use crate::refusals::{Refusal, TextFile};
use ep_base::{Limit, Memory, Name, Place};
use std::alloc::{AllocError, Global};

/// The line of a refusal.
pub fn refusal_line(alloc: Global, refusal: &Refusal) -> Result<Vec<u8>, Memory>
    ensures line { IfOk result (λ line. line.items ≡ refusal_text refusal.now) }
{
    let mut line = Vec::new(alloc);
    push_refusal(&mut line, refusal)?;
    line.push(b'\n')?;
    Ok(line)
}

/// What the line of a refusal says.
#[tactic(auto, unfolding(crate::specs::Refusals::refusal_words))]
fn push_refusal(line: &mut Vec<u8>, refusal: &Refusal) -> Result<(), AllocError>
    ensures { OnOk result (line.new.items ≡ line.old.items ++ refusal_words refusal.now) }
{
    match refusal {
        Refusal::Usage => line.extend_from_slice(b"fault usage"),
        Refusal::BadByte(file, place) => push_at(line, "fault F1", *file, place),
        Refusal::Syntax(file, place) => push_at(line, "fault F2", *file, place),
        Refusal::UnknownName(file, place, name) => {
            push_named_at(line, "fault F3", *file, place, name)
        }
        Refusal::Redeclared(file, place, name) => {
            push_named_at(line, "fault F4", *file, place, name)
        }
        Refusal::IllTyped(file, place) => push_at(line, "fault F5", *file, place),
        Refusal::WrongCategory(file, place) => push_at(line, "fault F6", *file, place),
        Refusal::OpenDomain(file, place) => push_at(line, "fault F7", *file, place),
        Refusal::Missing(name) => push_both(line, "fault F8 ", name.text()),
        Refusal::Outside(name) => push_both(line, "fault F9 ", name.text()),
        Refusal::Undefined(file, place) => push_at(line, "fault F10", *file, place),
        Refusal::WhereFalse(number) => push_numbered(line, "fault F11 ", *number),
        Refusal::BadCnf(number) => push_numbered(line, "fault F12 ", *number),
        Refusal::BadLog(number) => push_numbered(line, "fault F13 ", *number),
        Refusal::BadOpb(number) => push_numbered(line, "fault F14 ", *number),
        Refusal::TooLong(file) => push_both(line, "limit L1 ", file_word(*file)),
        Refusal::LongNumber(file, place) => push_at(line, "limit L2", *file, place),
        Refusal::TooHigh(file, place) => push_at(line, "limit L3", *file, place),
        Refusal::Over(limit) => push_both(line, "limit ", limit_word(*limit)),
        Refusal::CannotRead(name) => push_both(line, "device read ", name.text()),
        Refusal::CannotWrite(name) => push_both(line, "device write ", name.text()),
        Refusal::Memory => line.extend_from_slice(b"memory"),
    }
}

/// Words, a text and a place in it.
fn push_at(line: &mut Vec<u8>, words: &str, file: TextFile, place: &Place) -> Result<(), AllocError>
    ensures { OnOk result (line.new.items ≡ line.old.items ++ (words.now
        ++ (codes " " ++ (codes (file_word file) ++ (codes " " ++ place_text place.now))))) }
{
    line.extend_from_slice(words.as_bytes())?;
    line.extend_from_slice(b" ")?;
    line.extend_from_slice(file_word(file).as_bytes())?;
    line.extend_from_slice(b" ")?;
    push_place(line, place)?;
    Ok(())
}

/// Words, a text, a place in it and a name.
fn push_named_at(
    line: &mut Vec<u8>,
    words: &str,
    file: TextFile,
    place: &Place,
    name: &Name,
) -> Result<(), AllocError>
    ensures { OnOk result (line.new.items ≡ line.old.items ++ ((words.now
        ++ (codes " " ++ (codes (file_word file) ++ (codes " " ++ place_text place.now))))
        ++ (codes " " ++ name.now))) }
{
    push_at(line, words, file, place)?;
    push_both(line, " ", name.text())?;
    Ok(())
}

/// A line and a column.
#[tactic(auto, unfolding(crate::specs::Refusals::place_text))]
fn push_place(line: &mut Vec<u8>, place: &Place) -> Result<(), AllocError>
    ensures { OnOk result (line.new.items ≡ line.old.items ++ place_text place.now) }
{
    push_natural(line, place.line)?;
    line.extend_from_slice(b":")?;
    push_natural(line, place.column)?;
    Ok(())
}

/// Words and a number.
fn push_numbered(line: &mut Vec<u8>, words: &str, number: u64) -> Result<(), AllocError>
    ensures { OnOk result (line.new.items ≡ line.old.items ++ (words.now ++ decimal number)) }
{
    line.extend_from_slice(words.as_bytes())?;
    push_natural(line, number)?;
    Ok(())
}

/// Words and other words.
fn push_both(line: &mut Vec<u8>, words: &str, others: &str) -> Result<(), AllocError>
    ensures { OnOk result (line.new.items ≡ line.old.items ++ (words.now ++ others.now)) }
{
    line.extend_from_slice(words.as_bytes())?;
    line.extend_from_slice(others.as_bytes())?;
    Ok(())
}

#[tactic(auto, unfolding(crate::specs::Refusals::file_word))]
fn file_word(file: TextFile) -> &'static str
    ensures { result.now ≡ codes (file_word file) }
{
    match file {
        TextFile::Model => "model",
        TextFile::Params => "params",
        TextFile::Solution => "solution",
        TextFile::Cnf => "cnf",
        TextFile::Log => "log",
        TextFile::Opb => "opb",
    }
}

#[tactic(auto, unfolding(crate::specs::Refusals::limit_word))]
fn limit_word(limit: Limit) -> &'static str
    ensures { result.now ≡ codes (limit_word limit) }
{
    match limit {
        Limit::Size => "L4",
        Limit::Reach => "L5",
        Limit::Weight => "L6",
    }
}
