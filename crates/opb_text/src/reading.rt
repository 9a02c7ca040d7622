//! Reads the text of a pseudo-Boolean problem.

ghost use Rattle.std.specs.Prelude.{◌≡◌, ◌<◌, ◌^◌, ◌↔◌, ◌++◌, ℕ, List, length, Ok, Err, IfOk, MatchResult, IsErrOf};
ghost use Rattle.sat_text.specs.Words.{last_line, words_on, PlacedWord};
ghost use Rattle.opb_text.specs.Words.{placed_opb_words, line_words, most_opb_bytes};
ghost use Rattle.opb_text.specs.Contents.{OpbContent};
ghost use Rattle.opb_text.specs.Grammar.{SpellsOpb, IsOpbFaultLine};
ghost use Rattle.opb_text.specs.Reading.{start, run, StopsRun};
ghost use Rattle.opb_text.specs.Views.{plain_opb, plain_reader};

use crate::content::Opb;
use crate::errors::{Fault, OpbError, Stop};
use crate::reader::{Reader, content, is_done, start, take_word};
use crate::words::{is_comment_line, next_line, next_word};
use std::alloc::Global;

/// The greatest number of bytes of a text that is read.
pub const MOST_BYTES: usize = 16_777_216;

/// Takes the words of a line.
fn take_line(alloc: Global, reader: &mut Reader, number: u64, line: &[u8]) -> Result<(), Stop>
    ensures { (later : List PlacedWord) → MatchResult result
        (λ _. run (plain_reader reader.old) (words_on number (line_words line.now) ++ later)
        ≡ run (plain_reader reader.new) later)
        (λ stop. StopsRun stop
        (run (plain_reader reader.old) (words_on number (line_words line.now) ++ later))) }
{
    let mut rest = line;
    while let Some((word, after)) = next_word(rest) {
        match take_word(alloc, reader, word) {
            Ok(()) => rest = after,
            Err(Fault::Memory) => return Err(Stop::Memory),
            Err(Fault::Wrong) => return Err(Stop::At(number)),
        }
    }
    Ok(())
}

/// Takes the words of a text.
fn take_text(alloc: Global, text: &[u8]) -> Result<(Reader, u64), Stop>
    requires { length text.now < 2 ^ 62 }
    ensures { MatchResult result
        (λ found. (run start (placed_opb_words text.now) ≡ Ok (plain_reader found.0)) × (found.1 ≡ last_line text.now))
        (λ stop. StopsRun stop (run start (placed_opb_words text.now))) }
{
    let mut reader = start(alloc);
    let mut rest = text;
    let mut number = 0u64;
    while let Some((line, later)) = next_line(rest) {
        number += 1;
        if !is_comment_line(line) {
            take_line(alloc, &mut reader, number, line)?;
        }
        rest = later;
    }
    Ok((reader, number.max(1)))
}

/// Reads the text of a pseudo-Boolean problem, linearly in its length.
///
/// # Errors
///
/// [`OpbError::TooLong`] exactly where the text has more than [`MOST_BYTES`] bytes, and otherwise [`OpbError::Bad`] exactly
/// where it isn't in the grammar, with the line of the first word with which no text can go on, or else the text's last line.
pub fn read_opb(alloc: Global, text: &[u8]) -> Result<Opb, OpbError>
    ensures too_long { IsErrOf result OpbError.TooLong ↔ (most_opb_bytes < length text.now) }
    // What is read is what the text spells, and no text that spells a problem is refused as bad.
    ensures spelled { IfOk result (λ opb. SpellsOpb text.now (plain_opb opb)) }
    ensures complete { (content : OpbContent) → SpellsOpb text.now content → MatchResult result
        (λ opb. plain_opb opb ≡ content)
        (λ error. (line : ℕ) → error ≡ OpbError.Bad line → ⊥) }
    // A fault is the line of the first word with which no text can go on, or the last line.
    ensures fault { (line : ℕ) → result ≡ Err (OpbError.Bad line) → IsOpbFaultLine text.now line }
{
    if text.len() > MOST_BYTES {
        return Err(OpbError::TooLong);
    }
    match take_text(alloc, text) {
        Err(Stop::Memory) => Err(OpbError::Memory),
        Err(Stop::At(line)) => Err(OpbError::Bad(line)),
        Ok((reader, last)) => {
            if is_done(&reader) {
                Ok(content(reader))
            } else {
                Err(OpbError::Bad(last))
            }
        }
    }
}
