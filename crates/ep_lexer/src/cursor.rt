//! Where reading stands in a text.

ghost use Rattle.std.specs.Prelude.{◌≡◌, ◌<◌, ◌+◌, false, drop};
ghost use Rattle.ep_base.specs.Tokens.{gap_len};
ghost use Rattle.ep_lexer.specs.Cursor.{IsAt};

use crate::bytes::{in_comment_after, separates};
use ep_base::Place;

/// An offset in a text, with its place.
#[derive(Clone, Copy, Debug, PartialEq, Eq)]
pub(crate) struct Cursor {
    pub(crate) offset: usize,
    pub(crate) place: Place,
}

impl Cursor {
    /// The start of a text.
    pub(crate) fn start() -> Cursor
        ensures { result ≡ record { offset = 0; place = record { line = 1; column = 1 } } }
    {
        Cursor {
            offset: 0,
            place: Place { line: 1, column: 1 },
        }
    }
}

/// The end of the blanks and comments that begin here.
pub(crate) fn skip_gap(text: &[u8], from: Cursor) -> Cursor
    requires { IsAt text.now from }
    ensures offset { result.offset ≡ from.offset + gap_len false (drop from.offset text.now) }
    ensures place { IsAt text.now result }
{
    let mut offset = from.offset;
    let mut place = from.place;
    let mut in_comment = false;
    while offset < text.len() && separates(in_comment, text[offset]) {
        in_comment = in_comment_after(in_comment, text[offset]);
        place = place.after(text[offset]);
        offset += 1;
    }
    Cursor { offset, place }
}
