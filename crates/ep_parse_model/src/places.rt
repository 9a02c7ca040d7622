//! Where reading stopped in a text.

ghost use Rattle.std.specs.Prelude.{◌≡◌, length};
ghost use Rattle.ep_base.specs.Tokens.{place_at};
ghost use Rattle.ep_parse_model.specs.Answers.{place_left, refusal_of};

use crate::text_errors::TextError;
use ep_base::Place;
use ep_parse_parts::{Cursor, Stop};

/// Why a text was refused where reading stopped.
pub(crate) fn refusal(text: &[u8], cursor: &Cursor<'_>, stop: Stop) -> TextError
    ensures why { result ≡ refusal_of text.now cursor.now stop }
{
    match stop {
        Stop::Wrong => TextError::Syntax(place_left(text, cursor)),
        Stop::TooHigh => TextError::TooHigh(place_left(text, cursor)),
        Stop::Memory => TextError::Memory,
    }
}

/// The place of the next token, or of the text's end.
fn place_left(text: &[u8], cursor: &Cursor<'_>) -> Place
    ensures place { result ≡ place_left text.now cursor.now }
{
    if cursor.is_empty() {
        return end_place(text);
    }
    cursor.place()
}

/// The place of a text's end.
fn end_place(text: &[u8]) -> Place
    ensures place { result ≡ place_at text.now (length text.now) }
{
    let mut place = Place { line: 1, column: 1 };
    for byte in text {
        place = place.after(*byte);
    }
    place
}
