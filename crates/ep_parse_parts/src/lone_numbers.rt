//! Takes a number that stands alone without going through the levels of expressions.

ghost use Rattle.std.specs.List.{list_any};
ghost use Rattle.std.specs.Prelude.{◌≡◌, bytes_eq};
ghost use Rattle.ep_parse_parts.specs.LoneNumbers.{TakesAtOnce, closers};

use crate::cursor::Cursor;
use crate::found::Found;
use crate::nodes::number;

/// Takes a number, where the word behind it goes on no expression.
pub fn lone_number(cursor: &mut Cursor<'_>) -> Option<Found>
    ensures taken { TakesAtOnce result cursor.old cursor.new }
{
    let Some(value) = cursor.number_next() else {
        return None;
    };
    let mut ahead = cursor.ahead();
    ahead.pass();
    let Some(word) = ahead.word_next() else {
        return None;
    };
    if !closes(word) {
        return None;
    }
    Some(number(cursor.pass(), value))
}

/// Whether no expression goes on with a word.
fn closes(word: &[u8]) -> bool
    ensures among { result ≡ list_any (bytes_eq word.now) closers }
{
    matches!(word, b"," | b"]" | b";" | b".." | b")")
}
