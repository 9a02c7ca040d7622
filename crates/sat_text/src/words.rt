//! Cuts a text into lines, and a line into words.

ghost use Rattle.std.specs.Prelude.{◌≡◌, ◌<◌, ◌≤◌, ◌==◌, [], ◌∷◌, true, false, get_or, length, not, IfSome, MatchOption, position};
ghost use Rattle.sat_text.specs.Words.{lines, first_line, behind_line, first_word, words, has_bytes, has_no_word, says_nothing, is_between_words, is_plain, is_comment};

/// The first line of a text, and what stands behind its line end.
pub(crate) fn next_line(text: &[u8]) -> Option<(&[u8], &[u8])>
    ensures cuts { MatchOption result (lines text.now ≡ [])
        (λ found. lines text.now ≡ found.0.now ∷ lines found.1.now) }
    ensures shorter { IfSome result (λ found. length found.1.now < length text.now) }
{
    if text.is_empty() {
        return None;
    }
    Some(split_line(text))
}

/// The first line of a text, and what stands behind its line end.
pub(crate) fn split_line(text: &[u8]) -> (&[u8], &[u8])
    ensures line { result.0.now ≡ first_line text.now }
    ensures later { result.1.now ≡ behind_line text.now }
{
    match place_of(text, b'\n') {
        Some(end) => {
            let (_, later) = text.split_at(end + 1);
            (&text[..end], later)
        }
        None => (text, &[]),
    }
}

/// The first word of a line, and what stands behind it.
pub(crate) fn next_word(line: &[u8]) -> Option<(&[u8], &[u8])>
    ensures cuts { MatchOption result (words line.now ≡ [])
        (λ found. words line.now ≡ found.0.now ∷ words found.1.now) }
    ensures shorter { IfSome result (λ found. length found.1.now < length line.now) }
{
    let start = word_start(line)?;
    let (_, rest) = line.split_at(start);
    match word_end(rest) {
        Some(end) => {
            let (_, later) = rest.split_at(end + 1);
            Some((&rest[..end], later))
        }
        None => Some((rest, &[])),
    }
}

/// The place of the first byte that is this one.
pub(crate) fn place_of(bytes: &[u8], wanted: u8) -> Option<usize>
    ensures { result ≡ position (λ b. b == wanted) bytes.now }
{
    bytes.iter().position(|b| *b == wanted)
}

fn word_start(line: &[u8]) -> Option<usize>
    ensures { result ≡ position (λ b. not (is_between_words b)) line.now }
{
    line.iter().position(|b| !blank(*b))
}

fn word_end(rest: &[u8]) -> Option<usize>
    ensures { result ≡ position is_between_words rest.now }
{
    rest.iter().position(|b| blank(*b))
}

pub(crate) fn blank(b: u8) -> bool
    ensures { result ≡ is_between_words b }
{
    b == b' ' || b == b'\t' || b == b'\r'
}

/// Whether a byte ends neither a word nor a line.
pub(crate) fn plain(b: u8) -> bool
    ensures { result ≡ is_plain b }
{
    !(blank(b) || b == b'\n')
}

/// Whether a line is a comment.
pub(crate) fn is_comment_line(line: &[u8]) -> bool
    ensures { result ≡ is_comment line.now }
{
    matches!(line, [b'c', ..])
}

/// What a text has from the first byte on that is no blank.
pub(crate) fn behind_blanks(text: &[u8]) -> &[u8]
    ensures words { words (first_line result.now) ≡ words (first_line text.now) }
    ensures line { behind_line result.now ≡ behind_line text.now }
    ensures no_longer { length result.now ≤ length text.now }
    ensures no_blank { 0 < length result.now → is_between_words (get_or result.now 0 0) ≡ false }
{
    let mut rest = text;
    while let [b, later @ ..] = rest {
        if !blank(*b) {
            return rest;
        }
        rest = later;
    }
    rest
}

/// What stands behind the end of the first line, where the line has no word.
pub(crate) fn line_end(text: &[u8]) -> Option<&[u8]>
    ensures { MatchOption result (has_no_word (words (first_line text.now)) ≡ false)
        (λ later. (words (first_line text.now) ≡ []) × (later.now ≡ behind_line text.now)) }
{
    let rest = behind_blanks(text);
    let [b, later @ ..] = rest else {
        return Some(rest);
    };
    if *b == b'\n' { Some(later) } else { None }
}

/// What stands behind the first line of a text, where that is a comment or blank.
pub(crate) fn silent_line(text: &[u8]) -> Option<&[u8]>
    ensures { MatchOption result (says_nothing (first_line text.now) ≡ false)
        (λ later. (says_nothing (first_line text.now) ≡ true) × (later.now ≡ behind_line text.now)) }
{
    if is_comment_line(text) {
        return Some(split_line(text).1);
    }
    line_end(text)
}

/// Whether a word begins here.
pub(crate) fn begins_word(text: &[u8]) -> bool
    ensures { result ≡ has_bytes (first_word text.now) }
{
    match text {
        [b, ..] => plain(*b),
        [] => false,
    }
}

/// Whether a line is a comment or blank.
pub(crate) fn is_silent(line: &[u8]) -> bool
    ensures { result ≡ says_nothing line.now }
{
    match line {
        [b'c', ..] => true,
        _ => next_word(line).is_none(),
    }
}
