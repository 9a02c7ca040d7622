//! Cuts a text into lines, and a line into words.

ghost use Rattle.std.specs.Prelude.{◌≡◌, ◌<◌, ◌==◌, ◌≤◌, [], ◌∷◌, length, not, IfSome, MatchOption, position, true, IsTrue, drop};
ghost use Rattle.sat_text.specs.Words.{lines, is_between_words};
ghost use Rattle.opb_text.specs.Words.{BeginsWord, HasWord, line_words, is_opb_comment, sign_length, ends_word};

/// The first line of a text, and what stands behind its line end.
pub(crate) fn next_line(text: &[u8]) -> Option<(&[u8], &[u8])>
    ensures cuts { MatchOption result (lines text.now ≡ [])
        (λ found. lines text.now ≡ found.0.now ∷ lines found.1.now) }
    ensures shorter { IfSome result (λ found. length found.1.now < length text.now) }
{
    if text.is_empty() {
        return None;
    }
    match line_end(text) {
        Some(end) => {
            let (_, rest) = text.split_at(end + 1);
            Some((&text[..end], rest))
        }
        None => Some((text, &[])),
    }
}

fn line_end(text: &[u8]) -> Option<usize>
    ensures { result ≡ position (λ b. b == 10) text.now }
{
    text.iter().position(|b| *b == b'\n')
}

/// Whether a line is a comment.
pub(crate) fn is_comment_line(line: &[u8]) -> bool
    ensures { result ≡ is_opb_comment line.now }
{
    matches!(line, [b'*', ..])
}

/// The first word of a line, and what stands behind it.
pub(crate) fn next_word(line: &[u8]) -> Option<(&[u8], &[u8])>
    ensures cuts { MatchOption result (line_words line.now ≡ [])
        (λ found. line_words line.now ≡ found.0.now ∷ line_words found.1.now) }
    ensures shorter { IfSome result (λ found. length found.1.now < length line.now) }
{
    let start = word_start(line)?;
    let (_, rest) = line.split_at(start);
    let end = word_length(rest);
    let (word, later) = rest.split_at(end);
    Some((word, later))
}

fn word_start(line: &[u8]) -> Option<usize>
    ensures { result ≡ position (λ b. not (is_between_words b)) line.now }
{
    line.iter().position(|b| !is_blank(*b))
}

fn is_blank(b: u8) -> bool
    ensures { result ≡ is_between_words b }
{
    b == b' ' || b == b'\t' || b == b'\r'
}

/// How many bytes the sign takes that stands first, or 0 where another word does.
fn sign_length(rest: &[u8]) -> usize
    ensures { result ≡ sign_length rest.now }
{
    match rest {
        [b';', ..] => 1,
        [b'=', ..] => 1,
        [b'>', b'=', ..] => 2,
        _ => 0,
    }
}

/// Whether no word that isn't a sign goes on with these bytes.
fn ends_word(rest: &[u8]) -> bool
    ensures { result ≡ ends_word rest.now }
{
    match rest {
        [] => true,
        [b, ..] => is_blank(*b) || sign_length(rest) > 0,
    }
}

/// How many bytes the word takes that stands first.
fn word_length(rest: &[u8]) -> usize
    requires { BeginsWord rest.now }
    ensures { HasWord rest.now result }
{
    let sign = sign_length(rest);
    if sign > 0 {
        return sign;
    }
    let mut length = 1;
    while length < rest.len() && !ends_word(&rest[length..]) {
        length += 1;
    }
    length
}
