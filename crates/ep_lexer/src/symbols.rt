//! How long the symbol is that some bytes begin with.

ghost use Rattle.std.specs.Prelude.{◌≡◌, ◌∷◌, [], length, take, drop};
ghost use Rattle.ep_base.specs.TokenTexts.{is_one_of, symbols, name_follows, is_symbol};
ghost use Rattle.ep_base.specs.Tokens.{greatest};
ghost use Rattle.ep_lexer.specs.Symbols.{begins_with_symbol_of};

use ep_base::continues_name;

/// Whether a byte alone is a symbol.
fn is_symbol_of_one(byte: u8) -> bool
    ensures { result ≡ is_one_of symbols (byte ∷ []) }
{
    matches!(
        byte,
        b'(' | b')'
            | b'['
            | b']'
            | b','
            | b';'
            | b':'
            | b'.'
            | b'|'
            | b'+'
            | b'-'
            | b'*'
            | b'/'
            | b'%'
            | b'!'
            | b'='
            | b'<'
            | b'>'
    )
}

/// Whether two bytes are a symbol.
fn is_symbol_of_two(first: u8, second: u8) -> bool
    ensures { result ≡ is_one_of symbols (first ∷ second ∷ []) }
{
    match first {
        b'.' | b'*' => second == first,
        b'!' | b'<' | b'>' => second == b'=',
        b'/' => second == b'\\',
        b'\\' => second == b'/',
        b'-' => second == b'>',
        _ => false,
    }
}

/// Whether a name would go on after the first bytes.
fn name_follows(bytes: &[u8], length: usize) -> bool
    ensures { result ≡ name_follows (drop length bytes.now) }
{
    match bytes.get(length) {
        Some(byte) => continues_name(*byte),
        None => false,
    }
}

/// Whether the first byte is a symbol where the others follow it.
fn begins_with_symbol_of_one(bytes: &[u8]) -> bool
    ensures { result ≡ begins_with_symbol_of 1 bytes.now }
{
    !bytes.is_empty() && is_symbol_of_one(bytes[0])
}

/// Whether the first two bytes are a symbol where the others follow them.
fn begins_with_symbol_of_two(bytes: &[u8]) -> bool
    ensures { result ≡ begins_with_symbol_of 2 bytes.now }
{
    bytes.len() >= 2 && is_symbol_of_two(bytes[0], bytes[1])
}

/// Whether the first three bytes are a symbol where the others follow them.
fn begins_with_symbol_of_three(bytes: &[u8]) -> bool
    ensures { result ≡ begins_with_symbol_of 3 bytes.now }
{
    bytes.starts_with(b"<->")
}

/// Whether the first four bytes are a symbol where the others follow them.
fn begins_with_symbol_of_four(bytes: &[u8]) -> bool
    ensures { result ≡ begins_with_symbol_of 4 bytes.now }
{
    (bytes.starts_with(b"<lex") || bytes.starts_with(b">lex")) && !name_follows(bytes, 4)
}

/// Whether the first five bytes are a symbol where the others follow them.
fn begins_with_symbol_of_five(bytes: &[u8]) -> bool
    ensures { result ≡ begins_with_symbol_of 5 bytes.now }
{
    (bytes.starts_with(b"<=lex") || bytes.starts_with(b">=lex")) && !name_follows(bytes, 5)
}

/// The length of the longest symbol that the bytes begin with, 0 where there is none.
pub(crate) fn symbol_length(bytes: &[u8]) -> usize
    ensures { result ≡ greatest (λ n. is_symbol (take n bytes.now) (drop n bytes.now)) (length bytes.now) }
{
    if begins_with_symbol_of_five(bytes) {
        5
    } else if begins_with_symbol_of_four(bytes) {
        4
    } else if begins_with_symbol_of_three(bytes) {
        3
    } else if begins_with_symbol_of_two(bytes) {
        2
    } else if begins_with_symbol_of_one(bytes) {
        1
    } else {
        0
    }
}
