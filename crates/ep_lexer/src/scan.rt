//! The tokens of a text.

ghost use Rattle.std.specs.Prelude.{◌≡◌, ◌<◌, ◌+◌, ◌^◌, length, Ok, Some, IfOk, IfErr, true, false, slice_index};
ghost use Rattle.std.specs.Char.{is_ascii_digit};
ghost use Rattle.ep_base.specs.TokenTexts.{begins_name};
ghost use Rattle.ep_base.specs.Tokens.{tokens_of, token_at, token_len, LieInOrder};
ghost use Rattle.ep_lexer.specs.Cursor.{IsAt};
ghost use Rattle.ep_lexer.specs.Lex.{IsFaultOf};

use crate::bytes::{name_length, number_length};
use crate::cursor::{Cursor, skip_gap};
use crate::errors::LexError;
use crate::numbers::number_value;
use crate::symbols::symbol_length;
use ep_base::{Place, Token, TokenKind, begins_name, is_word};
use std::alloc::Global;

/// The digits that a number may have.
const MOST_DIGITS: usize = 18;

/// The tokens of a text, in order.
///
/// Where a byte begins no token, or a number has more than 18 digits, the first such place is the
/// error's. Linear in the bytes; it takes memory for the list of tokens alone.
pub fn lex(alloc: Global, text: &[u8]) -> Result<Vec<Token>, LexError>
    ensures tokens { IfOk result (λ tokens. tokens_of text.now ≡ Ok tokens.items) }
    ensures fault { IfErr result (λ error. IsFaultOf error (tokens_of text.now)) }
    ensures order { IfOk result (λ tokens. LieInOrder 0 tokens.items (length text.now)) }
{
    let mut tokens = Vec::new(alloc);
    let mut cursor = skip_gap(text, Cursor::start());
    while cursor.offset < text.len() {
        let token = token_at(text, cursor)?;
        tokens.push(token)?;
        cursor = skip_gap(text, after(cursor, (token.to - token.from) as usize));
    }
    Ok(tokens)
}

/// The token that begins at a cursor, or the fault there.
fn token_at(text: &[u8], cursor: Cursor) -> Result<Token, LexError>
    requires at { IsAt text.now cursor }
    requires inside { cursor.offset < length text.now }
    ensures found { IfOk result (λ token. token_at text.now cursor.offset ≡ Ok (Some token)) }
    ensures fault { IfErr result (λ error. IsFaultOf error (token_at text.now cursor.offset)) }
{
    let first = text[cursor.offset];
    if begins_name(first) {
        Ok(word_at(text, cursor))
    } else if first.is_ascii_digit() {
        number_at(text, cursor)
    } else {
        symbol_at(text, cursor)
    }
}

/// The name or word that begins at a cursor.
fn word_at(text: &[u8], cursor: Cursor) -> Token
    requires at { IsAt text.now cursor }
    requires inside { cursor.offset < length text.now }
    requires begins { begins_name (slice_index text.now cursor.offset) ≡ true }
    ensures { token_at text.now cursor.offset ≡ Ok (Some result) }
{
    let bytes = &text[cursor.offset..];
    let length = word_length(bytes);
    let kind = if is_word(&bytes[..length]) {
        TokenKind::Word
    } else {
        TokenKind::Name
    };
    token(kind, cursor, length)
}

/// The length of the name or word that the bytes begin with.
fn word_length(bytes: &[u8]) -> usize
    requires some { 0 < length bytes.now }
    requires begins { begins_name (slice_index bytes.now 0) ≡ true }
    ensures { result ≡ token_len bytes.now }
{
    if bytes.starts_with(b"ESSENCE'") {
        8
    } else {
        name_length(bytes)
    }
}

/// The number that begins at a cursor.
fn number_at(text: &[u8], cursor: Cursor) -> Result<Token, LexError>
    requires at { IsAt text.now cursor }
    requires inside { cursor.offset < length text.now }
    requires begins { is_ascii_digit (slice_index text.now cursor.offset) ≡ true }
    ensures found { IfOk result (λ token. token_at text.now cursor.offset ≡ Ok (Some token)) }
    ensures fault { IfErr result (λ error. IsFaultOf error (token_at text.now cursor.offset)) }
{
    let bytes = &text[cursor.offset..];
    let length = number_length(bytes);
    if length > MOST_DIGITS {
        return Err(LexError::LongNumber(cursor.place));
    }
    let kind = TokenKind::Number(number_value(&bytes[..length]));
    Ok(token(kind, cursor, length))
}

/// The symbol that begins at a cursor.
fn symbol_at(text: &[u8], cursor: Cursor) -> Result<Token, LexError>
    requires at { IsAt text.now cursor }
    requires inside { cursor.offset < length text.now }
    requires no_name { begins_name (slice_index text.now cursor.offset) ≡ false }
    requires no_number { is_ascii_digit (slice_index text.now cursor.offset) ≡ false }
    ensures found { IfOk result (λ token. token_at text.now cursor.offset ≡ Ok (Some token)) }
    ensures fault { IfErr result (λ error. IsFaultOf error (token_at text.now cursor.offset)) }
{
    let length = symbol_length(&text[cursor.offset..]);
    if length == 0 {
        return Err(LexError::BadByte(cursor.place));
    }
    Ok(token(TokenKind::Symbol, cursor, length))
}

/// The token of so many bytes at a cursor.
fn token(kind: TokenKind, cursor: Cursor, length: usize) -> Token
    requires { cursor.offset + length < 2 ^ 64 }
    ensures { result ≡ record { kind = kind; from = cursor.offset; to = cursor.offset + length; place = cursor.place } }
{
    Token {
        kind,
        from: cursor.offset as u64,
        to: (cursor.offset + length) as u64,
        place: cursor.place,
    }
}

/// The cursor behind so many bytes, none of which ends a line.
fn after(cursor: Cursor, length: usize) -> Cursor
    requires fits { cursor.offset + length < 2 ^ 63 }
    requires column { cursor.place.column < 2 ^ 63 }
    ensures { result ≡ record {
      offset = cursor.offset + length;
      place = record { line = cursor.place.line; column = cursor.place.column + length };
    } }
{
    let place = Place {
        line: cursor.place.line,
        column: cursor.place.column + length as u64,
    };
    Cursor {
        offset: cursor.offset + length,
        place,
    }
}
