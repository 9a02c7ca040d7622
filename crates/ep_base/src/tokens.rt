//! Tokens: the pieces that a text is read in.

use crate::places::Place;

/// What a token is.
#[derive(Clone, Copy, Debug, PartialEq, Eq)]
pub enum TokenKind {
    /// A name that is no reserved word.
    Name,
    /// A number, with its value.
    Number(i64),
    /// A reserved word, or the word `ESSENCE'`.
    Word,
    /// A symbol, such as `<=` or `<lex`.
    Symbol,
}

/// A token of a text.
#[derive(Clone, Copy, Debug, PartialEq, Eq)]
pub struct Token {
    /// What it is.
    pub kind: TokenKind,
    /// The offset of its first byte.
    pub from: u64,
    /// The offset after its last byte.
    pub to: u64,
    /// The place of its first byte.
    pub place: Place,
}
