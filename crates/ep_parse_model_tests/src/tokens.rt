//! Texts whose tokens were worked out by hand.

use ep_base::{Place, Token, TokenKind};
use ep_lexer::{LexError, lex};
use std::alloc::{AllocError, Global};
use std::test::Fail;

/// The bytes of a text in a table: each letter is the byte with its number, and `^` ends a line.
fn bytes_of(alloc: Global, text: &str) -> Result<Vec<u8>, AllocError> {
    let mut bytes = Vec::new(alloc);
    for letter in text.chars() {
        let byte = u8::try_from(u32::from(letter)).unwrap_or(b'?');
        bytes.push(if byte == b'^' { b'\n' } else { byte })?;
    }
    Ok(bytes)
}

/// Tokens as `KIND FROM..TO LINE:COLUMN`, joined by commas.
fn tokens_told(alloc: Global, tokens: &[Token]) -> Result<String, AllocError> {
    let mut words = String::new(alloc);
    for token in tokens {
        let comma = if words.is_empty() { "" } else { ", " };
        let word = format!(in alloc;
            "{comma}{:?} {}..{} {}:{}",
            token.kind, token.from, token.to, token.place.line, token.place.column
        )?;
        words.push_str(word.as_str())?;
    }
    Ok(words)
}

/// A fault and its place.
fn fault_told(alloc: Global, fault: &str, place: Place) -> Result<String, AllocError> {
    format!(in alloc; "{fault} {}:{}", place.line, place.column)
}

/// The tokens of a text, or its fault.
fn told(alloc: Global, text: &[u8]) -> Result<String, AllocError> {
    match lex(alloc, text) {
        Ok(tokens) => tokens_told(alloc, &tokens),
        Err(LexError::BadByte(place)) => fault_told(alloc, "bad byte", place),
        Err(LexError::LongNumber(place)) => fault_told(alloc, "long number", place),
        Err(LexError::Memory) => String::from_str(alloc, "memory"),
    }
}

/// Texts, a `~`, and their tokens or their fault.
const TEXTS: &str = "~
 \t\r^~
$~
$ only a comment~
x $~Name 0..1 1:1
x$y^z~Name 0..1 1:1, Name 4..5 2:1
x$y$z^1~Name 0..1 1:1, Number(1) 6..7 2:1
a^$c^^b~Name 0..1 1:1, Name 6..7 4:1
x $ \u{ff}^y~Name 0..1 1:1, Name 6..7 2:1
x\u{ff}~bad byte 1:2
a\rb~Name 0..1 1:1, Name 2..3 1:3
a\r^\tb~Name 0..1 1:1, Name 4..5 2:2
1..3~Number(1) 0..1 1:1, Symbol 1..3 1:2, Number(3) 3..4 1:4
1.5~Number(1) 0..1 1:1, Symbol 1..2 1:2, Number(5) 2..3 1:3
..~Symbol 0..2 1:1
...~Symbol 0..2 1:1, Symbol 2..3 1:3
***~Symbol 0..2 1:1, Symbol 2..3 1:3
<->~Symbol 0..3 1:1
<-~Symbol 0..1 1:1, Symbol 1..2 1:2
->=~Symbol 0..2 1:1, Symbol 2..3 1:3
<=>~Symbol 0..2 1:1, Symbol 2..3 1:3
!==~Symbol 0..2 1:1, Symbol 2..3 1:3
/\\/~Symbol 0..2 1:1, Symbol 2..3 1:3
\\/\\~bad byte 1:3
a<lexb~Name 0..1 1:1, Symbol 1..2 1:2, Name 2..6 1:3
a<lex b~Name 0..1 1:1, Symbol 1..5 1:2, Name 6..7 1:7
a<=lex1~Name 0..1 1:1, Symbol 1..3 1:2, Name 3..7 1:4
a>=lex(~Name 0..1 1:1, Symbol 1..6 1:2, Symbol 6..7 1:7
a>lex_~Name 0..1 1:1, Symbol 1..2 1:2, Name 2..6 1:3
<lex<lex~Symbol 0..4 1:1, Symbol 4..8 1:5
<=le~Symbol 0..2 1:1, Name 2..4 1:3
ESSENCE'~Word 0..8 1:1
ESSENCE~Name 0..7 1:1
ESSENCE'x~Word 0..8 1:1, Name 8..9 1:9
ESSENCE''~bad byte 1:9
xESSENCE'~bad byte 1:9
ESSENCES'~bad byte 1:9
123456789012345678~Number(123456789012345678) 0..18 1:1
999999999999999999~Number(999999999999999999) 0..18 1:1
1234567890123456789~long number 1:1
000000000000000000~Number(0) 0..18 1:1
0000000000000000001~long number 1:1
007~Number(7) 0..3 1:1
1x~Number(1) 0..1 1:1, Name 1..2 1:2
x1_y2~Name 0..5 1:1
_~Name 0..1 1:1
letting2~Name 0..8 1:1
inbe~Name 0..4 1:1
In~Name 0..2 1:1
in,be~Word 0..2 1:1, Symbol 2..3 1:3, Word 3..5 1:4
x # 1234567890123456789~bad byte 1:3
x 1234567890123456789 #~long number 1:3
^^  @~bad byte 3:3
\u{b}~bad byte 1:1
\u{0}~bad byte 1:1
\u{c3}\u{a9}~bad byte 1:1
'~bad byte 1:1
-1~Symbol 0..1 1:1, Number(1) 1..2 1:2";

/// All symbols.
const SYMBOLS: &str =
    "( ) [ ] , ; : . .. | + - * ** / % ! = != < <= > >= /\\ \\/ -> <-> <lex <=lex >lex >=lex";

/// All words.
const WORDS: &str =
    "language given letting where find such that minimising minimizing maximising maximizing branching on heuristic be domain matrix indexed by of int bool union intersect in toInt toSet flatten forAll exists sum product and or min max allDiff gcc atleast atmost table factorial true false ESSENCE'";

/// The kind of the one token that a text is.
fn only_kind(alloc: Global, text: &[u8]) -> Option<TokenKind> {
    match lex(alloc, text).ok()?.as_slice() {
        [token] => (token.from == 0 && token.to == text.len() as u64).then_some(token.kind),
        _ => None,
    }
}

/// The first of some words that isn't one token of this kind.
fn first_other(alloc: Global, words: &str, kind: TokenKind) -> Option<&str> {
    for word in words.split(' ') {
        if only_kind(alloc, word.as_bytes()) != Some(kind) {
            return Some(word);
        }
    }
    None
}

/// Each symbol and each word is one token, too.
#[test]
fn texts_have_the_tokens_worked_out_by_hand(rt: HostRuntime) -> Result<(), Fail> {
    let alloc = rt.alloc();
    for row in TEXTS.lines() {
        let (text, expected) = row.split_once('~').unwrap_or((row, ""));
        let text = bytes_of(alloc, text)?;
        let found = told(alloc, &text)?;
        assert_eq!(rt; found.as_str(), expected);
    }
    assert_eq!(rt; first_other(alloc, SYMBOLS, TokenKind::Symbol), None);
    assert_eq!(rt; first_other(alloc, WORDS, TokenKind::Word), None);
    Ok(())
}
