//! The tokens of a text that are still to be read.

ghost use Rattle.std.specs.List.{list_any};
ghost use Rattle.std.specs.Prelude.{◌≡◌, ◌∷◌, [], bytes_eq, codes, length, true, ℕ, List};
ghost use Rattle.std.specs.Option.{option_copied};
ghost use Rattle.ep_base.specs.Tokens.{token_text};
ghost use Rattle.ep_tree.specs.Phrases.{lexemes_of, saying_of};
ghost use Rattle.ep_parse_parts.specs.Beginnings.{beginners};
ghost use Rattle.ep_parse_parts.specs.Cursors.{Gives, LieIn, LiesIn, passing};
ghost use Rattle.ep_parse_parts.specs.DomainReaders.{matrix_follows, place_next};
ghost use Rattle.ep_parse_parts.specs.OperandReaders.{colon_comes, domain_next, expression_next};
ghost use Rattle.ep_parse_parts.specs.Openings.{domain_level_of};
ghost use Rattle.ep_parse_parts.specs.Readers.{behind, says_word, name_from, says, word_from};
ghost use Rattle.ep_parse_parts.specs.declared.cursor.Stop.TheVariants.{Memory as OutOfMemory};
ghost use Rattle.ep_parse_parts.specs.Sayings.{name_next, name_of, said_number_next, said_number, word_next, word_of};

mod next;

use crate::words::{DomainLevel, find_opening};
use ep_base::{Memory, Place, Token, TokenKind};
use std::alloc::AllocFailed;
use std::marker::Model;

/// Why nothing was read. The tokens that are left begin with the one that is named.
#[derive(Clone, Copy, Debug, PartialEq, Eq)]
pub enum Stop {
    /// Nothing goes on with the token.
    Wrong,
    /// Only trees that are too high go on with the token.
    TooHigh,
    /// An allocation was refused.
    Memory,
}

impl From<Memory> for Stop {
    ghost from_gives = { λ _ e. e ≡ OutOfMemory };

    fn from(_refused: Memory) -> Stop {
        Stop::Memory
    }
}

impl<T: Drop> From<AllocFailed<T>> for Stop {
    ghost from_gives = { λ _ e. e ≡ OutOfMemory };

    fn from(_refused: AllocFailed<T>) -> Stop {
        Stop::Memory
    }
}

/// The tokens of a text that are still to be read. Contracts see the list of what they say.
#[derive(Drop)]
pub struct Cursor<'a> {
    text: &'a [u8],
    tokens: &'a [Token],
}

impl<'a> Model for Cursor<'a> {
    ghost use Rattle.std.specs.Prelude.{List};
    ghost use Rattle.ep_tree.specs.Phrases.{Lexeme, lexemes_of};
    ghost use Rattle.ep_parse_parts.specs.Cursors.{LieIn};

    ghost Value = { List Lexeme };

    ghost view = { λ c. lexemes_of c.text.now c.tokens.now };

    ghost invariant = { λ c. LieIn c.text.now c.tokens.now };
}

impl<'a> Cursor<'a> {
    /// Tokens of a text, all that are left.
    pub fn new(text: &'a [u8], tokens: &'a [Token]) -> Cursor<'a>
        requires lies { LieIn text.now tokens.now }
        ensures all { result ≡ lexemes_of text.now tokens.now }
    {
        Cursor { text, tokens }
    }

    /// How many tokens are left.
    #[tactic(auto, unfolding(ep_tree::specs::Phrases::lexemes_of))]
    pub fn len(&self) -> usize
        ensures left { result ≡ length self.now }
    {
        self.tokens.len()
    }

    /// Whether this word or symbol is next.
    #[tactic(auto, unfolding(crate::specs::Readers::says, ep_tree::specs::Phrases::lexemes_of))]
    pub fn is_at(&self, word: &[u8]) -> bool
        ensures next { result ≡ says word.now self.now }
    {
        match self.tokens.first() {
            Some(token) => is_said(self.text, token, word),
            None => false,
        }
    }

    /// Passes this word or symbol, and gives its place.
    pub fn word(&mut self, word: &[u8]) -> Result<Place, Stop>
        ensures read { Gives (λ place. place) result self.new (word_from word.now self.old) }
    {
        let Some((token, rest)) = self.tokens.split_first() else {
            return Err(Stop::Wrong);
        };
        if !is_said(self.text, token, word) {
            return Err(Stop::Wrong);
        }
        self.tokens = rest;
        Ok(token.place)
    }

    /// Passes this word or symbol, where it is next, and tells whether it was.
    pub fn passes(&mut self, word: &[u8]) -> bool
        ensures passed { (result, self.new) ≡ passing word.now self.old }
    {
        let Some((token, rest)) = self.tokens.split_first() else {
            return false;
        };
        if !is_said(self.text, token, word) {
            return false;
        }
        self.tokens = rest;
        true
    }

    /// Passes a name, and gives it.
    pub fn name(&mut self) -> Result<&'a str, Stop>
        ensures read { Gives (λ name. name.now) result self.new (name_from self.old) }
    {
        let Some((token, rest)) = self.tokens.split_first() else {
            return Err(Stop::Wrong);
        };
        let Some(name) = name_in(self.text, token) else {
            return Err(Stop::Wrong);
        };
        self.tokens = rest;
        Ok(name)
    }

    /// The name that is next.
    #[tactic(auto, unfolding(crate::specs::Sayings::name_next, ep_tree::specs::Phrases::lexemes_of))]
    pub fn name_next(&self) -> Option<&'a str>
        ensures next { option_copied result ≡ name_next self.now }
    {
        match self.tokens.first() {
            Some(token) => name_in(self.text, token),
            None => None,
        }
    }

    /// The number that is next.
    #[tactic(auto, unfolding(crate::specs::Sayings::said_number_next, ep_tree::specs::Phrases::lexemes_of))]
    pub fn number_next(&self) -> Option<i64>
        ensures next { result ≡ said_number_next self.now }
    {
        match self.tokens.first() {
            Some(token) => number_in(token),
            None => None,
        }
    }

    /// The word or symbol that is next.
    #[tactic(auto, unfolding(crate::specs::Sayings::word_next, ep_tree::specs::Phrases::lexemes_of))]
    pub fn word_next(&self) -> Option<&'a [u8]>
        ensures next { option_copied result ≡ word_next self.now }
    {
        match self.tokens.first() {
            Some(token) => word_in(self.text, token),
            None => None,
        }
    }

    /// Passes a token, and gives its place.
    #[tactic(auto, unfolding(ep_tree::specs::Phrases::lexemes_of))]
    pub fn pass(&mut self) -> Place
        ensures place { result ≡ place_next self.old }
        ensures passed { self.new ≡ behind self.old }
    {
        match self.tokens.split_first() {
            Some((token, rest)) => {
                self.tokens = rest;
                token.place
            }
            None => Place { line: 0, column: 0 },
        }
    }

    /// The same tokens once more, to look ahead.
    pub fn ahead(&self) -> Cursor<'a>
        ensures same { result ≡ self.now }
    {
        Cursor {
            text: self.text,
            tokens: self.tokens,
        }
    }

    /// Whether the index domains of another matrix domain follow.
    #[tactic(auto, unfolding(crate::specs::DomainReaders::matrix_follows))]
    pub fn matrix_follows(&self) -> bool
        ensures follows { result ≡ matrix_follows self.now }
    {
        let mut ahead = self.ahead();
        if !ahead.is_at(b"]") {
            return false;
        }
        ahead.pass();
        if !ahead.is_at(b"of") {
            return false;
        }
        ahead.pass();
        ahead.is_at(b"matrix")
    }

    /// Whether an expression begins with the next token.
    pub fn expression_next(&self) -> bool
        ensures next { result ≡ expression_next self.now }
    {
        if self.name_next().is_some() {
            return true;
        }
        if self.number_next().is_some() {
            return true;
        }
        let Some(word) = self.word_next() else {
            return false;
        };
        find_opening(word).is_some()
    }

    /// Whether a domain of a level begins with the next token.
    pub fn domain_next(&self, level: DomainLevel) -> bool
        ensures next { result ≡ domain_next (domain_level_of level) self.now }
    {
        if self.name_next().is_some() {
            return true;
        }
        let Some(word) = self.word_next() else {
            return false;
        };
        begins(level, word)
    }

    /// Whether names with commas between them are next, and then a colon.
    pub fn colon_comes(&self) -> bool
        ensures comes { result ≡ colon_comes true self.now }
    {
        let mut ahead = self.ahead();
        loop {
            if ahead.name_next().is_none() {
                return false;
            }
            ahead.pass();
            if ahead.is_at(b":") {
                return true;
            }
            if !ahead.passes(b",") {
                return false;
            }
        }
    }
}

/// Whether a token is this word or symbol.
#[tactic(auto, unfolding(ep_tree::specs::Phrases::saying_of))]
fn is_said(text: &[u8], token: &Token, word: &[u8]) -> bool
    requires { LiesIn text.now token.now }
    ensures { result ≡ says_word word.now (saying_of (token_text text.now token.now) token.now.kind) }
{
    match token.kind {
        TokenKind::Word | TokenKind::Symbol => {
            &text[token.from as usize..token.to as usize] == word
        }
        TokenKind::Name | TokenKind::Number(_) => false,
    }
}

/// The text of a token that is a name.
#[tactic(auto, unfolding(ep_tree::specs::Phrases::saying_of))]
fn name_in<'a>(text: &'a [u8], token: &Token) -> Option<&'a str>
    requires { LiesIn text.now token.now }
    ensures { option_copied result ≡ name_of (saying_of (token_text text.now token.now) token.now.kind) }
{
    match token.kind {
        TokenKind::Name => {
            let bytes = &text[token.from as usize..token.to as usize];
            Some(str::from_utf8(bytes).unwrap())
        }
        _ => None,
    }
}

/// The number that a token is.
#[tactic(auto, unfolding(ep_tree::specs::Phrases::saying_of))]
fn number_in(token: &Token) -> Option<i64>
    ensures { (text : List ℕ) →
        result ≡ said_number (saying_of (token_text text token.now) token.now.kind) }
{
    match token.kind {
        TokenKind::Number(number) => Some(number),
        _ => None,
    }
}

/// The text of a token that is a word or a symbol.
#[tactic(auto, unfolding(ep_tree::specs::Phrases::saying_of))]
fn word_in<'a>(text: &'a [u8], token: &Token) -> Option<&'a [u8]>
    requires { LiesIn text.now token.now }
    ensures { option_copied result ≡ word_of (saying_of (token_text text.now token.now) token.now.kind) }
{
    match token.kind {
        TokenKind::Word | TokenKind::Symbol => {
            Some(&text[token.from as usize..token.to as usize])
        }
        TokenKind::Name | TokenKind::Number(_) => None,
    }
}

/// Whether a word begins a domain of a level.
fn begins(level: DomainLevel, word: &[u8]) -> bool
    ensures among { result ≡ list_any (bytes_eq word.now) (beginners level) }
{
    match level {
        DomainLevel::Domains => begins_any_domain(word),
        DomainLevel::SetOperations => begins_domain(word),
        DomainLevel::SetParts => begins_domain(word),
    }
}

/// Whether a word begins a domain that is no matrix domain.
fn begins_domain(word: &[u8]) -> bool
    ensures { result ≡ list_any (bytes_eq word.now) (codes "bool" ∷ codes "int" ∷ codes "(" ∷ []) }
{
    matches!(word, b"bool" | b"int" | b"(")
}

/// Whether a word begins a domain.
fn begins_any_domain(word: &[u8]) -> bool
    ensures { result ≡ list_any (bytes_eq word.now) (codes "bool" ∷ codes "int" ∷ codes "(" ∷ codes "matrix" ∷ []) }
{
    if begins_domain(word) {
        return true;
    }
    begins_matrix(word)
}

/// Whether a word begins a matrix domain.
fn begins_matrix(word: &[u8]) -> bool
    ensures { result ≡ bytes_eq word.now (codes "matrix") }
{
    let matrix: &[u8] = b"matrix";
    word == matrix
}
