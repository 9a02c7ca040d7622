//! What is next among the tokens that are left.

ghost use Rattle.std.specs.Prelude.{◌≡◌, ℕ, List};
ghost use Rattle.ep_base.specs.Tokens.{token_text};
ghost use Rattle.ep_parse_parts.specs.Cursors.{Gives, none_left};
ghost use Rattle.ep_parse_parts.specs.DomainReaders.{place_next};
ghost use Rattle.ep_parse_parts.specs.Readers.{number_from};
ghost use Rattle.ep_parse_parts.specs.Sayings.{says_number};
ghost use Rattle.ep_tree.specs.Phrases.{lexemes_of, saying_of};

use crate::cursor::{Cursor, Stop};
use ep_base::{Place, Token, TokenKind};

impl<'a> Cursor<'a> {
    /// Whether no token is left.
    #[tactic(auto, unfolding(ep_tree::specs::Phrases::lexemes_of))]
    pub fn is_empty(&self) -> bool
        ensures none { result ≡ none_left self.now }
    {
        self.tokens.is_empty()
    }

    /// The place of the next token, 0:0 where none is left.
    #[tactic(auto, unfolding(ep_tree::specs::Phrases::lexemes_of))]
    pub fn place(&self) -> Place
        ensures next { result ≡ place_next self.now }
    {
        match self.tokens.first() {
            Some(token) => token.place,
            None => Place { line: 0, column: 0 },
        }
    }

    /// Passes this number, and gives its place.
    #[tactic(auto, unfolding(crate::specs::Readers::number_from, ep_tree::specs::Phrases::lexemes_of))]
    pub fn number(&mut self, wanted: i64) -> Result<Place, Stop>
        ensures read { Gives (λ place. place) result self.new (number_from wanted self.old) }
    {
        let Some((token, rest)) = self.tokens.split_first() else {
            return Err(Stop::Wrong);
        };
        if !is_number(token, wanted) {
            return Err(Stop::Wrong);
        }
        self.tokens = rest;
        Ok(token.place)
    }
}

/// Whether a token is this number.
#[tactic(auto, unfolding(ep_tree::specs::Phrases::saying_of))]
fn is_number(token: &Token, wanted: i64) -> bool
    ensures { (text : List ℕ) →
        result ≡ says_number wanted (saying_of (token_text text token.now) token.now.kind) }
{
    match token.kind {
        TokenKind::Number(number) => number == wanted,
        _ => false,
    }
}
