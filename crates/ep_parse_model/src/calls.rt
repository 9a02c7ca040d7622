//! Reading whole texts.

ghost use Rattle.std.specs.Prelude.{◌≡◌, ◌≤◌, IfErr, IfOk, Ok, length};
ghost use Rattle.ep_base.specs.Tokens.{tokens_of};
ghost use Rattle.ep_parse_model.specs.Answers.{GivesModel, GivesParams, RefusesTokens};
ghost use Rattle.ep_tree.specs.Texts.{MOST_BYTES};

use crate::places::refusal;
use crate::text_errors::TextError;
use crate::texts::{model, params};
use ep_base::Token;
use ep_lexer::{LexError, lex};
use ep_parse_parts::Cursor;
use ep_tree::{Model, Params};
use std::alloc::Global;

/// The bytes that a text may have.
const MOST_BYTES: usize = 16_777_216;

/// The model that a text is. Linear in the bytes.
pub fn parse_model(alloc: Global, text: &[u8]) -> Result<Model, TextError>
    ensures answer { GivesModel text.now result }
{
    let tokens = tokens(alloc, text)?;
    let mut cursor = Cursor::new(text, &tokens);
    match model(alloc, &mut cursor) {
        Ok(model) => Ok(model),
        Err(stop) => Err(refusal(text, &cursor, stop)),
    }
}

/// The parameter text, or the solution text, that a text is. Linear in the bytes.
pub fn parse_params(alloc: Global, text: &[u8]) -> Result<Params, TextError>
    ensures answer { GivesParams text.now result }
{
    let tokens = tokens(alloc, text)?;
    let mut cursor = Cursor::new(text, &tokens);
    match params(alloc, &mut cursor) {
        Ok(params) => Ok(params),
        Err(stop) => Err(refusal(text, &cursor, stop)),
    }
}

/// The tokens of a text that isn't too long.
fn tokens(alloc: Global, text: &[u8]) -> Result<Vec<Token>, TextError>
    ensures within { IfOk result (λ tokens. length text.now ≤ MOST_BYTES) }
    ensures found { IfOk result (λ tokens. tokens_of text.now ≡ Ok tokens.items) }
    ensures refused { IfErr result (λ error. RefusesTokens text.now error) }
{
    if text.len() > MOST_BYTES {
        return Err(TextError::TooLong);
    }
    match lex(alloc, text) {
        Ok(tokens) => Ok(tokens),
        Err(LexError::BadByte(place)) => Err(TextError::BadByte(place)),
        Err(LexError::LongNumber(place)) => Err(TextError::LongNumber(place)),
        Err(LexError::Memory) => Err(TextError::Memory),
    }
}
