//! Reading from a token on.

ghost use Rattle.std.specs.Prelude.{◌≡◌, ◌≤◌, ◌-◌, length, Ok};
ghost use Rattle.ep_base.specs.Tokens.{tokens_of};
ghost use Rattle.ep_tree.specs.Phrases.{lexemes_of};
ghost use Rattle.ep_tree.specs.Reading.{MOST_HEIGHT};
ghost use Rattle.ep_parse_expr.specs.Answers.{AnswersDomain, AnswersExpr};
ghost use Rattle.ep_parse_expr.specs.Faults.{error_at};

use crate::errors::ParseError;
use ep_base::Token;
use ep_parse_parts::{Cursor, DomainLevel, Level, Stop};
use ep_parse_trees::{domain, expr};
use ep_tree::{Domain, Expr};
use std::alloc::Global;

/// The expression that the tokens from one on are, as far as one goes on, and the number of the token
/// behind it. Where only higher ones go on with a token it is `TooHigh`; where none goes on and what stands before is
/// none, `Syntax`.
pub fn parse_expr(
    alloc: Global,
    text: &[u8],
    tokens: &[Token],
    from: usize,
    height: u64,
) -> Result<(Expr, usize), ParseError>
    requires lexed { tokens_of text.now ≡ Ok tokens.now }
    requires within { from ≤ length tokens.now }
    requires some { 1 ≤ height }
    requires low { height ≤ MOST_HEIGHT }
    ensures answer { AnswersExpr height from (lexemes_of text.now tokens.now) result }
{
    let mut cursor = Cursor::new(text, &tokens[from..]);
    let result = expr(alloc, &mut cursor, Level::Implications, height);
    let number = count_read(tokens, &cursor);
    match result {
        Ok(found) => Ok((found.expr, number)),
        Err(stop) => Err(refusal(stop, number)),
    }
}

/// The domain that the tokens from one on are, as far as one goes on, and the number of the token behind
/// it. Where only higher ones go on with a token it is `TooHigh`; where none goes on and what stands before is none,
/// `Syntax`.
pub fn parse_domain(
    alloc: Global,
    text: &[u8],
    tokens: &[Token],
    from: usize,
    height: u64,
) -> Result<(Domain, usize), ParseError>
    requires lexed { tokens_of text.now ≡ Ok tokens.now }
    requires within { from ≤ length tokens.now }
    requires some { 1 ≤ height }
    requires low { height ≤ MOST_HEIGHT }
    ensures answer { AnswersDomain height from (lexemes_of text.now tokens.now) result }
{
    let mut cursor = Cursor::new(text, &tokens[from..]);
    let result = domain(alloc, &mut cursor, DomainLevel::Domains, height);
    let number = count_read(tokens, &cursor);
    match result {
        Ok(found) => Ok((found.domain, number)),
        Err(stop) => Err(refusal(stop, number)),
    }
}

/// How many tokens were read.
fn count_read(tokens: &[Token], cursor: &Cursor<'_>) -> usize
    ensures count { result ≡ length tokens.now - length cursor.now }
{
    tokens.len().saturating_sub(cursor.len())
}

/// Why nothing was read, with the number of the token that it names.
fn refusal(stop: Stop, number: usize) -> ParseError
    ensures why { result ≡ error_at number stop }
{
    match stop {
        Stop::Wrong => ParseError::Syntax(number),
        Stop::TooHigh => ParseError::TooHigh(number),
        Stop::Memory => ParseError::Memory,
    }
}
