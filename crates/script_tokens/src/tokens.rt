//! The tokens of a line.
ghost use Rattle.std.specs.Prelude.{◌≡◌, ◌<◌, length, slice_index, drop, MatchOption, None, Some};
ghost use Rattle.std.specs.Iterator.{YieldsFirstBy, item_count};
ghost use Rattle.script_tokens.specs.Tokens.{after_blanks, tokens_of, token_at, quoted_at, plain_at, ends_well};

use crate::scanning::{blank_at, blanks_before, bytes_after, is_blank, quote_at};
use sf_base::{BorrowedBytes, front_of, rest_from};
use std::marker::Model;

/// A token of a line.
#[derive(Debug, Drop)]
pub enum Token<'a> {
    /// A token that runs to the next blank.
    Plain(BorrowedBytes<'a>),
    /// The bytes between two quotes.
    Quoted(BorrowedBytes<'a>),
    /// A token whose closing quote is missing or is not followed by a blank. It includes the rest of the line.
    Broken,
}

/// Iterates over the tokens of a line.
#[derive(Drop)]
pub(crate) struct Tokens<'a> {
    rest: &'a [u8],
}

impl<'a> Model for Tokens<'a> {
    ghost use Rattle.std.specs.Prelude.{List};
    ghost use Rattle.script_tokens.specs.declared.tokens.Token.{Token};
    ghost use Rattle.script_tokens.specs.Tokens.{tokens_of};

    ghost Value = { List Token };

    ghost view = { λ tokens. tokens_of tokens.rest.now };
}

impl<'a> Tokens<'a> {
    pub(crate) fn of(line: &'a [u8]) -> Tokens<'a>
        ensures { result ≡ tokens_of line.now }
    {
        Tokens { rest: line }
    }
}

impl<'a> Iterator for Tokens<'a> {
    type Item = Token<'a>;

    ghost next_gives = { YieldsFirstBy (λ token. token) (λ rest. rest) };

    ghost remaining = { item_count (λ rest. rest) };

    fn next(&mut self) -> Option<Token<'a>> {
        match split_token(self.rest) {
            Some((token, rest)) => {
                self.rest = rest;
                Some(token)
            }
            None => {
                self.rest = &[];
                None
            }
        }
    }
}

/// Returns the first token of a line and the bytes after it. None where only blanks or a comment remain.
pub fn split_token(line: &[u8]) -> Option<(Token<'_>, &[u8])>
    ensures { MatchOption result (token_at (after_blanks line.now) ≡ None) (λ r. token_at (after_blanks line.now) ≡ Some (record { token = r.0; after = r.1.now })) }
{
    first_token(rest_from(line, blanks_before(line)))
}

// The first token of a line without leading blanks, and the bytes after it. None at the line's end or a comment.
#[tactic(auto, using(crate::proofs::LexLaws::token_empty, crate::proofs::LexLaws::token_comment, crate::proofs::LexLaws::token_quote, crate::proofs::LexLaws::token_plain))]
fn first_token(line: &[u8]) -> Option<(Token<'_>, &[u8])>
    ensures { MatchOption result (token_at line.now ≡ None) (λ r. token_at line.now ≡ Some (record { token = r.0; after = r.1.now })) }
{
    if line.is_empty() {
        return None;
    }
    match line[0] {
        b'#' => None,
        b'"' => Some(quoted(rest_from(line, 1))),
        _ => Some(plain(line)),
    }
}

// A token that runs to the next blank, and the bytes after it.
#[tactic(auto, using(crate::proofs::LexLaws::front_of_plain), unfolding(crate::specs::Tokens::plain_at))]
fn plain(line: &[u8]) -> (Token<'_>, &[u8])
    requires { 0 < length line.now }
    ensures { plain_at (slice_index line.now 0) (drop 1 line.now) ≡ record { token = result.0; after = result.1.now } }
{
    let rest = rest_from(line, 1);
    let end = blank_at(rest);
    (
        Token::Plain(BorrowedBytes::new(front_of(line, end + 1))),
        rest_from(rest, end),
    )
}

// The token after an opening quote, and the bytes after it.
#[tactic(auto, unfolding(crate::specs::Tokens::quoted_at))]
fn quoted(line: &[u8]) -> (Token<'_>, &[u8])
    ensures { quoted_at line.now ≡ record { token = result.0; after = result.1.now } }
{
    let end = quote_at(line);
    if end < line.len() {
        let after = bytes_after(line, end);
        if ends_well(after) {
            return (
                Token::Quoted(BorrowedBytes::new(front_of(line, end))),
                after,
            );
        }
    }
    (Token::Broken, &[])
}

// Whether a closing quote may be followed by these bytes.
fn ends_well(line: &[u8]) -> bool
    ensures { result ≡ ends_well line.now }
{
    line.is_empty() || is_blank(line[0])
}
