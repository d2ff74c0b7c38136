//! Reads a line from left to right, one token after another.
ghost use Rattle.std.specs.Prelude.{◌≡◌, ◌≤◌, ◌≤ℤ◌, ◌+ℤ◌, pos, neg_ℤ, ◌↔◌, List, [], ◌∷◌, MatchOption, take, ℕ, IfOk, OnOk, IsTrue};
ghost use Rattle.script_tokens.specs.TokenValue.{cursor_over, size_of, value_over, is_hex};
ghost use Rattle.script_tokens.specs.Tokens.{tokens_of};
ghost use Rattle.script_tokens.specs.Parsers.{Reads, is_next, word, literal, number_word, number, signed, range, name, name_of, ended};

use crate::fault::LineFault;
use crate::numbers::{number_of, range_of, signed_of};
use crate::tokens::{Token, Tokens};
use sf_base::{BorrowedBytes, Name20, front_of, rest_from};
use std::marker::Model;

/// The value of a token.
#[derive(Debug, Drop)]
pub enum TokenValue<'t, 'p> {
    /// A word.
    Word(BorrowedBytes<'t>),
    /// The bytes of a literal, borrowed from the pool.
    Literal(BorrowedBytes<'p>),
    /// A malformed literal.
    Malformed,
}

/// The remaining tokens of a line as values, and the pool that follows the line's own literals. Each byte of
/// the line is scanned once: the cursor keeps the next token and the unscanned rest.
#[derive(Drop)]
pub struct Cursor<'t, 'p> {
    first: Option<Token<'t>>,
    others: Tokens<'t>,
    pool: &'p [u8],
}

impl<'t, 'p> Model for Cursor<'t, 'p> {
    ghost use Rattle.script_tokens.specs.TokenValue.{CursorState, cursor_over, all_tokens};

    ghost Value = { CursorState };

    ghost view = { λ c. cursor_over c.pool.now (all_tokens c.first c.others) };
}

impl<'t, 'p> Cursor<'t, 'p> {
    /// The cursor at the start of a line. `pool` begins with the bytes of the line's literals.
    pub fn of(line: &'t [u8], pool: &'p [u8]) -> Cursor<'t, 'p>
        ensures { result ≡ cursor_over pool.now (tokens_of line.now) }
    {
        let mut others = Tokens::of(line);
        let first = others.next();
        Cursor {
            first,
            others,
            pool,
        }
    }

    // The value of the next token, which is removed.
    fn next(&mut self) -> Option<TokenValue<'t, 'p>>
        ensures left { MatchOption result ((self.old.token_values ≡ []) × (self.new.token_values ≡ [])) (λ s. self.old.token_values ≡ s ∷ self.new.token_values) }
        ensures pool { self.new.pool ≡ self.old.pool }
    {
        let token = self.first.take()?;
        self.first = self.others.next();
        let size = size_of(&token);
        let bytes = front_of(self.pool, size);
        self.pool = rest_from(self.pool, size);
        Some(value_over(token, bytes))
    }

    /// Whether no token remains.
    pub fn is_empty(&self) -> bool
        ensures { IsTrue result ↔ (self.now.token_values ≡ []) }
    {
        self.first.is_none()
    }

    /// Whether the next token is this word. It is not if the next token is a literal, or no token remains.
    #[tactic(auto, unfolding(crate::specs::TokenValue::value_over))]
    pub fn is_next(&self, word: &[u8]) -> bool
        ensures { result ≡ is_next word.now self.now.token_values }
    {
        match &self.first {
            Some(Token::Plain(plain)) => !is_hex(plain.bytes()) && plain.bytes() == word,
            _ => false,
        }
    }

    /// The pool after the line's literals, once every token has been read.
    pub fn pool(&self) -> &'p [u8]
        requires { self.now.token_values ≡ [] }
        ensures { result.now ≡ self.now.pool }
    {
        self.pool
    }

    /// Reads a word, that is a token that is no literal; else `Syntax`.
    #[tactic(auto, unfolding(crate::specs::Parsers::word))]
    pub fn word(&mut self) -> Result<&'t [u8], LineFault>
        ensures { Reads (λ w. w.now) word self.old self.new result }
    {
        match self.next() {
            Some(TokenValue::Word(word)) => Ok(word.bytes()),
            _ => Err(LineFault::Syntax),
        }
    }

    /// Reads the bytes of a literal; `Syntax` for any other token and at the line's end.
    #[tactic(auto, unfolding(crate::specs::Parsers::literal))]
    pub fn literal(&mut self) -> Result<&'p [u8], LineFault>
        ensures { Reads (λ bytes. bytes.now) literal self.old self.new result }
    {
        match self.next() {
            Some(TokenValue::Literal(bytes)) => Ok(bytes.bytes()),
            _ => Err(LineFault::Syntax),
        }
    }

    // Reads a word where a number is expected: `Number` for any other token, `Syntax` at the line's end.
    #[tactic(auto, unfolding(crate::specs::Parsers::number_word))]
    fn number_word(&mut self) -> Result<&'t [u8], LineFault>
        ensures { Reads (λ w. w.now) number_word self.old self.new result }
    {
        match self.next() {
            Some(TokenValue::Word(number)) => Ok(number.bytes()),
            Some(_) => Err(LineFault::Number),
            None => Err(LineFault::Syntax),
        }
    }

    /// Reads a number from 0 to `limit`; `Number` for any other token, `Syntax` at the line's end.
    #[tactic(auto, unfolding(crate::specs::Parsers::number))]
    pub fn number(&mut self, limit: u32) -> Result<u32, LineFault>
        ensures reads { Reads (λ n. n) (number limit) self.old self.new result }
        ensures within { IfOk result (λ n. n ≤ limit) }
    {
        let word = self.number_word()?;
        number_of(word, limit).ok_or(LineFault::Number)
    }

    /// Reads a number from `-limit - 1` to `limit`, with `-` before its digits where it is negative; `Number`
    /// for any other token, `Syntax` at the line's end.
    #[tactic(auto, unfolding(crate::specs::Parsers::signed))]
    pub fn signed(&mut self, limit: u16) -> Result<i32, LineFault>
        ensures reads { Reads (λ z. z) (signed limit) self.old self.new result }
        ensures low { IfOk result (λ z. neg_ℤ (pos limit) ≤ℤ (z +ℤ pos 1)) }
        ensures high { IfOk result (λ z. z ≤ℤ pos limit) }
    {
        let word = self.number_word()?;
        signed_of(word, limit).ok_or(LineFault::Number)
    }

    /// Reads a range `LO..HI` in one token, both ends from 0 to 255 and in any order; `Number` for any other
    /// token, `Syntax` at the line's end.
    #[tactic(auto, unfolding(crate::specs::Parsers::range))]
    pub fn range(&mut self) -> Result<(u8, u8), LineFault>
        ensures { Reads (λ r. r) range self.old self.new result }
    {
        let word = self.number_word()?;
        range_of(word).ok_or(LineFault::Number)
    }

    /// Reads a literal of at most 20 bytes, none of them zero; `Literal` for other bytes, `Syntax` for any
    /// other token and at the line's end.
    #[tactic(auto, unfolding(crate::specs::Parsers::name))]
    pub fn name(&mut self) -> Result<Name20, LineFault>
        ensures { Reads (λ bytes. bytes) name self.old self.new result }
    {
        let bytes = self.literal()?;
        name_of(bytes).ok_or(LineFault::Literal)
    }

    /// Checks that no token remains; else `Syntax`.
    #[tactic(auto, unfolding(crate::specs::Parsers::ended))]
    pub fn end(&mut self) -> Result<(), LineFault>
        ensures reads { Reads (λ u. u) (ended tt) self.old self.new result }
        ensures done { OnOk result (self.new.token_values ≡ []) }
    {
        match self.next() {
            Some(_) => Err(LineFault::Syntax),
            None => Ok(()),
        }
    }
}

// How many bytes of the pool belong to a token.
#[tactic(auto, unfolding(crate::specs::TokenValue::size_of))]
fn size_of(token: &Token<'_>) -> usize
    ensures { result ≡ size_of token.now }
{
    match token {
        Token::Plain(word) => {
            let word = word.bytes();
            if is_hex(word) {
                (word.len() - 1) / 2
            } else {
                0
            }
        }
        Token::Quoted(inside) => inside.bytes().len(),
        Token::Broken => 0,
    }
}

// The value of a token, given the bytes of its literal.
#[tactic(auto, unfolding(crate::specs::TokenValue::value_over))]
fn value_over<'t, 'p>(token: Token<'t>, bytes: &'p [u8]) -> TokenValue<'t, 'p>
    ensures { (pool : List ℕ) → bytes.now ≡ take (size_of token.entry) pool → result ≡ value_over pool token.entry }
{
    match token {
        Token::Plain(word) => {
            if is_hex(word.bytes()) {
                TokenValue::Literal(BorrowedBytes::new(bytes))
            } else {
                TokenValue::Word(word)
            }
        }
        Token::Quoted(_) => TokenValue::Literal(BorrowedBytes::new(bytes)),
        Token::Broken => TokenValue::Malformed,
    }
}

// Whether an unquoted token is a literal in hex digits.
pub(crate) fn is_hex(word: &[u8]) -> bool
    ensures { result ≡ is_hex word.now }
{
    !word.is_empty() && word[0] == b'x'
}

// The name with these bytes, if they are a valid name.
#[tactic(auto, using(crate::proofs::NameLaws::name_of_bytes))]
fn name_of(bytes: &[u8]) -> Option<Name20>
    ensures { result ≡ name_of bytes.now }
{
    Name20::from_bytes(bytes).ok()
}
