//! The bytes of a text's literals.
ghost use Rattle.std.specs.Prelude.{◌≡◌, map};
ghost use Rattle.std.specs.List.{list_all};
ghost use Rattle.script_tokens.specs.Tokens.{tokens_of};
ghost use Rattle.script_tokens.specs.TokenValue.{token_value, is_plain};
ghost use Rattle.script_tokens.specs.Pool.{Answers, literal_of, literals_of, pool_bytes};

use crate::cursor::is_hex;
use crate::fault::ScriptFault;
use crate::lines::Lines;
use crate::tokens::{Token, Tokens};
use hex::FromHexError;
use sf_base::{Failure, rest_from};
use std::alloc::Global;

/// The bytes of all literals of a text, in order. The error is `Literal` with the line of the first malformed
/// literal, or `OutOfMemory`.
///
/// Only the form of literals is checked: a literal may still be where none is expected, or have too many bytes.
pub fn pool_of(alloc: Global, text: &[u8]) -> Result<Vec<u8>, Failure<ScriptFault>>
    ensures { Answers (λ pool. pool.items) result (pool_bytes text.now) }
{
    let mut pool = Vec::new(alloc);
    let mut number: u64 = 0;
    for line in Lines::of(text) {
        number += 1;
        add_literals(alloc, &mut pool, number, line)?;
    }
    Ok(pool)
}

// Appends the bytes of the literals of a line.
fn add_literals(
    alloc: Global,
    pool: &mut Vec<u8>,
    number: u64,
    line: &[u8],
) -> Result<(), Failure<ScriptFault>>
    ensures { Answers (λ _. pool.new.items) result (literals_of number (map token_value (tokens_of line.now)) pool.old.items) }
{
    for token in Tokens::of(line) {
        add_literal(alloc, pool, number, &token)?;
    }
    Ok(())
}

// Appends the bytes of a token that is a literal.
#[tactic(auto, unfolding(crate::specs::Pool::literal_of, crate::specs::TokenValue::token_value))]
fn add_literal(
    alloc: Global,
    pool: &mut Vec<u8>,
    number: u64,
    token: &Token<'_>,
) -> Result<(), Failure<ScriptFault>>
    ensures { Answers (λ _. pool.new.items) result (literal_of number (token_value token.now) pool.old.items) }
{
    match token {
        Token::Plain(word) => {
            let word = word.bytes();
            if is_hex(word) {
                match hex::decode(alloc, rest_from(word, 1)) {
                    Ok(bytes) => pool.extend_from_slice(&bytes)?,
                    Err(FromHexError::OutOfMemory) => return Err(Failure::OutOfMemory),
                    Err(_) => return Err(ScriptFault::Literal(number).into()),
                }
            }
        }
        Token::Quoted(inside) => {
            if !all_plain(inside.bytes()) {
                return Err(ScriptFault::Literal(number).into());
            }
            pool.extend_from_slice(inside.bytes())?;
        }
        Token::Broken => return Err(ScriptFault::Literal(number).into()),
    }
    Ok(())
}

fn all_plain(bytes: &[u8]) -> bool
    ensures { result ≡ list_all is_plain bytes.now }
{
    bytes.iter().all(|byte| *byte >= 0x20 && *byte <= 0x7e)
}
