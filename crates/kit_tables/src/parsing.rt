//! Reads the rows of a table.
ghost use Rattle.std.specs.Prelude.{◌≡◌, ◌≤◌, ◌<◌, nat_le, length, map, option_map, IfOk};
ghost use Rattle.script_tokens.specs.Pool.{Answers};
ghost use Rattle.kit_tables.specs.declared.limits.TheConstants.{MOST_ROWS};
ghost use Rattle.kit_tables.specs.Rows.{row_of, path_of, file_of, row, with_row, rows_of};

use crate::fault::KitFault;
use crate::limits::MOST_ROWS;
use crate::row::KitRow;
use crate::zone_parsers::zone;
use script_tokens::{Lines, Token, split_token};
use sf_base::Failure;
use std::alloc::Global;

/// The rows of a table in order, from 1 to 65,535. The error is the first fault in the order of lines, or
/// `OutOfMemory`. If a line has both faults, `BadRow` precedes `TooManyRows`.
pub fn parse_kit<'t>(alloc: Global, text: &'t [u8]) -> Result<Vec<KitRow<'t>>, Failure<KitFault>>
    ensures parsed { Answers (λ rows. map row_of rows.items) result (rows_of text.now) }
    ensures few { IfOk result (λ rows. length rows.items ≤ MOST_ROWS) }
    ensures some { IfOk result (λ rows. 0 < length rows.items) }
{
    let mut rows = Vec::new(alloc);
    let mut number: u64 = 0;
    for line in Lines::of(text) {
        number += 1;
        add_row(&mut rows, number, line)?;
    }
    if rows.is_empty() {
        return Err(KitFault::NoRows(1).into());
    }
    Ok(rows)
}

// Appends the row of a line, if the line has tokens.
fn add_row<'t>(
    rows: &mut Vec<KitRow<'t>>,
    number: u64,
    line: &'t [u8],
) -> Result<(), Failure<KitFault>>
    requires { length rows.old.items ≤ MOST_ROWS }
    ensures added { Answers (λ _. map row_of rows.new.items) result (with_row number line.now (map row_of rows.old.items)) }
    ensures few { IfOk result (λ _. length rows.new.items ≤ MOST_ROWS) }
{
    match split_token(line) {
        None => Ok(()),
        Some((first, rest)) => match row(number, first, rest) {
            None => Err(KitFault::BadRow(number).into()),
            Some(row) => {
                if is_full(rows) {
                    return Err(KitFault::TooManyRows(number).into());
                }
                rows.push(row)?;
                Ok(())
            }
        },
    }
}

// The row with this first token and this rest of its line, if the line has one.
#[tactic(auto, unfolding(crate::specs::Rows::row))]
fn row<'t>(number: u64, first: Token<'t>, rest: &'t [u8]) -> Option<KitRow<'t>>
    ensures { option_map row_of result ≡ row number (record { token = first.entry; after = rest.now }) }
{
    match file_of(first) {
        None => None,
        Some(file) => match zone(rest) {
            Err(_) => None,
            Ok(zone) => Some(KitRow {
                line: number,
                file,
                zone,
            }),
        },
    }
}

// The path that a token has: a word, or the bytes between quotes.
#[tactic(auto, unfolding(crate::specs::Rows::file_of))]
fn file_of<'t>(token: Token<'t>) -> Option<&'t str>
    ensures { option_map (λ file. file.now) result ≡ file_of token.entry }
{
    match token {
        Token::Plain(word) => path_of(word.bytes()),
        Token::Quoted(inside) => path_of(inside.bytes()),
        Token::Broken => None,
    }
}

// The path with these bytes, if they are UTF-8 and not empty.
#[tactic(auto, using(crate::proofs::PathLaws::empty_is_none, crate::proofs::PathLaws::text_is_some, crate::proofs::PathLaws::other_is_none))]
fn path_of(bytes: &[u8]) -> Option<&str>
    ensures { option_map (λ path. path.now) result ≡ path_of bytes.now }
{
    if bytes.is_empty() {
        return None;
    }
    match str::from_utf8(bytes) {
        Ok(path) => Some(path),
        Err(_) => None,
    }
}

// Whether the table has the maximum number of rows.
fn is_full(rows: &Vec<KitRow<'_>>) -> bool
    ensures { result ≡ nat_le MOST_ROWS (length rows.now.items) }
{
    rows.len() >= MOST_ROWS
}
