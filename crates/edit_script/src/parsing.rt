//! Reads the edits of a script.
ghost use Rattle.std.specs.Prelude.{◌≡◌, Ok, IfOk};
ghost use Rattle.script_tokens.specs.Tokens.{tokens_of};
ghost use Rattle.script_tokens.specs.Lines.{lines_of};
ghost use Rattle.script_tokens.specs.TokenValue.{values_over, pool_after, line_values_over};
ghost use Rattle.edit_script.specs.Printing.{LinesFit};
ghost use Rattle.script_tokens.specs.Pool.{Answers, pool_bytes};
ghost use Rattle.edit_script.specs.Script.{edit_of, edits_in, script_of};

use crate::edits::edit;
use edit_forms::Edit;
use script_tokens::{Cursor, Lines, ScriptFault};
use sf_base::Failure;
use std::alloc::Global;

/// An edit of a script, and the number of its line, counted from 1.
pub struct Line<'a> {
    pub number: u64,
    pub edit: Edit<'a>,
}

impl<'a> Line<'a> {
    /// The edit, without its line number.
    pub fn into_edit(self) -> Edit<'a>
        ensures { result ≡ self.entry.edit }
    {
        let Line { number: _, edit } = self;
        edit
    }
}

// Not derived: a derived drop is inlined, and proved again, wherever a value is dropped; this one is a call.
impl Drop for Line<'_> {
    fn drop(self) {
        let Line { number: _, edit: _ } = self;
    }
}

/// The edits of a text with their line numbers; they borrow their literals from `pool`. The error is the
/// first fault from left to right, or `OutOfMemory`.
pub fn parse<'a>(
    alloc: Global,
    text: &[u8],
    pool: &'a [u8],
) -> Result<Vec<Line<'a>>, Failure<ScriptFault>>
    requires { pool_bytes text.now ≡ Ok pool.now }
    ensures parsed { Answers (λ lines. lines.items) result (script_of text.now) }
    ensures fit { IfOk result (λ lines. LinesFit lines.items) }
{
    parse_lines(alloc, text, pool)
}

fn parse_lines<'a>(
    alloc: Global,
    text: &[u8],
    pool: &'a [u8],
) -> Result<Vec<Line<'a>>, Failure<ScriptFault>>
    ensures { Answers (λ lines. lines.items) result (edits_in (line_values_over pool.now (lines_of text.now))) }
{
    let mut edits = Vec::new(alloc);
    let mut number: u64 = 0;
    let mut rest = pool;
    for line in Lines::of(text) {
        number += 1;
        rest = add_edit(alloc, &mut edits, number, line, rest)?;
    }
    Ok(edits)
}

// Appends the edit of a line, if the line has tokens, and returns the pool after the line.
fn add_edit<'a>(
    alloc: Global,
    edits: &mut Vec<Line<'a>>,
    number: u64,
    line: &[u8],
    pool: &'a [u8],
) -> Result<&'a [u8], Failure<ScriptFault>>
    ensures added { Answers (λ _. edits.new.items) result (edit_of number (values_over pool.now (tokens_of line.now)) edits.old.items) }
    ensures following { IfOk result (λ rest. rest.now ≡ pool_after pool.now (tokens_of line.now)) }
{
    let mut cursor = Cursor::of(line, pool);
    if cursor.is_empty() {
        return Ok(pool);
    }
    match edit(alloc, &mut cursor) {
        Ok(edit) => edits.push(Line { number, edit })?,
        Err(Failure::Fault(fault)) => return Err(fault.on_line(number).into()),
        Err(Failure::OutOfMemory) => return Err(Failure::OutOfMemory),
    }
    Ok(cursor.pool())
}
