//! The table of the generators, in columns.
ghost use Rattle.std.specs.Prelude.{◌≡◌, ◌≤◌, flat_map};
ghost use Rattle.base_outputs.specs.Output.{Puts};
ghost use Rattle.program_explanations.specs.GeneratorTable.{padded, default_text, yes_or_no, row_text, table_text};

use crate::explanations::put_line;
use base_outputs::Output;
use base_texts::Text;
use generator_rows::{DefaultAmount, GeneratorRow, usable_generators};
use itoa::Buffer;
use std::io::Write;

/// The table of the generators that a script can set or that have an edit of their own: number, name, unit, range and
/// default of each, and whether it is played.
#[derive(Clone, Copy)]
pub struct GeneratorTable;

/// The first line of the table.
pub(crate) const HEADING: &str =
    "number  name                        unit             range          default  played";

/// The width of the column of numbers.
pub(crate) const NUMBER_WIDTH: usize = 8;

/// The width of the column of names, the widest.
pub(crate) const NAME_WIDTH: usize = 28;

/// The width of the column of units.
pub(crate) const UNIT_WIDTH: usize = 17;

/// The width of the column of ranges.
pub(crate) const RANGE_WIDTH: usize = 15;

/// The width of the column of defaults.
pub(crate) const DEFAULT_WIDTH: usize = 9;

/// The blanks of an empty cell of the widest column.
pub(crate) static BLANKS: [u8; NAME_WIDTH] = [b' '; NAME_WIDTH];

/// A heading, and a line for each generator.
impl Text for GeneratorTable {
    ghost bytes = { λ _. table_text };

    fn put<W: Write>(&self, output: &mut Output<'_, W>) {
        put_line(HEADING, output);
        put_rows(usable_generators(), output);
    }
}

/// Puts a line for each row into `output`.
fn put_rows<W: Write>(rows: &[GeneratorRow], output: &mut Output<'_, W>)
    ensures { Puts W.contents output.old output.new (flat_map row_text rows.now) }
{
    for row in rows {
        put_row(row, output);
    }
}

/// Puts the line of a row into `output`.
fn put_row<W: Write>(row: &GeneratorRow, output: &mut Output<'_, W>)
    ensures { Puts W.contents output.old output.new (row_text row.now) }
{
    let mut digits = Buffer::new();
    put_padded(digits.format(row.number).as_bytes(), NUMBER_WIDTH, output);
    put_padded(&row.name, NAME_WIDTH, output);
    put_padded(row.unit.name().as_bytes(), UNIT_WIDTH, output);
    put_padded(&row.range, RANGE_WIDTH, output);
    put_default(row.default, output);
    put_line(yes_or_no(row.is_played), output);
}

/// Puts the cell of a default into `output`.
fn put_default<W: Write>(default: DefaultAmount, output: &mut Output<'_, W>)
    ensures { Puts W.contents output.old output.new (padded DEFAULT_WIDTH (default_text default)) }
{
    match default {
        DefaultAmount::Number(amount) => {
            let mut digits = Buffer::new();
            put_padded(digits.format(amount).as_bytes(), DEFAULT_WIDTH, output);
        }
        DefaultAmount::WholeRange => put_padded(b"0..127", DEFAULT_WIDTH, output),
        DefaultAmount::Nothing => put_padded(b"none", DEFAULT_WIDTH, output),
    }
}

/// Returns whether something holds, in a word.
fn yes_or_no(holds: bool) -> &'static str
    ensures { result.now ≡ yes_or_no holds }
{
    if holds { "yes" } else { "no" }
}

/// Puts a text into `output`, and blanks up to this width.
#[tactic(auto, using(base_outputs::proofs::OutputLaws::puts_then))]
fn put_padded<W: Write>(text: &[u8], width: usize, output: &mut Output<'_, W>)
    requires { width ≤ NAME_WIDTH }
    ensures { Puts W.contents output.old output.new (padded width text.now) }
{
    output.put(text);
    output.put(&BLANKS[..width.saturating_sub(text.len())]);
}
