//! The waveform of a sample.
ghost use Rattle.std.specs.Prelude.{◌≡◌, ◌<◌, length};
ghost use Rattle.base_outputs.specs.Output.{Puts};
ghost use Rattle.show_page.specs.Columns.{column_count, height_text, ends_text, column, columns};

use crate::json::put_hex;
use base_outputs::Output;
use sample_view::Points;
use show_sample::{Extremes, column, height};
use std::io::Write;

/// The most columns of a waveform.
const MOST_COLUMNS: usize = 128;

/// How many of 1024 heights one of 256 stands for.
const STEP: u32 = 4;

// Writes the waveform of these points, in one pass over them.
pub(crate) fn put_columns<W: Write>(points: &Points<'_>, output: &mut Output<'_, W>)
    ensures { Puts W.contents output.old output.new (columns points.now) }
{
    for number in 0..column_count(points) {
        put_column(points, number, output);
    }
}

// How many columns there are: 128, or as many as points.
fn column_count(points: &Points<'_>) -> u32
    ensures { result ≡ column_count points.now }
{
    points.len().min(MOST_COLUMNS) as u32
}

// Writes a column.
fn put_column<W: Write>(points: &Points<'_>, number: u32, output: &mut Output<'_, W>)
    requires { number < column_count points.now }
    ensures { Puts W.contents output.old output.new (column points.now number) }
{
    put_ends(column(points, column_count(points), number), output);
}

// Writes the heights of the highest and of the lowest point.
#[tactic(auto, using(base_outputs::proofs::OutputLaws::puts_then))]
fn put_ends<W: Write>(ends: Extremes, output: &mut Output<'_, W>)
    ensures { Puts W.contents output.old output.new (ends_text ends) }
{
    put_height(ends.high, output);
    put_height(ends.low, output);
}

// Writes the height of a value.
fn put_height<W: Write>(value: i16, output: &mut Output<'_, W>)
    ensures { Puts W.contents output.old output.new (height_text value) }
{
    put_hex((height(value) / STEP) as u8, output);
}
