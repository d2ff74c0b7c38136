//! The line of a waveform.
ghost use Rattle.std.specs.Prelude.{◌≡◌, ◌<◌, ◌≤◌, length, min};
ghost use Rattle.base_outputs.specs.Output.{Puts};
ghost use Rattle.show_zone_map.specs.Marks.{marks_text};
ghost use Rattle.show_sample.specs.Waves.{bar_marks, bar, wave};

use crate::columns::column;
use crate::extremes::{Extremes, height};
use base_outputs::Output;
use sample_view::Points;
use show_zone_map::marks::{number, put_marks, text};
use std::io::Write;

/// Writes the waveform of these points as the `points` of an SVG `polyline`, `width` units wide and 1024 units high:
/// from left to right the highest and the lowest of the points of each column. There are as many columns as units, or
/// as points if these are fewer; without points nothing is written.
///
/// It takes one pass over the points and allocates nothing.
pub fn put_wave<W: Write>(points: &Points<'_>, width: u32, output: &mut Output<'_, W>)
    ensures { Puts W.contents output.old output.new (wave points.now width) }
{
    let count = column_count(points.len(), width);
    for number in 0..count {
        put_bar(points, width, count, number, output);
    }
}

// The smaller of both.
fn column_count(points: usize, width: u32) -> u32
    ensures value { result ≡ min points width }
{
    points.min(width as usize) as u32
}

// Writes the ends of the line of a column.
fn put_bar<W: Write>(
    points: &Points<'_>,
    width: u32,
    count: u32,
    column_number: u32,
    output: &mut Output<'_, W>,
)
    requires number { column_number < count }
    requires inside { count ≤ length points.now }
    requires within { count ≤ width }
    ensures { Puts W.contents output.old output.new (bar points.now width count column_number) }
{
    let x = u64::from(column_number) * u64::from(width) / u64::from(count);
    put_line(x as u32, column(points, count, column_number), output);
}

fn put_line<W: Write>(x: u32, ends: Extremes, output: &mut Output<'_, W>)
    ensures { Puts W.contents output.old output.new (marks_text (bar_marks x ends)) }
{
    let marks = [
        number(x),
        text(b","),
        number(height(ends.high)),
        text(b" "),
        number(x),
        text(b","),
        number(height(ends.low)),
        text(b" "),
    ];
    put_marks(&marks, output);
}
