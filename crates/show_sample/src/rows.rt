//! The row of a sample: its line of text, its waveform, and its seam below all rows.
ghost use Rattle.std.specs.Prelude.{◌≡◌, ◌<◌, ◌≤◌, length};
ghost use Rattle.base_outputs.specs.Output.{Puts};
ghost use Rattle.sf_base.specs.declared.limits.TheConstants.{POINTS};
ghost use Rattle.bank_parts.specs.Valid.{IsLoop};
ghost use Rattle.show_zone_map.specs.Marks.{marks_text};
ghost use Rattle.show_sample.specs.Rows.{top, scale_marks, wave_marks, position, end_lines, end_marks, join_marks};
ghost use Rattle.show_sample.specs.Rows.{seam_text, drawn, shapes, row_text};

use crate::facts::{Side, put_facts};
use crate::seams::{put_seam, side_count};
use crate::waves::put_wave;
use bank_parts::Sample;
use base_outputs::Output;
use sample_view::Points;
use show_zone_map::marks::{number, put_marks, text};
use std::io::Write;

/// The width of a waveform.
const WIDTH: u32 = 1280;

/// The units left of a waveform, and of the first seam.
const MARGIN: u32 = 60;

/// The distance of two rows.
pub(crate) const ROW: u32 = 300;

/// The distance of two seams.
const SEAM: u32 = 645;

// Writes the row of a sample.
pub(crate) fn put_row<W: Write>(
    rows: u32,
    row: u32,
    side: Side,
    number: u32,
    sample: &Sample<'_>,
    output: &mut Output<'_, W>,
)
    requires rows { rows ≤ 2 }
    requires row { row ≤ 1 }
    requires few { length sample.now.points ≤ POINTS }
    requires looped { IsLoop (length sample.now.points) sample.now.looped }
    ensures { Puts W.contents output.old output.new (row_text rows row side number sample.now) }
{
    put_facts(row, side, number, sample, output);
    put_shapes(rows, row, number, &sample.points, sample.looped, output);
}

// Writes the waveform and the seam of a sample, unless it is empty.
fn put_shapes<W: Write>(
    rows: u32,
    row: u32,
    sample: u32,
    points: &Points<'_>,
    looped: Option<(u32, u32)>,
    output: &mut Output<'_, W>,
)
    requires rows { rows ≤ 2 }
    requires row { row ≤ 1 }
    requires looped { IsLoop (length points.now) looped }
    ensures { Puts W.contents output.old output.new (shapes rows row sample points.now looped) }
{
    if points.len() > 0 {
        put_drawn(rows, row, sample, points, looped, output);
    }
}

// Writes the waveform and the seam of a sample with points.
fn put_drawn<W: Write>(
    rows: u32,
    row: u32,
    sample: u32,
    points: &Points<'_>,
    looped: Option<(u32, u32)>,
    output: &mut Output<'_, W>,
)
    requires rows { rows ≤ 2 }
    requires row { row ≤ 1 }
    requires some { 0 < length points.now }
    requires looped { IsLoop (length points.now) looped }
    ensures { Puts W.contents output.old output.new (drawn rows row sample points.now looped) }
{
    put_scale(row, output);
    put_wave_start(row, output);
    put_wave(points, WIDTH, output);
    put_ends(points.len(), looped, output);
    put_seam_of(rows, row, sample, points, looped, output);
}

// The top of a row.
fn top(row: u32) -> u32
    requires { row ≤ 2 }
    ensures value { result ≡ top row }
    ensures within { result ≤ 690 }
{
    90 + ROW * row
}

// Writes the scale beside a waveform.
fn put_scale<W: Write>(row: u32, output: &mut Output<'_, W>)
    requires { row ≤ 1 }
    ensures { Puts W.contents output.old output.new (marks_text (scale_marks row)) }
{
    let marks = [
        text(b"<text class='end' x='52' y='"),
        number(top(row)),
        text(b"'>32767</text><text class='end' x='52' y='"),
        number(top(row) + 128),
        text(b"'>0</text><text class='end' x='52' y='"),
        number(top(row) + 256),
        text(b"'>-32768</text>\n"),
    ];
    put_marks(&marks, output);
}

// Writes the lines behind a waveform.
fn put_wave_start<W: Write>(row: u32, output: &mut Output<'_, W>)
    requires { row ≤ 1 }
    ensures { Puts W.contents output.old output.new (marks_text (wave_marks row)) }
{
    let marks = [
        text(b"<g transform='translate(60 "),
        number(top(row)),
        text(
            b") scale(1 .25)'><path class='lines' d='M0 0H1280M0 512H1280M0 1024H1280'/>\n<polyline points='",
        ),
    ];
    put_marks(&marks, output);
}

// The horizontal position of a point among `count` points.
fn position(count: usize, point: u32) -> u32
    requires some { 0 < count }
    requires inside { point ≤ count }
    ensures { result ≡ position count point }
{
    (u64::from(point) * u64::from(WIDTH) / count as u64) as u32
}

// Writes the lines at the ends of the loop, if there is one.
fn put_ends<W: Write>(count: usize, looped: Option<(u32, u32)>, output: &mut Output<'_, W>)
    requires some { 0 < count }
    requires looped { IsLoop count looped }
    ensures { Puts W.contents output.old output.new (marks_text (end_marks count looped)) }
{
    match looped {
        Some((start, end)) => {
            put_end_lines(position(count, start), position(count, end), output);
        }
        None => put_marks(&[text(b"'/></g>\n")], output),
    }
}

fn put_end_lines<W: Write>(start: u32, end: u32, output: &mut Output<'_, W>)
    ensures { Puts W.contents output.old output.new (marks_text (end_lines start end)) }
{
    let marks = [
        text(b"'/>\n<path class='loop' d='M"),
        number(start),
        text(b" 0V1024M"),
        number(end),
        text(b" 0V1024'/></g>\n"),
    ];
    put_marks(&marks, output);
}

// ---- the seam

// Writes the seam of the loop, if there is one.
fn put_seam_of<W: Write>(
    rows: u32,
    row: u32,
    sample: u32,
    points: &Points<'_>,
    looped: Option<(u32, u32)>,
    output: &mut Output<'_, W>,
)
    requires rows { rows ≤ 2 }
    requires row { row ≤ 1 }
    requires looped { IsLoop (length points.now) looped }
    ensures { Puts W.contents output.old output.new (seam_text rows row sample points.now looped) }
{
    if let Some(looped) = looped {
        put_join(rows, row, sample, side_count(looped), output);
        put_seam(points, looped, output);
        output.put(b"'/></g>\n");
    }
}

// Writes the lines behind a seam, and a line at the join.
fn put_join<W: Write>(rows: u32, row: u32, sample: u32, count: u32, output: &mut Output<'_, W>)
    requires rows { rows ≤ 2 }
    requires row { row ≤ 1 }
    ensures { Puts W.contents output.old output.new (marks_text (join_marks rows row sample count)) }
{
    let left = MARGIN + SEAM * row;
    let marks = [
        text(b"<text x='"),
        number(left),
        text(b"' y='"),
        number(82 + ROW * rows),
        text(b"'>sample "),
        number(sample),
        text(b": the last and the first points of the loop, "),
        number(count),
        text(b" of each</text>\n<g transform='translate("),
        number(left),
        text(b" "),
        number(top(rows)),
        text(b") scale(1 .25)'><path class='lines' d='M0 0H635M0 512H635M0 1024H635'/>\n"),
        text(b"<path class='join' d='M317.5 0V1024'/>\n<polyline class='seam' points='"),
    ];
    put_marks(&marks, output);
}
