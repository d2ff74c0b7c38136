//! The line of text above a waveform.
ghost use Rattle.std.specs.Prelude.{◌≡◌, ◌*◌, ◌≤◌, length};
ghost use Rattle.base_outputs.specs.Output.{Puts};
ghost use Rattle.sf_base.specs.declared.limits.TheConstants.{POINTS};
ghost use Rattle.show_zone_map.specs.Marks.{marks_text};
ghost use Rattle.show_sample.specs.Facts.{line_marks, side_line, side_marks, note_name, octave_mark, root_key_marks};
ghost use Rattle.show_sample.specs.Facts.{key_marks, rate_marks, seconds_marks, length_marks, count_marks};
ghost use Rattle.show_sample.specs.Facts.{loop_ends_marks, loop_marks, facts};

use bank_parts::Sample;
use base_outputs::Output;
use show_zone_map::marks::{Mark, name, number, put_marks, text};
use std::io::Write;

/// The keys of an octave.
const OCTAVE: u8 = 12;

/// The highest key.
const HIGHEST: u8 = 127;

/// The distance of two rows.
const ROW: u32 = 300;

// Which side of a pair a row shows, or a sample alone.
#[derive(Clone, Copy)]
pub(crate) enum Side {
    Whole,
    Left,
    Right,
}

// Writes the line of text above a row.
pub(crate) fn put_facts<W: Write>(
    row: u32,
    side: Side,
    number: u32,
    sample: &Sample<'_>,
    output: &mut Output<'_, W>,
)
    requires row { row ≤ 1 }
    requires few { length sample.now.points ≤ POINTS }
    ensures { Puts W.contents output.old output.new (facts row side number sample.now) }
{
    let count = sample.points.len();
    put_line_start(row, output);
    put_side(side, number, sample.name.bytes(), output);
    put_key(sample.key, output);
    put_rate(sample.rate, output);
    put_length(count, sample.rate, output);
    put_count(count, output);
    put_loop(sample.looped, output);
}

fn put_line_start<W: Write>(row: u32, output: &mut Output<'_, W>)
    requires { row ≤ 1 }
    ensures { Puts W.contents output.old output.new (marks_text (line_marks row)) }
{
    let marks = [
        text(b"<text x='60' y='"),
        number(82 + ROW * row),
        text(b"'>"),
    ];
    put_marks(&marks, output);
}

// Writes the side of a pair, with the sample's number and name.
fn put_side<W: Write>(side: Side, sample: u32, sample_name: &[u8], output: &mut Output<'_, W>)
    ensures { Puts W.contents output.old output.new (marks_text (side_marks side sample sample_name.now)) }
{
    match side {
        Side::Whole => {}
        Side::Left => put_side_line(b"left, sample ", sample, sample_name, output),
        Side::Right => put_side_line(b"right, sample ", sample, sample_name, output),
    }
}

fn put_side_line<W: Write>(side: &[u8], sample: u32, sample_name: &[u8], output: &mut Output<'_, W>)
    ensures { Puts W.contents output.old output.new (marks_text (side_line side.now sample sample_name.now)) }
{
    let marks = [
        text(side),
        number(sample),
        text(b": "),
        name(sample_name),
        text(b", "),
    ];
    put_marks(&marks, output);
}

// Writes the root key, if there is one.
fn put_key<W: Write>(key: u8, output: &mut Output<'_, W>)
    ensures { Puts W.contents output.old output.new (marks_text (key_marks key)) }
{
    if key <= HIGHEST {
        put_root_key(key, output);
    } else {
        put_marks(&[text(b"no root key, rate ")], output);
    }
}

fn put_root_key<W: Write>(key: u8, output: &mut Output<'_, W>)
    ensures { Puts W.contents output.old output.new (marks_text (root_key_marks key)) }
{
    let marks = [
        text(b"root key "),
        number(u32::from(key)),
        text(b" ("),
        text(note_name(key % OCTAVE)),
        octave(key),
        text(b"), rate "),
    ];
    put_marks(&marks, output);
}

// The name of a key within its octave.
#[tactic(auto, unfolding(crate::specs::Facts::note_name))]
fn note_name(key: u8) -> &'static [u8]
    ensures { result.now ≡ note_name key }
{
    match key {
        0 => b"C",
        1 => b"C#",
        2 => b"D",
        3 => b"D#",
        4 => b"E",
        5 => b"F",
        6 => b"F#",
        7 => b"G",
        8 => b"G#",
        9 => b"A",
        10 => b"A#",
        _ => b"B",
    }
}

// The number of a key's octave, from -1 on.
#[tactic(auto, unfolding(crate::specs::Facts::octave_mark))]
fn octave<'a>(key: u8) -> Mark<'a>
    ensures { result ≡ octave_mark key }
{
    if key < OCTAVE {
        text(b"-1")
    } else {
        number(u32::from(key / OCTAVE - 1))
    }
}

fn put_rate<W: Write>(rate: u32, output: &mut Output<'_, W>)
    ensures { Puts W.contents output.old output.new (marks_text (rate_marks rate)) }
{
    let marks = [number(rate), text(b" Hz, ")];
    put_marks(&marks, output);
}

// Writes the length in seconds, unless the rate is 0.
fn put_length<W: Write>(count: usize, rate: u32, output: &mut Output<'_, W>)
    requires { count ≤ POINTS }
    ensures { Puts W.contents output.old output.new (marks_text (length_marks count rate)) }
{
    if rate != 0 {
        put_thousandths(count as u64 * 1000 / u64::from(rate), output);
    }
}

// Writes a number of thousandths of a second, in seconds.
fn put_thousandths<W: Write>(count: u64, output: &mut Output<'_, W>)
    requires { count ≤ 1000 * POINTS }
    ensures { Puts W.contents output.old output.new (marks_text (seconds_marks count)) }
{
    let marks = [
        text(b"length "),
        number((count / 1000) as u32),
        text(b"."),
        number((count / 100 % 10) as u32),
        number((count / 10 % 10) as u32),
        number((count % 10) as u32),
        text(b" s, "),
    ];
    put_marks(&marks, output);
}

fn put_count<W: Write>(count: usize, output: &mut Output<'_, W>)
    requires { count ≤ POINTS }
    ensures { Puts W.contents output.old output.new (marks_text (count_marks count)) }
{
    let marks = [text(b"points "), number(count as u32), text(b", ")];
    put_marks(&marks, output);
}

// Writes the ends of the loop, if there is one.
fn put_loop<W: Write>(looped: Option<(u32, u32)>, output: &mut Output<'_, W>)
    ensures { Puts W.contents output.old output.new (marks_text (loop_marks looped)) }
{
    match looped {
        Some((start, end)) => put_loop_ends(start, end, output),
        None => put_marks(&[text(b"no loop</text>\n")], output),
    }
}

fn put_loop_ends<W: Write>(start: u32, end: u32, output: &mut Output<'_, W>)
    ensures { Puts W.contents output.old output.new (marks_text (loop_ends_marks start end)) }
{
    let marks = [
        text(b"loop "),
        number(start),
        text(b" to "),
        number(end),
        text(b"</text>\n"),
    ];
    put_marks(&marks, output);
}
