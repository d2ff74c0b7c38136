//! A picture of a sample.
ghost use Rattle.std.specs.Prelude.{◌≡◌, ◌≤◌, Some, None};
ghost use Rattle.base_outputs.specs.Output.{Puts};
ghost use Rattle.show_zone_map.specs.Marks.{marks_text};
ghost use Rattle.show_sample.specs.Picture.{size_marks, style, title_marks, name_of, row_of, head, rows_text};
ghost use Rattle.show_sample.specs.Picture.{sample_picture};

use crate::facts::Side;
use crate::pairs::sides_of;
use crate::rows::{ROW, put_row};
use bank_core::Bank;
use base_outputs::Output;
use base_texts::Text;
use show_zone_map::marks::{name, number, put_marks, text};
use std::io::Write;

/// Colours that colour-blind readers can distinguish on white and on black.
const STYLE: &[u8] = b"<style>
:root{color:#111;background:#fff}
text{fill:currentColor}
.owner{font-size:20px}
.end{text-anchor:end;dominant-baseline:central}
.lines{stroke:currentColor;stroke-opacity:.15}
path,polyline{fill:none;vector-effect:non-scaling-stroke}
polyline{stroke:#0072b2;stroke-linejoin:round;stroke-linecap:round}
.loop{stroke:#d55e00;stroke-width:2}
.join{stroke:#d55e00}
.seam{stroke-width:2}
@media (prefers-color-scheme:dark){:root{color:#eee;background:#161616}polyline{stroke:#56b4e9}}
</style>
";

/// The height of a picture without rows.
const HEIGHT: u32 = 380;

/// An SVG picture of a sample: its waveform, its loop, and the seam of the loop.
///
/// Each column of the waveform goes from the highest to the lowest of its points; lines mark the ends of the loop. Below
/// are the last 64 points of the loop, joined to its first 64, so that a click is seen. A left and a right sample that
/// are linked to each other are shown together, the left one above. A line of text above each waveform has the root key,
/// the rate, the length, the number of points and the loop.
///
/// If the sample doesn't exist, the picture is empty.
#[derive(Clone, Copy)]
pub struct SamplePicture<'t, 'a> {
    pub bank: &'t Bank<'a>,
    pub sample: u32,
}

impl Text for SamplePicture<'_, '_> {
    ghost bytes = { λ picture. sample_picture picture.bank.now picture.sample };

    fn put<W: Write>(&self, output: &mut Output<'_, W>) {
        match sides_of(self.bank, self.sample) {
            Some((left, right)) => put_pair(self.bank, self.sample, left, right, output),
            None => put_single(self.bank, self.sample, output),
        }
    }
}

// Writes a picture with one row.
fn put_single<W: Write>(bank: &Bank<'_>, sample: u32, output: &mut Output<'_, W>)
    ensures { Puts W.contents output.old output.new (rows_text bank.now sample None) }
{
    put_head(bank, sample, 1, output);
    put_row_of(bank, 1, 0, Side::Whole, sample, output);
    output.put(b"</svg>\n");
}

// Writes a picture with the rows of a left and a right sample.
fn put_pair<W: Write>(
    bank: &Bank<'_>,
    sample: u32,
    left: u32,
    right: u32,
    output: &mut Output<'_, W>,
)
    ensures { Puts W.contents output.old output.new (rows_text bank.now sample (Some (left, right))) }
{
    put_head(bank, sample, 2, output);
    put_row_of(bank, 2, 0, Side::Left, left, output);
    put_row_of(bank, 2, 1, Side::Right, right, output);
    output.put(b"</svg>\n");
}

// ---- the head

// Writes the size of the picture, its colours and its title.
fn put_head<W: Write>(bank: &Bank<'_>, sample: u32, rows: u32, output: &mut Output<'_, W>)
    requires { rows ≤ 2 }
    ensures { Puts W.contents output.old output.new (head bank.now sample rows) }
{
    put_size(rows, output);
    put_style(output);
    put_title(sample, name_of(bank, sample), output);
}

fn put_size<W: Write>(rows: u32, output: &mut Output<'_, W>)
    requires { rows ≤ 2 }
    ensures { Puts W.contents output.old output.new (marks_text (size_marks rows)) }
{
    let marks = [
        text(b"<svg xmlns='http://www.w3.org/2000/svg' viewBox='0 0 1400 "),
        number(HEIGHT + ROW * rows),
        text(b"' font-family='sans-serif' font-size='11'>\n"),
    ];
    put_marks(&marks, output);
}

fn put_style<W: Write>(output: &mut Output<'_, W>)
    ensures { Puts W.contents output.old output.new style }
{
    output.put(STYLE);
}

fn put_title<W: Write>(sample: u32, sample_name: &[u8], output: &mut Output<'_, W>)
    ensures { Puts W.contents output.old output.new (marks_text (title_marks sample sample_name.now)) }
{
    let marks = [
        text(b"<text class='owner' x='60' y='36'>sample "),
        number(sample),
        text(b": "),
        name(sample_name),
        text(b"</text>\n"),
    ];
    put_marks(&marks, output);
}

fn name_of<'b>(bank: &'b Bank<'_>, sample: u32) -> &'b [u8]
    ensures { result.now ≡ name_of bank.now sample }
{
    match bank.sample(sample) {
        Some(found) => found.name.bytes(),
        None => b"",
    }
}

// ---- a row

// Writes the row of a sample, if it exists.
fn put_row_of<W: Write>(
    bank: &Bank<'_>,
    rows: u32,
    row: u32,
    side: Side,
    sample: u32,
    output: &mut Output<'_, W>,
)
    requires rows { rows ≤ 2 }
    requires row { row ≤ 1 }
    ensures { Puts W.contents output.old output.new (row_of bank.now rows row side sample) }
{
    bank.soundness();
    if let Some(found) = bank.sample(sample) {
        put_row(rows, row, side, sample, found, output);
    }
}
