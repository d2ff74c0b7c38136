//! The text of one rectangle. Keys run from left to right, 10 units each, and velocities from bottom to top, 4 units
//! each.
ghost use Rattle.std.specs.Prelude.{◌≡◌, ◌≤◌, length, slice_get};
ghost use Rattle.base_outputs.specs.Output.{Puts};
ghost use Rattle.generators.specs.declared.range.Range.{Range};
ghost use Rattle.show_zone_map.specs.Marks.{marks_text};
ghost use Rattle.show_zone_map.specs.Picture.{count, left, top, width, height, colour, name_of, kind_of, title_marks, preset_zone_marks, range_marks, box_marks, line_of_two, line_of_four, side_line, label_line, horizontal_marks, vertical_marks, is_wide, is_high, is_small, has_horizontal_number, number_marks, label_marks, root_marks, drawn};

use crate::marks::{Mark, name, number, put_marks, text};
use crate::rectangle::Rectangle;
use bank_core::Bank;
use bank_parts::Kind;
use base_outputs::Output;
use generators::Range;
use std::io::Write;

/// The width of a key.
const KEY: u32 = 10;

/// The height of a velocity.
const VELOCITY: u32 = 4;

/// The units left of key 0, and above velocity 127.
const MARGIN: u32 = 60;

/// The width from which a rectangle has a horizontal name.
const NAME_LENGTH: u32 = 120;

/// The width from which it has a horizontal number: that of four digits.
const NUMBER_LENGTH: u32 = 20;

/// The height of four lines of names.
const NAME_HEIGHT: u32 = 24;

/// The height from which numbers of three digits, also vertical ones, have space on four lines.
const FOUR_LINES: u32 = 80;

/// The height from which a rectangle has a vertical name.
const TURNED_LENGTH: u32 = 160;

/// The halves of a rectangle.
const UPPER: u32 = 0;

const LOWER: u32 = 1;

// The number of values in a range.
fn count(range: Range) -> u32
    ensures value { result ≡ count range }
    ensures within { result ≤ 256 }
{
    (u32::from(range.high) + 1).saturating_sub(u32::from(range.low))
}

impl Rectangle {
    fn left(&self) -> u32
        ensures { result ≡ left self.now }
    {
        MARGIN + KEY * u32::from(self.area.keys.low)
    }

    fn top(&self) -> u32
        ensures { result ≡ top self.now }
    {
        MARGIN + VELOCITY * 127u32.saturating_sub(u32::from(self.area.velocities.high))
    }

    fn width(&self) -> u32
        ensures { result ≡ width self.now }
    {
        KEY * count(self.area.keys)
    }

    fn height(&self) -> u32
        ensures value { result ≡ height self.now }
        ensures within { result ≤ 1024 }
    {
        VELOCITY * count(self.area.velocities)
    }

    // The vertical position of the label, by the kind of its sample.
    fn label_line(&self, kind: Kind) -> u32
        ensures { result ≡ label_line kind self.now }
    {
        match kind {
            Kind::Left(_) => self.side_line(UPPER),
            Kind::Right(_) => self.side_line(LOWER),
            Kind::Mono | Kind::Linked(_) => self.line_of_four(self.zone % 2),
        }
    }

    // The vertical position of a label in one half.
    fn side_line(&self, half: u32) -> u32
        requires { half ≤ LOWER }
        ensures { result ≡ side_line half self.now }
    {
        if self.height() < FOUR_LINES {
            self.height() * (1 + 2 * half) / 4
        } else {
            self.line_of_four(half)
        }
    }

    // The same, on one of two lines in each half.
    fn line_of_four(&self, half: u32) -> u32
        requires { half ≤ LOWER }
        ensures { result ≡ line_of_four half self.now }
    {
        let layer = self.preset_zone.unwrap_or(0) % 2;
        let line = 2 * half + (layer + self.zone / 2 % 2) % 2;
        self.height() * (1 + line) / 5
    }

    // Whether a horizontal name has space.
    fn is_wide(&self) -> bool
        ensures { result ≡ is_wide self.now }
    {
        self.width() >= NAME_LENGTH && self.height() >= NAME_HEIGHT
    }

    // Whether a vertical name has space.
    fn is_high(&self) -> bool
        ensures { result ≡ is_high self.now }
    {
        self.height() >= TURNED_LENGTH
    }

    // Whether a number is horizontal.
    fn has_horizontal_number(&self) -> bool
        ensures { result ≡ has_horizontal_number self.now }
    {
        self.width() >= NUMBER_LENGTH || self.height() <= self.width()
    }

    // Whether no name has space.
    pub(crate) fn is_small(&self) -> bool
        ensures { result ≡ is_small self.now }
    {
        !(self.is_wide() || self.is_high())
    }
}

// The index of one of seven colours.
pub(crate) fn colour(sample: u16) -> u32
    ensures value { result ≡ colour sample }
    ensures within { result ≤ 6 }
{
    u32::from(sample) % 7
}

// The name of a sample; empty if there is no such sample.
pub(crate) fn name_of<'b>(bank: &'b Bank<'_>, sample: u16) -> &'b [u8]
    ensures { result.now ≡ name_of bank.now sample }
{
    match bank.sample(u32::from(sample)) {
        Some(sample) => sample.name.bytes(),
        None => b"",
    }
}

// The kind of a sample; mono if there is no such sample.
fn kind_of(bank: &Bank<'_>, sample: u16) -> Kind
    ensures { result ≡ kind_of bank.now sample }
{
    match bank.sample(u32::from(sample)) {
        Some(sample) => sample.kind,
        None => Kind::Mono,
    }
}

// Writes a rectangle, with its tooltip.
pub(crate) fn put_rectangle<W: Write>(
    bank: &Bank<'_>,
    rectangle: &Rectangle,
    output: &mut Output<'_, W>,
)
    ensures { Puts W.contents output.old output.new (drawn bank.now rectangle.now) }
{
    let name = name_of(bank, rectangle.sample);
    let line = rectangle.label_line(kind_of(bank, rectangle.sample));
    put_title(name, rectangle, output);
    put_preset_zone(rectangle.preset_zone, output);
    put_ranges(rectangle, output);
    put_box(rectangle, output);
    put_label(name, line, rectangle, output);
    put_root(rectangle, output);
}

#[tactic(auto, unfolding(crate::specs::Picture::title_marks))]
fn put_title<W: Write>(sample: &[u8], rectangle: &Rectangle, output: &mut Output<'_, W>)
    ensures { Puts W.contents output.old output.new (marks_text (title_marks sample.now rectangle.now)) }
{
    let marks = [
        text(b"<g class='c"),
        number(colour(rectangle.sample)),
        text(b"'><title>"),
        name(sample),
        text(b"\nsample "),
        number(u32::from(rectangle.sample)),
    ];
    put_marks(&marks, output);
}

fn put_preset_zone<W: Write>(zone: Option<u32>, output: &mut Output<'_, W>)
    ensures { Puts W.contents output.old output.new (marks_text (preset_zone_marks zone)) }
{
    if let Some(zone) = zone {
        let marks = [text(b"\npreset zone "), number(zone)];
        put_marks(&marks, output);
    }
}

#[tactic(auto, unfolding(crate::specs::Picture::range_marks))]
fn put_ranges<W: Write>(rectangle: &Rectangle, output: &mut Output<'_, W>)
    ensures { Puts W.contents output.old output.new (marks_text (range_marks rectangle.now)) }
{
    let area = rectangle.area;
    let marks = [
        text(b"\ninstrument zone "),
        number(rectangle.zone),
        text(b"\nkeys "),
        number(u32::from(area.keys.low)),
        text(b" to "),
        number(u32::from(area.keys.high)),
        text(b"\nvelocities "),
        number(u32::from(area.velocities.low)),
        text(b" to "),
        number(u32::from(area.velocities.high)),
        text(b"\nroot key "),
        number(u32::from(rectangle.root)),
    ];
    put_marks(&marks, output);
}

#[tactic(auto, unfolding(crate::specs::Picture::box_marks))]
fn put_box<W: Write>(rectangle: &Rectangle, output: &mut Output<'_, W>)
    ensures { Puts W.contents output.old output.new (marks_text (box_marks rectangle.now)) }
{
    let marks = [
        text(b"</title><svg x='"),
        number(rectangle.left()),
        text(b"' y='"),
        number(rectangle.top()),
        text(b"' width='"),
        number(rectangle.width()),
        text(b"' height='"),
        number(rectangle.height()),
        text(b"'><rect width='100%' height='100%'/>"),
    ];
    put_marks(&marks, output);
}

// Writes the name of the sample if it has space, else the sample's number.
#[tactic(auto, unfolding(crate::specs::Picture::label_marks))]
fn put_label<W: Write>(sample: &[u8], line: u32, rectangle: &Rectangle, output: &mut Output<'_, W>)
    ensures { Puts W.contents output.old output.new (marks_text (label_marks sample.now line rectangle.now)) }
{
    if rectangle.is_wide() {
        put_horizontal(name(sample), line, output);
    } else if rectangle.is_high() {
        put_vertical(name(sample), line, rectangle, output);
    } else {
        put_number(line, rectangle, output);
    }
}

// Writes the sample's number, horizontally if it has space or the rectangle isn't higher than wide.
fn put_number<W: Write>(line: u32, rectangle: &Rectangle, output: &mut Output<'_, W>)
    ensures { Puts W.contents output.old output.new (marks_text (number_marks line rectangle.now)) }
{
    let sample = number(u32::from(rectangle.sample));
    if rectangle.has_horizontal_number() {
        put_horizontal(sample, line, output);
    } else {
        put_vertical(sample, line, rectangle, output);
    }
}

fn put_horizontal<W: Write>(label: Mark<'_>, line: u32, output: &mut Output<'_, W>)
    ensures { Puts W.contents output.old output.new (marks_text (horizontal_marks label.entry line)) }
{
    let marks = [
        text(b"<text x='50%' y='"),
        number(line),
        text(b"'>"),
        label,
        text(b"</text>"),
    ];
    put_marks(&marks, output);
}

fn put_vertical<W: Write>(
    label: Mark<'_>,
    line: u32,
    rectangle: &Rectangle,
    output: &mut Output<'_, W>,
)
    ensures { Puts W.contents output.old output.new (marks_text (vertical_marks label.entry line rectangle.now)) }
{
    let marks = [
        text(b"<text transform='translate("),
        number(rectangle.width() / 2),
        text(b" "),
        number(line),
        text(b") rotate(-90)'>"),
        label,
        text(b"</text>"),
    ];
    put_marks(&marks, output);
}

// Writes a dot on the keyboard, in the colour of the rectangle.
#[tactic(auto, unfolding(crate::specs::Picture::root_marks))]
fn put_root<W: Write>(rectangle: &Rectangle, output: &mut Output<'_, W>)
    ensures { Puts W.contents output.old output.new (marks_text (root_marks rectangle.now)) }
{
    let marks = [
        text(b"</svg><circle cx='"),
        number(65 + KEY * u32::from(rectangle.root)),
        text(b"' cy='"),
        number(577 + 5 * colour(rectangle.sample)),
        text(b"' r='3'/></g>\n"),
    ];
    put_marks(&marks, output);
}
