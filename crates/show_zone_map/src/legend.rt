//! The legend of a picture: the numbers and names of samples whose rectangles have no space for a name.
ghost use Rattle.std.specs.Prelude.{◌≡◌, ◌<◌, ◌≤◌, [], ◌∷◌, length};
ghost use Rattle.std.specs.List.{cons_option};
ghost use Rattle.base_outputs.specs.Output.{Puts};
ghost use Rattle.bank_changes.specs.declared.members.Owner.TheVariants as owner;
ghost use Rattle.zone_select.specs.Remaining.{zones_in};
ghost use Rattle.show_zone_map.specs.Marks.{marks_text};
ghost use Rattle.show_zone_map.specs.Rectangles.{rectangles, rectangle_at, rectangles_in, rectangles_of_zone};
ghost use Rattle.show_zone_map.specs.Picture.{picture_height, small_samples, legend_samples, with_samples, entry_marks, legend_text};

use crate::marks::{name, number, put_marks, text};
use crate::rectangle::{Area, Rectangle, area_of, rectangle_at};
use crate::sample_set::SampleSet;
use crate::shapes::{colour, name_of};
use arrayvec::ArrayVec;
use bank_core::{Bank, Owner};
use base_outputs::Output;
use std::io::Write;
use std::marker::Model;
use zone_select::zones_in;

/// The most entries of a legend.
const MOST: usize = 1024;

/// The entries on a line.
const COLUMNS: u32 = 8;

/// The width of an entry.
const WIDTH: u32 = 160;

/// The height of a line.
const HEIGHT: u32 = 16;

/// The height of a picture without a legend.
const TOP: u32 = 640;

// The height of a picture whose legend has this many entries.
pub(crate) fn picture_height(entries: u32) -> u32
    requires { entries ≤ MOST }
    ensures { result ≡ picture_height entries }
{
    TOP + HEIGHT * ((entries + 7) / COLUMNS)
}

// ---- found

// The samples that a legend names, in order.
#[derive(Drop)]
pub(crate) struct Legend {
    samples: ArrayVec<u16, MOST>,
    // The same samples.
    named: SampleSet,
}

impl Model for Legend {
    ghost use Rattle.std.specs.Prelude.{◌≡◌, ℕ, ◌^◌, ◌<◌, ◌==◌, List};
    ghost use Rattle.std.specs.List.{list_any};
    ghost use Rattle.show_zone_map.specs.Samples.{has_sample};

    ghost Value = { List ℕ };

    ghost view = { λ legend. legend.samples.items };

    ghost invariant = { λ legend. (s : ℕ) → s < 2 ^ 16
        → has_sample legend.named.words s ≡ list_any (λ t. s == t) legend.samples.items };
}

impl Legend {
    fn new() -> Legend
        ensures { result ≡ [] }
    {
        Legend {
            samples: ArrayVec::new(),
            named: SampleSet::new(),
        }
    }

    // Adds a sample, unless the legend names it or is full.
    fn add(&mut self, sample: u16)
        requires { length self.old ≤ MOST }
        ensures { self.new ≡ with_samples self.old (sample ∷ []) }
    {
        if self.named.contains(sample) || self.samples.is_full() {
            return;
        }
        self.named.insert(sample);
        self.samples.push(sample);
    }

    pub(crate) fn samples(&self) -> &[u16]
        ensures { result.now ≡ self.now }
    {
        &self.samples
    }
}

// The legend of an owner's picture.
#[tactic(auto, unfolding(crate::specs::Rectangles::rectangles))]
pub(crate) fn legend_of(bank: &Bank<'_>, owner: Owner) -> Legend
    ensures { result ≡ legend_samples (rectangles bank.now owner) }
{
    let mut legend = Legend::new();
    match owner {
        Owner::Preset(preset) => add_preset(bank, preset, &mut legend),
        Owner::Inst(instrument) => {
            add_instrument(bank, None, Area::everything(), instrument, &mut legend);
        }
    }
    legend
}

fn add_preset(bank: &Bank<'_>, preset: u32, legend: &mut Legend)
    requires { length legend.old ≤ MOST }
    ensures { legend.new ≡ with_samples legend.old (small_samples (rectangles bank.now (owner.Preset preset))) }
{
    let owner = Owner::Preset(preset);
    for zone in 0..zones_in(bank, owner) {
        add_preset_zone(bank, preset, zone, legend);
    }
}

fn add_preset_zone(bank: &Bank<'_>, preset: u32, zone: u32, legend: &mut Legend)
    requires zone { zone < zones_in bank.now (owner.Preset preset) }
    requires within { length legend.old ≤ MOST }
    ensures { legend.new ≡ with_samples legend.old (small_samples (rectangles_of_zone bank.now preset zone)) }
{
    let owner = Owner::Preset(preset);
    if let Some(instrument) = bank.target(owner, zone) {
        let area = area_of(bank, owner, zone);
        add_instrument(bank, Some(zone), area, u32::from(instrument), legend);
    }
}

// Adds the samples of an instrument's zones within an area.
fn add_instrument(
    bank: &Bank<'_>,
    preset_zone: Option<u32>,
    area: Area,
    instrument: u32,
    legend: &mut Legend,
)
    requires { length legend.old ≤ MOST }
    ensures { legend.new ≡ with_samples legend.old (small_samples (rectangles_in bank.now preset_zone area instrument)) }
{
    for zone in 0..zones_in(bank, Owner::Inst(instrument)) {
        let rectangle = rectangle_at(bank, preset_zone, area, instrument, zone);
        add_rectangle(rectangle, legend);
    }
}

// Adds the sample of a rectangle, if there is one and it has no space for a name.
fn add_rectangle(rectangle: Option<Rectangle>, legend: &mut Legend)
    requires { length legend.old ≤ MOST }
    ensures { legend.new ≡ with_samples legend.old (small_samples (cons_option rectangle [])) }
{
    if let Some(rectangle) = rectangle {
        if rectangle.is_small() {
            legend.add(rectangle.sample);
        }
    }
}

// ---- written

// Writes the legend of these samples.
pub(crate) fn put_legend<W: Write>(bank: &Bank<'_>, samples: &[u16], output: &mut Output<'_, W>)
    requires { length samples.now ≤ MOST }
    ensures { Puts W.contents output.old output.new (legend_text bank.now samples.now) }
{
    for (entry, sample) in samples.iter().enumerate() {
        put_entry(name_of(bank, *sample), entry as u32, *sample, output);
    }
}

fn put_entry<W: Write>(sample_name: &[u8], entry: u32, sample: u16, output: &mut Output<'_, W>)
    requires { entry < MOST }
    ensures { Puts W.contents output.old output.new (marks_text (entry_marks sample_name.now entry sample)) }
{
    let left = WIDTH * (entry % COLUMNS);
    let top = HEIGHT * (entry / COLUMNS);
    let marks = [
        text(b"<g class='c"),
        number(colour(sample)),
        text(b"'><circle cx='"),
        number(64 + left),
        text(b"' cy='"),
        number(648 + top),
        text(b"' r='3'/></g><text x='"),
        number(72 + left),
        text(b"' y='"),
        number(652 + top),
        text(b"'>"),
        number(u32::from(sample)),
        text(b" "),
        name(sample_name),
        text(b"</text>\n"),
    ];
    put_marks(&marks, output);
}
