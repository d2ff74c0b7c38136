//! The picture of the zones of a preset or an instrument.
ghost use Rattle.std.specs.Prelude.{◌≡◌, ◌<◌, ◌≤◌, []};
ghost use Rattle.std.specs.List.{flat_map, cons_option};
ghost use Rattle.base_outputs.specs.Output.{Puts};
ghost use Rattle.bank_changes.specs.declared.members.Owner.TheVariants as owner;
ghost use Rattle.zone_select.specs.Remaining.{zones_in};
ghost use Rattle.show_zone_map.specs.Marks.{marks_text};
ghost use Rattle.show_zone_map.specs.Rectangles.{rectangles, rectangle_at, rectangles_in, rectangles_of_zone};
ghost use Rattle.show_zone_map.specs.Picture.{size_marks, head, frame, owner_line, owner_marks, drawn, picture};

use crate::legend::{legend_of, picture_height, put_legend};
use crate::marks::{name, number, put_marks, text};
use crate::rectangle::{Area, area_of, rectangle_at};
use crate::shapes::put_rectangle;
use bank_core::{Bank, Owner};
use base_outputs::Output;
use base_texts::Text;
use std::io::Write;
use zone_select::zones_in;

/// Colours that colour-blind readers can distinguish on white and on black, and the start of the title.
const HEAD: &[u8] = b"<style>
:root{color:#111;background:#fff}
text{fill:currentColor}
.owner{font-size:20px}
.end{text-anchor:end;dominant-baseline:central}
.lines{stroke:currentColor;stroke-opacity:.15}
g rect{fill:currentColor;fill-opacity:.3;stroke:currentColor;stroke-width:2}
g circle{fill:currentColor;stroke:#111}
g text{fill:#111;font-size:9px;text-anchor:middle;dominant-baseline:central}
g:hover rect{fill-opacity:.7}
.c0{color:#e69f00}.c1{color:#56b4e9}.c2{color:#009e73}.c3{color:#f0e442}
.c4{color:#0072b2}.c5{color:#d55e00}.c6{color:#cc79a7}
@media (prefers-color-scheme:dark){:root{color:#eee;background:#161616}g text{fill:#eee}}
</style>
<text class='owner' x='60' y='36'>";

/// Grid lines at octaves and velocities with their numbers, and a keyboard, on which key 60 is C4.
const FRAME: &[u8] =
    b"<path class='lines' d='M60 60H1340M60 188H1340M60 316H1340M60 444H1340M60 572H1340'/>
<path class='lines' d='M60 60V572M180 60V572M300 60V572M420 60V572M540 60V572M660 60V572'/>
<path class='lines' d='M780 60V572M900 60V572M1020 60V572M1140 60V572M1260 60V572M1340 60V572'/>
<text class='end' x='52' y='62'>127</text><text class='end' x='52' y='186'>96</text>
<text class='end' x='52' y='314'>64</text><text class='end' x='52' y='442'>32</text>
<text class='end' x='52' y='570'>0</text>
<pattern id='octave' x='60' y='572' width='120' height='40' patternUnits='userSpaceOnUse'>
<path fill='#fff' d='M0 0H120V40H0z'/>
<path stroke='#888' d='M15 26V40M35 26V40M50 0V40M65 26V40M85 26V40M105 26V40M120 0V40M0 40H120'/>
<path fill='#333' d='M10 0h10v26h-10zM30 0h10v26h-10zM60 0h10v26h-10zM80 0h10v26h-10zM100 0h10v26h-10z'/>
</pattern><path fill='url(#octave)' d='M60 572H1340V612H60z'/>
<text x='62' y='628'>C-1</text><text x='182' y='628'>C0</text><text x='302' y='628'>C1</text>
<text x='422' y='628'>C2</text><text x='542' y='628'>C3</text><text x='662' y='628'>C4</text>
<text x='782' y='628'>C5</text><text x='902' y='628'>C6</text><text x='1022' y='628'>C7</text>
<text x='1142' y='628'>C8</text><text x='1262' y='628'>C9</text>
";

/// An SVG picture of the keys and velocities for which notes select the zones of a preset or an instrument.
///
/// Keys run from left to right, over a keyboard on which key 60 is C4, and velocities from bottom to top. An instrument
/// has a rectangle for each zone: its own ranges, else its global zone's, else 0 to 127. A preset has one for each of
/// its zones with each zone of its instrument: the intersection of their ranges. A rectangle's colour depends on the
/// number of its sample; a dot in that colour marks the root key; the tooltip has all numbers. A left sample's label is in
/// the upper half of its rectangle, and a right sample's in the lower half. A rectangle without space for its sample's
/// name has the sample's number. A legend below the keyboard has the numbers and names of the samples of such rectangles,
/// each once, in the order of their first ones; at most 1,024.
///
/// If the owner doesn't exist, the picture is empty.
#[derive(Clone, Copy)]
pub struct ZoneMap<'t, 'a> {
    pub bank: &'t Bank<'a>,
    pub owner: Owner,
}

impl Text for ZoneMap<'_, '_> {
    ghost bytes = { λ map. picture map.bank.now map.owner };

    fn put<W: Write>(&self, output: &mut Output<'_, W>) {
        let legend = legend_of(self.bank, self.owner);
        let samples = legend.samples();
        put_size(samples.len() as u32, output);
        put_head(output);
        put_owner(self.bank, self.owner, output);
        put_frame(output);
        put_rectangles(self.bank, self.owner, output);
        put_legend(self.bank, samples, output);
        output.put(b"</svg>\n");
    }
}

// Writes the size of a picture whose legend has this many entries.
fn put_size<W: Write>(entries: u32, output: &mut Output<'_, W>)
    requires { entries ≤ 1024 }
    ensures { Puts W.contents output.old output.new (marks_text (size_marks entries)) }
{
    let marks = [
        text(b"<svg xmlns='http://www.w3.org/2000/svg' viewBox='0 0 1400 "),
        number(picture_height(entries)),
        text(b"' font-family='sans-serif' font-size='11'>\n"),
    ];
    put_marks(&marks, output);
}

// Writes the colours, and the start of the title.
fn put_head<W: Write>(output: &mut Output<'_, W>)
    ensures { Puts W.contents output.old output.new head }
{
    output.put(HEAD);
}

// Writes the grid lines and the keyboard.
fn put_frame<W: Write>(output: &mut Output<'_, W>)
    ensures { Puts W.contents output.old output.new frame }
{
    output.put(FRAME);
}

// Writes the title of the picture: the owner.
fn put_owner<W: Write>(bank: &Bank<'_>, owner: Owner, output: &mut Output<'_, W>)
    ensures { Puts W.contents output.old output.new (marks_text (owner_marks bank.now owner)) }
{
    match owner {
        Owner::Preset(preset) => match bank.head(preset) {
            Some(head) => put_owner_line(b"preset ", preset, head.name.bytes(), output),
            None => put_owner_line(b"preset ", preset, b"", output),
        },
        Owner::Inst(instrument) => match bank.inst_name(instrument) {
            Some(name) => put_owner_line(b"instrument ", instrument, name.bytes(), output),
            None => put_owner_line(b"instrument ", instrument, b"", output),
        },
    }
}

fn put_owner_line<W: Write>(level: &[u8], owner: u32, owner_name: &[u8], output: &mut Output<'_, W>)
    ensures { Puts W.contents output.old output.new (marks_text (owner_line level.now owner owner_name.now)) }
{
    let marks = [
        text(level),
        number(owner),
        text(b": "),
        name(owner_name),
        text(b"</text>\n"),
    ];
    put_marks(&marks, output);
}

#[tactic(auto, unfolding(crate::specs::Rectangles::rectangles))]
fn put_rectangles<W: Write>(bank: &Bank<'_>, owner: Owner, output: &mut Output<'_, W>)
    ensures { Puts W.contents output.old output.new (flat_map (drawn bank.now) (rectangles bank.now owner)) }
{
    match owner {
        Owner::Preset(preset) => put_preset(bank, preset, output),
        Owner::Inst(instrument) => {
            put_instrument(bank, None, Area::everything(), instrument, output);
        }
    }
}

fn put_preset<W: Write>(bank: &Bank<'_>, preset: u32, output: &mut Output<'_, W>)
    ensures { Puts W.contents output.old output.new (flat_map (drawn bank.now) (rectangles bank.now (owner.Preset preset))) }
{
    let owner = Owner::Preset(preset);
    for zone in 0..zones_in(bank, owner) {
        put_preset_zone(bank, preset, zone, output);
    }
}

fn put_preset_zone<W: Write>(bank: &Bank<'_>, preset: u32, zone: u32, output: &mut Output<'_, W>)
    requires { zone < zones_in bank.now (owner.Preset preset) }
    ensures { Puts W.contents output.old output.new (flat_map (drawn bank.now) (rectangles_of_zone bank.now preset zone)) }
{
    let owner = Owner::Preset(preset);
    if let Some(instrument) = bank.target(owner, zone) {
        let area = area_of(bank, owner, zone);
        put_instrument(bank, Some(zone), area, u32::from(instrument), output);
    }
}

// Writes the rectangles of an instrument's zones within an area.
fn put_instrument<W: Write>(
    bank: &Bank<'_>,
    preset_zone: Option<u32>,
    area: Area,
    instrument: u32,
    output: &mut Output<'_, W>,
)
    ensures { Puts W.contents output.old output.new (flat_map (drawn bank.now) (rectangles_in bank.now preset_zone area instrument)) }
{
    for zone in 0..zones_in(bank, Owner::Inst(instrument)) {
        put_zone(bank, preset_zone, area, instrument, zone, output);
    }
}

// Writes the rectangle of a zone, if it has one.
fn put_zone<W: Write>(
    bank: &Bank<'_>,
    preset_zone: Option<u32>,
    area: Area,
    instrument: u32,
    zone: u32,
    output: &mut Output<'_, W>,
)
    requires { zone < zones_in bank.now (owner.Inst instrument) }
    ensures { Puts W.contents output.old output.new (flat_map (drawn bank.now) (cons_option (rectangle_at bank.now preset_zone area instrument zone) [])) }
{
    if let Some(rectangle) = rectangle_at(bank, preset_zone, area, instrument, zone) {
        put_rectangle(bank, &rectangle, output);
    }
}
