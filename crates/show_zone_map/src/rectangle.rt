//! The keys and velocities for which notes select a zone.
ghost use Rattle.std.specs.Prelude.{◌≡◌, ◌<◌, None, not};
ghost use Rattle.bank_changes.specs.declared.members.Owner.TheVariants as owner;
ghost use Rattle.zone_select.specs.Remaining.{zones_in};
ghost use Rattle.show_zone_map.specs.Rectangles.{effective_range, area_of, everything, common, intersection, has_notes, key_or, sample_root, root_key, rectangle_at};

use bank_core::{Bank, Owner, Place};
use bank_zone_ranges::Axis;
use generators::Range;
use generators::operators::OVERRIDING_ROOT_KEY;

/// The highest key and the highest velocity.
const HIGHEST: u8 = 127;

/// The root key of a sample that has none: middle C.
const MIDDLE_KEY: u8 = 60;

/// A range of keys, and a range of velocities.
#[derive(Debug, Clone, Copy, PartialEq, Eq)]
pub struct Area {
    pub keys: Range,
    pub velocities: Range,
}

/// The area in which notes select a zone of an instrument, alone or through a zone of a preset.
#[derive(Debug, Clone, Copy, PartialEq, Eq)]
pub struct Rectangle {
    /// The zone of the preset, if there is one.
    pub preset_zone: Option<u32>,
    /// The zone of the instrument.
    pub zone: u32,
    pub sample: u16,
    pub area: Area,
    /// The key at which the sample plays as recorded, 0 to 127.
    pub root: u8,
}

/// Returns the keys and velocities for which notes select a zone of an instrument, which exists; `None` if no note
/// does.
pub fn zone_rectangle(bank: &Bank<'_>, instrument: u32, zone: u32) -> Option<Rectangle>
    requires { zone < zones_in bank.now (owner.Inst instrument) }
    ensures { result ≡ rectangle_at bank.now None everything instrument zone }
{
    rectangle_at(bank, None, Area::everything(), instrument, zone)
}

impl Area {
    // All keys and velocities.
    pub(crate) fn everything() -> Area
        ensures { result ≡ everything }
    {
        let all = Range {
            low: 0,
            high: HIGHEST,
        };
        Area {
            keys: all,
            velocities: all,
        }
    }

    // The intersection of two areas; a range of it ends before it begins if it is empty.
    fn intersection(self, other: Area) -> Area
        ensures { result ≡ intersection self other }
    {
        Area {
            keys: common(self.keys, other.keys),
            velocities: common(self.velocities, other.velocities),
        }
    }

    // Whether the area contains a note.
    fn has_notes(self) -> bool
        ensures { result ≡ has_notes self }
    {
        self.keys.low <= self.keys.high && self.velocities.low <= self.velocities.high
    }
}

// The intersection of two ranges.
fn common(first: Range, second: Range) -> Range
    ensures { result ≡ common first second }
{
    Range {
        low: first.low.max(second.low),
        high: first.high.min(second.high),
    }
}

// The range of a zone, which exists: its own, else its global zone's, else the full range.
fn effective_range(bank: &Bank<'_>, owner: Owner, zone: u32, axis: Axis) -> Range
    requires { zone < zones_in bank.now owner }
    ensures { result ≡ effective_range bank.now owner zone axis }
{
    bank.zone_range(owner, zone, axis)
}

// Both ranges of a zone, which exists.
pub(crate) fn area_of(bank: &Bank<'_>, owner: Owner, zone: u32) -> Area
    requires { zone < zones_in bank.now owner }
    ensures { result ≡ area_of bank.now owner zone }
{
    Area {
        keys: effective_range(bank, owner, zone, Axis::Key),
        velocities: effective_range(bank, owner, zone, Axis::Vel),
    }
}

// `number` if it is a key, else `other`.
fn key_or(number: u16, other: u8) -> u8
    ensures { result ≡ key_or number other }
{
    if number <= u16::from(HIGHEST) {
        number as u8
    } else {
        other
    }
}

// The root key of a sample, else 60.
fn sample_root(bank: &Bank<'_>, sample: u16) -> u8
    ensures { result ≡ sample_root bank.now sample }
{
    match bank.sample(u32::from(sample)) {
        Some(sample) => key_or(u16::from(sample.key), MIDDLE_KEY),
        None => MIDDLE_KEY,
    }
}

// The root key of a zone of an instrument: its own, else its global zone's, else the sample's.
fn root_key(bank: &Bank<'_>, instrument: u32, zone: u32, sample: u16) -> u8
    ensures { result ≡ root_key bank.now instrument zone sample }
{
    let owner = Owner::Inst(instrument);
    let own = bank.gen_of(owner, Place::Zone(zone), OVERRIDING_ROOT_KEY);
    match own.or(bank.gen_of(owner, Place::Global, OVERRIDING_ROOT_KEY)) {
        Some(number) => key_or(number, sample_root(bank, sample)),
        None => sample_root(bank, sample),
    }
}

// The intersection of an area and a zone of an instrument, which exists; `None` if it is empty.
pub(crate) fn rectangle_at(
    bank: &Bank<'_>,
    preset_zone: Option<u32>,
    area: Area,
    instrument: u32,
    zone: u32,
) -> Option<Rectangle>
    requires { zone < zones_in bank.now (owner.Inst instrument) }
    ensures { result ≡ rectangle_at bank.now preset_zone area instrument zone }
{
    let owner = Owner::Inst(instrument);
    let sample = bank.target(owner, zone)?;
    let area = area.intersection(area_of(bank, owner, zone));
    if !area.has_notes() {
        return None;
    }
    Some(Rectangle {
        preset_zone,
        zone,
        sample,
        area,
        root: root_key(bank, instrument, zone, sample),
    })
}
