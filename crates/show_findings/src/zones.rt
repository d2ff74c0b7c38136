//! Zones that no note selects.
ghost use Rattle.std.specs.Prelude.{◌≡◌, ◌<◌, ◌==◌, ◌&&◌, ◌||◌, ◌++◌, ℕ, Bool, Option, true, not, nat_lt, nat_le, min, max, length, is_some, OnOk, IfOk};
ghost use Rattle.std.specs.List.{list_any, filter_map, flat_map};
ghost use Rattle.bank_changes.specs.declared.members.Owner.TheVariants as owner;
ghost use Rattle.zone_select.specs.Remaining.{zones_in};
ghost use Rattle.show_zone_map.specs.Rectangles.{effective_range, area_of, intersection, has_notes, rectangle_at, rectangles_of_zone, zone_numbers};
ghost use Rattle.show_findings.specs.declared.zones.Use.{Use};
ghost use Rattle.show_findings.specs.Zones.{is_selectable, unselectable_zone, unselectable_zones};
ghost use Rattle.show_findings.specs.PresetZones.{use_at, AscendByTarget, AreSorted};

use crate::finding::Finding;
use crate::gathering::{owners_of, presets_of, push_option};
use bank_core::{Bank, Owner};
use bank_zone_ranges::Axis;
use generators::Range;
use sf_base::OutOfMemory;
use show_zone_map::{Area, zone_rectangle};
use std::alloc::Global;
use zone_select::zones_in;

// A zone of a preset: the instrument that it targets, and the notes that it contains.
#[derive(Clone, Copy)]
pub(crate) struct Use {
    target: u16,
    area: Area,
}

/// Appends the zones that no note selects. Each zone is compared with the zones that may make rectangles with it, up to
/// the first that does.
pub(crate) fn push_unselectable_zones(
    alloc: Global,
    bank: &Bank<'_>,
    found: &mut Vec<Finding>,
) -> Result<(), OutOfMemory>
    ensures { OnOk result (found.new.items ≡ found.old.items ++ unselectable_zones bank.now) }
{
    let uses = sorted_uses(alloc, bank)?;
    let owners = owners_of(alloc, bank)?;
    push_of_owners(bank, uses.as_slice(), owners.as_slice(), found)
}

fn push_of_owners(
    bank: &Bank<'_>,
    uses: &[Use],
    owners: &[Owner],
    found: &mut Vec<Finding>,
) -> Result<(), OutOfMemory>
    requires { AreSorted bank.now uses.now }
    ensures { OnOk result (found.new.items ≡ found.old.items ++ flat_map (λ o. filter_map (unselectable_zone bank.now o) (zone_numbers bank.now o)) owners.now) }
{
    for owner in owners {
        push_of_owner(bank, uses, *owner, found)?;
    }
    Ok(())
}

fn push_of_owner(
    bank: &Bank<'_>,
    uses: &[Use],
    owner: Owner,
    found: &mut Vec<Finding>,
) -> Result<(), OutOfMemory>
    requires { AreSorted bank.now uses.now }
    ensures { OnOk result (found.new.items ≡ found.old.items ++ filter_map (unselectable_zone bank.now owner) (zone_numbers bank.now owner)) }
{
    for zone in 0..zones_in(bank, owner) {
        push_option(found, unselectable_zone(bank, uses, owner, zone))?;
    }
    Ok(())
}

fn unselectable_zone(bank: &Bank<'_>, uses: &[Use], owner: Owner, zone: u32) -> Option<Finding>
    requires sorted { AreSorted bank.now uses.now }
    requires there { zone < zones_in bank.now owner }
    ensures { result ≡ unselectable_zone bank.now owner zone }
{
    if is_selectable(bank, uses, owner, zone) {
        return None;
    }
    Some(Finding::UnselectableZone { owner, zone })
}

fn is_selectable(bank: &Bank<'_>, uses: &[Use], owner: Owner, zone: u32) -> bool
    requires sorted { AreSorted bank.now uses.now }
    requires there { zone < zones_in bank.now owner }
    ensures { result ≡ is_selectable bank.now owner zone }
{
    match owner {
        Owner::Preset(preset) => has_rectangles(bank, preset, zone),
        Owner::Inst(instrument) => is_instrument_selectable(bank, uses, instrument, zone),
    }
}

// Whether a zone of a preset has a rectangle with some zone of its instrument.
fn has_rectangles(bank: &Bank<'_>, preset: u32, zone: u32) -> bool
    requires { zone < zones_in bank.now (owner.Preset preset) }
    ensures { result ≡ nat_lt 0 (length (rectangles_of_zone bank.now preset zone)) }
{
    let owner = Owner::Preset(preset);
    match bank.target(owner, zone) {
        Some(instrument) => any_rectangle(bank, area_of(bank, owner, zone), u32::from(instrument)),
        None => false,
    }
}

// Whether an area has a rectangle with some zone of an instrument.
fn any_rectangle(bank: &Bank<'_>, area: Area, instrument: u32) -> bool
    ensures { (outer : Option ℕ) → result ≡ list_any (λ l. is_some (rectangle_at bank.now outer area instrument l)) (zone_numbers bank.now (owner.Inst instrument)) }
{
    for zone in 0..zones_in(bank, Owner::Inst(instrument)) {
        if makes_rectangle(bank, area, instrument, zone) {
            return true;
        }
    }
    false
}

fn makes_rectangle(bank: &Bank<'_>, area: Area, instrument: u32, zone: u32) -> bool
    requires { zone < zones_in bank.now (owner.Inst instrument) }
    ensures { (outer : Option ℕ) → result ≡ is_some (rectangle_at bank.now outer area instrument zone) }
{
    overlaps(area, area_of(bank, Owner::Inst(instrument), zone))
}

// Whether a zone of an instrument has a rectangle, and if the instrument is used, one with some zone of a preset.
fn is_instrument_selectable(bank: &Bank<'_>, uses: &[Use], instrument: u32, zone: u32) -> bool
    requires sorted { AreSorted bank.now uses.now }
    requires there { zone < zones_in bank.now (owner.Inst instrument) }
    ensures { result ≡ is_selectable bank.now (owner.Inst instrument) zone }
{
    let own = zone_rectangle(bank, instrument, zone).is_some();
    own && is_reached(bank, group(uses, instrument), instrument, zone)
}

// Whether a zone of an instrument has a rectangle with some of these zones of presets, or there are none.
fn is_reached(bank: &Bank<'_>, uses: &[Use], instrument: u32, zone: u32) -> bool
    requires { zone < zones_in bank.now (owner.Inst instrument) }
    ensures { result ≡ (not (list_any (λ (u : Use). true) uses.now) || list_any (λ (u : Use). has_notes (intersection u.area (area_of bank.now (owner.Inst instrument) zone))) uses.now) }
{
    uses.is_empty() || any_overlaps(uses, area_of(bank, Owner::Inst(instrument), zone))
}

fn any_overlaps(uses: &[Use], area: Area) -> bool
    ensures { result ≡ list_any (λ (u : Use). has_notes (intersection u.area area)) uses.now }
{
    uses.iter().any(|other| overlaps(other.area, area))
}

/// Both ranges of a zone.
pub(crate) fn area_of(bank: &Bank<'_>, owner: Owner, zone: u32) -> Area
    requires { zone < zones_in bank.now owner }
    ensures { result ≡ area_of bank.now owner zone }
{
    Area {
        keys: range_of(bank, owner, zone, Axis::Key),
        velocities: range_of(bank, owner, zone, Axis::Vel),
    }
}

fn range_of(bank: &Bank<'_>, owner: Owner, zone: u32, axis: Axis) -> Range
    requires { zone < zones_in bank.now owner }
    ensures { result ≡ effective_range bank.now owner zone axis }
{
    bank.zone_range(owner, zone, axis)
}

/// Whether two areas have a note in common.
pub(crate) fn overlaps(first: Area, second: Area) -> bool
    ensures { result ≡ has_notes (intersection first second) }
{
    do_meet(first.keys, second.keys) && do_meet(first.velocities, second.velocities)
}

fn do_meet(first: Range, second: Range) -> bool
    ensures { result ≡ nat_le (max first.low second.low) (min first.high second.high) }
{
    first.low.max(second.low) <= first.high.min(second.high)
}

// The zones of all presets, by their targets.
fn sorted_uses(alloc: Global, bank: &Bank<'_>) -> Result<Vec<Use>, OutOfMemory>
    ensures { IfOk result (λ uses. AreSorted bank.now uses.items) }
{
    let presets = presets_of(alloc, bank)?;
    let mut uses = uses_of(alloc, bank, presets.as_slice())?;
    sort_uses(&mut uses);
    Ok(uses)
}

fn sort_uses(uses: &mut Vec<Use>)
    ensures same { (p : Use → Bool) → list_any p uses.new.items ≡ list_any p uses.old.items }
    ensures ascend { AscendByTarget uses.new.items }
{
    uses.sort_unstable_by_key(|other| other.target);
}

// The zones of these presets.
fn uses_of(alloc: Global, bank: &Bank<'_>, presets: &[Owner]) -> Result<Vec<Use>, OutOfMemory>
    ensures { IfOk result (λ uses. uses.items ≡ flat_map (λ o. filter_map (use_at bank.now o) (zone_numbers bank.now o)) presets.now) }
{
    let mut found = Vec::new(alloc);
    for owner in presets {
        push_uses(bank, *owner, &mut found)?;
    }
    Ok(found)
}

fn push_uses(bank: &Bank<'_>, owner: Owner, found: &mut Vec<Use>) -> Result<(), OutOfMemory>
    ensures { OnOk result (found.new.items ≡ found.old.items ++ filter_map (use_at bank.now owner) (zone_numbers bank.now owner)) }
{
    for zone in 0..zones_in(bank, owner) {
        push_option(found, use_at(bank, owner, zone))?;
    }
    Ok(())
}

fn use_at(bank: &Bank<'_>, owner: Owner, zone: u32) -> Option<Use>
    requires { zone < zones_in bank.now owner }
    ensures { result ≡ use_at bank.now owner zone }
{
    let target = bank.target(owner, zone)?;
    let area = area_of(bank, owner, zone);
    Some(Use { target, area })
}

// Those that target an instrument.
fn group(uses: &[Use], instrument: u32) -> &[Use]
    requires { AscendByTarget uses.now }
    ensures { (p : Use → Bool) → list_any p result.now ≡ list_any (λ u. (u.target == instrument) && p u) uses.now }
{
    let start = uses.partition_point(|other| u32::from(other.target) < instrument);
    let rest = &uses[start..];
    let end = rest.partition_point(|other| u32::from(other.target) <= instrument);
    &rest[..end]
}
