//! The instrument of a kit and its preset.
ghost use Rattle.std.specs.Prelude.{◌≡◌, ◌++◌, slice_get, OnOk, IfOk};
ghost use Rattle.std.specs.List.{flat_map};
ghost use Rattle.kit_edits.specs.Zones.{zone_gens, zone_of, recording_zones, row_zones};
ghost use Rattle.kit_edits.specs.Members.{instrument_edit, preset_edit, made_preset, no_global};

use crate::kit::KitPreset;
use crate::numbers::Numbered;
use crate::settings::{left_pan, right_pan, zone_gens};
use bank_parts::{GlobalZone, Head, Instrument, Preset, Zone, ZoneOwner};
use base_numbered_lists::NumberedList;
use edit_forms::{Edit, InstrumentStep, PresetStep, Step};
use generators::GenMap;
use kit_tables::KitZone;
use plan_presets::PresetNumbers;
use sf_base::{Name20, OutOfMemory};
use std::alloc::Global;

/// The edit that adds an instrument as number `at`, with zones that are each given with the number of their recording.
pub(crate) fn instrument_edit<'a>(
    alloc: Global,
    at: u32,
    name: Name20,
    numbered: &[Numbered],
    zones: &[(usize, KitZone)],
) -> Result<Edit<'a>, OutOfMemory>
    ensures { IfOk result (λ edit. edit ≡ instrument_edit at name numbered.now zones.now) }
{
    let mut made = Vec::new(alloc);
    push_all_zones(alloc, numbered, zones, &mut made)?;
    let instrument = ZoneOwner {
        head: name,
        global: no_global(alloc),
        zones: NumberedList::from_vec(made),
    };
    Ok(Edit::One(Step::Instrument(InstrumentStep::AddInstrument { at, instrument })))
}

/// The edit that adds a preset as number `at`, whose zone is an instrument.
pub(crate) fn preset_edit<'a>(
    alloc: Global,
    at: u32,
    preset: KitPreset,
    instrument: u16,
) -> Result<Edit<'a>, OutOfMemory>
    ensures { IfOk result (λ edit. edit ≡ preset_edit at preset instrument) }
{
    let preset = made_preset(alloc, preset, instrument)?;
    Ok(Edit::One(Step::Preset(PresetStep::AddPreset { at, preset })))
}

fn made_preset(alloc: Global, preset: KitPreset, instrument: u16) -> Result<Preset, OutOfMemory>
    ensures { IfOk result (λ made. made ≡ made_preset preset instrument) }
{
    let KitPreset { numbers, name } = preset;
    let PresetNumbers { bank, number } = numbers;
    let mut zones = Vec::new(alloc);
    zones.push(no_global(alloc).into_zone(instrument))?;
    Ok(ZoneOwner {
        head: Head {
            name,
            number,
            bank,
            library: 0,
            genre: 0,
            morphology: 0,
        },
        global: no_global(alloc),
        zones: NumberedList::from_vec(zones),
    })
}

// A global zone that sets nothing.
fn no_global(alloc: Global) -> GlobalZone
    ensures { result ≡ no_global }
{
    GlobalZone {
        gens: GenMap::new(alloc),
        mods: NumberedList::new(alloc),
    }
}

// Appends the zones of all rows.
fn push_all_zones(
    alloc: Global,
    numbered: &[Numbered],
    rows: &[(usize, KitZone)],
    made: &mut Vec<Zone>,
) -> Result<(), OutOfMemory>
    ensures { OnOk result (made.new.items ≡ made.old.items ++ flat_map (row_zones numbered.now) rows.now) }
{
    for row in rows {
        push_row_zones(alloc, numbered, *row, made)?;
    }
    Ok(())
}

// Appends the zones of a row; none if there is no such recording.
fn push_row_zones(
    alloc: Global,
    numbered: &[Numbered],
    row: (usize, KitZone),
    made: &mut Vec<Zone>,
) -> Result<(), OutOfMemory>
    ensures { OnOk result (made.new.items ≡ made.old.items ++ row_zones numbered.now row) }
{
    match recording_at(numbered, row.0) {
        None => Ok(()),
        Some(recording) => push_zones(alloc, recording, row.1, made),
    }
}

fn recording_at(numbered: &[Numbered], number: usize) -> Option<Numbered>
    ensures { result ≡ slice_get numbered.now number }
{
    numbered.get(number).copied()
}

// Appends the zone of a mono recording, or those of a stereo recording, left and right.
fn push_zones(
    alloc: Global,
    recording: Numbered,
    zone: KitZone,
    made: &mut Vec<Zone>,
) -> Result<(), OutOfMemory>
    ensures { OnOk result (made.new.items ≡ made.old.items ++ recording_zones zone recording) }
{
    let Numbered {
        left,
        right,
        is_stereo,
        is_looped,
    } = recording;
    if is_stereo {
        made.push(zone_of(alloc, left, zone, Some(left_pan(zone.pan)), is_looped)?)?;
        made.push(zone_of(alloc, right, zone, Some(right_pan(zone.pan)), is_looped)?)?;
    } else {
        made.push(zone_of(alloc, left, zone, zone.pan, is_looped)?)?;
    }
    Ok(())
}

// The zone of one sample.
fn zone_of(
    alloc: Global,
    target: u16,
    zone: KitZone,
    pan: Option<i16>,
    is_looped: bool,
) -> Result<Zone, OutOfMemory>
    ensures { IfOk result (λ made. made ≡ zone_of target zone pan is_looped) }
{
    Ok(Zone {
        target,
        gens: zone_gens(alloc, zone, pan, is_looped)?,
        mods: NumberedList::new(alloc),
    })
}
