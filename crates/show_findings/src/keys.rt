//! Keys of presets that play nothing between keys that play.
ghost use Rattle.std.specs.Prelude.{◌<◌};
ghost use Rattle.zone_select.specs.Remaining.{zones_in};

use crate::finding::Finding;
use crate::gathering::{count_in, push_option};
use crate::zones::{area_of, overlaps};
use bank_core::{Bank, List, Owner};
use sf_base::OutOfMemory;
use std::alloc::Global;
use zone_select::zones_in;

/// The number of keys.
const KEYS: usize = 128;

/// The longest runs of keys without any rectangle, between keys with one.
pub(crate) fn silent_keys(alloc: Global, bank: &Bank<'_>) -> Result<Vec<Finding>, OutOfMemory> {
    let mut found = Vec::new(alloc);
    for preset in 0..count_in(bank, List::Presets) {
        let played = played_keys(bank, preset);
        push_gaps(&played, preset, &mut found)?;
    }
    Ok(found)
}

// Appends the gaps between neighbouring played keys.
fn push_gaps(
    played: &[bool; KEYS],
    preset: u32,
    found: &mut Vec<Finding>,
) -> Result<(), OutOfMemory> {
    let mut last: Option<u8> = None;
    for key in 0..128u8 {
        if played[key as usize] {
            push_option(found, gap(preset, last, key))?;
            last = Some(key);
        }
    }
    Ok(())
}

// The keys between two played ones, if there are any.
fn gap(preset: u32, last: Option<u8>, key: u8) -> Option<Finding> {
    let low = last?.saturating_add(1);
    if low >= key {
        return None;
    }
    Some(Finding::SilentKeys {
        preset,
        low,
        high: key - 1,
    })
}

// Whether each key is in some rectangle of a preset.
fn played_keys(bank: &Bank<'_>, preset: u32) -> [bool; KEYS] {
    let owner = Owner::Preset(preset);
    let mut played = [false; KEYS];
    for zone in 0..zones_in(bank, owner) {
        mark_zone(bank, owner, zone, &mut played);
    }
    played
}

// Marks the keys of the rectangles of a preset's zone.
fn mark_zone(bank: &Bank<'_>, owner: Owner, zone: u32, played: &mut [bool; KEYS])
    requires { zone < zones_in bank.now owner }
{
    let Some(instrument) = bank.target(owner, zone) else {
        return;
    };
    let area = area_of(bank, owner, zone);
    let inner = Owner::Inst(u32::from(instrument));
    for inner_zone in 0..zones_in(bank, inner) {
        let other = area_of(bank, inner, inner_zone);
        if overlaps(area, other) {
            mark_keys(
                area.keys.low.max(other.keys.low),
                area.keys.high.min(other.keys.high),
                played,
            );
        }
    }
}

fn mark_keys(low: u8, high: u8, played: &mut [bool; KEYS]) {
    for key in low..high.min(127) + 1 {
        played[key as usize] = true;
    }
}
