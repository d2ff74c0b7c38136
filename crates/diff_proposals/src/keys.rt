//! Hash keys of zones and their contents.
use crate::views::{OwnerView, Ranges, Settings, Target, ZoneView};
use diff_orders::{with_number, with_numbers};
use modulators::Modulator;

/// The key of generators and modulators, appended to another key.
pub(crate) fn with_settings(key: u64, settings: &Settings<'_>) -> u64 {
    with_inner(with_ranges(key, settings.ranges()), settings)
}

/// The key of ranges, appended to another key.
pub(crate) fn with_ranges(key: u64, ranges: Ranges) -> u64 {
    with_range(with_range(key, ranges.key), ranges.vel)
}

fn with_range(key: u64, range: Option<u16>) -> u64 {
    with_number(key, range.map_or(u64::MAX, u64::from))
}

/// The key of modulators and of all generators but ranges, appended to another key.
pub(crate) fn with_inner(key: u64, settings: &Settings<'_>) -> u64 {
    let gens = settings.split_ranges().1;
    let key = with_number(key, gens.len() as u64);
    let key = gens.iter().fold(key, with_entry);
    let key = with_number(key, settings.mods.len() as u64);
    settings.mods.iter().fold(key, with_mod)
}

fn with_entry(key: u64, entry: &(u16, u16)) -> u64 {
    with_numbers(key, &[entry.0.into(), entry.1.into()])
}

fn with_mod(key: u64, modulator: &Modulator) -> u64 {
    let numbers = [
        modulator.source.into(),
        modulator.dest.into(),
        modulator.amount.cast_unsigned().into(),
        modulator.amount_source.into(),
        modulator.transform.into(),
    ];
    with_numbers(key, &numbers)
}

/// The key of a zone, appended to another key.
pub(crate) fn with_zone(key: u64, zone: &ZoneView<'_>) -> u64 {
    with_settings(with_target(key, zone), &zone.settings)
}

/// The key of a target, appended to another key.
pub(crate) fn with_target(key: u64, zone: &ZoneView<'_>) -> u64 {
    match zone.target {
        Target::Wanted(number) => with_number(key, number as u64),
        Target::Superfluous(number) => with_number(with_number(key, u64::MAX), number as u64),
    }
}

/// The key of all zones of an owner, appended to another key.
pub(crate) fn with_contents<H>(key: u64, owner: &OwnerView<'_, H>) -> u64 {
    owner
        .zones
        .iter()
        .fold(with_settings(key, &owner.global), with_zone)
}

/// The key of the targets of an owner, appended to another key.
pub(crate) fn with_targets<H>(key: u64, owner: &OwnerView<'_, H>) -> u64 {
    owner.zones.iter().fold(key, with_target)
}
