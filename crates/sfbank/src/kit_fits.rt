//! What a kit is made of is in the ranges of its types. The functions of this file change nothing.
ghost use Rattle.std.specs.Prelude.{◌≡◌, ℕ, map};
ghost use Rattle.std.specs.List.{AllByRecursion};
ghost use Rattle.sf_base.specs.Names.{IsName};
ghost use Rattle.hydra_records.specs.Records.{AreBytes};
ghost use Rattle.kit_tables.specs.declared.zone.KitZone.{KitZone};
ghost use Rattle.kit_edits.specs.Fits.{FitMembers, FitsByte, FitsKitZone, FitsMaybe, FitsPan, FitsPreset, FitsRange};
ghost use Rattle.sfbank.specs.Kits.{FitSources, FitsSource, source_of};

use crate::kits::KitWave;
use generators::Range;
use kit_edits::{KitMembers, KitPreset};
use kit_tables::KitZone;
use sf_base::Name20;

/// Returns the recordings, and proves that they are bytes.
pub(crate) fn fitting_waves<'x>(waves: Vec<KitWave<'x>>) -> Vec<KitWave<'x>>
    ensures same { result.items ≡ waves.entry.items }
    ensures fits { FitSources (map source_of waves.entry.items) }
{
    waves_fit(waves.as_slice());
    waves
}

fn waves_fit(waves: &[KitWave<'_>])
    ensures { FitSources (map source_of waves.now) }
{
    for wave in waves {
        wave_fits(wave.stem, wave.wave);
    }
}

fn wave_fits(stem: &[u8], wave: &[u8])
    ensures { FitsSource (record { stem = stem.now; wave = wave.now }) }
{}

/// Proves that zones are in the ranges of their types.
pub(crate) fn zones_fit(zones: &[(usize, KitZone)])
    ensures { AllByRecursion (λ (zone : ℕ × KitZone). FitsKitZone zone.1) zones.now }
{
    for zone in zones {
        zone_fits(zone.1);
    }
}

fn zone_fits(zone: KitZone)
    ensures { FitsKitZone zone }
{
    range_fits(zone.keys);
    range_fits(zone.velocities);
    byte_fits(zone.root);
    pan_fits(zone.pan);
    byte_fits(zone.class);
}

fn range_fits(range: Range)
    ensures { FitsRange range }
{
    let Range {
        low: _low,
        high: _high,
    } = range;
}

fn byte_fits(byte: Option<u8>)
    ensures { FitsByte byte }
{
    match byte {
        Some(_byte) => {}
        None => {}
    }
}

fn pan_fits(pan: Option<i16>)
    ensures { FitsPan pan }
{
    match pan {
        Some(_pan) => {}
        None => {}
    }
}

/// Returns the members, and proves that they are in the ranges of their types.
pub(crate) fn fitting_members(members: KitMembers) -> KitMembers
    ensures same { result ≡ members }
    ensures fits { FitMembers members }
{
    name_fits(members.instrument);
    preset_fits(members.preset);
    members
}

fn name_fits(name: Option<Name20>)
    ensures { FitsMaybe IsName name }
{
    if let Some(name) = name {
        name.bytes();
    }
}

fn preset_fits(preset: Option<KitPreset>)
    ensures { FitsMaybe FitsPreset preset }
{
    if let Some(preset) = preset {
        preset.name.bytes();
        let _numbers = (preset.numbers.bank, preset.numbers.number);
    }
}
