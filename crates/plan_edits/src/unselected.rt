//! Zones that no note selects.
ghost use Rattle.std.specs.Prelude.{◌≡◌, ◌<◌, ℕ, length, true, Some, IfOk};
ghost use Rattle.bank_changes.specs.declared.members.Owner.TheVariants as owner;
ghost use Rattle.bank_changes.specs.Members.{owner_zone_count};
ghost use Rattle.plan_edits.specs.ZoneSets.{has_zone};
ghost use Rattle.plan_edits.specs.Playing.{HasZonesOf, HasAllZones, HasNoUnselected};

use crate::listed::is_listed;
use crate::selected_zones::selected_zones;
use crate::zone_set::ZoneSet;
use bank_core::{Bank, List, Owner};
use edit_drafts::{Draft, Stop};
use edit_forms::{Step, ZoneStep};
use plan_presets::PresetNumbers;
use script_notes::Note;
use sf_base::OutOfMemory;
use std::alloc::Global;
use std::collections::BTreeSet;

// ---- to remove them

/// Removes the zones of the listed presets that are not in the set, and those of the instruments of which some zone is.
pub(crate) fn remove_unselected(
    alloc: Global,
    draft: &mut Draft<'_, '_>,
    presets: &BTreeSet<PresetNumbers>,
    selected: &ZoneSet,
) -> Result<(), Stop>
    ensures { draft.new.first ≡ draft.old.first }
{
    for preset in 0..preset_count(draft.bank()) {
        if is_kept(draft.bank(), presets, preset) {
            remove_zones(alloc, draft, Owner::Preset(preset), selected)?;
        }
    }
    for instrument in 0..instrument_count(draft.bank()) {
        if has_selected(draft.bank(), Owner::Inst(instrument), selected) {
            remove_zones(alloc, draft, Owner::Inst(instrument), selected)?;
        }
    }
    Ok(())
}

fn is_kept(bank: &Bank<'_>, presets: &BTreeSet<PresetNumbers>, preset: u32) -> bool {
    match bank.head(preset) {
        Some(head) => is_listed(presets, head.bank, head.number),
        None => false,
    }
}

fn has_selected(bank: &Bank<'_>, owner: Owner, selected: &ZoneSet) -> bool {
    (0..zone_count(bank, owner)).any(|zone| has_zone(selected, owner, zone))
}

fn remove_zones(
    alloc: Global,
    draft: &mut Draft<'_, '_>,
    owner: Owner,
    selected: &ZoneSet,
) -> Result<(), Stop>
    ensures { draft.new.first ≡ draft.old.first }
{
    for zone in (0..zone_count(draft.bank(), owner)).rev() {
        remove_zone(alloc, draft, owner, zone, selected)?;
    }
    Ok(())
}

fn remove_zone(
    alloc: Global,
    draft: &mut Draft<'_, '_>,
    owner: Owner,
    zone: usize,
    selected: &ZoneSet,
) -> Result<(), Stop>
    ensures { draft.new.first ≡ draft.old.first }
{
    match u32::try_from(zone) {
        Ok(zone) if !selected.has(owner, zone) => {
            draft.edit(alloc, Step::Zone(owner, ZoneStep::RemoveZone { zone }))
        }
        _ => Ok(()),
    }
}

// ---- to see that none is left

/// Whether some note of the list selects each zone of the bank.
pub(crate) fn has_no_unselected(
    alloc: Global,
    bank: &Bank<'_>,
    notes: &[Note],
) -> Result<bool, OutOfMemory>
    ensures { IfOk result (λ none. none ≡ true → HasNoUnselected notes.now bank.now) }
{
    let selected = selected_zones(alloc, bank, notes)?;
    Ok(has_all_zones(bank, &selected))
}

#[tactic(auto, using(crate::proofs::PlayedLaws::all_zones))]
fn has_all_zones(bank: &Bank<'_>, set: &ZoneSet) -> bool
    ensures { result ≡ true → HasAllZones bank.now set.now }
{
    has_preset_zones(bank, set) && has_instrument_zones(bank, set)
}

fn has_preset_zones(bank: &Bank<'_>, set: &ZoneSet) -> bool
    ensures { result ≡ true → (i : ℕ) → i < length bank.now.presets → HasZonesOf bank.now set.now (owner.Preset i) }
{
    for preset in 0..preset_count(bank) {
        if !has_zones_of(bank, Owner::Preset(preset), set) {
            return false;
        }
    }
    true
}

fn has_instrument_zones(bank: &Bank<'_>, set: &ZoneSet) -> bool
    ensures { result ≡ true → (i : ℕ) → i < length bank.now.instruments → HasZonesOf bank.now set.now (owner.Inst i) }
{
    for instrument in 0..instrument_count(bank) {
        if !has_zones_of(bank, Owner::Inst(instrument), set) {
            return false;
        }
    }
    true
}

fn has_zones_of(bank: &Bank<'_>, owner: Owner, set: &ZoneSet) -> bool
    ensures { result ≡ true → HasZonesOf bank.now set.now owner }
{
    for zone in 0..zone_count(bank, owner) {
        if !has_zone(set, owner, zone) {
            return false;
        }
    }
    true
}

fn has_zone(set: &ZoneSet, owner: Owner, zone: usize) -> bool
    ensures { result ≡ true → has_zone set.now owner zone ≡ true }
{
    match u32::try_from(zone) {
        Ok(zone) => set.has(owner, zone),
        Err(_) => false,
    }
}

// ---- numbers of members

fn zone_count(bank: &Bank<'_>, owner: Owner) -> usize
    ensures { (count : ℕ) → owner_zone_count bank.now owner ≡ Some count → result ≡ count }
{
    bank.zone_count(owner).unwrap_or(0)
}

fn preset_count(bank: &Bank<'_>) -> u32
    ensures { result ≡ length bank.now.presets }
{
    bank.soundness();
    bank.count(List::Presets) as u32
}

fn instrument_count(bank: &Bank<'_>) -> u32
    ensures { result ≡ length bank.now.instruments }
{
    bank.soundness();
    bank.count(List::Instruments) as u32
}

/// The numbers of the samples that the zones of the set use, in ascending order.
pub(crate) fn used_by(
    alloc: Global,
    bank: &Bank<'_>,
    selected: &ZoneSet,
) -> Result<Vec<u32>, OutOfMemory> {
    let mut samples = BTreeSet::new(alloc);
    for instrument in 0..instrument_count(bank) {
        add_samples(bank, Owner::Inst(instrument), selected, &mut samples)?;
    }
    let numbers: Vec<u32> = samples.iter().copied().collect(alloc)?;
    Ok(numbers)
}

fn add_samples(
    bank: &Bank<'_>,
    owner: Owner,
    selected: &ZoneSet,
    samples: &mut BTreeSet<u32>,
) -> Result<(), OutOfMemory> {
    for zone in 0..zone_count(bank, owner) {
        if has_zone(selected, owner, zone) {
            add_target(bank, owner, zone, samples)?;
        }
    }
    Ok(())
}

fn add_target(
    bank: &Bank<'_>,
    owner: Owner,
    zone: usize,
    samples: &mut BTreeSet<u32>,
) -> Result<(), OutOfMemory> {
    if let Ok(zone) = u32::try_from(zone) {
        if let Some(sample) = bank.target(owner, zone) {
            samples.insert(u32::from(sample))?;
        }
    }
    Ok(())
}
