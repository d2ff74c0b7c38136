//! The zones that notes select.
ghost use Rattle.std.specs.Prelude.{◌≡◌, ◌<◌, ℕ, true, false, IfOk, IfSome};
ghost use Rattle.bank_changes.specs.declared.members.Owner.TheVariants as owner;
ghost use Rattle.bank_changes.specs.Members.{target_of};
ghost use Rattle.std.specs.List.{Contains};
ghost use Rattle.zone_select.specs.Pairs.{pairs};
ghost use Rattle.plan_edits.specs.Playing.{is_number_of, IsFirstPreset, AddsSelected, HasOnlySelected};

use crate::zone_set::ZoneSet;
use bank_core::{Bank, List, Owner};
use script_notes::Note;
use sf_base::OutOfMemory;
use std::alloc::Global;
use zone_select::matches;

/// The zones that notes select.
pub(crate) fn selected_zones(
    alloc: Global,
    bank: &Bank<'_>,
    notes: &[Note],
) -> Result<ZoneSet, OutOfMemory>
    ensures { IfOk result (λ set. HasOnlySelected notes.now bank.now set) }
{
    let mut set = ZoneSet::new(alloc);
    for note in notes {
        add_zones(bank, note, &mut set)?;
    }
    Ok(set)
}

// Adds the zones that a note selects.
fn add_zones(bank: &Bank<'_>, note: &Note, set: &mut ZoneSet) -> Result<(), OutOfMemory>
    ensures { AddsSelected bank.now note.now set.old set.new }
{
    let Some(preset) = first_preset(bank, note) else {
        return Ok(());
    };
    let mut pairs = matches(bank, note);
    while let Some(pair) = pairs.next() {
        add_pair(bank, note, preset, pair, set)?;
    }
    Ok(())
}

// Adds the zones of a pair.
fn add_pair(
    bank: &Bank<'_>,
    note: &Note,
    preset: u32,
    pair: (u32, u32),
    set: &mut ZoneSet,
) -> Result<(), OutOfMemory>
    requires first { IsFirstPreset bank.now note.now preset }
    requires selected { Contains (pairs bank.now note.now) pair }
    ensures { AddsSelected bank.now note.now set.old set.new }
{
    let (zone, instrument_zone) = pair;
    set.add(Owner::Preset(preset), zone)?;
    match bank.target(Owner::Preset(preset), zone) {
        Some(instrument) => set.add(Owner::Inst(u32::from(instrument)), instrument_zone),
        None => Ok(()),
    }
}

// The first preset with the note's bank and preset number.
fn first_preset(bank: &Bank<'_>, note: &Note) -> Option<u32>
    ensures { IfSome result (λ i. IsFirstPreset bank.now note.now i) }
{
    for preset in 0..preset_count(bank) {
        if is_number_of(bank, note, preset) {
            return Some(preset);
        }
    }
    None
}

fn preset_count(bank: &Bank<'_>) -> u32 {
    bank.soundness();
    bank.count(List::Presets) as u32
}

// Whether a preset has the note's bank and preset number.
#[tactic(auto, using(zone_select::proofs::RemainingLaws::called_then, zone_select::proofs::RemainingLaws::called_else, zone_select::proofs::RemainingLaws::not_there))]
fn is_number_of(bank: &Bank<'_>, note: &Note, preset: u32) -> bool
    ensures { result ≡ is_number_of bank.now note.now preset }
{
    match bank.head(preset) {
        Some(head) => head.bank == note.bank() && head.number == note.number(),
        None => false,
    }
}
