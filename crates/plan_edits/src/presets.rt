//! Presets that are not kept.
ghost use Rattle.std.specs.Prelude.{◌≡◌, ◌==◌, ◌&&◌, true, MatchResult};
ghost use Rattle.std.specs.Option.{option_map};
ghost use Rattle.plan_edits.specs.Keeping.{has_preset, first_missing, KeepsNotes, OnlyKept};

use crate::listed::is_listed;
use bank_core::{Bank, List};
use bank_parts::Head;
use edit_drafts::{Draft, Stop};
use edit_forms::{PresetStep, Step};
use plan_presets::{PresetFault, PresetNumbers};
use std::alloc::Global;
use std::collections::BTreeSet;

/// Removes all presets whose numbers are not in the set. Each note of the others has the same voices before and after.
pub(crate) fn remove_other_presets(
    alloc: Global,
    draft: &mut Draft<'_, '_>,
    kept: &BTreeSet<PresetNumbers>,
) -> Result<(), Stop>
    ensures first { draft.new.first ≡ draft.old.first }
    ensures keeps { KeepsNotes kept.now.keys draft.old.bank draft.new.bank }
{
    for preset in (0..preset_count(draft.bank())).rev() {
        remove_other_preset(alloc, draft, kept, preset)?;
    }
    Ok(())
}

fn preset_count(bank: &Bank<'_>) -> u32 {
    bank.soundness();
    bank.count(List::Presets) as u32
}

// Removes a preset, unless it is kept.
fn remove_other_preset(
    alloc: Global,
    draft: &mut Draft<'_, '_>,
    kept: &BTreeSet<PresetNumbers>,
    preset: u32,
) -> Result<(), Stop>
    ensures first { draft.new.first ≡ draft.old.first }
    ensures keeps { KeepsNotes kept.now.keys draft.old.bank draft.new.bank }
{
    match draft.bank().head(preset) {
        Some(head) if !is_listed(kept, head.bank, head.number) => {
            draft.edit(alloc, Step::Preset(PresetStep::RemovePreset { preset }))
        }
        _ => Ok(()),
    }
}

/// Whether the bank has a preset for each of these numbers; if not, the fault names the first that is missing.
pub fn check_presets(bank: &Bank<'_>, list: &[PresetNumbers]) -> Result<(), PresetFault>
    ensures { MatchResult result (λ _. first_missing bank.now list.now ≡ None) (λ fault. option_map PresetFault.Missing (first_missing bank.now list.now) ≡ Some fault) }
{
    match first_missing(bank, list) {
        None => Ok(()),
        Some(missing) => Err(PresetFault::Missing(missing)),
    }
}

fn first_missing(bank: &Bank<'_>, list: &[PresetNumbers]) -> Option<PresetNumbers>
    ensures { result ≡ first_missing bank.now list.now }
{
    list.iter()
        .copied()
        .find(|numbers| !has_preset(bank, *numbers))
}

fn has_preset(bank: &Bank<'_>, numbers: PresetNumbers) -> bool
    ensures { result ≡ has_preset bank.now numbers }
{
    let presets = bank.presets();
    for preset in 0..presets.len() {
        if are_numbers_of(*presets.head(preset), numbers) {
            return true;
        }
    }
    false
}

fn are_numbers_of(head: Head, numbers: PresetNumbers) -> bool
    ensures { result ≡ (head.bank == numbers.bank && head.number == numbers.number) }
{
    head.bank == numbers.bank && head.number == numbers.number
}

/// Whether all presets are kept.
pub(crate) fn are_kept(bank: &Bank<'_>, kept: &BTreeSet<PresetNumbers>) -> bool
    ensures { result ≡ true → OnlyKept kept.now.keys bank.now }
{
    let presets = bank.presets();
    for preset in 0..presets.len() {
        let head = presets.head(preset);
        if !is_listed(kept, head.bank, head.number) {
            return false;
        }
    }
    true
}
