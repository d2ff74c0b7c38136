//! Adds the presets.
ghost use Rattle.std.specs.Prelude.{◌≡◌, ◌<◌, length, Some, slice_get, map};
ghost use Rattle.bank_parts.specs.declared.parts.Head.{Head};
ghost use Rattle.bank_parts.specs.Owners.{head_at};
ghost use Rattle.plan_presets.specs.declared.numbers.TakenPreset.{TakenPreset};
ghost use Rattle.plan_take.specs.Additions.{KeepsVoices, AddsPresets};
ghost use Rattle.plan_take.specs.Merging.{taken_shifted, shifted_numbers};

use crate::numbers::step_number;
use crate::owner_copies::copy_owner;
use crate::preset_search::find_preset;
use bank_core::{Bank, Head, List, Owners, Preset};
use edit_drafts::{Draft, Stop};
use edit_forms::{PresetStep, Step};
use plan_presets::TakenPreset;
use std::alloc::Global;

/// Adds copies of the presets, with their new numbers, after all others.
pub(crate) fn add_presets(
    alloc: Global,
    draft: &mut Draft<'_, '_>,
    from: &Bank<'_>,
    presets: &[TakenPreset],
    instruments: &[Option<u16>],
) -> Result<(), Stop>
    ensures { AddsPresets presets.now draft.old draft.new }
{
    for k in 0..presets.len() {
        add_taken(alloc, draft, from, presets, k, instruments)?;
    }
    Ok(())
}

// Adds a copy of preset k of the list.
fn add_taken(
    alloc: Global,
    draft: &mut Draft<'_, '_>,
    from: &Bank<'_>,
    presets: &[TakenPreset],
    k: usize,
    instruments: &[Option<u16>],
) -> Result<(), Stop>
    requires { k < length presets.now }
    ensures first { draft.new.first ≡ draft.old.first }
    ensures others { (p : TakenPreset) → slice_get presets.now k ≡ Some p → KeepsVoices p.to draft.old.bank draft.new.bank }
{
    let taken = presets[k];
    add_copy(alloc, draft, from.presets(), taken, instruments)
}

// Adds a copy of a preset.
#[tactic(auto, using(crate::proofs::AdditionLaws::keeps_same))]
fn add_copy(
    alloc: Global,
    draft: &mut Draft<'_, '_>,
    presets: &Owners<Head>,
    taken: TakenPreset,
    instruments: &[Option<u16>],
) -> Result<(), Stop>
    ensures first { draft.new.first ≡ draft.old.first }
    ensures others { KeepsVoices taken.to draft.old.bank draft.new.bank }
{
    match find_preset(presets, taken.from) {
        Some(i) => {
            let head = Head {
                number: taken.to.number,
                bank: taken.to.bank,
                ..*presets.head(i)
            };
            let preset = copy_owner(alloc, presets, i, head, instruments)?;
            add_preset(alloc, draft, preset)
        }
        None => Err(Stop::Refused),
    }
}

/// Adds copies of all presets, with their bank numbers increased, after all others.
pub(crate) fn add_all_presets(
    alloc: Global,
    draft: &mut Draft<'_, '_>,
    presets: &Owners<Head>,
    shift: u16,
    instruments: &[Option<u16>],
) -> Result<(), Stop>
    ensures { AddsPresets (map (taken_shifted shift) presets.now) draft.old draft.new }
{
    for i in 0..presets.len() {
        add_shifted(alloc, draft, presets, i, shift, instruments)?;
    }
    Ok(())
}

// Adds a copy of preset `i`.
#[tactic(auto, using(crate::proofs::AdditionLaws::keeps_same))]
fn add_shifted(
    alloc: Global,
    draft: &mut Draft<'_, '_>,
    presets: &Owners<Head>,
    i: usize,
    shift: u16,
    instruments: &[Option<u16>],
) -> Result<(), Stop>
    requires { i < length presets.now }
    ensures first { draft.new.first ≡ draft.old.first }
    ensures others { (h : Head) → head_at presets.now i ≡ Some h → KeepsVoices (shifted_numbers shift h) draft.old.bank draft.new.bank }
{
    let original = *presets.head(i);
    match original.bank.checked_add(shift) {
        Some(bank) => {
            let head = Head { bank, ..original };
            let preset = copy_owner(alloc, presets, i, head, instruments)?;
            add_preset(alloc, draft, preset)
        }
        None => Err(Stop::Refused),
    }
}

// Adds a preset after all others.
fn add_preset(alloc: Global, draft: &mut Draft<'_, '_>, preset: Preset) -> Result<(), Stop>
    ensures first { draft.new.first ≡ draft.old.first }
    ensures others { KeepsVoices (record { bank = preset.head.bank; number = preset.head.number }) draft.old.bank draft.new.bank }
{
    let at = step_number(draft.bank().count(List::Presets));
    draft.edit(alloc, Step::Preset(PresetStep::AddPreset { at, preset }))
}
