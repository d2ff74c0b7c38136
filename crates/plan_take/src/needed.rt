//! The instruments and samples that presets need.
use crate::preset_search::find_preset;
use bank_core::{Bank, List};
use bank_parts::{OwnerHead, Owners};
use plan_presets::TakenPreset;
use sf_base::OutOfMemory;
use std::alloc::Global;

/// Whether each instrument is the target of a preset that is taken.
pub(crate) fn needed_instruments(
    alloc: Global,
    from: &Bank<'_>,
    presets: &[TakenPreset],
) -> Result<Vec<bool>, OutOfMemory> {
    let mut needed = vec![in alloc; false; from.count(List::Instruments)]?;
    for taken in presets {
        if let Some(preset) = find_preset(from.presets(), taken.from) {
            mark_targets(from.presets(), preset, needed.as_mut_slice());
        }
    }
    Ok(needed)
}

/// Whether each sample is the target of an instrument that is needed.
pub(crate) fn needed_samples(
    alloc: Global,
    from: &Bank<'_>,
    instruments: &[bool],
) -> Result<Vec<bool>, OutOfMemory> {
    let mut needed = vec![in alloc; false; from.count(List::Samples)]?;
    for (instrument, is_needed) in instruments.iter().enumerate() {
        if *is_needed {
            mark_targets(from.instruments(), instrument, needed.as_mut_slice());
        }
    }
    Ok(needed)
}

// Marks the targets of owner i's zones.
fn mark_targets<H: OwnerHead>(owners: &Owners<H>, i: usize, marks: &mut [bool]) {
    if i < owners.len() {
        for k in 0..owners.zone_count(i) {
            mark(marks, owners.target(i, k).into());
        }
    }
}

fn mark(marks: &mut [bool], member: usize) {
    if let Some(mark) = marks.get_mut(member) {
        *mark = true;
    }
}
