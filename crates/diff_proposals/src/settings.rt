//! Proposes edits of the generators and modulators of a place: first those that remove some, then the others.
use crate::numbers::member_number;
use crate::views::Settings;
use diff_orders::{common_back, common_front, tail_from};
use edit_forms::SettingStep;
use modulators::Modulator;
use sf_base::OutOfMemory;
use std::alloc::Global;

/// Proposes steps that remove the generators and modulators that the place has too many of.
pub(crate) fn shrink_settings(
    alloc: Global,
    had: &Settings<'_>,
    wanted: &Settings<'_>,
) -> Result<Vec<SettingStep>, OutOfMemory> {
    let mut steps = Vec::new(alloc);
    for &(operator, _) in had.gens {
        if !wanted.gens.iter().any(|&(other, _)| other == operator) {
            steps.push(SettingStep::ClearGen { operator })?;
        }
    }
    remove_mods(&mut steps, had.mods, wanted.mods)?;
    Ok(steps)
}

/// Proposes steps that set the other generators and modulators of the place.
pub(crate) fn grow_settings(
    alloc: Global,
    had: &Settings<'_>,
    wanted: &Settings<'_>,
) -> Result<Vec<SettingStep>, OutOfMemory> {
    let mut steps = Vec::new(alloc);
    for &(operator, amount) in wanted.gens {
        if !had.gens.contains(&(operator, amount)) {
            steps.push(SettingStep::SetGen { operator, amount })?;
        }
    }
    set_mods(&mut steps, had.mods, wanted.mods)?;
    Ok(steps)
}

/// Whether the modulators differ but no step can change them, as one of them is a link.
pub(crate) fn mods_are_unreachable(had: &[Modulator], wanted: &[Modulator]) -> bool {
    had != wanted && (has_link(had) || has_link(wanted))
}

fn has_link(mods: &[Modulator]) -> bool {
    mods.iter().any(|modulator| modulator.is_link())
}

/// Where the modulators of two lists differ: from the index `first` on, up to an index of each list.
#[derive(Clone, Copy)]
struct ModDiff {
    first: usize,
    had_end: usize,
    wanted_end: usize,
}

fn mod_diff(had: &[Modulator], wanted: &[Modulator]) -> ModDiff {
    let first = common_front(had, wanted);
    let last = common_back(tail_from(had, first), tail_from(wanted, first));
    ModDiff {
        first,
        had_end: had.len() - last,
        wanted_end: wanted.len() - last,
    }
}

fn remove_mods(
    steps: &mut Vec<SettingStep>,
    had: &[Modulator],
    wanted: &[Modulator],
) -> Result<(), OutOfMemory> {
    let diff = mod_diff(had, wanted);
    let index = member_number(diff.wanted_end);
    for _ in diff.wanted_end..diff.had_end {
        steps.push(SettingStep::RemoveMod { index })?;
    }
    Ok(())
}

fn set_mods(
    steps: &mut Vec<SettingStep>,
    had: &[Modulator],
    wanted: &[Modulator],
) -> Result<(), OutOfMemory> {
    let diff = mod_diff(had, wanted);
    let changed = wanted.iter().enumerate().take(diff.wanted_end);
    for (number, &modulator) in changed.skip(diff.first) {
        let index = member_number(number);
        steps.push(if number < diff.had_end {
            SettingStep::SetMod { index, modulator }
        } else {
            SettingStep::AddMod { index, modulator }
        })?;
    }
    Ok(())
}
