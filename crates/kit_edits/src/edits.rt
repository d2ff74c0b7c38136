//! The edits that add a kit to a bank.
ghost use Rattle.std.specs.Prelude.{◌≡◌, ◌++◌, Ok, IfOk, OnOk, MatchResult};
ghost use Rattle.kit_edits.specs.Appending.{AreSplit};
ghost use Rattle.kit_edits.specs.Members.{is_numbered, has_preset, numbers_in_use, member_edits, preset_edits};
ghost use Rattle.kit_edits.specs.Kits.{all_edits, kit_edits, IsKitFailure};

use crate::instrument::{instrument_edit, preset_edit};
use crate::kit::{KitMembers, KitPreset, KitRecording};
use crate::numbers::Numbered;
use crate::samples::{KitSamples, append_all};
use bank_core::{Bank, Head, Owners};
use edit_forms::Edit;
use kit_tables::KitZone;
use plan_presets::{PresetFault, PresetNumbers};
use sf_base::{Failure, OutOfMemory};
use std::alloc::Global;
use wave_file::Sides;

/// The edits that add a kit to a bank: each recording as one sample, or two if it is stereo; then, if they are given,
/// an instrument and a preset that plays it. `sides` has the points of each recording that are not borrowed from its
/// file.
///
/// Each row of `zones` is the index of a recording, and its zone; a row without such a recording makes
/// none. A stereo recording gets two zones, left and right.
///
/// A sample is named for its file. Names are truncated to 20 bytes (18 before ` L` and ` R`), and later ones get `~2`,
/// `~3` and so on where the kit has such a name.
///
/// If a bank has no room for all samples, the edits end with the recording for which there is none, and are refused.
///
/// `InUse` if there is a preset with the numbers of the new one.
#[tactic(auto, unfolding(crate::specs::Kits::kit_edits))]
pub fn kit_edits<'a>(
    alloc: Global,
    bank: &Bank<'_>,
    recordings: Vec<KitRecording<'a>>,
    sides: &'a [Sides],
    zones: &[(usize, KitZone)],
    members: KitMembers,
) -> Result<Vec<Edit<'a>>, Failure<PresetFault>>
    requires split { AreSplit recordings.items sides.now }
    ensures { let due = kit_edits bank.now recordings.entry.items zones.now members in
        MatchResult result (λ edits. due ≡ Ok edits.items) (IsKitFailure due) }
{
    if let Some(numbers) = numbers_in_use(bank, members) {
        return Err(Failure::Fault(PresetFault::InUse(numbers)));
    }
    Ok(all_edits(alloc, bank, recordings, sides, zones, members)?)
}

fn all_edits<'a>(
    alloc: Global,
    bank: &Bank<'_>,
    recordings: Vec<KitRecording<'a>>,
    sides: &'a [Sides],
    zones: &[(usize, KitZone)],
    members: KitMembers,
) -> Result<Vec<Edit<'a>>, OutOfMemory>
    requires split { AreSplit recordings.items sides.now }
    ensures { IfOk result (λ edits. edits.items ≡ all_edits bank.now recordings.entry.items zones.now members) }
{
    bank.soundness();
    let (kit, has_room) = append_all(alloc, bank.samples().len(), recordings, sides)?;
    let KitSamples {
        mut edits,
        numbered,
        count: _,
        used: _,
    } = kit;
    if has_room {
        push_members(alloc, bank, numbered.as_slice(), zones, members, &mut edits)?;
    }
    Ok(edits)
}

// Appends the edits that add the instrument and the preset.
fn push_members<'a>(
    alloc: Global,
    bank: &Bank<'_>,
    numbered: &[Numbered],
    zones: &[(usize, KitZone)],
    members: KitMembers,
    edits: &mut Vec<Edit<'a>>,
) -> Result<(), OutOfMemory>
    ensures { OnOk result (edits.new.items ≡ edits.old.items ++ member_edits bank.now numbered.now zones.now members) }
{
    let KitMembers { instrument, preset } = members;
    let Some(name) = instrument else {
        return Ok(());
    };
    bank.soundness();
    let at = bank.instruments().len() as u32;
    edits.push(instrument_edit(alloc, at, name, numbered, zones)?)?;
    push_preset(alloc, bank, preset, edits)
}

// Appends the edit that adds the preset of the instrument to be added.
fn push_preset<'a>(
    alloc: Global,
    bank: &Bank<'_>,
    preset: Option<KitPreset>,
    edits: &mut Vec<Edit<'a>>,
) -> Result<(), OutOfMemory>
    ensures { OnOk result (edits.new.items ≡ edits.old.items ++ preset_edits bank.now preset) }
{
    let Some(preset) = preset else {
        return Ok(());
    };
    bank.soundness();
    let instrument = bank.instruments().len() as u16;
    let at = bank.presets().len() as u32;
    edits.push(preset_edit(alloc, at, preset, instrument)?)?;
    Ok(())
}

// The numbers of the preset to be made, if another has them.
fn numbers_in_use(bank: &Bank<'_>, members: KitMembers) -> Option<PresetNumbers>
    ensures { result ≡ numbers_in_use bank.now members }
{
    let KitMembers { instrument, preset } = members;
    let _name = instrument?;
    let KitPreset { numbers, name: _ } = preset?;
    has_preset(bank.presets(), numbers).then_some(numbers)
}

// Whether some preset has these numbers.
fn has_preset(presets: &Owners<Head>, numbers: PresetNumbers) -> bool
    ensures { result ≡ has_preset presets.now numbers }
{
    for i in 0..presets.len() {
        if has_numbers(presets.head(i), numbers) {
            return true;
        }
    }
    false
}

fn has_numbers(head: &Head, numbers: PresetNumbers) -> bool
    ensures { result ≡ is_numbered numbers head.now }
{
    head.bank == numbers.bank && head.number == numbers.number
}
