//! Brings several recordings into a bank, with an instrument of them and a preset.
ghost use Rattle.std.specs.Prelude.{◌≡◌, IfOk, map};
ghost use Rattle.program_reports.specs.declared.run_fault.RunFault.TheVariants.{Presets};
ghost use Rattle.program_reports.specs.RunFaults.{in_run};
ghost use Rattle.sfbank.specs.Kits.{after_recordings, bare, kit_outcome, recordings_in, source_of};
ghost use Rattle.sfbank.specs.Kits.{IsKitScripted, IsKitUndone};
ghost use Rattle.sfbank.specs.KitSteps.{ReadsKit, ReadsRecordings, sides_in};
ghost use Rattle.sfbank.specs.Prepared.{texts_of_bank};
ghost use Rattle.sfbank.specs.Written.{Prepared, Runs};

use crate::edited_bank::EditedBank;
use crate::kit_fits::{fitting_members, fitting_waves, zones_fit};
use crate::reading::read_bank;
use crate::recorded::{apply_numbered, key_fits};
use crate::writing::write_edited;
use bank_core::Bank;
use kit_edits::{KitMembers, KitRecording, kit_edits};
use kit_tables::KitZone;
use plan_presets::PresetFault;
use program_reports::RunFault;
use sf_base::{Failure, OutOfMemory};
use std::alloc::Global;
use std::io::Write;
use wave_file::{ReadOptions, Sides, read_recording};

/// A recording to be imported.
#[derive(Clone, Copy)]
pub struct KitWave<'a> {
    /// What its sample is named after, usually the name of its file without the extension.
    pub stem: &'a [u8],
    /// Its WAVE file.
    pub wave: &'a [u8],
}

/// Reads the file and the WAVE files, appends the recordings to the bank's samples, and if `members` asks for them an
/// instrument of these zones, each with the index of its recording, and a preset of the instrument. Writes the edited
/// bank to `out` and the undo script to `undo`. Both writers are flushed. A mono recording becomes one sample, a stereo
/// recording a left and a right sample that are linked to each other.
///
/// The samples are named after the stems, cut to 20 bytes, or for a stereo recording to 18 bytes, followed by ` L` or
/// ` R`. Names that would be equal are made different by `~2`, `~3` and so on at their ends.
///
/// Where the file or a WAVE file has a fault, the bank has a preset with the numbers already, an edit is refused or an
/// allocation fails, nothing is written. A refused edit is reported by its line in the script of the edits. A fault of a
/// writer has the number of bytes written to it.
pub fn kit_run<'x, W: Write, V: Write>(
    alloc: Global,
    file: &'x [u8],
    waves: Vec<KitWave<'x>>,
    options: ReadOptions,
    zones: &[(usize, KitZone)],
    members: KitMembers,
    out: &mut W,
    undo: &mut V,
) -> Result<(), RunFault>
    // The outcome is the fault of the file, else of the first faulty WAVE file, else that the preset's numbers are in
    // use, else the first refused edit, else both texts.
    ensures runs { Runs (record { out = W.contents out.old; out_new = W.contents out.new; undo = V.contents undo.old; undo_new = V.contents undo.new })
        (kit_outcome (record { zones = zones.now; members = members }) options (map source_of waves.entry.items) file.now) result }
    // It is the outcome of the script of the edits.
    ensures script { IsKitScripted (record { zones = zones.now; members = members }) options (map source_of waves.entry.items) file.now }
    // Run on the written file, the undo text restores the canonical file of the first bank.
    ensures restores { IsKitUndone (record { zones = zones.now; members = members }) options (map source_of waves.entry.items) file.now }
{
    key_fits(options.key);
    zones_fit(zones);
    let members = fitting_members(members);
    let waves = fitting_waves(waves);
    add_kit(alloc, file, waves, options, zones, members, out, undo)
}

// Brings the recordings into the bank, and writes both texts.
fn add_kit<W: Write, V: Write>(
    alloc: Global,
    file: &[u8],
    waves: Vec<KitWave<'_>>,
    options: ReadOptions,
    zones: &[(usize, KitZone)],
    members: KitMembers,
    out: &mut W,
    undo: &mut V,
) -> Result<(), RunFault>
    ensures { Runs (record { out = W.contents out.old; out_new = W.contents out.new; undo = V.contents undo.old; undo_new = V.contents undo.new })
        (kit_outcome (record { zones = zones.now; members = members }) options (map source_of waves.entry.items) file.now) result }
{
    match read_kit(alloc, file, waves, options) {
        Ok((bank, recordings, sides)) => {
            match apply_kit(alloc, bank, recordings, sides.as_slice(), zones, members) {
                Ok(edited_bank) => write_edited(&edited_bank, out, undo),
                Err(fault) => Err(fault),
            }
        }
        Err(fault) => Err(fault),
    }
}

/// Reads a file as a bank, and WAVE files as recordings with their sides.
pub(crate) fn read_kit<'a, 'w: 'a>(
    alloc: Global,
    file: &'a [u8],
    waves: Vec<KitWave<'w>>,
    options: ReadOptions,
) -> Result<(Bank<'a>, Vec<KitRecording<'a>>, Vec<Sides>), RunFault>
    ensures { ReadsKit (λ kit. kit.0) (λ kit. kit.1.items) (λ kit. kit.2.items) options (map source_of waves.entry.items) file.now result }
{
    match read_bank(alloc, file) {
        Ok((bank, _counts)) => {
            let recordings = read_recordings(alloc, waves, options)?;
            let sides = all_sides(alloc, recordings.as_slice())?;
            Ok((bank, recordings, sides))
        }
        Err(fault) => Err(fault),
    }
}

// Reads WAVE files as recordings.
fn read_recordings<'a, 'w: 'a>(
    alloc: Global,
    waves: Vec<KitWave<'w>>,
    options: ReadOptions,
) -> Result<Vec<KitRecording<'a>>, RunFault>
    ensures { ReadsRecordings (λ recordings. recordings.items) (recordings_in options (map source_of waves.entry.items)) result }
{
    let mut recordings = Vec::new(alloc);
    let mut number = 0;
    for wave in waves {
        number += 1;
        match read_recording(alloc, wave.wave, options) {
            Ok(recording) => recordings.push(KitRecording {
                stem: wave.stem,
                recording,
            })?,
            Err(fault) => return Err(RunFault::InRecording(number, fault)),
        }
    }
    Ok(recordings)
}

// Converts the samples of recordings that are not borrowed from their files.
fn all_sides(alloc: Global, recordings: &[KitRecording<'_>]) -> Result<Vec<Sides>, OutOfMemory>
    ensures { IfOk result (λ sides. sides.items ≡ map sides_in recordings.now) }
{
    let mut sides = Vec::new(alloc);
    for recording in recordings {
        sides.push(Sides::of(alloc, &recording.recording.channels)?)?;
    }
    Ok(sides)
}

/// Adds a kit to the bank.
pub(crate) fn apply_kit<'a>(
    alloc: Global,
    bank: Bank<'a>,
    recordings: Vec<KitRecording<'a>>,
    sides: &'a [Sides],
    zones: &[(usize, KitZone)],
    members: KitMembers,
) -> Result<EditedBank<'a>, RunFault>
    requires { sides.now ≡ map sides_in recordings.items }
    ensures { Prepared texts_of_bank (after_recordings (record { zones = zones.now; members = members }) bank.entry (Ok (map bare recordings.entry.items))) result }
{
    match kit_edits(alloc, &bank, recordings, sides, zones, members) {
        Ok(edits) => apply_numbered(alloc, bank, edits),
        Err(failure) => Err(refused(failure)),
    }
}

// The fault of a run whose preset can't be added.
fn refused(failure: Failure<PresetFault>) -> RunFault
    ensures { result ≡ in_run Presets failure }
{
    match failure {
        Failure::Fault(fault) => RunFault::Presets(fault),
        Failure::OutOfMemory => RunFault::Memory,
    }
}
