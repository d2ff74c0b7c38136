//! Brings a WAVE file into a bank: as new samples, or in the place of a sample.
ghost use Rattle.std.specs.Prelude.{◌≡◌, Ok, IfOk};
ghost use Rattle.edit_script.specs.Printing.{numbered};
ghost use Rattle.wave_file.specs.Imports.{sides_of};
ghost use Rattle.wave_file.specs.Recordings.{FitsKey};
ghost use Rattle.sfbank.specs.Outcome.{after_script};
ghost use Rattle.sfbank.specs.Prepared.{texts_of_bank};
ghost use Rattle.sfbank.specs.Recordings.{appended, put_in_place, change_of, after_edits, fault_of_replacement, import_outcome};
ghost use Rattle.sfbank.specs.Recordings.{recording_outcome, replace_outcome, IsScripted, IsRecordingUndone, IsReplaced};
ghost use Rattle.sfbank.specs.Steps.{ReadsRecording, ReadsInPlace, IsChange};
ghost use Rattle.sfbank.specs.Written.{Prepared, Runs};

use crate::edited_bank::{EditedBank, apply_all};
use crate::reading::read_bank;
use crate::writing::write_edited;
use bank_core::Bank;
use base_progress::NoReports;
use edit_forms::Edit;
use edit_refusals::Cause;
use edit_script::Line;
use program_hints::Remarks;
use program_reports::RunFault;
use sample_replacements::{ReplaceFault, replacement_edits};
use sf_base::{Failure, OutOfMemory};
use std::alloc::Global;
use std::io::Write;
use wave_file::{
    ReadOptions, Recording, Sides, WaveFault, import_edits, read_in_place, read_recording,
};

/// Where a recording goes in a bank.
#[derive(Clone, Copy)]
pub(crate) enum Destination<'a> {
    /// To the end of the samples, under this name.
    End(&'a [u8]),
    /// To the place of the sample with this number.
    Place(u32),
}

/// Reads the file and the WAVE file, appends the recording to the bank's samples, and writes the edited bank to `out`
/// and the undo script to `undo`. Both writers are flushed. A mono recording becomes one sample, a stereo recording a
/// left and a right sample that are linked to each other.
///
/// The name is truncated at a zero byte and to 20 bytes; for a stereo recording to 18 bytes, followed by ` L` or ` R`.
///
/// Where the file or the WAVE file has a fault, an edit is refused or an allocation fails, nothing is written. A
/// refused edit is reported by its line in the import's script. A fault of a writer has the number of bytes written to
/// it.
pub fn import_run<W: Write, V: Write>(
    alloc: Global,
    file: &[u8],
    wave: &[u8],
    options: ReadOptions,
    name: &[u8],
    out: &mut W,
    undo: &mut V,
) -> Result<(), RunFault>
    // The outcome is the fault of the file, else of the WAVE file, else the first refused edit, else both texts.
    ensures runs { Runs (record { out = W.contents out.old; out_new = W.contents out.new; undo = V.contents undo.old; undo_new = V.contents undo.new })
        (import_outcome options name.now file.now wave.now) result }
    // It is the outcome of the script of the import's edits.
    ensures script { IsScripted (appended name.now) options file.now wave.now }
    // Run on the written file, the undo text restores the canonical file of the first bank.
    ensures restores { IsRecordingUndone (appended name.now) options file.now wave.now }
{
    let destination = Destination::End(name);
    key_fits(options.key);
    record(alloc, file, wave, options, destination, out, undo)
}

/// Reads the file and the WAVE file, puts the recording in the place of sample `sample` of the bank, counted from 0, and
/// writes the edited bank to `out` and the undo script to `undo`. Both writers are flushed. The sample gets the
/// recording's points, rate, loop, key and correction; where the WAVE file states no key and `options` give none, it
/// keeps its own key and correction.
///
/// Of a pair, a left and a right sample that are linked to each other, both are replaced: by a stereo recording each
/// gets its channel, by a mono recording both get the same points. A stereo recording can only replace a pair
/// (`TwoChannels`).
///
/// Where the file or the WAVE file has a fault, the bank has no such sample, an edit is refused or an allocation fails,
/// nothing is written. A refused edit is reported by its line in the script of the edits. A fault of a writer has the
/// number of bytes written to it.
pub fn replace_run<W: Write, V: Write>(
    alloc: Global,
    file: &[u8],
    wave: &[u8],
    options: ReadOptions,
    sample: u32,
    out: &mut W,
    undo: &mut V,
) -> Result<(), RunFault>
    // The outcome is the fault of the file, else of the WAVE file, else why the recording doesn't fit, else the first
    // refused edit, else both texts.
    ensures runs { Runs (record { out = W.contents out.old; out_new = W.contents out.new; undo = V.contents undo.old; undo_new = V.contents undo.new })
        (replace_outcome options sample file.now wave.now) result }
    // The written file is that of the bank with the recording in the place of the sample, and nothing else changed.
    ensures keeps { IsReplaced options sample file.now wave.now }
    // It is the outcome of the script of the edits.
    ensures script { IsScripted (put_in_place sample) options file.now wave.now }
    // Run on the written file, the undo text restores the canonical file of the first bank.
    ensures restores { IsRecordingUndone (put_in_place sample) options file.now wave.now }
{
    let destination = Destination::Place(sample);
    key_fits(options.key);
    record(alloc, file, wave, options, destination, out, undo)
}

/// Proves that a key is a byte. It does nothing at run time.
pub(crate) fn key_fits(key: Option<u8>)
    ensures { FitsKey key }
{
    match key {
        Some(_key) => {}
        None => {}
    }
}

// Brings the recording into the bank, and writes both texts.
fn record<W: Write, V: Write>(
    alloc: Global,
    file: &[u8],
    wave: &[u8],
    options: ReadOptions,
    destination: Destination<'_>,
    out: &mut W,
    undo: &mut V,
) -> Result<(), RunFault>
    ensures { Runs (record { out = W.contents out.old; out_new = W.contents out.new; undo = V.contents undo.old; undo_new = V.contents undo.new })
        (recording_outcome (change_of destination.entry) options file.now wave.now) result }
{
    match read_recorded(alloc, file, wave, options) {
        Ok((bank, recording, sides)) => {
            match apply_recording(alloc, bank, destination, recording, &sides) {
                Ok(edited_bank) => write_edited(&edited_bank, out, undo),
                Err(fault) => Err(fault),
            }
        }
        Err(fault) => Err(fault),
    }
}

/// Reads a file as a bank, and a WAVE file as a recording with its sides.
pub(crate) fn read_recorded<'a>(
    alloc: Global,
    file: &'a [u8],
    wave: &'a [u8],
    options: ReadOptions,
) -> Result<(Bank<'a>, Recording<'a>, Sides), RunFault>
    ensures { ReadsRecording (λ all. all) options file.now wave.now result }
{
    match read_bank(alloc, file) {
        Ok((bank, _counts)) => {
            let recording = read_recording(alloc, wave, options)?;
            let sides = Sides::of(alloc, &recording.channels)?;
            Ok((bank, recording, sides))
        }
        Err(fault) => Err(fault),
    }
}

/// Reads a file as a bank, and a WAVE file as a recording with its sides. Where it can, it converts samples in the
/// memory of the WAVE file.
pub(crate) fn read_recorded_in_place<'a>(
    alloc: Global,
    file: &'a [u8],
    wave: &'a mut [u8],
    options: ReadOptions,
) -> Result<(Bank<'a>, Recording<'a>, Sides), RunFault>
    ensures { ReadsInPlace (λ all. all) options file.now wave.old result }
{
    match read_bank(alloc, file) {
        Ok((bank, _counts)) => match read_in_place(alloc, wave, options) {
            Ok(recording) => {
                let sides = Sides::of(alloc, &recording.channels)?;
                Ok((bank, recording, sides))
            }
            Err(Failure::Fault(fault)) => Err(RunFault::Recording(fault)),
            Err(Failure::OutOfMemory) => Err(RunFault::Memory),
        },
        Err(fault) => Err(fault),
    }
}

/// Applies the edits that bring a recording, whose points are split by side, to its destination in the bank.
pub(crate) fn apply_recording<'a>(
    alloc: Global,
    bank: Bank<'a>,
    destination: Destination<'_>,
    recording: Recording<'a>,
    sides: &'a Sides,
) -> Result<EditedBank<'a>, RunFault>
    requires { sides.now ≡ sides_of recording.channels }
    ensures { Prepared texts_of_bank (after_edits bank.entry (change_of destination.entry bank.entry recording.entry)) result }
{
    match recording_edits(alloc, &bank, destination, recording, sides) {
        Ok(edits) => apply_numbered(alloc, bank, edits),
        Err(fault) => Err(fault),
    }
}

// The edits that bring a recording to its destination in the bank.
fn recording_edits<'a>(
    alloc: Global,
    bank: &Bank<'a>,
    destination: Destination<'_>,
    recording: Recording<'a>,
    sides: &'a Sides,
) -> Result<Vec<Edit<'a>>, RunFault>
    requires { sides.now ≡ sides_of recording.channels }
    ensures { IsChange (λ edits. edits.items) (change_of destination.entry bank.now recording.entry) result }
{
    match destination {
        Destination::End(name) => {
            let count = bank.samples().len();
            let edits = import_edits(alloc, count, name, recording, sides)?;
            Ok(edits)
        }
        Destination::Place(sample) => match replacement_edits(
            alloc, bank, sample, recording, sides,
        ) {
            Ok(edits) => Ok(edits),
            Err(fault) => Err(fault_of_replacement(fault)),
        },
    }
}

// The fault of a run whose recording can't be put in the place of a sample.
fn fault_of_replacement(fault: ReplaceFault) -> RunFault
    ensures { result ≡ fault_of_replacement fault }
{
    match fault {
        ReplaceFault::NoSuchSample => RunFault::NoMember(Cause::NoSuchSample),
        ReplaceFault::TwoChannels => RunFault::Recording(WaveFault::TwoChannels),
        ReplaceFault::OutOfMemory => RunFault::Memory,
    }
}

/// Applies edits as the lines of a script, numbered from 1. Writes nothing.
pub(crate) fn apply_numbered<'a>(
    alloc: Global,
    mut bank: Bank<'a>,
    edits: Vec<Edit<'a>>,
) -> Result<EditedBank<'a>, RunFault>
    ensures { Prepared texts_of_bank (after_script bank.entry (Ok (numbered 1 edits.entry.items))) result }
{
    let lines = numbered_lines(alloc, edits)?;
    let mut remarks = Remarks::new(false);
    let undo = apply_all(alloc, &mut bank, lines, &mut remarks, &mut NoReports)?;
    Ok(EditedBank { bank, undo })
}

// Numbers edits as the lines of a script, from 1.
fn numbered_lines<'a>(alloc: Global, edits: Vec<Edit<'a>>) -> Result<Vec<Line<'a>>, OutOfMemory>
    ensures { IfOk result (λ lines. lines.items ≡ numbered 1 edits.entry.items) }
{
    let mut lines = Vec::new(alloc);
    let mut number = 0;
    for edit in edits {
        number += 1;
        lines.push(Line { number, edit })?;
    }
    Ok(lines)
}
