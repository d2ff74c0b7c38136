//! Brings the recordings that are listed into a bank.
ghost use Rattle.std.specs.Prelude.{◌≡◌, Option, List, ℕ, IfOk, map};
ghost use Rattle.sfbank.specs.Kits.{kit_outcome, source_of};
ghost use Rattle.sfbank.specs.KitPlans.{paths_of, recordings_apart, with_kit};
ghost use Rattle.sfbank.specs.KitSteps.{EndsListed, IsOfKit, IsOfRecording, ReadsEntry, ReadsListed, are_paths};
ghost use Rattle.sfbank.specs.KitSteps.{entry_of, file_of, source_read};
ghost use Rattle.sfbank.specs.Ends.{EndsFor};
ghost use Rattle.sfbank.specs.Steps.{Passes};

use super::checks::reject_same_file;
use super::kits::KitWork;
use super::listing::Entry;
use super::outputs::save_both;
use crate::kits::{KitWave, apply_kit, read_kit};
use file_host::Host;
use kit_edits::KitMembers;
use kit_tables::KitZone;
use program_commands::recording_name;
use program_reports::{Fault, RowPath, RunFault};
use sf_base::{Failure, OutOfMemory};
use std::alloc::Global;
use wave_file::WaveFault;

/// A recording that was read.
#[derive(Drop)]
pub(super) struct ReadFile {
    path: String,
    pub(super) bytes: Vec<u8>,
}

/// Imports the recordings that are listed, with an instrument of these zones and a preset if `members` asks for them.
pub(super) fn import_listed<'a, H: Host>(
    host: &mut H,
    alloc: Global,
    work: KitWork<'a>,
    file: &[u8],
    entries: &[Entry<'_>],
    zones: &[(usize, KitZone)],
    members: KitMembers,
) -> Result<(), Fault<'a>>
    ensures { (printed : Option (List ℕ)) → EndsListed work.entry members file.now (record { entries = map entry_of entries.now; zones = zones.now })
        (record { files = H.world host.old; printed = printed })
        (record { files = H.world host.new; printed = printed }) (H.written host.new) result }
{
    match reject_recordings(host, alloc, work, entries) {
        Ok(()) => match read_listed(host, alloc, work.out, entries) {
            Ok(files) => {
                let files = files.as_slice();
                save_kit(host, alloc, work, file, entries, zones, members, files)
            }
            Err(fault) => Err(fault),
        },
        Err(fault) => Err(fault),
    }
}

// Rejects outputs that are one of the recordings.
fn reject_recordings<'a, H: Host>(
    host: &mut H,
    alloc: Global,
    work: KitWork<'a>,
    entries: &[Entry<'_>],
) -> Result<(), Fault<'a>>
    ensures { Passes (recordings_apart work.entry (paths_of (map entry_of entries.now))) (H.world host.old) (H.world host.new) result }
{
    match paths_of(alloc, entries) {
        Ok(paths) => match reject_same_file(host, work.out, paths.as_slice()) {
            Ok(()) => reject_same_file(host, work.undo, paths.as_slice()),
            Err(fault) => Err(fault),
        },
        Err(_) => Err(Fault::Run(RunFault::Memory, work.out)),
    }
}

/// The paths of the recordings.
pub(super) fn paths_of<'p>(
    alloc: Global,
    entries: &[Entry<'p>],
) -> Result<Vec<&'p str>, OutOfMemory>
    ensures { IfOk result (λ paths. are_paths paths.items ≡ paths_of (map entry_of entries.now)) }
{
    let mut paths = Vec::new(alloc);
    for entry in entries {
        paths.push(entry.path)?;
    }
    Ok(paths)
}

/// Reads the recordings.
pub(super) fn read_listed<'a, H: Host>(
    host: &mut H,
    alloc: Global,
    out: &'a str,
    entries: &[Entry<'_>],
) -> Result<Vec<ReadFile>, Fault<'a>>
    ensures { ReadsListed (λ files. map file_of files.items) (H.world host.old) (H.world host.new) (map entry_of entries.now) result }
{
    let mut files = Vec::new(alloc);
    for entry in entries {
        match read_entry(host, alloc, out, *entry) {
            Ok(file) => {
                if files.push(file).is_err() {
                    return Err(Fault::Run(RunFault::Memory, out));
                }
            }
            Err(fault) => return Err(fault),
        }
    }
    Ok(files)
}

/// Reads a recording.
pub(super) fn read_entry<'a, H: Host>(
    host: &mut H,
    alloc: Global,
    out: &'a str,
    entry: Entry<'_>,
) -> Result<ReadFile, Fault<'a>>
    ensures { ReadsEntry file_of (H.world host.old) (H.world host.new) (entry_of entry.entry) result }
{
    let Entry { line, path } = entry;
    let Ok(text) = String::from_str(alloc, path) else {
        return Err(Fault::Run(RunFault::Memory, out));
    };
    match host.read(alloc, path) {
        Ok(bytes) => Ok(ReadFile { path: text, bytes }),
        Err(Failure::Fault(why)) => Err(Fault::RowFile(RowPath { line, path: text }, why)),
        Err(Failure::OutOfMemory) => Err(Fault::Run(RunFault::Memory, out)),
    }
}

// Saves the bank with the kit, and the undo script.
fn save_kit<'a, H: Host>(
    host: &mut H,
    alloc: Global,
    work: KitWork<'a>,
    file: &[u8],
    entries: &[Entry<'_>],
    zones: &[(usize, KitZone)],
    members: KitMembers,
    files: &[ReadFile],
) -> Result<(), Fault<'a>>
    ensures { (printed : Option (List ℕ)) → EndsFor (λ w. with_kit work.entry (map entry_of entries.now)
        (kit_outcome (record { zones = zones.now; members = members }) work.entry.options
        (map source_read (map file_of files.now)) file.now))
        (record { files = H.world host.old; printed = printed })
        (record { files = H.world host.new; printed = printed }) (H.written host.new) result }
{
    match kit_waves(alloc, files) {
        Ok(sources) => save_sources(host, alloc, work, file, entries, zones, members, sources),
        Err(_) => Err(Fault::Run(RunFault::Memory, work.out)),
    }
}

// The recordings with what their samples are named after.
fn kit_waves(alloc: Global, files: &[ReadFile]) -> Result<Vec<KitWave<'_>>, OutOfMemory>
    ensures { IfOk result (λ sources. map source_of sources.items ≡ map source_read (map file_of files.now)) }
{
    let mut sources = Vec::new(alloc);
    for file in files {
        sources.push(KitWave {
            stem: recording_name(file.path.as_str()).as_bytes(),
            wave: file.bytes.as_slice(),
        })?;
    }
    Ok(sources)
}

fn save_sources<'a, H: Host>(
    host: &mut H,
    alloc: Global,
    work: KitWork<'a>,
    file: &[u8],
    entries: &[Entry<'_>],
    zones: &[(usize, KitZone)],
    members: KitMembers,
    sources: Vec<KitWave<'_>>,
) -> Result<(), Fault<'a>>
    ensures { (printed : Option (List ℕ)) → EndsFor (λ w. with_kit work.entry (map entry_of entries.now)
        (kit_outcome (record { zones = zones.now; members = members }) work.entry.options (map source_of sources.entry.items) file.now))
        (record { files = H.world host.old; printed = printed })
        (record { files = H.world host.new; printed = printed }) (H.written host.new) result }
{
    match read_kit(alloc, file, sources, work.options) {
        Ok((bank, recordings, sides)) => {
            match apply_kit(alloc, bank, recordings, sides.as_slice(), zones, members) {
                Ok(edited_bank) => save_both(host, work.out, work.undo, &edited_bank),
                Err(fault) => Err(fault_of_recorded(alloc, fault, entries, work.out)),
            }
        }
        Err(fault) => Err(fault_of_recorded(alloc, fault, entries, work.out)),
    }
}

/// The fault of a run with recordings: that of a recording names its file.
pub(super) fn fault_of_recorded<'a>(
    alloc: Global,
    fault: RunFault,
    entries: &[Entry<'_>],
    out: &'a str,
) -> Fault<'a>
    ensures { IsOfKit (map entry_of entries.now) out.entry fault result }
{
    let RunFault::InRecording(number, why) = fault else {
        return Fault::Run(fault, out);
    };
    match entries.get(number.saturating_sub(1) as usize) {
        Some(entry) => of_recording(alloc, *entry, why, out),
        None => Fault::Run(fault, out),
    }
}

// The fault of a recording that can't be imported.
fn of_recording<'a>(alloc: Global, entry: Entry<'_>, why: WaveFault, out: &'a str) -> Fault<'a>
    ensures { IsOfRecording (entry_of entry.entry) why result }
{
    match String::from_str(alloc, entry.path) {
        Ok(path) => Fault::RowRecording(
            RowPath {
                line: entry.line,
                path,
            },
            why,
        ),
        Err(_) => Fault::Run(RunFault::Memory, out),
    }
}
