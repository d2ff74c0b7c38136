//! Saves a folder with a text and the WAVE files of samples.
ghost use Rattle.std.specs.Prelude.{◌≡◌, ◌≤◌, ◌∷◌, [], Ok, Option, List, length, ℕ};
ghost use Rattle.std.specs.Path.{path_join};
ghost use Rattle.sf_base.specs.declared.limits.TheConstants.{POINTS};
ghost use Rattle.bank_parts.specs.Valid.{point_total};
ghost use Rattle.wave_file.specs.SampleWave.{sample_wave};
ghost use Rattle.sfbank.specs.PlanParts.{MakesFolder, SavesFile, SavesFolder};
ghost use Rattle.sfbank.specs.FolderPlans.{files_steps, inner_steps, sample_path, sample_steps, samples_path, steps_with};
ghost use Rattle.sfbank.specs.Ends.{EndsFor};
ghost use Rattle.sfbank.specs.SavedFolders.{MakesAt, SavesSteps};

use super::checks::is_either;
use super::folder_paths::{path_in, sample_path, samples_path};
use super::outputs::{is_broken_pipe, write_fault};
use bank_core::Sample;
use base_texts::Text;
use file_host::{Host, Which};
use program_reports::{Fault, RunFault};
use sf_base::Failure;
use std::alloc::Global;
use wave_file::SampleWave;

/// Makes a folder, unless it is there and `force` isn't given, and saves in it a text, in this file, and the WAVE file
/// of each sample.
pub(super) fn save_folder<'a, H: Host, T: Text>(
    host: &mut H,
    alloc: Global,
    folder: &'a str,
    force: bool,
    file: &str,
    text: &T,
    samples: &[Sample<'_>],
) -> Result<(), Fault<'a>>
    requires { point_total samples.now ≤ POINTS }
    ensures { (printed : Option (List ℕ)) → EndsFor
        (λ w. Ok (SavesFolder folder.entry.now force (steps_with folder.entry.now file.now (T.bytes text.now) samples.now)))
        (record { files = H.world host.old; printed = printed })
        (record { files = H.world host.new; printed = printed }) (H.written host.new) result }
{
    match make_folder(host, folder, folder) {
        Ok(is_new) => {
            if is_either(is_new, force) {
                save_inner(host, alloc, folder, file, text, samples)
            } else {
                Err(Fault::FolderThere(folder))
            }
        }
        Err(fault) => Err(fault),
    }
}

// Makes a folder, which is the folder or in it, unless something is there. Returns whether it is new.
fn make_folder<'a, H: Host>(host: &mut H, path: &str, folder: &'a str) -> Result<bool, Fault<'a>>
    ensures { MakesAt folder.entry.now path.now (H.world host.old) (H.world host.new) (H.written host.new) result }
{
    match host.make_folder(path) {
        Ok(is_new) => Ok(is_new),
        Err(Failure::OutOfMemory) => Err(Fault::Run(RunFault::Memory, folder)),
        Err(Failure::Fault(fault)) => {
            Err(Fault::Run(RunFault::Write(Which::Out, fault.written), folder))
        }
    }
}

// Makes the folder of the WAVE files, and saves all files.
fn save_inner<'a, H: Host, T: Text>(
    host: &mut H,
    alloc: Global,
    folder: &'a str,
    file: &str,
    text: &T,
    samples: &[Sample<'_>],
) -> Result<(), Fault<'a>>
    requires { point_total samples.now ≤ POINTS }
    ensures { SavesSteps folder.entry.now (inner_steps folder.entry.now file.now (T.bytes text.now) samples.now)
        (H.world host.old) (H.world host.new) (H.written host.new) result }
{
    match samples_path(alloc, folder) {
        Ok(path) => match make_folder(host, path.as_str(), folder) {
            Ok(_is_new) => save_files(host, alloc, folder, file, text, samples),
            Err(fault) => Err(fault),
        },
        Err(_) => Err(Fault::Run(RunFault::Memory, folder)),
    }
}

fn save_files<'a, H: Host, T: Text>(
    host: &mut H,
    alloc: Global,
    folder: &'a str,
    file: &str,
    text: &T,
    samples: &[Sample<'_>],
) -> Result<(), Fault<'a>>
    requires { point_total samples.now ≤ POINTS }
    ensures { SavesSteps folder.entry.now (files_steps folder.entry.now file.now (T.bytes text.now) samples.now)
        (H.world host.old) (H.world host.new) (H.written host.new) result }
{
    match save_text(host, alloc, folder, file, text) {
        Ok(()) => save_waves(host, alloc, folder, samples),
        Err(fault) => Err(fault),
    }
}

// Saves the text.
fn save_text<'a, H: Host, T: Text>(
    host: &mut H,
    alloc: Global,
    folder: &'a str,
    file: &str,
    text: &T,
) -> Result<(), Fault<'a>>
    ensures { SavesSteps folder.entry.now (SavesFile (path_join folder.entry.now file.now) (T.bytes text.now) ∷ [])
        (H.world host.old) (H.world host.new) (H.written host.new) result }
{
    match path_in(alloc, folder, file) {
        Ok(path) => save_in(host, folder, path.as_str(), text),
        Err(_) => Err(Fault::Run(RunFault::Memory, folder)),
    }
}

// Saves the WAVE files of samples.
fn save_waves<'a, H: Host>(
    host: &mut H,
    alloc: Global,
    folder: &'a str,
    samples: &[Sample<'_>],
) -> Result<(), Fault<'a>>
    requires { point_total samples.now ≤ POINTS }
    ensures { SavesSteps folder.entry.now (sample_steps folder.entry.now 0 samples.now)
        (H.world host.old) (H.world host.new) (H.written host.new) result }
{
    for (number, sample) in samples.iter().enumerate() {
        match save_wave(host, alloc, folder, number as u64, sample) {
            Ok(()) => {}
            Err(fault) => return Err(fault),
        }
    }
    Ok(())
}

// Saves the WAVE file of a sample.
fn save_wave<'a, H: Host>(
    host: &mut H,
    alloc: Global,
    folder: &'a str,
    number: u64,
    sample: &Sample<'_>,
) -> Result<(), Fault<'a>>
    requires { length sample.now.points ≤ POINTS }
    ensures { SavesSteps folder.entry.now (SavesFile (sample_path folder.entry.now number sample.now.name) (sample_wave sample.now) ∷ [])
        (H.world host.old) (H.world host.new) (H.written host.new) result }
{
    match sample_path(alloc, folder, number, &sample.name) {
        Ok(path) => save_in(host, folder, path.as_str(), &SampleWave::new(sample)),
        Err(_) => Err(Fault::Run(RunFault::Memory, folder)),
    }
}

// Saves a text as a file in the folder.
fn save_in<'a, H: Host, T: Text>(
    host: &mut H,
    folder: &'a str,
    path: &str,
    text: &T,
) -> Result<(), Fault<'a>>
    ensures { SavesSteps folder.entry.now (SavesFile path.now (T.bytes text.now) ∷ [])
        (H.world host.old) (H.world host.new) (H.written host.new) result }
{
    match host.save(path, text) {
        Ok(()) => Ok(()),
        Err(Failure::OutOfMemory) => Err(Fault::Run(RunFault::Memory, folder)),
        Err(Failure::Fault(fault)) => {
            let is_closed = is_broken_pipe(host.last_error());
            Err(write_fault(Which::Out, fault.written, folder, is_closed))
        }
    }
}
