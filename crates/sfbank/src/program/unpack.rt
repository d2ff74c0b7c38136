//! The command `unpack`.
ghost use Rattle.std.specs.Prelude.{◌≡◌, Ok, Option, List, ℕ};
ghost use Rattle.program_commands.specs.declared.words.Request.TheVariants.{Unpack};
ghost use Rattle.sfbank.specs.FolderPlans.{bank_outcome, with_folder};
ghost use Rattle.sfbank.specs.Ends.{EndsFor};
ghost use Rattle.sfbank.specs.Meanings.{Means};

use super::folder_paths::BANK;
use super::inputs::read_input;
use super::saved_folder::save_folder;
use crate::reading::read_bank;
use crate::script::{FormedScript, ScriptForm};
use bank_core::Bank;
use file_host::Host;
use program_commands::UnpackPaths;
use program_reports::{Fault, RunFault};
use script_of_bank::SamplePoints;
use sf_base::OutOfMemory;
use std::alloc::Global;

/// Writes a bank as a folder: its script without points but with comments, and a WAVE file for each sample. The bank is read whole first.
pub(crate) fn unpack<'a, H: Host>(
    host: &mut H,
    alloc: Global,
    paths: UnpackPaths<'a>,
) -> Result<(), Fault<'a>>
    ensures { (printed : Option (List ℕ)) → Means (Unpack paths.entry)
        (record { files = H.world host.old; printed = printed })
        (record { files = H.world host.new; printed = printed }) (H.written host.new) result }
{
    match read_input(host, alloc, paths.input) {
        Ok(file) => unpack_file(host, alloc, paths, file.as_slice()),
        Err(fault) => Err(fault),
    }
}

fn unpack_file<'a, H: Host>(
    host: &mut H,
    alloc: Global,
    paths: UnpackPaths<'a>,
    file: &[u8],
) -> Result<(), Fault<'a>>
    ensures { (printed : Option (List ℕ)) → EndsFor (λ w. with_folder paths.entry (bank_outcome file.now))
        (record { files = H.world host.old; printed = printed })
        (record { files = H.world host.new; printed = printed }) (H.written host.new) result }
{
    match read_bank(alloc, file) {
        Ok((bank, _counts)) => unpack_bank(host, alloc, paths, &bank),
        Err(fault) => Err(Fault::Run(fault, paths.folder)),
    }
}

// Saves the script and the WAVE files.
fn unpack_bank<'a, H: Host>(
    host: &mut H,
    alloc: Global,
    paths: UnpackPaths<'a>,
    bank: &Bank<'_>,
) -> Result<(), Fault<'a>>
    ensures { (printed : Option (List ℕ)) → EndsFor (λ w. with_folder paths.entry (Ok bank.now))
        (record { files = H.world host.old; printed = printed })
        (record { files = H.world host.new; printed = printed }) (H.written host.new) result }
{
    let form = ScriptForm {
        points: SamplePoints::LeftOut,
        comments: true,
    };
    match FormedScript::of(alloc, bank, form) {
        Ok(script) => save_folder(
            host,
            alloc,
            paths.folder,
            paths.force,
            BANK,
            &script,
            bank.samples(),
        ),
        Err(OutOfMemory) => Err(Fault::Run(RunFault::Memory, paths.folder)),
    }
}
