//! The command `wave --all`.
ghost use Rattle.std.specs.Prelude.{◌≡◌, Ok, Option, List, ℕ};
ghost use Rattle.program_commands.specs.declared.recordings.WaveAllPaths.{WaveAllPaths};
ghost use Rattle.program_commands.specs.declared.words.Request.TheVariants.{WaveAll};
ghost use Rattle.sfbank.specs.FolderPlans.{bank_outcome};
ghost use Rattle.sfbank.specs.KitFolders.{listed_instrument, with_instrument, with_samples};
ghost use Rattle.sfbank.specs.Ends.{EndsFor};
ghost use Rattle.sfbank.specs.Meanings.{Means};
ghost use Rattle.sfbank.specs.Written.{Prepared};

use super::folder_paths::KIT;
use super::inputs::read_input;
use super::saved_folder::save_folder;
use crate::reading::read_bank;
use bank_core::Bank;
use bank_folders::sample_file_names;
use edit_refusals::Cause;
use file_host::Host;
use kit_of_instrument::KitTable;
use program_commands::WaveAllPaths;
use program_reports::{Fault, RunFault};
use std::alloc::Global;

/// Writes all samples of a bank as WAVE files, and the zones of an instrument as the table of a kit. The bank is read
/// whole first.
pub(crate) fn wave_all<'a, H: Host>(
    host: &mut H,
    alloc: Global,
    paths: WaveAllPaths<'a>,
) -> Result<(), Fault<'a>>
    ensures { (printed : Option (List ℕ)) → Means (WaveAll paths.entry)
        (record { files = H.world host.old; printed = printed })
        (record { files = H.world host.new; printed = printed }) (H.written host.new) result }
{
    match read_input(host, alloc, paths.input) {
        Ok(file) => save_samples(host, alloc, paths, file.as_slice()),
        Err(fault) => Err(fault),
    }
}

fn save_samples<'a, H: Host>(
    host: &mut H,
    alloc: Global,
    paths: WaveAllPaths<'a>,
    file: &[u8],
) -> Result<(), Fault<'a>>
    ensures { (printed : Option (List ℕ)) → EndsFor (λ w. with_samples paths.entry (bank_outcome file.now))
        (record { files = H.world host.old; printed = printed })
        (record { files = H.world host.new; printed = printed }) (H.written host.new) result }
{
    match read_bank(alloc, file) {
        Ok((bank, _counts)) => save_kit(host, alloc, paths, &bank),
        Err(fault) => Err(Fault::Run(fault, paths.folder)),
    }
}

fn save_kit<'a, H: Host>(
    host: &mut H,
    alloc: Global,
    paths: WaveAllPaths<'a>,
    bank: &Bank<'_>,
) -> Result<(), Fault<'a>>
    ensures { (printed : Option (List ℕ)) → EndsFor (λ w. with_samples paths.entry (Ok bank.now))
        (record { files = H.world host.old; printed = printed })
        (record { files = H.world host.new; printed = printed }) (H.written host.new) result }
{
    match listed_instrument(bank, paths.instrument) {
        Ok(instrument) => save_instrument(host, alloc, paths, bank, instrument),
        Err(fault) => Err(Fault::Run(fault, paths.folder)),
    }
}

// The instrument of the table: the one that is given, or the first.
fn listed_instrument(bank: &Bank<'_>, given: Option<u32>) -> Result<u32, RunFault>
    ensures { Prepared (λ i. i) (listed_instrument given bank.now) result }
{
    match given {
        None => Ok(0),
        Some(number) if (number as usize) < bank.instruments().len() => Ok(number),
        Some(_) => Err(RunFault::NoMember(Cause::NoSuchInstrument)),
    }
}

fn save_instrument<'a, H: Host>(
    host: &mut H,
    alloc: Global,
    paths: WaveAllPaths<'a>,
    bank: &Bank<'_>,
    instrument: u32,
) -> Result<(), Fault<'a>>
    ensures { (printed : Option (List ℕ)) → EndsFor (λ w. with_instrument paths.entry bank.now (Ok instrument))
        (record { files = H.world host.old; printed = printed })
        (record { files = H.world host.new; printed = printed }) (H.written host.new) result }
{
    match sample_file_names(alloc, bank.samples()) {
        Ok(files) => {
            let table = KitTable {
                bank,
                instrument,
                files: files.as_slice(),
            };
            save_folder(
                host,
                alloc,
                paths.folder,
                paths.force,
                KIT,
                &table,
                bank.samples(),
            )
        }
        Err(_) => Err(Fault::Run(RunFault::Memory, paths.folder)),
    }
}
