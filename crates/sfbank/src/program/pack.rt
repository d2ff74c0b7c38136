//! The command `pack`.
ghost use Rattle.std.specs.Prelude.{◌≡◌, Ok, IfOk, map};
ghost use Rattle.bank_format.specs.Canon.{canon};
ghost use Rattle.program_commands.specs.declared.words.Request.TheVariants.{Pack};
ghost use Rattle.script_tokens.specs.Pool.{pool_bytes};
ghost use Rattle.sfbank.specs.FolderPlans.{text_path};
ghost use Rattle.sfbank.specs.Folders.{pack_outcome};
ghost use Rattle.sfbank.specs.FolderSteps.{EndsEntries, EndsPack, EndsText, PacksFiles};
ghost use Rattle.sfbank.specs.KitPlans.{paths_of};
ghost use Rattle.sfbank.specs.KitSteps.{entry_of, file_of};
ghost use Rattle.sfbank.specs.Meanings.{Means};
ghost use Rattle.sfbank.specs.PlanParts.{apart};
ghost use Rattle.sfbank.specs.Steps.{Passes};

use super::checks::{reject_output, reject_same_file};
use super::folder_paths::{list_samples, text_path};
use super::listed::{ReadFile, fault_of_recorded, paths_of, read_entry, read_listed};
use super::listing::{Entry, file_entries};
use super::outputs::put;
use crate::edited_bank::EditedBank;
use crate::folders::{FolderText, pack as pack_bank, text_pool};
use file_host::Host;
use program_commands::PackPaths;
use program_hints::{Remarks, remark_on_row};
use program_reports::{Fault, KnowsError, RunFault};
use sf_base::OutOfMemory;
use sf_writer::BankFile;
use std::alloc::Global;
use std::io::Write;

/// Makes the bank of a folder. All its files are read whole first.
pub(crate) fn pack<'a, H: Host, O: Write + KnowsError>(
    host: &mut H,
    alloc: Global,
    paths: PackPaths<'a>,
    output: &mut O,
    remarks: &mut Remarks,
) -> Result<(), Fault<'a>>
    ensures { Means (Pack paths.entry)
        (record { files = H.world host.old; printed = O.contents output.old })
        (record { files = H.world host.new; printed = O.contents output.new }) (H.written host.new) result }
{
    match text_path(alloc, paths.folder) {
        Ok(path) => pack_at(host, alloc, paths, path.as_str(), output, remarks),
        Err(_) => Err(Fault::Run(RunFault::Memory, paths.out)),
    }
}

// Makes the bank of a folder whose text is at a path.
fn pack_at<'a, H: Host, O: Write + KnowsError>(
    host: &mut H,
    alloc: Global,
    paths: PackPaths<'a>,
    path: &str,
    output: &mut O,
    remarks: &mut Remarks,
) -> Result<(), Fault<'a>>
    requires { path.now ≡ text_path paths.folder.now }
    ensures { EndsPack paths.entry
        (record { files = H.world host.old; printed = O.contents output.old })
        (record { files = H.world host.new; printed = O.contents output.new }) (H.written host.new) result }
{
    match reject_output(host, paths.out, &[path], paths.force) {
        Ok(()) => match read_entry(host, alloc, paths.out, Entry { line: None, path }) {
            Ok(file) => {
                let text = file.bytes.as_slice();
                let end = pack_text(host, alloc, paths, text, output, remarks);
                remark_on_line(text, &end, remarks);
                end
            }
            Err(fault) => Err(fault),
        },
        Err(fault) => Err(fault),
    }
}

// Shows the line of the text that a fault is about.
fn remark_on_line(text: &[u8], end: &Result<(), Fault<'_>>, remarks: &mut Remarks) {
    match end {
        Err(Fault::RowFile(row, _)) | Err(Fault::RowRecording(row, _)) => {
            if let Some(line) = row.line {
                remark_on_row(text, line, false, remarks);
            }
        }
        _ => {}
    }
}

// Makes the bank of a text, whose WAVE files are not read yet.
fn pack_text<'a, H: Host, O: Write + KnowsError>(
    host: &mut H,
    alloc: Global,
    paths: PackPaths<'a>,
    text: &[u8],
    output: &mut O,
    remarks: &mut Remarks,
) -> Result<(), Fault<'a>>
    ensures { EndsText paths.entry text.now
        (record { files = H.world host.old; printed = O.contents output.old })
        (record { files = H.world host.new; printed = O.contents output.new }) (H.written host.new) result }
{
    match text_pool(alloc, text) {
        Ok(pool) => {
            let pool = pool.as_slice();
            let text = FolderText { text, pool };
            pack_listed(host, alloc, paths, text, output, remarks)
        }
        Err(fault) => Err(Fault::Run(fault, paths.out)),
    }
}

// Lists the WAVE files of a text, and makes the bank of them.
fn pack_listed<'a, H: Host, O: Write + KnowsError>(
    host: &mut H,
    alloc: Global,
    paths: PackPaths<'a>,
    text: FolderText<'_>,
    output: &mut O,
    remarks: &mut Remarks,
) -> Result<(), Fault<'a>>
    requires { pool_bytes text.text.now ≡ Ok text.pool.now }
    ensures { EndsText paths.entry text.entry.text.now
        (record { files = H.world host.old; printed = O.contents output.old })
        (record { files = H.world host.new; printed = O.contents output.new }) (H.written host.new) result }
{
    match list_samples(alloc, paths.folder, text) {
        Ok(files) => match file_entries(alloc, files.as_slice()) {
            Ok(entries) => {
                let entries = entries.as_slice();
                pack_entries(host, alloc, paths, text, entries, output, remarks)
            }
            Err(_) => Err(Fault::Run(RunFault::Memory, paths.out)),
        },
        Err(fault) => Err(Fault::Run(fault, paths.out)),
    }
}

// Reads the WAVE files that are listed, and makes the bank of them.
fn pack_entries<'a, H: Host, O: Write + KnowsError>(
    host: &mut H,
    alloc: Global,
    paths: PackPaths<'a>,
    text: FolderText<'_>,
    entries: &[Entry<'_>],
    output: &mut O,
    remarks: &mut Remarks,
) -> Result<(), Fault<'a>>
    requires { pool_bytes text.text.now ≡ Ok text.pool.now }
    ensures { EndsEntries paths.entry text.entry.text.now (map entry_of entries.now)
        (record { files = H.world host.old; printed = O.contents output.old })
        (record { files = H.world host.new; printed = O.contents output.new }) (H.written host.new) result }
{
    match reject_entries(host, alloc, paths.out, entries) {
        Ok(()) => match read_listed(host, alloc, paths.out, entries) {
            Ok(files) => {
                let files = files.as_slice();
                // The same text, for as long as the files.
                let text = FolderText {
                    text: text.text,
                    pool: text.pool,
                };
                match packed_bank(alloc, text, files, entries, paths.out, remarks) {
                    Ok(packed) => put(host, paths.out, &BankFile(&packed.bank), output),
                    Err(fault) => Err(fault),
                }
            }
            Err(fault) => Err(fault),
        },
        Err(fault) => Err(fault),
    }
}

// Rejects an output that is one of the WAVE files.
fn reject_entries<'a, H: Host>(
    host: &mut H,
    alloc: Global,
    out: &'a str,
    entries: &[Entry<'_>],
) -> Result<(), Fault<'a>>
    ensures { Passes (λ w rest. apart w out.entry.now (paths_of (map entry_of entries.now)) rest) (H.world host.old) (H.world host.new) result }
{
    match paths_of(alloc, entries) {
        Ok(paths) => reject_same_file(host, out, paths.as_slice()),
        Err(_) => Err(Fault::Run(RunFault::Memory, out)),
    }
}

// Makes the bank of a text and of WAVE files that are read.
fn packed_bank<'a, 'x>(
    alloc: Global,
    text: FolderText<'x>,
    files: &'x [ReadFile],
    entries: &[Entry<'_>],
    out: &'a str,
    remarks: &mut Remarks,
) -> Result<EditedBank<'x>, Fault<'a>>
    requires { pool_bytes text.text.now ≡ Ok text.pool.now }
    ensures { PacksFiles (λ made. canon made.bank) (map entry_of entries.now) out.entry
        (pack_outcome text.entry.text.now (map (λ f. f.bytes) (map file_of files.now))) result }
{
    match waves_of(alloc, files) {
        Ok(waves) => match pack_bank(alloc, text, waves.as_slice(), remarks) {
            Ok(packed) => Ok(packed),
            Err(fault) => Err(fault_of_recorded(alloc, fault, entries, out)),
        },
        Err(_) => Err(Fault::Run(RunFault::Memory, out)),
    }
}

// The bytes of the files.
fn waves_of<'f>(alloc: Global, files: &'f [ReadFile]) -> Result<Vec<&'f [u8]>, OutOfMemory>
    ensures { IfOk result (λ waves. map (λ wave. wave.now) waves.items ≡ map (λ f. f.bytes) (map file_of files.now)) }
{
    let mut waves = Vec::new(alloc);
    for file in files {
        waves.push(file.bytes.as_slice())?;
    }
    Ok(waves)
}
