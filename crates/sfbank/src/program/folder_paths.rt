//! The paths of the files of a folder.
ghost use Rattle.std.specs.Prelude.{◌≡◌, IfOk, Ok, map};
ghost use Rattle.std.specs.Path.{path_buf_bytes, path_join};
ghost use Rattle.edit_script.specs.Script.{script_of};
ghost use Rattle.script_tokens.specs.Pool.{pool_bytes};
ghost use Rattle.sfbank.specs.FolderPlans.{entries_due, sample_entry, sample_path, samples_path, text_path};
ghost use Rattle.sfbank.specs.Folders.{lines_read};
ghost use Rattle.sfbank.specs.KitSteps.{entry_in};
ghost use Rattle.sfbank.specs.Written.{Prepared};

use super::listing::TableFile;
use crate::folders::{FolderText, text_lines};
use bank_folders::{BareSample, bare_samples, sample_file};
use program_reports::RunFault;
use sf_base::{Name20, OutOfMemory};
use std::alloc::Global;
use std::path::{Path, PathBuf};

/// The name of the text of a bank in a folder.
pub(super) const BANK: &str = "bank.txt";

/// The name of the table of a kit in a folder.
pub(super) const KIT: &str = "kit.txt";

/// The name of the folder of WAVE files in a folder.
const SAMPLES: &str = "samples";

/// The path of the text in a folder.
pub(super) fn text_path(alloc: Global, folder: &str) -> Result<PathBuf<Global>, OutOfMemory>
    ensures { IfOk result (λ path. path_buf_bytes path ≡ text_path folder.now) }
{
    path_in(alloc, folder, BANK)
}

/// The path of a file in a folder.
pub(super) fn path_in(
    alloc: Global,
    folder: &str,
    file: &str,
) -> Result<PathBuf<Global>, OutOfMemory>
    ensures { IfOk result (λ path. path_buf_bytes path ≡ path_join folder.now file.now) }
{
    Ok(Path::new(folder).join(alloc, file)?)
}

/// The path of the folder of WAVE files in a folder.
pub(super) fn samples_path(alloc: Global, folder: &str) -> Result<PathBuf<Global>, OutOfMemory>
    ensures { IfOk result (λ path. path_buf_bytes path ≡ samples_path folder.now) }
{
    Ok(Path::new(folder).join(alloc, SAMPLES)?)
}

/// The path of the WAVE file of a sample in a folder.
pub(super) fn sample_path(
    alloc: Global,
    folder: &str,
    number: u64,
    name: &Name20,
) -> Result<PathBuf<Global>, OutOfMemory>
    ensures { IfOk result (λ path. path_buf_bytes path ≡ sample_path folder.now number name.now) }
{
    let samples = samples_path(alloc, folder)?;
    let file = sample_file(alloc, number, name)?;
    Ok(samples.join(alloc, file.as_str())?)
}

/// The WAVE files of the samples that the lines of a text add without points.
pub(super) fn list_samples(
    alloc: Global,
    folder: &str,
    text: FolderText<'_>,
) -> Result<Vec<TableFile>, RunFault>
    requires { pool_bytes text.text.now ≡ Ok text.pool.now }
    ensures { Prepared (λ files. map entry_in files.items) (entries_due folder.now (lines_read (script_of text.entry.text.now))) result }
{
    match text_lines(alloc, text) {
        Ok(lines) => {
            let samples = bare_samples(alloc, lines.as_slice())?;
            let files = sample_files(alloc, folder, samples.as_slice())?;
            Ok(files)
        }
        Err(fault) => Err(fault),
    }
}

fn sample_files(
    alloc: Global,
    folder: &str,
    samples: &[BareSample],
) -> Result<Vec<TableFile>, OutOfMemory>
    ensures { IfOk result (λ files. map entry_in files.items ≡ map (sample_entry folder.now) samples.now) }
{
    let mut files = Vec::new(alloc);
    for sample in samples {
        files.push(TableFile {
            line: sample.line,
            path: sample_path(alloc, folder, sample.number, &sample.name)?,
        })?;
    }
    Ok(files)
}
