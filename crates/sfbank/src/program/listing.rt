//! The recordings and zones that words or the table of a kit list.
ghost use Rattle.std.specs.Prelude.{◌≡◌, IfOk, List, map};
ghost use Rattle.std.specs.List.{enumerate_from, zip};
ghost use Rattle.std.specs.Path.{path_bytes};
ghost use Rattle.kit_tables.specs.Files.{named_file};
ghost use Rattle.kit_tables.specs.Rows.{rows_of};
ghost use Rattle.sfbank.specs.KitPlans.{entry_at, folder_of, listing_in, word_entry, word_zone};
ghost use Rattle.sfbank.specs.KitSteps.{ListsTable, entry_in, entry_of, row_zone};

use kit_tables::{KitFile, KitRow, KitZone, kit_files, parse_kit};
use program_reports::RunFault;
use sf_base::OutOfMemory;
use std::alloc::Global;
use std::path::{Path, PathBuf};

/// The path of the standard input. The recordings of a table from there are named from the current folder.
const STANDARD_INPUT: &str = "/dev/stdin";

/// A recording that is listed.
#[derive(Clone, Copy)]
pub(super) struct Entry<'p> {
    /// The number of the line that names it first, if it is on a table.
    pub(super) line: Option<u64>,
    pub(super) path: &'p str,
}

/// Lists the recordings that words name.
pub(super) fn list_words<'p>(
    alloc: Global,
    paths: &[&'p str],
) -> Result<Vec<Entry<'p>>, OutOfMemory>
    ensures { IfOk result (λ entries. map entry_of entries.items ≡ map word_entry paths.now) }
{
    let mut entries = Vec::new(alloc);
    for path in paths {
        entries.push(Entry { line: None, path })?;
    }
    Ok(entries)
}

/// Gives each recording that words name a zone of all keys.
pub(super) fn zones_of_words(
    alloc: Global,
    paths: &[&str],
) -> Result<Vec<(usize, KitZone)>, OutOfMemory>
    ensures { IfOk result (λ zones. zones.items ≡ map word_zone (enumerate_from 0 paths.now)) }
{
    let zones = paths
        .iter()
        .enumerate()
        .map(|(number, _path)| (number, KitZone::whole()))
        .collect(alloc)?;
    Ok(zones)
}

/// A recording of a table or of a text.
#[derive(Drop)]
pub(super) struct TableFile {
    pub(super) line: u64,
    pub(super) path: PathBuf<Global>,
}

/// The recordings and the zones of a table, each zone with the index of its recording.
#[derive(Drop)]
pub(super) struct TableListing {
    files: Vec<TableFile>,
    pub(super) zones: Vec<(usize, KitZone)>,
}

/// Lists what is in a table.
pub(super) fn list_table(alloc: Global, table: &str, text: &[u8]) -> Result<TableListing, RunFault>
    ensures { ListsTable (λ listing. listing) (listing_in table.now (rows_of text.now)) result }
{
    let rows = parse_kit(alloc, text)?;
    let listed = kit_files(alloc, rows.as_slice())?;
    let files = table_files(alloc, folder_of(table), listed.files.as_slice())?;
    let zones = zones_of_rows(alloc, rows.as_slice(), listed.of_rows.as_slice())?;
    Ok(TableListing { files, zones })
}

// The zone of each row, with the index of its file.
fn zones_of_rows(
    alloc: Global,
    rows: &[KitRow<'_>],
    numbers: &[u32],
) -> Result<Vec<(usize, KitZone)>, OutOfMemory>
    ensures { IfOk result (λ zones. zones.items ≡ map row_zone (zip rows.now numbers.now)) }
{
    let zones = rows
        .iter()
        .zip(numbers)
        .map(|(row, &number)| (number as usize, row.zone))
        .collect(alloc)?;
    Ok(zones)
}

// The files of a table, with paths that begin at a folder.
fn table_files(
    alloc: Global,
    folder: Path<'_>,
    listed: &[KitFile<'_>],
) -> Result<Vec<TableFile>, OutOfMemory>
    ensures { IfOk result (λ files. map entry_in files.items ≡ map (entry_at (path_bytes folder.entry)) (map named_file listed.now)) }
{
    let mut files = Vec::new(alloc);
    for file in listed {
        files.push(TableFile {
            line: file.line,
            path: folder.join(alloc, file.path)?,
        })?;
    }
    Ok(files)
}

// The folder of a table.
fn folder_of(table: &str) -> Path<'_>
    ensures { path_bytes result ≡ folder_of table.now }
{
    if table == STANDARD_INPUT {
        return Path::new("");
    }
    match Path::new(table).parent() {
        Some(folder) => folder,
        None => Path::new(""),
    }
}

impl TableListing {
    /// The recordings.
    pub(super) fn entries(&self, alloc: Global) -> Result<Vec<Entry<'_>>, OutOfMemory>
        ensures { IfOk result (λ entries. map entry_of entries.items ≡ map entry_in self.now.files.items) }
    {
        file_entries(alloc, self.files.as_slice())
    }
}

/// The recordings of a table or of a text.
pub(super) fn file_entries(
    alloc: Global,
    files: &[TableFile],
) -> Result<Vec<Entry<'_>>, OutOfMemory>
    ensures { IfOk result (λ entries. map entry_of entries.items ≡ map entry_in files.now) }
{
    let mut entries = Vec::new(alloc);
    for file in files {
        entries.push(Entry {
            line: Some(file.line),
            path: file.path.as_str(),
        })?;
    }
    Ok(entries)
}
