//! The distinct files of a table.
ghost use Rattle.std.specs.Prelude.{◌≡◌, ◌+◌, ◌≤◌, ◌<◌, length, map, IfOk, OnOk, All};
ghost use Rattle.kit_tables.specs.declared.limits.TheConstants.{MOST_ROWS};
ghost use Rattle.kit_tables.specs.Rows.{row_of};
ghost use Rattle.kit_tables.specs.Files.{named_file, file_in, files_of, index_among, with_file};

use crate::row::KitRow;
use indexmap::IndexSet;
use sf_base::OutOfMemory;
use std::alloc::Global;

/// A file of a table.
#[derive(Debug, Clone, Copy)]
pub struct KitFile<'t> {
    /// Its path, as the table has it.
    pub path: &'t str,
    /// The number of the first line that names it, counted from 1.
    pub line: u64,
}

/// The distinct files of a table, and which of them each row names.
#[derive(Debug, Drop)]
pub struct KitFiles<'t> {
    /// The files, in order of first use.
    pub files: Vec<KitFile<'t>>,
    /// For each row the index of its file among `files`, from 0.
    pub of_rows: Vec<u32>,
}

/// Returns the distinct files of the rows of a table. Two files are the same if their paths have the same bytes.
pub fn kit_files<'t>(alloc: Global, rows: &[KitRow<'t>]) -> Result<KitFiles<'t>, OutOfMemory>
    requires { length rows.now ≤ MOST_ROWS }
    ensures files { IfOk result (λ kit. map named_file kit.files.items ≡ files_of (map row_of rows.now)) }
    ensures within { IfOk result (λ kit. All (λ index. index < length kit.files.items) kit.of_rows.items) }
    ensures of_rows { IfOk result (λ kit. kit.of_rows.items ≡ map (index_among (files_of (map row_of rows.now))) (map row_of rows.now)) }
{
    let mut paths = IndexSet::new(alloc);
    let mut files = Vec::new(alloc);
    let mut of_rows = Vec::new(alloc);
    for row in rows {
        let index = add_file(&mut paths, &mut files, row)?;
        of_rows.push(index)?;
    }
    Ok(KitFiles { files, of_rows })
}

// Appends the file of a row if it is new, and returns its index. `paths` has the paths of the files.
fn add_file<'t>(
    paths: &mut IndexSet<&'t str>,
    files: &mut Vec<KitFile<'t>>,
    row: &KitRow<'t>,
) -> Result<u32, OutOfMemory>
    requires paths { paths.old.keys ≡ map (λ file. file.path) files.old.items }
    requires few { length files.old.items < MOST_ROWS }
    ensures index { IfOk result (λ index. index ≡ index_among (map named_file files.old.items) (row_of row.now)) }
    ensures files { OnOk result (map named_file files.new.items ≡ with_file (map named_file files.old.items) (file_in (row_of row.now))) }
    ensures paths { OnOk result (paths.new.keys ≡ map (λ file. file.path) files.new.items) }
    ensures within { IfOk result (λ index. index < length files.new.items) }
    ensures more { OnOk result (length files.old.items ≤ length files.new.items) }
    ensures few { OnOk result (length files.new.items ≤ length files.old.items + 1) }
{
    let (index, is_new) = paths.insert_full(row.file)?;
    if is_new {
        files.push(KitFile {
            path: row.file,
            line: row.line,
        })?;
    }
    Ok(index as u32)
}
