//! The command `import` for several recordings and for the table of a kit.
ghost use Rattle.std.specs.Prelude.{◌≡◌, Option, Some, List, ℕ, IfOk, map};
ghost use Rattle.program_commands.specs.declared.words.Request.TheVariants.{ImportKit};
ghost use Rattle.program_commands.specs.declared.kits.KitSource.TheVariants.{Files, Table};
ghost use Rattle.kit_tables.specs.Rows.{rows_of};
ghost use Rattle.sfbank.specs.KitPlans.{kit_members, listing_in, listing_of_words, outputs_apart, script_apart};
ghost use Rattle.sfbank.specs.KitPlans.{cut_name, table_apart, table_name};
ghost use Rattle.sfbank.specs.KitSteps.{EndsIfListed, EndsKit, EndsListed, are_paths, entry_of};
ghost use Rattle.sfbank.specs.Meanings.{Means};
ghost use Rattle.sfbank.specs.Steps.{Passes};

use super::checks::{reject_bank, reject_same_file};
use super::inputs::{read_input, read_two};
use super::listed::import_listed;
use super::listing::{Entry, list_table, list_words, zones_of_words};
use bank_format::before_zero;
use file_host::Host;
use kit_edits::{KitMembers, KitPreset};
use kit_tables::KitZone;
use program_commands::{KitPaths, KitSource, NewPreset, recording_name};
use program_hints::{Remarks, remark_on_row};
use program_reports::{Fault, RunFault};
use sf_base::limits::NAME_LENGTH;
use sf_base::{Name20, OutOfMemory, front_of};
use std::alloc::Global;
use wave_file::ReadOptions;

/// The bank of a kit, how recordings are read, and where the edited bank is saved.
#[derive(Clone, Copy)]
pub(super) struct KitWork<'a> {
    pub(super) input: &'a str,
    pub(super) out: &'a str,
    pub(super) undo: &'a str,
    pub(super) options: ReadOptions,
    /// Whether the undo script may replace a bank.
    pub(super) force: bool,
}

/// Imports several recordings, with an instrument of them and a preset if they are asked for. All files are read whole
/// first, so OUT may be the bank's own file.
pub(crate) fn import_kit<'a, H: Host>(
    host: &mut H,
    alloc: Global,
    paths: KitPaths<'a>,
    remarks: &mut Remarks,
) -> Result<(), Fault<'a>>
    ensures { (printed : Option (List ℕ)) → Means (ImportKit paths.entry)
        (record { files = H.world host.old; printed = printed })
        (record { files = H.world host.new; printed = printed }) (H.written host.new) result }
{
    let KitPaths {
        input,
        source,
        out,
        undo,
        options,
        instrument,
        preset,
        force,
    } = paths;
    let work = KitWork {
        input,
        out,
        undo,
        options,
        force,
    };
    match source {
        KitSource::Files(files) => {
            let members = members_of(instrument, preset, None);
            import_words(host, alloc, work, files, members)
        }
        KitSource::Table(table) => {
            let members = table_members(instrument, preset, table);
            import_table(host, alloc, work, table, members, remarks)
        }
    }
}

// The instrument and the preset. The instrument has the name that is given, or else that of the preset, or else this
// one.
fn members_of(
    instrument: Option<Name20>,
    preset: Option<NewPreset>,
    other: Option<Name20>,
) -> KitMembers
    ensures { result ≡ kit_members instrument preset other }
{
    match preset {
        Some(NewPreset { numbers, name }) => KitMembers {
            instrument: Some(instrument.unwrap_or(name)),
            preset: Some(KitPreset { numbers, name }),
        },
        None => KitMembers {
            instrument: instrument.or(other),
            preset: None,
        },
    }
}

// The instrument and the preset of a table, which names the instrument if no other name is given.
fn table_members(instrument: Option<Name20>, preset: Option<NewPreset>, table: &str) -> KitMembers
    ensures { result ≡ kit_members instrument preset (Some (table_name table.now)) }
{
    members_of(instrument, preset, Some(table_name(table)))
}

// The name of a table's file without its extension, cut to 20 bytes.
fn table_name(table: &str) -> Name20
    ensures { result ≡ table_name table.now }
{
    cut_name(recording_name(table).as_bytes())
}

// The first 20 bytes, up to the first zero byte.
fn cut_name(stem: &[u8]) -> Name20
    ensures { result ≡ cut_name stem.now }
{
    Name20::from_bytes(before_zero(front_of(stem, NAME_LENGTH))).unwrap()
}

// Imports the recordings that words name.
fn import_words<'a, H: Host>(
    host: &mut H,
    alloc: Global,
    work: KitWork<'a>,
    files: Vec<&'a str>,
    members: KitMembers,
) -> Result<(), Fault<'a>>
    ensures { (printed : Option (List ℕ)) → EndsKit work.entry members (Files files.entry)
        (record { files = H.world host.old; printed = printed })
        (record { files = H.world host.new; printed = printed }) (H.written host.new) result }
{
    match reject_outputs_of_kit(host, work, &[]) {
        Ok(()) => match read_input(host, alloc, work.input) {
            Ok(file) => import_each(
                host,
                alloc,
                work,
                file.as_slice(),
                files.as_slice(),
                members,
            ),
            Err(fault) => Err(fault),
        },
        Err(fault) => Err(fault),
    }
}

// Imports the recordings of a table.
fn import_table<'a, H: Host>(
    host: &mut H,
    alloc: Global,
    work: KitWork<'a>,
    table: &'a str,
    members: KitMembers,
    remarks: &mut Remarks,
) -> Result<(), Fault<'a>>
    ensures { (printed : Option (List ℕ)) → EndsKit work.entry members (Table table.entry)
        (record { files = H.world host.old; printed = printed })
        (record { files = H.world host.new; printed = printed }) (H.written host.new) result }
{
    match reject_outputs_of_kit(host, work, &[table]) {
        Ok(()) => match read_two(host, alloc, work.input, table) {
            Ok((file, text)) => {
                let text = text.as_slice();
                let end = import_rows(host, alloc, work, file.as_slice(), table, text, members);
                remark_on_table(text, &end, remarks);
                end
            }
            Err(fault) => Err(fault),
        },
        Err(fault) => Err(fault),
    }
}

// Shows the line of the table that a fault is about.
fn remark_on_table(table: &[u8], end: &Result<(), Fault<'_>>, remarks: &mut Remarks) {
    match end {
        Err(Fault::Run(RunFault::Table(fault), _)) => {
            remark_on_row(table, fault.line(), true, remarks);
        }
        Err(Fault::RowFile(row, _)) | Err(Fault::RowRecording(row, _)) => {
            if let Some(line) = row.line {
                remark_on_row(table, line, false, remarks);
            }
        }
        _ => {}
    }
}

// Rejects the outputs of a kit: neither may be the table, if there is one, and the undo script neither the bank nor its
// output.
fn reject_outputs_of_kit<'a, H: Host>(
    host: &mut H,
    work: KitWork<'a>,
    tables: &[&str],
) -> Result<(), Fault<'a>>
    ensures { Passes (λ w rest. outputs_apart work.entry (are_paths tables.now) w rest) (H.world host.old) (H.world host.new) result }
{
    match reject_same_file(host, work.out, tables) {
        Ok(()) => reject_undo_of_kit(host, work, tables),
        Err(fault) => Err(fault),
    }
}

fn reject_undo_of_kit<'a, H: Host>(
    host: &mut H,
    work: KitWork<'a>,
    tables: &[&str],
) -> Result<(), Fault<'a>>
    ensures { Passes (λ w rest. script_apart work.entry (are_paths tables.now) w rest) (H.world host.old) (H.world host.new) result }
{
    match reject_same_file(host, work.undo, &[work.input, work.out]) {
        Ok(()) => reject_table(host, work, tables),
        Err(fault) => Err(fault),
    }
}

fn reject_table<'a, H: Host>(
    host: &mut H,
    work: KitWork<'a>,
    tables: &[&str],
) -> Result<(), Fault<'a>>
    ensures { Passes (λ w rest. table_apart work.entry (are_paths tables.now) w rest) (H.world host.old) (H.world host.new) result }
{
    match reject_same_file(host, work.undo, tables) {
        Ok(()) => reject_bank(host, work.undo, work.force),
        Err(fault) => Err(fault),
    }
}

// Imports recordings, each with a zone of all keys.
fn import_each<'a, H: Host>(
    host: &mut H,
    alloc: Global,
    work: KitWork<'a>,
    file: &[u8],
    files: &[&str],
    members: KitMembers,
) -> Result<(), Fault<'a>>
    ensures { (printed : Option (List ℕ)) → EndsListed work.entry members file.now (listing_of_words files.now)
        (record { files = H.world host.old; printed = printed })
        (record { files = H.world host.new; printed = printed }) (H.written host.new) result }
{
    match list_each(alloc, files) {
        Ok((entries, zones)) => {
            import_listed(
                host,
                alloc,
                work,
                file,
                entries.as_slice(),
                zones.as_slice(),
                members,
            )
        }
        Err(_) => Err(Fault::Run(RunFault::Memory, work.out)),
    }
}

fn list_each<'p>(
    alloc: Global,
    files: &[&'p str],
) -> Result<(Vec<Entry<'p>>, Vec<(usize, KitZone)>), OutOfMemory>
    ensures { IfOk result (λ both. record { entries = map entry_of both.0.items; zones = both.1.items } ≡ listing_of_words files.now) }
{
    let entries = list_words(alloc, files)?;
    let zones = zones_of_words(alloc, files)?;
    Ok((entries, zones))
}

// Imports the recordings of the rows of a table.
fn import_rows<'a, H: Host>(
    host: &mut H,
    alloc: Global,
    work: KitWork<'a>,
    file: &[u8],
    table: &str,
    text: &[u8],
    members: KitMembers,
) -> Result<(), Fault<'a>>
    ensures { (printed : Option (List ℕ)) → EndsIfListed work.entry members file.now (listing_in table.now (rows_of text.now))
        (record { files = H.world host.old; printed = printed })
        (record { files = H.world host.new; printed = printed }) (H.written host.new) result }
{
    match list_table(alloc, table, text) {
        Ok(listing) => match listing.entries(alloc) {
            Ok(entries) => {
                let zones = listing.zones.as_slice();
                import_listed(host, alloc, work, file, entries.as_slice(), zones, members)
            }
            Err(_) => Err(Fault::Run(RunFault::Memory, work.out)),
        },
        Err(fault) => Err(Fault::Run(fault, work.out)),
    }
}
