//! The table of a kit for an instrument.
ghost use Rattle.std.specs.Prelude.{◌≡◌, ◌<◌, ◌++◌, ◌∷◌, [], codes, if◌then◌else◌, length, map, slice_get};
ghost use Rattle.std.specs.Prelude.{string_bytes, unwrap_or, IfSome};
ghost use Rattle.std.specs.List.{flat_map};
ghost use Rattle.base_outputs.specs.Output.{Puts};
ghost use Rattle.bank_changes.specs.declared.members.Owner.TheVariants as owner;
ghost use Rattle.bank_parts.specs.declared.owners.ZonePlace.TheVariants as there;
ghost use Rattle.zone_select.specs.Remaining.{zones_in};
ghost use Rattle.show_zone_map.specs.Rectangles.{zone_numbers};
ghost use Rattle.script_tokens.specs.declared.printing.Piece.TheVariants.{Word};
ghost use Rattle.kit_tables.specs.RowTexts.{line_of, table_text, ZoneLine};
ghost use Rattle.kit_of_instrument.specs.KitZones.{is_plain};
ghost use Rattle.kit_of_instrument.specs.KitLines.{global_line, head_lines, kit_text, name_line, rest_lines};
ghost use Rattle.kit_of_instrument.specs.KitLines.{table_lines, zone_lines};

use crate::settings::{is_plain, is_whole};
use crate::zones::kit_zone;
use bank_core::{Bank, Owner, ZonePlace};
use base_outputs::Output;
use base_texts::Text;
use kit_tables::{KitZone, put_kit_zone};
use script_of_bank::{put_global_of, put_zone_of};
use script_tokens::{Piece, put_line, put_pieces};
use sf_base::BorrowedBytes;
use show_zone_map::zone_rectangle;
use std::io::Write;
use zone_select::zones_in;

/// The table of a kit for an instrument, to which it is imported again.
///
/// Each zone that notes select has a line: the file of its sample in the folder `samples`, its keys and velocities, its
/// root key, its pan, clipped to -500 to 500, and its class if it is 1 to 127. Settings of the global zone count where
/// the zone has none of its own. What else a zone has, and all of a zone that no note selects, is lost; such zones, and
/// such a global zone, are listed in comments as scripts write them.
///
/// If there is no such instrument, the table is empty.
#[derive(Clone, Copy)]
pub struct KitTable<'t, 'a> {
    pub bank: &'t Bank<'a>,
    pub instrument: u32,
    /// The name of the file of each sample.
    pub files: &'t [String],
}

impl Text for KitTable<'_, '_> {
    ghost bytes = { λ table. kit_text (map string_bytes table.files.now) table.bank.now table.instrument };

    fn put<W: Write>(&self, output: &mut Output<'_, W>) {
        put_head(self.bank, self.instrument, output);
        put_zones(self.bank, self.instrument, self.files, output);
    }
}

// Writes the comments about the instrument.
fn put_head<W: Write>(bank: &Bank<'_>, instrument: u32, output: &mut Output<'_, W>)
    ensures { Puts W.contents output.old output.new (table_text (head_lines bank.now instrument)) }
{
    if let Some(name) = bank.inst_name(instrument) {
        put_name(instrument, name.bytes(), output);
        put_global(bank, instrument, output);
    }
}

fn put_name<W: Write>(instrument: u32, name: &[u8], output: &mut Output<'_, W>)
    ensures { Puts W.contents output.old output.new (line_of (name_line instrument name.now)) }
{
    let pieces = [
        word(b"inst"),
        Piece::Number(u64::from(instrument)),
        Piece::Name(BorrowedBytes::new(name)),
    ];
    put_line(b"#", &pieces, output);
}

// Writes the global zone of an instrument, which exists, as a comment, if a table can't say all of it.
fn put_global<W: Write>(bank: &Bank<'_>, instrument: u32, output: &mut Output<'_, W>)
    requires { instrument < length bank.now.instruments }
    ensures { IfSome (slice_get bank.now.instruments instrument) (λ x. Puts W.contents output.old output.new
        (table_text (if is_plain bank.now instrument there.Global then [] else global_line x.global ∷ []))) }
{
    let i = instrument as usize;
    if !is_plain(bank, i, ZonePlace::Global) {
        output.put(b"#");
        put_pieces(&[word(b"zone")], output);
        put_global_of(bank.instruments(), i, output);
        output.put(b"\n");
    }
}

// Writes the lines of all zones.
fn put_zones<W: Write>(
    bank: &Bank<'_>,
    instrument: u32,
    files: &[String],
    output: &mut Output<'_, W>,
)
    ensures { Puts W.contents output.old output.new
        (table_text (flat_map (zone_lines (map string_bytes files.now) bank.now instrument) (zone_numbers bank.now (owner.Inst instrument)))) }
{
    for zone in 0..zones_in(bank, Owner::Inst(instrument)) {
        put_zone(bank, instrument, zone, files, output);
    }
}

// Writes the lines of a zone, which exists.
fn put_zone<W: Write>(
    bank: &Bank<'_>,
    instrument: u32,
    zone: u32,
    files: &[String],
    output: &mut Output<'_, W>,
)
    requires { zone < zones_in bank.now (owner.Inst instrument) }
    ensures { Puts W.contents output.old output.new (table_text (zone_lines (map string_bytes files.now) bank.now instrument zone)) }
{
    put_listed(bank, instrument, zone, files, output);
    put_rest(bank, instrument, zone, output);
}

// Writes the line of a zone in the table, if notes select it.
fn put_listed<W: Write>(
    bank: &Bank<'_>,
    instrument: u32,
    zone: u32,
    files: &[String],
    output: &mut Output<'_, W>,
)
    requires { zone < zones_in bank.now (owner.Inst instrument) }
    ensures { Puts W.contents output.old output.new (table_text (table_lines (map string_bytes files.now) bank.now instrument zone)) }
{
    if let Some(rectangle) = zone_rectangle(bank, instrument, zone) {
        let file = file_of(files, rectangle.sample);
        put_kit_line(file, &kit_zone(bank, instrument, rectangle), output);
    }
}

// The name of the file of a sample.
fn file_of(files: &[String], sample: u16) -> &[u8]
    ensures { result.now ≡ unwrap_or (slice_get (map string_bytes files.now) sample) [] }
{
    match files.get(usize::from(sample)) {
        Some(file) => file.as_bytes(),
        None => &[],
    }
}

fn put_kit_line<W: Write>(file: &[u8], zone: &KitZone, output: &mut Output<'_, W>)
    ensures { Puts W.contents output.old output.new (line_of (ZoneLine (codes "samples/" ++ file.now) zone.now)) }
{
    output.put(b"\"samples/");
    output.put(file);
    output.put(b"\"");
    put_kit_zone(zone, output);
    output.put(b"\n");
}

// Writes a zone, which exists, as a comment, if the table doesn't say all of it.
fn put_rest<W: Write>(bank: &Bank<'_>, instrument: u32, zone: u32, output: &mut Output<'_, W>)
    requires { zone < zones_in bank.now (owner.Inst instrument) }
    ensures { Puts W.contents output.old output.new (table_text (rest_lines bank.now instrument zone)) }
{
    if !is_whole(bank, instrument, zone) {
        output.put(b"#");
        put_pieces(&[word(b"zone"), Piece::Number(u64::from(zone))], output);
        put_zone_of(
            bank.instruments(),
            instrument as usize,
            zone as usize,
            output,
        );
        output.put(b"\n");
    }
}

fn word(bytes: &[u8]) -> Piece<'_>
    ensures { result ≡ Word bytes.now }
{
    Piece::Word(BorrowedBytes::new(bytes))
}
