//! Writes the zones of tables.
ghost use Rattle.std.specs.Prelude.{◌≡◌, ◌∷◌, []};
ghost use Rattle.std.specs.List.{flat_map};
ghost use Rattle.base_outputs.specs.Output.{Puts};
ghost use Rattle.script_tokens.specs.declared.printing.Piece.TheVariants.{Word};
ghost use Rattle.script_tokens.specs.Printing.{spaced};
ghost use Rattle.kit_tables.specs.RowTexts.{range_piece, root_pieces, pan_pieces, class_pieces, zone_pieces};

use crate::zone::KitZone;
use base_outputs::Output;
use generators::Range;
use script_tokens::{Piece, put_pieces};
use sf_base::BorrowedBytes;
use std::io::Write;

/// Writes what follows the file in the line of a zone: its keys, its velocities, and then its root key, its pan and its
/// class, as far as it has them. Allocates nothing.
pub fn put_kit_zone<W: Write>(zone: &KitZone, output: &mut Output<'_, W>)
    ensures { Puts W.contents output.old output.new (flat_map spaced (zone_pieces zone.now)) }
{
    put_pieces(&[piece_of(zone.keys), piece_of(zone.velocities)], output);
    put_root(zone.root, output);
    put_pan(zone.pan, output);
    put_class(zone.class, output);
}

fn piece_of<'a>(range: Range) -> Piece<'a>
    ensures { result ≡ range_piece range }
{
    Piece::Range(range.low, range.high)
}

fn put_root<W: Write>(root: Option<u8>, output: &mut Output<'_, W>)
    ensures { Puts W.contents output.old output.new (flat_map spaced (root_pieces root)) }
{
    if let Some(key) = root {
        put_pieces(&[word(b"root"), Piece::Number(u64::from(key))], output);
    }
}

fn put_pan<W: Write>(pan: Option<i16>, output: &mut Output<'_, W>)
    ensures { Puts W.contents output.old output.new (flat_map spaced (pan_pieces pan)) }
{
    if let Some(pan) = pan {
        put_pieces(&[word(b"pan"), Piece::Signed(i64::from(pan))], output);
    }
}

fn put_class<W: Write>(class: Option<u8>, output: &mut Output<'_, W>)
    ensures { Puts W.contents output.old output.new (flat_map spaced (class_pieces class)) }
{
    if let Some(class) = class {
        put_pieces(&[word(b"class"), Piece::Number(u64::from(class))], output);
    }
}

fn word(bytes: &[u8]) -> Piece<'_>
    ensures { result ≡ Word bytes.now }
{
    Piece::Word(BorrowedBytes::new(bytes))
}
