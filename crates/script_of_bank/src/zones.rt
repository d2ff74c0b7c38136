//! The zones of a preset or an instrument on its line.
ghost use Rattle.std.specs.Prelude.{◌≡◌, ◌<◌, length, slice_get, IfSome};
ghost use Rattle.std.specs.List.{flat_map};
ghost use Rattle.base_outputs.specs.Output.{Puts};
ghost use Rattle.bank_parts.specs.declared.parts.Zone.{Zone};
ghost use Rattle.bank_parts.specs.declared.owners.ZonePlace.TheVariants as place;
ghost use Rattle.bank_parts.specs.Owners.{HasPlace, zone_at};
ghost use Rattle.script_tokens.specs.Printing.{spaced};
ghost use Rattle.script_grammar.specs.Operands.{pieces_of};
ghost use Rattle.script_grammar.specs.Zones.{global_of, global_operands, zone_operands, written_zone, written_of, written_operands};

use bank_core::{Owners, ZonePlace};
use bank_parts::OwnerHead;
use base_outputs::Output;
use script_grammar::put_items;
use script_tokens::{Piece, put_pieces};
use sf_base::BorrowedBytes;
use std::io::Write;

// Writes the global zone and the zones of owner `i`, each token after a space.
pub(crate) fn put_zones_of<H: OwnerHead, W: Write>(
    owners: &Owners<H>,
    i: usize,
    output: &mut Output<'_, W>,
)
    requires { i < length owners.now }
    ensures { IfSome (slice_get owners.now i) (λ x. Puts W.contents output.old output.new (flat_map spaced (pieces_of (written_operands (written_of x.global x.zones))))) }
{
    put_global_of(owners, i, output);
    put_own_zones(owners, i, output);
}

/// Writes the global zone of owner `i`, each token after a space; nothing if it is empty.
pub fn put_global_of<H: OwnerHead, W: Write>(
    owners: &Owners<H>,
    i: usize,
    output: &mut Output<'_, W>,
)
    requires { i < length owners.now }
    ensures { IfSome (slice_get owners.now i) (λ x. Puts W.contents output.old output.new (flat_map spaced (pieces_of (global_operands (global_of x.global))))) }
{
    let gens = owners.gen_count(i, ZonePlace::Global);
    let mods = owners.mod_count(i, ZonePlace::Global);
    if gens > 0 || mods > 0 {
        let opened = Piece::Word(BorrowedBytes::new(b"{"));
        put_pieces(
            &[opened, Piece::Word(BorrowedBytes::new(b"global"))],
            output,
        );
        let entries = owners.entries(i, ZonePlace::Global);
        put_items(entries, owners.mods(i, ZonePlace::Global), output);
    }
}

// Writes the zones of owner `i` without its global zone.
fn put_own_zones<H: OwnerHead, W: Write>(owners: &Owners<H>, i: usize, output: &mut Output<'_, W>)
    requires { i < length owners.now }
    ensures { IfSome (slice_get owners.now i) (λ x. Puts W.contents output.old output.new (flat_map (λ (z : Zone). flat_map spaced (pieces_of (zone_operands (written_zone z)))) x.zones)) }
{
    for k in 0..owners.zone_count(i) {
        put_zone_of(owners, i, k, output);
    }
}

/// Writes zone `k` of owner `i`, each token after a space.
pub fn put_zone_of<H: OwnerHead, W: Write>(
    owners: &Owners<H>,
    i: usize,
    k: usize,
    output: &mut Output<'_, W>,
)
    requires { HasPlace owners.now i (place.Zone k) }
    ensures { IfSome (zone_at owners.now i k) (λ z. Puts W.contents output.old output.new (flat_map spaced (pieces_of (zone_operands (written_zone z))))) }
{
    let target = Piece::Number(u64::from(owners.target(i, k)));
    put_pieces(&[Piece::Word(BorrowedBytes::new(b"{")), target], output);
    let entries = owners.entries(i, ZonePlace::Zone(k));
    put_items(entries, owners.mods(i, ZonePlace::Zone(k)), output);
}
