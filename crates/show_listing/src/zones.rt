//! The lines of the zones of a preset or an instrument.
ghost use Rattle.std.specs.Prelude.{◌≡◌, ◌<◌, ◌++◌, [], length, slice_get, IfSome, if◌then◌else◌};
ghost use Rattle.base_outputs.specs.Output.{Puts};
ghost use Rattle.bank_parts.specs.declared.owners.ZonePlace.TheVariants as place;
ghost use Rattle.bank_parts.specs.Owners.{HasPlace, zone_at};
ghost use Rattle.script_grammar.specs.Zones.{global_of};
ghost use Rattle.show_listing.specs.Listing.{lines_from};
ghost use Rattle.show_listing.specs.Details.{zone_line, global_line, zone_lines};

use crate::members::ListedHead;
use crate::pieces::{number_piece, word_piece};
use bank_core::{Owners, ZonePlace};
use base_outputs::Output;
use script_of_bank::{put_global_of, put_zone_of};
use script_tokens::put_pieces;
use std::io::Write;

// Writes the lines of the zones of owner `i`, which exists, if they are requested.
pub(crate) fn put_zones<H: ListedHead, W: Write>(
    owners: &Owners<H>,
    i: usize,
    zones: bool,
    output: &mut Output<'_, W>,
)
    requires { i < length owners.now }
    ensures { IfSome (slice_get owners.now i) (λ x. Puts W.contents output.old output.new (if zones then zone_lines H.word i x else [])) }
{
    if zones {
        put_global(owners, i, output);
        put_own_zones(owners, i, output);
    }
}

// Writes the line of the global zone, unless it is empty.
fn put_global<H: ListedHead, W: Write>(owners: &Owners<H>, i: usize, output: &mut Output<'_, W>)
    requires { i < length owners.now }
    ensures { IfSome (slice_get owners.now i) (λ x. Puts W.contents output.old output.new (global_line H.word i (global_of x.global))) }
{
    let gens = owners.gen_count(i, ZonePlace::Global);
    let mods = owners.mod_count(i, ZonePlace::Global);
    if gens > 0 || mods > 0 {
        output.put(b"zone");
        let number = number_piece(i as u64);
        put_pieces(
            &[word_piece(H::word()), number, word_piece(b"global")],
            output,
        );
        put_global_of(owners, i, output);
        output.put(b"\n");
    }
}

// Writes a line for each zone, without the global one.
fn put_own_zones<H: ListedHead, W: Write>(owners: &Owners<H>, i: usize, output: &mut Output<'_, W>)
    requires { i < length owners.now }
    ensures { IfSome (slice_get owners.now i) (λ x. Puts W.contents output.old output.new (lines_from (zone_line H.word i) 0 x.zones)) }
{
    for k in 0..owners.zone_count(i) {
        put_zone(owners, i, k, output);
    }
}

// Writes the line of zone `k` of owner `i`; both exist.
fn put_zone<H: ListedHead, W: Write>(
    owners: &Owners<H>,
    i: usize,
    k: usize,
    output: &mut Output<'_, W>,
)
    requires { HasPlace owners.now i (place.Zone k) }
    ensures { IfSome (zone_at owners.now i k) (λ z. Puts W.contents output.old output.new (zone_line H.word i k z)) }
{
    output.put(b"zone");
    let number = number_piece(i as u64);
    put_pieces(
        &[word_piece(H::word()), number, number_piece(k as u64)],
        output,
    );
    put_zone_of(owners, i, k, output);
    output.put(b"\n");
}
