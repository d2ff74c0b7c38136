//! Writes zones.
ghost use Rattle.std.specs.Prelude.{◌≡◌, ◌∷◌, []};
ghost use Rattle.std.specs.List.{flat_map};
ghost use Rattle.base_outputs.specs.Output.{Puts};
ghost use Rattle.bank_parts.specs.declared.parts.Zone.{Zone};
ghost use Rattle.modulators.specs.declared.modulator.Modulator.{Modulator};
ghost use Rattle.script_tokens.specs.Printing.{spaced};
ghost use Rattle.script_grammar.specs.Operands as operand;
ghost use Rattle.script_grammar.specs.Operands.{piece_of, pieces_of};
ghost use Rattle.script_grammar.specs.declared.items.Item.TheVariants as item;
ghost use Rattle.script_grammar.specs.Items.{amount_operand, generator_operands, modulator_operands, item_operands, items_operands};
ghost use Rattle.script_grammar.specs.Zones.{listed_items, global_of, global_operands, zone_operands, written_zone, written_of, written_operands};

use bank_parts::{GlobalZone, Zone};
use base_outputs::Output;
use generators::{Range, is_range_operator};
use modulators::Modulator;
use script_tokens::{Piece, put_pieces};
use sf_base::BorrowedBytes;
use std::io::Write;

/// Writes `GLOBAL? ZONE*`, each token after a space: no `GLOBAL` where the global zone is empty, and in each
/// zone its generators, in canonical order, before its modulators.
pub fn put_zones<W: Write>(global: &GlobalZone, zones: &[Zone], output: &mut Output<'_, W>)
    ensures { Puts W.contents output.old output.new (flat_map spaced (pieces_of (written_operands (written_of global.now zones.now)))) }
{
    put_global(global, output);
    put_all_zones(zones, output);
}

// `{ global ITEM* }`, or nothing where the global zone is empty.
fn put_global<W: Write>(global: &GlobalZone, output: &mut Output<'_, W>)
    ensures { Puts W.contents output.old output.new (flat_map spaced (pieces_of (global_operands (global_of global.now)))) }
{
    if !global.is_empty() {
        put_pieces(
            &[
                Piece::Word(BorrowedBytes::new(b"{")),
                Piece::Word(BorrowedBytes::new(b"global")),
            ],
            output,
        );
        put_items(global.gens.entries(), global.mods.as_slice(), output);
    }
}

fn put_all_zones<W: Write>(zones: &[Zone], output: &mut Output<'_, W>)
    ensures { Puts W.contents output.old output.new (flat_map (λ (z : Zone). flat_map spaced (pieces_of (zone_operands (written_zone z)))) zones.now) }
{
    for zone in zones {
        put_zone(zone, output);
    }
}

/// Writes a zone, `{ TARGET ITEM* }`, each token after a space: its generators, in canonical order, before
/// its modulators.
pub fn put_zone<W: Write>(zone: &Zone, output: &mut Output<'_, W>)
    ensures { Puts W.contents output.old output.new (flat_map spaced (pieces_of (zone_operands (written_zone zone.now)))) }
{
    let target = Piece::Number(u64::from(zone.target));
    put_pieces(&[Piece::Word(BorrowedBytes::new(b"{")), target], output);
    put_items(zone.gens.entries(), zone.mods.as_slice(), output);
}

/// Writes `ITEM* }`, each token after a space: generators, modulators, and the closing brace.
pub fn put_items<W: Write>(entries: &[(u16, u16)], mods: &[Modulator], output: &mut Output<'_, W>)
    ensures { Puts W.contents output.old output.new (flat_map spaced (pieces_of (items_operands (listed_items entries.now mods.now)))) }
{
    put_generators(entries, output);
    put_modulators(mods, output);
    put_pieces(&[Piece::Word(BorrowedBytes::new(b"}"))], output);
}

fn put_generators<W: Write>(entries: &[(u16, u16)], output: &mut Output<'_, W>)
    ensures { Puts W.contents output.old output.new (flat_map (λ e. flat_map spaced (pieces_of (item_operands (item.Generator e.0 e.1)))) entries.now) }
{
    for entry in entries {
        put_generator_item(entry.0, entry.1, output);
    }
}

// `g OPERATOR AMOUNT`
fn put_generator_item<W: Write>(operator: u16, amount: u16, output: &mut Output<'_, W>)
    ensures { Puts W.contents output.old output.new (flat_map spaced (pieces_of (item_operands (item.Generator operator amount)))) }
{
    put_pieces(&[Piece::Word(BorrowedBytes::new(b"g"))], output);
    put_generator(operator, amount, output);
}

/// Writes `OPERATOR AMOUNT`, each token after a space.
pub fn put_generator<W: Write>(operator: u16, amount: u16, output: &mut Output<'_, W>)
    ensures { Puts W.contents output.old output.new (flat_map spaced (pieces_of (generator_operands operator amount))) }
{
    let amount = amount_piece(operator, amount);
    put_pieces(&[Piece::Number(u64::from(operator)), amount], output);
}

// `LO..HI` for key and velocity ranges, else a signed number.
fn amount_piece(operator: u16, amount: u16) -> Piece<'static>
    ensures { result ≡ piece_of (amount_operand operator amount) }
{
    if is_range_operator(operator) {
        let Range { low, high } = Range::of_amount(amount);
        Piece::Range(low, high)
    } else {
        Piece::Signed(i64::from(amount.cast_signed()))
    }
}

fn put_modulators<W: Write>(mods: &[Modulator], output: &mut Output<'_, W>)
    ensures { Puts W.contents output.old output.new (flat_map (λ (m : Modulator). flat_map spaced (pieces_of (item_operands (item.Modulator m)))) mods.now) }
{
    for modulator in mods {
        put_modulator_item(modulator, output);
    }
}

// `m MOD`
fn put_modulator_item<W: Write>(modulator: &Modulator, output: &mut Output<'_, W>)
    ensures { Puts W.contents output.old output.new (flat_map spaced (pieces_of (item_operands (item.Modulator modulator.now)))) }
{
    put_pieces(&[Piece::Word(BorrowedBytes::new(b"m"))], output);
    put_modulator(modulator, output);
}

/// Writes a modulator, `SOURCE DEST AMOUNT ASOURCE TRANSFORM`, each token after a space.
pub fn put_modulator<W: Write>(modulator: &Modulator, output: &mut Output<'_, W>)
    ensures { Puts W.contents output.old output.new (flat_map spaced (pieces_of (modulator_operands modulator.now))) }
{
    let source = Piece::Number(u64::from(modulator.source));
    let dest = Piece::Number(u64::from(modulator.dest));
    let amount = Piece::Signed(i64::from(modulator.amount));
    let amount_source = Piece::Number(u64::from(modulator.amount_source));
    let transform = Piece::Number(u64::from(modulator.transform));
    put_pieces(&[source, dest, amount, amount_source, transform], output);
}
