//! Presets and instruments, with their zones.
ghost use Rattle.std.specs.Prelude.{◌<◌, length, slice_get, IfSome};
ghost use Rattle.std.specs.List.{flat_map};
ghost use Rattle.base_outputs.specs.Output.{Puts};
ghost use Rattle.bank_parts.specs.declared.owners.ZonePlace.TheVariants as place;
ghost use Rattle.bank_parts.specs.Owners.{HasPlace, zone_at};
ghost use Rattle.show_page.specs.Zones.{generator_text, modulator_text, settings_text, global_text, zone_text, preset_head, instrument_head, owner_text};

use crate::json::{number, put_list, put_next, put_opened, signed, text};
use bank_core::{Head, Owners, ZonePlace};
use bank_parts::OwnerHead;
use base_outputs::Output;
use modulators::Modulator;
use sf_base::Name20;
use std::io::Write;

/// What a preset or an instrument has besides its zones.
pub(crate) trait ShownHead: OwnerHead {
    ghost use Rattle.std.specs.Prelude.{ℕ, List};
    ghost use Rattle.base_outputs.specs.Output.{Puts};

    /// The start of its list.
    ghost text: { Self → List ℕ };

    /// Writes the start of its list.
    fn put<W: Write>(&self, output: &mut Output<'_, W>)
        ensures { Puts W.contents output.old output.new (text self.now) };
}

impl ShownHead for Head {
    ghost text = { preset_head };

    fn put<W: Write>(&self, output: &mut Output<'_, W>) {
        put_opened(&text(self.name.bytes()), output);
        put_next(&number(u64::from(self.bank)), output);
        put_next(&number(u64::from(self.number)), output);
    }
}

impl ShownHead for Name20 {
    ghost text = { instrument_head };

    fn put<W: Write>(&self, output: &mut Output<'_, W>) {
        put_opened(&text(self.bytes()), output);
    }
}

// Writes a line for each preset, or for each instrument.
pub(crate) fn put_owners<H: ShownHead, W: Write>(owners: &Owners<H>, output: &mut Output<'_, W>)
    ensures { Puts W.contents output.old output.new (flat_map (owner_text H.text) owners.now) }
{
    for number in 0..owners.len() {
        put_owner(owners, number, output);
    }
}

// Writes the line of owner `i`, which exists.
fn put_owner<H: ShownHead, W: Write>(owners: &Owners<H>, i: usize, output: &mut Output<'_, W>)
    requires { i < length owners.now }
    ensures { IfSome (slice_get owners.now i) (λ x. Puts W.contents output.old output.new (owner_text H.text x)) }
{
    output.put(b"\n,");
    owners.head(i).put(output);
    put_global(owners, i, output);
    put_zones(owners, i, output);
    output.put(b"]");
}

// Writes the global zone of owner `i`, which exists.
fn put_global<H: OwnerHead, W: Write>(owners: &Owners<H>, i: usize, output: &mut Output<'_, W>)
    requires { i < length owners.now }
    ensures { IfSome (slice_get owners.now i) (λ x. Puts W.contents output.old output.new (global_text x.global)) }
{
    output.put(b",[\"global\"");
    put_settings(
        owners.entries(i, ZonePlace::Global),
        owners.mods(i, ZonePlace::Global),
        output,
    );
}

// Writes the zones of owner `i`, which exists, without its global zone.
fn put_zones<H: OwnerHead, W: Write>(owners: &Owners<H>, i: usize, output: &mut Output<'_, W>)
    requires { i < length owners.now }
    ensures { IfSome (slice_get owners.now i) (λ x. Puts W.contents output.old output.new (flat_map zone_text x.zones)) }
{
    for k in 0..owners.zone_count(i) {
        put_zone(owners, i, k, output);
    }
}

// Writes zone `k` of owner `i`; both exist.
fn put_zone<H: OwnerHead, W: Write>(
    owners: &Owners<H>,
    i: usize,
    k: usize,
    output: &mut Output<'_, W>,
)
    requires { HasPlace owners.now i (place.Zone k) }
    ensures { IfSome (zone_at owners.now i k) (λ z. Puts W.contents output.old output.new (zone_text z)) }
{
    output.put(b",");
    put_opened(&number(u64::from(owners.target(i, k))), output);
    let entries = owners.entries(i, ZonePlace::Zone(k));
    put_settings(entries, owners.mods(i, ZonePlace::Zone(k)), output);
}

// Writes what a zone sets, and the end of its list.
fn put_settings<W: Write>(entries: &[(u16, u16)], mods: &[Modulator], output: &mut Output<'_, W>)
    ensures { Puts W.contents output.old output.new (settings_text entries.now mods.now) }
{
    put_generators(entries, output);
    put_modulators(mods, output);
    output.put(b"]");
}

fn put_generators<W: Write>(entries: &[(u16, u16)], output: &mut Output<'_, W>)
    ensures { Puts W.contents output.old output.new (flat_map generator_text entries.now) }
{
    for entry in entries {
        put_generator(*entry, output);
    }
}

fn put_generator<W: Write>(entry: (u16, u16), output: &mut Output<'_, W>)
    ensures { Puts W.contents output.old output.new (generator_text entry) }
{
    let (operator, amount) = entry;
    output.put(b",");
    put_list(
        &number(u64::from(operator)),
        &[number(u64::from(amount))],
        output,
    );
}

fn put_modulators<W: Write>(mods: &[Modulator], output: &mut Output<'_, W>)
    ensures { Puts W.contents output.old output.new (flat_map modulator_text mods.now) }
{
    for modulator in mods {
        put_modulator(modulator, output);
    }
}

fn put_modulator<W: Write>(modulator: &Modulator, output: &mut Output<'_, W>)
    ensures { Puts W.contents output.old output.new (modulator_text modulator.now) }
{
    let fields = [
        number(u64::from(modulator.dest)),
        signed(modulator.amount),
        number(u64::from(modulator.amount_source)),
        number(u64::from(modulator.transform)),
    ];
    output.put(b",");
    put_list(&number(u64::from(modulator.source)), &fields, output);
}
