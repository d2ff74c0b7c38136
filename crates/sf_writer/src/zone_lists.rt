//! The bag, modulator and generator lists of a level (SoundFont 2.04, sections 7.3 to 7.5 for presets, 7.7 to 7.9 for
//! instruments).
ghost use Rattle.std.specs.Prelude.{◌≡◌, length, map, flat_map};
ghost use Rattle.base_outputs.specs.Output.{Puts};
ghost use Rattle.riff_chunks.specs.Encoding.{encode};
ghost use Rattle.hydra_records.specs.Encoding.{bag_bytes, modulator_bytes, generator_bytes};
ghost use Rattle.bank_format.specs.Tables.{all_bags};
ghost use Rattle.bank_format.specs.FlatTables.{bag_of, generator_of};
ghost use Rattle.sf_writer.specs.Lists.{bag_id, mod_id, gen_id, zone_lists};
ghost use Rattle.sf_writer.specs.Sizes.{AreZoneSizes};

use crate::sizes::ZoneSizes;
use bank_parts::{OwnerHead, Owners};
use base_outputs::Output;
use generators::Level;
use hydra_records::{Bag, Encoded, Generator};
use modulators::Modulator;
use riff_chunks::ChunkWriter;
use std::io::Write;

// Puts the three lists.
pub(crate) fn put_zone_lists<H: OwnerHead, W: Write>(
    output: &mut Output<'_, W>,
    owners: &Owners<H>,
    sizes: ZoneSizes,
)
    requires { AreZoneSizes (all_bags H.LEVEL owners.now) sizes }
    ensures { Puts W.contents output.old output.new
        (encode (zone_lists H.LEVEL (all_bags H.LEVEL owners.now))) }
{
    output.head(bag_id(H::LEVEL), sizes.bags);
    put_bag_records(output, owners.bag_records());
    output.head(mod_id(H::LEVEL), sizes.mods);
    put_mod_records(output, owners.mod_records());
    output.head(gen_id(H::LEVEL), sizes.gens);
    put_gen_records(output, owners.gen_records());
}

// Each bag counts the generators and modulators of the bags before it.
#[tactic(auto, using(base_outputs::proofs::OutputLaws::putting_start, base_outputs::proofs::OutputLaws::putting_end))]
fn put_bag_records<W: Write>(output: &mut Output<'_, W>, bags: &[(u16, u16)])
    ensures { Puts W.contents output.old output.new (flat_map bag_bytes (map bag_of bags.now)) }
{
    for &(gens, mods) in bags {
        output.put(&Bag { gens, mods }.put());
    }
}

#[tactic(auto, using(base_outputs::proofs::OutputLaws::putting_start, base_outputs::proofs::OutputLaws::putting_end))]
fn put_mod_records<W: Write>(output: &mut Output<'_, W>, mods: &[Modulator])
    ensures { Puts W.contents output.old output.new (flat_map modulator_bytes mods.now) }
{
    for modulator in mods {
        output.put(&modulator.put());
    }
}

// The last generator of each zone is its target.
#[tactic(auto, using(base_outputs::proofs::OutputLaws::putting_start, base_outputs::proofs::OutputLaws::putting_end))]
fn put_gen_records<W: Write>(output: &mut Output<'_, W>, gens: &[(u16, u16)])
    ensures { Puts W.contents output.old output.new (flat_map generator_bytes (map generator_of gens.now)) }
{
    for &(operator, amount) in gens {
        output.put(&Generator { operator, amount }.put());
    }
}

// ---- ids

#[tactic(auto, unfolding(bank_format::specs::Ids::PBAG, bank_format::specs::Ids::IBAG))]
fn bag_id(level: Level) -> [u8; 4]
    ensures value { result ≡ bag_id level }
    ensures size { length result ≡ 4 }
{
    match level {
        Level::Preset => *b"pbag",
        Level::Inst => *b"ibag",
    }
}

#[tactic(auto, unfolding(bank_format::specs::Ids::PMOD, bank_format::specs::Ids::IMOD))]
fn mod_id(level: Level) -> [u8; 4]
    ensures value { result ≡ mod_id level }
    ensures size { length result ≡ 4 }
{
    match level {
        Level::Preset => *b"pmod",
        Level::Inst => *b"imod",
    }
}

#[tactic(auto, unfolding(bank_format::specs::Ids::PGEN, bank_format::specs::Ids::IGEN))]
fn gen_id(level: Level) -> [u8; 4]
    ensures value { result ≡ gen_id level }
    ensures size { length result ≡ 4 }
{
    match level {
        Level::Preset => *b"pgen",
        Level::Inst => *b"igen",
    }
}
