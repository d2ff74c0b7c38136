//! The lists `phdr` and `inst`: the headers of presets and of instruments (SoundFont 2.04, sections 7.2 and 7.6).
ghost use Rattle.std.specs.Prelude.{◌≡◌, ◌<◌, ◌^◌, length, flat_map, slice_index_or};
ghost use Rattle.base_outputs.specs.Output.{Puts};
ghost use Rattle.hydra_records.specs.Encoding.{preset_head_bytes, instrument_head_bytes};
ghost use Rattle.bank_format.specs.Ids.{PHDR, INST};
ghost use Rattle.bank_format.specs.Tables.{heads_from, tables_of};
ghost use Rattle.sf_writer.specs.Lists.{table_bytes};

use bank_core::Bank;
use bank_format::RecordedHead;
use bank_parts::Owners;
use base_outputs::Output;
use hydra_records::Encoded;
use riff_chunks::ChunkWriter;
use std::io::Write;

// Puts the list `phdr`.
pub(crate) fn put_phdr<W: Write>(output: &mut Output<'_, W>, bank: &Bank<'_>, size: u32)
    requires { size ≡ length (flat_map preset_head_bytes (tables_of bank.now).phdr) }
    ensures { Puts W.contents output.old output.new
        (table_bytes PHDR preset_head_bytes (tables_of bank.now).phdr) }
{
    output.head(*b"phdr", size);
    put_heads(output, bank.presets());
}

// Puts the list `inst`.
pub(crate) fn put_inst<W: Write>(output: &mut Output<'_, W>, bank: &Bank<'_>, size: u32)
    requires { size ≡ length (flat_map instrument_head_bytes (tables_of bank.now).inst) }
    ensures { Puts W.contents output.old output.new
        (table_bytes INST instrument_head_bytes (tables_of bank.now).inst) }
{
    output.head(*b"inst", size);
    put_heads(output, bank.instruments());
}

// Puts a header for each owner with the index of its first bag, and the terminal with the number of bags.
fn put_heads<const N: usize, H: RecordedHead, W: Write>(
    output: &mut Output<'_, W>,
    owners: &Owners<H>,
)
where
    H::Record: Encoded<N>,
    requires { N < 2 ^ 16 }
    ensures { Puts W.contents output.old output.new
        (flat_map H.Record.bytes_of (heads_from H.headers 0 owners.now)) }
{
    let first_bags = owners.first_bags();
    for i in 0..owners.len() {
        output.put(&owners.head(i).record(first_bag(first_bags, i)).put());
    }
    output.put(&H::last(first_bag(first_bags, owners.len())).put());
}

fn first_bag(first_bags: &[u16], i: usize) -> u16
    requires { i < length first_bags.now }
    ensures { result ≡ slice_index_or first_bags.now i 0 }
{
    first_bags[i]
}
