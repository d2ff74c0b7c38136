//! The sizes of chunks, computed from the bank's totals and texts.
ghost use Rattle.std.specs.Prelude.{◌≡◌, ◌+◌, ◌*◌, ◌<◌, ◌≤◌, ◌^◌};
ghost use Rattle.bank_validity.specs.Limits.{totals_of};
ghost use Rattle.bank_parts.specs.Valid.{IsValid};
ghost use Rattle.sf_writer.specs.Sizes.{AreFew, AreSizes};

use crate::chunks::{FORM_SIZE, HEAD_SIZE};
use crate::info::chunks_size;
use bank_core::Bank;
use bank_parts::Records;
use bank_validity::Totals;
use hydra_records::{Bag, Generator, InstrumentHead, PresetHead, Record, SampleHead};
use modulators::Modulator;

/// The sizes of the chunks of a bank's file: the lengths of their bodies, including the form of a list.
#[derive(Clone, Copy)]
pub(crate) struct Sizes {
    pub(crate) file: u32,
    pub(crate) info: u32,
    pub(crate) sdta: u32,
    pub(crate) smpl: u32,
    pub(crate) pdta: u32,
    pub(crate) phdr: u32,
    pub(crate) presets: ZoneSizes,
    pub(crate) inst: u32,
    pub(crate) instruments: ZoneSizes,
    pub(crate) shdr: u32,
}

/// The sizes of the bag, modulator and generator lists of a level.
#[derive(Clone, Copy)]
pub(crate) struct ZoneSizes {
    pub(crate) bags: u32,
    pub(crate) mods: u32,
    pub(crate) gens: u32,
}

impl Sizes {
    /// Computes the sizes from the bank.
    pub(crate) fn of(bank: &Bank<'_>) -> Sizes
        ensures { AreSizes bank.now result }
    {
        let totals = file_totals(bank);
        let info = FORM_SIZE + chunks_size(bank);
        let smpl = 2 * totals.points as u32;
        let sdta = FORM_SIZE + HEAD_SIZE + smpl;
        let phdr = list_size(totals.presets.count, PresetHead::SIZE);
        let presets = ZoneSizes::of(totals.presets.records);
        let inst = list_size(totals.instruments.count, InstrumentHead::SIZE);
        let instruments = ZoneSizes::of(totals.instruments.records);
        let shdr = list_size(totals.samples, SampleHead::SIZE);
        let heads = phdr + inst + shdr;
        let pdta = FORM_SIZE + 9 * HEAD_SIZE + heads + presets.total() + instruments.total();
        Sizes {
            file: FORM_SIZE + 3 * HEAD_SIZE + info + sdta + pdta,
            info,
            sdta,
            smpl,
            pdta,
            phdr,
            presets,
            inst,
            instruments,
            shdr,
        }
    }
}

impl ZoneSizes {
    // The sizes of lists with these numbers of records.
    fn of(records: Records) -> ZoneSizes
        requires few { AreFew records }
        ensures bags { result.bags ≡ 4 * (records.zones + 1) }
        ensures mods { result.mods ≡ 10 * (records.mods + 1) }
        ensures gens { result.gens ≡ 4 * (records.gens + 1) }
    {
        ZoneSizes {
            bags: list_size(records.zones, Bag::SIZE),
            mods: list_size(records.mods, Modulator::SIZE),
            gens: list_size(records.gens, Generator::SIZE),
        }
    }

    // The sum of the three sizes.
    fn total(self) -> u32
        requires { (self.bags < 2 ^ 20) × (self.mods < 2 ^ 20) × (self.gens < 2 ^ 20) }
        ensures { result ≡ self.bags + self.mods + self.gens }
    {
        self.bags + self.mods + self.gens
    }
}

// The bank's totals, with bounds: all indexes have 16 bits.
fn file_totals(bank: &Bank<'_>) -> Totals
    ensures value { result ≡ totals_of bank.now }
    ensures valid { IsValid bank.now }
    ensures members { (result.presets.count ≤ 65535) × (result.instruments.count ≤ 65535) × (result.samples ≤ 65535) }
    ensures presets { AreFew result.presets.records }
    ensures instruments { AreFew result.instruments.records }
    ensures points { result.points ≤ 500000000 }
{
    bank.totals()
}

// The size of a list of `count` records and a terminal.
fn list_size(count: usize, size: usize) -> u32
    requires count { count ≤ 65535 }
    requires size { size < 2 ^ 16 }
    ensures { result ≡ (count + 1) * size }
{
    ((count + 1) * size) as u32
}
