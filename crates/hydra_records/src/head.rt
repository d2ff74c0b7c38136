//! The header records of presets, instruments and samples.
ghost use Rattle.std.specs.Prelude.{◌≡◌, ◌+◌, ◌≤◌, length, take};
ghost use Rattle.sf_base.specs.Fields.{field_at};
ghost use Rattle.hydra_records.specs.Encoding.{instrument_head_bytes, instrument_head_of, preset_head_bytes, preset_head_of, sample_head_bytes, sample_head_of};
ghost use Rattle.std.proofs.Common.{lit<};

use crate::encoding::Encoding;
use crate::table::{Encoded, Record};
use sf_base::{u16_at, u32_at};

/// A preset: a record of `phdr` (SoundFont 2.04, section 7.2, `sfPresetHeader`).
#[derive(Clone, Copy, Debug, PartialEq, Eq)]
pub struct PresetHead {
    /// Its name padded with zero bytes, `achPresetName`.
    pub name: [u8; 20],

    /// Its MIDI program number, `wPreset`.
    pub number: u16,

    /// Its MIDI bank number, `wBank`.
    pub bank: u16,

    /// The index of its first bag in `pbag`, `wPresetBagNdx`.
    pub bag: u16,

    /// `dwLibrary`.
    pub library: u32,

    /// `dwGenre`.
    pub genre: u32,

    /// `dwMorphology`.
    pub morphology: u32,
}

/// An instrument: a record of `inst` (SoundFont 2.04, section 7.6, `sfInst`).
#[derive(Clone, Copy, Debug, PartialEq, Eq)]
pub struct InstrumentHead {
    /// Its name padded with zero bytes, `achInstName`.
    pub name: [u8; 20],

    /// The index of its first bag in `ibag`, `wInstBagNdx`.
    pub bag: u16,
}

/// A sample: a record of `shdr` (SoundFont 2.04, section 7.10, `sfSample`).
#[derive(Clone, Copy, Debug, PartialEq, Eq)]
pub struct SampleHead {
    /// Its name padded with zero bytes, `achSampleName`.
    pub name: [u8; 20],

    /// The index of its first point in `smpl`, `dwStart`.
    pub start: u32,

    /// The index of the first point after it, `dwEnd`.
    pub end: u32,

    /// The index of the first point of its loop, `dwStartloop`.
    pub loop_start: u32,

    /// The index of the first point after its loop, `dwEndloop`.
    pub loop_end: u32,

    /// Points per second, `dwSampleRate`.
    pub rate: u32,

    /// The MIDI key of its recorded pitch, `byOriginalPitch`.
    pub key: u8,

    /// Cents to be added to its pitch, `chPitchCorrection`.
    pub correction: i8,

    /// The number of the linked sample, `wSampleLink`.
    pub link: u16,

    /// `sfSampleType`: 1 for mono, 2 for right, 4 for left and 8 for linked.
    pub kind: u16,
}

impl Record for PresetHead {
    ghost SIZE = { 38 };

    ghost of_bytes = { preset_head_of };

    ghost some_bytes = { lit< tt };

    const SIZE: usize = 38;

    #[tactic(auto, unfolding(crate::specs::Encoding::preset_head_of))]
    fn read(bytes: &[u8]) -> PresetHead {
        PresetHead {
            name: name_of(bytes),
            number: u16_at(bytes, 20),
            bank: u16_at(bytes, 22),
            bag: u16_at(bytes, 24),
            library: u32_at(bytes, 26),
            genre: u32_at(bytes, 30),
            morphology: u32_at(bytes, 34),
        }
    }
}

impl Encoded<38> for PresetHead {
    ghost bytes_of = { preset_head_bytes };

    #[tactic(auto, unfolding(crate::specs::Encoding::preset_head_bytes))]
    fn put(&self) -> [u8; 38] {
        Encoding::new()
            .with_bytes(&self.name)
            .with_u16(self.number)
            .with_u16(self.bank)
            .with_u16(self.bag)
            .with_u32(self.library)
            .with_u32(self.genre)
            .with_u32(self.morphology)
            .whole()
    }
}

impl Record for InstrumentHead {
    ghost SIZE = { 22 };

    ghost of_bytes = { instrument_head_of };

    ghost some_bytes = { lit< tt };

    const SIZE: usize = 22;

    #[tactic(auto, unfolding(crate::specs::Encoding::instrument_head_of))]
    fn read(bytes: &[u8]) -> InstrumentHead {
        InstrumentHead {
            name: name_of(bytes),
            bag: u16_at(bytes, 20),
        }
    }
}

impl Encoded<22> for InstrumentHead {
    ghost bytes_of = { instrument_head_bytes };

    #[tactic(auto, unfolding(crate::specs::Encoding::instrument_head_bytes))]
    fn put(&self) -> [u8; 22] {
        Encoding::new()
            .with_bytes(&self.name)
            .with_u16(self.bag)
            .whole()
    }
}

impl Record for SampleHead {
    ghost SIZE = { 46 };

    ghost of_bytes = { sample_head_of };

    ghost some_bytes = { lit< tt };

    const SIZE: usize = 46;

    #[tactic(auto, unfolding(crate::specs::Encoding::sample_head_of))]
    fn read(bytes: &[u8]) -> SampleHead {
        SampleHead {
            name: name_of(bytes),
            start: u32_at(bytes, 20),
            end: u32_at(bytes, 24),
            loop_start: u32_at(bytes, 28),
            loop_end: u32_at(bytes, 32),
            rate: u32_at(bytes, 36),
            key: u8_at(bytes, 40),
            correction: u8_at(bytes, 41).cast_signed(),
            link: u16_at(bytes, 42),
            kind: u16_at(bytes, 44),
        }
    }
}

impl Encoded<46> for SampleHead {
    ghost bytes_of = { sample_head_bytes };

    #[tactic(auto, unfolding(crate::specs::Encoding::sample_head_bytes))]
    fn put(&self) -> [u8; 46] {
        Encoding::new()
            .with_bytes(&self.name)
            .with_u32(self.start)
            .with_u32(self.end)
            .with_u32(self.loop_start)
            .with_u32(self.loop_end)
            .with_u32(self.rate)
            .with_u8(self.key)
            .with_u8(self.correction.cast_unsigned())
            .with_u16(self.link)
            .with_u16(self.kind)
            .whole()
    }
}

// The name field at the start of each header record.
fn name_of(bytes: &[u8]) -> [u8; 20]
    requires { 20 ≤ length bytes.now }
    ensures { result ≡ take 20 bytes.now }
{
    let mut name = [0; 20];
    name.copy_from_slice(&bytes[..20]);
    name
}

// Reads the 8-bit unsigned number at offset `at`.
fn u8_at(bytes: &[u8], at: usize) -> u8
    requires { at + 1 ≤ length bytes.now }
    ensures { result ≡ field_at at 1 bytes.now }
{
    bytes[at]
}
