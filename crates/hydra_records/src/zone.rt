//! The records of zones: bags, generators and modulators.
ghost use Rattle.std.specs.Prelude.{◌≡◌};
ghost use Rattle.hydra_records.specs.Encoding.{bag_bytes, bag_of, generator_bytes, generator_of, modulator_bytes, modulator_of};
ghost use Rattle.std.proofs.Common.{lit<};

use crate::encoding::Encoding;
use crate::table::{Encoded, Record};
use modulators::Modulator;
use sf_base::{i16_at, u16_at};

/// Where the generators and the modulators of a zone begin: a record of `pbag` (SoundFont 2.04, section 7.3,
/// `sfPresetBag`) or of `ibag` (section 7.7, `sfInstBag`).
#[derive(Clone, Copy, Debug, PartialEq, Eq)]
pub struct Bag {
    /// The index of its first generator, `wGenNdx` or `wInstGenNdx`.
    pub gens: u16,

    /// The index of its first modulator, `wModNdx` or `wInstModNdx`.
    pub mods: u16,
}

impl Record for Bag {
    ghost SIZE = { 4 };

    ghost of_bytes = { bag_of };

    ghost some_bytes = { lit< tt };

    const SIZE: usize = 4;

    #[tactic(auto, unfolding(crate::specs::Encoding::bag_of))]
    fn read(bytes: &[u8]) -> Bag {
        Bag {
            gens: u16_at(bytes, 0),
            mods: u16_at(bytes, 2),
        }
    }
}

impl Encoded<4> for Bag {
    ghost bytes_of = { bag_bytes };

    #[tactic(auto, unfolding(crate::specs::Encoding::bag_bytes))]
    fn put(&self) -> [u8; 4] {
        Encoding::new()
            .with_u16(self.gens)
            .with_u16(self.mods)
            .whole()
    }
}

/// A generator of a zone and its amount: a record of `pgen` (SoundFont 2.04, section 7.5,
/// `sfGenList`) or of `igen` (section 7.9, `sfInstGenList`).
#[derive(Clone, Copy, Debug, PartialEq, Eq)]
pub struct Generator {
    /// The generator's number, `sfGenOper`.
    pub operator: u16,

    /// The 16 bits of its amount, `genAmount`: a signed number in the generator's unit, or a range with its low end in
    /// the low byte and its high end in the high byte.
    pub amount: u16,
}

impl Record for Generator {
    ghost SIZE = { 4 };

    ghost of_bytes = { generator_of };

    ghost some_bytes = { lit< tt };

    const SIZE: usize = 4;

    #[tactic(auto, unfolding(crate::specs::Encoding::generator_of))]
    fn read(bytes: &[u8]) -> Generator {
        Generator {
            operator: u16_at(bytes, 0),
            amount: u16_at(bytes, 2),
        }
    }
}

impl Encoded<4> for Generator {
    ghost bytes_of = { generator_bytes };

    #[tactic(auto, unfolding(crate::specs::Encoding::generator_bytes))]
    fn put(&self) -> [u8; 4] {
        Encoding::new()
            .with_u16(self.operator)
            .with_u16(self.amount)
            .whole()
    }
}

/// A record of `pmod` (SoundFont 2.04, section 7.4, `sfModList`) or of `imod` (section 7.8,
/// `sfInstModList`).
impl Record for Modulator {
    ghost SIZE = { 10 };

    ghost of_bytes = { modulator_of };

    ghost some_bytes = { lit< tt };

    const SIZE: usize = 10;

    #[tactic(auto, unfolding(crate::specs::Encoding::modulator_of))]
    fn read(bytes: &[u8]) -> Modulator {
        Modulator {
            source: u16_at(bytes, 0),
            dest: u16_at(bytes, 2),
            amount: i16_at(bytes, 4),
            amount_source: u16_at(bytes, 6),
            transform: u16_at(bytes, 8),
        }
    }
}

impl Encoded<10> for Modulator {
    ghost bytes_of = { modulator_bytes };

    #[tactic(auto, unfolding(crate::specs::Encoding::modulator_bytes))]
    fn put(&self) -> [u8; 10] {
        Encoding::new()
            .with_u16(self.source)
            .with_u16(self.dest)
            .with_u16(self.amount.cast_unsigned())
            .with_u16(self.amount_source)
            .with_u16(self.transform)
            .whole()
    }
}
