//! Heads of presets and instruments as records of `phdr` and `inst`.
ghost use Rattle.std.specs.Prelude.{◌≡◌, refl};
ghost use Rattle.bank_format.specs.Tables.{Headers, presets, instruments};

use crate::names::name_of;
use bank_parts::{Head, OwnerHead};
use hydra_records::{InstrumentHead, PresetHead, Record};
use sf_base::Name20;

/// The head of a preset or an instrument, as stored in a record of `phdr` or `inst` (SoundFont 2.04, sections 7.2 and
/// 7.6).
pub trait RecordedHead: OwnerHead + Drop {
    /// The record type of the file.
    type Record: Record + Copy;

    /// How a head is written to a record and read from it.
    ghost headers: { Headers Self Self.Record };

    /// Reads the head from a record.
    fn of_record(row: &Self::Record) -> Self
        ensures { result ≡ headers.read row.now };

    /// The index of the first bag of the record's zones.
    fn first_bag(row: &Self::Record) -> u16
        ensures { result ≡ headers.first_bag row.now };

    /// The record of this head, where `bag` is the index of its first bag.
    fn record(&self, bag: u16) -> Self::Record
        ensures { result ≡ headers.written bag self.now };

    /// The terminal record of the list, where `bags` is the number of all bags.
    fn last(bags: u16) -> Self::Record
        ensures { result ≡ headers.last bags };

    /// The records and the zones are of the same level.
    ghost same_level: { headers.level ≡ Self.OwnerHead.LEVEL };
}

impl RecordedHead for Head {
    type Record = PresetHead;

    ghost headers = { presets };

    ghost same_level = { refl };

    fn of_record(row: &PresetHead) -> Head {
        Head {
            name: name_of(&row.name),
            number: row.number,
            bank: row.bank,
            library: row.library,
            genre: row.genre,
            morphology: row.morphology,
        }
    }

    fn first_bag(row: &PresetHead) -> u16 {
        row.bag
    }

    fn record(&self, bag: u16) -> PresetHead {
        PresetHead {
            name: self.name.filled(),
            number: self.number,
            bank: self.bank,
            bag,
            library: self.library,
            genre: self.genre,
            morphology: self.morphology,
        }
    }

    #[tactic(auto, unfolding(crate::specs::Ids::EOP))]
    fn last(bags: u16) -> PresetHead {
        PresetHead {
            name: *b"EOP\0\0\0\0\0\0\0\0\0\0\0\0\0\0\0\0\0",
            number: 0,
            bank: 0,
            bag: bags,
            library: 0,
            genre: 0,
            morphology: 0,
        }
    }
}

impl RecordedHead for Name20 {
    type Record = InstrumentHead;

    ghost headers = { instruments };

    ghost same_level = { refl };

    fn of_record(row: &InstrumentHead) -> Name20 {
        name_of(&row.name)
    }

    fn first_bag(row: &InstrumentHead) -> u16 {
        row.bag
    }

    fn record(&self, bag: u16) -> InstrumentHead {
        InstrumentHead {
            name: self.filled(),
            bag,
        }
    }

    #[tactic(auto, unfolding(crate::specs::Ids::EOI))]
    fn last(bags: u16) -> InstrumentHead {
        InstrumentHead {
            name: *b"EOI\0\0\0\0\0\0\0\0\0\0\0\0\0\0\0\0\0",
            bag: bags,
        }
    }
}
