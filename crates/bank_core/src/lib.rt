//! `Bank`, which is always sound. Each of its raw changes does exactly what its definition states.
#![tactic(auto)]

mod bank;
mod fault;
mod flat;
mod flat_heads;
mod instruments;
mod points;
mod presets;
mod records;
mod samples;
mod settings;
mod texts;
mod zone_changes;
mod zones;

pub use bank::Bank;
pub use bank_changes::{List, Owner, Place, SampleMove};
pub use bank_parts::{
    GlobalZone, Head, InfoId, Instrument, Kind, Owners, Parts, Preset, Sample, Texts, Zone,
    ZoneOwner, ZonePlace,
};
pub use bank_validity::is_valid;
pub use fault::PartsFault;
pub use flat::Flat;
pub use flat_heads::{FlatHeads, HeadRecord, InstHead, PresetHead};
pub use flat_records::Recs;
pub use records::Part;
