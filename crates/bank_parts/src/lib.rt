//! The parts of a bank: texts, presets, instruments and samples, with their zones and points; tests for what makes
//! them invalid; and their copies.
#![tactic(auto)]

mod bag_changes;
mod bag_targets;
mod blanks;
mod contents;
mod copying;
mod counting;
mod fits;
mod flat_lists;
mod heads;
mod laws;
mod level_contents;
mod own_bags;
mod owner_changes;
mod owner_copies;
mod owners;
mod parts;
mod places;
mod renumbering;
mod room;
mod setting_changes;
mod target_renumbering;
mod texts;
mod zone_changes;

pub use contents::{is_bad_range, sets_bad_generator, sets_bad_range};
pub use copying::{TryClone, copy_parts};
pub use counting::Records;
pub use fits::{loop_fits, modulator_fits};
pub use heads::OwnerHead;
pub use laws::{other_places_stay, places_are_lenses, zone_changes_read, zone_changes_undone};
pub use owners::{Owners, ZonePlace};
pub use parts::{GlobalZone, Head, Instrument, Kind, Parts, Preset, Sample, Zone, ZoneOwner};
pub use texts::{InfoId, Texts};
