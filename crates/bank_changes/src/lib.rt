//! The raw changes of a bank: what each edit does to it, whether or not it stays valid.
#![tactic(auto)]

mod instruments;
mod laws;
mod members;
mod points;
mod presets;
mod sample_moves;
mod sample_numbers;
mod samples;
mod settings;
mod texts;
mod zones;

pub use instruments::{add_instrument, move_instrument, remove_instrument, rename_instrument};
pub use laws::renaming_keeps_sound;
pub use members::{List, Owner, Place, place_of};
pub use points::{extend_sample, set_kind, set_loop, set_tune, trim_sample};
pub use presets::{add_preset, move_preset, remove_preset, set_head};
pub use sample_moves::{SampleMove, move_samples};
pub use samples::{add_sample, move_sample, remove_sample, rename_sample};
pub use settings::{add_mod, clear_gen, place_records, remove_mod, set_gen, set_mod};
pub use texts::set_info;
pub use zones::{
    add_zone, join_zone, move_zone, remove_zone, set_target, split_records, split_zone,
};
