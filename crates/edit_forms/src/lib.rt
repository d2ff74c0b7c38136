//! The forms of edits and their meaning, the causes for which an edit is refused, and copies of edits.
#![tactic(auto)]

mod cause;
mod edit;
mod instruments;
mod points;
mod presets;
mod samples;
mod settings;
mod step;
mod texts;
mod zones;

pub use bank_zone_ranges::{Axis, Keep};
pub use cause::Cause;
pub use edit::Edit;
pub use instruments::InstrumentStep;
pub use points::PointStep;
pub use presets::PresetStep;
pub use samples::SampleStep;
pub use settings::SettingStep;
pub use step::Step;
pub use texts::TextStep;
pub use zones::ZoneStep;
