//! What a kit is made of.

use plan_presets::PresetNumbers;
use sf_base::Name20;
use wave_file::Recording;

/// A recording, and the name of its file without the extension.
#[derive(Drop)]
pub struct KitRecording<'a> {
    pub stem: &'a [u8],
    pub recording: Recording<'a>,
}

/// The preset of a kit.
#[derive(Clone, Copy)]
pub struct KitPreset {
    pub numbers: PresetNumbers,
    pub name: Name20,
}

/// What is made besides the samples: an instrument with this name, and a preset that plays it. Without an instrument
/// there is no preset.
#[derive(Clone, Copy)]
pub struct KitMembers {
    pub instrument: Option<Name20>,
    pub preset: Option<KitPreset>,
}
