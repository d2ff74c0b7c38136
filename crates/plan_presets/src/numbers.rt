//! The MIDI numbers of presets.

/// The two numbers by which MIDI selects a preset (SoundFont 2.04, section 7.2).
#[derive(Debug, Drop, Clone, Copy, PartialEq, Eq, PartialOrd, Ord)]
pub struct PresetNumbers {
    pub bank: u16,
    pub number: u16,
}

/// A preset of another bank: its numbers there, and those that its copy gets.
#[derive(Debug, Drop, Clone, Copy, PartialEq, Eq)]
pub struct TakenPreset {
    pub from: PresetNumbers,
    pub to: PresetNumbers,
}

/// A member of a bank to be copied, by its index in its list. The copy of a preset gets these numbers or, with `None`,
/// numbers that are free.
#[derive(Debug, Drop, Clone, Copy, PartialEq, Eq)]
pub enum CopiedMember {
    Preset(u32, Option<PresetNumbers>),
    Inst(u32),
    Sample(u32),
}
