//! Reports of the progress of long work, and of what is measured of the sound.
#![tactic(auto)]

/// A receiver of reports. It does not affect the work.
pub trait Progress {
    /// The work begins: `count` lines or frames.
    fn begin(&mut self, work: Work, count: u64);

    /// `count` more of them are done.
    fn advance(&mut self, count: u64);

    /// The work ends, complete or not.
    fn end(&mut self);

    /// Sets whether a person reads the reports, which are more detailed then.
    fn set_detailed(&mut self, is_detailed: bool);

    /// Whether details are reported: `started`, `mixed`, `found_fault` and `found_overridden` are called only then.
    fn is_detailed(&self) -> bool;

    /// A note was started.
    fn started(&mut self, note: StartedNote);

    /// Frames were mixed. Each frame is reported once.
    fn mixed(&mut self, frames: MixedFrames);

    /// A line of a live session has a fault.
    fn found_fault(&mut self, line: &[u8]);

    /// The value that a script's lines set for a global zone is overridden by each zone.
    fn found_overridden(&mut self, setting: OverriddenSetting);

    /// All is done, and what was measured of the sound can be reported.
    fn report_sound(&mut self);
}

/// The unit that is counted.
#[derive(Clone, Copy, Debug, PartialEq, Eq)]
pub enum Work {
    /// Lines of a script.
    Lines,
    /// Frames of sound.
    Frames,
}

/// A note that was started.
#[derive(Clone, Copy)]
pub struct StartedNote {
    /// The bank and preset number of the note.
    pub bank: u16,
    pub number: u16,
    /// Whether the bank has a preset with these numbers.
    pub has_preset: bool,
    /// How many voices it started.
    pub voices: usize,
}

/// Frames that were mixed.
#[derive(Clone, Copy)]
pub struct MixedFrames {
    /// How many voices they are the sum of.
    pub voices: usize,
    /// The largest absolute value of a side before it is clipped to 16 bits.
    pub loudest: u32,
    /// The frames of which a side was clipped.
    pub clipped: u32,
}

/// A value for a global zone that is overridden: the first such line of a script, and how many more there are.
#[derive(Clone, Copy)]
pub struct OverriddenSetting {
    pub line: u64,
    pub more: u64,
}

/// Ignores all reports.
#[derive(Clone, Copy)]
pub struct NoReports;

impl Progress for NoReports {
    fn begin(&mut self, _work: Work, _count: u64) {}

    fn advance(&mut self, _count: u64) {}

    fn end(&mut self) {}

    fn set_detailed(&mut self, _is_detailed: bool) {}

    fn is_detailed(&self) -> bool {
        false
    }

    fn started(&mut self, _note: StartedNote) {}

    fn mixed(&mut self, _frames: MixedFrames) {}

    fn found_fault(&mut self, _line: &[u8]) {}

    fn found_overridden(&mut self, _setting: OverriddenSetting) {}

    fn report_sound(&mut self) {}
}
