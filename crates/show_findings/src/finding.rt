//! One finding.
ghost use Rattle.std.specs.Prelude.{◌≡◌};
ghost use Rattle.show_findings.specs.Kinds.{member_of_owner, member_of};

use bank_core::{Owner, Place};

/// What is probably a mistake in a bank. Members and zones are given by their numbers.
#[derive(Clone, Copy, Debug, PartialEq, Eq)]
pub enum Finding {
    /// An earlier preset has the same bank and number, so notes select that one.
    HiddenPreset {
        preset: u32,
        by: u32,
    },
    /// No note selects the zone: of a preset with any zone of its instrument, of an instrument alone or with any zone
    /// of a preset.
    UnselectableZone {
        owner: Owner,
        zone: u32,
    },
    /// No zone targets the instrument.
    UnusedInstrument {
        instrument: u32,
    },
    /// No zone targets the sample, and no other sample links to it.
    UnusedSample {
        sample: u32,
    },
    /// The keys play nothing, though the preset plays lower and higher keys.
    SilentKeys {
        preset: u32,
        low: u8,
        high: u8,
    },
    /// The global zone sets a generator that each zone sets too.
    OverriddenGenerator {
        owner: Owner,
        operator: u16,
    },
    /// The amount is outside the range of the standard, and not the default (SoundFont 2.04, section 8.1.3). In a preset
    /// an amount is added to those of instruments, so it may be as far from 0 as the ends of the range are apart.
    OutsideRange {
        owner: Owner,
        place: Place,
        operator: u16,
        amount: u16,
        /// The amount in the range that is nearest to it.
        nearest: i32,
    },
    /// The left or right sample links to another, which does not link back.
    OneSidedLink {
        sample: u32,
        other: u32,
    },
    /// The loop has fewer than 32 points.
    ShortLoop {
        sample: u32,
        points: u32,
    },
    /// The jump from the last point of the loop to its first is above 1,000, and more than twice the largest step
    /// between neighbouring points among the first 1,024 and among the last 1,024 points of the loop.
    ClickingLoop {
        sample: u32,
        jump: u32,
        step: u32,
    },
    /// The rate is below 400 or above 192,000 frames per second.
    UnusualRate {
        sample: u32,
        rate: u32,
    },
    /// At least three neighbouring points are 32,767, or -32,768; `points` counts the points of such runs.
    ClippedSample {
        sample: u32,
        points: u32,
    },
    /// All points are zero, and there is at least one.
    SilentSample {
        sample: u32,
    },
    /// The mean of at least 1,000 points is above 328 or below -328, 1 % of the full scale.
    OffsetSample {
        sample: u32,
        mean: i32,
    },
    /// The sample is equal to an earlier one, but for its name and link.
    EqualSample {
        sample: u32,
        to: u32,
    },
}

/// A preset, an instrument or a sample, by its number.
#[derive(Clone, Copy, Debug, PartialEq, Eq)]
pub enum Member {
    Preset(u32),
    Instrument(u32),
    Sample(u32),
}

impl Finding {
    /// The member of the bank that the finding is about; for a zone its owner.
    #[tactic(auto, unfolding(crate::specs::Kinds::member_of))]
    pub fn member(self) -> Member
        ensures { result ≡ member_of self }
    {
        match self {
            Finding::HiddenPreset { preset, .. } | Finding::SilentKeys { preset, .. } => {
                Member::Preset(preset)
            }
            Finding::UnselectableZone { owner, .. }
            | Finding::OverriddenGenerator { owner, .. }
            | Finding::OutsideRange { owner, .. } => member_of_owner(owner),
            Finding::UnusedInstrument { instrument } => Member::Instrument(instrument),
            Finding::UnusedSample { sample }
            | Finding::OneSidedLink { sample, .. }
            | Finding::ShortLoop { sample, .. }
            | Finding::ClickingLoop { sample, .. }
            | Finding::UnusualRate { sample, .. }
            | Finding::ClippedSample { sample, .. }
            | Finding::SilentSample { sample }
            | Finding::OffsetSample { sample, .. }
            | Finding::EqualSample { sample, .. } => Member::Sample(sample),
        }
    }
}

fn member_of_owner(owner: Owner) -> Member
    ensures { result ≡ member_of_owner owner }
{
    match owner {
        Owner::Preset(preset) => Member::Preset(preset),
        Owner::Inst(instrument) => Member::Instrument(instrument),
    }
}
