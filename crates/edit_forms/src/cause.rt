//! Causes for which an edit is refused.
ghost use Rattle.std.specs.Prelude.{◌≡◌};
ghost use Rattle.edit_forms.specs.CauseNames.{number_of, name_of, limit_of};

use bank_validity::Limit;
use thiserror::Error;

/// A cause for which an edit is refused, in the order of their numbers.
#[derive(Clone, Copy, Debug, PartialEq, Eq, Error)]
pub enum Cause {
    #[error("there is no such preset")]
    NoSuchPreset,
    #[error("there is no such instrument")]
    NoSuchInstrument,
    #[error("there is no such sample")]
    NoSuchSample,
    #[error("there is no such zone")]
    NoSuchZone,
    #[error("there is no such modulator")]
    NoSuchModulator,
    /// An index past the end of the list; for a move, past its last member.
    #[error("there is no such place")]
    BadPlace,
    /// A zone targets the member, or another sample links to it.
    #[error("the member is in use")]
    InUse,
    /// An operator that the level does not allow; target operators are not allowed (SoundFont 2.04, section 8.1.2).
    #[error("the generator is not allowed there")]
    BadGenerator,
    #[error("the generator is not set there")]
    NotSet,
    /// A range whose low end is above its high end, or whose high end is above 127.
    #[error("the range is empty or above 127")]
    BadRange,
    /// The zone's effective range does not contain the position of the split, or begins there.
    #[error("the split is not inside the range of the zone")]
    SplitOutside,
    /// The zones differ in more than their ranges on the axis, their ranges are not adjacent, or without a range of
    /// its own the joined zone would have another effective range.
    #[error("the zones can't be joined")]
    NotJoinable,
    /// A modulator of the place is linked to others by their numbers, or the new modulator is.
    #[error("modulators are linked there")]
    LinkedModulator,
    /// A trim removes more points than the sample has.
    #[error("the sample is too short")]
    TooShort,
    /// A trim removes points of the loop.
    #[error("the cut is in the loop")]
    LoopCut,
    #[error("the loop is empty or not in the sample")]
    BadLoop,
    #[error("the text is too long, has a zero byte, or is empty and must not be")]
    BadText,
    /// The edit would break this limit, the first in their order.
    #[error("the bank would be too large")]
    Full(Limit),
}

impl Cause {
    /// The number of the cause, as fault lines print it.
    pub fn number(self) -> u8
        ensures { result ≡ number_of self }
    {
        match self {
            Cause::NoSuchPreset => 20,
            Cause::NoSuchInstrument => 21,
            Cause::NoSuchSample => 22,
            Cause::NoSuchZone => 23,
            Cause::NoSuchModulator => 24,
            Cause::BadPlace => 25,
            Cause::InUse => 26,
            Cause::BadGenerator => 27,
            Cause::NotSet => 28,
            Cause::BadRange => 29,
            Cause::SplitOutside => 30,
            Cause::NotJoinable => 31,
            Cause::LinkedModulator => 32,
            Cause::TooShort => 33,
            Cause::LoopCut => 34,
            Cause::BadLoop => 35,
            Cause::BadText => 36,
            Cause::Full(_) => 37,
        }
    }

    /// The name of the cause, as fault lines print it.
    pub fn name(self) -> &'static str
        ensures { result.now ≡ name_of self }
    {
        match self {
            Cause::NoSuchPreset => "NoSuchPreset",
            Cause::NoSuchInstrument => "NoSuchInstrument",
            Cause::NoSuchSample => "NoSuchSample",
            Cause::NoSuchZone => "NoSuchZone",
            Cause::NoSuchModulator => "NoSuchModulator",
            Cause::BadPlace => "BadPlace",
            Cause::InUse => "InUse",
            Cause::BadGenerator => "BadGenerator",
            Cause::NotSet => "NotSet",
            Cause::BadRange => "BadRange",
            Cause::SplitOutside => "SplitOutside",
            Cause::NotJoinable => "NotJoinable",
            Cause::LinkedModulator => "LinkedModulator",
            Cause::TooShort => "TooShort",
            Cause::LoopCut => "LoopCut",
            Cause::BadLoop => "BadLoop",
            Cause::BadText => "BadText",
            Cause::Full(_) => "Full",
        }
    }

    /// The limit that the edit would break. Fault lines print its name after the name of the cause.
    pub fn limit(self) -> Option<Limit>
        ensures { result ≡ limit_of self }
    {
        match self {
            Cause::Full(limit) => Some(limit),
            _ => None,
        }
    }
}
