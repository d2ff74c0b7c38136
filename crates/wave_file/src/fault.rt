//! Why a recording can't be read from a WAVE file, put in a sample's place, or written as one.
ghost use Rattle.std.specs.Prelude.{◌≡◌};
ghost use Rattle.wave_file.specs.declared.fault.WaveFault.TheVariants as faults;
ghost use Rattle.wave_file.specs.FaultNames.{number_of, name_of};

use riff_chunks::Truncated;
use thiserror::Error;

/// The first check that a WAVE file fails, or why its recording or a pair of samples doesn't fit.
#[derive(Clone, Copy, Debug, PartialEq, Eq, Error)]
pub enum WaveFault {
    #[error("the file is no RIFF file of the form WAVE")]
    NotWave = 53,
    #[error("a chunk passes the end of what holds it")]
    Truncated = 54,
    /// Also neither of them as the subformat of WAVE_FORMAT_EXTENSIBLE.
    #[error("the samples are neither integer PCM nor 32-bit float")]
    Compressed = 55,
    #[error("there is no format chunk of 16 bytes")]
    NoFormat = 56,
    #[error("the samples have neither 8, 16, 24 nor 32 bits")]
    SampleBits = 57,
    #[error("there is neither one channel nor two")]
    ChannelCount = 58,
    #[error("there is no data chunk")]
    NoData = 59,
    #[error("the data are no whole number of frames")]
    HalfFrame = 60,
    #[error("the sampler chunk is shorter than its loops")]
    ShortSampler = 61,
    #[error("the unity note is above 127")]
    UnityNote = 62,
    #[error("the loop is empty or not in the data")]
    LoopOutside = 63,
    #[error("there is no such channel")]
    NoSuchChannel = 71,
    #[error("the recording is stereo, and the sample is not one of a pair")]
    TwoChannels = 72,
    #[error("the sample is not one of a pair")]
    NotAPair = 73,
    #[error("the samples of the pair differ in length or rate")]
    SidesDiffer = 74,
    #[error("the samples don't have 16 bits")]
    NotSixteenBits = 78,
    #[error("the rate is not that of the sample's line")]
    OtherRate = 79,
    #[error("the loop of the sample's line ends after the data")]
    ShortForLoop = 80,
}

impl WaveFault {
    /// The number that fault lines report.
    pub fn number(self) -> u8
        ensures { result ≡ number_of self }
    {
        self as u8
    }

    /// The name that fault lines report.
    pub fn name(self) -> &'static str
        ensures { result.now ≡ name_of self }
    {
        match self {
            WaveFault::NotWave => "NotWave",
            WaveFault::Truncated => "Truncated",
            WaveFault::Compressed => "Compressed",
            WaveFault::NoFormat => "NoFormat",
            WaveFault::SampleBits => "SampleBits",
            WaveFault::ChannelCount => "ChannelCount",
            WaveFault::NoData => "NoData",
            WaveFault::HalfFrame => "HalfFrame",
            WaveFault::ShortSampler => "ShortSampler",
            WaveFault::UnityNote => "UnityNote",
            WaveFault::LoopOutside => "LoopOutside",
            WaveFault::NoSuchChannel => "NoSuchChannel",
            WaveFault::TwoChannels => "TwoChannels",
            WaveFault::NotAPair => "NotAPair",
            WaveFault::SidesDiffer => "SidesDiffer",
            WaveFault::NotSixteenBits => "NotSixteenBits",
            WaveFault::OtherRate => "OtherRate",
            WaveFault::ShortForLoop => "ShortForLoop",
        }
    }
}

impl From<Truncated> for WaveFault {
    ghost from_gives = { λ _ fault. fault ≡ faults.Truncated };

    fn from(_error: Truncated) -> WaveFault {
        WaveFault::Truncated
    }
}
