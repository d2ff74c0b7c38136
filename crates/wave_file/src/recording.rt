//! The content of a WAVE file.
ghost use Rattle.std.specs.Prelude.{◌≡◌};
ghost use Rattle.wave_file.specs.Recordings.{frame_count};

use crate::channel_samples::ChannelSamples;
use pcm_points::SampleEncoding;
use sample_view::Points;

/// The channels that are read: one of a number of channels, or left and right.
#[derive(Clone, Copy, Debug, PartialEq, Eq)]
pub(crate) enum Layout {
    Mono { channels: u16, channel: u16 },
    Stereo,
}

/// The format of samples that can be read.
#[derive(Clone, Copy, Debug, PartialEq, Eq)]
pub(crate) struct Format {
    pub(crate) layout: Layout,
    pub(crate) encoding: SampleEncoding,
    /// Frames per second.
    pub(crate) rate: u32,
}

/// The samples of a recording, borrowed from the file.
#[derive(Drop)]
pub enum Channels<'a> {
    /// The points of a recording of 16 bits and a single channel.
    Mono(Points<'a>),
    /// The samples of one channel of any other recording.
    MonoSamples(ChannelSamples<'a>),
    /// The left and the right samples of a stereo recording.
    Stereo(ChannelSamples<'a>, ChannelSamples<'a>),
}

/// The pitch of a recording.
#[derive(Clone, Copy, Debug, PartialEq, Eq)]
pub struct Pitch {
    /// The key at which it sounds as recorded; above 127 for unpitched.
    pub key: u8,
    /// The pitch correction, in cents.
    pub correction: i8,
}

/// The pitch of a new sample whose recording has none.
pub const DEFAULT_PITCH: Pitch = Pitch {
    key: 60,
    correction: 0,
};

/// The content of the `smpl` chunk.
#[derive(Clone, Copy, Debug, PartialEq, Eq)]
pub struct Sampler {
    /// The pitch; none without the chunk, unless the options give a key.
    pub pitch: Option<Pitch>,
    /// The loop: its first frame, and the first frame after it.
    pub looped: Option<(u32, u32)>,
}

/// A WAVE file that is read.
#[derive(Drop)]
pub struct Recording<'a> {
    pub channels: Channels<'a>,
    /// Frames per second.
    pub rate: u32,
    pub sampler: Sampler,
}

impl Channels<'_> {
    /// The number of frames.
    pub fn frame_count(&self) -> usize
        ensures { result ≡ frame_count self.now }
    {
        match self {
            Channels::Mono(points) => points.len(),
            Channels::MonoSamples(samples) => samples.len(),
            Channels::Stereo(left, _) => left.len(),
        }
    }
}
