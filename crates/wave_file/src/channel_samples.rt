//! The samples of one channel.
ghost use Rattle.std.specs.Prelude.{◌≡◌, ◌%◌, ◌<◌, ◌≤◌, length, IfOk};
ghost use Rattle.sample_view.specs.Words.{words};
ghost use Rattle.pcm_points.specs.Dither.{reduced_words};

use pcm_points::{SampleEncoding, channel_points};
use sf_base::OutOfMemory;
use std::alloc::Global;
use std::marker::Model;

/// The samples of one channel, borrowed from the frames of a file. Its value is the list of their points.
#[derive(Debug, Drop)]
pub struct ChannelSamples<'a> {
    frames: &'a [u8],
    encoding: SampleEncoding,
    channels: usize,
    channel: usize,
    dither: Option<u64>,
}

impl<'a> Model for ChannelSamples<'a> {
    ghost use Rattle.std.specs.Prelude.{◌<◌, ◌≤◌, ℕ, List};
    ghost use Rattle.pcm_points.specs.Dither.{reduced_words};

    ghost Value = { List ℕ };

    ghost view = { λ s. reduced_words s.dither s.encoding s.channels s.channel s.frames.now };

    ghost invariant = { λ s. (s.channel < s.channels) × (s.channels ≤ 65535) };
}

impl<'a> ChannelSamples<'a> {
    /// The samples of one of these channels, with the dither of a seed.
    pub(crate) fn of(
        frames: &'a [u8],
        encoding: SampleEncoding,
        channels: usize,
        channel: usize,
        dither: Option<u64>,
    ) -> ChannelSamples<'a>
        requires channel { channel < channels }
        requires count { channels ≤ 65535 }
        ensures { result ≡ reduced_words dither encoding channels channel frames.now }
    {
        ChannelSamples {
            frames,
            encoding,
            channels,
            channel,
            dither,
        }
    }

    /// The number of samples.
    pub fn len(&self) -> usize
        ensures { result ≡ length self.now }
    {
        self.frames.len() / (self.channels * self.encoding.size())
    }

    /// The points of the samples, 16-bit little-endian.
    pub fn points(&self, alloc: Global) -> Result<Vec<u8>, OutOfMemory>
        ensures value { IfOk result (λ points. words points.items ≡ self.now) }
        ensures whole { IfOk result (λ points. length points.items % 2 ≡ 0) }
    {
        channel_points(
            alloc,
            self.frames,
            self.encoding,
            self.channels,
            self.channel,
            self.dither,
        )
    }
}
