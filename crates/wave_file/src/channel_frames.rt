//! The frames of a single channel, as a part of a WAVE file.
ghost use Rattle.std.specs.Prelude.{◌≡◌, ◌<◌, ◌≤◌, ◌+◌, ◌*◌, ◌^◌, length, IfOk, IfSome};
ghost use Rattle.std.specs.List.{flat_map};
ghost use Rattle.sample_view.specs.Words.{word_bytes};
ghost use Rattle.pcm_points.specs.Samples.{size_of};
ghost use Rattle.wave_file.specs.Recordings.{HasChannel};
ghost use Rattle.wave_file.specs.InPlace.{AreOf, AreFrames, frame_words};

use crate::chunks::WaveChunks;
use crate::data_range::{ByteRange, data_range};
use crate::format::{frame_size, read_format};
use crate::options::ReadOptions;
use crate::recording::{Format, Layout};
use crate::window::{HEAD_SIZE, wave_window};
use pcm_points::{SampleEncoding, points_in_place};
use sf_base::OutOfMemory;
use std::alloc::Global;

/// The bytes of a point.
const POINT_SIZE: usize = 2;

/// The frames of one channel that is read, which are longer than its points.
#[derive(Clone, Copy)]
pub(crate) struct ChannelFrames {
    /// Their bytes in the file.
    pub(crate) range: ByteRange,
    pub(crate) encoding: SampleEncoding,
    pub(crate) channels: usize,
    pub(crate) channel: usize,
}

impl ChannelFrames {
    /// Finds those of a WAVE file that can be converted in place: of one channel, without dither.
    pub(crate) fn find(file: &[u8], options: ReadOptions) -> Option<ChannelFrames>
        ensures { IfSome result (λ frames. AreFrames frames options file.now) }
    {
        if options.dither.is_some() {
            return None;
        }
        let Ok(window) = wave_window(file) else {
            return None;
        };
        let Ok(chunks) = WaveChunks::over(window) else {
            return None;
        };
        let Ok(format) = read_format(options.channel, chunks.format()) else {
            return None;
        };
        match data_range(window) {
            Some(range) => ChannelFrames::of(format, range_in_file(range)),
            None => None,
        }
    }

    // Those of a format in a range of the file.
    fn of(format: Format, range: ByteRange) -> Option<ChannelFrames>
        requires { HasChannel format.layout }
        ensures { IfSome result (λ frames. AreOf frames format range) }
    {
        let Layout::Mono { channels, channel } = format.layout else {
            return None;
        };
        if frame_size(format) <= POINT_SIZE {
            return None;
        }
        Some(ChannelFrames {
            range,
            encoding: format.encoding,
            channels: usize::from(channels),
            channel: usize::from(channel),
        })
    }

    /// Converts the samples, and returns the bytes of their points.
    pub(crate) fn points_in_place<'a>(
        self,
        alloc: Global,
        file: &'a mut [u8],
    ) -> Result<&'a [u8], OutOfMemory>
        requires within { self.range.position + self.range.size ≤ length file.old }
        requires channel { self.channel < self.channels }
        requires count { self.channels ≤ 65535 }
        requires room { 2 ≤ self.channels * size_of self.encoding }
        ensures { IfOk result (λ points. points.now ≡ flat_map word_bytes (frame_words self file.old)) }
    {
        let end = self.range.position + self.range.size;
        let frames = &mut file[self.range.position..end];
        points_in_place(alloc, frames, self.encoding, self.channels, self.channel)
    }
}

// A range of the window as one of the file.
fn range_in_file(range: ByteRange) -> ByteRange
    requires { 12 + range.position < 2 ^ 64 }
    ensures position { result.position ≡ 12 + range.position }
    ensures size { result.size ≡ range.size }
{
    ByteRange {
        position: HEAD_SIZE + range.position,
        size: range.size,
    }
}
