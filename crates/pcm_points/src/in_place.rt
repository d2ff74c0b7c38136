//! The points of one channel, in the memory of its frames.
ghost use Rattle.std.specs.Prelude.{◌≡◌, ◌+◌, ◌*◌, ◌<◌, ◌≤◌, ◌++◌, length, take, drop, IfOk};
ghost use Rattle.std.specs.List.{flat_map};
ghost use Rattle.sample_view.specs.Words.{word_bytes};
ghost use Rattle.pcm_points.specs.Samples.{size_of};
ghost use Rattle.pcm_points.specs.Points.{channel_words};

use crate::channel::nearest_points;
use crate::encoding::SampleEncoding;
use sf_base::OutOfMemory;
use std::alloc::Global;

/// The frames of a piece. The points of a piece stay in the processor's cache.
const PIECE: usize = 4096;

/// The points of `channel_points` without dither, written over the bytes of the frames, which must have two bytes at
/// least. No new memory has to be made ready for all the points, only for those of a piece.
pub fn points_in_place<'a>(
    alloc: Global,
    bytes: &'a mut [u8],
    encoding: SampleEncoding,
    channels: usize,
    channel: usize,
) -> Result<&'a [u8], OutOfMemory>
    requires channel { channel < channels }
    requires count { channels ≤ 65535 }
    requires room { 2 ≤ channels * size_of encoding }
    ensures { IfOk result
        (λ points. points.now ≡ flat_map word_bytes (channel_words encoding channels channel bytes.old)) }
{
    let piece_size = PIECE * (channels * encoding.size());
    let size = bytes.len();
    let mut read = 0;
    let mut written = 0;
    while read < size {
        let end = read + piece_size.min(size - read);
        let points = nearest_points(alloc, &bytes[read..end], encoding, channels, channel)?;
        put_at(bytes, written, points.as_slice());
        written += points.len();
        read = end;
    }
    Ok(&bytes[..written])
}

// Writes a part over the bytes from a position on.
fn put_at(bytes: &mut [u8], position: usize, part: &[u8])
    requires { position + length part.now ≤ length bytes.old }
    ensures { bytes.new ≡ take position bytes.old ++ part.now ++ drop (position + length part.now) bytes.old }
{
    let end = position + part.len();
    bytes[position..end].copy_from_slice(part);
}
