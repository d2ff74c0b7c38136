//! The points of one channel of interleaved frames.
ghost use Rattle.std.specs.Prelude.{◌≡◌, ◌+◌, ◌*◌, ◌/◌, ◌<◌, ◌≤◌, ◌++◌, length, IfOk};
ghost use Rattle.std.specs.List.{flat_map};
ghost use Rattle.std.specs.Vec.{vec_len, vec_capacity};
ghost use Rattle.sample_view.specs.Words.{word_bytes};
ghost use Rattle.pcm_points.specs.declared.encoding.SampleEncoding.TheVariants.{Signed16};
ghost use Rattle.pcm_points.specs.Samples.{size_of};
ghost use Rattle.pcm_points.specs.Points.{point_word, channel_words};
ghost use Rattle.pcm_points.specs.Dither.{reduced_words};

use crate::blocks::put_blocks;
use crate::dither::dithered_points;
use crate::encoding::SampleEncoding;
use crate::rounding::point;
use sf_base::OutOfMemory;
use std::alloc::Global;

/// The bytes of a point.
pub(crate) const POINT_SIZE: usize = 2;

/// The points of one channel, 16-bit little-endian, of frames that have a sample of each channel in turn. The channels
/// count from 0. Bytes after the last whole frame are ignored. The memory is allocated once.
///
/// With a seed of dither, triangular noise of up to one point is added to samples of more than 16 bits before they are
/// rounded. Its generator is PCG32, which starts with the seed as its state and the channel as its stream.
pub fn channel_points(
    alloc: Global,
    bytes: &[u8],
    encoding: SampleEncoding,
    channels: usize,
    channel: usize,
    dither: Option<u64>,
) -> Result<Vec<u8>, OutOfMemory>
    requires channel { channel < channels }
    requires count { channels ≤ 65535 }
    ensures { IfOk result
        (λ points. points.items ≡ flat_map word_bytes (reduced_words dither encoding channels channel bytes.now)) }
{
    match dither {
        Some(seed) if encoding.size() > POINT_SIZE => {
            dithered_points(alloc, bytes, encoding, channels, channel, seed)
        }
        _ => nearest_points(alloc, bytes, encoding, channels, channel),
    }
}

// The points without dither.
pub(crate) fn nearest_points(
    alloc: Global,
    bytes: &[u8],
    encoding: SampleEncoding,
    channels: usize,
    channel: usize,
) -> Result<Vec<u8>, OutOfMemory>
    requires channel { channel < channels }
    requires count { channels ≤ 65535 }
    ensures { IfOk result
        (λ points. points.items ≡ flat_map word_bytes (channel_words encoding channels channel bytes.now)) }
{
    match (encoding, channels) {
        (SampleEncoding::Signed16, 1) => whole_points(alloc, bytes),
        _ => rounded_points(alloc, bytes, encoding, channels, channel),
    }
}

// The points of 16-bit samples of one channel, which are those samples.
fn whole_points(alloc: Global, bytes: &[u8]) -> Result<Vec<u8>, OutOfMemory>
    ensures { IfOk result (λ points. points.items ≡ flat_map word_bytes (channel_words Signed16 1 0 bytes.now)) }
{
    let whole = bytes.len() / POINT_SIZE * POINT_SIZE;
    Ok(Vec::from_slice(alloc, &bytes[..whole])?)
}

// The points of samples that may have to be rounded.
fn rounded_points(
    alloc: Global,
    bytes: &[u8],
    encoding: SampleEncoding,
    channels: usize,
    channel: usize,
) -> Result<Vec<u8>, OutOfMemory>
    requires channel { channel < channels }
    requires count { channels ≤ 65535 }
    ensures { IfOk result
        (λ points. points.items ≡ flat_map word_bytes (channel_words encoding channels channel bytes.now)) }
{
    let mut points = Vec::with_capacity(
        alloc,
        bytes.len() / (channels * encoding.size()) * POINT_SIZE,
    )?;
    let rest = if encoding.is_integer() {
        put_blocks(&mut points, bytes, encoding, channels, channel)
    } else {
        bytes
    };
    put_frames(&mut points, rest, encoding, channels, channel);
    Ok(points)
}

// Appends the points of all whole frames, one by one, to a vector with room for them.
fn put_frames(
    points: &mut Vec<u8>,
    bytes: &[u8],
    encoding: SampleEncoding,
    channels: usize,
    channel: usize,
)
    requires channel { channel < channels }
    requires count { channels ≤ 65535 }
    requires room { vec_len points.old + length bytes.now / (channels * size_of encoding) * 2
        ≤ vec_capacity points.old }
    ensures { points.new.items
        ≡ points.old.items ++ flat_map word_bytes (channel_words encoding channels channel bytes.now) }
{
    let size = encoding.size();
    let frame_size = channels * size;
    let offset = channel * size;
    let mut rest = bytes;
    while frame_size <= rest.len() {
        let (frame, others) = rest.split_at(frame_size);
        let word = point_word(encoding, &frame[offset..offset + size]);
        put_word(points, word);
        rest = others;
    }
}

// The point of a sample, as the unsigned word of its bits.
fn point_word(encoding: SampleEncoding, sample: &[u8]) -> u16
    requires { length sample.now ≡ size_of encoding }
    ensures { result ≡ point_word encoding sample.now }
{
    point(encoding, sample).cast_unsigned()
}

// Appends a word to a vector with room for it.
#[tactic(auto, unfolding(sample_view::specs::Words::word_bytes))]
pub(crate) fn put_word(points: &mut Vec<u8>, word: u16)
    requires { vec_len points.old + 2 ≤ vec_capacity points.old }
    ensures items { points.new.items ≡ points.old.items ++ word_bytes word }
    ensures len { vec_len points.new ≡ vec_len points.old + 2 }
    ensures capacity { vec_capacity points.new ≡ vec_capacity points.old }
{
    let bytes = word.to_le_bytes();
    points.push_reserved(bytes[0]);
    points.push_reserved(bytes[1]);
}
