//! The points of integers, eight frames at a time.
ghost use Rattle.std.specs.Prelude.{◌≡◌, ◌+◌, ◌*◌, ◌/◌, ◌<◌, ◌≤◌, ◌++◌, map, drop, length, true};
ghost use Rattle.std.specs.List.{flat_map, range_with_len};
ghost use Rattle.std.specs.Vec.{vec_len, vec_capacity};
ghost use Rattle.byteorder.specs.Endian.{little_number};
ghost use Rattle.sample_view.specs.Words.{word_bytes};
ghost use Rattle.pcm_points.specs.Samples.{size_of};
ghost use Rattle.pcm_points.specs.Points.{channel_words};
ghost use Rattle.pcm_points.specs.Blocks.{is_integer, aligned, number_word};

use crate::encoding::SampleEncoding;
use byteorder::{ByteOrder, LittleEndian};
use std::simd::prelude::*;

/// The frames of a block.
const BLOCK: usize = 8;

/// The bytes that are read from the start of each sample.
const WINDOW: usize = 4;

/// The bits of a number below those of its point.
const POINT_SHIFT: u32 = 16;

/// The bits below the highest bit of a number.
const SIGN_SHIFT: u32 = 31;

/// Half a point, in numbers.
const HALF_POINT: u32 = 0x8000;

/// The greatest number that is rounded to a point.
const GREATEST: u32 = 0xFFFF_7FFF;

/// Where 0 is in points that count from the least one.
const POINT_BIAS: u16 = 0x8000;

// Appends the points of blocks of frames. Returns the bytes after them, with less than two blocks of frames.
pub(crate) fn put_blocks<'a>(
    points: &mut Vec<u8>,
    bytes: &'a [u8],
    encoding: SampleEncoding,
    channels: usize,
    channel: usize,
) -> &'a [u8]
    requires is_integer { is_integer encoding ≡ true }
    requires channel { channel < channels }
    requires count { channels ≤ 65535 }
    requires room { vec_len points.old + length bytes.now / (channels * size_of encoding) * 2
        ≤ vec_capacity points.old }
    ensures all { points.new.items ++ flat_map word_bytes (channel_words encoding channels channel result.now)
        ≡ points.old.items ++ flat_map word_bytes (channel_words encoding channels channel bytes.now) }
    ensures room { vec_len points.new + length result.now / (channels * size_of encoding) * 2
        ≤ vec_capacity points.new }
{
    let size = encoding.size();
    let frame_size = channels * size;
    let offset = channel * size;
    let shift = encoding.shift();
    let bias = encoding.bias();
    let mut rest = bytes;
    while BLOCK * frame_size + WINDOW <= rest.len() {
        let numbers = align(windows(&rest[offset..], frame_size), shift, bias);
        put_words(points, words(numbers));
        let (_, others) = rest.split_at(BLOCK * frame_size);
        rest = others;
    }
    rest
}

// The eight numbers that begin at the start of the bytes and each stride after it.
#[inline]
fn windows(bytes: &[u8], stride: usize) -> u32x8
    requires { 7 * stride + 4 ≤ length bytes.now }
    ensures { result ≡ map (λ i. little_number 4 (drop (i * stride) bytes.now)) (range_with_len 0 8) }
{
    u32x8::from_array([
        number_at(bytes, 0),
        number_at(bytes, stride),
        number_at(bytes, 2 * stride),
        number_at(bytes, 3 * stride),
        number_at(bytes, 4 * stride),
        number_at(bytes, 5 * stride),
        number_at(bytes, 6 * stride),
        number_at(bytes, 7 * stride),
    ])
}

// The number that begins at a position.
#[inline]
fn number_at(bytes: &[u8], position: usize) -> u32
    requires { position + 4 ≤ length bytes.now }
    ensures { result ≡ little_number 4 (drop position bytes.now) }
{
    LittleEndian::read_u32(&bytes[position..])
}

// The samples at the start of these numbers, as numbers of 32 bits that count from the least one.
#[inline]
fn align(windows: u32x8, shift: u32, bias: u32) -> u32x8
    requires { shift < 32 }
    ensures { result ≡ map (aligned shift bias) windows }
{
    (windows << u32x8::splat(shift)) + u32x8::splat(bias)
}

// The points of these numbers: a half is rounded up, below zero down.
#[inline]
fn words(numbers: u32x8) -> u16x8
    ensures { result ≡ map number_word numbers }
{
    let is_above = numbers >> u32x8::splat(SIGN_SHIFT);
    let clipped = numbers.simd_min(u32x8::splat(GREATEST));
    let rounded = clipped + u32x8::splat(HALF_POINT - 1) + is_above;
    let offsets = (rounded >> u32x8::splat(POINT_SHIFT)).cast::<u16>();
    offsets + u16x8::splat(POINT_BIAS)
}

// Appends words to a vector with room for them.
#[inline]
fn put_words(points: &mut Vec<u8>, words: u16x8)
    requires { vec_len points.old + 16 ≤ vec_capacity points.old }
    ensures items { points.new.items ≡ points.old.items ++ flat_map word_bytes words }
    ensures len { vec_len points.new ≡ vec_len points.old + 16 }
    ensures capacity { vec_capacity points.old ≤ vec_capacity points.new }
{
    points
        .extend_from_slice(words.to_le_bytes().as_array())
        .unwrap();
}
