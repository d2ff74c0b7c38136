//! The dithered points of one sample, and of one channel of interleaved frames.
ghost use Rattle.std.specs.Prelude.{◌≡◌, ◌<◌, ◌≤◌, ◌^◌, length, IfOk};
ghost use Rattle.std.specs.List.{flat_map};
ghost use Rattle.sample_view.specs.Words.{word_bytes};
ghost use Rattle.rand_pcg.specs.Lcg.{next};
ghost use Rattle.rand_pcg.specs.Pcg.{multiplier_64, output_xsh_rr};
ghost use Rattle.pcm_points.specs.Samples.{size_of, integer_fraction, finer};
ghost use Rattle.pcm_points.specs.Points.{rounded};
ghost use Rattle.pcm_points.specs.Dither.{wide, dithered_point, dithered_word, dithered_words};

use crate::channel::{POINT_SIZE, put_word};
use crate::encoding::SampleEncoding;
use crate::rounding::{FULL_SCALE, MOST_NEGATIVE, float_number};
use byteorder::{ByteOrder, LittleEndian};
use rand_core::utils::NextWord;
use rand_pcg::Pcg32;
use sf_base::OutOfMemory;
use std::alloc::Global;

/// The bits of a unit below those of a point, which are also the bits of a half of a word of noise.
const UNIT_BITS: u32 = 16;

/// The bits of a number of units.
const WIDE_BITS: u32 = 32;

/// Half a point in these units.
const HALF_POINT: u64 = 0x8000;

/// The distance from the least point down to where offsets begin, in points. Noise doesn't reach that far.
const OFFSET_POINTS: u64 = 2;

/// The distance from 0 down to where offsets begin, in units.
const OFFSET: i64 = 0x8002_0000;

// The points with the dither of a seed.
pub(crate) fn dithered_points(
    alloc: Global,
    bytes: &[u8],
    encoding: SampleEncoding,
    channels: usize,
    channel: usize,
    seed: u64,
) -> Result<Vec<u8>, OutOfMemory>
    requires channel { channel < channels }
    requires count { channels ≤ 65535 }
    ensures { IfOk result
        (λ points. points.items ≡ flat_map word_bytes (dithered_words seed encoding channels channel bytes.now)) }
{
    let size = encoding.size();
    let frame_size = channels * size;
    let offset = channel * size;
    let mut generator = Pcg32::new(seed, channel as u64);
    let mut points = Vec::with_capacity(alloc, bytes.len() / frame_size * POINT_SIZE)?;
    let mut rest = bytes;
    while frame_size <= rest.len() {
        let (frame, others) = rest.split_at(frame_size);
        let word = dithered_word(&mut generator, encoding, &frame[offset..offset + size]);
        put_word(&mut points, word);
        rest = others;
    }
    Ok(points)
}

// The dithered point of a sample, as the unsigned word of its bits.
#[inline]
fn dithered_word(generator: &mut Pcg32, encoding: SampleEncoding, sample: &[u8]) -> u16
    requires { length sample.now ≡ size_of encoding }
    ensures word { result ≡ dithered_word (output_xsh_rr generator.old.state) (wide encoding sample.now) }
    ensures next { generator.new ≡ next 64 multiplier_64 generator.old }
{
    dithered_point(generator.next_word(), wide(encoding, sample)).cast_unsigned()
}

// A sample in units of 2^-16 points: an integer exactly, a float rounded to the nearest and clipped.
#[inline]
fn wide(encoding: SampleEncoding, sample: &[u8]) -> i32
    requires { length sample.now ≡ size_of encoding }
    ensures { result ≡ wide encoding sample.now }
{
    match encoding {
        SampleEncoding::Unsigned8 => wide_integer(u32::from(sample[0] ^ 128), 8),
        SampleEncoding::Signed16 => wide_integer(u32::from(LittleEndian::read_u16(sample)), 16),
        SampleEncoding::Signed24 => wide_integer(LittleEndian::read_u24(sample), 24),
        SampleEncoding::Signed32 => wide_integer(LittleEndian::read_u32(sample), 32),
        SampleEncoding::Float32 => float_number(LittleEndian::read_u32(sample), UNIT_BITS),
    }
}

// An integer in two's complement, in these units.
#[inline]
fn wide_integer(number: u32, width: u32) -> i32
    requires width { (1 ≤ width) × (width ≤ 32) }
    requires number { number < 2 ^ width }
    ensures { result ≡ rounded 32 (finer 16 (integer_fraction width number)) }
{
    (number << (WIDE_BITS - width)).cast_signed()
}

// The point of a number of these units and the noise of a word: a half is rounded up, below zero down. A branch on the
// sign would be mispredicted often.
#[inline]
fn dithered_point(word: u32, units: i32) -> i16
    ensures { result ≡ dithered_point word units }
{
    let noise = i64::from(word >> UNIT_BITS) - i64::from(word % (1 << UNIT_BITS));
    let sum = i64::from(units) + noise;
    let is_below = u64::from(sum < 0);
    let offset = ((sum + OFFSET) as u64 + HALF_POINT - is_below) >> UNIT_BITS;
    let clipped = offset.saturating_sub(OFFSET_POINTS).min(FULL_SCALE - 1);
    let word = (clipped + MOST_NEGATIVE) % FULL_SCALE;
    (word as u16).cast_signed()
}
