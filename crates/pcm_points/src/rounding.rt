//! The point of one sample.
ghost use Rattle.std.specs.Prelude.{◌≡◌, ◌+◌, ◌*◌, ◌<◌, ◌≤◌, ◌^◌, length};
ghost use Rattle.pcm_points.specs.Samples.{size_of, integer_fraction, exponent_of, fraction_of, is_nan, significand_of};
ghost use Rattle.pcm_points.specs.Samples.{float_fraction, finer};
ghost use Rattle.pcm_points.specs.Points.{rounded, point_of, point};

use crate::encoding::SampleEncoding;
use byteorder::{ByteOrder, LittleEndian};

/// The bits of a point.
const POINT_BITS: u32 = 16;

/// The greatest magnitude of a negative point.
pub(crate) const MOST_NEGATIVE: u64 = 32_768;

/// Points in the full scale of a signed number, from its least to its greatest.
pub(crate) const FULL_SCALE: u64 = 65_536;

/// The bits of the fraction field of a float, and what the implicit bit before them counts.
const FRACTION_BITS: u32 = 23;

const IMPLICIT_BIT: u32 = 0x80_0000;

/// The sign bit of a float.
const SIGN_BIT: u32 = 0x8000_0000;

/// The exponent field of 1.0, and that of infinities and of NaN.
const EXPONENT_OF_ONE: u32 = 127;

const LAST_EXPONENT: u32 = 255;

/// The exponent field with which a unit of the significand is one point.
const EXPONENT_OF_POINTS: u32 = 135;

/// The bits by which a significand is shifted to less than half a point.
const MOST_SHIFT: u32 = 25;

/// The point of a sample, rounded to the nearest, ties away from zero, and clipped to 16 bits. NaN counts as 0.
#[inline]
pub fn point(encoding: SampleEncoding, sample: &[u8]) -> i16
    requires { length sample.now ≡ size_of encoding }
    ensures { result ≡ point encoding sample.now }
{
    match encoding {
        SampleEncoding::Unsigned8 => integer_point(u32::from(sample[0] ^ 128), 8),
        SampleEncoding::Signed16 => integer_point(u32::from(LittleEndian::read_u16(sample)), 16),
        SampleEncoding::Signed24 => integer_point(LittleEndian::read_u24(sample), 24),
        SampleEncoding::Signed32 => integer_point(LittleEndian::read_u32(sample), 32),
        SampleEncoding::Float32 => float_point(LittleEndian::read_u32(sample)),
    }
}

// The point of an integer in two's complement, from its offset to the least number: a half is rounded up, below zero
// down. A branch on the sign would be mispredicted often.
#[inline]
fn integer_point(number: u32, width: u32) -> i16
    requires width { (1 ≤ width) × (width ≤ 32) }
    requires number { number < 2 ^ width }
    ensures { result ≡ point_of (integer_fraction width number) }
{
    let scale = 1u64 << width;
    let offset = (u64::from(number) + scale / 2) % scale;
    let is_below = u64::from(offset < scale / 2);
    let rounded = (2 * FULL_SCALE * offset + scale - is_below) >> (width + 1);
    let word = (rounded.min(FULL_SCALE - 1) + MOST_NEGATIVE) % FULL_SCALE;
    (word as u16).cast_signed()
}

// The point of a float with these bits.
#[inline]
fn float_point(bits: u32) -> i16
    ensures { result ≡ point_of (float_fraction bits) }
{
    float_number(bits, 0) as i16
}

// A float with these bits in units of 2^-`extra` points, as a number of 16 + `extra` bits.
#[inline]
#[tactic(auto, using(crate::proofs::FloatLaws::nan_number, crate::proofs::FloatLaws::large_number))]
pub(crate) fn float_number(bits: u32, extra: u32) -> i32
    requires { extra ≤ 16 }
    ensures { result ≡ rounded (16 + extra) (finer extra (float_fraction bits)) }
{
    if is_nan(bits) {
        return 0;
    }
    let is_negative = bits >= SIGN_BIT;
    let exponent = exponent_of(bits);
    if exponent >= EXPONENT_OF_ONE {
        return rounded(is_negative, MOST_NEGATIVE << extra, 0, POINT_BITS + extra);
    }
    let shift = (EXPONENT_OF_POINTS - exponent.max(1)).min(MOST_SHIFT + extra);
    rounded(
        is_negative,
        u64::from(significand_of(bits)) << extra,
        shift,
        POINT_BITS + extra,
    )
}

// Whether a float is NaN.
fn is_nan(bits: u32) -> bool
    ensures { result ≡ is_nan bits }
{
    exponent_of(bits) == LAST_EXPONENT && fraction_of(bits) != 0
}

// The exponent field of a float.
fn exponent_of(bits: u32) -> u32
    ensures value { result ≡ exponent_of bits }
    ensures bound { result ≤ 255 }
{
    (bits >> FRACTION_BITS) % (LAST_EXPONENT + 1)
}

// The fraction field of a float.
fn fraction_of(bits: u32) -> u32
    ensures value { result ≡ fraction_of bits }
    ensures bound { result < 2 ^ 23 }
{
    bits % IMPLICIT_BIT
}

// The significand of a float, in units of its last bit.
fn significand_of(bits: u32) -> u32
    ensures value { result ≡ significand_of bits }
    ensures bound { result < 2 ^ 24 }
{
    if exponent_of(bits) == 0 {
        fraction_of(bits)
    } else {
        IMPLICIT_BIT + fraction_of(bits)
    }
}

// The nearest number of `width` bits to `numerator` / 2^`shift`, or to its negative.
#[inline]
fn rounded(is_negative: bool, numerator: u64, shift: u32, width: u32) -> i32
    requires numerator { numerator < 2 ^ 60 }
    requires shift { shift ≤ 60 }
    requires width { (1 ≤ width) × (width ≤ 32) }
    ensures { result ≡ rounded width (record {
      is_negative = is_negative;
      numerator = numerator;
      denominator = 2 ^ shift;
    }) }
{
    let magnitude = (2 * numerator + (1 << shift)) >> (shift + 1);
    let most = (1u64 << (width - 1)) - u64::from(!is_negative);
    let number = magnitude.min(most) as i64;
    if is_negative {
        -number as i32
    } else {
        number as i32
    }
}
