//! Levels in decibels.

/// The logarithm of full scale, 32,768, to base 2.
const FULL_SCALE: i64 = 15;

/// The bits of a logarithm after its point, and the number that they count 1 as.
const FRACTION_BITS: u32 = 12;

const SCALE: i64 = 4_096;

/// A factor of 2 in ten thousandths of a decibel, and these in a tenth of a decibel.
const DOUBLED: i64 = 60_206;

const TENTH: i64 = 1_000;

/// The number that counts as 1 where a number from 1 to 2 is squared.
const ONE: u64 = 1 << 31;

/// The level of a sample value relative to full scale, 32,768, in tenths of a decibel; none for silence.
pub(crate) fn tenths_of_decibels(value: u32) -> Option<i64> {
    if value == 0 {
        return None;
    }
    let over = binary_logarithm(value).saturating_sub(FULL_SCALE * SCALE);
    Some(over.saturating_mul(DOUBLED) / (SCALE * TENTH))
}

// The logarithm of a positive number to base 2, in 4,096ths.
fn binary_logarithm(value: u32) -> i64 {
    let mut whole = 31i64;
    let mut mantissa = u64::from(value);
    for _bit in 0..31 {
        if mantissa < ONE {
            mantissa = mantissa.saturating_mul(2);
            whole = whole.saturating_sub(1);
        }
    }
    whole
        .saturating_mul(SCALE)
        .saturating_add(fraction_of(mantissa))
}

// The logarithm of a number from 1 to 2, in 4,096ths. Squaring it doubles its logarithm, whose next bit appears.
fn fraction_of(mantissa: u64) -> i64 {
    let mut square = mantissa;
    let mut fraction = 0i64;
    for _bit in 0..FRACTION_BITS {
        square = square.saturating_mul(square) / ONE;
        fraction = fraction.saturating_mul(2);
        if square >= 2 * ONE {
            square /= 2;
            fraction = fraction.saturating_add(1);
        }
    }
    fraction
}
