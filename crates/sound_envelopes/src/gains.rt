//! Applying a gain to a point. These functions are always inlined, so that a loop over a run has no calls and is
//! vectorized.
ghost use Rattle.std.specs.Prelude.{◌≡◌, ◌≤◌, ◌≤ℤ◌, pos, negsuc};
ghost use Rattle.sound_envelopes.specs.Gain.{scaled_by};

use sound_tables::UNITY_GAIN;

/// Applies a gain, in 65536ths, to a point.
#[inline(always)]
#[tactic(auto, using(crate::proofs::GainLaws::scaled_within), unfolding(crate::specs::Gain::scaled_by))]
pub fn attenuated(p: i32, gain: u32) -> i32
    requires low { negsuc 32767 ≤ℤ p }
    requires high { p ≤ℤ pos 32767 }
    requires level { gain ≤ UNITY_GAIN }
    ensures value { result ≡ scaled_by p gain }
    ensures low { negsuc 32767 ≤ℤ result }
    ensures high { result ≤ℤ pos 32767 }
{
    (p * gain as i32) >> 16
}

// Applies a gain below 65536 to a point. Both factors are signed 16-bit numbers, which vectorizes well: a gain of at
// least 32768 becomes negative, so the product's upper half is one whole point too low, which is added again.
#[inline(always)]
pub(crate) fn attenuated_i16(p: i16, gain: u16) -> i16
    ensures { result ≡ scaled_by p gain }
{
    let signed = gain.cast_signed();
    let product = (i32::from(p) * i32::from(signed)) >> 16;
    let whole = if gain < 32768 { 0 } else { p };
    product as i16 + whole
}
