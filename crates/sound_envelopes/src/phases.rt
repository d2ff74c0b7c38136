//! The gain of the volume envelope from a frame on, and how long it stays the same.
ghost use Rattle.std.specs.Prelude.{◌≡◌, ℕ, ◌+◌, ◌*◌, ◌/◌, ◌%◌, ◌^◌, ◌≤◌, ◌<◌, EachIndex, length, slice_index};
ghost use Rattle.sound_tables.specs.Tables.{gain_at};
ghost use Rattle.sound_envelopes.specs.Constant.{IsConstantUntil};
ghost use Rattle.sound_envelopes.specs.Envelope.{decayed, held, envelope};

use sound_tables::{UNITY_GAIN, gain};
use zone_select::VoiceParameters;

/// A gain of the envelope, and the frame before which it stays the same.
#[derive(Clone, Copy)]
pub struct EnvelopeGain {
    pub(crate) gain_value: u32,
    pub(crate) until: u64,
}

// An expired gain.
const EXPIRED_GAIN: EnvelopeGain = EnvelopeGain {
    gain_value: 0,
    until: 0,
};

impl EnvelopeGain {
    /// Returns an expired gain.
    #[tactic(auto, using(crate::proofs::PhaseLaws::none_constant))]
    pub fn ended() -> EnvelopeGain
        ensures { (loudness : ℕ → ℕ) → (t : ℕ) → IsConstantUntil loudness t result }
    {
        EXPIRED_GAIN
    }
}

// A frame after the end of any gain.
const FOREVER: u64 = 1_099_511_627_776;

// The gain at a frame of a fall from `level` by 960 centibels, counted from its start; it lasts as long as its
// centibel.
#[tactic(auto, using(crate::proofs::PhaseLaws::lasts_some, crate::proofs::PhaseLaws::lasts_shortly, crate::proofs::GainLaws::faded))]
fn falling_from(level: u32, over: u64, fallen: u64) -> EnvelopeGain
    requires most { level ≤ UNITY_GAIN }
    requires divisor { (0 < over) × (over < 2 ^ 32) }
    requires near { fallen < 2 ^ 34 }
    ensures some { fallen < result.until }
    ensures near { result.until < 2 ^ 36 }
    ensures last { 960 * result.until < (960 * fallen / over + 1) * over + 960 }
    ensures even { IsConstantUntil (λ k. level * gain_at (960 * k / over) / 65536) fallen result }
{
    let attenuation = 960 * fallen / over;
    let left = u64::from(level) * u64::from(gain(attenuation as i64)) / 65536;
    EnvelopeGain {
        gain_value: left as u32,
        until: ((attenuation + 1) * over + 959) / 960,
    }
}

// The gain at a frame of the decay, counted from its start.
#[tactic(auto, using(crate::proofs::PhaseLaws::sustained_constant))]
fn decayed_from(v: &VoiceParameters, fallen: u64) -> EnvelopeGain
    requires near { fallen < 2 ^ 34 }
    ensures some { fallen < result.until }
    ensures near { result.until ≤ 2 ^ 40 }
    ensures even { IsConstantUntil (decayed v.now) fallen result }
{
    let decay = u64::from(v.decay);
    let sustained = u64::from(v.sustain) * decay;
    if sustained <= 960 * fallen {
        return EnvelopeGain {
            gain_value: gain(i64::from(v.sustain)),
            until: FOREVER,
        };
    }
    falling_from(UNITY_GAIN, decay, fallen)
}

// The gain at frame `t` before the note's end; an expired one during the attack.
#[tactic(auto, using(crate::proofs::PhaseLaws::delayed_constant, crate::proofs::PhaseLaws::full_constant, crate::proofs::PhaseLaws::decayed_constant, crate::proofs::PhaseLaws::none_constant))]
fn held_from(v: &VoiceParameters, t: u64) -> EnvelopeGain
    requires near { t < 2 ^ 33 }
    ensures rising { result.until ≤ t → (v.now.delay ≤ t) × (t < v.now.delay + v.now.attack) }
    ensures even { IsConstantUntil (held v.now) t result }
{
    let delay = u64::from(v.delay);
    let attack = delay + u64::from(v.attack);
    let hold = attack + u64::from(v.hold);
    if t < delay {
        return EnvelopeGain {
            gain_value: 0,
            until: delay,
        };
    }
    if t < attack {
        return EXPIRED_GAIN;
    }
    if t < hold {
        return EnvelopeGain {
            gain_value: UNITY_GAIN,
            until: hold,
        };
    }
    let level = decayed_from(v, t - hold);
    EnvelopeGain {
        gain_value: level.gain_value,
        until: hold + level.until,
    }
}

// The gain at frame `t`, where `at_end` is the gain at the note's end; an expired one during the attack.
fn envelope_gain_from(v: &VoiceParameters, t: u64, at_end: u32) -> EnvelopeGain
    requires unreleased { t < v.now.length + v.now.release }
    requires at_end { (at_end ≡ held v.now v.now.length) × (at_end ≤ UNITY_GAIN) }
    ensures rising { result.until ≤ t → (v.now.delay ≤ t) × (t < v.now.delay + v.now.attack) × (t < v.now.length) }
    ensures even { IsConstantUntil (envelope v.now) t result }
{
    let length = u64::from(v.length);
    if t < length {
        let level = held_from(v, t);
        return EnvelopeGain {
            gain_value: level.gain_value,
            until: level.until.min(length),
        };
    }
    let release = u64::from(v.release);
    let level = falling_from(at_end, release, t - length);
    EnvelopeGain {
        gain_value: level.gain_value,
        until: length + level.until,
    }
}

// Fills in the gains of a linear rise to 65536 in `over` frames, from frame `risen` of it on, without a division for
// each frame.
#[tactic(auto, using(crate::proofs::PhaseLaws::rising_fits, crate::proofs::PhaseLaws::step_small))]
fn fill_rising(over: u64, risen: u64, levels: &mut [u16])
    requires divisor { (0 < over) × (over < 2 ^ 32) }
    requires within { risen + length levels.old ≤ over }
    ensures { EachIndex levels.new (λ k. slice_index levels.new k ≡ 65536 * (risen + k) / over) }
{
    let whole_step = 65536 / over;
    let rest_step = 65536 % over;
    let mut whole = 65536 * risen / over;
    let mut rest = 65536 * risen % over;
    for k in 0..levels.len() {
        levels[k] = whole as u16;
        whole += whole_step;
        rest += rest_step;
        if rest >= over {
            rest -= over;
            whole += 1;
        }
    }
}

// Fills in the gains of a stretch from `t` on that begins in the attack, up to the attack's end. Returns how many.
pub(crate) fn fill_attack(v: &VoiceParameters, t: u64, levels: &mut [u16]) -> usize
    requires some { 0 < length levels.old }
    requires rising { (v.now.delay ≤ t) × (t < v.now.delay + v.now.attack) }
    requires held { t + length levels.old ≤ v.now.length }
    ensures some { (0 < result) × (result ≤ length levels.new) }
    ensures value { (k : ℕ) → k < result → slice_index levels.new k ≡ envelope v.now (t + k) }
{
    let attack = u64::from(v.attack);
    let delay = u64::from(v.delay);
    let risen = t - delay;
    let n = (levels.len() as u64).min(attack - risen) as usize;
    fill_rising(attack, risen, &mut levels[..n]);
    n
}

// The current gain or, if it has expired by frame `t`, the next one.
pub(crate) fn current_gain(
    v: &VoiceParameters,
    t: u64,
    current: EnvelopeGain,
    at_end: u32,
) -> EnvelopeGain
    requires unreleased { t < v.now.length + v.now.release }
    requires is_current { IsConstantUntil (envelope v.now) t current }
    requires at_end { (at_end ≡ held v.now v.now.length) × (at_end ≤ UNITY_GAIN) }
    ensures rising { result.until ≤ t → (v.now.delay ≤ t) × (t < v.now.delay + v.now.attack) × (t < v.now.length) }
    ensures even { IsConstantUntil (envelope v.now) t result }
{
    if t < current.until {
        return current;
    }
    envelope_gain_from(v, t, at_end)
}
