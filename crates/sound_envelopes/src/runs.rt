//! Applying the envelope and the attenuation to runs of points, one gain at a time.
ghost use Rattle.std.specs.Prelude.{◌≡◌, ℕ, ◌+◌, ◌*◌, ◌^◌, ◌≤◌, ◌<◌, pos, EachIndex, length, slice_index, slice_index_or};
ghost use Rattle.sound_tables.specs.Tables.{gain_of};
ghost use Rattle.sound_envelopes.specs.Constant.{IsConstantUntil};
ghost use Rattle.sound_envelopes.specs.Envelope.{held, envelope};
ghost use Rattle.sound_envelopes.specs.Gain.{scaled_by};

use crate::gains::attenuated_i16;
use crate::phases::{EnvelopeGain, current_gain, fill_attack};
use sound_tables::UNITY_GAIN;
use zone_select::VoiceParameters;

// Fills in the same gain throughout.
fn fill_constant(level: u16, levels: &mut [u16])
    ensures { EachIndex levels.new (λ k. slice_index levels.new k ≡ level) }
{
    for k in 0..levels.len() {
        levels[k] = level;
    }
}

// Applies to each point its gain, which is below the full gain.
fn apply_gain(levels: &[u16], run: &mut [i16])
    requires long { length levels.now ≡ length run.old }
    ensures { EachIndex run.new (λ k. slice_index_or run.new k (pos 0)
        ≡ scaled_by (slice_index_or run.old k (pos 0)) (slice_index levels.now k)) }
{
    for i in 0..run.len() {
        run[i] = attenuated_i16(run[i], levels[i]);
    }
}

// Applies to each point a gain and then another, in one pass over the run.
fn apply_two_gains(levels: &[u16], others: &[u16], run: &mut [i16])
    requires long { length levels.now ≡ length run.old }
    requires others { length others.now ≡ length run.old }
    ensures { EachIndex run.new (λ k. slice_index_or run.new k (pos 0)
        ≡ scaled_by (scaled_by (slice_index_or run.old k (pos 0)) (slice_index levels.now k)) (slice_index others.now k)) }
{
    for i in 0..run.len() {
        let once = attenuated_i16(run[i], levels[i]);
        run[i] = attenuated_i16(once, others[i]);
    }
}

// Applies one gain to all points, from a list filled with it: the compiler then knows that it fits in 16 bits.
#[tactic(auto, using(crate::proofs::GainLaws::full_level))]
fn apply_constant_gain(level: u32, levels: &mut [u16], run: &mut [i16])
    requires long { length levels.old ≡ length run.old }
    requires most { level ≤ UNITY_GAIN }
    ensures { EachIndex run.new (λ k. slice_index_or run.new k (pos 0)
        ≡ scaled_by (slice_index_or run.old k (pos 0)) level) }
{
    if level < UNITY_GAIN {
        fill_constant(level as u16, levels);
        apply_gain(levels, run);
    }
}

// Applies to each point its gain, and then one gain to all.
fn apply_gain_and_attenuation(levels: &[u16], loudness: u32, others: &mut [u16], run: &mut [i16])
    requires long { length levels.now ≡ length run.old }
    requires others { length others.old ≡ length run.old }
    requires most { loudness ≤ UNITY_GAIN }
    ensures { EachIndex run.new (λ k. slice_index_or run.new k (pos 0)
        ≡ scaled_by (scaled_by (slice_index_or run.old k (pos 0)) (slice_index levels.now k)) loudness) }
{
    if loudness < UNITY_GAIN {
        fill_constant(loudness as u16, others);
        apply_two_gains(levels, others, run);
    } else {
        apply_gain(levels, run);
    }
}

// Fills in the first gains from `t` on, up to the end of one gain or of the attack. Returns how many: none at the full
// gain, which doesn't fit in 16 bits.
fn fill_one_gain(v: &VoiceParameters, t: u64, level: EnvelopeGain, levels: &mut [u16]) -> usize
    requires some { 0 < length levels.old }
    requires held { t < v.now.length → t + length levels.old ≤ v.now.length }
    requires rising { level.until ≤ t → (v.now.delay ≤ t) × (t < v.now.delay + v.now.attack) × (t < v.now.length) }
    requires even { IsConstantUntil (envelope v.now) t level }
    ensures most { result ≤ length levels.new }
    ensures value { (k : ℕ) → k < result → slice_index levels.new k ≡ envelope v.now (t + k) }
    ensures full { result ≡ 0 → (t < level.until) × (UNITY_GAIN ≤ level.gain_value) }
{
    if level.until <= t {
        return fill_attack(v, t, levels);
    }
    if UNITY_GAIN <= level.gain_value {
        return 0;
    }
    let n = (levels.len() as u64).min(level.until - t) as usize;
    fill_constant(level.gain_value as u16, &mut levels[..n]);
    n
}

// Fills in the gains from `t` on, up to the first full gain. Returns how many, and the gain that follows.
fn fill_gains(
    v: &VoiceParameters,
    t: u64,
    current: EnvelopeGain,
    at_end: u32,
    levels: &mut [u16],
) -> (usize, EnvelopeGain)
    requires young { t + length levels.old < 2 ^ 33 }
    requires unreleased { t + length levels.old ≤ v.now.length + v.now.release }
    requires held { t < v.now.length → t + length levels.old ≤ v.now.length }
    requires is_current { IsConstantUntil (envelope v.now) t current }
    requires at_end { (at_end ≡ held v.now v.now.length) × (at_end ≤ UNITY_GAIN) }
    ensures most { result.0 ≤ length levels.new }
    ensures value { (k : ℕ) → k < result.0 → slice_index levels.new k ≡ envelope v.now (t + k) }
    ensures is_current { IsConstantUntil (envelope v.now) (t + result.0) result.1 }
    ensures full { result.0 < length levels.new → (t + result.0 < result.1.until) × (UNITY_GAIN ≤ result.1.gain_value) }
{
    let mut level = current;
    let mut at = 0;
    while at < levels.len() {
        let from = t + at as u64;
        level = current_gain(v, from, level, at_end);
        let n = fill_one_gain(v, from, level, &mut levels[at..]);
        if n == 0 {
            return (at, level);
        }
        at += n;
    }
    (at, level)
}

// Applies the envelope and the attenuation to the first points of a stretch from `t` on: those before the first full
// gain or, if there are none, those at the full gain. Returns how many, and the gain that follows.
fn apply_envelope_to_prefix(
    v: &VoiceParameters,
    t: u64,
    current: EnvelopeGain,
    at_end: u32,
    loudness: u32,
    levels: &mut [u16],
    others: &mut [u16],
    run: &mut [i16],
) -> (usize, EnvelopeGain)
    requires some { 0 < length run.old }
    requires long { length levels.old ≡ length run.old }
    requires others { length others.old ≡ length run.old }
    requires young { t + length run.old < 2 ^ 33 }
    requires unreleased { t + length run.old ≤ v.now.length + v.now.release }
    requires held { t < v.now.length → t + length run.old ≤ v.now.length }
    requires is_current { IsConstantUntil (envelope v.now) t current }
    requires at_end { (at_end ≡ held v.now v.now.length) × (at_end ≤ UNITY_GAIN) }
    requires loudness { (loudness ≡ gain_of v.now.attenuation) × (loudness ≤ UNITY_GAIN) }
    ensures some { (0 < result.0) × (result.0 ≤ length run.new) }
    ensures value { (k : ℕ) → k < result.0 → slice_index_or run.new k (pos 0)
        ≡ scaled_by (scaled_by (slice_index_or run.old k (pos 0)) (envelope v.now (t + k))) (gain_of v.now.attenuation) }
    ensures rest { (k : ℕ) → result.0 ≤ k → slice_index_or run.new k (pos 0) ≡ slice_index_or run.old k (pos 0) }
    ensures is_current { IsConstantUntil (envelope v.now) (t + result.0) result.1 }
{
    let (low, level) = fill_gains(v, t, current, at_end, levels);
    if 0 < low {
        apply_gain_and_attenuation(
            &levels[..low],
            loudness,
            &mut others[..low],
            &mut run[..low],
        );
        return (low, level);
    }
    let n = (run.len() as u64).min(level.until - t) as usize;
    apply_constant_gain(loudness, &mut others[..n], &mut run[..n]);
    (n, level)
}

/// Applies the envelope and the attenuation to the points of a stretch, and returns the gain that follows.
///
/// A stretch ends at the latest where the note ends. `at_end` is the envelope's gain at the note's end, `loudness` the
/// gain of the attenuation, both in 65536ths. `levels` and `others` are buffers.
pub fn apply_envelope(
    v: &VoiceParameters,
    t: u64,
    current: EnvelopeGain,
    at_end: u32,
    loudness: u32,
    levels: &mut [u16],
    others: &mut [u16],
    run: &mut [i16],
) -> EnvelopeGain
    requires long { length levels.old ≡ length run.old }
    requires others { length others.old ≡ length run.old }
    requires young { t + length run.old < 2 ^ 33 }
    requires unreleased { t + length run.old ≤ v.now.length + v.now.release }
    requires held { t < v.now.length → t + length run.old ≤ v.now.length }
    requires is_current { IsConstantUntil (envelope v.now) t current }
    requires at_end { (at_end ≡ held v.now v.now.length) × (at_end ≤ UNITY_GAIN) }
    requires loudness { (loudness ≡ gain_of v.now.attenuation) × (loudness ≤ UNITY_GAIN) }
    ensures soft { EachIndex run.new (λ k. slice_index_or run.new k (pos 0)
        ≡ scaled_by (scaled_by (slice_index_or run.old k (pos 0)) (envelope v.now (t + k))) (gain_of v.now.attenuation)) }
    ensures is_current { IsConstantUntil (envelope v.now) (t + length run.old) result }
{
    let mut level = current;
    let mut at = 0;
    while at < run.len() {
        let (n, next) = apply_envelope_to_prefix(
            v,
            t + at as u64,
            level,
            at_end,
            loudness,
            &mut levels[at..],
            &mut others[at..],
            &mut run[at..],
        );
        level = next;
        at += n;
    }
    level
}
