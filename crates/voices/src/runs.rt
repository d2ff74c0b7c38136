//! Runs of frames, computed in stages over short stretches: the points, the envelope and attenuation, and both sides.
ghost use Rattle.std.specs.Prelude.{◌≡◌, ℕ, ◌+◌, ◌*◌, ◌/◌, ◌%◌, ◌^◌, ◌≤◌, ◌<◌, ◌≤ℤ◌, ◌+ℤ◌, pos, negsuc, true, false, cond, EachIndex, length, nat_eq, slice_index, slice_index_or};
ghost use Rattle.sound_tables.specs.Tables.{gain_of};
ghost use Rattle.sound_envelopes.specs.Gain.{scaled_by};
ghost use Rattle.voices.specs.Panning.{side, side_index};
ghost use Rattle.voices.specs.Position.{is_over, position};
ghost use Rattle.sound_envelopes.specs.Constant.{IsConstantUntil};
ghost use Rattle.voices.specs.VoiceState.{IsVoiceState};
ghost use Rattle.sound_envelopes.specs.Envelope.{held, envelope};
ghost use Rattle.zone_select.specs.Playable.{IsPlayable};
ghost use Rattle.voices.specs.Sound.{unpanned_frame_at, frame_or_silence_at};
ghost use Rattle.voices.specs.Within.{AllWithin};
ghost use Rattle.voices.specs.Runs.{IsAdded, IsStretch};

use crate::panning::{HALF, WHOLE, fine_part, finely_panned, halved};
use crate::positions::{ONE_POINT, frames_before, is_looping_at};
use crate::slices::fill_points;
use crate::voice_state::VoiceState;
use crate::workspace::{LONGEST, Stages};
use sample_view::Points;
use sound_envelopes::apply_envelope;
use sound_tables::MOST_PHASE_INCREMENT;
use zone_select::VoiceParameters;

// How many frames from `t` on, at most `most`, form one stretch, which ends at the latest where the note ends. The
// position of the first is `x`.
fn stretch(v: &VoiceParameters, t: u64, x: u64, most: usize) -> usize
    requires loop_is { v.now.looped ≡ true → v.now.loop_start < v.now.loop_end }
    requires steps { v.now.phase_increment ≤ MOST_PHASE_INCREMENT }
    requires sounds { is_over v.now t ≡ false }
    requires here { x ≡ position v.now t }
    requires young { (t < 2 ^ 33) × (t < v.now.length + v.now.release) }
    requires more { (0 < most) × (most ≤ LONGEST) }
    ensures some { (0 < result) × (result ≤ most) }
    ensures is_stretch { IsStretch v.now t result }
{
    let n = frames_ahead(v, t, most as u64);
    if is_looping_at(v, t) {
        return n as usize;
    }
    let end = ONE_POINT * u64::from(v.end);
    frames_before(x, u64::from(v.phase_increment), end, n) as usize
}

// How many frames, at most `most`, remain before the note's end or, from there on, before the release's.
fn frames_ahead(v: &VoiceParameters, t: u64, most: u64) -> u64
    requires unreleased { t < v.now.length + v.now.release }
    requires some { 0 < most }
    ensures some { (0 < result) × (result ≤ most) }
    ensures young { t + result < 2 ^ 33 }
    ensures unreleased { t + result ≤ v.now.length + v.now.release }
    ensures held { t < v.now.length → t + result ≤ v.now.length }
{
    let length = u64::from(v.length);
    if t < length {
        most.min(length - t)
    } else {
        most.min(length + u64::from(v.release) - t)
    }
}

// Computes the frames of a stretch before panning, from a word and two gains for each, and advances the voice state to
// the frame after them.
fn fill_by_stages<'a>(
    points: &Points<'a>,
    v: &VoiceParameters,
    t: u64,
    state: &mut VoiceState<'a>,
    words: &mut [u32; LONGEST],
    levels: &mut [u16; LONGEST],
    others: &mut [u16; LONGEST],
    run: &mut [i16],
)
    requires playable { IsPlayable (length points.now) v.now }
    requires is_stretch { IsStretch v.now t (length run.old) }
    requires state { IsVoiceState points.now v.now t state.old }
    requires audible { state.old.over ≡ false }
    requires short { length run.old ≤ LONGEST }
    ensures sounds { EachIndex run.new (λ k. slice_index_or run.new k (pos 0)
        ≡ unpanned_frame_at (record { points = points.now; parameters = v.now }) (t + k)) }
    ensures state { IsVoiceState points.now v.now (t + length run.old) state.new }
{
    let n = run.len();
    let words = &mut words[..n];
    let (next, slice) = fill_points(points, v, t, state.position, state.slice, words, run);
    let level = apply_envelope(
        v,
        t,
        state.level,
        state.at_end,
        state.loudness,
        &mut levels[..n],
        &mut others[..n],
        run,
    );
    state.advance_to(v, t + n as u64, next, level, slice);
}

// The side of a frame; its sums are interleaved with those of the other side.
enum Side {
    Left,
    Right,
}

// The index of a side's first sum.
fn side_index(side: Side) -> usize
    ensures value { result ≡ side_index side }
    ensures first { result < 2 }
{
    match side {
        Side::Left => 0,
        Side::Right => 1,
    }
}

// Adds each frame whole to the sums of one side.
fn add_one_side(run: &[i16], audible: Side, sums: &mut [i32])
    requires long { length sums.old ≡ 2 * length run.now }
    requires room { AllWithin 65534 sums.old }
    ensures { EachIndex sums.new (λ i. IsAdded (slice_index_or sums.old i (pos 0))
        (cond (nat_eq (i % 2) (side_index audible)) (slice_index_or run.now (i / 2) (pos 0)) (pos 0))
        (slice_index_or sums.new i (pos 0))) }
{
    let first = side_index(audible);
    for k in 0..run.len() {
        sums[2 * k + first] += i32::from(run[k]);
    }
}

// Adds each frame's shares to the sums of both sides.
fn add_both_sides(run: &[i16], left: u32, right: u32, sums: &mut [i32])
    requires long { length sums.old ≡ 2 * length run.now }
    requires parts { (left ≤ 1000) × (right ≤ 1000) }
    requires room { AllWithin 65534 sums.old }
    ensures { EachIndex sums.new (λ i. IsAdded (slice_index_or sums.old i (pos 0))
        (side (slice_index_or run.now (i / 2) (pos 0)) (cond (nat_eq (i % 2) 0) left right))
        (slice_index_or sums.new i (pos 0))) }
{
    let fine_left = fine_part(left);
    let fine_right = fine_part(right);
    for k in 0..run.len() {
        let z = run[k];
        sums[2 * k] += finely_panned(z, fine_left);
        sums[2 * k + 1] += finely_panned(z, fine_right);
    }
}

// Adds half of each frame to the sums of both sides.
fn add_halves(run: &[i16], sums: &mut [i32])
    requires long { length sums.old ≡ 2 * length run.now }
    requires room { AllWithin 65534 sums.old }
    ensures { EachIndex sums.new (λ i. IsAdded (slice_index_or sums.old i (pos 0))
        (side (slice_index_or run.now (i / 2) (pos 0)) 500)
        (slice_index_or sums.new i (pos 0))) }
{
    for k in 0..run.len() {
        let half = halved(i32::from(run[k]));
        sums[2 * k] += half;
        sums[2 * k + 1] += half;
    }
}

// Adds each frame's shares to the sums of both sides, the fastest way for these shares.
pub(crate) fn add_sides(run: &[i16], left: u32, right: u32, sums: &mut [i32])
    requires long { length sums.old ≡ 2 * length run.now }
    requires parts { (left ≤ 1000) × (right ≤ 1000) }
    requires room { AllWithin 65534 sums.old }
    ensures { EachIndex sums.new (λ i. IsAdded (slice_index_or sums.old i (pos 0))
        (side (slice_index_or run.now (i / 2) (pos 0)) (cond (nat_eq (i % 2) 0) left right))
        (slice_index_or sums.new i (pos 0))) }
{
    if left == HALF && right == HALF {
        add_halves(run, sums);
    } else if left == WHOLE && right == 0 {
        add_one_side(run, Side::Left, sums);
    } else if left == 0 && right == WHOLE {
        add_one_side(run, Side::Right, sums);
    } else {
        add_both_sides(run, left, right, sums);
    }
}

// Adds half of each frame to the sums that both sides share.
pub(crate) fn add_halves_once(run: &[i16], middle: &mut [i32])
    requires long { length middle.old ≡ length run.now }
    requires room { AllWithin 65534 middle.old }
    ensures { EachIndex middle.new (λ k. IsAdded (slice_index_or middle.old k (pos 0))
        (side (slice_index_or run.now k (pos 0)) 500)
        (slice_index_or middle.new k (pos 0))) }
{
    for k in 0..run.len() {
        middle[k] += halved(i32::from(run[k]));
    }
}

// Computes the frames from `age` on before panning, stretch by stretch, and advances the voice state to the frame after
// them.
pub(crate) fn fill_run<'a>(
    points: &Points<'a>,
    v: &VoiceParameters,
    age: u64,
    state: &mut VoiceState<'a>,
    stages: &mut Stages,
    run: &mut [i16],
)
    requires playable { IsPlayable (length points.now) v.now }
    requires here { IsVoiceState points.now v.now age state.old }
    requires short { length run.old ≤ LONGEST }
    requires young { age + length run.old < 2 ^ 64 }
    ensures audible { EachIndex run.new (λ k. slice_index_or run.new k (pos 0)
        ≡ frame_or_silence_at (record { points = points.now; parameters = v.now }) (age + k)) }
    ensures there { IsVoiceState points.now v.now (age + length run.old) state.new }
{
    let mut at = 0;
    while at < run.len() {
        let t = age + at as u64;
        if state.over {
            run[at..].fill(0);
            return;
        }
        let n = stretch(v, t, state.position, run.len() - at);
        fill_by_stages(
            points,
            v,
            t,
            state,
            &mut stages.words,
            &mut stages.levels,
            &mut stages.others,
            &mut run[at..at + n],
        );
        at += n;
    }
}
