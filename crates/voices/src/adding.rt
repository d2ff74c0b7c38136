//! Adds the next frames of a voice to sums.
ghost use Rattle.std.specs.Prelude.{◌≡◌, ℕ, ◌+◌, ◌*◌, ◌/◌, ◌%◌, ◌^◌, ◌≤◌, ◌<◌, pos, EachIndex, length, nat_eq, slice_index_or};
ghost use Rattle.zone_select.specs.Playable.{IsPlayable};
ghost use Rattle.voices.specs.VoiceState.{IsVoiceState};
ghost use Rattle.voices.specs.Runs.{IsAdded, IsShared};
ghost use Rattle.voices.specs.Sound.{frame_or_silence_at, snd};
ghost use Rattle.voices.specs.Within.{AllWithin};

use crate::frames::{left_part, right_part};
use crate::runs::{add_halves_once, add_sides, fill_run};
use crate::voice_state::VoiceState;
use crate::workspace::{LONGEST, Stages};
use sample_view::Points;
use zone_select::VoiceParameters;

// Adds the frames from `age` on to interleaved left and right sums, at most a workspace's length at a time.
pub(crate) fn add_run<'a>(
    points: &Points<'a>,
    v: &VoiceParameters,
    age: u64,
    state: &mut VoiceState<'a>,
    stages: &mut Stages,
    run: &mut [i16; LONGEST],
    sums: &mut [i32],
)
    requires playable { IsPlayable (length points.now) v.now }
    requires state { IsVoiceState points.now v.now age state.old }
    requires even { length sums.old % 2 ≡ 0 }
    requires young { age + length sums.old < 2 ^ 64 }
    requires room { AllWithin 65534 sums.old }
    ensures sums { EachIndex sums.new (λ i. IsAdded (slice_index_or sums.old i (pos 0))
        (snd (record { points = points.now; parameters = v.now }) (nat_eq (i % 2) 0) (age + i / 2))
        (slice_index_or sums.new i (pos 0))) }
    ensures state { IsVoiceState points.now v.now (age + length sums.old / 2) state.new }
{
    let mut at = 0;
    while at < sums.len() {
        let n = ((sums.len() - at) / 2).min(LONGEST);
        let part = &mut run[..n];
        fill_run(points, v, age + at as u64 / 2, state, stages, part);
        add_sides(part, left_part(v), right_part(v), &mut sums[at..at + 2 * n]);
        at += 2 * n;
    }
}

// Adds the frames from `age` on: those of a centred voice to `middle`, which both sides share.
pub(crate) fn add_run_apart<'a>(
    points: &Points<'a>,
    v: &VoiceParameters,
    age: u64,
    state: &mut VoiceState<'a>,
    stages: &mut Stages,
    run: &mut [i16; LONGEST],
    sums: &mut [i32],
    middle: &mut [i32],
)
    requires sums { length sums.old ≡ 2 * length middle.old }
    requires playable { IsPlayable (length points.now) v.now }
    requires state { IsVoiceState points.now v.now age state.old }
    requires short { length middle.old ≤ LONGEST }
    requires young { age + length middle.old < 2 ^ 64 }
    requires room { AllWithin 65534 sums.old }
    requires middle { AllWithin 65534 middle.old }
    ensures sums { EachIndex sums.new (λ i. IsShared (slice_index_or sums.old i (pos 0)) (slice_index_or middle.old (i / 2) (pos 0))
        (snd (record { points = points.now; parameters = v.now }) (nat_eq (i % 2) 0) (age + i / 2))
        (slice_index_or sums.new i (pos 0)) (slice_index_or middle.new (i / 2) (pos 0))) }
    ensures state { IsVoiceState points.now v.now (age + length middle.old) state.new }
{
    let run = &mut run[..middle.len()];
    fill_run(points, v, age, state, stages, run);
    share(points, v, age, run, sums, middle);
}

// Adds the computed frames from `age` on: half of each frame of a centred voice to `middle`, which both sides share.
fn share(
    points: &Points,
    v: &VoiceParameters,
    age: u64,
    run: &[i16],
    sums: &mut [i32],
    middle: &mut [i32],
)
    requires long { length run.now ≡ length middle.old }
    requires sums { length sums.old ≡ 2 * length middle.old }
    requires playable { IsPlayable (length points.now) v.now }
    requires audible { EachIndex run.now (λ k. slice_index_or run.now k (pos 0)
        ≡ frame_or_silence_at (record { points = points.now; parameters = v.now }) (age + k)) }
    requires room { AllWithin 65534 sums.old }
    requires middle { AllWithin 65534 middle.old }
    ensures { EachIndex sums.new (λ i. IsShared (slice_index_or sums.old i (pos 0)) (slice_index_or middle.old (i / 2) (pos 0))
        (snd (record { points = points.now; parameters = v.now }) (nat_eq (i % 2) 0) (age + i / 2))
        (slice_index_or sums.new i (pos 0)) (slice_index_or middle.new (i / 2) (pos 0))) }
{
    if v.pan == 0 {
        add_halves_once(run, middle);
    } else {
        add_sides(run, left_part(v), right_part(v), sums);
    }
}
