//! The frames of a voice.
ghost use Rattle.std.specs.Prelude.{◌≡◌, ℕ, ◌+◌, ◌*◌, ◌/◌, ◌%◌, ◌^◌, ◌≤◌, ◌<◌, ◌≤ℤ◌, ◌+ℤ◌, pos, negsuc, true, false, length, nat_eq, slice_index_or};
ghost use Rattle.voices.specs.Position.{is_over, is_looping, position};
ghost use Rattle.voices.specs.Points.{point_of};
ghost use Rattle.zone_select.specs.Playable.{IsPlayable};
ghost use Rattle.voices.specs.Sound.{unpanned_frame_at, part_of, snd};

use crate::interpolation::point_at_position;
use crate::panning::panned;
use crate::positions::{ONE_POINT, advanced, is_looping_at};
use sample_view::Points;
use sound_envelopes::{attenuated, envelope_at};
use sound_tables::gain;
use zone_select::VoiceParameters;

// The share of the left side, in 1000ths.
pub(crate) fn left_part(v: &VoiceParameters) -> u32
    requires { (negsuc 499 ≤ℤ v.now.pan) × (v.now.pan ≤ℤ pos 500) }
    ensures value { result ≡ part_of v.now true }
    ensures most { result ≤ 1000 }
{
    (500 - v.pan) as u32
}

// The share of the right side, in 1000ths.
pub(crate) fn right_part(v: &VoiceParameters) -> u32
    requires { (negsuc 499 ≤ℤ v.now.pan) × (v.now.pan ≤ℤ pos 500) }
    ensures value { result ≡ part_of v.now false }
    ensures most { result ≤ 1000 }
{
    (500 + v.pan) as u32
}

// The interpolated point at frame `t`, where the voice isn't over; `x` is its position.
#[tactic(auto, using(crate::proofs::OverLaws::loop_start_inside))]
fn point_at_frame(points: &Points, v: &VoiceParameters, t: u64, x: u64) -> i32
    requires playable { IsPlayable (length points.now) v.now }
    requires sounds { is_over v.now t ≡ false }
    requires here { x ≡ position v.now t }
    ensures value { result ≡ point_of points.now v.now (is_looping v.now t) (position v.now t) }
    ensures low { negsuc 32767 ≤ℤ result }
    ensures high { result ≤ℤ pos 32767 }
{
    point_at_position(points, v, is_looping_at(v, t), x)
}

// Frame `t` before panning, where the voice isn't over; `x` is its position.
#[tactic(auto, unfolding(crate::specs::Sound::unpanned_frame_at))]
fn unpanned_frame(points: &Points, v: &VoiceParameters, t: u64, x: u64) -> i32
    requires playable { IsPlayable (length points.now) v.now }
    requires sounds { is_over v.now t ≡ false }
    requires unreleased { t < v.now.length + v.now.release }
    requires here { x ≡ position v.now t }
    ensures value { result ≡ unpanned_frame_at (record { points = points.now; parameters = v.now }) t }
    ensures low { negsuc 32767 ≤ℤ result }
    ensures high { result ≤ℤ pos 32767 }
{
    let p = point_at_frame(points, v, t, x);
    attenuated(
        attenuated(p, envelope_at(v, t)),
        gain(i64::from(v.attenuation)),
    )
}

// Both sides of frame `t`, where the voice isn't over; `x` is its position.
#[tactic(auto, unfolding(crate::specs::Sound::snd))]
pub(crate) fn frame(points: &Points, v: &VoiceParameters, t: u64, x: u64) -> (i32, i32)
    requires playable { IsPlayable (length points.now) v.now }
    requires sounds { is_over v.now t ≡ false }
    requires unreleased { t < v.now.length + v.now.release }
    requires here { x ≡ position v.now t }
    ensures left { result.0 ≡ snd (record { points = points.now; parameters = v.now }) true t }
    ensures right { result.1 ≡ snd (record { points = points.now; parameters = v.now }) false t }
    ensures left_low { negsuc 32767 ≤ℤ result.0 }
    ensures left_high { result.0 ≤ℤ pos 32767 }
    ensures right_low { negsuc 32767 ≤ℤ result.1 }
    ensures right_high { result.1 ≤ℤ pos 32767 }
{
    let z = unpanned_frame(points, v, t, x);
    (panned(z, left_part(v)), panned(z, right_part(v)))
}

// The position of the frame after frame `t`, whose position is `x`.
#[tactic(auto, using(crate::proofs::OverLaws::position_sounds))]
pub(crate) fn next_position(points: &Points, v: &VoiceParameters, t: u64, x: u64) -> u64
    requires playable { IsPlayable (length points.now) v.now }
    requires sounds { is_over v.now t ≡ false }
    requires here { x ≡ position v.now t }
    ensures { result ≡ position v.now (t + 1) }
{
    let end = ONE_POINT * u64::from(v.end);
    prove!(x < end);
    advanced(v, is_looping_at(v, t), x, 1)
}
