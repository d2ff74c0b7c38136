//! The position at which a voice reads its sample, in 65536ths of a point.
ghost use Rattle.std.specs.Prelude.{◌≡◌, ◌+◌, ◌≤◌, ◌<◌, ◌^◌, ◌*◌, ℕ, true, false};
ghost use Rattle.voices.specs.Position.{looped_position, position, is_looping, is_over};
ghost use Rattle.voices.specs.Runs.{wrapped_position};

use crate::workspace::LONGEST;
use sound_tables::MOST_PHASE_INCREMENT;
use zone_select::VoiceParameters;

// One point. Positions are in 65,536ths of a point.
pub(crate) const ONE_POINT: u64 = 65_536;

// The position while the loop, if there is one, is active.
#[tactic(auto, using(crate::proofs::PositionLaws::wrapped_below, crate::proofs::PositionLaws::wrapped_above, crate::proofs::PositionLaws::far_position), unfolding(crate::specs::Position::looped_position))]
fn looped_position_at(v: &VoiceParameters, t: u64) -> u64
    requires loop_is { v.now.looped ≡ true → v.now.loop_start < v.now.loop_end }
    requires steps { v.now.phase_increment ≤ MOST_PHASE_INCREMENT }
    requires young { t < 2 ^ 33 }
    ensures value { result ≡ looped_position v.now t }
    ensures near { result < 2 ^ 60 }
{
    let x = ONE_POINT * u64::from(v.start) + t * u64::from(v.phase_increment);
    if v.looped {
        let from = ONE_POINT * u64::from(v.loop_start);
        let to = ONE_POINT * u64::from(v.loop_end);
        if x < to {
            x
        } else {
            from + (x - from) % (to - from)
        }
    } else {
        x
    }
}

// Whether the loop is active at frame `t`.
pub(crate) fn is_looping_at(v: &VoiceParameters, t: u64) -> bool
    ensures { result ≡ is_looping v.now t }
{
    v.looped && !(v.until_release && u64::from(v.length) <= t)
}

// The position at frame `t`.
#[tactic(auto, using(crate::proofs::PositionLaws::far_advance), unfolding(crate::specs::Position::position))]
pub(crate) fn position_at(v: &VoiceParameters, t: u64) -> u64
    requires loop_is { v.now.looped ≡ true → v.now.loop_start < v.now.loop_end }
    requires steps { v.now.phase_increment ≤ MOST_PHASE_INCREMENT }
    requires young { t < 2 ^ 33 }
    ensures value { result ≡ position v.now t }
    ensures near { result < 2 ^ 61 }
{
    let length = u64::from(v.length);
    if v.until_release && length <= t {
        looped_position_at(v, length) + (t - length) * u64::from(v.phase_increment)
    } else {
        looped_position_at(v, t)
    }
}

// Whether the voice is over at frame `t`, whose position is `x` unless the release is over by then.
pub(crate) fn is_over_by(v: &VoiceParameters, t: u64, x: u64) -> bool
    requires here { t < v.now.length + v.now.release → x ≡ position v.now t }
    ensures value { result ≡ is_over v.now t }
    ensures young { result ≡ false → t + 1 < 2 ^ 33 }
    ensures sounds { result ≡ false → t < v.now.length + v.now.release }
{
    if u64::from(v.length) + u64::from(v.release) <= t {
        return true;
    }
    !is_looping_at(v, t) && ONE_POINT * u64::from(v.end) <= x
}

// The position after some frames. A loop's end is mostly passed at most once, so that case comes before the division.
#[tactic(auto, using(crate::proofs::PositionLaws::wrapped_below, crate::proofs::PositionLaws::wrapped_once, crate::proofs::PositionLaws::wrapped_above, crate::proofs::PositionLaws::advance_small))]
pub(crate) fn advanced(v: &VoiceParameters, looping: bool, x: u64, frames: usize) -> u64
    requires loop_is { looping ≡ true → v.now.loop_start < v.now.loop_end }
    requires steps { v.now.phase_increment ≤ MOST_PHASE_INCREMENT }
    requires near { x < 2 ^ 48 }
    requires few { frames ≤ LONGEST }
    ensures { result ≡ wrapped_position v.now looping (x + frames * v.now.phase_increment) }
{
    let next = x + frames as u64 * u64::from(v.phase_increment);
    let to = ONE_POINT * u64::from(v.loop_end);
    if !looping || next < to {
        return next;
    }
    let from = ONE_POINT * u64::from(v.loop_start);
    if next - to < to - from {
        return next - (to - from);
    }
    from + (next - from) % (to - from)
}

// How many frames, at most `most`, lie before `to`: the first is at `x`, each next one `phase_increment` further. Mostly all do,
// so that case comes before the division.
#[tactic(auto, using(crate::proofs::PositionLaws::all_before, crate::proofs::PositionLaws::run_stays, crate::proofs::PositionLaws::fewer, crate::proofs::PositionLaws::moves_on, crate::proofs::PositionLaws::one_less))]
pub(crate) fn frames_before(x: u64, phase_increment: u64, to: u64, most: u64) -> u64
    requires before { x < to }
    requires some { 0 < most }
    requires near { x + most * phase_increment < 2 ^ 64 }
    ensures some { 0 < result }
    ensures most { result ≤ most }
    ensures before { (k : ℕ) → k < result → x + k * phase_increment < to }
{
    if x + (most - 1) * phase_increment < to {
        return most;
    }
    (to - 1 - x) / phase_increment + 1
}
