//! The gain of the volume envelope at a frame.
ghost use Rattle.std.specs.Prelude.{◌≡◌, ◌≤◌, ◌<◌, ◌+◌, ◌^◌};
ghost use Rattle.sound_envelopes.specs.Envelope.{decayed, held, envelope};

use sound_tables::{UNITY_GAIN, gain};
use zone_select::VoiceParameters;

// The gain of the envelope at a frame of the decay, counted from its start.
#[tactic(auto, unfolding(crate::specs::Envelope::decayed))]
fn decayed_at(v: &VoiceParameters, fallen: u64) -> u32
    requires { fallen < 2 ^ 34 }
    ensures value { result ≡ decayed v.now fallen }
    ensures most { result ≤ UNITY_GAIN }
{
    if v.decay == 0 {
        return gain(i64::from(v.sustain));
    }
    gain((960 * fallen / u64::from(v.decay)).min(u64::from(v.sustain)) as i64)
}

/// Returns the gain of the volume envelope at frame `t` before the note's end, in 65536ths.
#[tactic(auto, unfolding(crate::specs::Envelope::held))]
pub fn held_at(v: &VoiceParameters, t: u64) -> u32
    requires { t < 2 ^ 34 }
    ensures value { result ≡ held v.now t }
    ensures most { result ≤ UNITY_GAIN }
{
    let delay = u64::from(v.delay);
    let attack = u64::from(v.attack);
    let hold = u64::from(v.hold);
    if t < delay {
        return 0;
    }
    let risen = t - delay;
    if risen < attack {
        return (65536 * risen / attack) as u32;
    }
    let kept = risen - attack;
    if kept < hold {
        return UNITY_GAIN;
    }
    decayed_at(v, kept - hold)
}

/// Returns the gain of the volume envelope at frame `t` while the voice isn't over, in 65536ths.
#[tactic(auto, using(crate::proofs::GainLaws::faded), unfolding(crate::specs::Envelope::envelope, crate::specs::Envelope::released))]
pub fn envelope_at(v: &VoiceParameters, t: u64) -> u32
    requires { t < v.now.length + v.now.release }
    ensures value { result ≡ envelope v.now t }
    ensures most { result ≤ UNITY_GAIN }
{
    let length = u64::from(v.length);
    if t < length {
        return held_at(v, t);
    }
    let fallen = 960 * (t - length) / u64::from(v.release);
    (u64::from(held_at(v, length)) * u64::from(gain(fallen as i64)) / 65536) as u32
}
