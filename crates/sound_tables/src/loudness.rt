//! Gains of attenuations, and attenuations of velocities.
ghost use Rattle.std.specs.Prelude.{◌≡◌, ◌≤◌, min};
ghost use Rattle.sound_tables.specs.Tables.{gain_of, velocity_attenuation_of, IsVelocityAttenuation};

use crate::ratios::ratio_at;

/// The attenuation in centibels from which on the gain is zero.
const SILENCE: i64 = 960;

/// The gain without attenuation. Gains are in 65,536ths.
pub const UNITY_GAIN: u32 = 65_536;

/// The gain of an attenuation in centibels, in 65536ths: 65536 at 0 and below, halved by each 60 more, zero from 960
/// on.
#[tactic(auto, unfolding(crate::specs::Tables::gain_at))]
pub fn gain(attenuation: i64) -> u32
    ensures value { result ≡ gain_of attenuation }
    ensures most { result ≤ UNITY_GAIN }
{
    if attenuation >= SILENCE {
        return 0;
    }
    let attenuation = attenuation.max(0) as u32;
    ratio_at(1200 - 20 * (attenuation % 60)) >> (attenuation / 60 + 1)
}

/// The attenuation of a velocity in centibels, 0 to 960: the least whose gain is at most the square of velocity / 127.
/// A velocity above 127 counts as 127.
#[tactic(auto, using(crate::proofs::VelocityLaws::all_between, crate::proofs::VelocityLaws::quieter, crate::proofs::VelocityLaws::louder, crate::proofs::VelocityLaws::found, crate::proofs::VelocityLaws::velocity_attenuation_is))]
pub fn velatt(velocity: u8) -> u32
    ensures value { result ≡ velocity_attenuation_of velocity }
    ensures least { IsVelocityAttenuation (min velocity 127) result }
{
    let part = u32::from(velocity.min(127));
    let square = part * part * 65536;
    let mut low = 0;
    let mut high = 960;
    while low < high {
        let middle = (low + high) / 2;
        if gain(i64::from(middle)) * (127 * 127) <= square {
            high = middle;
        } else {
            low = middle + 1;
        }
    }
    low
}
