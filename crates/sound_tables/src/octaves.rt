//! Ratios over many octaves: times in frames, and phase increments.
ghost use Rattle.std.specs.Prelude.{◌≡◌, ◌≤◌, ◌<◌, ◌≤ℤ◌, ◌+ℤ◌, ◌+◌, ◌*◌, ◌/◌, ◌^◌, pos, negsuc};
ghost use Rattle.sound_tables.specs.Floor.{floor_div, floor_mod};
ghost use Rattle.sound_tables.specs.Tables.{frames_of, phase_increment_of};

use crate::ratios::ratio_at;

/// Frames per second.
const FRAME_RATE: u64 = 44100;

/// The ratio of twelve octaves. The octaves of an interval are counted from twelve below zero.
const TWELVE_OCTAVES: u64 = 4096;

/// The frames of 8000 timecents, the longest time that counts.
pub const MOST_FRAMES: u32 = 4_480_284;

/// The phase increment of 9600 cents at 192,000 points a second, the highest that counts.
pub const MOST_PHASE_INCREMENT: u32 = 73_043_661;

/// The frames of a time in timecents, at 44,100 a second: 44,100 at 0, twice as many for each 1200 more. Zero up to
/// -12000; 4,480,284 from 8000 on.
#[tactic(auto, using(crate::proofs::OctaveLaws::frames_case, crate::proofs::OctaveLaws::frames_bound))]
pub fn frames(timecents: i64) -> u32
    ensures value { result ≡ frames_of timecents }
    ensures most { result ≤ MOST_FRAMES }
{
    if timecents <= -12000 {
        return 0;
    }
    let (octaves, rest) = octaves_of(timecents.min(8000));
    scaled(FRAME_RATE * u64::from(ratio_at(rest)), octaves, 65536)
}

/// The phase increment of a frame, in 65536ths of a point, of a sample with `rate` points a second played `cents` above
/// its own pitch. The interval is clamped to -14400..=9600 and the rate to 400..=192000.
#[tactic(auto, using(crate::proofs::OctaveLaws::step_case, crate::proofs::OctaveLaws::step_bound))]
pub fn step(cents: i64, rate: u32) -> u32
    ensures value { result ≡ phase_increment_of cents rate }
    ensures most { result ≤ MOST_PHASE_INCREMENT }
{
    let (octaves, rest) = octaves_of(cents.max(-14400).min(9600));
    let rate = rate.max(400).min(192_000);
    scaled(
        u64::from(ratio_at(rest)) * u64::from(rate),
        octaves,
        FRAME_RATE,
    )
}

// The whole octaves of an interval, counted from twelve below zero, and the remaining cents.
#[tactic(auto, using(crate::proofs::FloorLaws::floor_div_is, crate::proofs::FloorLaws::floor_mod_is))]
fn octaves_of(cents: i64) -> (u32, u32)
    requires low { negsuc 14399 ≤ℤ cents }
    requires high { cents ≤ℤ pos 9600 }
    ensures whole { cents +ℤ pos 14400 ≡ pos (1200 * result.0 + result.1) }
    ensures octaves { floor_div cents 1200 +ℤ pos 12 ≡ pos result.0 }
    ensures rest { result.1 ≡ floor_mod cents 1200 }
    ensures within { (result.0 ≤ 20) × (result.1 < 1200) }
{
    let up = (cents + 14400) as u32;
    (up / 1200, up % 1200)
}

// `amount` · 2^(`octaves` - 12) / `divisor`, rounded down once.
#[tactic(auto, using(crate::proofs::OctaveLaws::shifted, crate::proofs::OctaveLaws::scaled_fits))]
fn scaled(amount: u64, octaves: u32, divisor: u64) -> u32
    requires small { amount < divisor * 16777216 }
    requires divides { (0 < divisor) × (divisor ≤ 65536) }
    requires near { octaves ≤ 20 }
    ensures { result ≡ amount * 2 ^ octaves / (divisor * 4096) }
{
    ((amount << octaves) / (divisor * TWELVE_OCTAVES)) as u32
}
