//! Tables for sound, all in integers: pitch ratios, gains, times and phase increments.
#![tactic(auto)]

ghost use Rattle.sound_tables.specs.Floor.{FloorsAreCorrect};

mod loudness;
mod octaves;
mod ratios;

pub use loudness::{UNITY_GAIN, gain, velatt};
pub use octaves::{MOST_FRAMES, MOST_PHASE_INCREMENT, frames, step};
pub use ratios::pitch;

/// The law that `floor_div` and `floor_mod` of the specs are floor division, also of negative numbers. It does nothing.
pub fn floors_law()
    ensures { FloorsAreCorrect }
{}
