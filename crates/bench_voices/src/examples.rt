//! The measured voices and their sample.
ghost use Rattle.std.specs.Prelude.{◌≡◌, ◌≤◌, ℕ, length, IfSome};
ghost use Rattle.zone_select.specs.Playable.{IsPlayable};

use sample_view::Points;
use std::alloc::{AllocError, Global};
use voices::Voice;
use zone_select::VoiceParameters;

/// The number of points of the sample.
const POINTS: u32 = 65536;

/// The frames of a phase, more than are played.
const PHASE_FRAMES: u32 = 70000;

/// A phase of an envelope.
#[derive(Debug, Clone, Copy, PartialEq, Eq)]
pub(crate) enum Phase {
    Attack,
    Decay,
    Sustain,
    Release,
}

/// A measured voice: looped or not, in one phase of its envelope all the time.
#[derive(Debug, Clone, Copy, PartialEq, Eq)]
pub(crate) struct Example {
    pub(crate) looped: bool,
    pub(crate) phase: Phase,
}

/// All phases.
pub(crate) const PHASES: [Phase; 4] = [Phase::Attack, Phase::Decay, Phase::Sustain, Phase::Release];

impl Example {
    /// The name to print.
    pub(crate) fn name(self) -> &'static str {
        match (self.looped, self.phase) {
            (true, Phase::Attack) => "looped-attack",
            (true, Phase::Decay) => "looped-decay",
            (true, Phase::Sustain) => "looped-sustain",
            (true, Phase::Release) => "looped-release",
            (false, Phase::Attack) => "unlooped-attack",
            (false, Phase::Decay) => "unlooped-decay",
            (false, Phase::Sustain) => "unlooped-sustain",
            (false, Phase::Release) => "unlooped-release",
        }
    }

    /// The voice before its first frame. It starts at another point in each of 64 rounds. `None` if there are too
    /// few points.
    pub(crate) fn voice<'a>(self, points: Points<'a>, round: u32) -> Option<Voice<'a>>
        ensures { IfSome result (λ v. v.age ≡ 0) }
    {
        if points.len() < POINTS as usize {
            return None;
        }
        Some(Voice::of(points, parameters(self, round)))
    }
}

fn parameters(example: Example, round: u32) -> VoiceParameters
    ensures { (count : ℕ) → 65536 ≤ count → IsPlayable count result }
{
    let phase = example.phase;
    VoiceParameters {
        start: round % 64,
        end: POINTS,
        loop_start: 1000,
        loop_end: 1400,
        looped: example.looped,
        until_release: false,
        phase_increment: if example.looped { 98193 } else { 40000 },
        delay: 0,
        attack: if phase == Phase::Attack {
            PHASE_FRAMES
        } else {
            0
        },
        hold: 0,
        decay: if phase == Phase::Decay {
            PHASE_FRAMES
        } else {
            0
        },
        release: PHASE_FRAMES,
        sustain: if phase == Phase::Decay { 960 } else { 100 },
        attenuation: 30,
        pan: 100,
        length: if phase == Phase::Release {
            0
        } else {
            PHASE_FRAMES
        },
        class: 0,
    }
}

/// The points of the sample as bytes.
pub(crate) fn sample_bytes(alloc: Global) -> Result<Vec<u8>, AllocError> {
    let mut bytes = Vec::new(alloc);
    for i in 0..POINTS {
        let [low, high] = ((i * 7919 % 65536) as u16).to_le_bytes();
        bytes.push(low)?;
        bytes.push(high)?;
    }
    Ok(bytes)
}
