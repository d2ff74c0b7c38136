//! One voice: a sample played with the parameters of a pair of zones, frame by frame.
#![tactic(auto)]

ghost use Rattle.voices.specs.Sound.{OverStaysOver};
ghost use Rattle.voices.specs.Release.{EndsAreFree, OverWhenReleased};

mod adding;
mod frames;
mod interpolation;
mod panning;
mod positions;
mod runs;
mod slices;
mod start;
mod voice;
mod voice_state;
mod workspace;

pub use start::VoiceFault;
pub use voice::Voice;
pub use workspace::Workspace;

/// The law that a voice that is over stays over. It does nothing.
#[tactic(auto, using(crate::proofs::OverLaws::over_stays))]
pub fn over_law()
    ensures { OverStaysOver }
{}

/// The law that a frame before the end of a note doesn't depend on when it ends. It does nothing.
pub fn end_law()
    ensures { EndsAreFree }
{}

/// The law that a release doesn't bring back a voice that is over. It does nothing.
#[tactic(auto, using(crate::proofs::ReleaseLaws::over_when_released))]
pub fn release_law()
    ensures { OverWhenReleased }
{}
