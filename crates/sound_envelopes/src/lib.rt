//! The volume envelope, and applying it to points.
#![tactic(auto)]

mod envelopes;
mod gains;
mod phases;
mod runs;

pub use envelopes::{envelope_at, held_at};
pub use gains::attenuated;
pub use phases::EnvelopeGain;
pub use runs::apply_envelope;
