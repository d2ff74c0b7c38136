//! The modulators of a zone: links, identity, and the values of the linear ones of key and velocity.
#![tactic(auto)]

mod linear;
mod modulator;

pub use linear::linear_value;
pub use modulator::{DEFAULT_VELOCITY, Modulator, default_velocity_law};
