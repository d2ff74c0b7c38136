//! PCM samples of any width as 16-bit points, one sample or the samples of a channel.
//!
//! A sample is a fraction of the full scale. Its point is that fraction of 32,768, rounded to the nearest whole number,
//! ties away from zero, and clipped to 16 bits; before that, dither may add noise. All in integers, so it is the same
//! everywhere.
#![tactic(auto)]

mod blocks;
mod channel;
mod dither;
mod encoding;
mod in_place;
mod laws;
mod rounding;

pub use channel::channel_points;
pub use encoding::SampleEncoding;
pub use in_place::points_in_place;
pub use laws::{dither_is_near, narrow_samples_stay, points_are_nearest, sixteen_bits_stay};
pub use rounding::point;
