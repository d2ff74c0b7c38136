//! A picture of a sample: its waveform, its loop and the seam of the loop.
#![tactic(auto)]

mod columns;
mod extremes;
mod facts;
mod laws;
mod pairs;
mod picture;
mod rows;
mod seams;
#[cfg(test)]
mod tests;
mod waves;

pub use columns::column;
pub use extremes::{Extremes, extremes_between, height};
pub use laws::columns_cover_points;
pub use picture::SamplePicture;
pub use waves::put_wave;
