//! A left and a right sample of a bank as one stereo WAVE file.
#![tactic(auto)]

mod frames;
mod laws;
mod pair_wave;

pub use laws::pairs_read_back;
pub use pair_wave::PairWave;
