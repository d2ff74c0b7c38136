//! WAVE files: frames or a sample written as one, and one read as a recording, with the edits that import it.
//!
//! A WAVE file is a RIFF file of the form `WAVE`. Of its chunks `fmt `, `data` and `smpl` are read, the first of each;
//! all others are skipped. The sizes of the RIFF chunk and of `data` may be unknown.
#![tactic(auto)]

mod channel_frames;
mod channel_samples;
mod chunks;
mod data_range;
mod encoding;
mod fault;
mod first_bodies;
mod format;
mod importing;
mod in_place;
mod laws;
mod options;
mod reading;
mod recording;
mod sample;
mod sampler;
mod sampler_loop;
mod sampler_pitch;
mod sides;
mod window;

pub use channel_samples::ChannelSamples;
pub use encoding::{WaveFile, write_wave};
pub use fault::WaveFault;
pub use importing::import_edits;
pub use in_place::read_in_place;
pub use laws::sample_waves_read_back;
pub use options::ReadOptions;
pub use reading::read_recording;
pub use recording::{Channels, DEFAULT_PITCH, Pitch, Recording, Sampler};
pub use sample::{SampleWave, put_sampler, sampler_size};
pub use sampler_loop::SamplerLoop;
pub use sides::Sides;
