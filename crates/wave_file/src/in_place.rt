//! Reading a WAVE file in its own memory.
ghost use Rattle.std.specs.Prelude.{◌≡◌};
ghost use Rattle.wave_file.specs.ReadChecks.{recording_in};
ghost use Rattle.wave_file.specs.InPlace.{ReadsPoints, AreFrames, head_of};

use crate::channel_frames::ChannelFrames;
use crate::fault::WaveFault;
use crate::options::ReadOptions;
use crate::reading::read_recording;
use crate::recording::{Channels, Recording, Sampler};
use sample_view::Points;
use sf_base::Failure;
use std::alloc::Global;

/// Reads a WAVE file as `read_recording` does, and converts the samples of a single channel in the memory of the file
/// where that is possible. They are then borrowed as points: `Channels::Mono`.
///
/// Samples of 8 bits, of two channels, with dither or of data of unknown size are not converted.
pub fn read_in_place<'a>(
    alloc: Global,
    file: &'a mut [u8],
    options: ReadOptions,
) -> Result<Recording<'a>, Failure<WaveFault>>
    ensures { ReadsPoints (recording_in options file.old) result }
{
    match ChannelFrames::find(file, options) {
        Some(frames) => read_frames(alloc, file, options, frames),
        None => match read_recording(alloc, file, options) {
            Ok(recording) => Ok(recording),
            Err(fault) => Err(Failure::Fault(fault)),
        },
    }
}

// Reads a WAVE file with these frames.
fn read_frames<'a>(
    alloc: Global,
    file: &'a mut [u8],
    options: ReadOptions,
    frames: ChannelFrames,
) -> Result<Recording<'a>, Failure<WaveFault>>
    requires { AreFrames frames options file.old }
    ensures { ReadsPoints (recording_in options file.old) result }
{
    match read_head(alloc, file, options) {
        Ok((rate, sampler)) => {
            let points = frames.points_in_place(alloc, file)?;
            Ok(Recording {
                channels: Channels::Mono(Points::of_slice(alloc, points).unwrap()),
                rate,
                sampler,
            })
        }
        Err(fault) => Err(Failure::Fault(fault)),
    }
}

// The rate of a recording and the content of its `smpl` chunk.
fn read_head(alloc: Global, file: &[u8], options: ReadOptions) -> Result<(u32, Sampler), WaveFault>
    ensures { result ≡ head_of (recording_in options file.now) }
{
    match read_recording(alloc, file, options) {
        Ok(recording) => Ok((recording.rate, recording.sampler)),
        Err(fault) => Err(fault),
    }
}
