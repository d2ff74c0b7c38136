//! The points of the file of a sample.
ghost use Rattle.std.specs.Prelude.{◌≡◌};
ghost use Rattle.bank_folders.specs.Folders.{loop_end, fitting, mono_points, points_for};

use crate::bare::BareSample;
use sample_view::Points;
use std::alloc::Global;
use wave_file::{Channels, ReadOptions, Recording, WaveFault, read_recording};

/// The points of a WAVE file for a sample that a line adds without points; they are borrowed from the file.
///
/// The file is read without options. Its fault is the first that [`read_recording`] finds, else `TwoChannels` if it is
/// stereo, `NotSixteenBits` if its samples have another encoding than integers of 16 bits, `OtherRate` if its rate is
/// not that of the sample, or `ShortForLoop` if the loop of the sample ends after its last point.
pub fn points_for<'a>(
    alloc: Global,
    sample: &BareSample,
    wave: &'a [u8],
) -> Result<Points<'a>, WaveFault>
    ensures { result ≡ points_for sample.now wave.now }
{
    let recording = read_recording(alloc, wave, ReadOptions::as_stored())?;
    let Recording {
        channels,
        rate,
        sampler: _,
    } = recording;
    let points = mono_points(channels)?;
    fitting(sample, rate, points)
}

// The points of a mono recording of 16 bits.
fn mono_points(channels: Channels<'_>) -> Result<Points<'_>, WaveFault>
    ensures { result ≡ mono_points channels.entry }
{
    match channels {
        Channels::Mono(points) => Ok(points),
        Channels::MonoSamples(_) => Err(WaveFault::NotSixteenBits),
        Channels::Stereo(_, _) => Err(WaveFault::TwoChannels),
    }
}

// The points of a recording with this rate, if they can be those of the sample.
fn fitting<'a>(sample: &BareSample, rate: u32, points: Points<'a>) -> Result<Points<'a>, WaveFault>
    ensures { result ≡ fitting sample.now rate points.entry }
{
    if rate != sample.rate {
        return Err(WaveFault::OtherRate);
    }
    if loop_end(sample.looped) as usize > points.len() {
        return Err(WaveFault::ShortForLoop);
    }
    Ok(points)
}

// The point after the last of a loop.
fn loop_end(looped: Option<(u32, u32)>) -> u32
    ensures { result ≡ loop_end looped }
{
    match looped {
        Some((_, end)) => end,
        None => 0,
    }
}
