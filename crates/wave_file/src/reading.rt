//! Reading a WAVE file.
ghost use Rattle.std.specs.Prelude.{◌≡◌};
ghost use Rattle.bank_format.specs.FaultChecks.{Passes};
ghost use Rattle.wave_file.specs.Streams.{wave_chunks};
ghost use Rattle.wave_file.specs.ReadChecks.{window_checks, content_checks, content_in, recording_in};

use crate::chunks::WaveChunks;
use crate::fault::WaveFault;
use crate::format::{read_data, read_format};
use crate::options::ReadOptions;
use crate::recording::Recording;
use crate::sampler::{read_sampler, with_key};
use crate::window::wave_window;
use std::alloc::Global;

/// Reads a WAVE file, or returns the fault of the first check that fails. The recording borrows its samples from the
/// file; nothing is allocated.
///
/// The samples must be integer PCM of 8, 16, 24 or 32 bits or 32-bit float. There must be one channel or two; if the
/// options name a channel, it must be one of up to 65,535. The `smpl` chunk gives key, correction and loop: the first
/// forward loop of its loops.
///
/// A program that writes to a pipe leaves its sizes unknown, as 0xFFFFFFFF. Such a RIFF chunk ends with the file, and
/// such a `data` chunk with the RIFF chunk.
pub fn read_recording<'a>(
    alloc: Global,
    file: &'a [u8],
    options: ReadOptions,
) -> Result<Recording<'a>, WaveFault>
    ensures { result ≡ recording_in options file.now }
{
    let window = wave_window(file)?;
    read_window(alloc, window, options)
}

// Reads the chunks of the window.
fn read_window<'a>(
    alloc: Global,
    window: &'a [u8],
    options: ReadOptions,
) -> Result<Recording<'a>, WaveFault>
    ensures { Passes (λ r. r) result (window_checks options window.now) (content_in options (wave_chunks window.now)) }
{
    let chunks = WaveChunks::over(window)?;
    read_content(alloc, &chunks, options)
}

// Reads the first chunk of each id.
fn read_content<'a>(
    alloc: Global,
    chunks: &WaveChunks<'a>,
    options: ReadOptions,
) -> Result<Recording<'a>, WaveFault>
    ensures { Passes (λ r. r) result (content_checks options chunks.now) (content_in options chunks.now) }
{
    let format = read_format(options.channel, chunks.format())?;
    let channels = read_data(alloc, format, options.dither, chunks.frames())?;
    let sampler = read_sampler(chunks.sampler(), channels.frame_count())?;
    Ok(Recording {
        channels,
        rate: format.rate,
        sampler: with_key(options.key, sampler),
    })
}
