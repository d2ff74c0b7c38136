//! The window of a WAVE file.
ghost use Rattle.std.specs.Prelude.{◌≡◌, drop};
ghost use Rattle.bank_format.specs.FaultChecks.{Passes};
ghost use Rattle.wave_file.specs.Streams.{is_streamed, wave_window};
ghost use Rattle.wave_file.specs.ReadChecks.{streamed_checks, riff_checks};

use crate::fault::WaveFault;
use bank_format::window_of;
use sf_base::{front_of, part_of, rest_from};

/// The size of the header of the RIFF chunk and its form, in bytes.
pub(crate) const HEAD_SIZE: usize = 12;

/// An unknown size, as programs that write to a pipe leave it.
const UNKNOWN_SIZE: [u8; 4] = [255; 4];

/// Returns the body of a file's RIFF chunk after its form, which must be `WAVE`. If its size is unknown, the body ends
/// with the file.
#[tactic(auto, unfolding(crate::specs::ReadChecks::riff_checks, crate::specs::Streams::wave_window, crate::specs::Wave::WAVE))]
pub(crate) fn wave_window(file: &[u8]) -> Result<&[u8], WaveFault>
    ensures { Passes (λ w. w.now) result (riff_checks file.now) (wave_window file.now) }
{
    if is_streamed(file) {
        streamed_window(file)
    } else {
        window_of(
            file,
            *b"WAVE",
            WaveFault::NotWave,
            WaveFault::Truncated,
            WaveFault::NotWave,
        )
    }
}

// Whether the size of the RIFF chunk is unknown.
#[tactic(auto, unfolding(crate::specs::Streams::UNKNOWN))]
fn is_streamed(file: &[u8]) -> bool
    ensures { result ≡ is_streamed file.now }
{
    part_of(file, 4, 4) == UNKNOWN_SIZE.as_slice()
}

// The window of a file whose size is unknown.
#[tactic(auto, unfolding(crate::specs::ReadChecks::streamed_checks, crate::specs::Wave::RIFF, crate::specs::Wave::WAVE))]
fn streamed_window(file: &[u8]) -> Result<&[u8], WaveFault>
    ensures { Passes (λ w. w.now) result (streamed_checks file.now) (drop 12 file.now) }
{
    if front_of(file, 4) != b"RIFF".as_slice() {
        return Err(WaveFault::NotWave);
    }
    if file.len() < HEAD_SIZE {
        return Err(WaveFault::Truncated);
    }
    if part_of(file, 8, 4) != b"WAVE".as_slice() {
        return Err(WaveFault::NotWave);
    }
    Ok(rest_from(file, HEAD_SIZE))
}
