//! The chunks of a WAVE file.
ghost use Rattle.std.specs.Prelude.{◌≡◌, ◌+◌, ◌%◌, false, length};
ghost use Rattle.std.specs.Option.{option_copied};
ghost use Rattle.riff_chunks.specs.Walk.{walk};
ghost use Rattle.riff_chunks.specs.Finding.{chunks_in, is_whole, first_body};
ghost use Rattle.bank_format.specs.Chunks.{body_in};
ghost use Rattle.bank_format.specs.FaultChecks.{Passes};
ghost use Rattle.wave_file.specs.Wave.{FORMAT, DATA};
ghost use Rattle.wave_file.specs.SampleWave.{SAMPLER};
ghost use Rattle.wave_file.specs.Streams.{rest_of, begins_data, wave_chunks};
ghost use Rattle.wave_file.specs.Kept.{bodies_in, kept};
ghost use Rattle.wave_file.specs.ReadChecks.{walk_checks};

use crate::fault::WaveFault;
use crate::first_bodies::FirstBodies;
use riff_chunks::Chunks;
use sf_base::{front_of, rest_from};
use std::marker::Model;

/// The size of a chunk header, in bytes.
pub(crate) const HEAD_SIZE: usize = 8;

/// The header of data of unknown size.
const STREAMED_HEAD: [u8; 8] = [b'd', b'a', b't', b'a', 255, 255, 255, 255];

/// A window walked once to its end, with the first bodies of the chunks that are read. Its value is the list of its
/// chunks.
#[derive(Drop)]
pub(crate) struct WaveChunks<'a> {
    window: &'a [u8],
    bodies: FirstBodies<'a>,
}

impl<'a> Model for WaveChunks<'a> {
    ghost use Rattle.std.specs.Prelude.{◌≡◌, List};
    ghost use Rattle.riff_chunks.specs.Walk.{Chunk};
    ghost use Rattle.wave_file.specs.Streams.{wave_chunks};
    ghost use Rattle.wave_file.specs.Kept.{bodies_in, kept};

    ghost Value = { List Chunk };

    ghost view = { λ c. wave_chunks c.window.now };

    ghost invariant = { λ c. kept c.bodies ≡ bodies_in (wave_chunks c.window.now) };
}

impl<'a> WaveChunks<'a> {
    /// Walks a window. A body that passes its end is a fault, except that of data of unknown size, which ends there.
    pub(crate) fn over(window: &'a [u8]) -> Result<WaveChunks<'a>, WaveFault>
        ensures { Passes (λ c. c) result (walk_checks window.now) (wave_chunks window.now) }
    {
        let mut bodies = FirstBodies::none();
        let mut rest = window;
        for item in Chunks::over(window) {
            let Ok(chunk) = item else {
                return WaveChunks::with_rest(window, bodies, rest);
            };
            bodies.keep(chunk.0, chunk.1);
            rest = rest_from(rest, chunk_size(chunk.1));
        }
        Ok(WaveChunks { window, bodies })
    }

    // With the rest of a window after the chunks that fit, which must be data of unknown size.
    fn with_rest(
        window: &'a [u8],
        bodies: FirstBodies<'a>,
        rest: &'a [u8],
    ) -> Result<WaveChunks<'a>, WaveFault>
        requires cut { is_whole (walk window.now) ≡ false }
        requires rest { rest.now ≡ rest_of window.now }
        requires found { kept bodies ≡ bodies_in (chunks_in (walk window.now)) }
        ensures { Passes (λ c. c) result (walk_checks window.now) (wave_chunks window.now) }
    {
        if !begins_data(rest) {
            return Err(WaveFault::Truncated);
        }
        let mut bodies = bodies;
        bodies.keep(*b"data", rest_from(rest, HEAD_SIZE));
        Ok(WaveChunks { window, bodies })
    }

    /// The body of the `fmt ` chunk. A missing chunk is empty.
    pub(crate) fn format(&self) -> &'a [u8]
        ensures { result.now ≡ body_in FORMAT self.now }
    {
        self.bodies.format.unwrap_or(&[])
    }

    /// The body of the `data` chunk.
    pub(crate) fn frames(&self) -> Option<&'a [u8]>
        ensures { option_copied result ≡ first_body DATA self.now }
    {
        self.bodies.frames
    }

    /// The body of the `smpl` chunk.
    pub(crate) fn sampler(&self) -> Option<&'a [u8]>
        ensures { option_copied result ≡ first_body SAMPLER self.now }
    {
        self.bodies.sampler
    }
}

// The bytes of a chunk with this body.
pub(crate) fn chunk_size(body: &[u8]) -> usize
    ensures { result ≡ 8 + length body.now + length body.now % 2 }
{
    HEAD_SIZE + body.len() + body.len() % 2
}

// Whether these bytes begin with the header of data of unknown size.
#[tactic(auto, unfolding(crate::specs::Wave::DATA, crate::specs::Streams::UNKNOWN))]
fn begins_data(rest: &[u8]) -> bool
    ensures { result ≡ begins_data rest.now }
{
    front_of(rest, HEAD_SIZE) == STREAMED_HEAD.as_slice()
}
