//! A loop of a `smpl` chunk.
ghost use Rattle.std.proofs.Common.{lit<};
ghost use Rattle.wave_file.specs.Recordings.{sampler_loop_of};

use hydra_records::Record;
use sf_base::u32_at;

/// A loop of a `smpl` chunk, a record of 24 bytes.
#[derive(Clone, Copy, Debug, PartialEq, Eq)]
pub struct SamplerLoop {
    /// The loop type: 0 for a forward loop.
    pub kind: u32,

    /// Its first frame.
    pub first: u32,

    /// Its last frame.
    pub last: u32,
}

impl Record for SamplerLoop {
    ghost SIZE = { 24 };

    ghost of_bytes = { sampler_loop_of };

    ghost some_bytes = { lit< tt };

    const SIZE: usize = 24;

    fn read(bytes: &[u8]) -> SamplerLoop {
        SamplerLoop {
            kind: u32_at(bytes, 4),
            first: u32_at(bytes, 8),
            last: u32_at(bytes, 12),
        }
    }
}
