//! The WAVE file of a left and a right sample: 16-bit stereo, with a `smpl` chunk for the left one's loop and pitch.
ghost use Rattle.std.specs.Prelude.{◌≡◌, ◌≤◌, length};
ghost use Rattle.base_outputs.specs.Output.{Puts};
ghost use Rattle.riff_chunks.specs.Encoding.{chunk};
ghost use Rattle.sf_base.specs.declared.limits.TheConstants.{POINTS};
ghost use Rattle.wave_file.specs.Wave.{FORMAT};
ghost use Rattle.pair_waves.specs.PairWave.{stereo_format, pair_wave};

use crate::frames::put_frames;
use bank_parts::Sample;
use base_outputs::Output;
use base_texts::Text;
use riff_chunks::ChunkWriter;
use std::io::Write;
use wave_file::{put_sampler, sampler_size};

/// The bytes of the file without its first 8, the body of the `smpl` chunk and the points.
const AROUND: u32 = 44;

/// The size of the `fmt ` chunk, in bytes.
const FORMAT_SIZE: u32 = 16;

/// Bytes per frame.
const FRAME_SIZE: u32 = 4;

/// A left and a right sample as a WAVE file: 16-bit stereo at the rate of the left one, and a `smpl` chunk with its
/// key, its correction in cents and its loop.
///
/// Each frame has a point of the left sample, then the point of the right one at the same position. Of the right sample
/// only the points are written.
#[derive(Clone, Copy)]
pub struct PairWave<'t, 'a> {
    left: &'t Sample<'a>,
    right: &'t Sample<'a>,
    ghost same: { length left.now.points ≡ length right.now.points },
    ghost few: { length left.now.points ≤ POINTS },
}

impl<'t, 'a> PairWave<'t, 'a> {
    /// The WAVE file of these samples.
    pub fn new(left: &'t Sample<'a>, right: &'t Sample<'a>) -> PairWave<'t, 'a>
        requires same { length left.now.points ≡ length right.now.points }
        requires few { length left.now.points ≤ POINTS }
        ensures { pair_wave result.left.now result.right.now ≡ pair_wave left.now right.now }
    {
        PairWave { left, right }
    }
}

impl Text for PairWave<'_, '_> {
    ghost bytes = { λ file. pair_wave file.left.now file.right.now };

    fn put<W: Write>(&self, output: &mut Output<'_, W>) {
        put_pair_wave(self.left, self.right, output);
    }
}

// Puts a left and a right sample as a whole WAVE file.
fn put_pair_wave<W: Write>(left: &Sample<'_>, right: &Sample<'_>, output: &mut Output<'_, W>)
    requires same { length left.now.points ≡ length right.now.points }
    requires few { length left.now.points ≤ POINTS }
    ensures { Puts W.contents output.old output.new (pair_wave left.now right.now) }
{
    let data_size = FRAME_SIZE * left.points.len() as u32;
    output.head(*b"RIFF", AROUND + sampler_size(left) + data_size);
    output.put(b"WAVE");
    put_stereo_format(left.rate, output);
    put_sampler(left, output);
    output.head(*b"data", data_size);
    put_frames(&left.points, &right.points, output);
}

// Puts the `fmt ` chunk: integer PCM, two channels, the rate, 16 bits.
fn put_stereo_format<W: Write>(rate: u32, output: &mut Output<'_, W>)
    ensures { Puts W.contents output.old output.new (chunk FORMAT (stereo_format rate)) }
{
    output.head(*b"fmt ", FORMAT_SIZE);
    output.put(&[1, 0, 2, 0]);
    output.put(&rate.to_le_bytes());
    output.put(&rate.saturating_mul(FRAME_SIZE).to_le_bytes());
    output.put(&[4, 0, 16, 0]);
}
