//! The bytes of a WAVE file, in the order of the file.
ghost use Rattle.std.specs.Prelude.{◌≡◌, ◌≤◌};
ghost use Rattle.std.specs.List.{flat_map};
ghost use Rattle.base_outputs.specs.Output.{Puts};
ghost use Rattle.base_outputs.specs.Writing.{Writes};
ghost use Rattle.wave_file.specs.Wave.{FitsWave, wave, head, format, sample_bytes};

use base_outputs::{Output, WriteFault};
use base_texts::Text;
use byteorder::{ByteOrder, LittleEndian};
use std::io::Write;

/// Frames per second.
const FRAME_RATE: u32 = 44_100;

/// The channels of a frame, left and right.
const CHANNEL_COUNT: u16 = 2;

/// Bytes per frame.
const FRAME_SIZE: u16 = 4;

/// Bytes per second.
const BYTE_RATE: u32 = 176_400;

/// Bits per sample.
const SAMPLE_BITS: u16 = 16;

/// The format tag of integer PCM.
const PCM_TAG: u16 = 1;

/// The bytes between the first 8 of a file and its samples.
const HEAD_REST: u32 = 36;

/// How many samples are encoded at a time.
const PIECE: usize = 4096;

/// A WAVE file of frames: left and right samples in turn.
#[derive(Clone, Copy)]
pub struct WaveFile<'a> {
    frames: &'a [i16],
    ghost fits: { FitsWave frames.now },
}

impl<'a> WaveFile<'a> {
    /// The WAVE file of these frames.
    pub fn new(frames: &'a [i16]) -> WaveFile<'a>
        requires { FitsWave frames.now }
        ensures { wave result.frames.now ≡ wave frames.now }
    {
        WaveFile { frames }
    }
}

impl Text for WaveFile<'_> {
    ghost bytes = { λ file. wave file.frames.now };

    fn put<W: Write>(&self, output: &mut Output<'_, W>) {
        put_wave(self.frames, output);
    }
}

/// Writes frames as a whole WAVE file: left and right samples in turn. Does not flush. A fault has the number of bytes
/// written.
pub fn write_wave<W: Write>(frames: &[i16], out: &mut W) -> Result<(), WriteFault>
    requires { FitsWave frames.now }
    ensures { Writes (W.contents out.old) (W.contents out.new) (wave frames.now) result }
{
    let mut output = Output::to(out);
    put_wave(frames, &mut output);
    output.end()?;
    Ok(())
}

// Puts frames as a whole WAVE file.
fn put_wave<W: Write>(frames: &[i16], output: &mut Output<'_, W>)
    requires { FitsWave frames.now }
    ensures { Puts W.contents output.old output.new (wave frames.now) }
{
    put_head(2 * frames.len() as u32, output);
    put_samples(frames, output);
}

// Puts all bytes before `size` bytes of samples.
fn put_head<W: Write>(size: u32, output: &mut Output<'_, W>)
    requires { size ≤ 4294967259 }
    ensures { Puts W.contents output.old output.new (head size) }
{
    output.put(b"RIFF");
    output.put(&(HEAD_REST + size).to_le_bytes());
    output.put(b"WAVE");
    put_format(output);
    output.put(b"data");
    output.put(&size.to_le_bytes());
}

// Puts the `fmt ` chunk.
fn put_format<W: Write>(output: &mut Output<'_, W>)
    ensures { Puts W.contents output.old output.new format }
{
    output.put(b"fmt ");
    output.put(&16u32.to_le_bytes());
    output.put(&PCM_TAG.to_le_bytes());
    output.put(&CHANNEL_COUNT.to_le_bytes());
    output.put(&FRAME_RATE.to_le_bytes());
    output.put(&BYTE_RATE.to_le_bytes());
    output.put(&FRAME_SIZE.to_le_bytes());
    output.put(&SAMPLE_BITS.to_le_bytes());
}

// Puts samples, little-endian, in pieces of 8 kB.
fn put_samples<W: Write>(samples: &[i16], output: &mut Output<'_, W>)
    ensures { Puts W.contents output.old output.new (flat_map sample_bytes samples.now) }
{
    let mut bytes = [0; 2 * PIECE];
    let mut rest = samples;
    while !rest.is_empty() {
        let (piece, others) = rest.split_at(rest.len().min(PIECE));
        let encoded = &mut bytes[..2 * piece.len()];
        LittleEndian::write_i16_into(piece, encoded);
        output.put(encoded);
        rest = others;
    }
}
