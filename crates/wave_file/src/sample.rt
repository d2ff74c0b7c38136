//! The WAVE file of a sample: 16-bit mono, with a `smpl` chunk for its loop and pitch.
ghost use Rattle.std.specs.Prelude.{◌≡◌, ◌+◌, ◌*◌, ◌≤◌, length};
ghost use Rattle.std.specs.List.{flat_map};
ghost use Rattle.base_outputs.specs.Output.{Puts};
ghost use Rattle.riff_chunks.specs.Encoding.{chunk};
ghost use Rattle.sample_view.specs.Words.{word_bytes};
ghost use Rattle.sf_base.specs.declared.limits.TheConstants.{POINTS};
ghost use Rattle.wave_file.specs.Wave.{FORMAT, DATA};
ghost use Rattle.wave_file.specs.SampleWave.{SAMPLER, numbers, mono_format, frame_time, loop_count, sampler_head, loop_bytes, stored_pitch, sampler, sample_wave};

use crate::sampler_pitch::{pitch_fraction, unity_note};
use bank_parts::Sample;
use base_outputs::Output;
use base_texts::Text;
use riff_chunks::ChunkWriter;
use sample_view::Points;
use std::io::Write;

/// The bytes of the file without its first 8, the body of the `smpl` chunk and the points.
const AROUND: u32 = 44;

/// The size of the `fmt ` chunk, in bytes.
const FORMAT_SIZE: u32 = 16;

/// The size of a `smpl` chunk without loops, with 8 bytes of sampler data.
const SAMPLER_SIZE: u32 = 44;

/// The size of a loop, in bytes.
const LOOP_SIZE: u32 = 24;

/// Nanoseconds per second.
const SECOND: u32 = 1_000_000_000;

/// A sample as a WAVE file: 16-bit mono at its rate, and a `smpl` chunk with its key, its correction in cents and its
/// loop.
///
/// The `smpl` chunk has the pitch for other programs: a unity note of 0 to 127, and a fraction of a semitone above it.
/// Its 8 bytes of sampler data keep the key and the correction, which the pitch does not determine.
#[derive(Clone, Copy)]
pub struct SampleWave<'t, 'a> {
    sample: &'t Sample<'a>,
    ghost few: { length sample.now.points ≤ POINTS },
}

impl<'t, 'a> SampleWave<'t, 'a> {
    /// The WAVE file of this sample.
    pub fn new(sample: &'t Sample<'a>) -> SampleWave<'t, 'a>
        requires { length sample.now.points ≤ POINTS }
        ensures { sample_wave result.sample.now ≡ sample_wave sample.now }
    {
        SampleWave { sample }
    }
}

impl Text for SampleWave<'_, '_> {
    ghost bytes = { λ file. sample_wave file.sample.now };

    fn put<W: Write>(&self, output: &mut Output<'_, W>) {
        put_sample_wave(self.sample, output);
    }
}

// Puts a sample as a whole WAVE file.
fn put_sample_wave<W: Write>(sample: &Sample<'_>, output: &mut Output<'_, W>)
    requires { length sample.now.points ≤ POINTS }
    ensures { Puts W.contents output.old output.new (sample_wave sample.now) }
{
    let data_size = 2 * sample.points.len() as u32;
    output.head(*b"RIFF", AROUND + sampler_size(sample) + data_size);
    output.put(b"WAVE");
    put_mono_format(sample.rate, output);
    put_sampler(sample, output);
    output.head(*b"data", data_size);
    put_points(&sample.points, output);
}

// Puts the `fmt ` chunk: integer PCM, one channel, the rate, 16 bits.
fn put_mono_format<W: Write>(rate: u32, output: &mut Output<'_, W>)
    ensures { Puts W.contents output.old output.new (chunk FORMAT (mono_format rate)) }
{
    output.head(*b"fmt ", FORMAT_SIZE);
    output.put(&[1, 0, 1, 0]);
    output.put(&rate.to_le_bytes());
    output.put(&rate.saturating_mul(2).to_le_bytes());
    output.put(&[2, 0, 16, 0]);
}

/// Puts the `smpl` chunk of a sample: its key, its correction and its loop.
pub fn put_sampler<W: Write>(sample: &Sample<'_>, output: &mut Output<'_, W>)
    ensures { Puts W.contents output.old output.new (chunk SAMPLER (sampler sample.now)) }
{
    output.head(*b"smpl", sampler_size(sample));
    put_sampler_head(sample, output);
    put_loop(sample.looped, output);
    put_stored_pitch(sample, output);
}

/// The size of the body of the `smpl` chunk of a sample, in bytes: 44, or 68 with a loop.
pub fn sampler_size(sample: &Sample<'_>) -> u32
    ensures value { result ≡ length (sampler sample.now) }
    ensures bound { result ≤ 68 }
{
    SAMPLER_SIZE + LOOP_SIZE * loop_count(sample.looped)
}

fn loop_count(looped: Option<(u32, u32)>) -> u32
    ensures value { result ≡ loop_count looped }
    ensures bound { result ≤ 1 }
{
    match looped {
        Some(_) => 1,
        None => 0,
    }
}

// Puts the header of the `smpl` chunk, before the loops.
#[tactic(auto, unfolding(crate::specs::SampleWave::sampler_head))]
fn put_sampler_head<W: Write>(sample: &Sample<'_>, output: &mut Output<'_, W>)
    ensures { Puts W.contents output.old output.new (sampler_head sample.now) }
{
    let unity_note = unity_note(sample.key, sample.correction);
    let fraction = pitch_fraction(sample.key, sample.correction);
    let loops = loop_count(sample.looped);
    let time = frame_time(sample.rate);
    put_numbers(&[0, 0, time, unity_note, fraction, 0, 0, loops, 8], output);
}

// The duration of a frame, in nanoseconds.
fn frame_time(rate: u32) -> u32
    ensures { result ≡ frame_time rate }
{
    if rate == 0 { 0 } else { SECOND / rate }
}

// Puts an infinite forward loop, if the sample has a loop.
#[tactic(auto, unfolding(crate::specs::SampleWave::loop_bytes), using(base_outputs::proofs::OutputLaws::puts_nothing))]
fn put_loop<W: Write>(looped: Option<(u32, u32)>, output: &mut Output<'_, W>)
    ensures { Puts W.contents output.old output.new (loop_bytes looped) }
{
    if let Some((first, end)) = looped {
        put_numbers(&[0, 0, first, end.saturating_sub(1), 0, 0], output);
    }
}

// Puts the sampler data: the key and the correction.
#[tactic(auto, unfolding(crate::specs::SampleWave::stored_pitch), using(base_outputs::proofs::OutputLaws::puts_then))]
fn put_stored_pitch<W: Write>(sample: &Sample<'_>, output: &mut Output<'_, W>)
    ensures { Puts W.contents output.old output.new (stored_pitch sample.now.key sample.now.correction) }
{
    output.put(b"sfbk");
    output.put(&[sample.key, sample.correction.cast_unsigned(), 0, 0]);
}

// Puts 32-bit numbers, little-endian.
#[tactic(auto, using(base_outputs::proofs::OutputLaws::putting_start, base_outputs::proofs::OutputLaws::putting_end))]
fn put_numbers<W: Write>(values: &[u32], output: &mut Output<'_, W>)
    ensures { Puts W.contents output.old output.new (numbers values.now) }
{
    for number in values {
        output.put(&number.to_le_bytes());
    }
}

// Puts points slice by slice: a long slice bypasses the buffer of the output.
#[tactic(auto, using(base_outputs::proofs::OutputLaws::putting_start, base_outputs::proofs::OutputLaws::putting_end))]
fn put_points<W: Write>(points: &Points<'_>, output: &mut Output<'_, W>)
    ensures { Puts W.contents output.old output.new (flat_map word_bytes points.now) }
{
    let pieces = points.pieces();
    for piece in pieces {
        output.put(piece);
    }
}
