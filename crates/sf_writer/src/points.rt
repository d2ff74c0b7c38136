//! The list `sdta`: the points of all samples (SoundFont 2.04, section 6).
ghost use Rattle.std.specs.Prelude.{◌≡◌, ◌++◌, length, flat_map};
ghost use Rattle.base_outputs.specs.Output.{Puts};
ghost use Rattle.riff_chunks.specs.Encoding.{encode};
ghost use Rattle.sample_view.specs.Words.{word_bytes};
ghost use Rattle.bank_format.specs.Canon.{sdta};
ghost use Rattle.bank_format.specs.Ids.{SDTA};
ghost use Rattle.bank_format.specs.Tables.{all_points, points_written};
ghost use Rattle.sf_writer.specs.Lists.{list_bytes};

use crate::chunks::put_form_head;
use bank_core::{Bank, Sample};
use base_outputs::Output;
use riff_chunks::{ChunkWriter, LIST_ID};
use sample_view::Points;
use std::io::Write;

/// The zero points after each sample, as bytes.
const ZERO_BYTES: [u8; 92] = [0; 92];

// Puts the list `sdta`.
pub(crate) fn put_sdta<W: Write>(output: &mut Output<'_, W>, bank: &Bank<'_>, size: u32, smpl: u32)
    requires size { size ≡ length (SDTA ++ encode (sdta bank.now)) }
    requires smpl { smpl ≡ length (flat_map word_bytes (all_points bank.now)) }
    ensures { Puts W.contents output.old output.new (list_bytes SDTA (sdta bank.now)) }
{
    put_form_head(output, LIST_ID, *b"sdta", size);
    put_smpl(output, bank, smpl);
}

// Puts the chunk `smpl`.
fn put_smpl<W: Write>(output: &mut Output<'_, W>, bank: &Bank<'_>, size: u32)
    requires { size ≡ length (flat_map word_bytes (all_points bank.now)) }
    ensures { Puts W.contents output.old output.new (encode (sdta bank.now)) }
{
    output.head(*b"smpl", size);
    put_samples(output, bank.samples());
}

// Puts the points of each sample, and the zero points after them.
#[tactic(auto, using(base_outputs::proofs::OutputLaws::putting_start, base_outputs::proofs::OutputLaws::putting_end))]
fn put_samples<W: Write>(output: &mut Output<'_, W>, samples: &[Sample<'_>])
    ensures { Puts W.contents output.old output.new
        (flat_map word_bytes (flat_map points_written samples.now)) }
{
    for sample in samples {
        put_sample(output, sample);
    }
}

// Puts the points of a sample, and the zero points after them.
fn put_sample<W: Write>(output: &mut Output<'_, W>, sample: &Sample<'_>)
    ensures { Puts W.contents output.old output.new (flat_map word_bytes (points_written sample.now)) }
{
    put_points(output, &sample.points);
    output.put(&ZERO_BYTES);
}

// Puts points as slices of the file that they were read from, so that long ones are not copied.
#[tactic(auto, using(base_outputs::proofs::OutputLaws::putting_start, base_outputs::proofs::OutputLaws::putting_end))]
fn put_points<W: Write>(output: &mut Output<'_, W>, points: &Points<'_>)
    ensures { Puts W.contents output.old output.new (flat_map word_bytes points.now) }
{
    let pieces = points.pieces();
    for piece in pieces {
        output.put(piece);
    }
}
