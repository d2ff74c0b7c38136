//! Writing chunks of even length. All chunks of a canonical file are such, so none has a pad byte.
ghost use Rattle.std.specs.Prelude.{◌≡◌, ◌<◌, ◌%◌, ◌^◌, ◌++◌, length};
ghost use Rattle.base_outputs.specs.Output.{Puts};
ghost use Rattle.riff_chunks.specs.Encoding.{chunk, chunk_head};

use base_outputs::Output;
use riff_chunks::ChunkWriter;
use std::io::Write;

/// The length of a chunk's id and size in bytes.
pub(crate) const HEAD_SIZE: u32 = 8;

/// The length of the form of a list in bytes.
pub(crate) const FORM_SIZE: u32 = 4;

// Writes the id, the size and the form of a chunk; `size` counts the form.
#[tactic(auto, using(base_outputs::proofs::OutputLaws::puts_then))]
pub(crate) fn put_form_head<W: Write>(
    output: &mut Output<'_, W>,
    id: [u8; 4],
    form: [u8; 4],
    size: u32,
)
    ensures { Puts W.contents output.old output.new (chunk_head id size ++ form) }
{
    output.head(id, size);
    output.put(&form);
}

// Writes a chunk with a body of even length.
#[tactic(auto, using(crate::proofs::ChunkLaws::put_even))]
pub(crate) fn put_chunk<W: Write>(output: &mut Output<'_, W>, id: [u8; 4], body: &[u8])
    requires size { length body.now < 2 ^ 32 }
    requires even { length body.now % 2 ≡ 0 }
    ensures { Puts W.contents output.old output.new (chunk id body.now) }
{
    output.head(id, body.len() as u32);
    output.body(body);
}
