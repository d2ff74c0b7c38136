//! Writing chunks: the header of a chunk, its id and size, and its body.
ghost use Rattle.std.specs.Prelude.{◌≡◌};
ghost use Rattle.base_outputs.specs.Output.{Puts};
ghost use Rattle.riff_chunks.specs.Encoding.{chunk_head};

use base_outputs::Output;
use byteorder::{ByteOrder, LittleEndian};
use std::io::Write;

/// An output that chunks are written to, first the header of a chunk and then its body.
pub trait ChunkWriter {
    /// Writes the id and the size of a chunk, 8 bytes. The body must follow, and a zero byte after a body of odd size.
    fn head(&mut self, id: [u8; 4], size: u32);

    /// Writes bytes of a chunk's body.
    fn body(&mut self, bytes: &[u8]);
}

impl<'a, W: Write> ChunkWriter for Output<'a, W> {
    fn head(&mut self, id: [u8; 4], size: u32)
        ensures { Puts W.contents self.old self.new (chunk_head id size) }
    {
        self.put(&head_bytes(id, size));
    }

    fn body(&mut self, bytes: &[u8])
        ensures { Puts W.contents self.old self.new bytes.now }
    {
        self.put(bytes);
    }
}

// The bytes of a chunk header.
fn head_bytes(id: [u8; 4], size: u32) -> [u8; 8]
    ensures { result ≡ chunk_head id size }
{
    let mut head = [0; 8];
    head[..4].copy_from_slice(&id);
    LittleEndian::write_u32(&mut head[4..], size);
    head
}
