//! Where the body of the `data` chunk is.
ghost use Rattle.std.specs.Prelude.{IfSome};
ghost use Rattle.wave_file.specs.InPlace.{IsData};

use crate::chunks::{HEAD_SIZE, chunk_size};
use riff_chunks::Chunks;
use sf_base::rest_from;

/// A range of bytes.
#[derive(Clone, Copy)]
pub(crate) struct ByteRange {
    pub(crate) position: usize,
    pub(crate) size: usize,
}

/// The range in a window of the body of its first `data` chunk, unless the size of that chunk is unknown.
pub(crate) fn data_range(window: &[u8]) -> Option<ByteRange>
    ensures { IfSome result (λ range. IsData range window.now) }
{
    let mut rest = window;
    for item in Chunks::over(window) {
        let Ok(chunk) = item else {
            return None;
        };
        let id = chunk.0;
        if id == *b"data" {
            return Some(ByteRange {
                position: window.len() - rest.len() + HEAD_SIZE,
                size: chunk.1.len(),
            });
        }
        rest = rest_from(rest, chunk_size(chunk.1));
    }
    None
}
