//! The only loop that writes.
ghost use Rattle.std.specs.Prelude.{◌≡◌, ◌+◌, ◌<◌, ◌≤◌, ◌^◌, ℕ, List, [], length};
ghost use Rattle.base_outputs.specs.Writing.{WritesAfter, Writes, Flushes};

use std::io::Write;
use thiserror::Error;

/// A writer returned an error or wrote no byte. Exactly the first `written` bytes of the text are written.
#[derive(Debug, Drop, Clone, Copy, PartialEq, Eq, Error)]
#[error("write fault after {written} bytes")]
pub struct WriteFault {
    pub written: u64,
}

/// Writes `bytes` after `sent` earlier bytes of a text, and returns the sum of their numbers.
///
/// An error, or a `write` of no bytes, is a fault, which counts the earlier bytes too. There is no retry. If the sum is
/// above 2^64, which no run reaches, none of `bytes` is written.
pub(crate) fn put_after<W: Write>(out: &mut W, sent: u64, bytes: &[u8]) -> Result<u64, WriteFault>
    ensures { WritesAfter (W.contents out.old) (W.contents out.new) sent bytes.now result }
{
    let Some(total) = sent.checked_add(bytes.len() as u64) else {
        return Err(WriteFault { written: sent });
    };
    let mut at = 0;
    while at < bytes.len() {
        match out.write(&bytes[at..]) {
            Ok(0) | Err(_) => {
                return Err(WriteFault {
                    written: sent + at as u64,
                });
            }
            Ok(count) => at += count,
        }
    }
    Ok(total)
}

/// Writes the whole text. An error, or a `write` of no bytes, is a fault; there is no retry.
pub fn put_all<W: Write>(out: &mut W, text: &[u8]) -> Result<(), WriteFault>
    ensures { Writes (W.contents out.old) (W.contents out.new) text.now result }
{
    put_after(out, 0, text)?;
    Ok(())
}

/// Flushes a writer to which all `sent` bytes are written. A failed flush is a fault after all of them.
pub(crate) fn finish<W: Write>(out: &mut W, sent: u64) -> Result<(), WriteFault>
    ensures { Flushes (W.contents out.old) (W.contents out.new) sent result }
{
    match out.flush() {
        Ok(()) => Ok(()),
        Err(_) => Err(WriteFault { written: sent }),
    }
}
