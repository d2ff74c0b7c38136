//! What can be written.
ghost use Rattle.base_outputs.specs.Writing.{Delivers};

use base_outputs::{Output, WriteFault};
use std::io::Write;

/// What can be written: a bank's file, a script, a listing, the line of a fault.
pub trait Text {
    ghost use Rattle.std.specs.Prelude.{List, ℕ};
    ghost use Rattle.base_outputs.specs.Output.{Puts};

    // The bytes of the text.
    ghost bytes: { Self → List ℕ };

    /// Puts exactly these bytes. Allocates nothing.
    fn put<W: Write>(&self, output: &mut Output<'_, W>)
        ensures { Puts W.contents output.old output.new (bytes self.now) };
}

impl Text for &str {
    ghost bytes = { λ text. text.now };

    fn put<W: Write>(&self, output: &mut Output<'_, W>) {
        output.put(self.as_bytes());
    }
}

/// Writes a text, and flushes the writer. Allocates nothing. A fault of the writer has the number of bytes written.
pub fn write_text<T: Text, W: Write>(text: &T, out: &mut W) -> Result<(), WriteFault>
    ensures { Delivers (W.contents out.old) (W.contents out.new) (T.bytes text.now) result }
{
    let mut output = Output::to(out);
    text.put(&mut output);
    output.deliver()?;
    Ok(())
}
