//! A text of given bytes.

use base_outputs::Output;
use base_texts::Text;
use std::io::Write;

/// Bytes as they are.
pub(crate) struct Bytes<'a>(pub(crate) &'a [u8]);

impl Text for Bytes<'_> {
    ghost bytes = { λ text. text.0.now };

    fn put<W: Write>(&self, output: &mut Output<'_, W>) {
        output.put(self.0);
    }
}
