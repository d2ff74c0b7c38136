//! Texts that C stores.
ghost use Rattle.std.specs.Prelude.{◌≡◌, pos, length, IfOk};
ghost use Rattle.sfbank_c.specs.Texts.{fill_status};

use crate::status::{BAD_LENGTH, OK, OUT_OF_MEMORY};
use base_texts::{Text, write_text};
use sf_base::OutOfMemory;
use std::alloc::Global;

/// The bytes of a text.
pub(crate) fn bytes_of<T: Text>(alloc: Global, text: &T) -> Result<Vec<u8>, OutOfMemory>
    ensures { IfOk result (λ bytes. bytes.items ≡ T.bytes text.now) }
{
    let mut bytes = Vec::new(alloc);
    match write_text(text, &mut bytes) {
        Ok(()) => Ok(bytes),
        Err(_) => Err(OutOfMemory),
    }
}

/// Fills `out` with a text of that length, and returns the status.
pub(crate) fn fill<T: Text>(alloc: Global, text: &T, out: &mut [u8]) -> i32
    ensures status { (result ≡ OUT_OF_MEMORY → ⊥) → result ≡ fill_status (length out.old) (T.bytes text.now) }
    ensures filled { result ≡ pos 0 → out.new ≡ T.bytes text.now }
    ensures unchanged { (result ≡ pos 0 → ⊥) → out.new ≡ out.old }
{
    match bytes_of(alloc, text) {
        Ok(bytes) => {
            if bytes.len() != out.len() {
                return BAD_LENGTH;
            }
            out.copy_from_slice(bytes.as_slice());
            OK
        }
        Err(_) => OUT_OF_MEMORY,
    }
}
