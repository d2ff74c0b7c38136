//! Finds which of two scripts is shorter, without writing them.
ghost use Rattle.std.specs.Prelude.{◌≡◌, [], IsTrue, IfOk, IfSome, IsSomeAnd};
ghost use Rattle.script_of_bank.specs.LeadsTo.{Leads};

use bank_core::Bank;
use base_outputs::Output;
use base_texts::Text;
use diff_banks::difference;
use edit_forms::Edit;
use edit_script::EditLines;
use script_of_bank::Replacement;
use sf_base::OutOfMemory;
use std::alloc::Global;
use std::io;
use std::io::{ErrorKind, Write};

/// The edits found between two banks, if their script is not longer than the one that replaces the first bank by the
/// second.
pub(crate) fn short_difference<'a>(
    alloc: Global,
    from: &Bank<'a>,
    to: &Bank<'a>,
) -> Result<Option<Vec<Edit<'a>>>, OutOfMemory>
    ensures found { IfOk result (λ answer. IfSome answer (λ edits. Leads from.now edits.items to.now)) }
    ensures nothing { from.now ≡ to.now → IfOk result (λ answer. IsSomeAnd answer (λ edits. edits.items ≡ [])) }
{
    if let Some(edits) = difference(alloc, from, to)? {
        if are_short(edits.as_slice(), from, to) {
            return Ok(Some(edits));
        }
    }
    Ok(None)
}

// Of the comparison only this is proved: an empty list of edits is short.
fn are_short(edits: &[Edit<'_>], from: &Bank<'_>, to: &Bank<'_>) -> bool
    ensures { edits.now ≡ [] → IsTrue result }
{
    edits.is_empty() || !replacement_fits(length_of(edits).saturating_sub(1), from, to)
}

/// Accepts at most `remaining` bytes, of which it keeps none, and fails at the first write that is longer.
#[derive(Drop)]
struct LimitedWriter {
    remaining: u64,
}

impl Write for LimitedWriter {
    fn write(&mut self, bytes: &[u8]) -> io::Result<usize> {
        let count = bytes.len() as u64;
        if count > self.remaining {
            return Err(io::Error::from(ErrorKind::WriteZero));
        }
        self.remaining -= count;
        Ok(bytes.len())
    }

    fn flush(&mut self) -> io::Result<()> {
        Ok(())
    }
}

// The length of edits as script lines, in bytes.
fn length_of(edits: &[Edit<'_>]) -> u64 {
    length_within(u64::MAX, &EditLines(edits)).unwrap_or(u64::MAX)
}

// The length of a text in bytes, if it is at most `most`.
fn length_within<T: Text>(most: u64, text: &T) -> Option<u64> {
    let mut room = LimitedWriter { remaining: most };
    let mut output = Output::to(&mut room);
    text.put(&mut output);
    output.end().ok()
}

// Whether the script that replaces a bank by another has at most `most` bytes.
fn replacement_fits(most: u64, from: &Bank<'_>, to: &Bank<'_>) -> bool {
    length_within(most, &Replacement { from, to }).is_some()
}
