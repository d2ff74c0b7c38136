//! The canonical form of a bank, from bytes to bytes.
ghost use Rattle.sfbank.specs.Outcome.{canon_outcome, IsEmptyEdit, IsFixed};
ghost use Rattle.sfbank.specs.Written.{RunsOneText};

use crate::writing::write_one;
use file_host::Which;
use program_reports::RunFault;
use sf_reader::read;
use sf_writer::BankFile;
use std::alloc::Global;
use std::io::Write;

/// Reads the file, writes the canonical file of its bank to `out`, and flushes `out`.
///
/// Where the file has a fault or an allocation fails, nothing is written. A fault of the writer (`Which::Out`) has the
/// number of bytes written.
pub fn canon_run<W: Write>(alloc: Global, file: &[u8], out: &mut W) -> Result<(), RunFault>
    // The outcome is the fault of the file, else the canonical file.
    ensures runs { RunsOneText (W.contents out.old) (W.contents out.new) (canon_outcome file.now) result }
    // An edit by the empty script has the same outcome, with an empty undo text.
    ensures edit { IsEmptyEdit file.now }
    // The canonical file of the written file is that file itself.
    ensures fixed { IsFixed file.now }
{
    let (bank, _counts) = read(alloc, file)?;
    write_one(Which::Out, &BankFile(&bank), out)
}
