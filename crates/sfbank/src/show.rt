//! The listing of a bank, from bytes to bytes.
ghost use Rattle.sfbank.specs.Outcome.{show_outcome, show_details_outcome};
ghost use Rattle.sfbank.specs.Written.{RunsOneText};

use crate::writing::write_one;
use file_host::Which;
use program_reports::RunFault;
use sf_reader::read;
use show_listing::{Details, Listing};
use std::alloc::Global;
use std::io::Write;

/// Reads the file, writes the listing of its bank and of the counts of reading it to `out`, and flushes `out`.
///
/// Where the file has a fault or an allocation fails, nothing is written. A fault of the writer (`Which::Out`) has the
/// number of bytes written.
pub fn show_run<W: Write>(alloc: Global, file: &[u8], out: &mut W) -> Result<(), RunFault>
    // The outcome is the fault of the file, else the listing.
    ensures runs { RunsOneText (W.contents out.old) (W.contents out.new) (show_outcome file.now) result }
{
    let (bank, counts) = read(alloc, file)?;
    write_one(Which::Out, &Listing::plain(&bank, &counts), out)
}

/// Does what `show_run` does, with details: after the line of each preset, instrument or sample how often it is used,
/// its zones, or both. With neither it writes the listing of `show_run`.
///
/// Where the file has a fault or an allocation fails, nothing is written. A fault of the writer (`Which::Out`) has the
/// number of bytes written.
pub fn show_details_run<W: Write>(
    alloc: Global,
    file: &[u8],
    details: Details,
    out: &mut W,
) -> Result<(), RunFault>
    // The outcome is the fault of the file, else the listing with these details.
    ensures runs { RunsOneText (W.contents out.old) (W.contents out.new) (show_details_outcome details file.now) result }
{
    let (bank, counts) = read(alloc, file)?;
    let listing = Listing::detailed(alloc, &bank, &counts, details)?;
    write_one(Which::Out, &listing, out)
}
