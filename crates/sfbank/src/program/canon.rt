//! The command `canon`.
ghost use Rattle.program_commands.specs.declared.words.Request.TheVariants.{Canon};
ghost use Rattle.sfbank.specs.Outcome.{canon_outcome};
ghost use Rattle.sfbank.specs.PlanParts.{with_text};
ghost use Rattle.sfbank.specs.Ends.{EndsFor};
ghost use Rattle.sfbank.specs.Meanings.{Means};

use super::inputs::read_input;
use super::outputs::put;
use crate::reading::read_bank;
use file_host::Host;
use program_commands::CanonPaths;
use program_reports::{Fault, KnowsError};
use sf_writer::BankFile;
use std::alloc::Global;
use std::io::Write;

/// Writes a bank in canonical form. The bank is read whole first, so the output may be its own file.
pub(crate) fn canon<'a, H: Host, O: Write + KnowsError>(
    host: &mut H,
    alloc: Global,
    paths: CanonPaths<'a>,
    output: &mut O,
) -> Result<(), Fault<'a>>
    ensures { Means (Canon paths.entry)
        (record { files = H.world host.old; printed = O.contents output.old })
        (record { files = H.world host.new; printed = O.contents output.new }) (H.written host.new) result }
{
    match read_input(host, alloc, paths.input) {
        Ok(file) => put_canon(host, alloc, paths, file.as_slice(), output),
        Err(fault) => Err(fault),
    }
}

fn put_canon<'a, H: Host, O: Write + KnowsError>(
    host: &mut H,
    alloc: Global,
    paths: CanonPaths<'a>,
    file: &[u8],
    output: &mut O,
) -> Result<(), Fault<'a>>
    ensures { EndsFor (λ w. with_text w paths.entry.out.now (canon_outcome file.now))
        (record { files = H.world host.old; printed = O.contents output.old })
        (record { files = H.world host.new; printed = O.contents output.new }) (H.written host.new) result }
{
    match read_bank(alloc, file) {
        Ok((bank, _counts)) => put(host, paths.out, &BankFile(&bank), output),
        Err(fault) => Err(Fault::Run(fault, paths.out)),
    }
}
