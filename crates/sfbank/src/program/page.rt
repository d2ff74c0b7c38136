//! The command `page`.
ghost use Rattle.program_commands.specs.declared.words.Request.TheVariants.{Page};
ghost use Rattle.sfbank.specs.FolderPlans.{bank_outcome};
ghost use Rattle.sfbank.specs.PlanParts.{with_page};
ghost use Rattle.sfbank.specs.Ends.{EndsFor};
ghost use Rattle.sfbank.specs.Meanings.{Means};

use super::checks::reject_bank;
use super::inputs::read_input;
use super::outputs::put;
use crate::check::read_checked;
use file_host::Host;
use program_commands::PagePaths;
use program_reports::{Fault, KnowsError};
use std::alloc::Global;
use std::io::Write;

/// Writes the page of a bank. The bank is read whole first, so with `force` the output may be its file.
pub(crate) fn page<'a, H: Host, O: Write + KnowsError>(
    host: &mut H,
    alloc: Global,
    paths: PagePaths<'a>,
    output: &mut O,
) -> Result<(), Fault<'a>>
    ensures { Means (Page paths.entry)
        (record { files = H.world host.old; printed = O.contents output.old })
        (record { files = H.world host.new; printed = O.contents output.new }) (H.written host.new) result }
{
    match reject_bank(host, paths.out, paths.force) {
        Ok(()) => match read_input(host, alloc, paths.input) {
            Ok(file) => put_page(host, alloc, paths, file.as_slice(), output),
            Err(fault) => Err(fault),
        },
        Err(fault) => Err(fault),
    }
}

fn put_page<'a, H: Host, O: Write + KnowsError>(
    host: &mut H,
    alloc: Global,
    paths: PagePaths<'a>,
    file: &[u8],
    output: &mut O,
) -> Result<(), Fault<'a>>
    ensures { EndsFor (λ w. with_page w paths.entry.out.now (bank_outcome file.now))
        (record { files = H.world host.old; printed = O.contents output.old })
        (record { files = H.world host.new; printed = O.contents output.new }) (H.written host.new) result }
{
    match read_checked(alloc, file) {
        Ok(checked) => put(host, paths.out, &checked.page(), output),
        Err(fault) => Err(Fault::Run(fault, paths.out)),
    }
}
