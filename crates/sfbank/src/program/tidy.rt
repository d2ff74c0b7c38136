//! The command `tidy`.
ghost use Rattle.program_commands.specs.declared.words.Request.TheVariants as request;
ghost use Rattle.sfbank.specs.Purposes.{tidying};
ghost use Rattle.sfbank.specs.PlanParts.{with_edits};
ghost use Rattle.sfbank.specs.Ends.{EndsFor};
ghost use Rattle.sfbank.specs.Meanings.{Means};

use super::checks::reject_undo_of_plan;
use super::inputs::read_input;
use super::planned::put_planned;
use file_host::Host;
use plan_edits::Tidy;
use plan_take::RemoveDuplicates;
use program_commands::TidyPaths;
use program_reports::{Fault, KnowsError};
use std::alloc::Global;
use std::io::Write;

/// Tidies a bank: removes what it doesn't use, and changes no sound. The bank is read whole first, so OUT may be its own
/// file.
pub(crate) fn tidy<'a, H: Host, O: Write + KnowsError>(
    host: &mut H,
    alloc: Global,
    operands: TidyPaths<'a>,
    output: &mut O,
) -> Result<(), Fault<'a>>
    ensures { Means (request.Tidy operands.entry)
        (record { files = H.world host.old; printed = O.contents output.old })
        (record { files = H.world host.new; printed = O.contents output.new }) (H.written host.new) result }
{
    match reject_undo_of_plan(host, operands.paths) {
        Ok(()) => match read_input(host, alloc, operands.paths.input) {
            Ok(file) => put_tidied(host, alloc, operands, file.as_slice(), output),
            Err(fault) => Err(fault),
        },
        Err(fault) => Err(fault),
    }
}

fn put_tidied<'a, H: Host, O: Write + KnowsError>(
    host: &mut H,
    alloc: Global,
    operands: TidyPaths<'a>,
    file: &[u8],
    output: &mut O,
) -> Result<(), Fault<'a>>
    ensures { EndsFor (λ w. with_edits operands.entry.paths file.now (tidying file.now operands.entry.merge))
        (record { files = H.world host.old; printed = O.contents output.old })
        (record { files = H.world host.new; printed = O.contents output.new }) (H.written host.new) result }
{
    if operands.merge {
        put_planned(host, alloc, operands.paths, file, &RemoveDuplicates, output)
    } else {
        put_planned(host, alloc, operands.paths, file, &Tidy, output)
    }
}
