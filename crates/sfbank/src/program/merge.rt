//! The command `merge`.
ghost use Rattle.program_commands.specs.declared.words.Request.TheVariants as request;
ghost use Rattle.sfbank.specs.Purposes.{merging};
ghost use Rattle.sfbank.specs.PlanParts.{with_edits};
ghost use Rattle.sfbank.specs.Ends.{EndsFor};
ghost use Rattle.sfbank.specs.Meanings.{Means};

use super::checks::reject_outputs_of_plan;
use super::inputs::read_two;
use super::planned::put_edits;
use crate::other_banks::read_to_merge;
use file_host::Host;
use plan_take::Merge;
use program_commands::{MergePaths, PlanPaths};
use program_reports::{Fault, KnowsError};
use std::alloc::Global;
use std::io::Write;

/// Adds all that another bank has after what a bank has. Both banks are read whole first, so OUT may be the file of the
/// first.
pub(crate) fn merge<'a, H: Host, O: Write + KnowsError>(
    host: &mut H,
    alloc: Global,
    operands: MergePaths<'a>,
    output: &mut O,
) -> Result<(), Fault<'a>>
    ensures { Means (request.Merge operands.entry)
        (record { files = H.world host.old; printed = O.contents output.old })
        (record { files = H.world host.new; printed = O.contents output.new }) (H.written host.new) result }
{
    match reject_outputs_of_plan(host, operands.paths, operands.from) {
        Ok(()) => match read_two(host, alloc, operands.paths.input, operands.from) {
            Ok((file, other)) => put_merged(
                host,
                alloc,
                operands.paths,
                file.as_slice(),
                other.as_slice(),
                operands.shift,
                output,
            ),
            Err(fault) => Err(fault),
        },
        Err(fault) => Err(fault),
    }
}

fn put_merged<'a, H: Host, O: Write + KnowsError>(
    host: &mut H,
    alloc: Global,
    paths: PlanPaths<'a>,
    file: &[u8],
    other: &[u8],
    shift: u16,
    output: &mut O,
) -> Result<(), Fault<'a>>
    ensures { EndsFor (λ w. with_edits paths.entry file.now (merging file.now other.now shift))
        (record { files = H.world host.old; printed = O.contents output.old })
        (record { files = H.world host.new; printed = O.contents output.new }) (H.written host.new) result }
{
    match read_to_merge(alloc, file, other, shift) {
        Ok((bank, from)) => {
            let plan = Merge { from: &from, shift };
            put_edits(host, alloc, paths, bank, &plan, output)
        }
        Err(fault) => Err(Fault::Run(fault, paths.out)),
    }
}
