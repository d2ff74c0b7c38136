//! The command `copy`.
ghost use Rattle.program_commands.specs.declared.words.Request.TheVariants as request;
ghost use Rattle.sfbank.specs.Purposes.{copying};
ghost use Rattle.sfbank.specs.PlanParts.{with_edits};
ghost use Rattle.sfbank.specs.Ends.{EndsFor};
ghost use Rattle.sfbank.specs.Meanings.{Means};

use super::checks::reject_undo_of_plan;
use super::inputs::read_input;
use super::planned::put_edits;
use crate::copied_members::read_to_copy;
use file_host::Host;
use plan_copy::CopyMember;
use plan_presets::CopiedMember;
use program_commands::{CopyPaths, PlanPaths};
use program_reports::{Fault, KnowsError};
use sf_base::Name20;
use std::alloc::Global;
use std::io::Write;

/// Copies a preset, an instrument or a sample of a bank to the end of its list. The bank is read whole first, so OUT may
/// be its own file.
pub(crate) fn copy<'a, H: Host, O: Write + KnowsError>(
    host: &mut H,
    alloc: Global,
    operands: CopyPaths<'a>,
    output: &mut O,
) -> Result<(), Fault<'a>>
    ensures { Means (request.Copy operands.entry)
        (record { files = H.world host.old; printed = O.contents output.old })
        (record { files = H.world host.new; printed = O.contents output.new }) (H.written host.new) result }
{
    let CopyPaths {
        paths,
        member,
        name,
    } = operands;
    match reject_undo_of_plan(host, paths) {
        Ok(()) => match read_input(host, alloc, paths.input) {
            Ok(file) => put_copied(host, alloc, paths, file.as_slice(), member, name, output),
            Err(fault) => Err(fault),
        },
        Err(fault) => Err(fault),
    }
}

fn put_copied<'a, H: Host, O: Write + KnowsError>(
    host: &mut H,
    alloc: Global,
    paths: PlanPaths<'a>,
    file: &[u8],
    member: CopiedMember,
    name: Option<Name20>,
    output: &mut O,
) -> Result<(), Fault<'a>>
    ensures { EndsFor (λ w. with_edits paths.entry file.now (copying file.now member name))
        (record { files = H.world host.old; printed = O.contents output.old })
        (record { files = H.world host.new; printed = O.contents output.new }) (H.written host.new) result }
{
    match read_to_copy(alloc, file, member) {
        Ok(bank) => {
            let plan = CopyMember { member, name };
            put_edits(host, alloc, paths, bank, &plan, output)
        }
        Err(fault) => Err(Fault::Run(fault, paths.out)),
    }
}
