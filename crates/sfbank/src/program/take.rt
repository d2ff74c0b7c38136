//! The command `take`.
ghost use Rattle.program_commands.specs.declared.words.Request.TheVariants as request;
ghost use Rattle.sfbank.specs.Purposes.{taking};
ghost use Rattle.sfbank.specs.PlanParts.{with_edits};
ghost use Rattle.sfbank.specs.Ends.{EndsFor};
ghost use Rattle.sfbank.specs.Meanings.{Means};

use super::checks::reject_outputs_of_plan;
use super::inputs::read_two;
use super::planned::put_edits;
use crate::other_banks::read_to_take;
use file_host::Host;
use plan_take::{Take, TakenPreset};
use program_commands::{PlanPaths, TakePaths};
use program_reports::{Fault, KnowsError};
use std::alloc::Global;
use std::io::Write;

/// Copies presets of another bank into a bank, with what they need. Both banks are read whole first, so OUT may be the
/// file of the first.
pub(crate) fn take<'a, H: Host, O: Write + KnowsError>(
    host: &mut H,
    alloc: Global,
    take: TakePaths<'a>,
    output: &mut O,
) -> Result<(), Fault<'a>>
    ensures { Means (request.Take take.entry)
        (record { files = H.world host.old; printed = O.contents output.old })
        (record { files = H.world host.new; printed = O.contents output.new }) (H.written host.new) result }
{
    let TakePaths {
        paths,
        from,
        presets,
    } = take;
    take_listed(host, alloc, paths, from, presets, output)
}

fn take_listed<'a, H: Host, O: Write + KnowsError>(
    host: &mut H,
    alloc: Global,
    paths: PlanPaths<'a>,
    from: &'a str,
    presets: Vec<TakenPreset>,
    output: &mut O,
) -> Result<(), Fault<'a>>
    ensures { Means (request.Take (record { paths = paths.entry; from = from.entry; presets = presets }))
        (record { files = H.world host.old; printed = O.contents output.old })
        (record { files = H.world host.new; printed = O.contents output.new }) (H.written host.new) result }
{
    match reject_outputs_of_plan(host, paths, from) {
        Ok(()) => match read_two(host, alloc, paths.input, from) {
            Ok((file, other)) => put_taken(
                host,
                alloc,
                paths,
                file.as_slice(),
                other.as_slice(),
                presets.as_slice(),
                output,
            ),
            Err(fault) => Err(fault),
        },
        Err(fault) => Err(fault),
    }
}

fn put_taken<'a, H: Host, O: Write + KnowsError>(
    host: &mut H,
    alloc: Global,
    paths: PlanPaths<'a>,
    file: &[u8],
    other: &[u8],
    presets: &[TakenPreset],
    output: &mut O,
) -> Result<(), Fault<'a>>
    ensures { EndsFor (λ w. with_edits paths.entry file.now (taking file.now other.now presets.now))
        (record { files = H.world host.old; printed = O.contents output.old })
        (record { files = H.world host.new; printed = O.contents output.new }) (H.written host.new) result }
{
    match read_to_take(alloc, file, other, presets) {
        Ok((bank, from)) => {
            let plan = Take {
                from: &from,
                presets,
            };
            put_edits(host, alloc, paths, bank, &plan, output)
        }
        Err(fault) => Err(Fault::Run(fault, paths.out)),
    }
}
