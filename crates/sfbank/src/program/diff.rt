//! The command `diff`.
ghost use Rattle.std.specs.Prelude.{not};
ghost use Rattle.program_commands.specs.declared.words.Request.TheVariants.{Diff};
ghost use Rattle.sfbank.specs.Differences.{two_banks_of};
ghost use Rattle.sfbank.specs.PlanParts.{with_difference};
ghost use Rattle.sfbank.specs.Ends.{EndsFor};
ghost use Rattle.sfbank.specs.Meanings.{Means};

use super::checks::reject_bank;
use super::inputs::read_two;
use super::outputs::put;
use crate::diff::difference_of;
use file_host::Host;
use program_commands::DiffPaths;
use program_reports::{Fault, KnowsError};
use std::alloc::Global;
use std::io::Write;

/// Writes a script that turns the first bank into the second. Both files are read whole first, so with `force` the
/// output may be one of them.
pub(crate) fn diff<'a, H: Host, O: Write + KnowsError>(
    host: &mut H,
    alloc: Global,
    paths: DiffPaths<'a>,
    output: &mut O,
) -> Result<(), Fault<'a>>
    ensures { Means (Diff paths.entry)
        (record { files = H.world host.old; printed = O.contents output.old })
        (record { files = H.world host.new; printed = O.contents output.new }) (H.written host.new) result }
{
    match reject_bank(host, paths.out, paths.force) {
        Ok(()) => match read_two(host, alloc, paths.first, paths.second) {
            Ok((first, second)) => {
                put_difference(
                    host,
                    alloc,
                    paths,
                    first.as_slice(),
                    second.as_slice(),
                    output,
                )
            }
            Err(fault) => Err(fault),
        },
        Err(fault) => Err(fault),
    }
}

fn put_difference<'a, H: Host, O: Write + KnowsError>(
    host: &mut H,
    alloc: Global,
    paths: DiffPaths<'a>,
    first: &[u8],
    second: &[u8],
    output: &mut O,
) -> Result<(), Fault<'a>>
    ensures { EndsFor (λ w. with_difference w paths.entry.out.now (not paths.entry.no_comments) first.now second.now (two_banks_of first.now second.now))
        (record { files = H.world host.old; printed = O.contents output.old })
        (record { files = H.world host.new; printed = O.contents output.new }) (H.written host.new) result }
{
    match difference_of(alloc, first, second, !paths.no_comments) {
        Ok(difference) => put(host, paths.out, &difference, output),
        Err(fault) => Err(Fault::Run(fault, paths.out)),
    }
}
