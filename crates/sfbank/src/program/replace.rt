//! The command `replace`.
ghost use Rattle.std.specs.Prelude.{Option, List, ℕ};
ghost use Rattle.program_commands.specs.declared.words.Request.TheVariants.{Replace};
ghost use Rattle.sfbank.specs.Meanings.{Means};

use super::checks::EditPaths;
use super::recorded::{RecordingWork, record};
use crate::recorded::Destination;
use file_host::Host;
use program_commands::ReplacePaths;
use program_reports::Fault;
use std::alloc::Global;

/// Puts a WAVE file in the place of a sample of the bank.
pub(crate) fn replace<'a, H: Host>(
    host: &mut H,
    alloc: Global,
    paths: ReplacePaths<'a>,
) -> Result<(), Fault<'a>>
    ensures { (printed : Option (List ℕ)) → Means (Replace paths.entry)
        (record { files = H.world host.old; printed = printed })
        (record { files = H.world host.new; printed = printed }) (H.written host.new) result }
{
    let work = RecordingWork {
        paths: EditPaths {
            input: paths.input,
            other: paths.wave,
            out: paths.out,
            undo: paths.undo,
            force: paths.force,
        },
        options: paths.options,
        destination: Destination::Place(paths.sample),
    };
    record(host, alloc, work)
}
