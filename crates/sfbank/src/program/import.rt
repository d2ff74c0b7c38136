//! The command `import`.
ghost use Rattle.std.specs.Prelude.{Option, List, ℕ};
ghost use Rattle.program_commands.specs.declared.words.Request.{Request};
ghost use Rattle.program_commands.specs.declared.words.Request.TheVariants.{Import};
ghost use Rattle.sfbank.specs.Meanings.{Means, MeansPlan};
ghost use Rattle.sfbank.specs.RecordingPlans.{ImportsAs};

use super::checks::EditPaths;
use super::recorded::{RecordingWork, record};
use crate::recorded::Destination;
use file_host::Host;
use program_commands::{ImportPaths, recording_name};
use program_reports::Fault;
use sf_base::Name20;
use std::alloc::Global;
use wave_file::ReadOptions;

/// Imports a WAVE file into the bank, under its name if it is given, else named after the file.
pub(crate) fn import<'a, H: Host>(
    host: &mut H,
    alloc: Global,
    paths: ImportPaths<'a>,
) -> Result<(), Fault<'a>>
    ensures { (printed : Option (List ℕ)) → Means (Import paths.entry)
        (record { files = H.world host.old; printed = printed })
        (record { files = H.world host.new; printed = printed }) (H.written host.new) result }
{
    let ImportPaths {
        input,
        wave,
        out,
        undo,
        options,
        name,
        force,
    } = paths;
    let files = EditPaths {
        input,
        other: wave,
        out,
        undo,
        force,
    };
    match name {
        Some(name) => import_as(host, alloc, files, options, name),
        None => import_named(host, alloc, files, options, recording_name(wave).as_bytes()),
    }
}

// Imports the WAVE file under the name that is given.
fn import_as<'a, H: Host>(
    host: &mut H,
    alloc: Global,
    paths: EditPaths<'a>,
    options: ReadOptions,
    name: Name20,
) -> Result<(), Fault<'a>>
    ensures { (request : Request) (printed : Option (List ℕ)) → ImportsAs paths.entry options name request
        → MeansPlan request (record { files = H.world host.old; printed = printed })
        (record { files = H.world host.new; printed = printed }) (H.written host.new) result }
{
    import_named(host, alloc, paths, options, name.bytes())
}

// Imports the WAVE file under this name.
fn import_named<'a, H: Host>(
    host: &mut H,
    alloc: Global,
    paths: EditPaths<'a>,
    options: ReadOptions,
    name: &[u8],
) -> Result<(), Fault<'a>>
    ensures { (request : Request) (printed : Option (List ℕ)) → ImportsAs paths.entry options name.now request
        → MeansPlan request (record { files = H.world host.old; printed = printed })
        (record { files = H.world host.new; printed = printed }) (H.written host.new) result }
{
    let work = RecordingWork {
        paths,
        options,
        destination: Destination::End(name),
    };
    record(host, alloc, work)
}
